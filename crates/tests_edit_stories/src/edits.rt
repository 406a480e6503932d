//! Limits that are copied, periods and times that are set.

/// Limits that are copied from one identifier to another.
pub const COPIED: &str = "\
= limits are copied without what is used
file q timed
run setquota -u -p 1000 7 q
changes q
run repquota -u -v q
head user q 7days 7days
> #7           --          0          2          8      -        0        0        0      -
> #1000        +-          4          2          8  7days        1        0        0      -

= one without a record has no limits to copy
file q timed
run setquota -p 7 1000 q
changes q
run repquota -v q
head user q 7days 7days
> #1000        --          4          0          0      -        1        0        0      -

= no limits are copied to one that uses nothing, whose record is gone then
file q empty
run setquota 1000 1 2 3 4 q
changes q
run setquota -p 7 1000 q
changes q
run repquota -v q
head user q 7days 7days

= of two without a record none gets one
file q timed
run setquota -p 7 8 q
same q
writes 0
file q empty
run setquota -p 7 7 q
same q
writes 0
file q
run setquota -F vfsold -p 7 8 q
same q
writes 0
";

/// Periods that are set.
pub const PERIODS: &str = "\
= periods are set in the header of a tree file
file q empty
run setquota -u -t 86400 3600 q
at q 0 3653246737 1 86400 3600
run repquota -u q
head user q 24:00 01:00

= periods make the first record of an empty flat file
file q
run setquota -F vfsold -t 86400 18446744073709551615 q
record btime 86400 itime 18446744073709551615
holds q
";

/// Times that are set.
pub const TIMES: &str = "\
= a time is set where the soft limit is exceeded
file q timed
run setquota -T -u 1000 3600 unset q
! quota: inode time not set, soft limit not exceeded
changes q
run repquota -p q
head user q 7days 7days
> #1000        +-          4          2          8 1700003600        1        0        0      0
file q timed
run setquota -T 1000 unset 5 q
! quota: inode time not set, soft limit not exceeded
changes q
run repquota -p q
head user q 7days 7days
> #1000        +-          4          2          8      0        1        0        0      0

= the times of blocks and of inodes are set apart
record btime 7 itime 9
record bhard 8 bsoft 2 blocks 4 ihard 9 isoft 8 inodes 9 btime 5 itime 6
file q
run setquota -F vfsold -T 1 unset 3600 q
record btime 7 itime 9
record bhard 8 bsoft 2 blocks 4 ihard 9 isoft 8 inodes 9 itime 1700003600
holds q
record btime 7 itime 9
record bhard 8 bsoft 2 blocks 4 ihard 9 isoft 8 inodes 9 btime 5 itime 6
file q
run setquota -F vfsold -T 1 7 unset q
record btime 7 itime 9
record bhard 8 bsoft 2 blocks 4 ihard 9 isoft 8 inodes 9 btime 1700000007
holds q
record btime 7 itime 9
record bhard 8 bsoft 2 blocks 4 ihard 9 isoft 8 inodes 9
file q
run setquota -F vfsold -T 1 0 0 q
record btime 7 itime 9
record bhard 8 bsoft 2 blocks 4 ihard 9 isoft 8 inodes 9 btime 1700000000 itime 1700000000
holds q

= a time of blocks is not set at the soft limit or without one
record btime 7 itime 9
record bhard 8 bsoft 4 blocks 4 ihard 9 isoft 8 inodes 9 btime 5 itime 6
file q
run setquota -F vfsold -T 1 7 unset q
! quota: block time not set, soft limit not exceeded
record btime 7 itime 9
record bhard 8 bsoft 4 blocks 4 ihard 9 isoft 8 inodes 9 btime 5
holds q
record btime 7 itime 9
record bhard 8 blocks 4 ihard 9 isoft 8 inodes 9 btime 5 itime 6
file q
run setquota -F vfsold -T 1 7 8 q
! quota: block time not set, soft limit not exceeded
record btime 7 itime 9
record bhard 8 blocks 4 ihard 9 isoft 8 inodes 9 btime 5 itime 1700000008
holds q

= a time of inodes is not set at the soft limit
record btime 7 itime 9
record bhard 8 bsoft 2 blocks 4 ihard 9 isoft 9 inodes 9 btime 5 itime 6
file q
run setquota -F vfsold -T 1 7 8 q
! quota: inode time not set, soft limit not exceeded
record btime 7 itime 9
record bhard 8 bsoft 2 blocks 4 ihard 9 isoft 9 inodes 9 btime 1700000007 itime 6
holds q

= the end of a period is a number of 64 bits
file q timed
run setquota -T 1000 18446744072009551615 5 q
! quota: inode time not set, soft limit not exceeded
changes q
run repquota -p q
head user q 7days 7days
> #1000        +-          4          2          8 18446744073709551615        1        0        0      0
file q timed
run setquota -T 1000 5 18446744073709551615 q
! quota: inode time not set, soft limit not exceeded
changes q
run repquota -p q
head user q 7days 7days
> #1000        +-          4          2          8 1700000005        1        0        0      0

= an end of a period that has more bits is refused
file q timed
run setquota -T -u 1000 18446744073709551615 unset q
status 1
! quota: q: no room for btime 18446744075409551615 of 1000
writes 0
run setquota -T 1000 18446744072009551616 5 q
status 1
! quota: q: no room for btime 18446744073709551616 of 1000
writes 0
record btime 7 itime 9
record bhard 8 bsoft 2 blocks 4 ihard 9 isoft 8 inodes 9 btime 5 itime 6
file q
run setquota -F vfsold -T 1 18446744073709551615 18446744073709551615 q
status 1
! quota: q: no room for btime 18446744075409551615 of 1
writes 0
run setquota -F vfsold -T 1 7 18446744072009551616 q
status 1
! quota: q: no room for itime 18446744073709551616 of 1
writes 0

= times that are skipped are warned of
file q six
run setquota -T 1000 5 unset q
! quota: block time not set, soft limit not exceeded
! quota: inode time not set, soft limit not exceeded
writes 0
run setquota -T 7 5 5 q
! quota: block time not set, soft limit not exceeded
! quota: inode time not set, soft limit not exceeded
writes 0
run setquota -T 1000 18446744073709551615 18446744073709551615 q
! quota: block time not set, soft limit not exceeded
! quota: inode time not set, soft limit not exceeded
writes 0
";

/// What refuses an edit. No run meets a file that is named `r`.
pub const REFUSED: &str = "\
= periods for which a file has no room
file q empty
run setquota -u -t 4294967296 1 q
status 1
! quota: q: no room for bgrace 4294967296
writes 0
run setquota -t 1 4294967297 q
status 1
! quota: q: no room for igrace 4294967297
writes 0
file q
run setquota -F vfsold -t 0 1 q
status 1
! quota: q: no room for bgrace 0
writes 0

= words that are no periods
file q empty
run setquota -t 1x y r
status 1
! quota: bad number 1x
writes 0
run setquota -t 1 y r
status 1
! quota: bad number y
writes 0
run setquota -t 1 1 r
status 1
! quota: r: no such file
writes 0
run setquota -t 18446744073709551616 y r
status 1
! quota: bad number 18446744073709551616
writes 0
run setquota -t 1 99999999999999999999 r
status 1
! quota: bad number 99999999999999999999
writes 0
run setquota -t 000000000000000000001 1 r
status 1
! quota: bad number 000000000000000000001
writes 0
run setquota -t unset 1 r
status 1
! quota: bad number unset
writes 0

= words that are no identifiers to copy between
file q six
run setquota -p 4294967296 carol r
status 1
! quota: bad number 4294967296
writes 0
run setquota -p 7 18446744073709551616 r
status 1
! quota: bad number 18446744073709551616
writes 0
run setquota -p carol 7 r
status 1
! quota: unknown name carol
writes 0
run setquota -p 7 carol r
status 1
! quota: unknown name carol
writes 0
run setquota -p 7 8 r
status 1
! quota: r: no such file
writes 0

= words that are no times and no limits
file q six
run setquota -T 1000 18446744073709551616 1 r
status 1
! quota: bad number 18446744073709551616
writes 0
run setquota -T 1000 1 99999999999999999999 r
status 1
! quota: bad number 99999999999999999999
writes 0
run setquota 1000 1 1 1 18446744073709551616 r
status 1
! quota: bad number 18446744073709551616
writes 0
run setquota -T carol x y r
status 1
! quota: unknown name carol
writes 0
run setquota -T 1000 x y r
status 1
! quota: bad number x
writes 0
run setquota -T 1000 unset unsett r
status 1
! quota: bad number unsett
writes 0

= an identifier for which a flat file has no room
file q
run setquota -F vfsold -p 7 1048576 q
status 1
! quota: q: no room for id 1048576 of 1048576
writes 0
run setquota -F vfsold -T 1048576 1 1 q
status 1
! quota: q: no room for id 1048576 of 1048576
writes 0

= a file of the other kind
file q six
run setquota -g -T 1000 1 1 q
status 3
! quota: q: wrong kind
writes 0
";
