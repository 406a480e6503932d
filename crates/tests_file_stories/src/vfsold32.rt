//! Files of vfsold32: their reports, what they are in the other flat format, and the usage that listings give them. A
//! whole record is eight numbers of four bytes, `put end` of a hard and a soft limit of blocks and the blocks in use,
//! of the same of inodes, and of the times of both.

/// What a report shows of files of some lengths, and of one that is read in both flat formats.
pub const REPORTED: &str = "\
= records are whole, or one is cut off
file q
run repquota -F vfsold32 -v q
head user q 7days 7days
fill 0 31
file q
run repquota -F vfsold32 -v q
status 3
! quota: q: damaged: PartialRecord at record 0
put end 8 2 4 9 8 9 3600 172800
keep one
file q one
run repquota -F vfsold32 -v q
head user q 01:00 2days
> #0           ++          4          2          8   none        9        8        9   none
use one
fill 0 1
file q
run repquota -F vfsold32 -v q
status 3
! quota: q: damaged: PartialRecord at record 1
run setquota -F vfsold32 0 1 1 1 1 q
status 3
! quota: q: damaged: PartialRecord at record 1
writes 0

= five records have as many bytes as four of vfsold, and nothing tells which ones they are
put end 0 0 0 0 0 0 604800 604800
put end 8 2 4 9 8 9 5 6
put end 0 0 3 0 0 1 0 0
put end 0 0 0 0 0 0 0 0
put end 20 10 0 40 30 0 0 0
keep five
file q five
run repquota -F vfsold32 -v q
head user q 7days 7days
> #1           ++          4          2          8   none        9        8        9   none
> #2           --          3          0          0      -        1        0        0      -
> #4           --          0         10         20      -        0       30       40      -
run repquota -F vfsold -v q
head user q 30064771079days 99420days
> #1           ++          8          9          4      -        6        5        9   none
> #2           --          0          1          0      -        0        0        0      -
> #3           -+         20          0          0      -       40        0       10      -

= an edit in the other flat format writes over records of other identifiers
file q five
run setquota -F vfsold 1 0 0 0 0 q
put end 0 0 0 0 0 0 604800 604800
put end 8 2 0 0 8 0 0 6
put end 0 0 0 0 0 1 0 0
put end 0 0 0 0 0 0 0 0
put end 20 10 0 40 30 0 0 0
holds q

= a time has 32 bits, and no sign
put end 0 0 0 0 0 0 4294967295 2147483648
put end 8 2 4 9 8 9 4294967295 2147483648
file q
run repquota -F vfsold32 -v -p q
head user q 49710days 24855days
> #1           ++          4          2          8 4294967295        9        8        9 2147483648

= a period of 0 is a week, and times alone make no record
put end 0 0 0 0 0 0 0 3600
file q
run repquota -F vfsold32 -v q
head user q 7days 01:00

= the calls of a report: records are read many at once
put end 0 0 1 0 0 1 0 0
keep record
file q record 3
run repquota -F vfsold32 q
calls size q; read q; read q;
head user q 7days 7days
> #0           --          1          0          0      -        1        0        0      -
> #1           --          1          0          0      -        1        0        0      -
> #2           --          1          0          0      -        1        0        0      -

= a header of a tree file has as many bytes as one record, and a flat file is no tree file
file q empty
run repquota -F vfsold32 q
head user q 7days 7days
> #0           +-     604800          1 3653246737   none        2        0   604800      -
file q five
run repquota q
status 3
! quota: q: not a quota file
run repquota -F vfsv1 q
status 3
! quota: q: not a quota file
";

/// Usage of listings, and timers at the ends of 32 bits.
pub const CHECKED: &str = "\
= limits stay and usage and timers are those of the listing
put end 0 0 0 0 0 0 604800 604800
put end 8 2 0 9 1 0 0 0
put end 8 2 400 9 1 400 1700000500 1700000600
put end 0 0 44 0 0 3 0 0
put end 8 6 800 0 0 1 1700000700 0
file q
text 1 0 9 1 8
text 1 0 9 2 0
text 2 0 9 3 6
text 2 0 9 4 0
text 4 0 9 5 12
text 5 0 9 6 1
input
both quotacheck -F vfsold32 q
put end 0 0 0 0 0 0 604800 604800
put end 8 2 4 9 1 2 1700604800 1700604800
put end 8 2 3 9 1 2 1700000500 1700000600
put end 0 0 0 0 0 0 0 0
put end 8 6 6 0 0 1 0 0
put end 0 0 1 0 0 1 0 0
holds q
absent q.new

= a listing makes a new file
raw no quota file
file q
input
both quotacheck -c -F vfsold32 q
put end 0 0 0 0 0 0 604800 604800
holds q
absent q.new
file q
text 1000 100 2049 12 8
input
both quotacheck -c -F vfsold32 q
put end 0 0 0 0 0 0 604800 604800
fill 0 31968
put end 0 0 4 0 0 1 0 0
holds q
absent q.new

= no file is written where the format has no room
file q
text 1048576 0 1 2 8
input
both quotacheck -c -F vfsold32 q
status 1
! quota: q: no room for id 1048576 of 1048576
writes 0
text 7 0 1 2 8589934591
input
both quotacheck -c -F vfsold32 q
status 1
! quota: q: no room for space 4398046510592 of 7
writes 0

= the end of a period has 32 bits
put end 0 0 0 0 0 0 604800 86400
put end 0 1 0 0 1 0 0 0
keep soft
put end 0 0 0 0 0 0 86400 604800
put end 0 1 0 0 1 0 0 0
keep other-soft
text 1 0 9 1 4
text 1 0 9 2 0
keep listing
now 4294362495
file q soft
input listing
both quotacheck -F vfsold32 q
put end 0 0 0 0 0 0 604800 86400
put end 0 1 2 0 1 2 4294967295 4294448895
holds q
file q other-soft
input listing
both quotacheck -F vfsold32 q
put end 0 0 0 0 0 0 86400 604800
put end 0 1 2 0 1 2 4294448895 4294967295
holds q
now 4294362496
file q soft
input listing
both quotacheck -F vfsold32 q
status 1
! quota: q: no room for btime 4294967296 of 1
writes 0
file q other-soft
input listing
both quotacheck -F vfsold32 q
status 1
! quota: q: no room for itime 4294967296 of 1
writes 0

= that of identifier 0 has to have them too, though it is not kept
put end 0 1 0 0 1 0 604800 604800
keep zero
text 0 0 9 1 4
text 0 0 9 2 0
keep listing
now 4294362495
file q zero
input listing
both quotacheck -F vfsold32 q
put end 0 1 2 0 1 2 604800 604800
holds q
now 4294362496
file q zero
input listing
both quotacheck -F vfsold32 q
status 1
! quota: q: no room for btime 4294967296 of 0
writes 0

= a timer of blocks past 32 bits is told before one of inodes past 64 bits
put end 0 0 0 0 0 0 1 4294967295
put end 0 1 0 0 1 0 0 0
file q
text 1 0 9 1 4
text 1 0 9 2 0
keep listing
now 18446744069414584321
input listing
both quotacheck -F vfsold32 q
status 1
! quota: q: no room for btime 18446744069414584322 of 1
writes 0
record btime 1 itime 4294967295
record bsoft 1 isoft 1
file q
input listing
both quotacheck -F vfsold q
status 1
! quota: q: no room for itime 18446744073709551616 of 1
writes 0
";
