//! Edits of files of vfsold32, of which a record is eight numbers of four bytes: of blocks the hard and the soft limit
//! and what is in use, the same of inodes, and the times of both.

/// What limits leave of a file.
pub const SET: &str = "\
= new limits lengthen an empty file
file q
run setquota -F vfsold32 -u 1000 100 200 10 20 q
calls size q; read q; write q; sync q;
fill 0 32000
hex c8000000 64000000 00000000 14000000 0a000000 00000000 00000000 00000000
holds q
absent q.new
run repquota -F vfsold32 -u -v q
head user q 7days 7days
> #1000        --          0        100        200      -        0       10       20      -
run repquota -F vfsold32 q
head user q 7days 7days

= the record of an identifier stands at its place
file q
run setquota -F vfsold32 65535 1 2 3 4 q
writes 1
at q 2097120 2 1 0 4 3 0 0 0 end

= all bytes but those of the record stay, and it is read and written once
put end 0 0 9 0 0 9 7 9
put end 8 2 4 0 0 1 5 6
put end 1 0 0 0 0 0 8 9
put end 0 0 0 0 0 0 0 0
keep four
file q four
run setquota -F vfsold32 1 100 200 10 20 q
calls size q; read q; read q; write q; sync q;
put end 0 0 9 0 0 9 7 9
put end 200 100 4 20 10 1 0 0
put end 1 0 0 0 0 0 8 9
put end 0 0 0 0 0 0 0 0
holds q
file q four
run setquota -F vfsold32 2 0 0 0 0 q
writes 1
put end 0 0 9 0 0 9 7 9
put end 8 2 4 0 0 1 5 6
fill 0 64
holds q

= limits of identifier 0 leave the periods, a stored 0 too
put end 0 0 9 0 0 9 7 0
put end 8 2 4 0 0 1 5 6
file q
run setquota -F vfsold32 0 1 2 3 4 q
put end 2 1 9 4 3 9 7 0
put end 8 2 4 0 0 1 5 6
holds q

= limits have 32 bits
file q
run setquota -F vfsold32 2 4294967295 4294967295 4294967295 4294967295 q
fill 0 64
put end 4294967295 4294967295 0 4294967295 4294967295 0 0 0
holds q
run setquota -F vfsold32 2 0 4294967296 4294967296 0 q
status 1
! quota: q: no room for isoft 4294967296 of 2
writes 0
run setquota -F vfsold32 1048576 0 4294967296 0 0 q
status 1
! quota: q: no room for id 1048576 of 1048576
writes 0

= limits are copied, and one who uses nothing then has no record
file q four
run setquota -F vfsold32 -p 1 0 q
put end 8 2 9 0 0 9 7 9
put end 8 2 4 0 0 1 5 6
put end 1 0 0 0 0 0 8 9
put end 0 0 0 0 0 0 0 0
holds q
file q four
run setquota -F vfsold32 -p 3 2 q
put end 0 0 9 0 0 9 7 9
put end 8 2 4 0 0 1 5 6
fill 0 64
holds q

= a form is printed, and sets limits
file q four
run edquota --print -F vfsold32 1 q
> Disk quotas for user #1 (uid 1):
>   Filesystem blocks soft hard inodes soft hard
>   q 4 2 8 1 0 0
text Disk quotas for user #1 (uid 1):
text   Filesystem blocks soft hard inodes soft hard
text   q 4 2 9 1 0 3
input
run edquota --apply -F vfsold32 1 q
put end 0 0 9 0 0 9 7 9
put end 9 2 4 3 0 1 5 0
put end 1 0 0 0 0 0 8 9
put end 0 0 0 0 0 0 0 0
holds q
";

/// Periods and times at the ends of their ranges.
pub const TIMES: &str = "\
= periods are 1 to 4294967295
file q
run setquota -F vfsold32 -t 4294967295 1 q
put end 0 0 0 0 0 0 4294967295 1
holds q
run setquota -F vfsold32 -t 1 4294967295 q
put end 0 0 0 0 0 0 1 4294967295
holds q
run setquota -F vfsold32 -t 0 4294967296 q
status 1
! quota: q: no room for bgrace 0
writes 0
run setquota -F vfsold32 -t 1 0 q
status 1
! quota: q: no room for igrace 0
writes 0
run setquota -F vfsold32 -t 4294967296 0 q
status 1
! quota: q: no room for bgrace 4294967296
writes 0
run setquota -F vfsold32 -t 4294967295 4294967296 q
status 1
! quota: q: no room for igrace 4294967296
writes 0

= periods leave all other bytes
put end 8 2 4 9 8 9 7 9
put end 8 2 4 0 0 1 5 6
file q
run setquota -F vfsold32 -t 86400 3600 q
writes 1
put end 8 2 4 9 8 9 86400 3600
put end 8 2 4 0 0 1 5 6
holds q

= limits start timers whose ends have 32 bits
put end 0 0 0 0 0 0 604800 86400
put end 0 0 2 0 0 2 0 0
keep used
put end 0 0 0 0 0 0 86400 604800
put end 0 0 2 0 0 2 0 0
keep other-used
now 4294362495
file q used
run setquota -F vfsold32 1 1 0 1 0 q
put end 0 0 0 0 0 0 604800 86400
put end 0 1 2 0 1 2 4294967295 4294448895
holds q
file q other-used
run setquota -F vfsold32 1 1 0 1 0 q
put end 0 0 0 0 0 0 86400 604800
put end 0 1 2 0 1 2 4294448895 4294967295
holds q
now 4294362496
file q used
run setquota -F vfsold32 1 1 0 1 0 q
status 1
! quota: q: no room for btime 4294967296 of 1
writes 0
run setquota -F vfsold32 1 1 4294967296 1 0 q
status 1
! quota: q: no room for bhard 4294967296 of 1
writes 0
run setquota -F vfsold32 1 2 0 1 0 q
put end 0 0 0 0 0 0 604800 86400
put end 0 2 2 0 1 2 0 4294448896
holds q
file q other-used
run setquota -F vfsold32 1 1 0 1 0 q
status 1
! quota: q: no room for itime 4294967296 of 1
writes 0

= a timer that runs stays, however late it is
put end 0 0 0 0 0 0 604800 604800
put end 8 1 2 9 1 2 4294967295 5
file q
run setquota -F vfsold32 1 1 0 1 0 q
put end 0 0 0 0 0 0 604800 604800
put end 0 1 2 0 1 2 4294967295 5
holds q

= those of identifier 0 have to fit too, though they are not kept
put end 0 0 2 0 0 2 604800 604800
keep zero
now 4294362495
file q zero
run setquota -F vfsold32 0 1 0 1 0 q
put end 0 1 2 0 1 2 604800 604800
keep zero-soft
holds q zero-soft
now 4294362496
file q zero
run setquota -F vfsold32 0 1 0 1 0 q
status 1
! quota: q: no room for btime 4294967296 of 0
writes 0
run setquota -F vfsold32 0 2 0 1 0 q
status 1
! quota: q: no room for itime 4294967296 of 0
writes 0

= a timer of blocks past 32 bits is told before one of inodes past 64 bits
put end 0 0 0 0 0 0 1 4294967295
put end 0 0 2 0 0 2 0 0
file q
now 18446744069414584321
run setquota -F vfsold32 1 1 0 1 0 q
status 1
! quota: q: no room for btime 18446744069414584322 of 1
writes 0
record btime 1 itime 4294967295
record blocks 2 inodes 2
file q
run setquota -F vfsold 1 1 0 1 0 q
status 1
! quota: q: no room for itime 18446744073709551616 of 1
writes 0

= times that are set have 32 bits
now 1700000000
put end 0 0 0 0 0 0 7 9
put end 0 1 2 0 1 2 5 6
keep soft
file q soft
run setquota -F vfsold32 -T 1 2594967295 unset q
put end 0 0 0 0 0 0 7 9
put end 0 1 2 0 1 2 4294967295 0
holds q
file q soft
run setquota -F vfsold32 -T 1 unset 2594967295 q
put end 0 0 0 0 0 0 7 9
put end 0 1 2 0 1 2 0 4294967295
holds q
file q soft
run setquota -F vfsold32 -T 1 2594967296 18446744072009551616 q
status 1
! quota: q: no room for btime 4294967296 of 1
writes 0
run setquota -F vfsold32 -T 1 2594967295 2594967296 q
status 1
! quota: q: no room for itime 4294967296 of 1
writes 0
run setquota -F vfsold32 -T 1 unset 18446744072009551616 q
status 1
! quota: q: no room for itime 18446744073709551616 of 1
writes 0
run setquota -F vfsold32 -T 1048576 1 1 q
status 1
! quota: q: no room for id 1048576 of 1048576
writes 0

= so have those of identifier 0, which are not kept
file q zero-soft
run setquota -F vfsold32 -T 0 2594967295 unset q
same q
writes 1
run setquota -F vfsold32 -T 0 2594967296 unset q
status 1
! quota: q: no room for btime 4294967296 of 0
writes 0
run setquota -F vfsold32 -T 0 unset 2594967296 q
status 1
! quota: q: no room for itime 4294967296 of 0
writes 0

= a time that is skipped does not have to fit
put end 0 0 0 0 0 0 7 9
put end 0 2 2 0 1 2 5 6
file q
run setquota -F vfsold32 -T 1 2594967296 7 q
! quota: block time not set, soft limit not exceeded
put end 0 0 0 0 0 0 7 9
put end 0 2 2 0 1 2 5 1700000007
holds q
";

/// Lines that are made together, and where their records stand.
pub const BATCHES: &str = "\
= the same lines both ways
put end 0 0 0 0 0 0 604800 604800
put end 8 2 4 9 8 9 5 6
put end 8 2 0 0 0 0 0 0
keep flat
text 1 20 30 40 50
text 5 1 2 3 4
text 2 0 0 0 0
text 3 0 0 0 0
text 1 21 31 41 51
keep lines
put end 0 0 0 0 0 0 604800 604800
put end 31 21 4 51 41 9 0 0
fill 0 96
put end 2 1 0 4 3 0 0 0
keep made
file q flat
input lines
both setquota -F vfsold32 -b q
writes 1
holds q made
absent q.new
file q flat
text beside
file q.new
input lines
both setquota -F vfsold32 -b q
writes 4
holds q made
same q.new

= two lines and twenty-four pieces of 1,024 bytes, or twenty-five
file q flat
text 600 1 2 3 4
text 767 1 2 3 4
input
both setquota -F vfsold32 -b q
writes 24
use flat
fill 0 19104
put end 2 1 0 4 3 0 0 0
fill 0 5312
put end 2 1 0 4 3 0 0 0
holds q
absent q.new
file q flat
text 600 1 2 3 4
text 768 1 2 3 4
input
both setquota -F vfsold32 -b q
writes 2
use flat
fill 0 19104
put end 2 1 0 4 3 0 0 0
fill 0 5344
put end 2 1 0 4 3 0 0 0
holds q
absent q.new

= an identifier far behind the end, and one behind the last one of a flat file
file q flat
text 1 20 30 40 50
text 65535 1 2 3 4
input
run setquota -F vfsold32 -b q
writes 2
at q 32 30 20 4 50 40 9 0 0 8 2 0 0
at q 2097120 2 1 0 4 3 0 0 0 end
absent q.new
file q flat
text 5 1 2 3 4
text 1048576 0 0 0 0
text 8 1 1 1 1
input
both setquota -F vfsold32 -b q
status 1
! quota: input line 2: q: no room for id 1048576 of 1048576
writes 1
use flat
fill 0 64
put end 2 1 0 4 3 0 0 0
holds q
absent q.new

= the line of a timer that has no room
put end 0 0 0 0 0 0 604800 604800
put end 0 0 2 0 0 2 0 0
keep used
now 4294362496
file q used
text 5 1 2 3 4
text 2 1 2 0 0
text 1 1 8 0 0
text 6 1 1 1 1
input
both setquota -F vfsold32 -b q
status 1
! quota: input line 3: q: no room for btime 4294967296 of 1
writes 1
use used
put end 2 1 0 0 0 0 0 0
fill 0 64
put end 2 1 0 4 3 0 0 0
holds q
absent q.new
";
