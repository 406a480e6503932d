/// Lines at the edges of what a batch takes, and calls that fail under one.
pub const EDGES: &str = "\
= a line has a greatest length
file q empty
text 7 1 2 0 0
raw 7 1 2 0 0
fill 32 1015
text
input
both setquota -b q
changes q
run repquota -v q
head user q 7days 7days
> #7           --          0          1          2      -        0        0        0      -
file q empty
text 7 1 2 0 0
raw #
hex ff
fill 32 1022
text
input
both setquota -b q
changes q
run repquota -v q
head user q 7days 7days
> #7           --          0          1          2      -        0        0        0      -
file q empty
text 7 1 2 0 0
fill 32 1024
text
input
both setquota -b q
changes q
run repquota -v q
head user q 7days 7days
> #7           --          0          1          2      -        0        0        0      -
file q empty
text 7 1 2 0 0
raw 8 1 2 0 0
fill 32 1016
text
text 9 1 1 1 1
input
both setquota -b q
status 1
! quota: input: long line 2
changes q
run repquota -v q
head user q 7days 7days
> #7           --          0          1          2      -        0        0        0      -
file q empty
text 7 1 2 0 0
raw #
hex ff
fill 32 1023
text
text 9 1 1 1 1
input
both setquota -b q
status 1
! quota: input: long line 2
changes q
run repquota -v q
head user q 7days 7days
> #7           --          0          1          2      -        0        0        0      -
file q empty
text 7 1 2 0 0
fill 32 1025
text
text 9 1 1 1 1
input
both setquota -b q
status 1
! quota: input: long line 2
changes q
run repquota -v q
head user q 7days 7days
> #7           --          0          1          2      -        0        0        0      -

= no byte is lost where a line ends at the edge of a piece
raw # note
fill 32 1017
text
keep note
file q empty
use note 3
raw 7 1 2 0 0
fill 32 1013
text
text 89 3 4 0 0
input
both setquota -b q
changes q
run repquota -v q
head user q 7days 7days
> #7           --          0          1          2      -        0        0        0      -
> #89          --          0          3          4      -        0        0        0      -
file q empty
use note 3
raw 7 1 2 0 0
fill 32 1014
text
text 89 3 4 0 0
input
both setquota -b q
changes q
run repquota -v q
head user q 7days 7days
> #7           --          0          1          2      -        0        0        0      -
> #89          --          0          3          4      -        0        0        0      -
file q empty
use note 3
raw 7 1 2 0 0
fill 32 1015
text
text 89 3 4 0 0
input
both setquota -b q
changes q
run repquota -v q
head user q 7days 7days
> #7           --          0          1          2      -        0        0        0      -
> #89          --          0          3          4      -        0        0        0      -

= an input that fails leaves the file
file q empty
raw #
fill 32 999
text
keep note
text 7 1 2 0 0
use note 9
keep lines
input lines
fails input 1
run setquota -b q
status 4
! quota: input fault
writes 0
input lines
fails input 2
run setquota -b q
status 4
! quota: input fault
writes 0
input lines
stays q q.new
sweep input setquota -b q
changes q
run repquota -v q
head user q 7days 7days
> #7           --          0          1          2      -        0        0        0      -

= a store that fails leaves what some of the lines made
file q empty
run setquota 1000 100 200 0 0 q
changes q
use q
keep first
run setquota 1001 1 2 3 4 q
changes q
use q
keep both
text alice:x:1000:1000:Alice:/home/alice:/bin/sh
text bob:x:1001:100::/home/bob:/bin/sh
file other
text alice 100 200 0 0
text bob 1 2 3 4
file l
file q empty
text beside
file q.new
fails store 1
run setquota -b --names other --input l q
status 4
! quota: store fault
same q
file q empty
may q first
stays q.new
sweep store setquota -b --names other --input l q
holds q both
";

/// Lines for whose limits the format has no room, and files that are refused before a line is read.
pub const ROOM: &str = "\
= the header of an empty file of vfsv0
hex 111fc0d9 00000000 803a0900 803a0900 00000000 02000000 00000000 00000000
keep old

= the lines before one without room stay
file q old
text 7 1 2 0 0
text 8 0 4294967296 0 0
text 9 x
input
both setquota -b -F vfsv0 q
status 1
! quota: input line 2: q: no room for bhard 4294967296 of 8
changes q
run repquota -v -F vfsv0 q
head user q 7days 7days
> #7           --          0          1          2      -        0        0        0      -
file q old
text 7 1 2 0 0
text
text 7 5 6 0 5g
input
both setquota -b -u q
status 1
! quota: input line 3: q: no room for ihard 5000000000 of 7
changes q
run repquota -v -u q
head user q 7days 7days
> #7           --          0          1          2      -        0        0        0      -
file q
text 7 1 2 0 0
text 1048576 0 0 0 0
text 8 1 1 1 1
input
both setquota -b -F vfsold q
status 1
! quota: input line 2: q: no room for id 1048576 of 1048576
changes q
run repquota -v -F vfsold q
head user q 7days 7days
> #7           --          0          1          2      -        0        0        0      -
file q
text 7 1 2 0 0
raw 8 4T 0 0 0
input
both setquota -b -F vfsold q
status 1
! quota: input line 2: q: no room for bsoft 4294967296 of 8
changes q
run repquota -v -F vfsold q
head user q 7days 7days
> #7           --          0          1          2      -        0        0        0      -

= the first line that is refused ends the batch
file q old
text 7 0 4294967296 0 0
text 8 x
input
run setquota -b q
status 1
! quota: input line 1: q: no room for bhard 4294967296 of 7
writes 0
text zoe 1 1 1 1
text 7 1 2 0 0
input
run setquota -b q
status 1
! quota: input line 1: unknown name zoe
writes 0
text x
text 7 0 4294967296 0 0
input
run setquota -b q
status 1
! quota: input: bad line 1
writes 0

= the file is opened before the lines are read
file q empty
text none
file other
text 7 1 2 0 0
file l
run setquota -b r
status 1
! quota: r: no such file
writes 0
run setquota -b --input n r
status 1
! quota: r: no such file
writes 0
run setquota -b --input n q
status 1
! quota: n: no such file
writes 0
run setquota -b --names n r
status 1
! quota: n: no such file
writes 0
run setquota -b --names other r
status 1
! quota: other: bad line 1
writes 0
run setquota -bg q
status 3
! quota: q: wrong kind
writes 0
run setquota -bFvfsv0 q
status 3
! quota: q: other format
writes 0
run setquota -b l
status 3
! quota: l: not a quota file
writes 0
run setquota -b -F vfsold q
status 3
! quota: q: damaged: PartialRecord at record 0
writes 0
";
