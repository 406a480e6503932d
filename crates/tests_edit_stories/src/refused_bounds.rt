/// Lines before one that is refused by its edit: they are made together where the file that they make has no more
/// pieces of 1,024 bytes than twelve for each of them. Beside a file of the name of the new one the same lines are made
/// where they stand, and leave the same bytes.
pub const REFUSED_BOUNDS: &str = "\
= one line, and twelve pieces of a flat file, or thirteen
text 306 1 2 3 4
text 6 4T 0 0 0
keep to-twelve
use flat
fill 0 12120
record bhard 2 bsoft 1 ihard 4 isoft 3
keep twelve
text 307 1 2 3 4
text 6 4T 0 0 0
keep to-thirteen
use flat
fill 0 12160
record bhard 2 bsoft 1 ihard 4 isoft 3
keep thirteen
file q flat
input to-twelve
both setquota -F vfsold -b q
status 1
! quota: input line 2: q: no room for bsoft 4294967296 of 6
writes 12
holds q twelve
absent q.new
file q flat
input to-thirteen
both setquota -F vfsold -b q
status 1
! quota: input line 2: q: no room for bsoft 4294967296 of 6
writes 1
holds q thirteen
absent q.new
text beside
file q.new
file q flat
input to-twelve
both setquota -F vfsold -b q
status 1
! quota: input line 2: q: no room for bsoft 4294967296 of 6
writes 1
holds q twelve
same q.new
file q flat
input to-thirteen
both setquota -F vfsold -b q
status 1
! quota: input line 2: q: no room for bsoft 4294967296 of 6
writes 1
holds q thirteen
same q.new

= one line, and twelve pieces of a tree file, or thirteen: nine blocks or ten, and three that are added
use six0
fill 0 3072
put 20 9
put 1028 6
put 2056 2
put 2112 16777216 1 1 0 1 1
put 6144 7
put 7168 8
put 8192 2
keep nine
use nine
fill 0 3072
put 20 12
put 1032 9
put 2056 3
put 2160 33554432 4 3 0 2 1
put 9216 10
put 10240 11
put 11264 2
keep twelve
use nine
fill 0 1024
put 20 10
put 2056 3
put 2160 1024 1 1 0 1 1
put 4112 9
put 9216 2
keep ten
use ten
fill 0 3072
put 20 13
put 1032 10
put 2056 4
put 2208 33554432 4 3 0 2 1
put 10240 11
put 11264 12
put 12288 2
keep thirteen
text 33554432 1 2 3 4
text 8 0 4294967296 0 0
keep three-blocks
file q nine
input three-blocks
both setquota -F vfsv0 -b q
status 1
! quota: input line 2: q: no room for bhard 4294967296 of 8
writes 12
holds q twelve
absent q.new
file q ten
input three-blocks
both setquota -F vfsv0 -b q
status 1
! quota: input line 2: q: no room for bhard 4294967296 of 8
writes 6
holds q thirteen
absent q.new
text beside
file q.new
file q nine
input three-blocks
both setquota -F vfsv0 -b q
status 1
! quota: input line 2: q: no room for bhard 4294967296 of 8
writes 6
holds q twelve
same q.new
file q ten
input three-blocks
both setquota -F vfsv0 -b q
status 1
! quota: input line 2: q: no room for bhard 4294967296 of 8
writes 6
holds q thirteen
same q.new

= two lines, and twenty-four pieces of a flat file, or twenty-five; the lines behind the refused one count for nothing
text 600 1 2 3 4
text 613 1 2 3 4
text 6 4T 0 0 0
text 7 1 1 1 1
text 8 1 1 1 1
keep to-twenty-four
use flat
fill 0 23880
record bhard 2 bsoft 1 ihard 4 isoft 3
fill 0 480
record bhard 2 bsoft 1 ihard 4 isoft 3
keep twenty-four
text 600 1 2 3 4
text 614 1 2 3 4
text 6 4T 0 0 0
text 7 1 1 1 1
text 8 1 1 1 1
keep to-twenty-five
use flat
fill 0 23880
record bhard 2 bsoft 1 ihard 4 isoft 3
fill 0 520
record bhard 2 bsoft 1 ihard 4 isoft 3
keep twenty-five
file q flat
input to-twenty-four
both setquota -F vfsold -b q
status 1
! quota: input line 3: q: no room for bsoft 4294967296 of 6
writes 24
holds q twenty-four
absent q.new
file q flat
input to-twenty-five
both setquota -F vfsold -b q
status 1
! quota: input line 3: q: no room for bsoft 4294967296 of 6
writes 2
holds q twenty-five
absent q.new
text beside
file q.new
file q flat
input to-twenty-four
both setquota -F vfsold -b q
status 1
! quota: input line 3: q: no room for bsoft 4294967296 of 6
writes 2
holds q twenty-four
same q.new
file q flat
input to-twenty-five
both setquota -F vfsold -b q
status 1
! quota: input line 3: q: no room for bsoft 4294967296 of 6
writes 2
holds q twenty-five
same q.new

= a line that has nothing to do counts too, in a flat file
use first-line
text 3 0 0 0 0
text 6 4T 0 0 0
keep idle-lines
use flat
fill 0 24440
file q
input idle-lines
both setquota -F vfsold -b q
status 1
! quota: input line 3: q: no room for bsoft 4294967296 of 6
writes 24
use flat-first
fill 0 24440
holds q
absent q.new
use flat
fill 0 24480
file q
input idle-lines
both setquota -F vfsold -b q
status 1
! quota: input line 3: q: no room for bsoft 4294967296 of 6
writes 1
use flat-first
fill 0 24480
holds q
absent q.new
text beside
file q.new
use flat
fill 0 24440
file q
input idle-lines
both setquota -F vfsold -b q
status 1
! quota: input line 3: q: no room for bsoft 4294967296 of 6
writes 1
use flat-first
fill 0 24440
holds q
same q.new

= and in a tree file, where the line behind the refused one does not
use six0-line
text 8 0 0 0 0
text 8 0 4294967296 0 0
text 9 1 1 1 1
keep idle-lines
use six0
fill 0 18432
file q
input idle-lines
both setquota -F vfsv0 -b q
status 1
! quota: input line 3: q: no room for bhard 4294967296 of 8
writes 24
use six0-made
fill 0 18432
holds q
absent q.new
use six0
fill 0 19456
file q
input idle-lines
both setquota -F vfsv0 -b q
status 1
! quota: input line 3: q: no room for bhard 4294967296 of 8
writes 1
use six0-made
fill 0 19456
holds q
absent q.new
text beside
file q.new
use six0
fill 0 18432
file q
input idle-lines
both setquota -F vfsv0 -b q
status 1
! quota: input line 3: q: no room for bhard 4294967296 of 8
writes 1
use six0-made
fill 0 18432
holds q
same q.new

= a line before a refused one, by a replacement that writes more than the line where it stands
file q six0
use six0-line
text 8 0 4294967296 0 0
input
both setquota -F vfsv0 -b q
status 1
! quota: input line 2: q: no room for bhard 4294967296 of 8
writes 6
holds q six0-made
absent q.new
file q six0
text beside
file q.new
use six0-line
text 8 0 4294967296 0 0
input
both setquota -F vfsv0 -b q
status 1
! quota: input line 2: q: no room for bhard 4294967296 of 8
writes 1
holds q six0-made
same q.new

= a first record before a refused line, by as many calls either way
text 1000 1 2 3 4
text 8 0 4294967296 0 0
keep refused-second
file q empty0
input refused-second
both setquota -F vfsv0 -b q
status 1
! quota: input line 2: q: no room for bhard 4294967296 of 8
writes 6
holds q six0
absent q.new
file q empty0
text beside
file q.new
input refused-second
both setquota -F vfsv0 -b q
status 1
! quota: input line 2: q: no room for bhard 4294967296 of 8
writes 6
holds q six0
same q.new

= the calls of a line before a refused one, and of the same where it stands
use flat
fill 0 1120
keep two-pieces
use first-line
text 6 4T 0 0 0
keep refused-second
file q two-pieces
input refused-second
run setquota -F vfsold -b q
status 1
! quota: input line 2: q: no room for bsoft 4294967296 of 6
calls size q; read q; size q.new; size q; size q; read q; read q; create q.new; write q.new; write q.new; sync q.new; rename q.new q;
use flat-first
fill 0 1120
holds q
file q two-pieces
text beside
file q.new
input refused-second
run setquota -F vfsold -b q
status 1
! quota: input line 2: q: no room for bsoft 4294967296 of 6
calls size q; read q; size q.new; read q; write q; sync q; read q;
use flat-first
fill 0 1120
holds q
same q.new
";
