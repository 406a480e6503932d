/// Which lines are made together: two or more, in a file that can come to no more pieces of 1,024 bytes than twelve for
/// each line. A flat file may come to the record of the greatest identifier, and a tree file may grow by four blocks
/// with each line.
pub const BOUNDS: &str = "\
= two lines and twenty-four pieces of a flat file, or twenty-five
file q flat
text 600 1 2 3 4
text 613 1 2 3 4
input
both setquota -F vfsold -b q
writes 24
use flat
fill 0 23880
record bhard 2 bsoft 1 ihard 4 isoft 3
fill 0 480
record bhard 2 bsoft 1 ihard 4 isoft 3
holds q
absent q.new
file q flat
text 613 1 2 3 4
text 600 1 2 3 4
input
both setquota -F vfsold -b q
writes 24
use flat
fill 0 23880
record bhard 2 bsoft 1 ihard 4 isoft 3
fill 0 480
record bhard 2 bsoft 1 ihard 4 isoft 3
holds q
file q flat
text 600 1 2 3 4
text 614 1 2 3 4
input
both setquota -F vfsold -b q
writes 2
use flat
fill 0 23880
record bhard 2 bsoft 1 ihard 4 isoft 3
fill 0 520
record bhard 2 bsoft 1 ihard 4 isoft 3
holds q
absent q.new
file q flat
text 600 1 2 3 4
text 700 1 2 3 4
input
both setquota -F vfsold -b q
writes 2
use flat
fill 0 23880
record bhard 2 bsoft 1 ihard 4 isoft 3
fill 0 3960
record bhard 2 bsoft 1 ihard 4 isoft 3
holds q

= so it is of one who is not given a record
file q flat
text 1 20 30 40 50
text 613 0 0 0 0
input
both setquota -F vfsold -b q
writes 1
record btime 604800 itime 604800
record bhard 30 bsoft 20 blocks 4 ihard 50 isoft 40 inodes 9
record bhard 8 bsoft 2
holds q
file q flat
text 1 20 30 40 50
text 614 0 0 0 0
input
run setquota -F vfsold -b q
calls size q; read q; size q.new; size q; read q; write q; sync q;
record btime 604800 itime 604800
record bhard 30 bsoft 20 blocks 4 ihard 50 isoft 40 inodes 9
record bhard 8 bsoft 2
holds q

= two lines and sixteen blocks of a tree file, or seventeen
use six
fill 0 10240
file q
text 1000 1 2 3 4
text 1000 100 200 10 20
input
both setquota -b q
writes 16
use six-made
fill 0 10240
holds q
absent q.new
use six
fill 0 11264
file q
text 1000 1 2 3 4
text 1000 100 200 10 20
input
both setquota -b q
writes 2
use six-made
fill 0 11264
holds q
absent q.new

= bytes behind the last block that are no whole block stay, and count where they begin one more
use six
fill 0 700
file q
text 1000 1 2 3 4
text 1000 100 200 10 20
input
both setquota -b q
writes 7
use six-made
fill 0 700
holds q
absent q.new
use six
fill 0 10241
file q
text 1000 1 2 3 4
text 1000 100 200 10 20
input
both setquota -b q
writes 2
use six-made
fill 0 10241
holds q
absent q.new

= two identifiers far apart make nine blocks of a header alone
file q empty0
text 1 1 1 1 1
text 16777216 1 1 1 1
input
both setquota -F vfsv0 -b q
writes 9
changes q
absent q.new

= three lines and twenty-four blocks, or twenty-five
use six
fill 0 18432
file q
text 1000 1 2 3 4
text 1000 2 2 3 4
text 1000 100 200 10 20
input
both setquota -b q
writes 24
changes q
use six
fill 0 19456
file q
text 1000 1 2 3 4
text 1000 2 2 3 4
text 1000 100 200 10 20
input
both setquota -b q
writes 3
changes q

= a line that is passed over, or refused before its edit, counts for nothing
text 1000 1 2 3 4
text # 1000 1 2 3 4
text
text 1000 100 200 10 20
text zoe 1 1 1 1
keep two-lines
use six
fill 0 10240
file q
input two-lines
both setquota -b q
status 1
! quota: input line 5: unknown name zoe
writes 16
use six-made
fill 0 10240
holds q
absent q.new
use six
fill 0 11264
file q
input two-lines
both setquota -b q
status 1
! quota: input line 5: unknown name zoe
writes 2
use six-made
fill 0 11264
holds q
absent q.new

= lines that have nothing to do count too
use six
fill 0 18432
file q
text 1000 100 200 10 20
text 8 0 0 0 0
text 9 0 0 0 0
input
both setquota -b q
writes 24
use six-made
fill 0 18432
holds q

= two lines replace the file, and one line does not, however small it is
file q flat
input first-line
run setquota -F vfsold -b q
calls size q; read q; read q; write q; sync q;
holds q flat-first
absent q.new
file q flat
input begun-lines
run setquota -F vfsold -b q
calls size q; read q; size q.new; size q; size q; read q; create q.new; write q.new; sync q.new; rename q.new q;
holds q flat-begun
absent q.new
file q six0
input six0-line
both setquota -F vfsv0 -b q
writes 1
holds q six0-made
absent q.new
file q six0
use six0-line
text 8 0 0 0 0
input
both setquota -F vfsv0 -b q
writes 6
holds q six0-made
absent q.new
file q six
text 1000 100 200 10 20
input
both setquota -b q
writes 1
holds q six-made
absent q.new
file q six
text 1000 1 2 3 4
text 1000 100 200 10 20
input
both setquota -b q
writes 6
holds q six-made
absent q.new

= one line looks for no other file, and writes where its record stands
file q six0
input six0-line
run setquota -F vfsv0 -b q
calls size q; read q; size q; read q; read q; read q; read q; read q; read q; read q; read q; read q; read q; read q; read q; read q; read q; read q; read q; write q; sync q;
holds q six0-made

= one line is made where the record stands
use flat
fill 0 7920
file q
text 1 20 30 40 50
input
both setquota -F vfsold -b q
writes 1
record btime 604800 itime 604800
record bhard 30 bsoft 20 blocks 4 ihard 50 isoft 40 inodes 9
record bhard 8 bsoft 2
fill 0 7920
holds q
absent q.new
use six
fill 0 1042432
file q
text 1000 100 200 10 20
text #
input
both setquota -b q
writes 1
changes q
absent q.new

= so is one line before a refused one
use flat
fill 0 7920
file q
text 1 20 30 40 50
text zoe 1 1 1 1
text 5 1 1 1 1
input
both setquota -F vfsold -b q
status 1
! quota: input line 2: unknown name zoe
writes 1
record btime 604800 itime 604800
record bhard 30 bsoft 20 blocks 4 ihard 50 isoft 40 inodes 9
record bhard 8 bsoft 2
fill 0 7920
holds q
absent q.new
";
