/// Calls that fail under lines that are made together: none of the lines is made then, unless all are.
pub const FAILING: &str = "\
= each call fails in turn
file q flat
input flat-lines
stays q
sweep each setquota -F vfsold -b q
holds q flat-made
file q flat
use flat-lines
file l
stays q l
sweep each setquota -F vfsold -b --input l q
holds q flat-made
same l
file q tree
input tree-lines
stays q
sweep each setquota -b q
holds q tree-made
file q tree0
input tree-lines
stays q
sweep each setquota -F vfsv0 -b q
holds q tree0-made

= so it does where a line is refused
file q flat
use begun-lines
text zoe 1 1 1 1
input
stays q
sweep each setquota -F vfsold -b q
status 1
! quota: input line 3: unknown name zoe
holds q flat-begun
file q flat
use begun-lines
text 6 4T 0 0 0
input
stays q
sweep each setquota -F vfsold -b q
status 1
! quota: input line 3: q: no room for bsoft 4294967296 of 6
holds q flat-begun

= and where one line was made before it, in a file of more than one piece
use flat
fill 0 7920
file q
use first-line
text 6 4T 0 0 0
input
stays q
sweep each setquota -F vfsold -b q
status 1
! quota: input line 2: q: no room for bsoft 4294967296 of 6
use flat-first
fill 0 7920
holds q
file q six0
use six0-line
text 8 0 4294967296 0 0
input
stays q
sweep each setquota -F vfsv0 -b q
status 1
! quota: input line 2: q: no room for bhard 4294967296 of 8
holds q six0-made
file q six0
use six0-line
text 8 0 4294967296 0 0
file l
stays q l
sweep each setquota -F vfsv0 -b --input l q
status 1
! quota: input line 2: q: no room for bhard 4294967296 of 8
holds q six0-made
same l

= each call that fails, where they are made where they stand
file q flat
text beside
file q.new
input begun-lines
stays q.new
may q flat-first
sweep each setquota -F vfsold -b q
holds q flat-begun

= so it is where they are before a refused one, for which the new file would have too many pieces
use flat
fill 0 24480
file q
use flat-first
fill 0 24480
keep long-first
use begun-lines
text 6 4T 0 0 0
input
stays q.new
may q long-first
sweep each setquota -F vfsold -b q
status 1
! quota: input line 3: q: no room for bsoft 4294967296 of 6
use flat-begun
fill 0 24360
holds q

= one line alone leaves every other file as it was, whichever call fails
file q flat
input first-line
stays q.new
sweep each setquota -F vfsold -b q
holds q flat-first
file q flat
use first-line
file l
stays l q.new
sweep each setquota -F vfsold -b --input l q
holds q flat-first
same l
file q six0
input six0-line
stays q.new
sweep each setquota -F vfsv0 -b q
holds q six0-made
file q six
text 1000 100 200 10 20
input
stays q.new
sweep each setquota -b q
holds q six-made
text beside
file q.new
file q flat
input first-line
stays q.new
sweep each setquota -F vfsold -b q
holds q flat-first
same q.new

= a file that cannot be made or renamed is told, and the new one may be left
file q flat
input flat-lines
fails store 7
run setquota -F vfsold -b q
status 4
! quota: store fault
same q
absent q.new
input flat-lines
fails store 10
run setquota -F vfsold -b q
status 4
! quota: store fault
same q
holds q.new flat-made
input begun-lines
run setquota -F vfsold -b q
writes 2
holds q flat-begun
same q.new

= lines in a script, and what is changed where it stands behind them
file q flat
use flat-lines
file l
text setquota -F vfsold -b --input l q
text setquota -F vfsold 2 0 7 0 0 q
text setquota -F vfsold -b --input l q
input
run script
writes 3
holds q flat-made
record btime 604800 itime 604800
record bhard 8 bsoft 2 blocks 4 ihard 9 isoft 8 inodes 9 btime 5 itime 6
record bhard 7
keep scripted
file q flat
text setquota -F vfsold 2 0 7 0 0 q
text setquota -F vfsold -b --input l q
text setquota -F vfsold 2 0 7 0 0 q
input
may q scripted
may q flat-made
sweep each script
record btime 604800 itime 604800
record bhard 31 bsoft 21 blocks 4 ihard 51 isoft 41 inodes 9
record bhard 7
fill 0 80
record bhard 2 bsoft 1 ihard 4 isoft 3
holds q

= a new file that was left behind stays there, and lines are made where they stand
file q flat
use flat
fill 0 40
file q.new
input begun-lines
both setquota -F vfsold -b q
writes 2
holds q flat-begun
same q.new
";

/// A disk that stops under lines that are made together. The file is the old one or the new one then, and what may be
/// left besides is a part of the new one under its own name: before that is synced, the greater half of each write.
pub const STOPPED: &str = "\
= the disk stops under lines of a flat file
record btime 604800 itime 604800
record bhard 31 bsoft 21 blocks 4 ihard 51 isoft 41 inodes 9
fill 0 40
keep flat-half
file q flat
input flat-lines
may q.new flat-half
may q.new flat-made
stop setquota -F vfsold -b q | repquota -F vfsold -v q
holds q flat-made

= the disk stops under lines of a tree file
fill 0 512
put 0 3653246737 1 604800 604800
put 20 6
put 28 2
keep one
use one
fill 0 1024
put 1024 3
keep two
use two
fill 0 1024
put 2056 2
put 2064 1000
put 2072 4
put 2080 3
put 2096 2
put 2104 1
put 2136 1001
put 2144 8
put 2152 7
put 2168 6
put 2176 5
keep three
use three
fill 0 1024
put 3072 4
keep four
use four
fill 0 1024
put 4108 5
keep five
use five
fill 0 1024
keep six-halves
use six-halves
fill 0 512
put 6048 2 2
keep whole
file q empty
text 1000 1 2 3 4
text 1001 5 6 7 8
input
may q.new one
may q.new two
may q.new three
may q.new four
may q.new five
may q.new six-halves
may q.new whole
stop setquota -b q | repquota -v q
holds q whole

= the disk stops under lines of a file that is given, of which the last one is refused
file q flat
use begun-lines
text 6 1 1 1
file l
record btime 604800 itime 604800
record bhard 30 bsoft 20 blocks 4 ihard 50 isoft 40 inodes 9
record bhard 8 bsoft 2
keep begun-half
may q.new begun-half
may q.new flat-begun
stays l
stop setquota -F vfsold -b --input l q | repquota -F vfsold -v q
status 1
! quota: l: bad line 3
holds q flat-begun

= the disk stops under a line before a refused one, in a file of two pieces
use flat-first
fill 0 392
keep half-piece
use flat-first
fill 0 1012
keep half-more
use flat-first
fill 0 1120
keep two-pieces
use flat
fill 0 1120
file q
use first-line
text 6 4T 0 0 0
input
may q.new half-piece
may q.new half-more
may q.new two-pieces
stop setquota -F vfsold -b q | repquota -F vfsold -v q
status 1
! quota: input line 2: q: no room for bsoft 4294967296 of 6
holds q two-pieces
";
