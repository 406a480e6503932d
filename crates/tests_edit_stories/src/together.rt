//! Lines that are made together, by one replacement of the file, and the same lines made each where it stands: what is
//! left is the same. Where a file has the name of the new one they are made where they stand, and that file is let be.

/// Files of each format, lines of which some set limits of one who is known or new, one takes a record away, and one
/// has nothing to do, and what these make of the files: worked out by hand.
pub const FILES_OF_LINES: &str = "\
= a flat file, of which identifier 1 exceeds both soft limits and identifier 2 uses nothing
record btime 604800 itime 604800
record bhard 8 bsoft 2 blocks 4 ihard 9 isoft 8 inodes 9 btime 5 itime 6
record bhard 8 bsoft 2
keep flat
text 1 20 30 40 50
text 5 1 2 3 4
text 2 0 0 0 0
text 3 0 0 0 0
text 1 21 31 41 51
keep flat-lines
record btime 604800 itime 604800
record bhard 31 bsoft 21 blocks 4 ihard 51 isoft 41 inodes 9
fill 0 120
record bhard 2 bsoft 1 ihard 4 isoft 3
keep flat-made

= tree files, of which identifier 1000 exceeds its soft limit of blocks and identifier 7 uses nothing
use timed
fill 0 1024
put 20 7
put 3072 6
put 5128 2
put 5208 7
put 5240 2
put 5248 1
put 6172 5
keep tree
fill 0 7168
put 0 3653246737 0 604800 604800
put 20 7
put 28 5
put 1024 2
put 2048 3
put 3072 6
put 3084 4
put 5024 5
put 5128 2
put 5136 1000 0 0 1 8 2 4096
put 5168 1700604800
put 5184 7 0 0 0 2 1
put 6172 5
keep tree0
text 1000 100 200 10 20
text 9 5 6 7 8
text 7 0 0 0 0
text 8 0 0 0 0
text 70000 1 1 1 1
keep tree-lines
use tree
fill 0 2048
put 20 9
put 2052 7
put 5128 3
put 5144 20
put 5152 10
put 5168 200
put 5176 100
put 5192 0
put 5208 70000
put 5216 1
put 5224 1
put 5240 1
put 5248 1
put 5280 9
put 5288 8
put 5296 7
put 5312 6
put 5320 5
put 6172 0
put 6180 5
put 7236 8
put 8640 5
keep tree-made
use tree0
fill 0 2048
put 20 9
put 2052 7
put 5128 3
put 5136 1000 20 10 1 200 100
put 5168 0
put 5184 70000 1 1 0 1 1
put 5232 9 8 7 0 6 5
put 6172 0
put 6180 5
put 7236 8
put 8640 5
keep tree0-made

= what a line makes of the file of vfsv1 that has six blocks
use six
put 5144 20
put 5152 10
put 5168 200
put 5176 100
keep six-made

= what the first line of the flat file makes, and what the first two make
record btime 604800 itime 604800
record bhard 30 bsoft 20 blocks 4 ihard 50 isoft 40 inodes 9
record bhard 8 bsoft 2
keep flat-first
use flat-first
fill 0 80
record bhard 2 bsoft 1 ihard 4 isoft 3
keep flat-begun
text 1 20 30 40 50
keep first-line
use first-line
text 5 1 2 3 4
keep begun-lines

= a file of vfsv0 that has a header alone, one of six blocks that has limits of identifier 1000, and what a line makes of it
hex 111fc0d9 00000000 803a0900 803a0900 00000000 02000000 00000000 00000000
keep empty0
fill 0 6144
put 0 3653246737 0 604800 604800
put 20 6
put 28 2
put 1024 3
put 2056 1
put 2064 1000 4 3 0 2 1
put 3072 4
put 4108 5
put 6048 2
keep six0
text 1000 5 6 7 8
keep six0-line
use six0
put 2064 1000 8 7 0 6 5
keep six0-made
";

/// The same lines together, and each where it stands, in files of each format: what is left is the same. Together there
/// are as many calls of `write` as the new file has pieces of 1,024 bytes.
pub const BOTH_WAYS: &str = "\
= together in a flat file
file q flat
input flat-lines
both setquota -F vfsold -b q
writes 1
holds q flat-made
absent q.new

= each where it stands in a flat file
file q flat
text beside
file q.new
input flat-lines
both setquota -F vfsold -b q
writes 4
holds q flat-made
same q.new

= the record of identifier 7 is where it was worked out
file q timed
run setquota 7 1 2 0 0 q
holds q tree

= together in a file of vfsv1
file q tree
input tree-lines
both setquota -b q
writes 9
holds q tree-made
absent q.new

= each where it stands in a file of vfsv1
file q tree
text beside
file q.new
input tree-lines
both setquota -b q
writes 10
holds q tree-made
same q.new

= together in a file of vfsv0
file q tree0
input tree-lines
both setquota -F vfsv0 -b q
writes 9
holds q tree0-made
absent q.new

= each where it stands in a file of vfsv0
file q tree0
text beside
file q.new
input tree-lines
both setquota -F vfsv0 -b q
writes 10
holds q tree0-made
same q.new

= the calls of lines that are made together, and of the same where they stand
file q flat
input flat-lines
run setquota -F vfsold -b q
calls size q; read q; size q.new; size q; size q; read q; create q.new; write q.new; sync q.new; rename q.new q;
holds q flat-made
file q flat
text beside
file q.new
input flat-lines
run setquota -F vfsold -b q
calls size q; read q; size q.new; read q; write q; sync q; write q; sync q; read q; read q; write q; sync q; read q; read q; read q; write q; sync q;
holds q flat-made

= lines that have nothing to do, or take away what is not there
file q flat
text 3 0 0 0 0
text 40 0 0 0 0
input
run setquota -F vfsold -b q
calls size q; read q; size q.new; size q; size q; read q;
same q
absent q.new
file q tree
text 8 0 0 0 0
text 70000 0 0 0 0
text 8 0 0 0 0
input
both setquota -b q
writes 0
same q
absent q.new
file q tree0
text 8 0 0 0 0
text 70000 0 0 0 0
input
both setquota -F vfsv0 -b q
writes 0
same q
absent q.new

= a record that comes and goes again leaves a file that is written anew
file q flat
text 5 1 2 3 4
text 5 0 0 0 0
input
both setquota -F vfsold -b q
writes 1
use flat
fill 0 120
holds q

= names and timers
text alice:x:1:1::/:/bin/sh
text bob:x:5:5::/:/bin/sh
file other
file q flat
text alice 1 8 0 0
text bob 3 4 5 6
input
both setquota -F vfsold --names other -b q
writes 1
record btime 604800 itime 604800
record bhard 8 bsoft 1 blocks 4 inodes 9 btime 5
record bhard 8 bsoft 2
fill 0 80
record bhard 4 bsoft 3 ihard 6 isoft 5
holds q
";

/// Lines of which one is refused: those before it are made, together or each where it stands, and leave the same bytes.
pub const REFUSED_BOTH_WAYS: &str = "\
= a name that is unknown
file q flat
use begun-lines
text zoe 1 1 1 1
text 6 1 1 1 1
input
both setquota -F vfsold -b q
status 1
! quota: input line 3: unknown name zoe
writes 1
holds q flat-begun
absent q.new
file q flat
text beside
file q.new
use begun-lines
text zoe 1 1 1 1
text 6 1 1 1 1
input
both setquota -F vfsold -b q
status 1
! quota: input line 3: unknown name zoe
writes 2
holds q flat-begun
same q.new

= a word that is faulty
file q flat
use begun-lines
text 6 1 x 1 1
input
both setquota -F vfsold -b q
status 1
! quota: input line 3: bad number x
writes 1
holds q flat-begun
absent q.new
file q flat
text beside
file q.new
use begun-lines
text 6 1 x 1 1
input
both setquota -F vfsold -b q
status 1
! quota: input line 3: bad number x
writes 2
holds q flat-begun

= a line that lacks a word
file q flat
use begun-lines
text 6 1
input
both setquota -F vfsold -b q
status 1
! quota: input: bad line 3
writes 1
holds q flat-begun
file q flat
text beside
file q.new
use begun-lines
text 6 1
input
both setquota -F vfsold -b q
status 1
! quota: input: bad line 3
writes 2
holds q flat-begun

= limits for which a flat file has no room
file q flat
use begun-lines
text 6 4T 0 0 0
text 7 1 1 1 1
input
both setquota -F vfsold -b q
status 1
! quota: input line 3: q: no room for bsoft 4294967296 of 6
writes 1
holds q flat-begun
absent q.new
file q flat
text beside
file q.new
use begun-lines
text 6 4T 0 0 0
text 7 1 1 1 1
input
both setquota -F vfsold -b q
status 1
! quota: input line 3: q: no room for bsoft 4294967296 of 6
writes 2
holds q flat-begun
same q.new

= no room for the first line, or behind lines that had nothing to do
file q flat
text 6 4T 0 0 0
text 1 20 30 40 50
input
both setquota -F vfsold -b q
status 1
! quota: input line 1: q: no room for bsoft 4294967296 of 6
writes 0
same q
absent q.new
text 3 0 0 0 0
text 6 4T 0 0 0
input
both setquota -F vfsold -b q
status 1
! quota: input line 2: q: no room for bsoft 4294967296 of 6
writes 0
same q
absent q.new
";
