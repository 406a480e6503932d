//! Conversions that are refused, and those whose calls fail.

/// Which value without room is told, and grace periods at the ends of their ranges.
pub const FIRST: &str = "\
= the least identifier is told, and of it the first field
file q empty
run setquota -u 6 4294967296 4294967297 0 0 q
changes q
run setquota -u 5 4294967298 0 4294967299 4294967300 q
changes q
run convertquota -f vfsv1,vfsv0 q r
status 1
! quota: q: no room for ihard 4294967300 of 5
writes 0
run setquota -u 5 4294967298 0 4294967299 1 q
changes q
run convertquota -f vfsv1,vfsv0 q r
status 1
! quota: q: no room for isoft 4294967299 of 5
writes 0
run setquota -u 5 4294967298 0 1 1 q
changes q
run convertquota -f vfsv1,vfsv0 q r
status 1
! quota: q: no room for bsoft 4294967298 of 5
writes 0
run setquota -u 5 1 1 1 1 q
changes q
run convertquota -f vfsv1,vfsv0 q r
status 1
! quota: q: no room for bhard 4294967297 of 6
writes 0
run convertquota -f vfsv1,vfsv1 q r
changes r
run repquota -v r
head user r 7days 7days
> #5           --          0          1          1      -        0        1        1      -
> #6           --          0 4294967296 4294967297      -        0        0        0      -

= grace periods are told before records
use empty
put 8 0 0
file q
run setquota -u 1048576 1 0 0 0 q
changes q
run convertquota -f vfsv1,vfsold q r
status 1
! quota: q: no room for bgrace 0
same q
absent r r.new
writes 0
run setquota -t 1 0 q
changes q
run convertquota -f vfsv1,vfsold q r
status 1
! quota: q: no room for igrace 0
same q
absent r r.new
writes 0
run setquota -t 1 1 q
changes q
run convertquota -f vfsv1,vfsold q r
status 1
! quota: q: no room for id 1048576 of 1048576
same q
absent r r.new
writes 0

= tree files have grace periods of 0
use empty
put 8 0 4294967295
file q
run convertquota -f vfsv1,vfsv0 q r
same q
put end 3653246737 0 0 4294967295 0 2
fill 0 2024
holds r

= flat files have grace periods of 2^64 - 1
record btime 18446744073709551615 itime 18446744073709551615
keep longest
file q longest
run convertquota -f vfsold,vfsold q r
same q
holds r longest

= tree files have none of 2^32
file q longest
run convertquota -f vfsold,vfsv1 q r
status 1
! quota: q: no room for bgrace 18446744073709551615
same q
absent r r.new
writes 0
record btime 4294967295 itime 4294967296
file q
run convertquota -f vfsold,vfsv0 q r
status 1
! quota: q: no room for igrace 4294967296
same q
absent r r.new
writes 0
record itime 4294967295
file q
run convertquota -f vfsold,vfsv0 q r
same q
put end 3653246737 0 604800 4294967295 0 2
fill 0 2024
holds r

= flat files of 32 bytes a record have grace periods of 1 to 2^32 - 1
file q longest
run convertquota -f vfsold,vfsold32 q r
status 1
! quota: q: no room for bgrace 18446744073709551615
same q
absent r r.new
writes 0
record btime 4294967295 itime 4294967296
file q
run convertquota -f vfsold,vfsold32 q r
status 1
! quota: q: no room for igrace 4294967296
absent r r.new
writes 0
use empty
put 8 0 4294967295
file q
run convertquota -f vfsv1,vfsold32 q r
status 1
! quota: q: no room for bgrace 0
absent r r.new
writes 0
record btime 4294967295 itime 4294967295
file q
run convertquota -f vfsold,vfsold32 q r
same q
put end 0 0 0 0 0 0 4294967295 4294967295
holds r

= they have timers below 2^32, and that of blocks is told first
use six
put 5160 0
put 5176 1
put 5184 0
put 5192 0 1
keep late
file q late
run convertquota -f vfsv1,vfsold32 q r
status 1
! quota: q: no room for btime 4294967296 of 1000
same q
absent r r.new
writes 0
use late
put 5200 0 1
file q
run convertquota -f vfsv1,vfsold32 q r
status 1
! quota: q: no room for btime 4294967296 of 1000
absent r r.new
writes 0
use late
put 5192 4294967295 0 0 1
file q
run convertquota -f vfsv1,vfsold32 q r
status 1
! quota: q: no room for itime 4294967296 of 1000
absent r r.new
writes 0
use late
put 5192 4294967295 0 4294967295 0
file q
run convertquota -f vfsv1,vfsold32 q r
same q
at r 32000 0 1 0 0 0 0 4294967295 4294967295 end

= those of identifier 0 have to fit, though they are not kept
use late
put 3084 0
put 3072 4
put 5024 0
put 4096 5
put 5136 0
file q
run convertquota -f vfsv1,vfsold32 q r
status 1
! quota: q: no room for btime 4294967296 of 0
same q
absent r r.new
writes 0
use q
put 5192 4294967295 0 0 1
file q
run convertquota -f vfsv1,vfsold32 q r
status 1
! quota: q: no room for itime 4294967296 of 0
absent r r.new
writes 0
use q
put 5200 4294967295 0
file q
run convertquota -f vfsv1,vfsold32 q r
same q
put end 0 1 0 0 0 0 604800 604800
holds r

= those of a record that limits and counts nothing are in no one's way
use late
put 5176 0
file q
run convertquota -f vfsv1,vfsold32 q r
same q
put end 0 0 0 0 0 0 604800 604800
holds r

= a limit is told before a timer, and so is the identifier
use late
put 5180 1
file q
run convertquota -f vfsv1,vfsold32 q r
status 1
! quota: q: no room for bsoft 4294967297 of 1000
absent r r.new
writes 0
file q empty
run setquota 1048576 1 0 0 0 q
changes q
run convertquota -f vfsv1,vfsold32 q r
status 1
! quota: q: no room for id 1048576 of 1048576
same q
absent r r.new
writes 0
";

/// Conversions that are refused before anything is read, that are not opened, and whose calls fail.
pub const REFUSED: &str = "\
= the names are looked at first, and then the new file
run convertquota -f vfsv1,vfsv0 q q
status 1
! quota: q: same name
calls
raw no quota file
file r
run convertquota -f vfsv1,vfsv0 q r
status 1
! quota: r: exists already
same r
absent q r.new
calls size r;

= a file that is not there is no such file
run convertquota -f vfsv1,vfsv0 q r
status 1
! quota: q: no such file
absent q r r.new
writes 0

= a file is opened as one of the first format and of its kind
file q empty
run convertquota -f vfsv0,vfsv1 q r
status 3
! quota: q: other format
same q
absent r r.new
writes 0
run convertquota -g -f vfsv1,vfsv0 q r
status 3
! quota: q: wrong kind
same q
absent r r.new
writes 0
run convertquota -f vfsold,vfsv0 q r
status 3
! quota: q: damaged: PartialRecord at record 0
same q
absent r r.new
writes 0
raw no quota file
file q
run convertquota -f vfsv1,vfsold q r
status 3
! quota: q: not a quota file
same q
absent r r.new
writes 0
use six
put 24 2
file q
run convertquota -f vfsv1,vfsold q r
status 3
! quota: q: damaged: TwoRoles at block 2
same q
absent r r.new
writes 0

= groups are converted as groups
hex 271fc0d9
hex 00000000 803a0900 803a0900 00000000 02000000 00000000 00000000
file q
run convertquota -u -f vfsv0,vfsold q r
status 3
! quota: q: not a quota file
same q
absent r
writes 0
hex 2719c0d9
hex 00000000 803a0900 803a0900 00000000 02000000 00000000 00000000
file q
run convertquota -g -f vfsv0,vfsv1 q r
same q
hex 2719c0d9
hex 01000000 803a0900 803a0900 00000000 02000000 00000000 00000000
fill 0 2016
holds r

= no file has the name under which the new one is written first
file r.new empty
run convertquota -f vfsv1,vfsv0 r.new r
status 2
! quota: usage: BadFileName at word 3
same r.new
absent r
writes 0
file q empty
run convertquota -f vfsv1,vfsv0 q r.new
status 2
! quota: usage: BadFileName at word 4
same q r.new
writes 0

= what was left behind is not in the way
file q six
raw junk
file r.new
run convertquota -f vfsv1,vfsold q r
same q
at r 40040 end
absent r.new

= the new file is made whole and synced before it gets its name
file q empty
run convertquota -f vfsv1,vfsold q r
calls size r; size q; read q; size q; read q; read q; create r.new; write r.new; sync r.new; rename r.new r;
same q
record btime 604800 itime 604800
holds r

= each call that fails ends a conversion, which leaves no new file
file q six
stays q r
sweep store convertquota -f vfsv1,vfsold q r
same q
at r 40040 end

= so it is of a new file of vfsv0
file q six
stays q r
sweep store convertquota -f vfsv1,vfsv0 q r
same q
at r 6144 end

= and of one of vfsv1
file q six
stays q r
sweep store convertquota -f vfsv1,vfsv1 q r
same q
at r 6144 end

= and where the old file is a flat one
record btime 604800 itime 604800
record bhard 1 bsoft 1 blocks 1 ihard 1 isoft 1 inodes 1
file q
stays q r
sweep store convertquota -f vfsold,vfsv1 q r
same q
at r 6144 end

= a damage that is met after opening ends a conversion
file q six
turn convertquota -f vfsv1,vfsv0 q r
same q
at r 6144 end
";
