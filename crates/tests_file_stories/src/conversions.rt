//! Conversions of quota files.

/// One map in each format: identifier 0 with a space of one byte and a timer, a record that limits and counts nothing
/// but has timers, and identifier 1000 with timers above 32 bits, or just below where the other format is vfsold32;
/// grace periods of 1 second and of 2^32 - 1, and flags. A flat file has whole KiB, and no timer of identifier 0. The
/// rules let the one data block of a new file be any of 2 to 6; its place here is the one that this program chooses.
pub const PAIRS: &str = "\
= one map in each format
fill 0 7168
put 0 3653246737 0 1 4294967295 7 7 0 5
put 1024 2
put 2048 3
put 3072 4 0 0 6
put 4096 5 0 0 0 0 5
put 7072 5
put 5128 3
put 5136 0 0 0 1 0 0 1 0 7 0 0 0
put 5184 5 0 0 0 0 0 0 0 9 0 0 1
put 5232 1000 4 3 5 2 1 2049 0 0 1 1 1
keep middle
fill 0 7168
put 0 3653246737 1 1 4294967295 7 7 0 5
put 1024 2
put 2048 3
put 3072 4 0 0 6
put 4096 5 0 0 0 0 5
put 7072 5
put 5128 3
put 5136 0 0 0 0 0 0 1 0 0 0 0 0 1 0 7 0 0 0
put 5208 5 0 0 0 0 0 0 0 0 0 0 0 0 0 9 0 0 1
put 5280 1000 0 4 0 3 0 5 0 2 0 1 0 2049 0 0 1 1 1
keep new
record blocks 1 inodes 1 btime 1 itime 4294967295
fill 0 160
record btime 9 itime 4294967296
fill 0 39760
record bhard 2 bsoft 1 blocks 3 ihard 4 isoft 3 inodes 5 btime 4294967296 itime 4294967297
keep old
record blocks 1 inodes 1 btime 1 itime 4294967295
fill 0 39960
record bhard 2 bsoft 1 blocks 3 ihard 4 isoft 3 inodes 5 btime 4294967296 itime 4294967297
keep made

= the same map with timers of 32 bits
use middle
put 5264 4294967295 0 4294967294 0
keep middle-early
use new
put 5336 4294967295 0 4294967294 0
keep new-early
use old
put 40024 4294967295 0 4294967294 0
keep old-early
use made
put 40024 4294967295 0 4294967294 0
keep made-early
put end 0 0 1 0 0 1 1 4294967295
fill 0 128
put end 0 0 0 0 0 0 9 4294967295
fill 0 31808
put end 2 1 3 4 3 5 4294967295 4294967294
keep old32
put end 0 0 1 0 0 1 1 4294967295
fill 0 31968
put end 2 1 3 4 3 5 4294967295 4294967294
keep made32

= from vfsold to vfsold
file q old
run convertquota -f vfsold,vfsold q r
same q
absent r.new
holds r made
run repquota -F vfsold -v -p r
head user r 00:00 49710days
> #0           --          1          0          0      0        1        0        0      0
> #1000        ++          3          1          2 4294967296        5        3        4 4294967297

= from vfsold to vfsv0
file q old
run convertquota -f vfsold,vfsv0 q r
same q
absent r.new
at r 7168 end
at r 0 3653246737 0 1 4294967295 0 7 0
at r 2064 0 0 0 1 0 0 1024 0 0 0 0 0 1000 4 3 5 2 1 3072 0 0 1 1 1
run repquota -F vfsv0 -v -p r
head user r 00:00 49710days
> #0           --          1          0          0      0        1        0        0      0
> #1000        ++          3          1          2 4294967296        5        3        4 4294967297

= from vfsold to vfsv1
file q old
run convertquota -f vfsold,vfsv1 q r
same q
absent r.new
at r 7168 end
at r 0 3653246737 1 1 4294967295 0 7 0
at r 2064 0 0 0 0 0 0 1 0 0 0 0 0 1024 0 0 0 0 0 1000 0 4 0 3 0 5 0 2 0 1 0 3072 0 0 1 1 1
run repquota -F vfsv1 -v -p r
head user r 00:00 49710days
> #0           --          1          0          0      0        1        0        0      0
> #1000        ++          3          1          2 4294967296        5        3        4 4294967297

= from vfsv0 to vfsold
file q middle
run convertquota -f vfsv0,vfsold q r
same q
absent r.new
holds r made
run repquota -F vfsold -v -p r
head user r 00:00 49710days
> #0           --          1          0          0      0        1        0        0      0
> #1000        ++          3          1          2 4294967296        5        3        4 4294967297

= from vfsv0 to vfsv0
file q middle
run convertquota -f vfsv0,vfsv0 q r
same q
absent r.new
at r 7168 end
at r 0 3653246737 0 1 4294967295 0 7 0
at r 2064 0 0 0 1 0 0 1 0 7 0 0 0 1000 4 3 5 2 1 2049 0 0 1 1 1
run repquota -F vfsv0 -v -p r
head user r 00:00 49710days
> #0           --          1          0          0      0        1        0        0      0
> #1000        ++          3          1          2 4294967296        5        3        4 4294967297

= from vfsv0 to vfsv1
file q middle
run convertquota -f vfsv0,vfsv1 q r
same q
absent r.new
at r 7168 end
at r 0 3653246737 1 1 4294967295 0 7 0
at r 2064 0 0 0 0 0 0 1 0 0 0 0 0 1 0 7 0 0 0 1000 0 4 0 3 0 5 0 2 0 1 0 2049 0 0 1 1 1
run repquota -F vfsv1 -v -p r
head user r 00:00 49710days
> #0           --          1          0          0      0        1        0        0      0
> #1000        ++          3          1          2 4294967296        5        3        4 4294967297

= from vfsv1 to vfsold
file q new
run convertquota -f vfsv1,vfsold q r
same q
absent r.new
holds r made
run repquota -F vfsold -v -p r
head user r 00:00 49710days
> #0           --          1          0          0      0        1        0        0      0
> #1000        ++          3          1          2 4294967296        5        3        4 4294967297

= from vfsv1 to vfsv0
file q new
run convertquota -f vfsv1,vfsv0 q r
same q
absent r.new
at r 7168 end
at r 0 3653246737 0 1 4294967295 0 7 0
at r 2064 0 0 0 1 0 0 1 0 7 0 0 0 1000 4 3 5 2 1 2049 0 0 1 1 1
run repquota -F vfsv0 -v -p r
head user r 00:00 49710days
> #0           --          1          0          0      0        1        0        0      0
> #1000        ++          3          1          2 4294967296        5        3        4 4294967297

= from vfsv1 to vfsv1
file q new
run convertquota -f vfsv1,vfsv1 q r
same q
absent r.new
at r 7168 end
at r 0 3653246737 1 1 4294967295 0 7 0
at r 2064 0 0 0 0 0 0 1 0 0 0 0 0 1 0 7 0 0 0 1000 0 4 0 3 0 5 0 2 0 1 0 2049 0 0 1 1 1
run repquota -F vfsv1 -v -p r
head user r 00:00 49710days
> #0           --          1          0          0      0        1        0        0      0
> #1000        ++          3          1          2 4294967296        5        3        4 4294967297

= from vfsold to vfsold32
file q old-early
run convertquota -f vfsold,vfsold32 q r
same q
absent r.new
holds r made32
run repquota -F vfsold32 -v -p r
head user r 00:00 49710days
> #0           --          1          0          0      0        1        0        0      0
> #1000        ++          3          1          2 4294967295        5        3        4 4294967294

= from vfsv0 to vfsold32
file q middle-early
run convertquota -f vfsv0,vfsold32 q r
same q
absent r.new
holds r made32
run repquota -F vfsold32 -v -p r
head user r 00:00 49710days
> #0           --          1          0          0      0        1        0        0      0
> #1000        ++          3          1          2 4294967295        5        3        4 4294967294

= from vfsv1 to vfsold32
file q new-early
run convertquota -f vfsv1,vfsold32 q r
same q
absent r.new
holds r made32
run repquota -F vfsold32 -v -p r
head user r 00:00 49710days
> #0           --          1          0          0      0        1        0        0      0
> #1000        ++          3          1          2 4294967295        5        3        4 4294967294

= from vfsold32 to vfsold32
file q old32
run convertquota -f vfsold32,vfsold32 q r
same q
absent r.new
holds r made32
run repquota -F vfsold32 -v -p r
head user r 00:00 49710days
> #0           --          1          0          0      0        1        0        0      0
> #1000        ++          3          1          2 4294967295        5        3        4 4294967294

= from vfsold32 to vfsold
file q old32
run convertquota -f vfsold32,vfsold q r
same q
absent r.new
holds r made-early
run repquota -F vfsold -v -p r
head user r 00:00 49710days
> #0           --          1          0          0      0        1        0        0      0
> #1000        ++          3          1          2 4294967295        5        3        4 4294967294

= from vfsold32 to vfsv0
file q old32
run convertquota -f vfsold32,vfsv0 q r
same q
absent r.new
at r 7168 end
at r 0 3653246737 0 1 4294967295 0 7 0
at r 2064 0 0 0 1 0 0 1024 0 0 0 0 0 1000 4 3 5 2 1 3072 0 4294967295 0 4294967294 0
run repquota -F vfsv0 -v -p r
head user r 00:00 49710days
> #0           --          1          0          0      0        1        0        0      0
> #1000        ++          3          1          2 4294967295        5        3        4 4294967294

= from vfsold32 to vfsv1
file q old32
run convertquota -f vfsold32,vfsv1 q r
same q
absent r.new
at r 7168 end
at r 0 3653246737 1 1 4294967295 0 7 0
at r 2064 0 0 0 0 0 0 1 0 0 0 0 0 1024 0 0 0 0 0 1000 0 4 0 3 0 5 0 2 0 1 0 3072 0 4294967295 0 4294967294 0
run repquota -F vfsv1 -v -p r
head user r 00:00 49710days
> #0           --          1          0          0      0        1        0        0      0
> #1000        ++          3          1          2 4294967295        5        3        4 4294967294
";

/// Values at the ends of what a format has room for.
pub const ENDS: &str = "\
= a limit of 32 bits fits, and none of 33
file q empty
run setquota -u 1000 0 4294967296 0 0 q
changes q
run convertquota -u -f vfsv1,vfsv0 q r
status 1
! quota: q: no room for bhard 4294967296 of 1000
same q
absent r r.new
writes 0
run setquota -u 1000 0 4294967295 0 0 q
changes q
run convertquota -u -f vfsv1,vfsv0 q r
same q
changes r
absent r.new
run repquota -F vfsv0 -u -v r
head user r 7days 7days
> #1000        --          0          0 4294967295      -        0        0        0      -
run convertquota -u -f vfsv1,vfsv0 q r
status 1
! quota: r: exists already
same q r
absent r.new
writes 0
run convertquota -u -f vfsv1,vfsv0 q q
status 1
! quota: q: same name
same q
absent q.new
writes 0

= a space of 513 bytes is 1 KiB of a flat file
fill 0 6144
put 0 3653246737 0 604800 604800 0 6 0 5
put 1024 2
put 2048 3
put 3084 4
put 5024 5
put 5128 1
put 5136 1000 0 0 1 0 0 513
file q
run convertquota -f vfsv0,vfsold q r
same q
changes r
at r 40040 end
at r 40000 0 0 1
run repquota -F vfsold -u r
head user r 7days 7days
> #1000        --          1          0          0      -        1        0        0      -

= records without limits and use, and flags, are left out
fill 0 7168
put 0 3653246737 1 604800 604800 7 7 0 5
put 1024 2
put 2048 3
put 3072 4 0 0 6
put 4116 5 5
put 7072 5
put 5128 3
put 5136 5
put 5208 6
put 5280 1000 0 0 0 0 0 0 0 0 0 1
file q
run convertquota -f vfsv1,vfsv1 q r
same q
at r 6144 end
at r 0 3653246737 1 604800 604800 0 6 0
run repquota -u -v r
head user r 7days 7days
> #1000        --          0          1          0      -        0        0        0      -

= an identifier behind the last one of a flat file
file q empty
run setquota -u 1048576 1 0 0 0 q
changes q
run convertquota -u -f vfsv1,vfsold q r
status 1
! quota: q: no room for id 1048576 of 1048576
same q
absent r r.new
writes 0

= an identifier behind them that limits and uses nothing is in no one's way
fill 0 6144
put 0 3653246737 1 604800 604800 0 6 0 5
put 1024 2
put 2112 3
put 3072 4
put 4096 5
put 5128 1
put 5136 1048576
put 5192 9
file q
run repquota -v q
head user q 7days 7days
> #1048576     --          0          0          0      -        0        0        0      -
run convertquota -f vfsv1,vfsold q r
same q
record btime 604800 itime 604800
holds r

= a space of 2^32 - 1 KiB has room in a flat file
fill 0 6144
put 0 3653246737 0 604800 604800 0 6 0 5
put 1024 2
put 2048 3
put 3084 4
put 5024 5
put 5128 1
put 5136 1000 0 0 1 0 0 4294966272 1023
keep full
file q full
run convertquota -f vfsv0,vfsold q r
same q
changes r
run repquota -F vfsold r
head user r 7days 7days
> #1000        -- 4294967295          0          0      -        1        0        0      -

= a space of 2^32 KiB has none, and is told in bytes
use full
put 5160 4294966273 1023
file q
run convertquota -f vfsv0,vfsold q r
status 1
! quota: q: no room for space 4398046510081 of 1000
same q
absent r r.new
writes 0
";
