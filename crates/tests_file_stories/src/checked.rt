/// Files that get the usage of listings. The rules let the first data block of fifteen identifiers be 2 or 3; its
/// number here is the one that this program chooses.
pub const CHECKED: &str = "\
= data blocks are filled one after another
text 0 100 2049 0 8
text 1 100 2049 1 8
text 2 100 2049 2 8
text 3 100 2049 3 8
text 4 100 2049 4 8
text 5 100 2049 5 8
text 6 100 2049 6 8
text 7 100 2049 7 8
text 8 100 2049 8 8
text 9 100 2049 9 8
text 10 100 2049 10 8
text 11 100 2049 11 8
text 12 100 2049 12 8
text 13 100 2049 13 8
text 14 100 2049 14 8
keep fifteen
file q
input fifteen
run quotacheck -c -u -F vfsv1 q
at q 7168 end
at q 20 7 0
at q 28 3
at q 3072 0 0 1
at q 2048 0 0 14
file q
use fifteen
text 15 100 2049 15 8
text 16 100 2049 16 8
text 17 100 2049 17 8
text 18 100 2049 18 8
text 19 100 2049 19 8
text 20 100 2049 20 8
input
run quotacheck -c -F vfsv0 q
at q 6144 end
at q 20 6
at q 28 0
run setquota -u 21 1 1 0 0 q
at q 7168 end
at q 20 7

= limits stay and usage and timers are those of the listing
record btime 604800 itime 604800
record bhard 8 bsoft 2 ihard 9 isoft 1
record bhard 8 bsoft 2 blocks 400 ihard 9 isoft 1 inodes 400 btime 1700000500 itime 1700000600
record blocks 44 inodes 3
record bhard 8 bsoft 6 blocks 800 inodes 1 btime 1700000700
file q
text 1 0 9 1 8
text 1 0 9 2 0
text 2 0 9 3 6
text 2 0 9 4 0
text 4 0 9 5 12
text 5 0 9 6 1
input
both quotacheck -F vfsold q
record btime 604800 itime 604800
record bhard 8 bsoft 2 blocks 4 ihard 9 isoft 1 inodes 2 btime 1700604800 itime 1700604800
record bhard 8 bsoft 2 blocks 3 ihard 9 isoft 1 inodes 2 btime 1700000500 itime 1700000600
record
record bhard 8 bsoft 6 blocks 6 inodes 1
record blocks 1 inodes 1
holds q

= nothing is left of an identifier without limits that the listing does not have
file q six
input
both quotacheck -u q
at q 2048 end
run repquota -u -v q
head user q 7days 7days

= one with limits stays without usage
file q timed
input
run quotacheck q
changes q
run repquota -u -v q
head user q 7days 7days
> #1000        --          0          2          8      -        0        0        0      -
file q timed
text 1000 0 1 1 6
input
run quotacheck q
changes q
run repquota -u -v q
head user q 7days 7days
> #1000        +-          3          2          8  7days        1        0        0      -
file q timed
text 7 0 1 1 6
input
run quotacheck q
changes q
run repquota -u -v q
head user q 7days 7days
> #7           --          3          0          0      -        1        0        0      -
> #1000        --          0          2          8      -        0        0        0      -

= the kind, the format, the periods and the flags stay
put end 3653245223 1 604800 604800 0 2
fill 0 2024
file q
text 1000 1000 2049 12 8
input
both quotacheck -g q
at q 6144 end
at q 0 3653245223 1 604800 604800 0
put end 3653246737 0 604800 604800 0 2
fill 0 2024
file q
text 1000 1000 2049 12 8
input
both quotacheck q
at q 6144 end
at q 0 3653246737 0 604800 604800 0
put end 3653246737 0 604800 604800 0 2
fill 0 2024
file q
text 1000 1000 2049 12 8
input
both quotacheck -F vfsv0 q
at q 6144 end
at q 0 3653246737 0 604800 604800 0
put end 3653246737 1 86400 3600 0 2
fill 0 2024
file q
text 1000 1000 2049 12 8
input
both quotacheck q
at q 6144 end
at q 0 3653246737 1 86400 3600 0
put end 3653246737 1 604800 604800 5 2
fill 0 2024
file q
text 1000 1000 2049 12 8
input
both quotacheck q
at q 6144 end
at q 0 3653246737 1 604800 604800 5

= the times of user 0 of a flat file are the periods, whatever it uses
record bhard 8 bsoft 2 ihard 9 isoft 1 btime 604800 itime 86400
file q
text 0 0 1 1 8
text 0 0 1 2 0
input
run quotacheck -F vfsold q
record bhard 8 bsoft 2 blocks 4 ihard 9 isoft 1 inodes 2 btime 604800 itime 86400
holds q

= a file is replaced also where nothing changes
text 1000 100 2049 12 8
keep listing
file q
input listing
run quotacheck -c -u -F vfsv1 q
changes q
use q
keep made
use made
fill 1 100
file q
input listing
run quotacheck q
holds q made
input listing
run quotacheck q
same q
writes 6

= a new file takes the place of its own listing
file q listing
run quotacheck -c --input q q
holds q made
file q listing
run quotacheck --input q q
status 3
! quota: q: not a quota file
writes 0
";
