/// New files of listings. The rules let the one data block be any of 2 to 5; its number here is the one that this
/// program chooses.
pub const NEW_FILES: &str = "\
= an empty listing makes an empty file of each format
raw no quota file
file q
input
both quotacheck -c -u -F vfsv1 q
put end 3653246737 1 604800 604800 0 2
fill 0 2024
holds q
absent q.new
raw no quota file
file q
input
both quotacheck -c q
put end 3653246737 1 604800 604800 0 2
fill 0 2024
holds q
absent q.new
raw no quota file
file q
input
both quotacheck -cF vfsv0 q
put end 3653246737 0 604800 604800 0 2
fill 0 2024
holds q
absent q.new
raw no quota file
file q
input
both quotacheck -c -g q
put end 3653245223 1 604800 604800 0 2
fill 0 2024
holds q
absent q.new
raw no quota file
file q
input
both quotacheck -c -F vfsold q
put end 0 0 0 0 0 0 604800 0 604800 0
holds q
absent q.new

= the listing is that of the lines that count
file q
text 1000 100 2049 12 8
input
both quotacheck -c -u -F vfsv1 q
changes q
run repquota -u q
head user q 7days 7days
> #1000        --          4          0          0      -        1        0        0      -
file q
raw 1000 100 2049 12 8
input
both quotacheck -c -u -F vfsv1 q
changes q
run repquota -u q
head user q 7days 7days
> #1000        --          4          0          0      -        1        0        0      -
file q
text 1000 100 2049 12 8
text 1000 100 2049 12 8
input
both quotacheck -c -u -F vfsv1 q
changes q
run repquota -u q
head user q 7days 7days
> #1000        --          4          0          0      -        1        0        0      -
file q
text
text  \t
text \t1000\t 100 2049  12\t8\x20
text
input
both quotacheck -c -u -F vfsv1 q
changes q
run repquota -u q
head user q 7days 7days
> #1000        --          4          0          0      -        1        0        0      -
file q
text 00000000000000001000 0100 02049 012 08
input
both quotacheck -c -u -F vfsv1 q
changes q
run repquota -u q
head user q 7days 7days
> #1000        --          4          0          0      -        1        0        0      -
file q
text 1000 100 2049 12 8
text 1000 100 2049 13 8
input
both quotacheck -c -u -F vfsv1 q
changes q
run repquota -u q
head user q 7days 7days
> #1000        --          8          0          0      -        2        0        0      -
file q
text 1000 100 2049 12 8
text 1000 100 2050 12 8
input
both quotacheck -c -u -F vfsv1 q
changes q
run repquota -u q
head user q 7days 7days
> #1000        --          8          0          0      -        2        0        0      -
file q
text 1000 100 2049 12 8
text 1000 100 2050 12 8
input
both quotacheck -c -u -F vfsv1 --device 2049 q
changes q
run repquota -u q
head user q 7days 7days
> #1000        --          4          0          0      -        1        0        0      -
file q
text 1000 100 2049 12 8
text 7 7 2050 12 9
input
both quotacheck -c -u -F vfsv1 --device 2049 q
changes q
run repquota -u q
head user q 7days 7days
> #1000        --          4          0          0      -        1        0        0      -
file q
text 7 7 2050 12 9
text 7 7 2050 12 10
text 1000 1 2049 12 8
input
both quotacheck -c -u -F vfsv1 --device 2049 q
changes q
run repquota -u q
head user q 7days 7days
> #1000        --          4          0          0      -        1        0        0      -
file q
text 1000 100 2049 12 8
text 1000 100 2050 12 8
input
both quotacheck -c -u -F vfsv1 --device 2051 q
changes q
run repquota -u q
head user q 7days 7days
file q
text 1000 100 18446744073709551615 18446744073709551615 8
input
both quotacheck -c -u -F vfsv1 --device 18446744073709551615 q
changes q
run repquota -u q
head user q 7days 7days
> #1000        --          4          0          0      -        1        0        0      -
file q
text 4294967295 4294967295 0 0 7
input
both quotacheck -c -u -F vfsv1 q
changes q
run repquota -u q
head user q 7days 7days
> #4294967295  --          4          0          0      -        1        0        0      -

= the file of one inode has six blocks
file q
text 1000 100 2049 12 8
input
run quotacheck -c -u -F vfsv1 q
at q 6144 end
at q 20 6 0
at q 28 2
at q 2056 1
at q 2064 1000
run repquota -u q
head user q 7days 7days
> #1000        --          4          0          0      -        1        0        0      -
use q
fill 1 100
file q
run repquota -u q
head user q 7days 7days
> #1000        --          4          0          0      -        1        0        0      -
file q
text 1000 100 2049 12 8
text 1000 100 2049 12 8
input
run quotacheck -c -u -F vfsv1 q
at q 6144 end
at q 20 6 0
at q 28 2
at q 2056 1
at q 2064 1000
run repquota -u q
head user q 7days 7days
> #1000        --          4          0          0      -        1        0        0      -
use q
fill 1 100
file q
run repquota -u q
head user q 7days 7days
> #1000        --          4          0          0      -        1        0        0      -
file q
input
run quotacheck -c -u -F vfsv1 q
put end 3653246737 1 604800 604800 0 2
fill 0 2024
holds q
put end 3653246737 1 604800 604800 0 2 0 0
file q
run repquota -u q
head user q 7days 7days
";
