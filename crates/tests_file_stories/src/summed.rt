/// A listing of two devices, with second names of two inodes.
pub const SUMS: &str = "\
= a whole listing gives each owner its sums
text root:x:0:0:root:/root:/bin/sh
text alice:x:1000:1000:Alice:/home/alice:/bin/sh
text bob:x:1001:100:Bob:/home/bob:/bin/sh
file other
text 0 0 2049 2 8
text 0 0 2049 11 32
text 1000 1000 2049 131073 8
text 1000 1000 2049 131074 8
text 1000 1000 2049 131075 16
text 1000 1000 2049 131076 0
text 1000 1000 2049 131077 24
text 1000 100 2049 131078 2048
text 1000 100 2049 131078 2048
text 1000 1000 2049 131079 8
text 1000 1000 2049 131080 40
text 1000 1000 2049 131081 8
text 1000 1000 2049 131082 16
text 1000 1000 2049 131083 8
text 1001 100 2049 262145 8
text 1001 100 2049 262146 8
text 1001 100 2049 262147 1024
text 1001 100 2049 262148 16
text 1001 100 2049 262149 8
text 1001 100 2049 262150 0
text 1001 100 2049 262147 1024
text 1001 100 2049 262151 72
text 1001 100 2049 262152 8
text 1001 100 2049 262153 8
text 65534 65534 2049 393217 8
text 65534 65534 2049 393218 8
text 1000 1000 2050 131073 8
text 1000 1000 2050 131074 64
text 1001 1001 2050 131075 8
text 0 0 2050 2 8
keep thirty
file q
input thirty
both quotacheck -c -u -F vfsv1 q
at q 8192 end
run repquota -u --names other q
head user q 7days 7days
> root         --         24          0          0      -        3        0        0      -
> alice        --       1128          0          0      -       13        0        0      -
> bob          --        580          0          0      -       10        0        0      -
> #65534       --          8          0          0      -        2        0        0      -
file q
input thirty
both quotacheck -c -u -F vfsv1 --device 2049 q
at q 8192 end
run repquota -u --names other q
head user q 7days 7days
> root         --         20          0          0      -        2        0        0      -
> alice        --       1092          0          0      -       11        0        0      -
> bob          --        576          0          0      -        9        0        0      -
> #65534       --          8          0          0      -        2        0        0      -
file q
input thirty
both quotacheck --device=2049 -cu q
at q 8192 end
run repquota -u --names other q
head user q 7days 7days
> root         --         20          0          0      -        2        0        0      -
> alice        --       1092          0          0      -       11        0        0      -
> bob          --        576          0          0      -        9        0        0      -
> #65534       --          8          0          0      -        2        0        0      -
file q
input thirty
run quotacheck -c -g --device 2049 q
changes q
run repquota -g q
head group q 7days 7days
> #0           --         20          0          0      -        2        0        0      -
> #100         --       1600          0          0      -       10        0        0      -
> #1000        --         68          0          0      -       10        0        0      -
> #65534       --          8          0          0      -        2        0        0      -
";
