/// The first one, two and three lines of a form of identifier 1000.
pub const FORM: &str = "\
= the lines of a form
text Disk quotas for user #1000 (uid 1000):
keep one
use one
text   Filesystem blocks soft hard inodes soft hard
keep two
use two
text   q 4 100 200 1 10 20
keep three
";

/// Forms that were printed and edited, and that set limits.
pub const APPLIED: &str = "\
= the form that was printed and changed sets its limits
file q six
run edquota --print -u 1000 q
> Disk quotas for user #1000 (uid 1000):
>   Filesystem blocks soft hard inodes soft hard
>   q 4 0 0 1 0 0
input three
both edquota --apply -u 1000 q
changes q
run repquota q
head user q 7days 7days
> #1000        --          4        100        200      -        1       10       20      -
file q six
use two
text   q 999 100 200 77 10 20
input
both edquota --apply -u 1000 q
changes q
run repquota q
head user q 7days 7days
> #1000        --          4        100        200      -        1       10       20      -
file q six
use two
text q\t18446744073709551615  100 200 0 10 20\x20
text  \t
text
input
both edquota --apply -u 1000 q
changes q
run repquota q
head user q 7days 7days
> #1000        --          4        100        200      -        1       10       20      -
file q six
use two
raw q 4 100 200 1 10 20
input
both edquota --apply -u 1000 q
changes q
run repquota q
head user q 7days 7days
> #1000        --          4        100        200      -        1       10       20      -
file q six
use two
text   q 4 1M 2G 1 3k 4m
input
both edquota --apply -u 1000 q
changes q
run repquota q
head user q 7days 7days
> #1000        --          4       1024    2097152      -        1     3000  4000000      -
file q six
use two
text   q 4 2 8 1 0 0
input
both edquota --apply -u 1000 q
changes q
run repquota q
head user q 7days 7days
> #1000        +-          4          2          8  7days        1        0        0      -

= a form sets limits in a flat file of groups
file q
text Disk quotas for group #1 (gid 1):
text Filesystem blocks soft hard inodes soft hard
text q 0 100 200 0 10 20
input
both edquota --apply -F vfsold -g 1 q
fill 0 40
record bhard 200 bsoft 100 ihard 20 isoft 10
holds q

= a form has the name that is printed
text alice:x:1000:1000:Alice:/home/alice:/bin/sh
text bob:x:1001:100::/home/bob:/bin/sh
file other
file q six
text Disk quotas for user alice (uid 1000):
text   Filesystem blocks soft hard inodes soft hard
text   q 4 100 200 1 10 20
input
run edquota --apply --names other alice q
changes q
run repquota -v q
head user q 7days 7days
> #1000        --          4        100        200      -        1       10       20      -
file q six
text Disk quotas for user alice (uid 1000):
text   Filesystem blocks soft hard inodes soft hard
text   q 4 100 200 1 10 20
input
run edquota --apply --names other 1000 q
changes q
run repquota -v q
head user q 7days 7days
> #1000        --          4        100        200      -        1       10       20      -
file q six
text Disk quotas for user bob (uid 1001):
text   Filesystem blocks soft hard inodes soft hard
text   q 4 100 200 1 10 20
input
run edquota --apply --names other bob q
changes q
run repquota -v q
head user q 7days 7days
> #1000        --          4          0          0      -        1        0        0      -
> #1001        --          0        100        200      -        0       10       20      -
file q six
text Disk quotas for user #1000 (uid 1000):
text   Filesystem blocks soft hard inodes soft hard
text   q 4 100 200 1 10 20
input
run edquota --apply --names other alice q
status 1
! quota: bad form at line 1
writes 0
file q six
text Disk quotas for user bob (uid 1001):
text   Filesystem blocks soft hard inodes soft hard
text   q 4 100 200 1 10 20
input
run edquota --apply --names other alice q
status 1
! quota: bad form at line 1
writes 0
file q six
text Disk quotas for user alice (uid 1000):
text   Filesystem blocks soft hard inodes soft hard
text   q 4 100 200 1 10 20
input
run edquota --apply 1000 q
status 1
! quota: bad form at line 1
writes 0
";
