//! Names of users and groups, in reports and as words.

/// Reports with names.
pub const SHOWN: &str = "\
= files of names, and a flat file in which 0, 1000 and 1001 use space and inodes, and 7 has limits
text root:x:0:0:root:/root:/bin/sh
text alice:x:1000:1000:Alice:/home/alice:/bin/sh
text bob:x:1001:100:Bob:/home/bob:/bin/sh
keep users
text staff:x:0:alice
text users:x:1000:
keep groups
record blocks 24 inodes 3
fill 0 240
record bhard 8 bsoft 2
fill 0 39680
record blocks 1128 inodes 13
record blocks 580 inodes 10
keep flat

= a report shows the names of its file
file q flat
file other users
run repquota -F vfsold -u --names other q
head user q 7days 7days
> root         --         24          0          0      -        3        0        0      -
> alice        --       1128          0          0      -       13        0        0      -
> bob          --        580          0          0      -       10        0        0      -

= a report on groups shows the names of groups, and the number of one that has no name
file q flat
file other groups
run repquota -F vfsold --names=other -g q
head group q 7days 7days
> staff        --         24          0          0      -        3        0        0      -
> users        --       1128          0          0      -       13        0        0      -
> #1001        --        580          0          0      -       10        0        0      -

= a report without names shows numbers
file q flat
file other users
run repquota -F vfsold -n --names other q
head user q 7days 7days
> #0           --         24          0          0      -        3        0        0      -
> #1000        --       1128          0          0      -       13        0        0      -
> #1001        --        580          0          0      -       10        0        0      -
run repquota -F vfsold q
head user q 7days 7days
> #0           --         24          0          0      -        3        0        0      -
> #1000        --       1128          0          0      -       13        0        0      -
> #1001        --        580          0          0      -       10        0        0      -

= one that has no name is shown by the number, in a tree file too
file q seven
file other users
run repquota --names other q
head user q 7days 7days
> alice        --          4          0          0      -        1        0        0      -
> #65534       --          8          0          0      -        2        0        0      -
run repquota -n --names other q
head user q 7days 7days
> #1000        --          4          0          0      -        1        0        0      -
> #65534       --          8          0          0      -        2        0        0      -
run repquota q
head user q 7days 7days
> #1000        --          4          0          0      -        1        0        0      -
> #65534       --          8          0          0      -        2        0        0      -

= a store that fails under the names ends the command
file q six
file other users
run repquota q
head user q 7days 7days
> #1000        --          4          0          0      -        1        0        0      -
fails store 1
run repquota --names other q
status 4
! quota: store fault
fails store 2
run repquota --names other q
status 4
! quota: store fault
sweep store repquota --names other q
head user q 7days 7days
> alice        --          4          0          0      -        1        0        0      -
";

/// Pairs of commands that leave and say the same: one by numbers, and one by names.
pub const WORDS: &str = "\
= a file of names
text root:x:0:0:root:/root:/bin/sh
text alice:x:1000:1000:Alice:/home/alice:/bin/sh
text bob:x:1001:100:Bob:/home/bob:/bin/sh
keep users

= a name stands for its identifier where limits are set
file other users
file q timed
run setquota 1000 100 200 0 0 q
changes q
use q
keep numbers
file q timed
run setquota --names other alice 100 200 0 0 q
changes q
holds q numbers

= names stand for identifiers where limits are copied
file other users
file q timed
run setquota -p 1000 1001 q
changes q
use q
keep numbers
file q timed
run setquota --names other -p alice bob q
changes q
holds q numbers
file q timed
run setquota --names other -p 000000000000000000001000 bob q
changes q
holds q numbers

= a name stands for its identifier where times are set
file other users
file q timed
run setquota -T 1000 5 5 q
! quota: inode time not set, soft limit not exceeded
changes q
use q
keep numbers
file q timed
run setquota --names other -T alice 5 5 q
! quota: inode time not set, soft limit not exceeded
changes q
holds q numbers

= periods have no names, and no file of names is asked for
file other users
file q timed
run setquota -t 5 5 q
changes q
use q
keep numbers
file q timed
run setquota --names none -t 5 5 q
changes q
holds q numbers

= a number stands for itself under names, also with zeros before it
file other users
file q timed
run setquota 1000 1 1 1 1 q
changes q
use q
keep numbers
file q timed
run setquota --names other 01000 1 1 1 1 q
changes q
holds q numbers
";

/// What refuses names. No run meets a file that is named `n` or `r`.
pub const REFUSED: &str = "\
= files of names
text root:x:0:0:root:/root:/bin/sh
text alice:x:1000:1000:Alice:/home/alice:/bin/sh
text bob:x:1001:100:Bob:/home/bob:/bin/sh
keep users
text staff:x:0:alice
text users:x:1000:
keep groups
text a:x:1:
text # c:x
text b:x:2
keep cut

= a file of names that is not there is refused before the other words
file q six
file other users
run repquota --names n r
status 1
! quota: n: no such file
run repquota -n --names n q
status 1
! quota: n: no such file
run setquota --names n carol 1 1 1 1 r
status 1
! quota: n: no such file

= a file of names with a bad line is refused before the other words
file q six
file other groups
run repquota -n --names other q
status 1
! quota: other: bad line 1
run repquota --names other r
status 1
! quota: other: bad line 1
file other cut
run repquota -g --names other r
status 1
! quota: other: bad line 3

= the other words are refused behind the names
file q six
file other users
run repquota --names other r
status 1
! quota: r: no such file
run setquota --names other carol x 1 1 1 r
status 1
! quota: unknown name carol
run setquota --names other alice x 1 1 1 r
status 1
! quota: bad number x
run setquota --names other 4294967296 1 1 1 1 r
status 1
! quota: bad number 4294967296
run setquota --names other -p bob carol r
status 1
! quota: unknown name carol
";
