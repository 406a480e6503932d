/// Forms that are refused, and those of which a call fails.
pub const REFUSED_FORMS: &str = "\
= the first line that is none of the form is named
file q six
input
both edquota --apply -u 1000 q
status 1
! quota: bad form at line 1
writes 0
text
text Disk quotas for user #1000 (uid 1000):
input
both edquota --apply -u 1000 q
status 1
! quota: bad form at line 1
writes 0
text Disk quotas for user #1001 (uid 1000):
input
both edquota --apply -u 1000 q
status 1
! quota: bad form at line 1
writes 0
text Disk quotas for user #1000 (uid 1001):
input
both edquota --apply -u 1000 q
status 1
! quota: bad form at line 1
writes 0
text Disk quotas for group #1000 (gid 1000):
input
both edquota --apply -u 1000 q
status 1
! quota: bad form at line 1
writes 0
input one
both edquota --apply -u 1000 q
status 1
! quota: bad form at line 2
writes 0
use one
text   Filesystem blocks soft hard inodes soft
input
both edquota --apply -u 1000 q
status 1
! quota: bad form at line 2
writes 0
input two
both edquota --apply -u 1000 q
status 1
! quota: bad form at line 3
writes 0
use two
text   r 4 100 200 1 10 20
input
both edquota --apply -u 1000 q
status 1
! quota: bad form at line 3
writes 0
use two
text   q 4 100 200 1 10
input
both edquota --apply -u 1000 q
status 1
! quota: bad form at line 3
writes 0
use two
text   q 4 100 200 1 10 20 30
input
both edquota --apply -u 1000 q
status 1
! quota: bad form at line 3
writes 0
use two
text   q 4K 100 200 1 10 20
input
both edquota --apply -u 1000 q
status 1
! quota: bad form at line 3
writes 0
use two
text   q 4 1k 200 1 10 20
input
both edquota --apply -u 1000 q
status 1
! quota: bad form at line 3
writes 0
use two
text   q 4 100 200 1 10 20M
input
both edquota --apply -u 1000 q
status 1
! quota: bad form at line 3
writes 0
use two
text   q 4 100 200 1 10 18446744073709551616
input
both edquota --apply -u 1000 q
status 1
! quota: bad form at line 3
writes 0
use two
text   q 18446744073709551616 100 200 1 10 20
input
both edquota --apply -u 1000 q
status 1
! quota: bad form at line 3
writes 0
use three
raw x
input
both edquota --apply -u 1000 q
status 1
! quota: bad form at line 4
writes 0
use three
text
text  x
input
both edquota --apply -u 1000 q
status 1
! quota: bad form at line 5
writes 0

= a line of a form has a greatest length
file q six
use one
raw Filesystem blocks soft hard inodes soft hard
fill 32 980
text
text   q 4 100 200 1 10 20
input
both edquota --apply -u 1000 q
changes q
run repquota q
head user q 7days 7days
> #1000        --          4        100        200      -        1       10       20      -
file q six
use one
raw Filesystem blocks soft hard inodes soft hard
fill 32 981
text
text   q 4 100 200 1 10 20
input
both edquota --apply -u 1000 q
status 1
! quota: input: long line 2
writes 0
file q six
use three
fill 32 1024
text
text
input
both edquota --apply -u 1000 q
changes q
run repquota q
head user q 7days 7days
> #1000        --          4        100        200      -        1       10       20      -
file q six
use three
fill 32 1025
text
input
both edquota --apply -u 1000 q
status 1
! quota: input: long line 4
writes 0

= a form is read behind the name
file q six
text none
file other
run edquota --apply carol r
status 1
! quota: unknown name carol
writes 0
run edquota --apply 4294967296 r
status 1
! quota: bad number 4294967296
writes 0
run edquota --apply --names n carol r
status 1
! quota: n: no such file
writes 0
run edquota --apply --names other 1000 r
status 1
! quota: other: bad line 1
writes 0
run edquota --apply --input n carol r
status 1
! quota: unknown name carol
writes 0
run edquota --apply --input n 1000 r
status 1
! quota: n: no such file
writes 0

= a form is read before the file is opened
file q six
input one
both edquota --apply 1000 r
status 1
! quota: bad form at line 2
writes 0
text Disk quotas for user #1000 (uid 1000):
text Filesystem blocks soft hard inodes soft hard
text r 0 1 1 0 1 1
input
both edquota --apply 1000 r
status 1
! quota: r: no such file
writes 0
text Disk quotas for group #1000 (gid 1000):
text Filesystem blocks soft hard inodes soft hard
text q 0 1 1 0 1 1
input
both edquota --apply -g 1000 q
status 3
! quota: q: wrong kind
writes 0
text Disk quotas for user #1000 (uid 1000):
text Filesystem blocks soft hard inodes soft hard
text q 0 4294967296 0 0 0 0
input
both edquota --apply -F vfsv0 1000 q
status 3
! quota: q: other format
writes 0
file q
text Disk quotas for user #1000 (uid 1000):
text Filesystem blocks soft hard inodes soft hard
text q 0 4294967296 0 0 0 0
input
both edquota --apply -F vfsold 1000 q
status 1
! quota: q: no room for bsoft 4294967296 of 1000
writes 0

= a form that cannot be read ends the command
file q six
input three
fails input 1
run edquota --apply -u 1000 q
status 4
! quota: input fault
calls
input three
fails input 2
run edquota --apply -u 1000 q
status 4
! quota: input fault
calls
input three
stays q q.new
sweep input edquota --apply -u 1000 q
changes q

= a store that fails under a form leaves the file
file q six
text alice:x:1000:1000:Alice:/home/alice:/bin/sh
text bob:x:1001:100::/home/bob:/bin/sh
file other
text Disk quotas for user alice (uid 1000):
text   Filesystem blocks soft hard inodes soft hard
text   q 4 100 200 1 10 20
file l
fails store 4
run edquota --apply --names other --input l alice q
status 4
! quota: store fault
same q
sweep store edquota --apply --names other --input l alice q
changes q
run repquota q
head user q 7days 7days
> #1000        --          4        100        200      -        1       10       20      -
";
