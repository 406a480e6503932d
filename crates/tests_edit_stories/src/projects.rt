//! Limits, periods, times and forms of projects.

/// What edits leave of a file of projects.
pub const EDITED: &str = "\
= a file in which project 7 uses 4 KiB and an inode, and names of projects
text 1000 7 2049 12 8
input
run quotacheck -c -P q
changes q
use q
keep used
run setquota -P 7 2 8 0 0 q
changes q
use q
keep over
text build:7
text store:8
keep names

= limits of a project start a timer
file q used
run setquota -P 7 2 8 0 0 q
at q 0 3653254932 1 604800 604800 0 6 0
holds q over
run repquota -P q
head project q 7days 7days
> #7           +-          4          2          8  7days        1        0        0      -

= a name stands for its project
file q used
file other names
run setquota -P --names other build 2 8 0 0 q
changes q
holds q over
run setquota -P --names other carol 2 8 0 0 q
status 1
! quota: unknown name carol
writes 0
text build:x:7:
file other
run setquota -P --names other build 2 8 0 0 q
status 1
! quota: other: bad line 1
writes 0

= limits are copied from project to project
file q over
file other names
run setquota -P -p 7 9 q
changes q
run setquota -P --names other -p build store q
changes q
run repquota -Pv q
head project q 7days 7days
> #7           +-          4          2          8  7days        1        0        0      -
> #8           --          0          2          8      -        0        0        0      -
> #9           --          0          2          8      -        0        0        0      -

= periods are set in a file of projects
file q over
run setquota -P -t 86400 3600 q
at q 0 3653254932 1 86400 3600
run repquota -P q
head project q 24:00 01:00
> #7           +-          4          2          8  7days        1        0        0      -

= times of a project are set
file q over
run setquota -P -T 7 3600 unset q
! quota: inode time not set, soft limit not exceeded
changes q
run repquota -Pp q
head project q 7days 7days
> #7           +-          4          2          8 1700003600        1        0        0      0

= lines set limits of projects
file q used
file other names
text build 2 8 0 0
text store 1 2 3 4
text 9 5 6 7 8
input
both setquota -Pb --names other q
changes q
run repquota -P -v q
head project q 7days 7days
> #7           +-          4          2          8  7days        1        0        0      -
> #8           --          0          1          2      -        0        3        4      -
> #9           --          0          5          6      -        0        7        8      -
text build 0 0 0 0
text carol 1 1 1 1
input
both setquota -Pb --names other q
status 1
! quota: input line 2: unknown name carol
changes q
run repquota -P -v q
head project q 7days 7days
> #7           --          4          0          0      -        1        0        0      -
> #8           --          0          1          2      -        0        3        4      -
> #9           --          0          5          6      -        0        7        8      -

= limits are set in an empty file of vfsv0
put end 3653254932 0 604800 604800 0 2 0 0
file q
run setquota -P -F vfsv0 4294967295 100 200 10 20 q
at q 6144 end
run repquota -F vfsv0 -Pv q
head project q 7days 7days
> #4294967295  --          0        100        200      -        0       10       20      -
run setquota -P -F vfsv0 7 4294967296 0 0 0 q
status 1
! quota: q: no room for bsoft 4294967296 of 7
writes 0

= the form of a project is printed and applied
file q over
file other names
run edquota -P --print 7 q
> Disk quotas for project #7 (pid 7):
>   Filesystem blocks soft hard inodes soft hard
>   q 4 2 8 1 0 0
writes 0
run edquota -P --print --names other build q
> Disk quotas for project build (pid 7):
>   Filesystem blocks soft hard inodes soft hard
>   q 4 2 8 1 0 0
writes 0
text Disk quotas for project build (pid 7):
text   Filesystem blocks soft hard inodes soft hard
text   q 4 100 200 1 10 20
input
both edquota -P --apply --names other build q
changes q
run repquota -P q
head project q 7days 7days
> #7           --          4        100        200      -        1       10       20      -
text Disk quotas for project #8 (pid 8):
text Filesystem blocks soft hard inodes soft hard
text q 0 1 2 0 3 4
input
both edquota -P --apply 8 q
changes q
run repquota -Pv q
head project q 7days 7days
> #7           --          4        100        200      -        1       10       20      -
> #8           --          0          1          2      -        0        3        4      -
";

/// What refuses an edit of a file of projects, and what refuses its words.
pub const REFUSED: &str = "\
= a file of each kind
use six
put 0 3653254932
keep projects
use six
put 0 3653245223
keep groups
text Disk quotas for project #7 (pid 7):
text Filesystem blocks soft hard inodes soft hard
text q 0 1 1 0 1 1
keep form

= forms of users and groups are none of projects
file q projects
text Disk quotas for group #7 (gid 7):
text Filesystem blocks soft hard inodes soft hard
text q 0 1 1 0 1 1
input
both edquota -P --apply 7 q
status 1
! quota: bad form at line 1
writes 0
text Disk quotas for user #7 (uid 7):
text Filesystem blocks soft hard inodes soft hard
text q 0 1 1 0 1 1
input
both edquota -P --apply 7 q
status 1
! quota: bad form at line 1
writes 0
text Disk quotas for project #7 (gid 7):
text Filesystem blocks soft hard inodes soft hard
text q 0 1 1 0 1 1
input
both edquota -P --apply 7 q
status 1
! quota: bad form at line 1
writes 0
text Disk quotas for project #7 (pid 8):
text Filesystem blocks soft hard inodes soft hard
text q 0 1 1 0 1 1
input
both edquota -P --apply 7 q
status 1
! quota: bad form at line 1
writes 0

= a form of projects is none of groups and users
file q six
input form
both edquota -g --apply 7 q
status 1
! quota: bad form at line 1
writes 0
input form
both edquota -u --apply 7 q
status 1
! quota: bad form at line 1
writes 0

= files of users and groups are none of projects
file q six
file g groups
run setquota -P 1000 1 1 0 0 q
status 3
! quota: q: wrong kind
writes 0
run setquota -P 1000 1 1 0 0 g
status 3
! quota: g: wrong kind
writes 0
run setquota -P -p 1000 7 q
status 3
! quota: q: wrong kind
writes 0
run setquota -P -t 86400 3600 g
status 3
! quota: g: wrong kind
writes 0
run setquota -P -T 1000 1 1 q
status 3
! quota: q: wrong kind
writes 0
run setquota -P -b g
status 3
! quota: g: wrong kind
writes 0
run edquota -P --print 1000 q
status 3
! quota: q: wrong kind
writes 0
input form
both edquota -P --apply 7 q
status 3
! quota: q: wrong kind
writes 0

= a file of projects is none of users and groups
file q projects
run setquota 1000 1 1 0 0 q
status 3
! quota: q: wrong kind
writes 0
run setquota -g 1000 1 1 0 0 q
status 3
! quota: q: wrong kind
writes 0
run setquota -g -t 1 1 q
status 3
! quota: q: wrong kind
writes 0
run edquota -g --print 1000 q
status 3
! quota: q: wrong kind
writes 0

= flat files are none of projects, and no file is looked at
file q
run setquota -P -F vfsold 7 1 2 0 0 q
status 2
! quota: usage: Excludes at word 10
calls
run setquota -P -F vfsold -p 7 8 q
status 2
! quota: usage: Excludes at word 8
calls
run setquota -P -F vfsold -b q
status 2
! quota: usage: Excludes at word 6
calls
run setquota -P -F vfsold -t 1 2 q
status 2
! quota: usage: Excludes at word 8
calls
run setquota -P -F vfsold -T 7 1 2 q
status 2
! quota: usage: Excludes at word 9
calls
run edquota -P -F vfsold --print 7 q
status 2
! quota: usage: Excludes at word 7
calls
run edquota -P -F vfsold --apply 7 q
status 2
! quota: usage: Excludes at word 7
calls

= two kinds are refused before any file is looked at
file q projects
run setquota -gP 7 1 2 0 0 q
status 2
! quota: usage: Excludes at word 8
calls
run edquota -P -u --print 7 q
status 2
! quota: usage: Excludes at word 6
calls
run setquota -P -P 7 1 2 0 0 q
changes q
run repquota -Pv q
head project q 7days 7days
> #7           --          0          1          2      -        0        0        0      -
> #1000        --          4          0          0      -        1        0        0      -
";
