//! Files of projects: listings, reports with names, and conversions.

/// Listings of projects, and reports of what they tell.
pub const LISTED: &str = "\
= a listing in which owners and projects are apart
text 1000 7 2049 12 8
text 1001 7 2049 13 16
text 1000 8 2049 14 24
text 1000 8 2049 14 24
text 0 0 2049 2 8
text 1000 9 2050 12 40
keep listing

= the second word of a line owns what it tells
text 1000 7 2049 12 8
input
run quotacheck -c -P -F vfsv1 q
at q 0 3653254932 1 604800 604800 0 6 0 2
at q 2056 1
at q 2064 7
at q 6144 end
run repquota -P q
head project q 7days 7days
> #7           --          4          0          0      -        1        0        0      -

= each project has the sums of its inodes, however often and under whose names they are listed
file q
input listing
both quotacheck -c -P q
changes q
run repquota -P q
head project q 7days 7days
> #0           --          4          0          0      -        1        0        0      -
> #7           --         12          0          0      -        2        0        0      -
> #8           --         12          0          0      -        1        0        0      -
> #9           --         20          0          0      -        1        0        0      -
file q
input listing
both quotacheck -Pc -F vfsv0 --device 2049 q
at q 0 3653254932 0
run repquota -F vfsv0 -P q
head project q 7days 7days
> #0           --          4          0          0      -        1        0        0      -
> #7           --         12          0          0      -        2        0        0      -
> #8           --         12          0          0      -        1        0        0      -
file q
input listing
both quotacheck -c -u q
changes q
run repquota -u q
head user q 7days 7days
> #0           --          4          0          0      -        1        0        0      -
> #1000        --         36          0          0      -        3        0        0      -
> #1001        --          8          0          0      -        1        0        0      -

= lines of one inode have to agree in both of its numbers
file q
text 1000 7 2049 12 8
text 1001 7 2049 12 8
input
both quotacheck -c -P q
status 1
! quota: input: line 2 conflicts with line 1
writes 0
text 1000 7 2049 12 8
text 1000 8 2049 12 8
input
both quotacheck -c -P q
status 1
! quota: input: line 2 conflicts with line 1
writes 0

= an empty listing makes an empty file of projects
raw no quota file
file q
input
both quotacheck -c -P q
put end 3653254932 1 604800 604800 0 2
fill 0 2024
holds q
absent q.new
raw no quota file
file q
input
both quotacheck -cPF vfsv0 q
put end 3653254932 0 604800 604800 0 2
fill 0 2024
holds q
absent q.new

= the kind, the format, the periods and the flags stay
put end 3653254932 0 86400 3600 5 2
fill 0 2024
file q
text 1000 7 2049 12 8
input
both quotacheck -P q
at q 6144 end
at q 0 3653254932 0 86400 3600 5

= limits stay, and a timer starts where the usage exceeds them
file q
input listing
run quotacheck -c -P q
changes q
run setquota -P 7 20 30 0 0 q
changes q
run setquota -P 8 20 30 0 0 q
changes q
text 1000 7 2049 12 48
input
both quotacheck -P q
changes q
run repquota -Pv q
head project q 7days 7days
> #7           +-         24         20         30  7days        1        0        0      -
> #8           --          0         20         30      -        0        0        0      -
";

/// Names of projects in reports.
pub const NAMED: &str = "\
= a file of projects, and names of some
text 1000 7 2049 12 8
text 1000 8 2049 13 8
text 1000 9 2049 14 8
text 1000 10 2049 15 8
input
run quotacheck -c -P q
changes q
use q
keep listed
text # the projects of a build host
text
text +other:7
text build:7
text store:0008
text spare:8
text build:9
keep names

= a report shows the first name of a project, or its number
file q listed
file other names
run repquota -P --names other q
head project q 7days 7days
> build        --          4          0          0      -        1        0        0      -
> store        --          4          0          0      -        1        0        0      -
> build        --          4          0          0      -        1        0        0      -
> #10          --          4          0          0      -        1        0        0      -
run repquota -Pn --names other q
head project q 7days 7days
> #7           --          4          0          0      -        1        0        0      -
> #8           --          4          0          0      -        1        0        0      -
> #9           --          4          0          0      -        1        0        0      -
> #10          --          4          0          0      -        1        0        0      -
run repquota -P q
head project q 7days 7days
> #7           --          4          0          0      -        1        0        0      -
> #8           --          4          0          0      -        1        0        0      -
> #9           --          4          0          0      -        1        0        0      -
> #10          --          4          0          0      -        1        0        0      -

= a line of names has two fields, and is told where it has others
file q listed
text build:7
text store:x:8
file other
run repquota -P --names other q
status 1
! quota: other: bad line 2
text build:
file other
run repquota -P --names other q
status 1
! quota: other: bad line 1
text # projects
text :7
file other
run repquota -P --names other q
status 1
! quota: other: bad line 2
text build
file other
run repquota -P --names other q
status 1
! quota: other: bad line 1
text build:4294967296
file other
run repquota -P --names other q
status 1
! quota: other: bad line 1

= names of groups are none of projects, and names of projects none of groups
file q listed
text staff:x:7:alice
file other
run repquota -P --names other q
status 1
! quota: other: bad line 1
text build:7
file other
run repquota -g --names other q
status 1
! quota: other: bad line 1
";

/// Files of each kind as those of each other one, flat files, and conversions.
pub const OPENED: &str = "\
= a file of each kind
use six
put 0 3653254932
keep projects
use six
put 0 3653245223
keep groups

= a file of projects is reported as one of them alone
file q projects
run repquota -P q
head project q 7days 7days
> #1000        --          4          0          0      -        1        0        0      -
run repquota q
status 3
! quota: q: wrong kind
run repquota -u q
status 3
! quota: q: wrong kind
run repquota -g q
status 3
! quota: q: wrong kind
run quotacheck -u q
status 3
! quota: q: wrong kind
run quotacheck -g q
status 3
! quota: q: wrong kind
run convertquota -u -f vfsv1,vfsv0 q r
status 3
! quota: q: wrong kind
absent r
run convertquota -g -f vfsv1,vfsv0 q r
status 3
! quota: q: wrong kind
absent r
run rquotad --calls 1 --port 0 --export /home user q
status 3
! quota: q: wrong kind
run rquotad --calls 1 --port 0 --export /home group q
status 3
! quota: q: wrong kind

= files of users and of groups are none of projects
file q six
file g groups
run repquota -P q
status 3
! quota: q: wrong kind
run repquota -P g
status 3
! quota: g: wrong kind
run quotacheck -P q
status 3
! quota: q: wrong kind
run quotacheck -P g
status 3
! quota: g: wrong kind
run convertquota -P -f vfsv1,vfsv0 q r
status 3
! quota: q: wrong kind
absent r
run rquotad --calls 1 --port 0 --export /home project q
status 3
! quota: q: wrong kind
run rquotad --calls 1 --port 0 --export /home user q --export /home project g
status 3
! quota: g: wrong kind

= a file of projects is refused by its first fault
use projects
put 4 2
file q
run repquota -P q
status 3
! quota: q: unknown version
file q projects
run repquota -P -F vfsv0 q
status 3
! quota: q: other format
use projects
put 28 0
file q
run repquota -P q
status 3
! quota: q: damaged: MissingInChain at block 5
file q
run repquota -P q
status 3
! quota: q: not a quota file
run repquota -P r
status 1
! quota: r: no such file

= flat files are none of projects, and no file is looked at
file q
run repquota -P -F vfsold q
status 2
! quota: usage: Excludes at word 5
calls
run quotacheck -c -P -F vfsold q
status 2
! quota: usage: Excludes at word 6
calls
run convertquota -P -f vfsv0,vfsold q r
status 2
! quota: usage: Excludes at word 6
absent r
calls
run convertquota -P -f vfsold,vfsv1 q r
status 2
! quota: usage: Excludes at word 6
absent r
calls
run rquotad --format vfsold --calls 1 --port 0 --export /home user q --export /home project p
status 2
! quota: usage: Excludes at word 15
absent p
calls

= two kinds are refused before any file is looked at
file q projects
run repquota -uP q
status 2
! quota: usage: Excludes at word 3
calls
run repquota -g -P q
status 2
! quota: usage: Excludes at word 4
calls
run repquota -P -P q
head project q 7days 7days
> #1000        --          4          0          0      -        1        0        0      -

= projects are converted between the formats of tree files
put end 3653254932 0 604800 604800 0 2
fill 0 2024
keep older
put end 3653254932 1 604800 604800 0 2
fill 0 2024
keep newer
file q older
run convertquota -P -f vfsv0,vfsv1 q r
same q
holds r newer
file q newer
run convertquota -P -f vfsv1,vfsv0 q p
same q
holds p older
file q projects
run convertquota -P -f vfsv1,vfsv0 q o
same q
at o 0 3653254932 0 604800 604800 0 6 0
run repquota -P -F vfsv0 o
head project o 7days 7days
> #1000        --          4          0          0      -        1        0        0      -
";
