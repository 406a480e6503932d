/// Lines that set limits.
pub const BATCHES: &str = "\
= each line sets limits or is passed over
file q empty
input
both setquota -u -b q
writes 0
run repquota -v q
head user q 7days 7days
file q empty
text
text  \t\x20
text # only
raw #
input
both setquota -u -b q
writes 0
run repquota -v q
head user q 7days 7days
file q empty
text 8 0 0 0 0
input
both setquota -u -b q
writes 0
run repquota -v q
head user q 7days 7days
file q empty
raw 7 1 2 0 0
input
both setquota -u -b q
changes q
run repquota -v q
head user q 7days 7days
> #7           --          0          1          2      -        0        0        0      -
file q empty
text # a
text
text  \t
text \t007  1\t2 0 0\x20
raw #7 5 5 5 5
input
both setquota -u -b q
changes q
run repquota -v q
head user q 7days 7days
> #7           --          0          1          2      -        0        0        0      -
file q empty
raw #
hex ff fe 0a
text 7 1 2 0 0
raw #
hex ff
input
both setquota -u -b q
changes q
run repquota -v q
head user q 7days 7days
> #7           --          0          1          2      -        0        0        0      -
file q empty
raw #
hex 00 0d 0a
text 7 1 2 0 0
input
both setquota -u -b q
changes q
run repquota -v q
head user q 7days 7days
> #7           --          0          1          2      -        0        0        0      -
file q empty
text 7 9 9 9 9
text 8 1 1 1 1
text 7 1 2 0 0
text 8 0 0 0 0
input
both setquota -u -b q
changes q
run repquota -v q
head user q 7days 7days
> #7           --          0          1          2      -        0        0        0      -
file q empty
text 7 1 2 0 0
text 7 1 2 0 0
text 9 0 0 0 0
input
both setquota -u -b q
changes q
run repquota -v q
head user q 7days 7days
> #7           --          0          1          2      -        0        0        0      -
file q empty
text 7 1M 2G 3k 4m
input
both setquota -u -b q
changes q
run repquota -v q
head user q 7days 7days
> #7           --          0       1024    2097152      -        0     3000  4000000      -
file q empty
text 4294967295 0 0 0 18446744073709551615
input
both setquota -u -b q
changes q
run repquota -v q
head user q 7days 7days
> #4294967295  --          0          0          0      -        0        0 18446744073709551615      -

= lines set limits in files of each format
hex 111fc0d9 00000000 803a0900 803a0900 00000000 02000000 00000000 00000000
keep old
hex 2719c0d9 01000000 803a0900 803a0900 00000000 02000000 00000000 00000000
keep group
text 7 1 2 3 4
text 1000 5 6 7 8
text 7 9 10 11 12
text 8 1 1 1 1
text 8 0 0 0 0
keep lines
file q empty
input lines
both setquota -b -u q
changes q
run repquota -v -u q
head user q 7days 7days
> #7           --          0          9         10      -        0       11       12      -
> #1000        --          0          5          6      -        0        7        8      -
file q empty
input lines
both setquota -b -F vfsv1 q
changes q
run repquota -v -F vfsv1 q
head user q 7days 7days
> #7           --          0          9         10      -        0       11       12      -
> #1000        --          0          5          6      -        0        7        8      -
file q old
input lines
both setquota -b -u q
changes q
run repquota -v -u q
head user q 7days 7days
> #7           --          0          9         10      -        0       11       12      -
> #1000        --          0          5          6      -        0        7        8      -
file q old
input lines
both setquota -b -F vfsv0 q
changes q
run repquota -v -F vfsv0 q
head user q 7days 7days
> #7           --          0          9         10      -        0       11       12      -
> #1000        --          0          5          6      -        0        7        8      -
file q
input lines
both setquota -b -F vfsold q
changes q
run repquota -v -F vfsold q
head user q 7days 7days
> #7           --          0          9         10      -        0       11       12      -
> #1000        --          0          5          6      -        0        7        8      -
file q group
input lines
both setquota -gb q
changes q
run repquota -gv q
head group q 7days 7days
> #7           --          0          9         10      -        0       11       12      -
> #1000        --          0          5          6      -        0        7        8      -

= lines name users and start timers
text alice:x:1000:1000:Alice:/home/alice:/bin/sh
text bob:x:1001:100::/home/bob:/bin/sh
file other
file q six
text alice 2 8 0 0
text bob 3 4 5 6
input
both setquota -b --names other q
changes q
run repquota -v --names other q
head user q 7days 7days
> alice        +-          4          2          8  7days        1        0        0      -
> bob          --          0          3          4      -        0        5        6      -
file q six
text carol 1 1 1 1
input
run setquota -b --names other q
status 1
! quota: input line 1: unknown name carol
writes 0

= a line stops a timer
file q timed
text 1000 4 8 0 0
input
both setquota -b q
changes q
run repquota q
head user q 7days 7days
> #1000        --          4          4          8      -        1        0        0      -
";
