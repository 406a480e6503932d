//! Scripts whose commands run one after another.

/// Commands in a row, each over the files that those before it left.
pub const RUN: &str = "\
= a script of no bytes, and one that says nothing
input
run script
text # nothing
text
input
run script

= a limit is set and reported
use empty
fill 0 2016
file q
text setquota -u 1000 100 200 0 0 q
text repquota -u -v q
input
run script
head user q 7days 7days
> #1000        --          0        100        200      -        0        0        0      -
at q 6144 end

= the last line needs no newline
file q six
text setquota 7 1 2 0 0 q
raw setquota 8 3 4 0 0 q
input
run script
changes q
run repquota -v q
head user q 7days 7days
> #7           --          0          1          2      -        0        0        0      -
> #8           --          0          3          4      -        0        0        0      -
> #1000        --          4          0          0      -        1        0        0      -

= words are parted by any number of spaces and tabs
file q six
text \trepquota\t -u  -v \t-- q\x20
input
run script
head user q 7days 7days
> #1000        --          4          0          0      -        1        0        0      -

= each command of edits runs in a script
text 7 1 2 3 4
file l
text Disk quotas for user #9 (uid 9):
text   Filesystem blocks soft hard inodes soft hard
text   q 0 5 6 0 7 8
file form
file q timed
text setquota 6 0 3 0 0 q
text setquota -b --input l q
text setquota -p 7 8 q
text edquota --apply --input form 9 q
text setquota -t 86400 3600 q
text setquota -T 1000 3600 unset q
text edquota --print 9 q
text repquota -v -p q
input
run script
! quota: line 6: inode time not set, soft limit not exceeded
> Disk quotas for user #9 (uid 9):
>   Filesystem blocks soft hard inodes soft hard
>   q 0 5 6 0 7 8
head user q 24:00 01:00
> #6           --          0          0          3      0        0        0        0      0
> #7           --          0          1          2      0        0        3        4      0
> #8           --          0          1          2      0        0        3        4      0
> #9           --          0          5          6      0        0        7        8      0
> #1000        +-          4          2          8 1700003600        1        0        0      0
changes q
same l form

= each command of edits and files runs for projects in a script
text build:7
file names
text 1000 7 2049 12 8
file l
text build 1 2 3 4
text 9 5 6 7 8
file m
text Disk quotas for project #10 (pid 10):
text   Filesystem blocks soft hard inodes soft hard
text   q 0 5 6 0 7 8
file form
text quotacheck -P -c --input l q
text setquota -P 7 2 8 0 0 q
text repquota -P --names names q
text setquota -P --names names -b --input m q
text setquota -P -p 7 8 q
text edquota -P --apply --input form 10 q
text setquota -P -t 86400 3600 q
text setquota -P -T 7 3600 unset q
text edquota -P --print --names names build q
text convertquota -P -f vfsv1,vfsv0 q r
text repquota -Pvp -F vfsv0 r
input
run script
! quota: line 8: inode time not set, soft limit not exceeded
head project q 7days 7days
> build        +-          4          2          8  7days        1        0        0      -
> Disk quotas for project build (pid 7):
>   Filesystem blocks soft hard inodes soft hard
>   q 4 1 2 1 3 4
head project r 24:00 01:00
> #7           +-          4          1          2 1700003600        1        3        4      0
> #8           --          0          1          2      0        0        3        4      0
> #9           --          0          5          6      0        0        7        8      0
> #10          --          0          5          6      0        0        7        8      0
changes q r
same names l m form

= files that a line makes are those that the next ones read
text 1000 100 2049 12 8
file l
file q empty
text quotacheck -c -u -F vfsv1 --input l q
text setquota 7 1 2 0 0 q
text convertquota -f vfsv1,vfsv0 q r
text setquota -F vfsv0 7 0 0 0 0 r
text convertquota -f vfsv0,vfsold r p
text repquota q
text repquota -F vfsv0 -v r
text repquota -F vfsold p
input
run script
head user q 7days 7days
> #1000        --          4          0          0      -        1        0        0      -
head user r 7days 7days
> #1000        --          4          0          0      -        1        0        0      -
head user p 7days 7days
> #1000        --          4          0          0      -        1        0        0      -
changes q r p
same l
absent q.new r.new p.new
at p 40040 end

= a file that a line generates is reported by the next one
text generate 0 1 q
text repquota q
input
run script
> lines 1, inodes 1, identifiers 1, KiB 216, report 351 bytes
head user q 7days 7days
> #2807        --        216          0          0      -        1        0        0      -
changes q

= usage that a listing tells is set by a line
text 1001 100 2049 12 8
file l
file q six
text quotacheck -u --input l q
text repquota q
input
run script
head user q 7days 7days
> #1001        --          4          0          0      -        1        0        0      -
changes q

= a file of names is read anew by each line
text alice:x:1000:1000:Alice:/home/alice:/bin/sh
file p
file none
file q six
text repquota --names p q
text quotacheck -c -F vfsold --input none p
text repquota --names p q
input
run script
status 1
head user q 7days 7days
> alice        --          4          0          0      -        1        0        0      -
! quota: line 3: p: bad line 1
changes p

= the bytes of an input are those that the lines before left
file none
text 7 1 2 0 0
file l
file q six
text setquota -b --input l q
text quotacheck -c -F vfsold --input none l
text setquota -b --input l q
input
run script
status 1
! quota: line 3: l: bad line 1
changes q
put end 0 0 0 0 0 0 604800 0 604800 0
holds l
run repquota -v q
head user q 7days 7days
> #7           --          0          1          2      -        0        0        0      -
> #1000        --          4          0          0      -        1        0        0      -
";
