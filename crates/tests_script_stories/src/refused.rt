//! Scripts that end at a command that is refused.

/// Each command, refused in a line of a script.
pub const REFUSED: &str = "\
= a script ends at the first command that is refused
use empty
fill 0 2016
file q
text setquota -u 1000 100 200 0 0 q
text repquota -u -v q
text setquota -u 1000 10x 0 0 0 q
text repquota -u -v q
input
run script
status 1
head user q 7days 7days
> #1000        --          0        100        200      -        0        0        0      -
! quota: line 3: bad number 10x
changes q

= a script stands in no script
text script
input
run script
status 2
! quota: line 1: usage: UnknownCommand at word 0

= in a script no command reads the standard input
file q six
text quotacheck -u q
input
run script
status 2
! quota: line 1: usage: MissingOption at word 3
text quotacheck -c q
input
run script
status 2
! quota: line 1: usage: MissingOption at word 3
text setquota -b q
input
run script
status 2
! quota: line 1: usage: MissingOption at word 3
text edquota --apply 7 q
input
run script
status 2
! quota: line 1: usage: MissingOption at word 4

= words that are no command are refused in their line, behind those that ran
file q six
text setquota 7 1 2 0 0 q
text repquota -u -g q
text setquota 8 1 2 0 0 q
input
run script
status 2
! quota: line 2: usage: Excludes at word 4
changes q
text # nothing
text repquota -x q
input
run script
status 2
! quota: line 2: usage: UnknownOption at word 1
text
text
text convertquota -f vfsv1,vfsv0 q q.new
input
run script
status 2
! quota: line 3: usage: BadFileName at word 4
text generate 0 0 r
input
run script
status 2
! quota: line 1: usage: BadValue at word 2
absent r
text
text repquota -P -F vfsold q
input
run script
status 2
! quota: line 2: usage: Excludes at word 5
text convertquota -P -f vfsold,vfsv0 q r
input
run script
status 2
! quota: line 1: usage: Excludes at word 6
absent r
text rquotad --format vfsold --calls 1 --port 0 --export /home project q
input
run script
status 2
! quota: line 1: usage: Excludes at word 11
text setquota -gP 9 1 2 0 0 q
input
run script
status 2
! quota: line 1: usage: Excludes at word 8
text setquota -P -b q
input
run script
status 2
! quota: line 1: usage: MissingOption at word 4
run repquota -v q
head user q 7days 7days
> #7           --          0          1          2      -        0        0        0      -
> #1000        --          4          0          0      -        1        0        0      -

= reports
file q six
text repquota -g q
input
run script
status 3
! quota: line 1: q: wrong kind
text repquota q
text repquota -P q
input
run script
status 3
head user q 7days 7days
> #1000        --          4          0          0      -        1        0        0      -
! quota: line 2: q: wrong kind
text repquota -F vfsv0 q
input
run script
status 3
! quota: line 1: q: other format
text repquota r
input
run script
status 1
! quota: line 1: r: no such file
text repquota --names r q
input
run script
status 1
! quota: line 1: r: no such file
raw x
file n
text repquota --names n q
input
run script
status 1
! quota: line 1: n: bad line 1

= edits
file q six
text # the words are those of the second line
text setquota carol 1 1 0 0 q
input
run script
status 1
! quota: line 2: unknown name carol
text setquota -p 7 4294967296 q
input
run script
status 1
! quota: line 1: bad number 4294967296
text setquota -t x 1 q
input
run script
status 1
! quota: line 1: bad number x
text setquota -T 1000 5 x q
input
run script
status 1
! quota: line 1: bad number x
text setquota -T 1000 5 5 r
input
run script
status 1
! quota: line 1: r: no such file
text edquota --print 7 r
input
run script
status 1
! quota: line 1: r: no such file

= a value without room
fill 0 40
file q
text setquota -F vfsold 1048576 1 2 0 0 q
input
run script
status 1
! quota: line 1: q: no room for id 1048576 of 1048576
same q
text setquota -F vfsold 3 1 2 0 0 q
text setquota -F vfsold 3 4294967296 2 0 0 q
text setquota -F vfsold 4 1 2 0 0 q
input
run script
status 1
! quota: line 2: q: no room for bsoft 4294967296 of 3
at q 160 end

= a line of an input and the line of the script are both told
text 7 1 2 3 4
text 8 1 2 x 4
file l
file q six
text #
text setquota -b --input l q
input
run script
status 1
! quota: line 2: input line 2: bad number x
changes q
text 9 1 2 3
file l
text setquota -b --input l q
input
run script
status 1
! quota: line 1: l: bad line 1
same q
text setquota -b --input m q
input
run script
status 1
! quota: line 1: m: no such file
absent m
raw 9
fill 32 1024
file l
text setquota -b --input l q
input
run script
status 1
! quota: line 1: l: long line 1
same q

= forms
text Disk quotas for user #7 (uid 7):
text   Filesystem blocks soft hard inodes soft hard
text   q 0 5 x 0 7 8
file l
file q six
text edquota --apply --input l 7 q
input
run script
status 1
! quota: line 1: bad form at line 3
same q

= listings
text 1000 100 2049 12 8
text 1000 100 2049 13
file l
text 1000 100 2049 12 8
text 1001 100 2049 12 8
file m
file q six
text quotacheck -u --input l q
input
run script
status 1
! quota: line 1: l: bad line 2
text quotacheck -c --input m q
input
run script
status 1
! quota: line 1: m: line 2 conflicts with line 1
text quotacheck -c --input n r
input
run script
status 1
! quota: line 1: n: no such file
absent r
same q

= conversions
file q six
file r
text convertquota -f vfsv1,vfsv0 q r
input
run script
status 1
! quota: line 1: r: exists already
text convertquota -f vfsv1,vfsv0 q q
input
run script
status 1
! quota: line 1: q: same name
text convertquota -f vfsv0,vfsv1 q p
input
run script
status 3
! quota: line 1: q: other format
absent p

= serving
file q six
text rquotad --calls 1 --port 0 --export /home user q --export /home group q
input
run script
status 3
! quota: line 1: q: wrong kind
text rquotad --calls 0 --port 0 --export /home user q
input
run script
status 2
! quota: line 1: usage: BadValue at word 1

= a damaged file
file q six
fill 0 79
file r
text repquota q
text repquota -F vfsold r
text repquota q
input
run script
status 3
head user q 7days 7days
> #1000        --          4          0          0      -        1        0        0      -
! quota: line 2: r: damaged: PartialRecord at record 1

= a warning has its line
file q six
text
text setquota -T 1000 5 unset q
text # nothing
text setquota -T 1000 5 unset q
input
run script
writes 0
! quota: line 2: block time not set, soft limit not exceeded
! quota: line 2: inode time not set, soft limit not exceeded
! quota: line 4: block time not set, soft limit not exceeded
! quota: line 4: inode time not set, soft limit not exceeded
file q timed
text
text setquota -T 1000 5 unset q
text setquota -T 1000 18446744073709551615 unset q
input
run script
status 1
! quota: line 2: inode time not set, soft limit not exceeded
! quota: line 3: q: no room for btime 18446744075409551615 of 1000
changes q
run repquota -p q
head user q 7days 7days
> #1000        +-          4          2          8 1700000005        1        0        0      0
";
