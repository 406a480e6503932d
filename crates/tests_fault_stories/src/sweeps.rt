//! Commands of which each call of each object fails in turn.

/// Changes in place, reports, and files that are replaced or made by another one. Of a run with no fault nothing is
/// told but what it left; of the others the sweep tells all. A file that is replaced is the old one wherever a call
/// fails.
pub const SWEPT: &str = "\
= limits behind the end of an empty flat file
file q
sweep each setquota -F vfsold -u 1000 100 200 10 20 q
at q 40040 end

= a new file of a listing, and its report
text 1000 100 2049 12 8
file l
stays q
sweep each quotacheck -c -u -F vfsv1 --input l q
at q 6144 end
sweep each repquota -u q
head user q 7days 7days
> #1000        --          4          0          0      -        1        0        0      -
use q
fill 0 100
file q
sweep each repquota -u q
head user q 7days 7days
> #1000        --          4          0          0      -        1        0        0      -

= a listing with a line that stands there twice
text 1000 100 2049 12 8
text 1000 100 2049 12 8
file l
stays q
sweep each quotacheck -c -u -F vfsv1 --input l q
at q 6144 end

= a listing with a line that is at odds with an earlier one
text 1000 100 2049 12 8
text 1000 100 2049 13 8
text 1001 100 2049 12 8
file l
stays q q.new
sweep each quotacheck -c -u -F vfsv1 --input l q
status 1
! quota: l: line 3 conflicts with line 1
absent q q.new

= a listing with a line that lacks a word
text 1000 100 2049 12 8
text 1000 100 2049 13
file l
stays q q.new
sweep each quotacheck -c -u -F vfsv1 --input l q
status 1
! quota: l: bad line 2
absent q q.new

= limits of the first identifier of a tree file, which go again
use empty
fill 0 2016
file q
sweep each setquota -u 1000 100 200 0 0 q
at q 6144 end
sweep each setquota -u 1000 0 0 0 0 q
at q 6144 end
sweep each setquota -u 1000 0 0 0 0 q
same q

= limits that start a timer, and its report as it runs down
file q six
sweep each setquota -u 1000 2 8 0 0 q
changes q
sweep each repquota -u q
head user q 7days 7days
> #1000        +-          4          2          8  7days        1        0        0      -
now 1700432001
sweep each repquota -u q
head user q 7days 7days
> #1000        +-          4          2          8  2days        1        0        0      -
now 1700432031
sweep each repquota -u q
head user q 7days 7days
> #1000        +-          4          2          8  47:59        1        0        0      -
now 1700604800
sweep each repquota -u q
head user q 7days 7days
> #1000        +-          4          2          8   none        1        0        0      -

= limits over which a timer runs on, and limits that stop it
file q timed
now 1700000010
sweep each setquota -u 1000 3 8 0 0 q
changes q
sweep each setquota -u 1000 4 8 0 0 q
changes q

= times, of which one is passed over with a warning
file q timed
sweep each setquota -T -u 1000 3600 unset q
! quota: inode time not set, soft limit not exceeded
changes q

= conversions that are refused, and one that is made
file q empty
run setquota -u 1000 0 4294967296 0 0 q
changes q
stays q r r.new
sweep each convertquota -u -f vfsv1,vfsv0 q r
status 1
! quota: q: no room for bhard 4294967296 of 1000
absent r r.new
run setquota -u 1000 0 4294967295 0 0 q
changes q
stays q r
sweep each convertquota -u -f vfsv1,vfsv0 q r
same q
at r 6144 end
stays q r r.new
sweep each convertquota -u -f vfsv1,vfsv0 q r
status 1
! quota: r: exists already
stays q q.new
sweep each convertquota -u -f vfsv1,vfsv0 q q
status 1
! quota: q: same name

= a datagram that is answered
file q six
run setquota -u 1000 100 200 10 20 q
changes q
hex 00000001 00000000 00000002 000186ab 00000001 00000001
hex 00000001 00000018 00000000 00000001 68000000 000003e8 000003e8 00000000
hex 00000000 00000000 00000005 2f686f6d 65000000 000003e8
datagram 1700000000
stays q
sweep each rquotad --calls 1 --port 0 --export /home user q
hex 00000001 00000001 00000000 00000000 00000000 00000000 00000001
hex 00000400 00000001 000000c8 00000064 00000004 00000014 0000000a 00000001 00000000 00000000
sent

= a file of projects, from its listing to its conversion, and a call for one of them
text 1000 7 2049 12 8
file l
text 1000 7 2049 12 10
file m
stays q
sweep each quotacheck -c -P -F vfsv1 --input l q
at q 6144 end
sweep each setquota -P 7 2 8 0 0 q
changes q
sweep each repquota -P q
head project q 7days 7days
> #7           +-          4          2          8  7days        1        0        0      -
sweep each setquota -P -p 7 8 q
changes q
sweep each setquota -P -t 86400 3600 q
changes q
sweep each setquota -P -T 7 3600 unset q
! quota: inode time not set, soft limit not exceeded
changes q
text 7 3 9 0 0
input
sweep each setquota -P -b q
changes q
sweep each edquota -P --print 7 q
> Disk quotas for project #7 (pid 7):
>   Filesystem blocks soft hard inodes soft hard
>   q 4 3 9 1 0 0
text Disk quotas for project #8 (pid 8):
text   Filesystem blocks soft hard inodes soft hard
text   q 0 5 6 0 7 8
input
sweep each edquota -P --apply 8 q
changes q
stays q
sweep each quotacheck -P --input m q
changes q
stays q r
sweep each convertquota -P -f vfsv1,vfsv0 q r
same q
changes r
hex 00000001 00000000 00000002 000186ab 00000002 00000001
hex 00000001 00000018 00000000 00000001 68000000 00000000 00000000 00000000
hex 00000000 00000000 00000005 2f686f6d 65000000 00000002 00000007
datagram 1700000000
stays q
sweep each rquotad --calls 1 --port 0 --export /home project q
hex 00000001 00000001 00000000 00000000 00000000 00000000 00000001
hex 00000400 00000001 00000009 00000003 00000005 00000000 00000000 00000001 00000e10 00000000
sent

= a script that ends at its third line
use empty
fill 0 2016
file q
text setquota -u 1000 100 200 0 0 q
text repquota -u -v q
text setquota -u 1000 10x 0 0 0 q
text repquota -u -v q
input
sweep each script
status 1
head user q 7days 7days
> #1000        --          0        100        200      -        0        0        0      -
! quota: line 3: bad number 10x
at q 6144 end

= lines that set limits, of which the third lacks a word, or has a faulty one
file q empty
text 7 1 2 0 0
text # note
text 8 1 2 0
input
sweep each setquota -u -b q
status 1
! quota: input: bad line 3
changes q
file q empty
text 7 1 2 0 0
text # note
text 8 x 2 0 0
input
sweep each setquota -u -b q
status 1
! quota: input line 3: bad number x
changes q
";
