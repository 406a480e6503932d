//! Changes in place over a disk that stops at each of its calls, and the recovery of what is left then.

/// Files of other rows: of vfsv0 and vfsv1, of which identifier 1000 exceeds its soft limit of blocks (`timed0`,
/// `timed`), and a flat file, of which identifier 1 exceeds both and identifier 2 uses nothing (`flat`).
pub const STOPPED_FILES: &str = "\
= files of other rows
file q timed
run convertquota -f vfsv1,vfsv0 q r
changes r
use r
keep timed0
hex 111fc0d9 00000000 803a0900 803a0900 00000000 02000000 00000000 00000000
keep empty0
record btime 604800 itime 604800
record bhard 8 bsoft 2 blocks 4 ihard 9 isoft 8 inodes 9 btime 5 itime 6
record bhard 8 bsoft 2
keep flat
";

/// Files of vfsv1.
pub const STOPPED_TREES: &str = "\
= limits of a known identifier
file q timed
stop setquota -u 1000 3 9 1 2 q | repquota q
changes q

= limits of an identifier that has no record
file q timed
stop setquota -u 7 1 2 3 4 q | edquota --print 7 q
changes q

= limits in a file that has no records, and behind them none
file q empty
stop setquota -u 1000 100 200 0 0 q | repquota -v q
at q 6144 end
stop setquota -u 1000 0 0 0 0 q | repquota -v q
at q 6144 end
run repquota -v q
head user q 7days 7days

= an undo file that is there from before
file q timed
fill 0 1024
file q.undo
stop setquota -u 1000 0 0 0 0 q | repquota q
changes q

= another file is left alone
file q timed
file r empty
stop setquota -u 1000 0 0 0 0 q | repquota q
changes q
same r

= copied limits
file q timed
stop setquota -u -p 1000 7 q | edquota --print 7 q
changes q

= periods
file q timed
stop setquota -u -t 86400 3600 q | repquota q
changes q

= times, of which one is passed over
file q timed
stop setquota -T -u 1000 3600 unset q | repquota -p q
! quota: inode time not set, soft limit not exceeded
changes q

= three lines, each where it stands, since a file has the name of a new one
file q timed
run setquota 7 1 2 0 0 q
changes q
use q
keep first
run setquota 1000 3 4 0 0 q
changes q
use q
keep second
file q timed
text beside
file q.new
text 7 1 2 0 0
text 1000 3 4 0 0
text 7 0 0 0 0
input
may q first
may q second
stays q.new
stop setquota -b q | repquota -v q
changes q

= a form
file q timed
text Disk quotas for user #1000 (uid 1000):
text   Filesystem blocks soft hard inodes soft hard
text   q 4 100 200 1 10 20
input
stop edquota --apply -u 1000 q | edquota --print 1000 q
changes q

= a script whose third line is refused
file q empty
text setquota -u 1000 100 200 0 0 q
text repquota -u -v q
text setquota -u 1000 10x 0 0 0 q
text repquota -u -v q
input
stop script | repquota -v q
status 1
head user q 7days 7days
> #1000        --          0        100        200      -        0        0        0      -
! quota: line 3: bad number 10x
at q 6144 end
";

/// Files of vfsv0.
pub const STOPPED_TREES_0: &str = "\
= limits of a known identifier
file q timed0
stop setquota -F vfsv0 -u 1000 3 9 1 2 q | repquota -F vfsv0 q
changes q

= limits of an identifier that has no record
file q timed0
stop setquota -F vfsv0 -u 7 1 2 3 4 q | edquota --print -F vfsv0 7 q
changes q

= limits in a file that has no records, and behind them none
file q empty0
stop setquota -F vfsv0 -u 1000 100 200 0 0 q | repquota -F vfsv0 -v q
at q 6144 end
stop setquota -F vfsv0 -u 1000 0 0 0 0 q | repquota -F vfsv0 -v q
at q 6144 end
run repquota -F vfsv0 -v q
head user q 7days 7days

= copied limits
file q timed0
stop setquota -F vfsv0 -u -p 1000 7 q | edquota --print -F vfsv0 7 q
changes q

= periods
file q timed0
stop setquota -F vfsv0 -u -t 86400 3600 q | repquota -F vfsv0 q
changes q

= times, of which one is passed over
file q timed0
stop setquota -F vfsv0 -T -u 1000 3600 unset q | repquota -F vfsv0 -p q
! quota: inode time not set, soft limit not exceeded
changes q

= three lines, each where it stands, since a file has the name of a new one
file q timed0
run setquota -F vfsv0 7 1 2 0 0 q
changes q
use q
keep first
run setquota -F vfsv0 1000 3 4 0 0 q
changes q
use q
keep second
file q timed0
text beside
file q.new
text 7 1 2 0 0
text 1000 3 4 0 0
text 7 0 0 0 0
input
may q first
may q second
stays q.new
stop setquota -b -F vfsv0 q | repquota -F vfsv0 -v q
changes q

= a form
file q timed0
text Disk quotas for user #1000 (uid 1000):
text   Filesystem blocks soft hard inodes soft hard
text   q 4 100 200 1 10 20
input
stop edquota --apply -F vfsv0 -u 1000 q | edquota --print -F vfsv0 1000 q
changes q

= a script whose third line is refused
file q empty0
text setquota -F vfsv0 -u 1000 100 200 0 0 q
text repquota -F vfsv0 -u -v q
text setquota -F vfsv0 -u 1000 10x 0 0 0 q
text repquota -F vfsv0 -u -v q
input
stop script | repquota -F vfsv0 -v q
status 1
head user q 7days 7days
> #1000        --          0        100        200      -        0        0        0      -
! quota: line 3: bad number 10x
at q 6144 end
";

/// Flat files.
pub const STOPPED_FLAT_FILES: &str = "\
= limits of a known identifier
file q flat
stop setquota -F vfsold -u 1 3 9 1 2 q | repquota -F vfsold q
changes q

= limits of an identifier behind the end of the file
file q flat
stop setquota -F vfsold -u 60 1 2 3 4 q | edquota --print -F vfsold 60 q
at q 2440 end

= limits in an empty file, of which a stop leaves nothing or the whole new one
file q
stop setquota -F vfsold -u 1000 100 200 10 20 q | repquota -F vfsold q
at q 40040 end

= limits that go
file q flat
stop setquota -F vfsold -u 2 0 0 0 0 q | repquota -F vfsold -v q
changes q

= copied limits
file q flat
stop setquota -F vfsold -u -p 1 7 q | edquota --print -F vfsold 7 q
changes q

= periods
file q flat
stop setquota -F vfsold -u -t 86400 3600 q | repquota -F vfsold q
changes q

= times
file q flat
stop setquota -F vfsold -T -u 1 3600 unset q | repquota -F vfsold -p q
changes q

= three lines, each where it stands, since a file has the name of a new one
file q flat
run setquota -F vfsold 7 1 2 0 0 q
changes q
use q
keep first
run setquota -F vfsold 1 3 4 0 0 q
changes q
use q
keep second
file q flat
text beside
file q.new
text 7 1 2 0 0
text 1 3 4 0 0
text 7 0 0 0 0
input
may q first
may q second
stays q.new
stop setquota -b -F vfsold q | repquota -F vfsold -v q
changes q

= a form
file q flat
text Disk quotas for user #1 (uid 1):
text   Filesystem blocks soft hard inodes soft hard
text   q 4 100 200 1 10 20
input
stop edquota --apply -F vfsold -u 1 q | edquota --print -F vfsold 1 q
changes q

= a script whose third line is refused
file q flat
text setquota -F vfsold -u 1 100 200 0 0 q
text repquota -F vfsold -u q
text setquota -F vfsold -u 1 10x 0 0 0 q
text repquota -F vfsold -u q
input
stop script | repquota -F vfsold q
status 1
head user q 7days 7days
> #1           --          4        100        200      -        9        0        0      -
! quota: line 3: bad number 10x
changes q
";
