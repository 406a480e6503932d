//! Changes of files of vfsold32 of which calls fail, or whose disk stops.

/// A file of which identifier 1 exceeds both soft limits and identifier 2 uses nothing, and lines that change it. A
/// record is eight numbers of four bytes: of blocks the hard and the soft limit and what is in use, the same of inodes,
/// and the times of both.
pub const FILES_OF_32: &str = "\
= files of other rows
put end 0 0 0 0 0 0 604800 604800
put end 8 2 4 9 8 9 5 6
put end 8 2 0 0 0 0 0 0
keep flat
text 7 1 2 0 0
text 1 3 4 0 0
text 7 0 0 0 0
keep lines
put end 0 0 0 0 0 0 604800 604800
put end 4 3 4 0 0 9 5 0
put end 8 2 0 0 0 0 0 0
fill 0 160
keep made
file q flat
run setquota -F vfsold32 7 1 2 0 0 q
changes q
use q
keep first
run setquota -F vfsold32 1 3 4 0 0 q
changes q
use q
keep second
";

/// Each call of each object fails in turn.
pub const SWEPT: &str = "\
= limits behind the end of an empty file
file q
sweep each setquota -F vfsold32 -u 1000 100 200 10 20 q
at q 32032 end

= each way to change a record, or the periods
file q flat
sweep each setquota -F vfsold32 1 3 4 5 6 q
at q 32 4 3 4 6 5 9 5 6
file q flat
sweep each setquota -F vfsold32 2 0 0 0 0 q
at q 64 0 0 0 0 0 0 0 0 end
file q flat
sweep each setquota -F vfsold32 -p 1 7 q
at q 224 8 2 0 9 8 0 0 0 end
file q flat
sweep each setquota -F vfsold32 -t 4294967295 3600 q
at q 24 4294967295 3600 8
file q flat
sweep each setquota -F vfsold32 -T 1 2594967295 unset q
at q 56 4294967295 0 8

= lines that are made together
file q flat
input lines
stays q
sweep each setquota -F vfsold32 -b q
holds q made

= each line where it stands
file q flat
text beside
file q.new
input lines
may q first
may q second
stays q.new
sweep each setquota -F vfsold32 -b q
holds q made

= a listing into the file, and a new one of it
file q flat
text 1 0 9 1 10
file l
stays q l
sweep each quotacheck -F vfsold32 --input l q
at q 32 8 2 5 9 8 1 5 0 8 2 0 0 0 0 0 0 end
stays q l
sweep each quotacheck -c -F vfsold32 --input l q
at q 32 0 0 5 0 0 1 0 0 end

= conversions of it, and one that is refused
file q flat
stays q r
sweep each convertquota -f vfsold32,vfsv1 q r
same q
changes r
stays r s
sweep each convertquota -f vfsv1,vfsold32 r s
same r
holds s flat
record btime 604800 itime 604800
record bsoft 1 btime 4294967296
file q
stays q t t.new
sweep each convertquota -f vfsold,vfsold32 q t
status 1
! quota: q: no room for btime 4294967296 of 1
absent t t.new
";

/// The disk stops at each of its calls.
pub const STOPPED: &str = "\
= limits of a known identifier
file q flat
stop setquota -F vfsold32 -u 1 3 9 1 2 q | repquota -F vfsold32 q
changes q

= limits of an identifier behind the end of the file
file q flat
stop setquota -F vfsold32 -u 60 1 2 3 4 q | edquota --print -F vfsold32 60 q
at q 1952 end

= limits in an empty file, of which a stop leaves nothing or the whole new one
file q
stop setquota -F vfsold32 -u 1000 100 200 10 20 q | repquota -F vfsold32 q
at q 32032 end

= limits that go
file q flat
stop setquota -F vfsold32 -u 2 0 0 0 0 q | repquota -F vfsold32 -v q
changes q

= periods
file q flat
stop setquota -F vfsold32 -u -t 86400 3600 q | repquota -F vfsold32 q
changes q

= times
file q flat
stop setquota -F vfsold32 -T -u 1 3600 unset q | repquota -F vfsold32 -p q
changes q

= lines that are made together, of whose file the greater half may be left under the name of the new one
put end 0 0 0 0 0 0 604800 604800
put end 4 3 4 0 0 9 5 0
put end 8 2 0 0 0 0 0 0
fill 0 32
keep half
file q flat
input lines
may q.new half
may q.new made
stop setquota -b -F vfsold32 q | repquota -F vfsold32 -v q
holds q made

= three lines, each where it stands, since a file has the name of a new one
file q flat
text beside
file q.new
input lines
may q first
may q second
stays q.new
stop setquota -b -F vfsold32 q | repquota -F vfsold32 -v q
holds q made
";
