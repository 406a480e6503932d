//! What is left where the first call of an object fails, told whole.

/// An output, a store and an error output, of which the first call fails that writes.
pub const ENDED: &str = "\
= a report in a script that is not written ends it, and the line before stays
use empty
fill 0 2016
file q
text setquota -u 1000 100 200 0 0 q
text repquota -u -v q
text setquota -u 1000 10x 0 0 0 q
text repquota -u -v q
input
fails output 1
run script
status 4
! quota: line 2: output fault
changes q
run repquota -u -v q
head user q 7days 7days
> #1000        --          0        100        200      -        0        0        0      -

= a conversion that is not written makes no new file
file q empty
run setquota -u 1000 0 4294967295 0 0 q
changes q
fails store 21
run convertquota -u -f vfsv1,vfsv0 q r
status 4
! quota: store fault
writes 1
same q
absent r
changes r.new

= a warning that is not written is an output fault, and the time is set
file q timed
run setquota -T -u 1000 3600 unset q
! quota: inode time not set, soft limit not exceeded
changes q
use q
keep set
file q timed
fails error 1
run setquota -T -u 1000 3600 unset q
status 4
! quota: output fault
holds q set
run repquota -p q
head user q 7days 7days
> #1000        +-          4          2          8 1700003600        1        0        0      0

= the line of a refusal that is not written leaves the status
file q six
fails error 1
run setquota -u 1000 10x 0 0 0 q
status 1
same q
";
