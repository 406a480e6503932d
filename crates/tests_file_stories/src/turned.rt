//! Stores whose files turn into other bytes in the middle of a command.

/// Damages that are met while a file is opened, or by a look-up after that. A command ends at one, or does all of its
/// work.
pub const TURNED: &str = "\
= a store that turns before the header is read, and one that turns behind the root
file q six
fails bytes 0
run repquota q
status 3
! quota: q: not a quota file
fails bytes 2
run repquota q
status 3
! quota: q: damaged: RefOut at block 2

= a report over a store that turns is whole, or is none
file q six
turn repquota q
head user q 7days 7days
> #1000        --          4          0          0      -        1        0        0      -

= limits over a store that turns are set, or the file is as it was
file q six
turn setquota 1000 1 1 1 1 q
changes q

= a form over a store that turns is whole, or is none
file q timed
turn edquota --print 1000 q
> Disk quotas for user #1000 (uid 1000):
>   Filesystem blocks soft hard inodes soft hard
>   q 4 2 8 1 0 0

= limits over a store that turns are copied, or the file is as it was
file q timed
turn setquota -p 1000 7 q
changes q

= times over a store that turns are set, or the file is as it was
file q timed
turn setquota -T 1000 5 unset q
! quota: inode time not set, soft limit not exceeded
changes q

= a check over a store that turns is made, of whose lines none is one of the device, or the file is as it was
file q timed
text 1000 1 1 1 1
text 7 1 1 1 1
input
turn quotacheck --device 5 q
changes q

= the lines of an input over a store that turns are carried out, or the file is as the lines before left it
file q timed
run setquota 1000 1 1 1 1 q
changes q
use q
keep one
file q timed
text 1000 1 1 1 1
text 7 1 1 1 1
input
turn setquota -b q
changes q
file q timed
text beside
file q.new
text 1000 1 1 1 1
text 7 1 1 1 1
input
may q one
turn setquota -b q
changes q
";
