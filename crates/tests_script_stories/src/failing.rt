//! Scripts in which calls fail.

/// Each call of each object, which fails in its line.
pub const FAILING: &str = "\
= files of other rows
file q empty
run setquota 1000 100 200 0 0 q
changes q
use q
keep first

= a script that fails while it is read has run nothing
raw #
fill 32 999
text
keep note
file q empty
text setquota 1000 100 200 0 0 q
input note 9
fails input 1
run script
status 4
! quota: input fault
writes 0
text setquota 1000 100 200 0 0 q
input note 9
fails input 2
run script
status 4
! quota: input fault
writes 0
text setquota 1000 100 200 0 0 q
input note 9
stays q q.new
sweep input script
changes q

= a store that fails is told in its line
record bhard 2 bsoft 1 blocks 1 ihard 2 isoft 1 inodes 1
file q
text repquota -F vfsold q
text #
text repquota -F vfsold q
text repquota -F vfsold q
input
fails store 1
run script
status 4
! quota: line 1: store fault
text repquota -F vfsold q
text #
text repquota -F vfsold q
text repquota -F vfsold q
input
fails store 4
run script
status 4
head user q 7days 7days
> #0           --          1          1          2      -        1        1        2      -
! quota: line 3: store fault
text repquota -F vfsold q
text #
text repquota -F vfsold q
input
sweep store script
head user q 7days 7days
> #0           --          1          1          2      -        1        1        2      -
head user q 7days 7days
> #0           --          1          1          2      -        1        1        2      -

= a store that fails leaves what the lines before made
file q empty
text setquota 1000 100 200 0 0 q
text setquota 1001 1 2 3 4 q
input
may q first
sweep store script
changes q
run repquota -v q
head user q 7days 7days
> #1000        --          0        100        200      -        0        0        0      -
> #1001        --          0          1          2      -        0        3        4      -

= an output that fails is told in its line
record bhard 2 bsoft 1 blocks 1 ihard 2 isoft 1 inodes 1
file q
text repquota -F vfsold q
text repquota -F vfsold q
input
fails output 2
run script
status 4
head user q 7days 7days
> #0           --          1          1          2      -        1        1        2      -
! quota: line 2: output fault
text repquota -F vfsold q
text repquota -F vfsold q
input
sweep output script
head user q 7days 7days
> #0           --          1          1          2      -        1        1        2      -
head user q 7days 7days
> #0           --          1          1          2      -        1        1        2      -

= a warning that is not written ends the script
file q six
text setquota -T 1000 5 5 q
text setquota 1000 100 200 0 0 q
input
fails error 1
run script
status 4
! quota: line 1: output fault
writes 0
text setquota -T 1000 5 5 q
text setquota -T 1000 5 5 q
input
sweep error script
! quota: line 1: block time not set, soft limit not exceeded
! quota: line 1: inode time not set, soft limit not exceeded
! quota: line 2: block time not set, soft limit not exceeded
! quota: line 2: inode time not set, soft limit not exceeded

= an error output that fails takes the line of a refusal, and not its status
file q six
text setquota 7 x 2 0 0 q
input
fails error 1
run script
status 1
text repquota -u -g q
input
fails error 1
run script
status 2
hex ff
input
fails error 1
run script
status 1
";
