//! Reports of tree files, and limits in them.

/// Reports of tree files.
pub const REPORTED: &str = "\
= a report shows times or periods
file q six
run repquota -n -p q
head user q 7days 7days
> #1000        --          4          0          0      0        1        0        0      0
run repquota -np -F vfsv1 q
head user q 7days 7days
> #1000        --          4          0          0      0        1        0        0      0
run repquota -u q
head user q 7days 7days
> #1000        --          4          0          0      -        1        0        0      -
run repquota -n q
head user q 7days 7days
> #1000        --          4          0          0      -        1        0        0      -

= bytes behind the last block are passed over
use six
fill 0 100
file q
run repquota -uFvfsv1 q
head user q 7days 7days
> #1000        --          4          0          0      -        1        0        0      -

= a marked entry is a record of zeros of identifier 0
use six
put 3084 0
put 3072 4
put 5024 0
put 4096 5
put 5136 0
put 5160 0
put 5184 0
put 5200 1
file q
run repquota -u -v q
head user q 7days 7days
> #0           --          0          0          0      -        0        0        0      -
run repquota -u q
head user q 7days 7days
";

/// What refuses a tree file, and the line of each refusal. Where the blocks 1 to 3 are free as well, the rules let any
/// of them be named, and where a header stands alone, each of its other blocks as one to which nothing leads; what is
/// named here is what this program chooses.
pub const REFUSED: &str = "\
= a file that is too short for its blocks
use short
file q
run repquota -u q
status 3
! quota: q: damaged: Short at block 5
same q
absent q.new

= a file of the other kind
use six
put 0 3653245223
file q
run repquota -u q
status 3
! quota: q: wrong kind
file q six
run repquota -g q
status 3
! quota: q: wrong kind

= a file of projects is of another kind than both
use six
put 0 3653254932
file q
run repquota -u q
status 3
! quota: q: wrong kind
run repquota -g q
status 3
! quota: q: wrong kind

= a file of another format or version
file q six
run repquota -F vfsv0 q
status 3
! quota: q: other format
use six
put 4 2
file q
run repquota q
status 3
! quota: q: unknown version

= a number of blocks below 2 or above the greatest
use six
put 20 1
file q
run repquota q
status 3
! quota: q: bad block count
put end 3653246737 1 604800 604800 0 4194305 0 0
file q
run repquota q
status 1
! quota: q: too large

= a header of as many blocks as there may be, or of fewer, without any of them
put end 3653246737 1 604800 604800 0 4194304 0 0
file q
run repquota q
status 3
! quota: q: damaged: Short at block 0
put end 3653246737 1 604800 604800 0 1048577 0 0
file q
run repquota q
status 3
! quota: q: damaged: Short at block 0

= a file without the first bytes of a quota file
use six
put 0 7
file q
run repquota q
status 3
! quota: q: not a quota file
file q
run repquota q
status 3
! quota: q: not a quota file

= a file that is not there
file q six
run repquota r
status 1
! quota: r: no such file

= words of limits
file q six
run setquota -u carol 1 1 0 0 q
status 1
! quota: unknown name carol
run setquota -u 1000 10x 0 0 0 q
status 1
! quota: bad number 10x
same q
absent q.new

= a data block that the chain does not have
use six
put 28 0
file q
run repquota q
status 3
! quota: q: damaged: MissingInChain at block 5

= an identifier whose entry is another one's
use six
put 5136 7
file q
run setquota 7 1 1 1 1 q
status 3
! quota: q: damaged: MissingEntry at block 5 of 1000
same q
absent q.new

= a block of the tree that is free as well
use six
put 24 1
file q
run repquota -u q
status 3
! quota: q: damaged: TwoRoles at block 1
";

/// Limits that are set in tree files.
pub const SET: &str = "\
= a timer starts, and runs out
file q six
run setquota -u 1000 2 8 0 0 q
at q 6144 end
at q 5136 1000 0 0 0 0 0 1 0 8 0 2 0 4096 0 1700604800 0 0 0
run repquota -u q
head user q 7days 7days
> #1000        +-          4          2          8  7days        1        0        0      -
now 1700432001
run repquota -u q
head user q 7days 7days
> #1000        +-          4          2          8  2days        1        0        0      -
now 1700432031
run repquota -u q
head user q 7days 7days
> #1000        +-          4          2          8  47:59        1        0        0      -
now 1700604800
run repquota -u q
head user q 7days 7days
> #1000        +-          4          2          8   none        1        0        0      -

= a timer runs on over another soft limit, and stops at one that is not exceeded
file q timed
now 1700000010
run setquota -u 1000 3 8 0 0 q
changes q
now 1700000000
run repquota -p q
head user q 7days 7days
> #1000        +-          4          3          8 1700604800        1        0        0      0
file q timed
now 1700000010
run setquota -u 1000 4 8 0 0 q
changes q
now 1700000000
run repquota -p q
head user q 7days 7days
> #1000        --          4          4          8      0        1        0        0      0

= limits are set in an empty file of vfsv1
put end 3653246737 1 604800 604800 0 2 0 0
file q
run setquota -u 1000 100 200 0 0 q
at q 6144 end
run repquota -u -v q
head user q 7days 7days
> #1000        --          0        100        200      -        0        0        0      -

= limits are set in an empty file of vfsv0
put end 3653246737 0 604800 604800 0 2 0 0
file q
run setquota -u 1000 100 200 0 0 q
at q 6144 end
run repquota -F vfsv0 -v q
head user q 7days 7days
> #1000        --          0        100        200      -        0        0        0      -

= limits are set in a file of groups
put end 3653245223 1 604800 604800 0 2
fill 0 2024
file q
run setquota -g 1000 100 200 0 0 q
at q 6144 end
run repquota -g -v q
head group q 7days 7days
> #1000        --          0        100        200      -        0        0        0      -

= one more identifier takes one more block
file q six
run setquota 0 100 200 0 0 q
at q 7168 end
run repquota -v q
head user q 7days 7days
> #0           --          0        100        200      -        0        0        0      -
> #1000        --          4          0          0      -        1        0        0      -
";
