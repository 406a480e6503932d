//! Reports of flat files.

/// What a report of a flat file shows.
pub const SHOWN: &str = "\
= an empty flat file reports its head
file q
run repquota -F vfsold -u -v q
head user q 7days 7days

= limits of one that uses nothing
fill 0 40000
record bhard 200 bsoft 100 ihard 20 isoft 10
file q
run repquota -F vfsold -u -v q
head user q 7days 7days
> #1000        --          0        100        200      -        0       10       20      -

= over the soft limit of blocks, the timer runs down, and is over when it is reached
fill 0 40000
record bhard 8 bsoft 2 blocks 4 inodes 1 btime 1700604800
file q
run repquota -F vfsold -u -v q
head user q 7days 7days
> #1000        +-          4          2          8  7days        1        0        0      -
now 1700432001
run repquota -F vfsold -u -v q
head user q 7days 7days
> #1000        +-          4          2          8  2days        1        0        0      -
now 1700432031
run repquota -F vfsold -u -v q
head user q 7days 7days
> #1000        +-          4          2          8  47:59        1        0        0      -
now 1700604800
run repquota -F vfsold -u -v q
head user q 7days 7days
> #1000        +-          4          2          8   none        1        0        0      -

= over the soft limit of blocks, with a timer that does not run
fill 0 40000
record bhard 8 bsoft 2 blocks 4 inodes 1
file q
run repquota -F vfsold -u -v q
head user q 7days 7days
> #1000        +-          4          2          8   none        1        0        0      -

= over the hard limit alone, of blocks and of inodes
fill 0 40000
record bhard 3 blocks 4 ihard 5 inodes 6
file q
run repquota -F vfsold -u -v q
head user q 7days 7days
> #1000        ++          4          0          3      -        6        0        5      -

= at the soft limit
fill 0 40000
record bsoft 4 blocks 4 isoft 6 inodes 6 btime 1700604800 itime 1700604800
file q
run repquota -F vfsold -u -v q
head user q 7days 7days
> #1000        --          4          4          0      -        6        6        0      -

= inodes over the soft limit, an hour and a half ahead
fill 0 40000
record isoft 6 inodes 7 itime 1700005400
file q
run repquota -F vfsold -u -v q
head user q 7days 7days
> #1000        -+          0          0          0      -        7        6        0  01:30

= columns widen
fill 0 40000
record bhard 4294967295 bsoft 4294967295 blocks 4294967295 ihard 4294967295 isoft 1 inodes 4294967295 itime 18446744073709551615
file q
run repquota -F vfsold -u -v q
head user q 7days 7days
> #1000        -+ 4294967295 4294967295 4294967295      - 4294967295        1 4294967295 213503982314925days

= the times of identifier 0 are the periods, and no timers
record bhard 8 bsoft 2 blocks 4 inodes 1 btime 3600 itime 172799
file q
run repquota -F vfsold -u -v q
head user q 01:00 2days
> #0           +-          4          2          8   none        1        0        0      -

= times alone make no record, and a period of 0 is 7 days
record itime 18446744073709551615
file q
run repquota -F vfsold -u -v q
head user q 7days 213503982334601days
";

/// What refuses a report, and the line of each refusal.
pub const REFUSED: &str = "\
= a cut record is a damage
fill 0 79
file q
run repquota -F vfsold -u -v q
status 3
! quota: q: damaged: PartialRecord at record 1

= a file that is not there
file q
run repquota -F vfsold -u -v r
status 1
! quota: r: no such file

= a file without the first bytes of a tree file, and no format
file q
run repquota -u q
status 3
! quota: q: not a quota file

= words that are no command
file q
run quota q
status 2
! quota: usage: UnknownCommand at word 0
run repquota -F vfsold -u -v -q
status 2
! quota: usage: UnknownOption at word 5
run repquota -F vfsold -u -v q.new
status 2
! quota: usage: BadFileName at word 5
run repquota -F vfsold -u -v q q
status 2
! quota: usage: WrongOperands at word 7
run repquota -u -g q
status 2
! quota: usage: Excludes at word 4
";

/// Reports in which calls fail.
pub const FAILING: &str = "\
= each of the three calls of the store fails, and a report has no more
record bhard 2 bsoft 1 blocks 1 ihard 2 isoft 1 inodes 1
keep record
file q record 3
fails store 1
run repquota -F vfsold -u -v q
status 4
! quota: store fault
fails store 2
run repquota -F vfsold -u -v q
status 4
! quota: store fault
fails store 3
run repquota -F vfsold -u -v q
status 4
! quota: store fault
fails store 4
run repquota -F vfsold -u -v q
head user q 7days 7days
> #0           --          1          1          2      -        1        1        2      -
> #1           --          1          1          2      -        1        1        2      -
> #2           --          1          1          2      -        1        1        2      -
sweep store repquota -F vfsold -u -v q
head user q 7days 7days
> #0           --          1          1          2      -        1        1        2      -
> #1           --          1          1          2      -        1        1        2      -
> #2           --          1          1          2      -        1        1        2      -

= the first call of the output fails, and a report has one
file q record 3
fails output 1
run repquota -F vfsold -u -v q
status 4
! quota: output fault
fails output 2
run repquota -F vfsold -u -v q
head user q 7days 7days
> #0           --          1          1          2      -        1        1        2      -
> #1           --          1          1          2      -        1        1        2      -
> #2           --          1          1          2      -        1        1        2      -

= whichever call of the output fails is told
file q record 3
sweep output repquota -F vfsold -u -v q
head user q 7days 7days
> #0           --          1          1          2      -        1        1        2      -
> #1           --          1          1          2      -        1        1        2      -
> #2           --          1          1          2      -        1        1        2      -

= an error output that fails changes no report, and takes the line of a fault
file q record 3
fails error 1
run repquota -F vfsold -u -v q
head user q 7days 7days
> #0           --          1          1          2      -        1        1        2      -
> #1           --          1          1          2      -        1        1        2      -
> #2           --          1          1          2      -        1        1        2      -
fails store 1
fails error 1
run repquota -F vfsold -u -v q
status 4
fails output 1
fails error 1
run repquota -F vfsold -u -v q
status 4

= an error output that fails takes the line of a refusal, and not its status
file q
fails error 1
run repquota
status 2
";
