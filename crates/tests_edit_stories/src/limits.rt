//! Limits of flat files.

/// What `setquota` leaves of a flat file.
pub const SET: &str = "\
= new limits lengthen an empty file
file q
run setquota -F vfsold -u 1000 100 200 10 20 q
writes 1
fill 0 40000
record bhard 200 bsoft 100 ihard 20 isoft 10
holds q
absent q.new
run repquota -F vfsold -u -v q
head user q 7days 7days
> #1000        --          0        100        200      -        0       10       20      -
run repquota -F vfsold q
head user q 7days 7days

= all bytes but those of the record stay
record blocks 9 inodes 9 btime 7 itime 9
record bhard 8 bsoft 2 blocks 4 inodes 1 btime 5 itime 6
record bhard 1 btime 8 itime 9
record
file q
run setquota -F vfsold -u 1 100 200 10 20 q
record blocks 9 inodes 9 btime 7 itime 9
record bhard 200 bsoft 100 blocks 4 ihard 20 isoft 10 inodes 1
record bhard 1 btime 8 itime 9
record
holds q

= times of a record without use and limits are taken away, and all other bytes stay
record blocks 9 inodes 9 btime 7 itime 9
record btime 5 itime 6
record bhard 1 btime 8 itime 9
record
file q
run setquota -F vfsold -u 1 0 0 0 0 q
record blocks 9 inodes 9 btime 7 itime 9
record
record bhard 1 btime 8 itime 9
record
holds q

= limits of identifier 0 leave the periods
record btime 7 itime 9
record bhard 8 bsoft 2 blocks 4 inodes 1 btime 5 itime 6
file q
run setquota -F vfsold -u 0 1 2 3 4 q
record bhard 2 bsoft 1 ihard 4 isoft 3 btime 7 itime 9
record bhard 8 bsoft 2 blocks 4 inodes 1 btime 5 itime 6
holds q

= the record of an identifier stands at its place
file q
run setquota -F vfsold -u 65535 1 1 0 0 q
writes 1
at q 2621440 end

= a timer starts where the use exceeds the soft limit
fill 0 40000
record blocks 4 inodes 1
file q
run setquota -F vfsold -u 1000 2 8 0 0 q
fill 0 40000
record bhard 8 bsoft 2 blocks 4 inodes 1 btime 1700604800
holds q

= a timer that would end after the last moment is refused
fill 0 40000
record blocks 4 inodes 1
file q
now 18446744073709551615
run setquota -F vfsold -u 1000 2 8 0 0 q
status 1
! quota: q: no room for btime 18446744073710156415 of 1000
writes 0

= a running timer stays while the soft limit is exceeded
fill 0 80
record bhard 8 bsoft 2 blocks 4 inodes 1 btime 1700000001
file q
run setquota -F vfsold -u 2 3 9 0 0 q
fill 0 80
record bhard 9 bsoft 3 blocks 4 inodes 1 btime 1700000001
holds q

= a running timer stops at the soft limit
fill 0 80
record bhard 8 bsoft 2 blocks 4 inodes 1 btime 1700000001
file q
run setquota -F vfsold -u 2 4 9 0 0 q
fill 0 80
record bhard 9 bsoft 4 blocks 4 inodes 1
holds q

= a running timer stops without a soft limit
fill 0 80
record bhard 8 bsoft 2 blocks 4 inodes 1 btime 1700000001
file q
run setquota -F vfsold -u 2 0 9 0 0 q
fill 0 80
record bhard 9 blocks 4 inodes 1
holds q

= words of limits have their values
file q
run setquota -F vfsold -u 2 3K 2M 5k 6m q
fill 0 80
record bhard 2048 bsoft 3 ihard 6000000 isoft 5000
holds q
file q
run setquota -F vfsold -u 2 3G 2T 4g 0 q
fill 0 80
record bhard 2147483648 bsoft 3145728 isoft 4000000000
holds q
file q
run setquota -F vfsold -u 00000000000000000000000002 00000000000000000007 0 0 1 q
fill 0 80
record bsoft 7 ihard 1
holds q

= limits of 0 drop a record that uses nothing
fill 0 80
record bhard 8 bsoft 2 ihard 3 isoft 1 btime 5 itime 5
file q
run setquota -F vfsold -u 2 0 0 0 0 q
fill 0 120
holds q
writes 1

= one that uses something keeps its use and loses its timers
fill 0 80
record bhard 8 bsoft 2 blocks 4 ihard 3 isoft 1 inodes 5 btime 6 itime 7
file q
run setquota -F vfsold -u 2 0 0 0 0 q
fill 0 80
record blocks 4 inodes 5
holds q
writes 1

= one that is absent stays so
fill 0 120
file q
run setquota -F vfsold -u 2 0 0 0 0 q
same q
writes 0
file q
run setquota -F vfsold -u 2 0 0 0 0 q
at q 0 end
writes 0
";

/// What refuses limits. Each run meets an empty file `q`, and none that is named `r`.
pub const REFUSED: &str = "\
= a word that is no number of a limit
file q
run setquota -F vfsold -u 1000 10x 0 0 0 q
status 1
! quota: bad number 10x
writes 0
run setquota -F vfsold -u 1000 1 1 1 0x q
status 1
! quota: bad number 0x
writes 0
run setquota -F vfsold -u 1000 1 1 y x q
status 1
! quota: bad number y
writes 0
run setquota -F vfsold -u 1000 18014398509481984M 0 0 0 q
status 1
! quota: bad number 18014398509481984M
writes 0
run setquota -F vfsold -u 1000 0 0 1K 0 q
status 1
! quota: bad number 1K
writes 0
run setquota -F vfsold -u 1000 0 1k 0 0 q
status 1
! quota: bad number 1k
writes 0
run setquota -F vfsold -u 1000 10x 0 0 0 r
status 1
! quota: bad number 10x
writes 0

= a word that is no name and no number of an identifier
file q
run setquota -F vfsold -u carol 1 1 1 1 q
status 1
! quota: unknown name carol
writes 0
run setquota -F vfsold -u 10x 1 1 1 1 q
status 1
! quota: unknown name 10x
writes 0
run setquota -F vfsold -u carol 10x 0 0 0 r
status 1
! quota: unknown name carol
writes 0
run setquota -F vfsold -u 4294967296 x 0 0 0 r
status 1
! quota: bad number 4294967296
writes 0
run setquota -F vfsold -u 99999999999999999999999999 0 0 0 0 q
status 1
! quota: bad number 99999999999999999999999999
writes 0

= a file that is not there
file q
run setquota -F vfsold -u 1000 1 1 1 1 r
status 1
! quota: r: no such file
writes 0

= an identifier and limits for which a flat file has no room
file q
run setquota -F vfsold -u 1048576 1 1 0 0 q
status 1
! quota: q: no room for id 1048576 of 1048576
writes 0
run setquota -F vfsold -u 4294967295 0 0 0 0 q
status 1
! quota: q: no room for id 4294967295 of 4294967295
writes 0
run setquota -F vfsold -u 7 0 4294967296 4294967296 0 q
status 1
! quota: q: no room for isoft 4294967296 of 7
writes 0
run setquota -F vfsold -u 7 0 4T 0 0 q
status 1
! quota: q: no room for bhard 4294967296 of 7
writes 0

= words that are no command
file q
run setquota -F vfsold -u 1000 1 1 1 1 q q
status 2
! quota: usage: WrongOperands at word 11
writes 0
run setquota -F vfsold -u 1000 1 1 1 q
status 2
! quota: usage: WrongOperands at word 9
writes 0
run setquota -F vfsold -u -1 1 1 1 1 q
status 2
! quota: usage: UnknownOption at word 4
writes 0
run setquota -F vfsold -u 1000 1 1 -1 1 q
status 2
! quota: usage: UnknownOption at word 7
writes 0
run setquota -F vfsold -u 1000 1 1 1 1 q.new
status 2
! quota: usage: BadFileName at word 9
writes 0

= a cut file is not changed
fill 0 79
file q
run setquota -F vfsold -u 1000 100 200 10 20 q
status 3
! quota: q: damaged: PartialRecord at record 1
";

/// Limits at which calls fail. A whole run makes four calls of the store: the size, a read of record 0, a write and a
/// sync; the record is not read, since it stands past the end of the file.
pub const FAILING: &str = "\
= each failing call leaves the old file or the changed one
fill 0 40
record bhard 1 bsoft 1 blocks 1 ihard 1 isoft 1 inodes 1
keep old
raw other
file other
file q old
run setquota -F vfsold -u 60 2 8 0 0 q
changes q
writes 1
use q
keep new
file q old
fails store 1
run setquota -F vfsold -u 60 2 8 0 0 q
status 4
! quota: store fault
same q other
fails store 2
run setquota -F vfsold -u 60 2 8 0 0 q
status 4
! quota: store fault
same q other
fails store 3
run setquota -F vfsold -u 60 2 8 0 0 q
status 4
! quota: store fault
same q other
fails store 4
run setquota -F vfsold -u 60 2 8 0 0 q
status 4
! quota: store fault
holds q new
same other

= an error output that fails takes the line of the fault
file q old
fails store 3
fails error 1
run setquota -F vfsold -u 60 2 8 0 0 q
status 4
same q

= calls that a run does not make change nothing of it
raw other
file other
file q old
fails store 5
run setquota -F vfsold -u 60 2 8 0 0 q
holds q new
same other
file q old
fails output 1
run setquota -F vfsold -u 60 2 8 0 0 q
holds q new
same other
file q old
fails error 1
run setquota -F vfsold -u 60 2 8 0 0 q
holds q new
same other

= whichever call fails leaves the old file or the changed one
file q old
sweep store setquota -F vfsold -u 60 2 8 0 0 q
holds q new
file q
sweep store setquota -F vfsold -u 10 100 200 10 20 q
changes q

= so it is of every way to change a record, or the periods
record blocks 9 inodes 9 itime 9
record bhard 8 bsoft 2 blocks 4 ihard 9 isoft 8 inodes 9 btime 5 itime 6
record bsoft 3
keep three
file q three
sweep store setquota -F vfsold -u 0 1 2 3 4 q
record bhard 2 bsoft 1 blocks 9 ihard 4 isoft 3 inodes 9 itime 9
record bhard 8 bsoft 2 blocks 4 ihard 9 isoft 8 inodes 9 btime 5 itime 6
record bsoft 3
holds q
file q three
sweep store setquota -F vfsold -u 2 0 0 0 0 q
record blocks 9 inodes 9 itime 9
record bhard 8 bsoft 2 blocks 4 ihard 9 isoft 8 inodes 9 btime 5 itime 6
record
holds q
file q three
sweep store setquota -F vfsold -p 1 0 q
record bhard 8 bsoft 2 blocks 9 ihard 9 isoft 8 inodes 9 itime 9
record bhard 8 bsoft 2 blocks 4 ihard 9 isoft 8 inodes 9 btime 5 itime 6
record bsoft 3
holds q
file q three
sweep store setquota -F vfsold -t 86400 3600 q
record blocks 9 inodes 9 btime 86400 itime 3600
record bhard 8 bsoft 2 blocks 4 ihard 9 isoft 8 inodes 9 btime 5 itime 6
record bsoft 3
holds q
file q three
sweep store setquota -F vfsold -T 1 7 unset q
record blocks 9 inodes 9 itime 9
record bhard 8 bsoft 2 blocks 4 ihard 9 isoft 8 inodes 9 btime 1700000007
record bsoft 3
holds q
file q three
text Disk quotas for user #1 (uid 1):
text Filesystem blocks soft hard inodes soft hard
text q 4 0 0 9 0 0
input
sweep store edquota --apply -F vfsold -u 1 q
record blocks 9 inodes 9 itime 9
record blocks 4 inodes 9
record bsoft 3
holds q

= whichever call fails under lines that are made where they stand, those before it stay
file q three
run setquota -F vfsold 3 1 2 0 0 q
changes q
use q
keep first
file q three
text beside
file q.new
text 3 1 2 0 0
text 2 0 0 0 0
input
may q first
stays q.new
sweep store setquota -F vfsold -b q
record blocks 9 inodes 9 itime 9
record bhard 8 bsoft 2 blocks 4 ihard 9 isoft 8 inodes 9 btime 5 itime 6
record
record bhard 2 bsoft 1
holds q
file q three
text setquota -F vfsold 3 1 2 0 0 q
text setquota -F vfsold 2 0 0 0 0 q
input
may q first
sweep store script
record blocks 9 inodes 9 itime 9
record bhard 8 bsoft 2 blocks 4 ihard 9 isoft 8 inodes 9 btime 5 itime 6
record
record bhard 2 bsoft 1
holds q
";
