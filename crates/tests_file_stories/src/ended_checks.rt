/// Listings at the edges of what is taken, and those for which a format has no room.
pub const BOUNDS: &str = "\
= a line of a listing has 256 bytes at most
file q empty
raw 1000 100 2049 12 8
fill 32 238
input
both quotacheck -c -u -F vfsv1 q
changes q
run repquota q
head user q 7days 7days
> #1000        --          4          0          0      -        1        0        0      -
file q empty
raw 1000 100 2049 12 8
fill 32 238
text
input
both quotacheck -c -u -F vfsv1 q
changes q
run repquota q
head user q 7days 7days
> #1000        --          4          0          0      -        1        0        0      -
file q empty
raw 1000 100 2049 12 8
fill 32 239
input
both quotacheck -c -u -F vfsv1 q
status 1
! quota: input: long line 1
writes 0
file q empty
raw 1000 100 2049 12 8
fill 32 239
text
input
both quotacheck -c -u -F vfsv1 q
status 1
! quota: input: long line 1
writes 0

= of two faults the first one is named
file q empty
text x
fill 32 257
input
both quotacheck -c -u -F vfsv1 q
status 1
! quota: input: bad line 1
writes 0
fill 32 257
text
text x
input
both quotacheck -c -u -F vfsv1 q
status 1
! quota: input: long line 1
writes 0
text
fill 32 257
input
both quotacheck -c -u -F vfsv1 q
status 1
! quota: input: long line 2
writes 0
text 1 1 1 1 8
text 1 1 1 1 9
fill 32 257
input
both quotacheck -c -u -F vfsv1 q
status 1
! quota: input: line 2 conflicts with line 1
writes 0
text 1 1 1 1 8
fill 32 257
text
text 1 1 1 1 9
input
both quotacheck -c -u -F vfsv1 q
status 1
! quota: input: long line 2
writes 0

= no file is written where its format has no room
file q empty
text 1048577 0 1 1 8
text 1048576 0 1 2 8
input
both quotacheck -c -F vfsold q
status 1
! quota: q: no room for id 1048576 of 1048576
writes 0
text 1048576 0 1 1 8
text 7 0 1 2 8589934592
input
both quotacheck -c -F vfsold q
status 1
! quota: q: no room for space 4398046511104 of 7
writes 0
text 7 0 1 2 8589934591
input
both quotacheck -c -F vfsold q
status 1
! quota: q: no room for space 4398046510592 of 7
writes 0
text 7 0 1 2 36028797018963967
text 7 0 1 3 1
input
both quotacheck -c -F vfsv0 q
status 1
! quota: q: no room for space 18446744073709551616 of 7
writes 0
text 8 0 1 1 18446744073709551615
text 8 0 1 2 18446744073709551615
input
both quotacheck -c q
status 1
! quota: q: no room for space 18889465931478580853760 of 8
writes 0

= a file that is there has no room either
file q six
run setquota -u 7 2 8 0 0 q
changes q
use q
keep fresh
now 18446744073709551615
file q timed
text 1000 0 1 1 6
file other
run quotacheck -u --input other q
changes q
file q timed
text 1000 0 1 1 36028797018963968
file other
run quotacheck -u --input other q
status 1
! quota: q: no room for space 18446744073709551616 of 1000
writes 0
file q timed
text 1000 0 1 1 36028797018963967
file other
run quotacheck -u --input other q
changes q
file q fresh
text 7 0 1 1 6
file other
run quotacheck -u --input other q
status 1
! quota: q: no room for btime 18446744073710156415 of 7
writes 0
";

/// Files that are refused before a listing is read, and calls that fail.
pub const CALLS: &str = "\
= the file is opened before the listing is read
file q six
run quotacheck absent
status 1
! quota: absent: no such file
writes 0
file q six
run quotacheck -g q
status 3
! quota: q: wrong kind
writes 0
file q six
run quotacheck -F vfsv0 q
status 3
! quota: q: other format
writes 0
raw other
file q
run quotacheck q
status 3
! quota: q: not a quota file
writes 0
file q short
run quotacheck q
status 3
! quota: q: damaged: Short at block 5
writes 0
file q short
run quotacheck -F vfsold q
status 3
! quota: q: damaged: PartialRecord at record 153
writes 0

= a new file is made whatever stood there, or where nothing did
file q short
text 1000 100 2049 12 8
input
run quotacheck -c -u -F vfsv1 q
at q 6144 end
file q short
text 1000 100 2049 12 8
input
run quotacheck -c -u absent
at absent 6144 end

= no new file is made of a wrong listing
file q short
text x
input
run quotacheck -c -u absent
status 1
! quota: input: bad line 1
writes 0
absent absent
text 1000 100 2049 12 8
text 1000 100 2049 13 8
text 1001 100 2049 12 8
input
run quotacheck -c -u absent
status 1
! quota: input: line 3 conflicts with line 1
writes 0
absent absent
run quotacheck -c --input absent q
status 1
! quota: absent: no such file
writes 0

= a call that fails ends a check and leaves the file
text 1000 100 2049 12 8
text 1001 100 2049 13 8
keep two
file l two
file q six
input two
fails store 6
run quotacheck q
status 4
! quota: store fault
input two
stays q
sweep store quotacheck q
changes q
file q six
fails store 8
run quotacheck --input l q
status 4
! quota: store fault
stays q
sweep store quotacheck --input l q
changes q
file q six
input two
fails store 3
run quotacheck -c q
status 4
! quota: store fault
changes q.new

= so it is where a new file is made
file l two
file q six
input two
stays q
sweep store quotacheck -c q
changes q
file q six
fails store 5
run quotacheck -c --input l q
status 4
! quota: store fault
changes q.new

= and where it is made of a file
file l two
file q six
stays q
sweep store quotacheck -c --input l q
changes q

= an input that fails ends a check and leaves the file
file l two
file q six
input two
fails input 1
run quotacheck q
status 4
! quota: input fault
writes 0
input two
fails input 2
run quotacheck q
status 4
! quota: input fault
writes 0
input two
stays q q.new
sweep input quotacheck q
changes q
run repquota q
head user q 7days 7days
> #1000        --          4          0          0      -        1        0        0      -
> #1001        --          4          0          0      -        1        0        0      -
";
