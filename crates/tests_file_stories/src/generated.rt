/// Files out of listings that are made. A listing of the same numbers was written out by another program, and so were
/// the sums.
pub const GENERATED: &str = "\
= one line makes a file of one user, and a line on it
run generate 0 1 q
> lines 1, inodes 1, identifiers 1, KiB 216, report 351 bytes
changes q
absent q.new
run repquota q
head user q 7days 7days
> #2807        --        216          0          0      -        1        0        0      -

= another file of the name gives way to a new one, and other files stay
raw no quota file
file q
raw another file
file r
run generate 18446744073709551615 12 q
> lines 12, inodes 11, identifiers 11, KiB 1560, report 1251 bytes
changes q
absent q.new
same r

= the tenth line repeats the ninth
run generate 0 9 q
> lines 9, inodes 9, identifiers 9, KiB 1304, report 1071 bytes
changes q
run generate 0 10 q
> lines 10, inodes 9, identifiers 9, KiB 1304, report 1071 bytes
same q

= the file is that of the listing
run generate 0 11 q
> lines 11, inodes 10, identifiers 10, KiB 1448, report 1161 bytes
changes q
text 2807 100 2049 1001 432
text 2424 100 2049 1002 88
text 2937 100 2049 1003 312
text 1236 100 2049 1004 400
text 1125 100 2049 1005 272
text 2891 100 2049 1006 104
text 4184 100 2049 1007 464
text 5975 100 2049 1008 64
text 2264 100 2049 1009 472
text 2264 100 2049 1009 472
text 4139 100 2049 1011 288
input
run quotacheck -c -u -F vfsv1 r
changes r
use q
holds r

= the report has as many bytes as are told
run generate 0 2 quota.user
> lines 2, inodes 2, identifiers 2, KiB 260, report 450 bytes
changes quota.user
run repquota quota.user
head user quota.user 7days 7days
> #2424        --         44          0          0      -        1        0        0      -
> #2807        --        216          0          0      -        1        0        0      -

= a listing of many lines
run generate 1 2000 q
> lines 2000, inodes 1800, identifiers 1512, KiB 229308, report 136341 bytes
changes q

= on another store it gives the same
run generate 1 2000 q
> lines 2000, inodes 1800, identifiers 1512, KiB 229308, report 136341 bytes
changes q

= the count is 1 to 1,000,000
run generate 0 0 q
status 2
! quota: usage: BadValue at word 2
absent q
run generate 0 1000001 q
status 2
! quota: usage: BadValue at word 2
absent q

= each call of the store fails in turn
sweep store generate 0 12 q
> lines 12, inodes 11, identifiers 11, KiB 1536, report 1251 bytes
changes q

= and each of the output
sweep output generate 0 12 q
> lines 12, inodes 11, identifiers 11, KiB 1536, report 1251 bytes
changes q
";
