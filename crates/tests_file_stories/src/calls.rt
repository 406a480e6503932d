//! The calls of the store.

/// Commands over a flat file of 30 records, and the calls of the store that each makes, in their order. Opening asks
/// for the size and reads record 0. A report reads 25 records at a time, and a record that is looked up is read where
/// the file has it. A change writes one record and syncs the file.
pub const ORDER: &str = "\
= a record of other rows
record bhard 1 bsoft 1 blocks 1 ihard 1 isoft 1 inodes 1
keep record

= a report reads its file 25 records at a time
file q record 30
run repquota -F vfsold -u -v q
calls size q; read q; read q; read q;
head user q 7days 7days
> #0           --          1          1          1      -        1        1        1      -
> #1           --          1          1          1      -        1        1        1      -
> #2           --          1          1          1      -        1        1        1      -
> #3           --          1          1          1      -        1        1        1      -
> #4           --          1          1          1      -        1        1        1      -
> #5           --          1          1          1      -        1        1        1      -
> #6           --          1          1          1      -        1        1        1      -
> #7           --          1          1          1      -        1        1        1      -
> #8           --          1          1          1      -        1        1        1      -
> #9           --          1          1          1      -        1        1        1      -
> #10          --          1          1          1      -        1        1        1      -
> #11          --          1          1          1      -        1        1        1      -
> #12          --          1          1          1      -        1        1        1      -
> #13          --          1          1          1      -        1        1        1      -
> #14          --          1          1          1      -        1        1        1      -
> #15          --          1          1          1      -        1        1        1      -
> #16          --          1          1          1      -        1        1        1      -
> #17          --          1          1          1      -        1        1        1      -
> #18          --          1          1          1      -        1        1        1      -
> #19          --          1          1          1      -        1        1        1      -
> #20          --          1          1          1      -        1        1        1      -
> #21          --          1          1          1      -        1        1        1      -
> #22          --          1          1          1      -        1        1        1      -
> #23          --          1          1          1      -        1        1        1      -
> #24          --          1          1          1      -        1        1        1      -
> #25          --          1          1          1      -        1        1        1      -
> #26          --          1          1          1      -        1        1        1      -
> #27          --          1          1          1      -        1        1        1      -
> #28          --          1          1          1      -        1        1        1      -
> #29          --          1          1          1      -        1        1        1      -

= a record behind the end is written where it stands
file q record 30
run setquota -F vfsold -u 60 2 8 0 0 q
calls size q; read q; write q; sync q;
changes q
at q 2440 end

= a record that is there is read and written over
file q record 30
run setquota -F vfsold -u 7 2 8 0 0 q
calls size q; read q; read q; write q; sync q;
changes q
at q 1200 end

= grace periods are written with the rest of record 0
file q record 30
run setquota -F vfsold -t 86400 3600 q
calls size q; read q; read q; write q; sync q;
changes q
at q 1200 end

= nothing to write
file q record 30
run setquota -F vfsold -u 60 0 0 0 0 q
calls size q; read q;

= a file that is not there is not read
file q record 30
run setquota -F vfsold -u 60 0 0 0 0 r
status 1
! quota: r: no such file
calls size r;

= words that are refused call no store
file q record 30
run setquota -F vfsold -u 60 x 0 0 0 q
status 1
! quota: bad number x
calls
run repquota -u -g q
status 2
! quota: usage: Excludes at word 4
calls

= of a file that is no tree file the first block is read
file q record 30
run repquota q
status 3
! quota: q: not a quota file
calls size q; read q;
";
