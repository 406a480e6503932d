//! Forms that are printed.

/// Forms of identifiers, and what refuses them. No run meets a file that is named `n` or `r`.
pub const PRINTED: &str = "\
= the form of an identifier is printed
text alice:x:1000:1000:Alice:/home/alice:/bin/sh
file other
file q six
run edquota --print -u 1000 q
> Disk quotas for user #1000 (uid 1000):
>   Filesystem blocks soft hard inodes soft hard
>   q 4 0 0 1 0 0
writes 0

= the form of a name has it
text alice:x:1000:1000:Alice:/home/alice:/bin/sh
file other
file q six
run edquota --print --names other alice q
> Disk quotas for user alice (uid 1000):
>   Filesystem blocks soft hard inodes soft hard
>   q 4 0 0 1 0 0
writes 0

= the form of one without a record and without a name
text alice:x:1000:1000:Alice:/home/alice:/bin/sh
file other
file q six
run edquota --names other --print 7 q
> Disk quotas for user #7 (uid 7):
>   Filesystem blocks soft hard inodes soft hard
>   q 0 0 0 0 0 0
writes 0

= the form of a group, in a flat file that has no room for it
text alice:x:1000:1000:Alice:/home/alice:/bin/sh
file other
file q
run edquota -F vfsold -g --print 4294967295 q
> Disk quotas for group #4294967295 (gid 4294967295):
>   Filesystem blocks soft hard inodes soft hard
>   q 0 0 0 0 0 0
writes 0

= a form is refused by its first fault
raw other
file other
file q six
run edquota --print carol r
status 1
! quota: unknown name carol
run edquota --print 4294967296 r
status 1
! quota: bad number 4294967296
run edquota --print --names n carol r
status 1
! quota: n: no such file
run edquota --print 7 r
status 1
! quota: r: no such file
run edquota --print -g 7 q
status 3
! quota: q: wrong kind

= an output that fails is a fault
file q six
fails output 1
run edquota --print 1000 q
status 4
! quota: output fault
";
