/// Listings with wrong lines.
pub const LISTINGS: &str = "\
= the first wrong line of a listing is named
file q six
text 1000 100 2049 12 8
text 1000 100 2049 13
keep listing
input listing
both quotacheck -u q
status 1
! quota: input: bad line 2
writes 0
input listing
both quotacheck -c -u -F vfsv1 q
status 1
! quota: input: bad line 2
writes 0
text 1000 100 2049 12 8 9
keep listing
input listing
both quotacheck -u q
status 1
! quota: input: bad line 1
writes 0
input listing
both quotacheck -c -u -F vfsv1 q
status 1
! quota: input: bad line 1
writes 0
text
text 1000 100 2049 12 8x
keep listing
input listing
both quotacheck -u q
status 1
! quota: input: bad line 2
writes 0
input listing
both quotacheck -c -u -F vfsv1 q
status 1
! quota: input: bad line 2
writes 0
text 4294967296 100 2049 12 8
keep listing
input listing
both quotacheck -u q
status 1
! quota: input: bad line 1
writes 0
input listing
both quotacheck -c -u -F vfsv1 q
status 1
! quota: input: bad line 1
writes 0
text 1000 4294967296 2049 12 8
keep listing
input listing
both quotacheck -u q
status 1
! quota: input: bad line 1
writes 0
input listing
both quotacheck -c -u -F vfsv1 q
status 1
! quota: input: bad line 1
writes 0
text 1000 100 18446744073709551616 12 8
keep listing
input listing
both quotacheck -u q
status 1
! quota: input: bad line 1
writes 0
input listing
both quotacheck -c -u -F vfsv1 q
status 1
! quota: input: bad line 1
writes 0
text 1000 100 2049 18446744073709551616 8
keep listing
input listing
both quotacheck -u q
status 1
! quota: input: bad line 1
writes 0
input listing
both quotacheck -c -u -F vfsv1 q
status 1
! quota: input: bad line 1
writes 0
text 1000 100 2049 12 18446744073709551616
keep listing
input listing
both quotacheck -u q
status 1
! quota: input: bad line 1
writes 0
input listing
both quotacheck -c -u -F vfsv1 q
status 1
! quota: input: bad line 1
writes 0
text 1000 100 2049 12 000000000000000000008
keep listing
input listing
both quotacheck -u q
status 1
! quota: input: bad line 1
writes 0
input listing
both quotacheck -c -u -F vfsv1 q
status 1
! quota: input: bad line 1
writes 0
raw 1000 100 2049 12 8
hex 0d 0a
keep listing
input listing
both quotacheck -u q
status 1
! quota: input: bad line 1
writes 0
input listing
both quotacheck -c -u -F vfsv1 q
status 1
! quota: input: bad line 1
writes 0
text -1 100 2049 12 8
keep listing
input listing
both quotacheck -u q
status 1
! quota: input: bad line 1
writes 0
input listing
both quotacheck -c -u -F vfsv1 q
status 1
! quota: input: bad line 1
writes 0
text 1000 100 2049 12 8
text 1000 100 2049 13
keep listing
input listing
both quotacheck -u --device 7 q
status 1
! quota: input: bad line 2
writes 0
input listing
both quotacheck -c -u -F vfsv1 --device 7 q
status 1
! quota: input: bad line 2
writes 0
text 1000 100 2049 12 8
text 1000 100 2049 13 8
text 1001 100 2049 12 8
keep listing
input listing
both quotacheck -u q
status 1
! quota: input: line 3 conflicts with line 1
writes 0
input listing
both quotacheck -c -u -F vfsv1 q
status 1
! quota: input: line 3 conflicts with line 1
writes 0
text 1000 100 2049 12 8
text 1000 101 2049 12 8
text x
keep listing
input listing
both quotacheck -u q
status 1
! quota: input: line 2 conflicts with line 1
writes 0
input listing
both quotacheck -c -u -F vfsv1 q
status 1
! quota: input: line 2 conflicts with line 1
writes 0
text
text 1000 100 2049 12 8
text 1000 100 2049 12 8
text 1000 100 2049 12 9
keep listing
input listing
both quotacheck -u q
status 1
! quota: input: line 4 conflicts with line 2
writes 0
input listing
both quotacheck -c -u -F vfsv1 q
status 1
! quota: input: line 4 conflicts with line 2
writes 0

= the owners of an inode have to agree also where groups are counted
file q six
text 1000 100 2049 12 8
text 1001 100 2049 12 8
input
run quotacheck -c -g q
status 1
! quota: input: line 2 conflicts with line 1
writes 0
";
