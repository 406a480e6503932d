//! Calls that ask for projects over the network, and what they are answered.

/// Calls for projects. The caller is uid 1000 with the group 1000, or uid 0.
pub const SERVED: &str = "\
= calls and replies of other rows, and a file of each kind with an identifier 7
hex 00000001 00000000 00000002 000186ab 00000002 00000001
hex 00000001 00000018 00000000 00000001 68000000 000003e8 000003e8 00000000
hex 00000000 00000000 00000005 2f686f6d 65000000 00000002 00000007
keep call
hex 00000001 00000000 00000002 000186ab 00000002 00000001
hex 00000001 00000018 00000000 00000001 68000000 00000000 00000000 00000000
hex 00000000 00000000 00000005 2f686f6d 65000000
keep root
hex 00000001 00000000 00000002 000186ab 00000002 00000001
hex 00000001 0000001c 00000000 00000001 68000000 00000007 00000007 00000001 00000007
hex 00000000 00000000 00000005 2f686f6d 65000000
keep owner
hex 00000001 00000001 00000000 00000000 00000000 00000000 00000003
keep denied
hex 00000001 00000001 00000000 00000000 00000000 00000000 00000002
keep absent
hex 00000001 00000001 00000000 00000000 00000000 00000000 00000001
hex 00000400 00000001 00000000 00000000 00000004 00000000 00000000 00000001 00000000 00000000
keep of_project
hex 00000001 00000001 00000000 00000000 00000000 00000000 00000001
hex 00000400 00000001 00000000 00000000 00000008 00000000 00000000 00000001 00000000 00000000
keep of_group
hex 00000001 00000001 00000000 00000000 00000000 00000000 00000001
hex 00000400 00000001 00000000 00000000 00000010 00000000 00000000 00000001 00000000 00000000
keep of_user
text 1000 7 2049 12 8
input
run quotacheck -c -P q
changes q
use q
keep projects
text 1000 7 2049 12 16
input
run quotacheck -c -g q
changes q
use q
keep groups
text 7 1000 2049 12 32
input
run quotacheck -c -u q
changes q
use q
keep users

= a project is told to the superuser alone
file q projects
use call
datagram 1700000000
use root
put end 33554432 117440512
datagram 1700000000
use owner
put end 33554432 117440512
datagram 1700000000
run rquotad --calls 3 --port 0 --export /home project q
use denied
sent
use of_project
sent
use denied
sent
same q

= under one path each kind is told out of its own file
file p projects
file g groups
file q users
use root
put end 0 117440512
datagram 1700000000
use root
put end 16777216 117440512
datagram 1700000000
use root
put end 33554432 117440512
datagram 1700000000
use owner
put end 0 117440512
datagram 1700000000
use owner
put end 16777216 117440512
datagram 1700000000
use owner
put end 33554432 117440512
datagram 1700000000
run rquotad --calls 6 --port 0 --export /home project p --export /home group g --export /home user q
use of_user
sent
use of_group
sent
use of_project
sent
use of_user
sent
use of_group
sent
use denied
sent
same p g q

= nothing is told of a type above 2
file p projects
file g groups
file q users
use root
put end 50331648 117440512
datagram 1700000000
use root
put end 4294967295 117440512
datagram 1700000000
use owner
put end 50331648 117440512
datagram 1700000000
run rquotad --calls 3 --port 0 --export /home user q --export /home group g --export /home project p
use absent
sent 3
same p g q

= projects that are not exported are denied all the same to all but the superuser
file g groups
file q users
use call
datagram 1700000000
use owner
put end 33554432 117440512
datagram 1700000000
use root
put end 33554432 117440512
datagram 1700000000
run rquotad --calls 3 --port 0 --export /home user q --export /home group g
use denied
sent 2
use absent
sent
same g q

= where projects alone are exported, nothing is told of users and groups
file p projects
use root
put end 0 117440512
datagram 1700000000
use root
put end 16777216 117440512
datagram 1700000000
hex 00000001 00000000 00000002 000186ab 00000001 00000001
hex 00000001 00000018 00000000 00000001 68000000 00000000 00000000 00000000
hex 00000000 00000000 00000005 2f686f6d 65000000 00000007
datagram 1700000000
run rquotad --format vfsv1 --calls 3 --port 0 --export /home project p
use absent
sent 3
same p
";
