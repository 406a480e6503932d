//! Scripts whose lines answer rquota calls.

/// Lines that take datagrams, each from those that the lines before left.
pub const SERVED: &str = "\
= calls and replies of other rows
hex 00000001 00000000 00000002 000186ab 00000001 00000001
hex 00000001 00000018 00000000 00000001 68000000 000003e8 000003e8 00000000
hex 00000000 00000000 00000005 2f686f6d 65000000 000003e8
keep call
hex 00000001 00000001 00000000 00000000 00000000 00000000 00000001
hex 00000400 00000001 000000c8 00000064 00000004 00000014 0000000a 00000001 00000000 00000000
keep told
hex 00000001 00000001 00000000 00000000 00000000 00000000 00000001
hex 00000400 00000001 00000bb8 000007d0 00000004 00000014 0000000a 00000001 00000000 00000000
keep told_later
file q six
run setquota -u 1000 100 200 10 20 q
changes q
use q
keep limited

= each datagram is answered once, out of the file as the lines before left it
file q limited
use call
datagram 1700000000
use call
datagram 1700000001
use call
datagram 1700000002
text rquotad --calls 2 --port 875 --export /home user q
text setquota 1000 2000 3000 10 20 q
text rquotad --calls 1 --port 876 --export /home user q
input
run script
use told
sent
use told
sent
use told_later
sent
changes q

= a line exports projects, and each datagram is answered out of the file as the lines before left it
text 1000 7 2049 12 8
file l
hex 00000001 00000000 00000002 000186ab 00000002 00000001
hex 00000001 00000018 00000000 00000001 68000000 00000000 00000000 00000000
hex 00000000 00000000 00000005 2f686f6d 65000000 00000002 00000007
keep root
use root
datagram 1700000000
use root
datagram 1700000001
text quotacheck -P -c --input l q
text rquotad --calls 1 --port 0 --export /home project q
text setquota -P 7 100 200 10 20 q
text rquotad --calls 1 --port 0 --export /home project q
input
run script
hex 00000001 00000001 00000000 00000000 00000000 00000000 00000001
hex 00000400 00000001 00000000 00000000 00000004 00000000 00000000 00000001 00000000 00000000
sent
use told
sent
changes q
same l

= a datagram that no line takes is not answered
file q limited
use call
datagram 1700000000
use call
datagram 1700000001
text rquotad --calls 1 --port 0 --export /home user q
text repquota r
text rquotad --calls 1 --port 0 --export /home user q
input
run script
status 1
! quota: line 2: r: no such file
use told
sent

= a script that comes to no such line calls no link
file q limited
text repquota r
text rquotad --calls 1 --port 0 --export /home user q
input
run script
status 1
! quota: line 1: r: no such file

= a datagram without a reply counts in the line that takes it
file q limited
raw abc
datagram 1700000000
use call
datagram 1700000001
text rquotad --calls 1 --port 0 --export /home user q
text rquotad --calls 1 --port 0 --export /home user q
input
run script
use told
sent

= a datagram that does not come is a fault of the link in its line
file q limited
use call
datagram 1700000000
text rquotad --calls 1 --port 0 --export /home user q
text #
text rquotad --calls 1 --port 0 --export /home user q
text setquota 7 1 2 0 0 q
input
run script
status 4
! quota: line 3: link fault
use told
sent

= each failing call of the link ends the script
file q limited
use call
datagram 1700000000
use call
datagram 1700000001
text rquotad --calls 1 --port 0 --export /home user q
text rquotad --calls 1 --port 0 --export /home user q
input
sweep link script
use told
sent
use told
sent
";
