//! Datagrams that are cut, or whose lengths are greater than they may be.

/// A call of 80 bytes that is cut to each length, and calls in which one number is past its limit.
pub const REFUSED: &str = "\
= a call and replies
hex 00000001 00000000 00000002 000186ab 00000001 00000001
keep head
hex 00000000 00000000 00000005 2f686f6d 65000000 000003e8
keep question
use head
hex 00000001 00000018 00000000 00000001 68000000 000003e8 000003e8 00000000
use question
keep call
hex 00000001 00000001 00000000 00000000 00000000 00000000 00000001
hex 00000400 00000001 000000c8 00000064 00000004 00000014 0000000a 00000001 00000000 00000000
keep told
hex 00000001 00000001 00000001 00000001 00000001
keep bad_credential
hex 00000001 00000001 00000000 00000000 00000000 00000004
keep garbage
file q six
run setquota -u 1000 100 200 10 20 q
changes q
use q
keep limited

= a call that is cut to each length: up to 23 bytes it gets no reply, and with all 80 the whole one
file q limited
use call
datagram 1700000000 cut
run rquotad --calls 81 --port 0 --export /home user q
use bad_credential
sent 32
hex 00000001 00000001 00000001 00000001 00000003
sent 8
use garbage
sent 16
use told
sent

= a name of the machine of 256 bytes, 17 further groups, a credential of 401 bytes
file q limited
use head
hex 00000001 00000114 00000000 00000100
fill 104 256
hex 000003e8 000003e8 00000000
use question
datagram 1700000000
use head
hex 00000001 0000005c 00000000 00000001 68000000 000003e8 000003e8 00000011
fill 0 68
use question
datagram 1700000000
use head
hex 00000001 00000191 00000000 00000001 68000000 000003e8 000003e8 00000000
fill 0 380
use question
datagram 1700000000
run rquotad --calls 3 --port 0 --export /home user q
use bad_credential
sent 3

= a credential of a flavor that is not served, and a path of 1,025 bytes
file q limited
use head
hex 00000006 00000018 00000000 00000001 68000000 000003e8 000003e8 00000000
use question
datagram 1700000000
use head
hex 00000001 00000018 00000000 00000001 68000000 000003e8 000003e8 00000000
hex 00000000 00000000 00000401
fill 104 1028
hex 000003e8
datagram 1700000000
run rquotad --calls 2 --port 0 --export /home user q
hex 00000001 00000001 00000001 00000001 00000002
sent
use garbage
sent
";
