//! Rquota calls that are answered out of quota files.

/// What callers are told: limits and usage in each format, refusals, and nothing.
pub const ANSWERED: &str = "\
= calls and replies of other rows
hex 00000001 00000000 00000002 000186ab 00000001 00000001
hex 00000001 00000018 00000000 00000001 68000000 000003e8 000003e8 00000000
hex 00000000 00000000 00000005 2f686f6d 65000000 000003e8
keep call
hex 00000001 00000000 00000002 000186ab 00000002 00000001
hex 00000001 00000018 00000000 00000001 68000000 000003e9 000003e8 00000000
hex 00000000 00000000 00000005 2f686f6d 65000000 00000001 000003e8
keep grouped
hex 00000001 00000001 00000000 00000000 00000000 00000000 00000001
hex 00000400 00000001 000000c8 00000064 00000004 00000014 0000000a 00000001 00000000 00000000
keep told
hex 00000001 00000001 00000000 00000000 00000000 00000000 00000003
keep denied
hex 00000001 00000001 00000000 00000000 00000000 00000000 00000002
keep absent
file q six
run setquota -u 1000 100 200 10 20 q
changes q
use q
keep limited
use limited
put 0 3653245223
keep group
run convertquota -u -f vfsv1,vfsv0 q r
changes r
use r
keep older
record btime 604800 itime 604800
fill 0 39960
record bhard 200 bsoft 100 blocks 4 ihard 20 isoft 10 inodes 1
keep flat
put end 0 0 0 0 0 0 604800 604800
fill 0 31968
put end 200 100 4 20 10 1 0 0
keep flat32

= a datagram without a reply counts
file q limited
raw abc
datagram 1700000000
use call
datagram 1700000000
run rquotad --calls 2 --port 0 --export /home user q
use told
sent
same q

= a file of vfsv1 is told of, found as one that needs no asking
file q limited
use call
datagram 1700000000
run rquotad --calls 1 --port 65535 --export /home user q
use told
sent
same q

= a file of vfsv0 is told of
file q older
use call
datagram 1700000000
run rquotad --format vfsv0 --calls 1 --port 0 --export /home user q
use told
sent
same q

= a flat file is told of where it is asked for
file q flat
use call
datagram 1700000000
run rquotad --format vfsold --calls 1 --port 0 --export /home user q
use told
sent
same q

= so is one of vfsold32, whose times have 32 bits
file q flat32
use call
datagram 1700000000
run rquotad --format vfsold32 --calls 1 --port 0 --export /home user q
use told
sent
same q
use flat32
put 32004 2
put 32024 4294967295 1700000060
file q
use call
datagram 1700000000
run rquotad --format vfsold32 --calls 1 --port 0 --export /home user q
hex 00000001 00000001 00000000 00000000 00000000 00000000 00000001
hex 00000400 00000001 000000c8 00000002 00000004 00000014 0000000a 00000001 9aac0eff 0000003c
sent

= a member is told of the group, and the file of users under the same path is another one
file q six
file g group
use grouped
datagram 1700000000
run rquotad --calls 1 --port 0 --export /home user q --export /home group g
use told
sent
same q g

= the files stand in any order
file q six
file g group
use grouped
datagram 1700000000
run rquotad --calls 1 --port 0 --export /home group g --export /home user q
use told
sent
same q g

= a caller who is not the user is denied
file q limited
hex 00000001 00000000 00000002 000186ab 00000001 00000001
hex 00000001 00000018 00000000 00000001 68000000 000003e9 000003e8 00000000
hex 00000000 00000000 00000005 2f686f6d 65000000 000003e8
datagram 1700000000
run rquotad --calls 1 --port 0 --export /home user q
use denied
sent
same q

= a caller who may not ask does not learn whether a path is exported
file q limited
hex 00000001 00000000 00000002 000186ab 00000001 00000001
hex 00000001 00000018 00000000 00000001 68000000 000003e9 000003e8 00000000
hex 00000000 00000000 00000005 2f686f6d 65000000 000003e8
datagram 1700000000
run rquotad --calls 1 --port 0 --export /srv user q
use denied
sent
same q

= nothing is told of a path that is not exported
file q limited
use call
datagram 1700000000
run rquotad --calls 1 --port 0 --export /srv user q
use absent
sent
same q

= version 3 is none, and the versions 1 and 2 are told
file q limited
hex 00000001 00000000 00000002 000186ab 00000003 00000001
hex 00000001 00000018 00000000 00000001 68000000 000003e8 000003e8 00000000
hex 00000000 00000000 00000005 2f686f6d 65000000 000003e8
datagram 1700000000
run rquotad --calls 1 --port 0 --export /home user q
hex 00000001 00000001 00000000 00000000 00000000 00000002 00000001 00000002
sent
same q

= a caller without a credential is refused
file q limited
hex 00000001 00000000 00000002 000186ab 00000001 00000001
hex 00000000 00000000
hex 00000000 00000000 00000005 2f686f6d 65000000 000003e8
datagram 1700000000
run rquotad --calls 1 --port 0 --export /home user q
hex 00000001 00000001 00000001 00000001 00000005
sent
same q

= the superuser is told of an identifier without a record
file q limited
hex 00000001 00000000 00000002 000186ab 00000001 00000001
hex 00000001 00000018 00000000 00000001 68000000 00000000 00000000 00000000
hex 00000000 00000000 00000005 2f686f6d 65000000 00000005
datagram 1700000000
run rquotad --calls 1 --port 0 --export /home user q
hex 00000001 00000001 00000000 00000000 00000000 00000000 00000001
hex 00000400 00000001 00000000 00000000 00000000 00000000 00000000 00000000 00000000 00000000
sent
same q

= the time left is that at the moment of the datagram
file q timed
use call
datagram 1700000001
use call
datagram 1700604800
now 5
run rquotad --calls 2 --port 0 --export /home user q
hex 00000001 00000001 00000000 00000000 00000000 00000000 00000001
hex 00000400 00000001 00000008 00000002 00000004 00000000 00000000 00000001 00093a7f 00000000
sent
hex 00000001 00000001 00000000 00000000 00000000 00000000 00000001
hex 00000400 00000001 00000008 00000002 00000004 00000000 00000000 00000001 00000000 00000000
sent
same q

= no more datagrams are taken than are asked for
file q limited
use call
datagram 1700000000
use call
datagram 1700000000
run rquotad --calls 1 --port 0 --export /home user q
use told
sent
same q
";

/// Files that are refused before a datagram is taken, and calls that fail.
pub const ENDED: &str = "\
= calls and replies of other rows
hex 00000001 00000000 00000002 000186ab 00000001 00000001
hex 00000001 00000018 00000000 00000001 68000000 000003e8 000003e8 00000000
hex 00000000 00000000 00000005 2f686f6d 65000000 000003e8
keep call
hex 00000001 00000001 00000000 00000000 00000000 00000000 00000001
hex 00000400 00000001 000000c8 00000064 00000004 00000014 0000000a 00000001 00000000 00000000
keep told
file q six
run setquota -u 1000 100 200 10 20 q
changes q
use q
keep limited

= the first file that is refused is named, and the link is not called
file q limited
file r limited
run rquotad --calls 1 --port 0 --export /home user q --export /home group r --export /srv user none
status 3
! quota: r: wrong kind
same q r
absent none

= a file that is not there is named
file q limited
run rquotad --calls 1 --port 0 --export /home user q --export /srv user none
status 1
! quota: none: no such file
same q
absent none

= a file of another format than is asked for is refused
file q limited
run rquotad --format vfsv0 --calls 1 --port 0 --export /home user q
status 3
! quota: q: other format
same q

= a datagram that does not come is a fault of the link, behind the answers before
file q limited
use call
datagram 1700000000
run rquotad --calls 2 --port 0 --export /home user q
status 4
! quota: link fault
use told
sent
same q

= each of two datagrams is answered
file q limited
use call
datagram 1700000000
use call
datagram 1700000000
run rquotad --calls 2 --port 875 --export /home user q
use told
sent
use told
sent
same q

= a link that does not start ends the command
file q limited
use call
datagram 1700000000
fails link 1
run rquotad --calls 1 --port 875 --export /home user q
status 4
! quota: link fault
same q

= an answer that is not sent ends the command
file q limited
use call
datagram 1700000000
use call
datagram 1700000000
fails link 5
run rquotad --calls 2 --port 0 --export /home user q
status 4
! quota: link fault
use told
sent
same q

= each failing call of the link ends the command
file q limited
use call
datagram 1700000000
use call
datagram 1700000000
sweep link rquotad --calls 2 --port 0 --export /home user q
use told
sent
use told
sent
same q
";
