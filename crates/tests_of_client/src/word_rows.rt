use crate::player::play;

const WORDS: &str = "
= too few words
words quota 875
run
status 2
unstarted
calls 0
! quota: usage: WrongOperands at word 2
= no words
words
run
status 2
unstarted
! quota: usage: WrongOperands at word 0
= the mode alone
words quota
run
status 2
! quota: usage: WrongOperands at word 1
= no path
words quota 875 1 2
run
status 2
! quota: usage: WrongOperands at word 4
= the number of words comes first
words none 0
run
status 2
! quota: usage: WrongOperands at word 2
= 16 paths
words quota 875 1 2 /a /b /c /d /e /f /g /h /i /j /k /l /m /n /o /p
quiet 48
run
status 1
calls 48
> /a: no reply
> /b: no reply
> /c: no reply
> /d: no reply
> /e: no reply
> /f: no reply
> /g: no reply
> /h: no reply
> /i: no reply
> /j: no reply
> /k: no reply
> /l: no reply
> /m: no reply
> /n: no reply
> /o: no reply
> /p: no reply
= 17 paths
words quota 875 1 2 /a /b /c /d /e /f /g /h /i /j /k /l /m /n /o /p /q
run
status 2
unstarted
! quota: usage: WrongOperands at word 21
= another mode
words quotas 0 -1 -1 /a
run
status 2
! quota: usage: BadValue at word 0
= port 0
words warn 0 -1 -1 /a
run
status 2
unstarted
! quota: usage: BadValue at word 1
= port 65,536
words quota 65536 1 2 /a
run
status 2
! quota: usage: BadValue at word 1
= port 1
words quota 1 1 2 /a
datagram 1 1 0 0 0 0 2
run
port 1
> /a: none
= port 65,535
words quota 65535 1 2 /a
datagram 1 1 0 0 0 0 2
run
port 65535
> /a: none
= the greatest identifiers
words quota 875 4294967295 4294967295 /a
datagram 1 1 0 0 0 0 2
run
sent 1 0 2 100011 1 1 1 20 0 0 4294967295 4294967295 0 0 0 '/a 4294967295
> /a: none
= a greater one
words quota 875 4294967296 -1 /a
run
status 2
! quota: usage: BadValue at word 2
= a greater group
words quota 875 1 4294967296 /a
run
status 2
! quota: usage: BadValue at word 3
= a number with a sign
words quota 875 +1 2 /a
run
status 2
! quota: usage: BadValue at word 2
= zeros in front are digits
words quota 0875 01 002 /a
datagram 1 1 0 0 0 0 2
run
port 875
sent 1 0 2 100011 1 1 1 20 0 0 1 2 0 0 0 '/a 1
> /a: none
= a path of a byte
words quota 875 1 2 @1
datagram 1 1 0 0 0 0 2
run
> @1: none
= a path of 1,024 bytes
words quota 875 1 2 @1024
datagram 1 1 0 0 0 0 2
run
> @1024: none
= a path of 1,025 bytes
words quota 875 1 2 /a @1025
run
status 2
unstarted
! quota: usage: BadValue at word 5
= a path without a byte
words quota 875 1 2 @0 /a
run
status 2
! quota: usage: BadValue at word 4
= a byte that is none of a path
words quota 875 1 2 /a /\u{e9} /b
run
status 2
! quota: usage: BadValue at word 5
= a blank in a path
words quota 875 1 2 /a_b
run
status 2
! quota: usage: BadValue at word 4
= a tab in a path
words quota 875 1 2 /a\tb
run
status 2
! quota: usage: BadValue at word 4
= the first and the last byte of a path
words quota 875 1 2 !~
datagram 1 1 0 0 0 0 2
run
> !~: none
";

#[test]
fn words_are_read_from_left_to_right(rt: HostRuntime) {
    play(&rt, rt.alloc(), WORDS);
}
