use crate::player::play;

const ANSWERS: &str = "
= a quiet and a short datagram are passed over
words quota 875 1000 1000 /home
quiet
datagram *3
datagram 1 1 0 0 0 0 1 1024 1 200 100 4 20 10 1 0 0
run
port 875
calls 2
sent 1 0 2 100011 1 1 1 20 0 0 1000 1000 0 0 0 '/home 1000
sent 1 0 2 100011 1 1 1 20 0 0 1000 1000 0 0 0 '/home 1000
> /home: 4 KiB, soft 100, hard 200, grace -, files 1, soft 10, hard 20, grace -
= the reply to another path is passed over
words quota 875 1000 1000 /home /srv
datagram 1 1 0 0 0 0 1 1024 1 200 100 4 20 10 1 0 0
datagram 1 1 0 0 0 0 1 1024 1 200 100 4 20 10 1 0 0
quiet 3
run
status 1
calls 4
sent 1 0 2 100011 1 1 1 20 0 0 1000 1000 0 0 0 '/home 1000
sent 2 0 2 100011 1 1 1 20 0 0 1000 1000 0 0 0 '/srv 1000
> /home: 4 KiB, soft 100, hard 200, grace -, files 1, soft 10, hard 20, grace -
> /srv: no reply
= a limit that is exceeded is warned of
words warn 875 1000 1000 /home
datagram 1 1 0 0 0 0 1 1024 1 200 100 150 20 10 1 3600 0
run
> /home: over block limit by 50 KiB, grace 01:00
= three quiets are no reply
words warn 875 1000 1000 /home
quiet 3
run
status 1
calls 3
> /home: no reply
= a reply after two quiets is taken
words quota 875 1000 1000 /home
quiet 2
datagram 1 1 0 0 0 0 2
run
calls 3
> /home: none
= 64 other datagrams end an attempt, and the 65th is of the next one
words quota 875 1000 1000 /home
datagrams 64 *3
datagram 1 1 0 0 0 0 2
run
calls 2
> /home: none
= 63 other datagrams do not
words quota 875 1000 1000 /home
datagrams 63 *3
datagram 1 1 0 0 0 0 2
run
calls 1
> /home: none
= 192 other datagrams are no reply
words quota 875 1000 1000 /home
datagrams 192 2 1 0 0 0 0 2
run
status 1
calls 3
> /home: no reply
= a reply with bytes behind it is no reply
words quota 875 1000 1000 /home
datagram 1 1 0 0 0 0 2 0
datagram 1 1 0 0 0 0 3
run
status 1
calls 1
> /home: denied
= a late reply is passed over, and the own one is taken
words quota 875 1000 1000 /a /b
quiet 3
datagram 1 1 0 0 0 0 3
datagram 2 1 0 0 0 0 2
run
status 1
calls 4
> /a: no reply
> /b: none
= the xid goes on with 0
words quota 875 1 2 /a /b
xid 4294967295
datagram 4294967295 1 0 0 0 0 2
datagram 0 1 0 0 0 0 2
run
sent 4294967295 0 2 100011 1 1 1 20 0 0 1 2 0 0 0 '/a 1
sent 0 0 2 100011 1 1 1 20 0 0 1 2 0 0 0 '/b 1
> /a: none
> /b: none
= the same path is asked for twice
words quota 875 1 2 /a /a
datagram 1 1 0 0 0 0 2
datagram 2 1 0 0 0 0 3
run
status 1
sent 1 0 2 100011 1 1 1 20 0 0 1 2 0 0 0 '/a 1
sent 2 0 2 100011 1 1 1 20 0 0 1 2 0 0 0 '/a 1
> /a: none
> /a: denied
= a long datagram is read by its first 4,096 bytes
words quota 875 1 2 /a
datagram 1 1 0 0 0 0 2 *5000
datagram 1 1 0 0 0 0 2
run
calls 1
> /a: none
";

#[test]
fn a_call_is_sent_until_its_own_reply_comes(rt: HostRuntime) {
    play(&rt, rt.alloc(), ANSWERS);
}
