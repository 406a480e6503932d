use crate::player::play;

const REPLIES: &str = "
= each other reply is refused
words quota 875 1 2 /a /b /c /d /e /f /g
datagram 1 1 0 0 0 0
datagram 2 1 0 0 0 1
datagram 3 1 0 0 0 2 1 2
datagram 4 1 0 0 0 3
datagram 5 1 0 0 0 4
datagram 6 1 1 0 2 2
datagram 7 1 1 1 5
run
status 1
> /a: refused
> /b: refused
> /c: refused
> /d: refused
> /e: refused
> /f: refused
> /g: refused
= in warnings too
words warn 875 1 2 /a /b /c /d /e /f /g
datagram 1 1 0 0 0 0
datagram 2 1 0 0 0 1
datagram 3 1 0 0 0 2 1 2
datagram 4 1 0 0 0 3
datagram 5 1 0 0 0 4
datagram 6 1 1 0 2 2
datagram 7 1 1 1 5
run
status 1
> /a: refused
> /b: refused
> /c: refused
> /d: refused
> /e: refused
> /f: refused
> /g: refused
= a denied path
words quota 875 1 2 /a
datagram 1 1 0 0 0 0 3
run
status 1
> /a: denied
= a denied path in warnings
words warn 875 1 2 /a
datagram 1 1 0 0 0 0 3
run
status 1
> /a: denied
= no quota
words quota 875 1 2 /a
datagram 1 1 0 0 0 0 2
run
> /a: none
= no quota in warnings
words warn 875 1 2 /a
datagram 1 1 0 0 0 0 2
run
";

#[test]
fn each_reply_has_its_line(rt: HostRuntime) {
    play(&rt, rt.alloc(), REPLIES);
}

const NUMBERS: &str = "
= blocks of 4,096 bytes
words quota 875 1 2 /a
datagram 1 1 0 0 0 0 1 4096 1 3 2 1 6 5 4 0 0
run
> /a: 4 KiB, soft 8, hard 12, grace -, files 4, soft 5, hard 6, grace -
= the greatest blocks and numbers
words quota 875 1 2 /a
datagram 1 1 0 0 0 0 1 1073741824 1 4294967295 4294967295 4294967295 4294967295 4294967295 4294967295 4294967295 4294967295
run
> /a: 4503599626321920 KiB, soft 4503599626321920, hard 4503599626321920, grace -, files 4294967295, soft 4294967295, hard 4294967295, grace -
= the greatest block size of all
words quota 875 1 2 /a
datagram 1 1 0 0 0 0 1 4294967295 1 4294967295 4294967295 4294967295 0 0 0 0 0
run
> /a: 18014398501093376 KiB, soft 18014398501093376, hard 18014398501093376, grace -, files 0, soft 0, hard 0, grace -
= a part of a KiB is rounded down
words quota 875 1 2 /a
datagram 1 1 0 0 0 0 1 512 1 5 4 3 0 0 0 0 0
run
> /a: 1 KiB, soft 2, hard 2, grace -, files 0, soft 0, hard 0, grace -
= limits are compared as they were sent
words quota 875 1 2 /a
datagram 1 1 0 0 0 0 1 512 1 0 2 3 0 2 3 60 0
run
> /a: 1 KiB, soft 1, hard 0, grace 00:01, files 3, soft 2, hard 0, grace none
= over by may be 0
words warn 875 1 2 /a
datagram 1 1 0 0 0 0 1 512 1 0 2 3 0 0 0 60 0
run
> /a: over block limit by 0 KiB, grace 00:01
= a soft limit of 0 is none
words quota 875 1 2 /a
datagram 1 1 0 0 0 0 1 1024 1 5 0 9 5 0 9 60 60
run
> /a: 9 KiB, soft 0, hard 5, grace -, files 9, soft 0, hard 5, grace -
= a limit that is reached is not exceeded
words quota 875 1 2 /a
datagram 1 1 0 0 0 0 1 1024 1 5 4 4 5 4 4 60 60
run
> /a: 4 KiB, soft 4, hard 5, grace -, files 4, soft 4, hard 5, grace -
= grace periods in hours and in days
words quota 875 1 2 /a
datagram 1 1 0 0 0 0 1 1024 1 9 4 5 9 4 5 86400 604800
run
> /a: 5 KiB, soft 4, hard 9, grace 24:00, files 5, soft 4, hard 9, grace 7days
= the greatest grace period
words quota 875 1 2 /a
datagram 1 1 0 0 0 0 1 1024 1 9 4 5 9 4 5 4294967295 0
run
> /a: 5 KiB, soft 4, hard 9, grace 49710days, files 5, soft 4, hard 9, grace none
= both limits are warned of
words warn 875 1 2 /a
datagram 1 1 0 0 0 0 1 1024 1 9 4 7 9 4 5 0 3600
run
> /a: over block limit by 3 KiB, grace none
> /a: over file limit by 1, grace 01:00
= files alone
words warn 875 1 2 /a
datagram 1 1 0 0 0 0 1 1024 1 9 4 4 9 4 5 0 3600
run
> /a: over file limit by 1, grace 01:00
= nothing is exceeded
words warn 875 1 2 /a
datagram 1 1 0 0 0 0 1 1024 1 9 4 4 9 4 4 60 60
run
";

#[test]
fn numbers_are_printed_in_kib(rt: HostRuntime) {
    play(&rt, rt.alloc(), NUMBERS);
}
