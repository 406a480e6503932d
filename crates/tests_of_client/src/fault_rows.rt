use crate::player::play;

const FAULTS: &str = "
= the start fails
words quota 875 1 2 /a
fails peer 1
run
status 4
unstarted
calls 0
! quota: link fault
= the first call is not sent
words quota 875 1 2 /a
fails peer 2
run
status 4
port 875
calls 0
! quota: link fault
= no event is left
words quota 875 1 2 /a
quiet 2
run
status 4
calls 3
! quota: link fault
= the line of the path before stays
words quota 875 1 2 /a /b
datagram 1 1 0 0 0 0 2
fails peer 4
run
status 4
calls 1
> /a: none
! quota: link fault
= the output fails at the second path
words quota 875 1 2 /a /b
datagram 1 1 0 0 0 0 2
datagram 2 1 0 0 0 0 2
fails out 2
run
status 4
> /a: none
! quota: output fault
= the error output fails in the error line
words quota 875
fails err 1
run
status 2
= the error output fails behind a fault of the peer
words quota 875 1 2 /a
fails peer 1
fails err 1
run
status 4
unstarted
= the error output fails behind one of the output
words quota 875 1 2 /a
datagram 1 1 0 0 0 0 2
fails out 1
fails err 1
run
status 4
calls 1
= each call of the peer fails in turn
words quota 875 1 2 /a /b /c
quiet
datagram *3
datagram 1 1 0 0 0 0 1 1024 1 9 4 5 9 4 5 0 3600
quiet 2
datagram 1 1 0 0 0 0 3
datagram 2 1 0 0 0 0 3
datagram 3 1 0 0 0 0 2
sweep peer 15
status 1
calls 6
> /a: 5 KiB, soft 4, hard 9, grace none, files 5, soft 4, hard 9, grace 01:00
> /b: denied
> /c: none
= each call of the output fails in turn
words warn 875 1 2 /a /b /c
datagram 1 1 0 0 0 0 1 1024 1 9 4 5 9 4 5 0 3600
datagram 2 1 0 0 0 0 3
datagram 3 1 0 0 0 0 1 1024 1 9 4 5 9 4 4 0 3600
sweep out 4
status 1
calls 3
> /a: over block limit by 1 KiB, grace none
> /a: over file limit by 1, grace 01:00
> /b: denied
> /c: over block limit by 1 KiB, grace none
= each call of the error output fails in turn
words quota 875 1 2 /a /b
sweep err 1
status 4
port 875
calls 1
! quota: link fault
";

#[test]
fn a_fault_is_told_and_leaves_the_lines_before(rt: HostRuntime) {
    play(&rt, rt.alloc(), FAULTS);
}
