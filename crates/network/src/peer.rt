ghost use Rattle.std.specs.Prelude.{◌≡◌, ◌≤◌, ◌∷◌, ◌++◌, Bool, [], IsTrue, IfOk, IfSome, OnOk, OnErr};
ghost use Rattle.outside.specs.Count.{Rose};
ghost use Rattle.network.specs.Events.{KeepsStart, PeerSeen, TakesEvent, peer_started_at};

/// A call on a peer failed.
#[derive(Clone, Copy, Debug, PartialEq, Eq)]
pub struct PeerFault;

/// Someone who is asked by datagrams, such as a server at a UDP port.
///
/// Whatever a peer tells, its count of faults rises in a call that fails and stays in one that does not, and a number
/// of bytes that a call answers fits the buffer.
pub trait Peer {
    /// Whether peers of this type tell the events, what was sent and how they were started.
    ghost tells: { Bool };

    /// The events that are left, the datagrams that were sent and how the peer was started, which count only where the
    /// peer tells them, and the count of faults.
    ghost seen: { Self → PeerSeen };

    /// Begins to ask the server at this port.
    ///
    /// # Errors
    ///
    /// The peer failed. It was not started.
    fn start(&mut self, port: u16) -> Result<(), PeerFault>
        ensures started { OnOk result (IsTrue tells → (seen self.new).started ≡ peer_started_at (seen self.old) port) }
        ensures fault { OnErr result (IsTrue tells → (seen self.new).started ≡ (seen self.old).started) }
        ensures left { (seen self.new).left ≡ (seen self.old).left }
        ensures sent { (seen self.new).sent ≡ (seen self.old).sent }
        ensures steady { OnOk result ((seen self.new).faults ≡ (seen self.old).faults) }
        ensures cause { OnErr result (Rose (seen self.old).faults (seen self.new).faults) }
        ensures later { (seen self.old).faults ≤ (seen self.new).faults };

    /// Sends a datagram to the server.
    ///
    /// # Errors
    ///
    /// The peer failed. Nothing was sent.
    fn send(&mut self, bytes: &[u8]) -> Result<(), PeerFault>
        ensures sent { OnOk result (IsTrue tells → (seen self.new).sent ≡ (seen self.old).sent ++ bytes.now ∷ []) }
        ensures fault { OnErr result (IsTrue tells → (seen self.new).sent ≡ (seen self.old).sent) }
        ensures left { (seen self.new).left ≡ (seen self.old).left }
        ensures leaves { KeepsStart (seen self.old) (seen self.new) }
        ensures steady { OnOk result ((seen self.new).faults ≡ (seen self.old).faults) }
        ensures cause { OnErr result (Rose (seen self.old).faults (seen self.new).faults) };

    /// Takes the next event. A datagram gives its first 4,096 bytes, and how many they are; `None` is a quiet, in which
    /// no datagram came.
    ///
    /// # Errors
    ///
    /// The peer failed, or no event is left. None was taken, but `buf` may hold anything.
    fn receive(&mut self, buf: &mut [u8; 4096]) -> Result<Option<usize>, PeerFault>
        ensures fits { IfOk result (λ got. IfSome got (λ len. len ≤ 4096)) }
        ensures taken { IfOk result (λ got. IsTrue tells
            → TakesEvent got buf.new (seen self.old).left (seen self.new).left) }
        ensures fault { OnErr result (IsTrue tells → (seen self.new).left ≡ (seen self.old).left) }
        ensures sent { (seen self.new).sent ≡ (seen self.old).sent }
        ensures leaves { KeepsStart (seen self.old) (seen self.new) }
        ensures steady { OnOk result ((seen self.new).faults ≡ (seen self.old).faults) }
        ensures cause { OnErr result (Rose (seen self.old).faults (seen self.new).faults) };
}
