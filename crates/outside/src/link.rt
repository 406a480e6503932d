ghost use Rattle.std.specs.Prelude.{◌≡◌, ◌≤◌, ◌∷◌, ◌++◌, Bool, [], length, min, take, IsTrue, IfOk, OnOk, OnErr};
ghost use Rattle.outside.specs.Count.{Rose};
ghost use Rattle.outside.specs.Seen.{Datagram, LinkSeen, started_at};

/// A call on a link failed.
#[derive(Clone, Copy, Debug, PartialEq, Eq)]
pub struct LinkFault;

/// What was got of a datagram.
#[derive(Clone, Copy, Debug, PartialEq, Eq)]
pub struct Got {
    /// How many bytes of it stand at the front of the buffer.
    pub len: usize,
    /// When it came, in seconds since 1970.
    pub now: u64,
}

/// Something that datagrams come from and that answers go to, such as a UDP socket.
///
/// Whatever a link tells, a call fails only where its count of faults rose in that call.
pub trait Link {
    /// Whether links of this type tell the datagrams, the answers and how they were started.
    ghost tells: { Bool };

    /// The datagrams that are left, the answers that were sent and how the link was started, which count only where the
    /// link tells them, and the count of faults.
    ghost seen: { Self → LinkSeen };

    /// Begins to take datagrams that are sent to this port; 0 stands for a port that the system chooses.
    ///
    /// # Errors
    ///
    /// The link failed. It was not started.
    fn start(&mut self, port: u16) -> Result<(), LinkFault>
        ensures started { OnOk result (IsTrue tells
            → (seen self.new).started ≡ started_at (seen self.old).started port (seen self.old).left) }
        ensures fault { OnErr result (IsTrue tells → (seen self.new).started ≡ (seen self.old).started) }
        ensures left { (seen self.new).left ≡ (seen self.old).left }
        ensures answers { (seen self.new).answers ≡ (seen self.old).answers }
        ensures cause { OnErr result (Rose (seen self.old).faults (seen self.new).faults) }
        ensures later { (seen self.old).faults ≤ (seen self.new).faults };

    /// Takes the first datagram, and gives its first 4,096 bytes.
    ///
    /// # Errors
    ///
    /// The link failed, or no datagram is left. None was taken.
    fn next(&mut self, buf: &mut [u8; 4096]) -> Result<Got, LinkFault>
        ensures fits { IfOk result (λ got. got.len ≤ 4096) }
        ensures taken { IfOk result (λ got. IsTrue tells → (datagram : Datagram)
            × ((seen self.old).left ≡ datagram ∷ (seen self.new).left)
            × (take got.len buf.new ≡ take 4096 datagram.bytes)
            × (got.len ≡ min 4096 (length datagram.bytes))
            × (got.now ≡ datagram.moment)) }
        ensures fault { OnErr result (IsTrue tells → (seen self.new).left ≡ (seen self.old).left) }
        ensures answers { IsTrue tells → (seen self.new).answers ≡ (seen self.old).answers }
        ensures started { (seen self.new).started ≡ (seen self.old).started }
        ensures cause { OnErr result (Rose (seen self.old).faults (seen self.new).faults) }
        ensures later { (seen self.old).faults ≤ (seen self.new).faults };

    /// Sends an answer to whoever sent the datagram that was taken last.
    ///
    /// # Errors
    ///
    /// The link failed. Nothing was sent.
    fn answer(&mut self, bytes: &[u8]) -> Result<(), LinkFault>
        ensures sent { OnOk result (IsTrue tells
            → (seen self.new).answers ≡ (seen self.old).answers ++ bytes.now ∷ []) }
        ensures fault { OnErr result (IsTrue tells → (seen self.new).answers ≡ (seen self.old).answers) }
        ensures left { (seen self.new).left ≡ (seen self.old).left }
        ensures started { (seen self.new).started ≡ (seen self.old).started }
        ensures cause { OnErr result (Rose (seen self.old).faults (seen self.new).faults) }
        ensures later { (seen self.old).faults ≤ (seen self.new).faults };
}
