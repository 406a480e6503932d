ghost use Rattle.std.specs.Prelude.{◌≡◌, ◌≤◌, ◌++◌, ◌⊎◌, Bool, [], false, is_ok, is_some, length, take, IsTrue, IfOk};
ghost use Rattle.std.specs.Prelude.{OnOk, OnErr};
ghost use Rattle.std.specs.Option.{option_map};
ghost use Rattle.outside.specs.Count.{Rose};
ghost use Rattle.network.specs.Connections.{AcceptsNext, ChangesCurrent, ClosesCurrent, ConnsSeen, FailsToWrite};
ghost use Rattle.network.specs.Connections.{KeepsConnections, KeepsListening, listened_at, unread, with_failed_read};
ghost use Rattle.network.specs.Connections.{with_taken, with_written};

/// A call on connections failed.
#[derive(Clone, Copy, Debug, PartialEq, Eq)]
pub struct ConnFault;

/// Connections that others make, such as those to a TCP socket, of which at most one is open at a time.
///
/// Whatever is told of them, each object tells whether a connection is open, a call fails only where the count of its
/// faults rose in that call, and a number of bytes that a call answers fits the buffer.
pub trait Conns {
    /// Whether objects of this type tell the connections and how they listened.
    ghost tells: { Bool };

    /// Whether a connection is open, which every object tells.
    ghost is_open: { Self → Bool };

    /// The connections that are left, the open one, the closed ones and how it listened, which count only where the
    /// object tells them, and the two counts of faults.
    ghost seen: { Self → ConnsSeen };

    /// Begins to listen for connections to this port; 0 stands for a port that the system chooses.
    ///
    /// # Errors
    ///
    /// It did not begin to listen.
    fn listen(&mut self, port: u16) -> Result<(), ConnFault>
        ensures listened { OnOk result (IsTrue tells → (seen self.new).listened ≡ listened_at (seen self.old) port) }
        ensures fault { OnErr result (IsTrue tells → (seen self.new).listened ≡ (seen self.old).listened) }
        ensures leaves { KeepsConnections (seen self.old) (seen self.new) }
        ensures open_as_before { is_open self.new ≡ is_open self.old }
        ensures cause { OnErr result (Rose (seen self.old).listener_faults (seen self.new).listener_faults) };

    /// Opens the next connection, and gives the moment at which it came, in seconds since 1970.
    ///
    /// # Errors
    ///
    /// The object failed, or no connection is left. None was taken.
    fn accept(&mut self) -> Result<u64, ConnFault>
        requires { is_open self.old ≡ false }
        ensures opens { is_open self.new ≡ is_ok result }
        ensures accepted { IfOk result (λ moment. IsTrue tells → AcceptsNext moment (seen self.old) (seen self.new)) }
        ensures fault { OnErr result (IsTrue tells → (seen self.new).left ≡ (seen self.old).left) }
        ensures closed { (seen self.new).closed ≡ (seen self.old).closed }
        ensures leaves { KeepsListening (seen self.old) (seen self.new) }
        ensures connection_faults { (seen self.new).connection_faults ≡ (seen self.old).connection_faults }
        ensures cause { OnErr result (Rose (seen self.old).listener_faults (seen self.new).listener_faults) };

    /// Takes bytes of the open connection into `buf`, and answers how many: at least one where `buf` has room for one
    /// and the other side has not ended.
    ///
    /// # Errors
    ///
    /// The connection failed. No byte was taken, but `buf` may hold anything.
    fn read(&mut self, buf: &mut [u8]) -> Result<usize, ConnFault>
        requires { IsTrue (is_open self.old) }
        ensures fits { IfOk result (λ count. count ≤ length buf.new) }
        ensures taken { IfOk result (λ count. IsTrue tells
            → (seen self.new).current ≡ option_map (with_taken count) (seen self.old).current) }
        ensures bytes { IfOk result (λ count. IsTrue tells
            → unread (seen self.old).current ≡ take count buf.new ++ unread (seen self.new).current) }
        ensures end { IfOk result (λ count. IsTrue tells → count ≡ 0
            → (length buf.old ≡ 0) ⊎ (unread (seen self.old).current ≡ [])) }
        ensures fault { OnErr result (IsTrue tells
            → (seen self.new).current ≡ option_map with_failed_read (seen self.old).current) }
        ensures leaves { ChangesCurrent (seen self.old) (seen self.new) }
        ensures open_as_before { is_open self.new ≡ is_open self.old }
        ensures cause { OnErr result (Rose (seen self.old).connection_faults (seen self.new).connection_faults) };

    /// Writes all the bytes on the open connection.
    ///
    /// # Errors
    ///
    /// The connection failed. A prefix of the bytes was written.
    fn write(&mut self, bytes: &[u8]) -> Result<(), ConnFault>
        requires { IsTrue (is_open self.old) }
        ensures written { OnOk result (IsTrue tells
            → (seen self.new).current ≡ option_map (with_written bytes.now) (seen self.old).current) }
        ensures fault { OnErr result (IsTrue tells
            → FailsToWrite bytes.now (seen self.old).current (seen self.new).current) }
        ensures leaves { ChangesCurrent (seen self.old) (seen self.new) }
        ensures open_as_before { is_open self.new ≡ is_open self.old }
        ensures cause { OnErr result (Rose (seen self.old).connection_faults (seen self.new).connection_faults) };

    /// Closes the open connection. Where none is open nothing changes.
    fn close(&mut self)
        ensures shut { is_open self.new ≡ false }
        ensures closed { IsTrue tells → ClosesCurrent (seen self.old) (seen self.new) }
        ensures left { (seen self.new).left ≡ (seen self.old).left }
        ensures listened { (seen self.new).listened ≡ (seen self.old).listened }
        ensures listener_faults { (seen self.new).listener_faults ≡ (seen self.old).listener_faults }
        ensures connection_faults { (seen self.new).connection_faults ≡ (seen self.old).connection_faults };

    /// What is told of the open connection is told exactly where one is open.
    ghost told_open: { (conns : Self) → IsTrue tells → is_open conns ≡ is_some (seen conns).current };
}
