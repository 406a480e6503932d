ghost use Rattle.std.specs.Prelude.{◌≡◌, ◌≤◌, ◌++◌, Bool, IsTrue, OnOk, OnErr};
ghost use Rattle.outside.specs.Count.{Rose};
ghost use Rattle.outside.specs.Seen.{SinkSeen};
ghost use Rattle.outside.specs.Text.{AppendsPrefix};

/// A call on a sink failed.
#[derive(Clone, Copy, Debug, PartialEq, Eq)]
pub struct SinkFault;

/// Something that text is written to, such as a standard stream.
///
/// Whatever a sink tells, a call fails only where its count of faults rose in that call.
pub trait Sink {
    /// Whether sinks of this type tell what was written to them.
    ghost tells: { Bool };

    /// The bytes written so far, which count only where the sink tells them, and the count of faults.
    ghost seen: { Self → SinkSeen };

    /// Appends all the bytes.
    ///
    /// # Errors
    ///
    /// The sink failed. A prefix of the bytes was appended.
    fn write(&mut self, bytes: &[u8]) -> Result<(), SinkFault>
        ensures ok { OnOk result (IsTrue tells → (seen self.new).written ≡ (seen self.old).written ++ bytes.now) }
        ensures fault { OnErr result (IsTrue tells
            → AppendsPrefix (seen self.old).written (seen self.new).written bytes.now) }
        ensures cause { OnErr result (Rose (seen self.old).faults (seen self.new).faults) }
        ensures later { (seen self.old).faults ≤ (seen self.new).faults };
}
