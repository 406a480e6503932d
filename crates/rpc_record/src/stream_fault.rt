ghost use Rattle.std.specs.Prelude.{◌≡◌};

use network::ConnFault;
use opened_file::FileFault;
use thiserror::Error;

/// Why serving streams ended before its time.
#[derive(Clone, Copy, Debug, PartialEq, Eq, Error)]
pub enum StreamFault {
    /// No connection could be accepted.
    #[error("no connection could be accepted")]
    Conn,
    /// A record could not be looked up in an exported file.
    #[error("an exported file could not be read")]
    File(FileFault),
}

impl From<ConnFault> for StreamFault {
    ghost use Rattle.rpc_record.specs.declared.stream_fault.StreamFault.TheVariants.{Conn as ConnFailed};

    ghost from_gives = { λ _ gives. gives ≡ ConnFailed };

    fn from(_fault: ConnFault) -> Self {
        StreamFault::Conn
    }
}

impl From<FileFault> for StreamFault {
    ghost use Rattle.rpc_record.specs.declared.stream_fault.StreamFault.TheVariants.{File as FileFailed};

    ghost from_gives = { λ fault gives. gives ≡ FileFailed fault };

    fn from(fault: FileFault) -> Self {
        StreamFault::File(fault)
    }
}
