ghost use Rattle.std.specs.Prelude.{◌≡◌};

use opened_file::FileFault;
use outside::LinkFault;
use thiserror::Error;

/// Why serving ended before its time.
#[derive(Clone, Copy, Debug, PartialEq, Eq, Error)]
pub enum ServeFault {
    /// The link failed.
    #[error("the link failed")]
    Link,
    /// A record could not be looked up in an exported file.
    #[error("an exported file could not be read")]
    File(FileFault),
}

impl From<LinkFault> for ServeFault {
    ghost use Rattle.rquota_serve.specs.declared.serve_fault.ServeFault.TheVariants.{Link as LinkFailed};

    ghost from_gives = { λ _ gives. gives ≡ LinkFailed };

    fn from(_fault: LinkFault) -> Self {
        ServeFault::Link
    }
}

impl From<FileFault> for ServeFault {
    ghost use Rattle.rquota_serve.specs.declared.serve_fault.ServeFault.TheVariants.{File as FileFailed};

    ghost from_gives = { λ fault gives. gives ≡ FileFailed fault };

    fn from(fault: FileFault) -> Self {
        ServeFault::File(fault)
    }
}
