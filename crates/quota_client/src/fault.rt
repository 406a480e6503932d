ghost use Rattle.std.specs.Prelude.{◌≡◌};

use network::PeerFault;
use outside::SinkFault;

/// Why not all paths were asked for and printed.
#[derive(Clone, Copy)]
pub(crate) enum ClientFault {
    /// The peer failed.
    Asking,
    /// The output failed.
    Printing,
}

impl From<PeerFault> for ClientFault {
    ghost use Rattle.quota_client.specs.declared.fault.ClientFault.TheVariants.{Asking};

    ghost from_gives = { λ _ gives. gives ≡ Asking };

    fn from(_fault: PeerFault) -> Self {
        ClientFault::Asking
    }
}

impl From<SinkFault> for ClientFault {
    ghost use Rattle.quota_client.specs.declared.fault.ClientFault.TheVariants.{Printing};

    ghost from_gives = { λ _ gives. gives ≡ Printing };

    fn from(_fault: SinkFault) -> Self {
        ClientFault::Printing
    }
}
