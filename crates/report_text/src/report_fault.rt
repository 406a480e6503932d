ghost use Rattle.std.specs.Prelude.{◌≡◌};
ghost use Rattle.report_text.specs.declared.report_fault.ReportFault.TheVariants.{Sink as SinkFailed, File};

use opened_file::FileFault;
use outside::SinkFault;

/// Why a report was refused.
#[derive(Clone, Copy, Debug, PartialEq, Eq)]
pub enum ReportFault {
    /// The sink failed.
    Sink,
    /// A lookup in the quota file was refused.
    File(FileFault),
}

impl From<SinkFault> for ReportFault {
    ghost from_gives = { λ _ fault. fault ≡ SinkFailed };

    fn from(_: SinkFault) -> Self {
        ReportFault::Sink
    }
}

impl From<FileFault> for ReportFault {
    ghost from_gives = { λ lookup fault. fault ≡ File lookup };

    fn from(lookup: FileFault) -> Self {
        ReportFault::File(lookup)
    }
}
