ghost use Rattle.std.specs.Prelude.{◌≡◌, ◌+◌, ◌<◌, ◌^◌, IfErr};
ghost use Rattle.rquota_serve.specs.Added.{one_later};

use opened_file::OpenFault;
use quota_types::Kind;
use thiserror::Error;

/// A quota file that is to be told of under a path, for users, groups or projects.
#[derive(Clone, Copy, Debug)]
pub struct NewExport<'a> {
    /// The path that a call names.
    pub path: &'a str,
    /// Whose usage the file limits.
    pub kind: Kind,
    /// The name of the file.
    pub file: &'a str,
}

impl Default for NewExport<'_> {
    fn default() -> Self {
        NewExport {
            path: "",
            kind: Kind::User,
            file: "",
        }
    }
}

/// The first of some quota files that was not exported, and why.
#[derive(Clone, Copy, Debug, PartialEq, Eq, Error)]
#[error("a quota file could not be opened")]
pub struct AddFault {
    /// Its place among them, counted from 0.
    pub place: usize,
    /// Why it was not opened.
    pub fault: OpenFault,
}

/// What came of adding files, told of these behind one more.
pub(crate) fn one_later(added: Result<(), AddFault>) -> Result<(), AddFault>
    requires { IfErr added (λ met. met.place + 1 < 2 ^ 64) }
    ensures { result ≡ one_later added }
{
    match added {
        Ok(()) => Ok(()),
        Err(met) => Err(AddFault {
            place: met.place + 1,
            fault: met.fault,
        }),
    }
}
