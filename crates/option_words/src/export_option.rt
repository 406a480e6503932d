ghost use Rattle.std.specs.Prelude.{◌≡◌};

use quota_types::Kind;
use refusals::Word;
use std::marker::Model;

/// A quota file that is served under a path.
#[derive(Debug, Drop)]
pub struct ExportOption {
    /// The path that a call names.
    pub path: Word,
    /// Whose usage the file limits.
    pub kind: Kind,
    /// The name of the file.
    pub file: Word,
}

/// Exports in the order in which they were given.
#[derive(Debug, Drop)]
pub struct ExportOptions {
    exports: Vec<ExportOption>,
}

impl Model for ExportOptions {
    ghost use Rattle.std.specs.Prelude.{List};
    ghost use Rattle.option_words.specs.declared.export_option.ExportOption.{ExportOption};

    ghost Value = { List ExportOption };

    ghost view = { λ list. list.exports.items };
}

impl ExportOptions {
    /// The list of these exports.
    pub fn from_vec(exports: Vec<ExportOption>) -> Self
        ensures { result ≡ exports.items }
    {
        ExportOptions { exports }
    }

    /// The exports.
    pub fn as_slice(&self) -> &[ExportOption]
        ensures { result.now ≡ self.now }
    {
        self.exports.as_slice()
    }
}
