ghost use Rattle.std.specs.Prelude.{◌≡◌, Ok, Err, MatchResult};
ghost use Rattle.option_words.specs.Given.{exports_given, has, is_exported, kind_word, nothing_given, put};
ghost use Rattle.option_words.specs.Given.{given_options, with_item};
ghost use Rattle.option_words.specs.Items.{Raised, Set, Exported};

use crate::values::{
    checked, conversion_of, is_export_path, read_calls, read_format, read_kind, read_port,
};
use crate::{Fault, Flag, Flags, Setting, is_file_name, read_file_name};
use arrayvec::ArrayVec;
use input_text::read_number;
use quota_types::{Format, Kind};
use refusals::UsageKind;

/// How many exports there may be.
const MAX_EXPORTS: usize = 16;

/// The formats of a conversion.
#[derive(Clone, Copy, Debug, PartialEq, Eq)]
pub struct Conversion {
    /// The format of the source.
    pub old: Format,
    /// The format of the target.
    pub new: Format,
}

/// An export as the words have it.
#[derive(Clone, Copy)]
pub struct ExportWords<'a> {
    /// The path that a call names.
    pub path: &'a str,
    /// Whose usage the file limits.
    pub kind: Kind,
    /// The name of the file.
    pub file: &'a str,
}

impl Default for ExportWords<'_> {
    fn default() -> Self {
        ExportWords {
            path: "",
            kind: Kind::User,
            file: "",
        }
    }
}

/// What the options give, with texts that stand in the words.
#[derive(Drop)]
pub struct Given<'a> {
    /// The options without a value.
    pub flags: Flags,
    /// The format of a file.
    pub format: Option<Format>,
    /// The file of names.
    pub names: Option<&'a str>,
    /// The identifier whose limits are copied.
    pub proto: Option<&'a str>,
    /// The file that is read instead of the standard input.
    pub input: Option<&'a str>,
    /// The device whose lines count.
    pub device: Option<u64>,
    /// The formats of a conversion.
    pub conversion: Option<Conversion>,
    /// How many calls are answered.
    pub calls: Option<u32>,
    /// The port.
    pub port: Option<u16>,
    /// What is exported.
    pub exports: ArrayVec<ExportWords<'a>, 16>,
}

impl<'a> Given<'a> {
    /// Nothing is given.
    pub fn nothing() -> Self
        ensures { given_options result ≡ nothing_given }
    {
        Given {
            flags: Flags::none(),
            format: None,
            names: None,
            proto: None,
            input: None,
            device: None,
            conversion: None,
            calls: None,
            port: None,
            exports: ArrayVec::new(),
        }
    }

    /// Raises a flag, which may be raised already.
    pub fn raise(&mut self, flag: Flag)
        ensures { with_item (Raised flag) (given_options self.old) ≡ Ok (given_options self.new) }
    {
        self.flags = self.flags.with(flag);
    }

    /// Takes the value of a setting, whose option began in this word.
    ///
    /// # Errors
    ///
    /// The setting was given before, or the value is not of its form or range.
    pub fn set(&mut self, setting: Setting, value: &'a str, word: usize) -> Result<(), Fault>
        ensures { MatchResult result
            (λ _. with_item (Set setting value.now word) (given_options self.old) ≡ Ok (given_options self.new))
            (λ met. with_item (Set setting value.now word) (given_options self.old) ≡ Err met) }
    {
        if self.has(setting) {
            return Err(Fault::at(UsageKind::Repeated, word));
        }
        self.put(setting, value, word)
    }

    /// Takes the value of a setting that was not given before.
    fn put(&mut self, setting: Setting, value: &'a str, word: usize) -> Result<(), Fault>
        ensures { MatchResult result
            (λ _. put setting value.now word (given_options self.old) ≡ Ok (given_options self.new))
            (λ met. put setting value.now word (given_options self.old) ≡ Err met) }
    {
        match setting {
            Setting::QuotaFormat => {
                self.format = Some(read_format(value, word)?);
                Ok(())
            }
            Setting::Names => {
                self.names = Some(read_file_name(value, word)?);
                Ok(())
            }
            Setting::Proto => {
                self.proto = Some(value);
                Ok(())
            }
            Setting::Input => {
                self.input = Some(read_file_name(value, word)?);
                Ok(())
            }
            Setting::Device => {
                self.device = Some(checked(read_number(value), word)?);
                Ok(())
            }
            Setting::Formats => {
                self.conversion = Some(checked(conversion_of(value), word)?);
                Ok(())
            }
            Setting::Calls => {
                self.calls = Some(read_calls(value, word)?);
                Ok(())
            }
            Setting::Port => {
                self.port = Some(read_port(value, word)?);
                Ok(())
            }
        }
    }

    /// Takes an export, whose option began in this word.
    ///
    /// # Errors
    ///
    /// The pair of path and kind was given before, a word is not of its form, or there are 16 exports already.
    pub fn export(
        &mut self,
        path: &'a str,
        kind: &'a str,
        file: &'a str,
        word: usize,
    ) -> Result<(), Fault>
        ensures { MatchResult result
            (λ _.
            with_item (Exported path.now kind.now file.now word) (given_options self.old) ≡ Ok (given_options self.new))
            (λ met. with_item (Exported path.now kind.now file.now word) (given_options self.old) ≡ Err met) }
    {
        if is_exported(path, kind, self.exports.as_slice()) {
            return Err(Fault::at(UsageKind::Repeated, word));
        }
        if !is_export_path(path) {
            return Err(Fault::at(UsageKind::BadValue, word));
        }
        let kind = read_kind(kind, word)?;
        if self.exports.len() >= MAX_EXPORTS {
            return Err(Fault::at(UsageKind::BadValue, word));
        }
        if !is_file_name(file) {
            return Err(Fault::at(UsageKind::BadFileName, word));
        }
        self.exports.push(ExportWords { path, kind, file });
        Ok(())
    }

    /// Whether a setting was given.
    fn has(&self, setting: Setting) -> bool
        ensures { result ≡ has setting (given_options self.now) }
    {
        match setting {
            Setting::QuotaFormat => self.format.is_some(),
            Setting::Names => self.names.is_some(),
            Setting::Proto => self.proto.is_some(),
            Setting::Input => self.input.is_some(),
            Setting::Device => self.device.is_some(),
            Setting::Formats => self.conversion.is_some(),
            Setting::Calls => self.calls.is_some(),
            Setting::Port => self.port.is_some(),
        }
    }
}

/// Whether a pair of a path and a kind was exported.
fn is_exported(path: &str, kind: &str, exports: &[ExportWords<'_>]) -> bool
    ensures { result ≡ is_exported path.now kind.now (exports_given exports.now) }
{
    exports.iter().any(|export| export.path == path && kind_word(export.kind) == kind)
}

/// The word under which files of a kind are exported.
fn kind_word(kind: Kind) -> &'static str
    ensures { result.now ≡ kind_word kind }
{
    match kind {
        Kind::User => "user",
        Kind::Group => "group",
        Kind::Project => "project",
    }
}
