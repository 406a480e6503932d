ghost use Rattle.std.specs.Prelude.{◌≡◌, [], false, true, Ok, Err, MatchResult};
ghost use Rattle.std.specs.Option.{option_copied};
ghost use Rattle.option_words.specs.FileName.{is_file_name};
ghost use Rattle.command_words.specs.Modes.{formed, is_value};
ghost use Rattle.option_words.specs.Given.{GivenOptions, given_options};
ghost use Rattle.option_words.specs.Reads.{operand_seen, operands_seen};
ghost use Rattle.command_words.specs.Usage.{IsFaultOf};

use crate::copies::{common_of, copy_given, exports_of, word_of};
use crate::mode::{Mode, kind_asked, options_of};
use crate::{Command, UsageFault};
use input_text::read_number;
use option_words::{Fault, Given, OperandWord, is_file_name, lines_of};
use refusals::{UsageKind, Word};
use std::alloc::Global;

/// The command that a mode asks for by its operands.
pub fn mode_command(
    alloc: Global,
    mode: Mode,
    given: &Given<'_>,
    operands: &[OperandWord<'_>],
    words: usize,
) -> Result<Command, UsageFault>
    ensures { MatchResult result
        (λ command. formed mode (given_options given.now) words (operands_seen operands.now) ≡ Ok command)
        (IsFaultOf (formed mode (given_options given.now) words (operands_seen operands.now))) }
{
    match mode {
        Mode::Reporting => report(alloc, given, operands, words),
        Mode::Limiting => limits(alloc, given, operands, words),
        Mode::Copying => copy(alloc, given, operands, words),
        Mode::Batching => batch(alloc, given, operands, words),
        Mode::SettingGrace => grace(alloc, given, operands, words),
        Mode::SettingTimes => times(alloc, given, operands, words),
        Mode::Printing => print(alloc, given, operands, words),
        Mode::Applying => apply(alloc, given, operands, words),
        Mode::Checking => check(alloc, given, operands, words),
        Mode::Converting => convert(alloc, given, operands, words),
        Mode::Serving => serve(alloc, given, operands, words),
        Mode::Scripting => script(operands, words),
        Mode::Generating => generate(alloc, operands, words),
    }
}

/// A list of commands.
fn script(operands: &[OperandWord<'_>], words: usize) -> Result<Command, UsageFault>
    ensures { (given : GivenOptions)
        → MatchResult result (λ command. formed Mode.Scripting given words (operands_seen operands.now) ≡ Ok command)
        (IsFaultOf (formed Mode.Scripting given words (operands_seen operands.now))) }
{
    if operands.is_empty() {
        Ok(Command::Script)
    } else {
        Err(wrong_operands(words))
    }
}

/// A report.
fn report(
    alloc: Global,
    given: &Given<'_>,
    operands: &[OperandWord<'_>],
    words: usize,
) -> Result<Command, UsageFault>
    ensures { MatchResult result
        (λ command. formed Mode.Reporting (given_options given.now) words (operands_seen operands.now) ≡ Ok command)
        (IsFaultOf (formed Mode.Reporting (given_options given.now) words (operands_seen operands.now))) }
{
    let [file] = operands else {
        return Err(wrong_operands(words));
    };
    named(file)?;
    Ok(Command::Report {
        common: common_of(alloc, given)?,
        options: options_of(&given.flags),
        file: word_of(alloc, file)?,
    })
}

/// New limits.
fn limits(
    alloc: Global,
    given: &Given<'_>,
    operands: &[OperandWord<'_>],
    words: usize,
) -> Result<Command, UsageFault>
    ensures { MatchResult result
        (λ command. formed Mode.Limiting (given_options given.now) words (operands_seen operands.now) ≡ Ok command)
        (IsFaultOf (formed Mode.Limiting (given_options given.now) words (operands_seen operands.now))) }
{
    let [name, bsoft, bhard, isoft, ihard, file] = operands else {
        return Err(wrong_operands(words));
    };
    named(file)?;
    Ok(Command::SetLimits {
        common: common_of(alloc, given)?,
        name: word_of(alloc, name)?,
        limits: [
            word_of(alloc, bsoft)?,
            word_of(alloc, bhard)?,
            word_of(alloc, isoft)?,
            word_of(alloc, ihard)?,
        ],
        file: word_of(alloc, file)?,
    })
}

/// The limits of another identifier.
fn copy(
    alloc: Global,
    given: &Given<'_>,
    operands: &[OperandWord<'_>],
    words: usize,
) -> Result<Command, UsageFault>
    ensures { MatchResult result
        (λ command. formed Mode.Copying (given_options given.now) words (operands_seen operands.now) ≡ Ok command)
        (IsFaultOf (formed Mode.Copying (given_options given.now) words (operands_seen operands.now))) }
{
    let [name, file] = operands else {
        return Err(wrong_operands(words));
    };
    named(file)?;
    let Some(proto) = given.proto else {
        return Err(UsageFault::from(Fault::at(UsageKind::MissingOption, words)));
    };
    Ok(Command::CopyLimits {
        common: common_of(alloc, given)?,
        proto: Word::copy_of(alloc, proto)?,
        name: word_of(alloc, name)?,
        file: word_of(alloc, file)?,
    })
}

/// New limits of many identifiers.
fn batch(
    alloc: Global,
    given: &Given<'_>,
    operands: &[OperandWord<'_>],
    words: usize,
) -> Result<Command, UsageFault>
    ensures { MatchResult result
        (λ command. formed Mode.Batching (given_options given.now) words (operands_seen operands.now) ≡ Ok command)
        (IsFaultOf (formed Mode.Batching (given_options given.now) words (operands_seen operands.now))) }
{
    let [file] = operands else {
        return Err(wrong_operands(words));
    };
    named(file)?;
    if is_value(file, given.input) {
        return Err(UsageFault::from(Fault::at(UsageKind::BadFileName, file.word)));
    }
    Ok(Command::Batch {
        common: common_of(alloc, given)?,
        input: copy_given(alloc, given.input)?,
        file: word_of(alloc, file)?,
    })
}

/// Grace periods.
fn grace(
    alloc: Global,
    given: &Given<'_>,
    operands: &[OperandWord<'_>],
    words: usize,
) -> Result<Command, UsageFault>
    ensures { MatchResult result
        (λ command. formed Mode.SettingGrace (given_options given.now) words (operands_seen operands.now) ≡ Ok command)
        (IsFaultOf (formed Mode.SettingGrace (given_options given.now) words (operands_seen operands.now))) }
{
    let [block, inode, file] = operands else {
        return Err(wrong_operands(words));
    };
    named(file)?;
    Ok(Command::SetGrace {
        common: common_of(alloc, given)?,
        block: word_of(alloc, block)?,
        inode: word_of(alloc, inode)?,
        file: word_of(alloc, file)?,
    })
}

/// Times.
fn times(
    alloc: Global,
    given: &Given<'_>,
    operands: &[OperandWord<'_>],
    words: usize,
) -> Result<Command, UsageFault>
    ensures { MatchResult result
        (λ command. formed Mode.SettingTimes (given_options given.now) words (operands_seen operands.now) ≡ Ok command)
        (IsFaultOf (formed Mode.SettingTimes (given_options given.now) words (operands_seen operands.now))) }
{
    let [name, block, inode, file] = operands else {
        return Err(wrong_operands(words));
    };
    named(file)?;
    Ok(Command::SetTimes {
        common: common_of(alloc, given)?,
        name: word_of(alloc, name)?,
        block: word_of(alloc, block)?,
        inode: word_of(alloc, inode)?,
        file: word_of(alloc, file)?,
    })
}

/// A form to be edited.
fn print(
    alloc: Global,
    given: &Given<'_>,
    operands: &[OperandWord<'_>],
    words: usize,
) -> Result<Command, UsageFault>
    ensures { MatchResult result
        (λ command. formed Mode.Printing (given_options given.now) words (operands_seen operands.now) ≡ Ok command)
        (IsFaultOf (formed Mode.Printing (given_options given.now) words (operands_seen operands.now))) }
{
    let [name, file] = operands else {
        return Err(wrong_operands(words));
    };
    named(file)?;
    Ok(Command::PrintForm {
        common: common_of(alloc, given)?,
        name: word_of(alloc, name)?,
        file: word_of(alloc, file)?,
    })
}

/// A form that was edited.
fn apply(
    alloc: Global,
    given: &Given<'_>,
    operands: &[OperandWord<'_>],
    words: usize,
) -> Result<Command, UsageFault>
    ensures { MatchResult result
        (λ command. formed Mode.Applying (given_options given.now) words (operands_seen operands.now) ≡ Ok command)
        (IsFaultOf (formed Mode.Applying (given_options given.now) words (operands_seen operands.now))) }
{
    let [name, file] = operands else {
        return Err(wrong_operands(words));
    };
    named(file)?;
    Ok(Command::ApplyForm {
        common: common_of(alloc, given)?,
        input: copy_given(alloc, given.input)?,
        name: word_of(alloc, name)?,
        file: word_of(alloc, file)?,
    })
}

/// The usage in a listing.
fn check(
    alloc: Global,
    given: &Given<'_>,
    operands: &[OperandWord<'_>],
    words: usize,
) -> Result<Command, UsageFault>
    ensures { MatchResult result
        (λ command. formed Mode.Checking (given_options given.now) words (operands_seen operands.now) ≡ Ok command)
        (IsFaultOf (formed Mode.Checking (given_options given.now) words (operands_seen operands.now))) }
{
    let [file] = operands else {
        return Err(wrong_operands(words));
    };
    named(file)?;
    Ok(Command::Check {
        common: common_of(alloc, given)?,
        fresh: given.flags.fresh,
        device: given.device,
        input: copy_given(alloc, given.input)?,
        file: word_of(alloc, file)?,
    })
}

/// A file in another format.
fn convert(
    alloc: Global,
    given: &Given<'_>,
    operands: &[OperandWord<'_>],
    words: usize,
) -> Result<Command, UsageFault>
    ensures { MatchResult result
        (λ command. formed Mode.Converting (given_options given.now) words (operands_seen operands.now) ≡ Ok command)
        (IsFaultOf (formed Mode.Converting (given_options given.now) words (operands_seen operands.now))) }
{
    let [source, target] = operands else {
        return Err(wrong_operands(words));
    };
    named(source)?;
    named(target)?;
    let Some(formats) = given.conversion else {
        return Err(UsageFault::from(Fault::at(UsageKind::MissingOption, words)));
    };
    Ok(Command::Convert {
        kind: kind_asked(&given.flags),
        old: formats.old,
        new: formats.new,
        source: word_of(alloc, source)?,
        target: word_of(alloc, target)?,
    })
}

/// Answers to calls.
fn serve(
    alloc: Global,
    given: &Given<'_>,
    operands: &[OperandWord<'_>],
    words: usize,
) -> Result<Command, UsageFault>
    ensures { MatchResult result
        (λ command. formed Mode.Serving (given_options given.now) words (operands_seen operands.now) ≡ Ok command)
        (IsFaultOf (formed Mode.Serving (given_options given.now) words (operands_seen operands.now))) }
{
    if !operands.is_empty() {
        return Err(wrong_operands(words));
    }
    let (Some(calls), Some(port)) = (given.calls, given.port) else {
        return Err(UsageFault::from(Fault::at(UsageKind::MissingOption, words)));
    };
    Ok(Command::Serve {
        format: given.format,
        calls,
        port,
        exports: exports_of(alloc, given.exports.as_slice())?,
    })
}

/// A listing that is made up.
fn generate(
    alloc: Global,
    operands: &[OperandWord<'_>],
    words: usize,
) -> Result<Command, UsageFault>
    ensures { (given : GivenOptions)
        → MatchResult result (λ command. formed Mode.Generating given words (operands_seen operands.now) ≡ Ok command)
        (IsFaultOf (formed Mode.Generating given words (operands_seen operands.now))) }
{
    let [seed, count, file] = operands else {
        return Err(wrong_operands(words));
    };
    let Some(seed) = read_number(seed.text) else {
        return Err(UsageFault::from(Fault::at(UsageKind::BadValue, seed.word)));
    };
    let Some(count) = lines_of(count.text) else {
        return Err(UsageFault::from(Fault::at(UsageKind::BadValue, count.word)));
    };
    named(file)?;
    Ok(Command::Generate {
        seed,
        count,
        file: word_of(alloc, file)?,
    })
}

/// The fault of another number of operands.
fn wrong_operands(words: usize) -> UsageFault
    ensures { result ≡ UsageFault.Usage UsageKind.WrongOperands words }
{
    UsageFault::from(Fault::at(UsageKind::WrongOperands, words))
}

/// Whether an operand is the name of a file.
fn named(operand: &OperandWord<'_>) -> Result<(), UsageFault>
    ensures { MatchResult result (λ _. is_file_name operand.now.text.now ≡ true)
        (λ met.
        (is_file_name operand.now.text.now ≡ false) × (met ≡ UsageFault.Usage UsageKind.BadFileName operand.now.word)) }
{
    if is_file_name(operand.text) {
        Ok(())
    } else {
        Err(UsageFault::from(Fault::at(UsageKind::BadFileName, operand.word)))
    }
}

/// Whether an operand is the value of an option.
fn is_value(operand: &OperandWord<'_>, value: Option<&str>) -> bool
    ensures { result ≡ is_value (operand_seen operand.now) (option_copied value.entry) }
{
    match value {
        Some(value) => operand.text == value,
        None => false,
    }
}
