ghost use Rattle.std.specs.Prelude.{◌≡◌, ◌≤◌, ◌<◌, ◌-◌, [], IfErr, IfOk, IfSome, IsSome, IsTrue, MatchResult, None};
ghost use Rattle.std.specs.Prelude.{Some, false, true};
ghost use Rattle.outside.specs.Behind.{IsBehind};
ghost use Rattle.outside.specs.Count.{Rose};
ghost use Rattle.input_text.specs.LineReading.{lines_left};
ghost use Rattle.script_lines.specs.Script.{lines_say, script_refusal, script_said};
ghost use Rattle.script_lines.specs.ScriptReading.{IsOfScript, read_then, refusal_read, script_read};
ghost use Rattle.script_lines.specs.declared.line.ScriptLineRead.TheVariants.{Refused as Faulty};
ghost use Rattle.script_lines.specs.declared.script.ScriptFault.TheVariants.{Source as SourceFailed};
ghost use Rattle.script_lines.specs.declared.script.ScriptFault.TheVariants.{Memory as NoMemory};

use crate::line::{ScriptLineRead, read_line, refused_script};
use crate::{Script, ScriptFault};
use arrayvec::ArrayVec;
use input_text::{LineFault, LineReader};
use outside::Source;
use refusals::Cause;
use std::alloc::Global;

/// How many bytes a line has at most.
const MAX_LINE: usize = 4096;

/// How many bytes of a script are read at most.
const MAX_SCRIPT: u64 = 16_777_216;

/// Reads the lines of a script that say something, up to the first line that is refused, or up to the end of the input.
/// Of the input it keeps those lines and no more.
///
/// A line says nothing where it begins with `#` or has no words; any other line has to be UTF-8. A line has 4,096 bytes
/// at most, and all lines 16,777,216.
///
/// # Errors
///
/// The input failed, or there is not enough memory.
pub fn read_script<I: Source>(alloc: Global, input: &mut I) -> Result<Script, ScriptFault>
    ensures read { IfOk result (λ script. IsTrue I.tells → script_said (I.seen input.old).left ≡ script_read script) }
    ensures ended { IfOk result (λ script. script.refusal ≡ None → IsTrue I.tells → (I.seen input.new).left ≡ []) }
    ensures behind { IsTrue I.tells → IsBehind (I.seen input.old).left (I.seen input.new).left }
    ensures may { IfOk result (λ script. IfSome script.refusal IsOfScript) }
    ensures cause { IfErr result
        (λ fault. fault ≡ SourceFailed → Rose (I.seen input.old).faults (I.seen input.new).faults) }
    ensures later { (I.seen input.old).faults ≤ (I.seen input.new).faults }
    ensures keeps { I.keeps false input.old input.new }
    ensures kept { IfOk result (λ script. script.refusal ≡ None → I.keeps true input.old input.new) }
{
    read_lines(alloc, input)
}

/// Reads the lines of a script one by one, up to the first line that is refused, or up to the end of the input.
fn read_lines<I: Source>(alloc: Global, input: &mut I) -> Result<Script, ScriptFault>
    ensures read { IfOk result (λ script. IsTrue I.tells → script_said (I.seen input.old).left ≡ script_read script) }
    ensures ended { IfOk result (λ script. script.refusal ≡ None → IsTrue I.tells → (I.seen input.new).left ≡ []) }
    ensures may { IfOk result (λ script. IfSome script.refusal IsOfScript) }
    ensures cause { IfErr result
        (λ fault. fault ≡ SourceFailed → Rose (I.seen input.old).faults (I.seen input.new).faults) }
    ensures later { (I.seen input.old).faults ≤ (I.seen input.new).faults }
    ensures keeps { I.keeps false input.old input.new }
    ensures kept { IfOk result (λ script. script.refusal ≡ None → I.keeps true input.old input.new) }
{
    let mut reader = LineReader::new();
    let mut line = ArrayVec::new();
    let mut lines = Vec::new(alloc);
    loop {
        match take_line(alloc, &mut reader, &mut line, input)? {
            None => {
                return Ok(Script {
                    lines,
                    refusal: None,
                });
            }
            Some(ScriptLineRead::Nothing) => {}
            Some(ScriptLineRead::Line(line)) => {
                if lines.push(line).is_err() {
                    return Err(ScriptFault::Memory);
                }
            }
            Some(ScriptLineRead::Refused(refusal)) => {
                return Ok(Script {
                    lines,
                    refusal: Some(refusal),
                });
            }
        }
    }
}

/// Reads what the next line says, or `None` at the end of the input.
fn take_line<I: Source>(
    alloc: Global,
    reader: &mut LineReader,
    line: &mut ArrayVec<u8, 4096>,
    input: &mut I,
) -> Result<Option<ScriptLineRead>, ScriptFault>
    ensures read { IfOk result (λ read. IsTrue I.tells
        → lines_say reader.old.number (lines_left 4096 16777216 reader.old (I.seen input.old).left)
        ≡ read_then read (lines_say reader.new.number (lines_left 4096 16777216 reader.new (I.seen input.new).left))) }
    ensures ended { IfOk result (λ read. read ≡ None → IsTrue I.tells → (I.seen input.new).left ≡ []) }
    ensures may { IfOk result (λ read. IfSome (refusal_read read) IsOfScript) }
    ensures nearer { IfOk result (λ read. IsSome read → refusal_read read ≡ None
        → 16777216 - reader.new.given < 16777216 - reader.old.given) }
    ensures cause { IfErr result
        (λ fault. fault ≡ SourceFailed → Rose (I.seen input.old).faults (I.seen input.new).faults) }
    ensures later { (I.seen input.old).faults ≤ (I.seen input.new).faults }
    ensures keeps { I.keeps false input.old input.new }
    ensures kept { IfOk result (λ read. refusal_read read ≡ None → I.keeps true input.old input.new) }
{
    match reader.next_line(input, line, MAX_LINE, MAX_SCRIPT) {
        Ok(true) => match read_line(alloc, reader.lines(), line.as_slice()) {
            Ok(said) => Ok(Some(said)),
            Err(_) => Err(ScriptFault::Memory),
        },
        Ok(false) => Ok(None),
        Err(LineFault::Source) => Err(ScriptFault::Source),
        Err(LineFault::Long(number)) => refused_at(alloc, Cause::LongLine(number)),
        Err(LineFault::TooLarge) => refused_at(alloc, Cause::TooLarge),
    }
}

/// The refusal of a line that was not read.
fn refused_at(alloc: Global, cause: Cause) -> Result<Option<ScriptLineRead>, ScriptFault>
    ensures { MatchResult result (λ read. read ≡ Some (Faulty (script_refusal cause))) (λ fault. fault ≡ NoMemory) }
{
    match refused_script(alloc, cause) {
        Ok(read) => Ok(Some(read)),
        Err(_) => Err(ScriptFault::Memory),
    }
}
