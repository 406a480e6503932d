ghost use Rattle.std.specs.Prelude.{◌≡◌, ◌+◌, ◌-◌, ◌<◌, ◌≤◌, ◌&&◌, [], true, false, map, is_some, is_ok, IsTrue, IfOk};
ghost use Rattle.std.specs.Prelude.{IfErr, OnOk, Ok, if◌then◌else◌};
ghost use Rattle.std.specs.Str.{bytes_eq};
ghost use Rattle.input_text.specs.LineReading.{line_then};
ghost use Rattle.input_text.specs.Numeral.{number_of};
ghost use Rattle.input_text.specs.Words.{words_eq, words_of};
ghost use Rattle.set_edit.specs.Form.{form_heading, form_title};
ghost use Rattle.set_edit.specs.FormReading.{all_limits, behind_text, form_read, if_good, limits_at, limits_in};
ghost use Rattle.set_edit.specs.FormReading.{line_at, no_more_words};
ghost use Rattle.set_edit.specs.FormFaults.{IsFormFault, IsLinesFault, form_lines};
ghost use Rattle.set_edit.specs.Number.{limit_of};
ghost use Rattle.set_edit.specs.declared.form_reading.FormFault.TheVariants.{Lines as LinesFailed};

use crate::Limits;
use crate::form::{heading, name_front, title_end};
use crate::number::limit_from;
use arrayvec::ArrayVec;
use input_text::{LineFault, LineReader, after_words, has_no_word, has_words, number_in, words};
use outside::Source;
use quota_types::Kind;

/// How many bytes a line of a form has at most.
const MAX_LINE: usize = 1024;

/// How many bytes a form has at most.
const MAX_FORM: u64 = 16_777_216;

/// Why a form gives no limits.
#[derive(Clone, Copy, Debug, PartialEq, Eq)]
pub enum FormFault {
    /// Its lines could not be read.
    Lines(LineFault),
    /// The line of this number, from 1 on, is absent, or is not as it has to be.
    BadForm(u64),
}

impl From<LineFault> for FormFault {
    ghost from_gives = { λ lines fault. fault ≡ LinesFailed lines };

    fn from(lines: LineFault) -> Self {
        FormFault::Lines(lines)
    }
}

/// Reads the limits in a form that `print_form` wrote and that was changed since, up to the end of the source. The
/// words of the title, of the line above the limits and the file's name have to be as they were printed; the usage may
/// be any numbers, which set nothing; and behind the third line no word may stand. It takes no memory of the heap.
///
/// # Errors
///
/// The first line that is absent or is not as it has to be, unless it is longer than 1,024 bytes. Or the source failed;
/// or a line is longer than that; or the form has more than 16,777,216 bytes.
pub fn read_form<I: Source>(
    source: &mut I,
    kind: Kind,
    name: &[u8],
    id: u32,
    file: &str,
) -> Result<Limits, FormFault>
    ensures limits { IfOk result (λ limits. IsTrue I.tells
        → form_read kind name.now id file.now (I.seen source.old).left ≡ Ok limits) }
    ensures ended { OnOk result (IsTrue I.tells → (I.seen source.new).left ≡ []) }
    ensures refused { IfErr result (IsFormFault (I.seen source.old).faults (I.seen source.new).faults I.tells
        (form_read kind name.now id file.now (I.seen source.old).left)) }
    ensures later { (I.seen source.old).faults ≤ (I.seen source.new).faults }
    ensures keeps { I.keeps (is_ok result) source.old source.new }
{
    let mut reader = LineReader::new();
    let mut line = ArrayVec::new();
    read_title(&mut reader, source, &mut line, kind, name, id)?;
    read_heading(&mut reader, source, &mut line)?;
    let limits = read_limits(&mut reader, source, &mut line, file)?;
    read_end(&mut reader, source, &mut line)?;
    Ok(limits)
}

/// Reads the first line.
fn read_title<I: Source>(
    reader: &mut LineReader,
    source: &mut I,
    line: &mut ArrayVec<u8, 4096>,
    kind: Kind,
    name: &[u8],
    id: u32,
) -> Result<(), FormFault>
    requires { reader.old.number ≡ 1 }
    ensures behind { OnOk result (IsTrue I.tells
        → behind_text 1 (form_title kind name.now id) (form_lines reader.old (I.seen source.old).left)
        ≡ Ok (form_lines reader.new (I.seen source.new).left)) }
    ensures refused { IfErr result (IsFormFault (I.seen source.old).faults (I.seen source.new).faults I.tells
        (behind_text 1 (form_title kind name.now id) (form_lines reader.old (I.seen source.old).left))) }
    ensures number { OnOk result (reader.new.number ≡ 2) }
    ensures later { (I.seen source.old).faults ≤ (I.seen source.new).faults }
    ensures keeps { I.keeps (is_ok result) source.old source.new }
{
    take_line(reader, source, line, 1)?;
    checked(is_title(line.as_slice(), kind, name, id), 1)
}

/// Reads the second line.
fn read_heading<I: Source>(
    reader: &mut LineReader,
    source: &mut I,
    line: &mut ArrayVec<u8, 4096>,
) -> Result<(), FormFault>
    requires { reader.old.number ≡ 2 }
    ensures behind { OnOk result (IsTrue I.tells
        → behind_text 2 form_heading (form_lines reader.old (I.seen source.old).left)
        ≡ Ok (form_lines reader.new (I.seen source.new).left)) }
    ensures refused { IfErr result (IsFormFault (I.seen source.old).faults (I.seen source.new).faults I.tells
        (behind_text 2 form_heading (form_lines reader.old (I.seen source.old).left))) }
    ensures number { OnOk result (reader.new.number ≡ 3) }
    ensures later { (I.seen source.old).faults ≤ (I.seen source.new).faults }
    ensures keeps { I.keeps (is_ok result) source.old source.new }
{
    take_line(reader, source, line, 2)?;
    checked(has_words(line.as_slice(), heading()), 2)
}

/// Reads the third line.
fn read_limits<I: Source>(
    reader: &mut LineReader,
    source: &mut I,
    line: &mut ArrayVec<u8, 4096>,
    file: &str,
) -> Result<Limits, FormFault>
    requires { reader.old.number ≡ 3 }
    ensures limits { IfOk result (λ limits. IsTrue I.tells
        → limits_at file.now (form_lines reader.old (I.seen source.old).left)
        ≡ Ok (limits, form_lines reader.new (I.seen source.new).left)) }
    ensures refused { IfErr result (IsFormFault (I.seen source.old).faults (I.seen source.new).faults I.tells
        (limits_at file.now (form_lines reader.old (I.seen source.old).left))) }
    ensures number { OnOk result (reader.new.number ≡ 4) }
    ensures later { (I.seen source.old).faults ≤ (I.seen source.new).faults }
    ensures keeps { I.keeps (is_ok result) source.old source.new }
{
    take_line(reader, source, line, 3)?;
    limits_in(line.as_slice(), file.as_bytes()).ok_or(FormFault::BadForm(3))
}

/// Reads the lines that are left.
fn read_end<I: Source>(
    reader: &mut LineReader,
    source: &mut I,
    line: &mut ArrayVec<u8, 4096>,
) -> Result<(), FormFault>
    ensures end { OnOk result (IsTrue I.tells
        → no_more_words reader.old.number (form_lines reader.old (I.seen source.old).left) ≡ Ok tt) }
    ensures ended { OnOk result (IsTrue I.tells → (I.seen source.new).left ≡ []) }
    ensures refused { IfErr result (IsFormFault (I.seen source.old).faults (I.seen source.new).faults I.tells
        (no_more_words reader.old.number (form_lines reader.old (I.seen source.old).left))) }
    ensures later { (I.seen source.old).faults ≤ (I.seen source.new).faults }
    ensures keeps { I.keeps (is_ok result) source.old source.new }
{
    while next_line(reader, source, line)? {
        if !has_no_word(line.as_slice()) {
            return Err(FormFault::BadForm(reader.lines()));
        }
    }
    Ok(())
}

/// Puts the next line, which has this number and has to be there, in place of what stands in `line`.
fn take_line<I: Source>(
    reader: &mut LineReader,
    source: &mut I,
    line: &mut ArrayVec<u8, 4096>,
    number: u64,
) -> Result<(), FormFault>
    requires { reader.old.number ≡ number }
    ensures line { OnOk result (IsTrue I.tells → line_at number (form_lines reader.old (I.seen source.old).left)
        ≡ Ok (line.new.items, form_lines reader.new (I.seen source.new).left)) }
    ensures refused { IfErr result (IsFormFault (I.seen source.old).faults (I.seen source.new).faults I.tells
        (line_at number (form_lines reader.old (I.seen source.old).left))) }
    ensures number { OnOk result (reader.new.number ≡ number + 1) }
    ensures later { (I.seen source.old).faults ≤ (I.seen source.new).faults }
    ensures keeps { I.keeps (is_ok result) source.old source.new }
{
    if !next_line(reader, source, line)? {
        return Err(FormFault::BadForm(number));
    }
    Ok(())
}

/// Puts the next line, where there is one, in place of what stands in `line`.
fn next_line<I: Source>(
    reader: &mut LineReader,
    source: &mut I,
    line: &mut ArrayVec<u8, 4096>,
) -> Result<bool, LineFault>
    ensures next { IfOk result (λ more. IsTrue I.tells → form_lines reader.old (I.seen source.old).left
        ≡ line_then more line.new.items (form_lines reader.new (I.seen source.new).left)) }
    ensures ended { IfOk result (λ more. more ≡ false → IsTrue I.tells → (I.seen source.new).left ≡ []) }
    ensures number { IfOk result (λ more. reader.new.number ≡ reader.old.number + (if more then 1 else 0)) }
    ensures nearer { IfOk result (λ more. more ≡ true → MAX_FORM - reader.new.given < MAX_FORM - reader.old.given) }
    ensures refused { IfErr result (IsLinesFault (I.seen source.old).faults (I.seen source.new).faults I.tells
        reader.old.number (form_lines reader.old (I.seen source.old).left)) }
    ensures later { (I.seen source.old).faults ≤ (I.seen source.new).faults }
    ensures keeps { I.keeps (is_ok result) source.old source.new }
{
    reader.next_line(source, line, MAX_LINE, MAX_FORM)
}

/// Refuses the line of this number, unless it is as it has to be.
fn checked(good: bool, number: u64) -> Result<(), FormFault>
    ensures { result ≡ if_good good number tt }
{
    if good {
        Ok(())
    } else {
        Err(FormFault::BadForm(number))
    }
}

/// Whether a line has the words of the title, and no others.
fn is_title(line: &[u8], kind: Kind, name: &[u8], id: u32) -> bool
    ensures { result ≡ words_eq (words_of line.now) (words_of (form_title kind name.now id)) }
{
    let Some(rest) = after_words(line, name_front(kind)) else {
        return false;
    };
    let Some(rest) = after_words(rest, name) else {
        return false;
    };
    has_words(rest, title_end(kind, id).as_slice())
}

/// The limits in a line.
fn limits_in(line: &[u8], file: &[u8]) -> Option<Limits>
    ensures { result ≡ limits_in file.now (words_of line.now) }
{
    let words = words::<7>(line)?;
    limits_of(words.as_slice(), file)
}

/// The limits in the words of a line.
fn limits_of(words: &[&[u8]], file: &[u8]) -> Option<Limits>
    ensures { result ≡ limits_in file.now (map (λ word. word.now) words.now) }
{
    let [name, used, bsoft, bhard, inodes, isoft, ihard] = words else {
        return None;
    };
    if !is_usage(name, file, used, inodes) {
        return None;
    }
    four_limits(bsoft, bhard, isoft, ihard)
}

/// Whether a name is that of the file, and two words are numbers.
fn is_usage(name: &[u8], file: &[u8], used: &[u8], inodes: &[u8]) -> bool
    ensures { result ≡ (bytes_eq name.now file.now && is_some (number_of used.now) && is_some (number_of inodes.now)) }
{
    name == file && number_in(used).is_some() && number_in(inodes).is_some()
}

/// The four limits that words spell.
fn four_limits(bsoft: &[u8], bhard: &[u8], isoft: &[u8], ihard: &[u8]) -> Option<Limits>
    ensures { result ≡ all_limits (limit_of true bsoft.now) (limit_of true bhard.now) (limit_of false isoft.now)
        (limit_of false ihard.now) }
{
    Some(Limits {
        bsoft: limit_from(bsoft, true)?,
        bhard: limit_from(bhard, true)?,
        isoft: limit_from(isoft, false)?,
        ihard: limit_from(ihard, false)?,
    })
}
