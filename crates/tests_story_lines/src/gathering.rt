use std::alloc::Global;
use tests_story_stage::{
    Checked, Gather, NamedBytes, Stage, Wrong, find, found, holds_if, number, set, unmet,
};

/// Carries out a line that gathers bytes.
///
/// # Errors
///
/// The line does not hold, or there was not enough memory.
pub fn gather(stage: &mut Stage, what: Gather, rest: &str) -> Checked {
    match what {
        Gather::Line => add_text(stage, rest, b"\n"),
        Gather::Raw => add_text(stage, rest, b""),
        Gather::Hex => add_hex(stage, rest),
        Gather::Filled => add_filled(stage, rest),
        Gather::Record => add_record(stage, rest),
        Gather::Put => put_numbers(stage, rest),
        Gather::Kept => add_kept(stage, rest),
        Gather::Keep => keep(stage, rest),
    }
}

fn add(stage: &mut Stage, bytes: &[u8]) -> Checked {
    Ok(stage.gathered.extend_from_slice(bytes)?)
}

fn add_text(stage: &mut Stage, text: &str, end: &[u8]) -> Checked {
    add(stage, text.as_bytes())?;
    add(stage, end)
}

/// The value of a hexadecimal digit.
fn digit(byte: u8) -> Option<u8> {
    match byte {
        b'0'..=b'9' => Some(byte - b'0'),
        b'a'..=b'f' => Some(byte - b'a' + 10),
        _ => None,
    }
}

fn add_hex(stage: &mut Stage, rest: &str) -> Checked {
    let mut high = None;
    for byte in rest.bytes() {
        if byte == b' ' {
            continue;
        }
        let Some(low) = digit(byte) else {
            return unmet(stage.alloc, "a digit is misspelt");
        };
        match high {
            None => high = Some(low),
            Some(first) => {
                stage
                    .gathered
                    .push(first % 16 * 16 + low % 16)
                    .map_err(|_| Wrong::Memory)?;
                high = None;
            }
        }
    }
    match high {
        None => Ok(()),
        Some(_) => unmet(stage.alloc, "a digit is missing"),
    }
}

/// The number of a word of digits that counts bytes, of which a story has few.
fn count(alloc: Global, word: &str) -> Result<usize, Wrong> {
    let number = number(alloc, word)?;
    if number > 1 << 26 {
        return unmet(alloc, "these are too many bytes for a story");
    }
    Ok(number as usize)
}

fn add_filled(stage: &mut Stage, rest: &str) -> Checked {
    let (byte, times) = rest.split_once(' ').unwrap_or((rest, ""));
    let Ok(byte) = byte.parse::<u8>() else {
        return unmet(stage.alloc, "a byte is misspelt");
    };
    let more = count(stage.alloc, times)?;
    let all = stage.gathered.len().saturating_add(more);
    Ok(stage.gathered.resize(all, byte)?)
}

/// The fields of a record of a flat file in their order, and how many bytes each has.
const FIELDS: &[(&str, usize)] = &[
    ("bhard", 4),
    ("bsoft", 4),
    ("blocks", 4),
    ("ihard", 4),
    ("isoft", 4),
    ("inodes", 4),
    ("btime", 8),
    ("itime", 8),
];

/// The word behind another one.
fn word_behind<'a>(text: &'a str, wanted: &str) -> Option<&'a str> {
    let mut is_next = false;
    for word in text.split(' ') {
        if is_next {
            return Some(word);
        }
        is_next = word == wanted;
    }
    None
}

/// Adds a record of a flat file of fields with their numbers; those that are not named are 0.
fn add_record(stage: &mut Stage, rest: &str) -> Checked {
    let mut named = 0usize;
    for (field, width) in FIELDS {
        let word = word_behind(rest, field);
        let bytes = number(stage.alloc, word.unwrap_or("0"))?.to_le_bytes();
        add(stage, bytes.get(..*width).unwrap_or(b""))?;
        named = named.saturating_add(if word.is_some() { 2 } else { 0 });
    }
    let words = rest.split(' ').filter(|word| !word.is_empty()).count();
    holds_if(stage.alloc, words == named, "a field is misspelt")
}

/// Writes the four lowest bytes of a number over those from a place on, and answers whether they were there.
fn overwrite(bytes: &mut [u8], at: usize, number: u64) -> bool {
    let mut place = at;
    for byte in number.to_le_bytes().iter().take(4) {
        let Some(to) = bytes.get_mut(place) else {
            return false;
        };
        *to = *byte;
        place = place.saturating_add(1);
    }
    true
}

/// Writes numbers over the gathered bytes from a place on, or behind them.
fn put_numbers(stage: &mut Stage, rest: &str) -> Checked {
    let (place, numbers) = rest.split_once(' ').unwrap_or((rest, ""));
    let is_end = place == "end";
    let mut at = if is_end {
        stage.gathered.len()
    } else {
        count(stage.alloc, place)?
    };
    for word in numbers.split(' ') {
        let number = number(stage.alloc, word)?;
        if is_end {
            add(stage, &[0; 4])?;
        }
        if !overwrite(&mut stage.gathered, at, number) {
            return unmet(stage.alloc, "there are no bytes at this place");
        }
        at = at.saturating_add(4);
    }
    Ok(())
}

/// The bytes that were kept under a name, or else those that a file of this name has.
fn kept_or_file<'a>(
    alloc: Global,
    kept: &'a [NamedBytes],
    files: &'a [NamedBytes],
    name: &str,
) -> Result<&'a [u8], Wrong> {
    match find(kept, name) {
        Some(bytes) => Ok(bytes),
        None => found(alloc, files, name),
    }
}

/// Adds the bytes that were kept under a name, or else those that a file of this name has now, as often as a number
/// behind the name says, or once. Where there is no name, it adds none.
pub(crate) fn add_kept(stage: &mut Stage, rest: &str) -> Checked {
    if rest.is_empty() {
        return Ok(());
    }
    let (name, times) = rest.split_once(' ').unwrap_or((rest, "1"));
    let times = count(stage.alloc, times)?;
    let bytes = kept_or_file(stage.alloc, &stage.kept, &stage.files, name)?;
    for _ in 0..times {
        stage.gathered.extend_from_slice(bytes)?;
    }
    Ok(())
}

/// The word at the front of the rest of a line. What was kept under the name behind it, if there is one, is added.
pub(crate) fn name_in<'a>(stage: &mut Stage, rest: &'a str) -> Result<&'a str, Wrong> {
    let (name, kept) = rest.split_once(' ').unwrap_or((rest, ""));
    add_kept(stage, kept)?;
    Ok(name)
}

fn keep(stage: &mut Stage, rest: &str) -> Checked {
    let bytes = stage.take();
    set(stage.alloc, &mut stage.kept, rest, bytes)
}
