use command_reasons::{Lines, Program, program_reason, reason_of};
use run_notes::LastText;
use std::alloc::{AllocError, Global};
use std::process::Abort;

/// An error line behind `quota: `, words separated by single spaces, the text that was read, and the reason; empty
/// where there is none.
pub type Row = (&'static str, &'static str, &'static str, &'static str);

/// The text that was read, of the standard input or of any file.
#[derive(Drop)]
pub struct ReadText {
    text: LastText,
}

impl ReadText {
    /// This text.
    pub fn of(read: &str) -> Self {
        let mut text = LastText::new();
        text.push(read.as_bytes());
        ReadText { text }
    }
}

impl Lines for ReadText {
    fn of_input(&self, number: u64) -> Option<&[u8]> {
        self.text.line(number)
    }

    fn of_file(&self, _name: &str, number: u64) -> Option<&[u8]> {
        self.text.line(number)
    }

    fn are_blank_of(&self, _name: Option<&str>) -> bool {
        self.text.last_line().is_empty()
    }
}

/// Words that are separated by single spaces; none of an empty text.
pub fn words_in(alloc: Global, text: &str) -> Result<Vec<String>, AllocError> {
    let mut words = Vec::new(alloc);
    if text.is_empty() {
        return Ok(words);
    }
    for word in text.split(' ') {
        words.push(String::from_str(alloc, word)?)?;
    }
    Ok(words)
}

/// The reason of a row.
fn told(alloc: Global, row: &Row, program: Option<Program>) -> Result<String, AllocError> {
    let (said, words, read, _) = *row;
    let line = format!(in alloc; "quota: {said}")?;
    let words = words_in(alloc, words)?;
    let reason = match program {
        None => {
            let lines = ReadText::of(read);
            reason_of(alloc, line.as_bytes(), words.as_slice(), &lines)?
        }
        Some(program) => program_reason(alloc, program, line.as_bytes(), words.as_slice())?,
    };
    match reason {
        Some(reason) => Ok(reason),
        None => Ok(String::new(alloc)),
    }
}

/// Fails where a row has another reason than the one that is wanted.
pub fn expect_rows(rt: &impl Abort, alloc: Global, rows: &[Row], program: Option<Program>) {
    for row in rows {
        let is = told(alloc, row, program);
        let is_so = matches!(&is, Ok(is) if is.as_str() == row.3);
        assert!(rt; is_so, "{}: {is:?}", row.0);
    }
}
