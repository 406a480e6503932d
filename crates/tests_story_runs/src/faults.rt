//! The error lines of faults.

use tests_story_stage::Object;

/// The line of a fault of an object.
pub(crate) fn fault_line(object: Object) -> &'static [u8] {
    match object {
        Object::Store => b"quota: store fault\n",
        Object::Input => b"quota: input fault\n",
        Object::Output | Object::Error => b"quota: output fault\n",
        Object::Link => b"quota: link fault\n",
    }
}

/// The last line of a text, with its newline.
pub(crate) fn last_line(text: &[u8]) -> &[u8] {
    let mut last = text;
    for line in text.split_inclusive(|byte| *byte == b'\n') {
        last = line;
    }
    last
}

/// Whether a line is that of a fault, which may have been met in a line of a script.
pub(crate) fn is_fault_line(said: &[u8], fault: &[u8]) -> bool {
    let Some(behind) = said.strip_prefix(b"quota: line ") else {
        return said == fault;
    };
    let Some(colon) = behind.iter().position(|byte| *byte == b':') else {
        return false;
    };
    let (number, text) = behind.split_at(colon);
    let is_number = !number.is_empty() && number.iter().all(|byte| byte.is_ascii_digit());
    is_number && text.strip_prefix(b": ") == fault.strip_prefix(b"quota: ")
}
