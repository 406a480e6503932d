ghost use Rattle.std.specs.Prelude.{◌<◌, IfOk, IsTrue, OnOk, string_bytes};
ghost use Rattle.std.specs.List.{list_all};
ghost use Rattle.error_lines.specs.Shown.{is_printed};

use std::alloc::{AllocError, Global};

/// A text as it may be shown on a terminal: control bytes, those outside of ASCII and the backslash are escaped, and
/// behind so many bytes of the text stand three dots where it has more.
///
/// # Errors
///
/// There is not enough memory.
pub fn shown(alloc: Global, text: &[u8], most: usize) -> Result<String, AllocError>
    ensures printed { IfOk result (λ shown. IsTrue (list_all is_printed (string_bytes shown))) }
{
    let mut shown = String::new(alloc);
    let front = text.get(..most).unwrap_or(text);
    for byte in front {
        push_shown(&mut shown, *byte)?;
    }
    if text.len() > most {
        shown.push_str("...")?;
    }
    Ok(shown)
}

/// Puts a byte behind a text, escaped where it is not shown as itself.
fn push_shown(shown: &mut String, byte: u8) -> Result<(), AllocError>
    ensures printed { OnOk result (IsTrue (list_all is_printed (string_bytes shown.old))
        → IsTrue (list_all is_printed (string_bytes shown.new))) }
{
    match byte {
        b'\\' => shown.push_str("\\\\"),
        b'\t' => shown.push_str("\\t"),
        b'\r' => shown.push_str("\\r"),
        b'\n' => shown.push_str("\\n"),
        32..=126 => shown.push(char::from(byte)),
        _ => {
            shown.push_str("\\x")?;
            push_digit(shown, byte / 16)?;
            push_digit(shown, byte % 16)
        }
    }
}

/// Puts a digit of a hexadecimal number behind a text.
fn push_digit(shown: &mut String, digit: u8) -> Result<(), AllocError>
    requires { digit < 16 }
    ensures printed { OnOk result (IsTrue (list_all is_printed (string_bytes shown.old))
        → IsTrue (list_all is_printed (string_bytes shown.new))) }
{
    if digit < 10 {
        shown.push(char::from(b'0' + digit))
    } else {
        shown.push(char::from(b'a' + (digit - 10)))
    }
}
