ghost use Rattle.std.specs.Prelude.{◌≡◌};
ghost use Rattle.run_steps.specs.InputLine.{is_comment, says_nothing};

use input_text::has_no_word;

/// Whether a line of an input is passed over: it is a comment, or has no words. A comment need not be UTF-8.
pub fn says_nothing(line: &[u8]) -> bool
    ensures { result ≡ says_nothing line.now }
{
    is_comment(line) || has_no_word(line)
}

/// Whether a line is a comment.
fn is_comment(line: &[u8]) -> bool
    ensures { result ≡ is_comment line.now }
{
    match line.first() {
        Some(byte) => *byte == b'#',
        None => false,
    }
}
