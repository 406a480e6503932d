ghost use Rattle.std.specs.Prelude.{◌≡◌, ◌<◌, ◌≤◌, ◌∷◌, [], length, map, not, position, IfSome, MatchOption};
ghost use Rattle.std.specs.List.{position_or_len};
ghost use Rattle.std.specs.Option.{option_map};
ghost use Rattle.input_text.specs.Words.{is_blank, words_behind, words_eq, words_of};

use arrayvec::ArrayVec;

/// Whether a byte separates words: a space or a tab.
fn is_blank(byte: u8) -> bool
    ensures { result ≡ is_blank byte }
{
    byte == b' ' || byte == b'\t'
}

/// The first word of a line and what stands behind it, or `None` where the line has no word.
pub fn next_word(line: &[u8]) -> Option<(&[u8], &[u8])>
    ensures word { MatchOption result (words_of line.now ≡ [])
        (λ found. words_of line.now ≡ found.0.now ∷ words_of found.1.now) }
    ensures shorter { IfSome result (λ found. length found.1.now < length line.now) }
{
    let text = behind_blanks(line)?;
    Some(split_word(text))
}

/// A line from its first word on, or `None` where it has no word.
fn behind_blanks(line: &[u8]) -> Option<&[u8]>
    ensures same { MatchOption result (words_of line.now ≡ []) (λ text. words_of text.now ≡ words_of line.now) }
    ensures word { IfSome result (λ text. 0 < position_or_len is_blank text.now) }
    ensures shorter { IfSome result (λ text. length text.now ≤ length line.now) }
{
    let start = word_start(line)?;
    Some(&line[start..])
}

/// Where the first word begins.
fn word_start(line: &[u8]) -> Option<usize>
    ensures { result ≡ position (λ byte. not (is_blank byte)) line.now }
{
    line.iter().position(|byte| !is_blank(*byte))
}

/// The word that a text begins with, and what stands behind it.
fn split_word(text: &[u8]) -> (&[u8], &[u8])
    requires { 0 < position_or_len is_blank text.now }
    ensures word { words_of text.now ≡ result.0.now ∷ words_of result.1.now }
    ensures shorter { length result.1.now < length text.now }
{
    let end = word_end(text);
    (&text[..end], &text[end..])
}

/// Where the first blank stands, or the end.
fn word_end(text: &[u8]) -> usize
    ensures place { result ≡ position_or_len is_blank text.now }
    ensures within { result ≤ length text.now }
{
    match first_blank(text) {
        Some(end) => end,
        None => text.len(),
    }
}

/// Where the first blank stands.
fn first_blank(text: &[u8]) -> Option<usize>
    ensures { result ≡ position is_blank text.now }
{
    text.iter().position(|byte| is_blank(*byte))
}

/// The words of a line, in order, or `None` where there are more than `N`. It takes no memory of the heap.
pub fn words<const N: usize>(line: &[u8]) -> Option<ArrayVec<&[u8], N>>
    ensures { MatchOption result (N < length (words_of line.now))
        (λ words. map (λ word. word.now) words.items ≡ words_of line.now) }
{
    let mut words = ArrayVec::new();
    let mut rest = line;
    while let Some((word, behind)) = next_word(rest) {
        words.try_push(word).ok()?;
        rest = behind;
    }
    Some(words)
}

/// What stands behind the words of `text` in a line, or `None` where the line does not begin with them.
pub fn after_words<'a>(line: &'a [u8], text: &[u8]) -> Option<&'a [u8]>
    ensures { option_map (λ rest. words_of rest.now) result ≡ words_behind (words_of text.now) (words_of line.now) }
{
    let mut rest = line;
    let mut wanted = text;
    while let Some((front, more)) = next_word(wanted) {
        let (word, behind) = next_word(rest)?;
        if word != front {
            return None;
        }
        rest = behind;
        wanted = more;
    }
    Some(rest)
}

/// Whether a line has the words of `text`, and no others.
#[tactic(auto, using(crate::proofs::WordsLemmas::words_eq_behind, crate::proofs::WordsLemmas::words_eq_none))]
pub fn has_words(line: &[u8], text: &[u8]) -> bool
    ensures { result ≡ words_eq (words_of line.now) (words_of text.now) }
{
    match after_words(line, text) {
        Some(rest) => has_no_word(rest),
        None => false,
    }
}

/// Whether a line has no word.
pub fn has_no_word(line: &[u8]) -> bool
    ensures { result ≡ words_eq (words_of line.now) [] }
{
    match next_word(line) {
        Some(_) => false,
        None => true,
    }
}
