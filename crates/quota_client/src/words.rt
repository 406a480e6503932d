ghost use Rattle.std.specs.Prelude.{◌≡◌, ◌≤◌, not, length, position, string_bytes, None, Some, Ok, Err, IfOk};
ghost use Rattle.std.specs.Prelude.{MatchResult};
ghost use Rattle.std.specs.List.{AllPass};
ghost use Rattle.refusals.specs.declared.cause.UsageKind.TheVariants.{WrongOperands};
ghost use Rattle.option_words.specs.Fault.{fault};
ghost use Rattle.option_words.specs.Items.{texts_of};
ghost use Rattle.option_words.specs.Values.{number_within};
ghost use Rattle.quota_client.specs.Words.{asked_of, client_of, is_path, mode_of};

use crate::client::Client;
use crate::mode::Mode;
use option_words::{Fault, all_graphic, checked, is_export_path, number_within};
use refusals::UsageKind;

/// The most paths.
const MOST_PATHS: usize = 16;

/// The number of the first word that is a path.
const FIRST_PATH: usize = 4;

/// Reads the words of a client: MODE PORT UID GID and 1 to 16 paths.
///
/// # Errors
///
/// The number of words is another one, or the first word that is not of its form or range.
pub(crate) fn read_words(words: &[String]) -> Result<(Client, &[String]), Fault>
    ensures asked { MatchResult result
        (λ read. asked_of (texts_of words.now) ≡ Ok (record { client = read.0; paths = texts_of read.1.now }))
        (λ met. asked_of (texts_of words.now) ≡ Err met) }
    ensures few { IfOk result (λ read. length read.1.now ≤ 16) }
    ensures paths { IfOk result (λ read. AllPass is_path (texts_of read.1.now)) }
{
    let [mode, port, uid, gid, paths @ ..] = words else {
        return Err(wrong_number(words));
    };
    if paths.is_empty() || paths.len() > MOST_PATHS {
        return Err(wrong_number(words));
    }
    let client = read_client(mode.as_str(), port.as_str(), uid.as_str(), gid.as_str())?;
    match first_other(paths) {
        None => Ok((client, paths)),
        Some(place) => Err(Fault::at(UsageKind::BadValue, FIRST_PATH + place)),
    }
}

/// The fault of a wrong number of words.
fn wrong_number(words: &[String]) -> Fault
    ensures { result ≡ fault WrongOperands (length words.now) }
{
    Fault::at(UsageKind::WrongOperands, words.len())
}

/// Reads the words in front of the paths.
fn read_client(mode: &str, port: &str, uid: &str, gid: &str) -> Result<Client, Fault>
    ensures { result ≡ client_of mode.now port.now uid.now gid.now }
{
    Ok(Client {
        mode: checked(mode_of(mode), 0)?,
        port: checked(port_of(port), 1)?,
        uid: checked(identifier_of(uid), 2)?,
        gid: checked(identifier_of(gid), 3)?,
    })
}

/// The mode of a word.
fn mode_of(word: &str) -> Option<Mode>
    ensures { result ≡ mode_of word.now }
{
    match word {
        "quota" => Some(Mode::Quota),
        "warn" => Some(Mode::Warn),
        _ => None,
    }
}

/// The port that a word names; a client asks at no port 0.
fn port_of(word: &str) -> Option<u16>
    ensures { result ≡ number_within 1 65535 word.now }
{
    match number_within(1, 65_535, word) {
        Some(port) => Some(port as u16),
        None => None,
    }
}

/// The identifier that a word spells.
fn identifier_of(word: &str) -> Option<u32>
    ensures { result ≡ number_within 0 4294967295 word.now }
{
    match number_within(0, 4_294_967_295, word) {
        Some(id) => Some(id as u32),
        None => None,
    }
}

/// The place of the first word that is no path.
fn first_other(words: &[String]) -> Option<usize>
    ensures { result ≡ position (λ word. not (is_path (string_bytes word))) words.now }
{
    words.iter().position(|word| !is_path(word.as_str()))
}

/// Whether a word is a path: 1 to 1,024 bytes from `!` to `~`.
fn is_path(word: &str) -> bool
    ensures { result ≡ is_path word.now }
{
    is_export_path(word) && all_graphic(word.as_bytes())
}
