ghost use Rattle.std.specs.Prelude.{◌≡◌, ◌≤◌, ◌↔◌, ◌⊎◌, length, IsErr, Ok};
ghost use Rattle.std.specs.List.{AllPass};
ghost use Rattle.refusals.specs.Status.{status_of};
ghost use Rattle.option_words.specs.Items.{texts_of};
ghost use Rattle.quota_client.specs.Run.{IsLater, Runs, Says, seen_of, tells_of};
ghost use Rattle.quota_client.specs.Words.{asked_of, is_path};

use crate::asking::ask_paths;
use crate::client::Client;
use crate::fault::ClientFault;
use crate::words::read_words;
use network::Peer;
use outside::Sink;
use refusals::{Cause, Place, write_cause};

/// Asks a server for the limits of a user, path by path, and answers the status with which the program ends: 0 each
/// path has a quota or has none, 1 some path has another answer, 2 the words are outside the grammar, 4 a fault of the
/// peer or of the output. With status 2 or 4 one error line goes to `err`.
///
/// `words` are the words of the command line without the program's own name: MODE PORT UID GID and 1 to 16 paths. MODE
/// is `quota` or `warn`, PORT from 1 to 65,535, UID and GID are below 2^32, each number of 1 to 20 decimal digits, and
/// a path has 1 to 1,024 bytes from `!` to `~`. Path k, counted from 0, is asked for with `xid` + k modulo 2^32,
/// whatever `xid` is. No memory of the heap is taken.
pub fn run_client<P: Peer, O: Sink, E: Sink>(
    words: &[String],
    peer: &mut P,
    out: &mut O,
    err: &mut E,
    xid: u32,
) -> u8
    // What was asked for and printed, by which status the run ends, and what was said of a fault.
    ensures runs { Runs (asked_of (texts_of words.now)) xid (tells_of P.tells O.tells E.tells)
        (seen_of (P.seen peer.old) (O.seen out.old) (E.seen err.old))
        (seen_of (P.seen peer.new) (O.seen out.new) (E.seen err.new)) result }
    // Status 2 comes exactly where the words are outside the grammar, and no call on the peer or the output was made
    // then.
    ensures usage { (result ≡ 2) ↔ IsErr (asked_of (texts_of words.now)) }
    ensures peer { result ≡ 2 → peer.new ≡ peer.old }
    ensures out { result ≡ 2 → out.new ≡ out.old }
    // With status 0 or 1 no call on the error output was made.
    ensures err { result ≤ 1 → err.new ≡ err.old }
    ensures later { IsLater (seen_of (P.seen peer.old) (O.seen out.old) (E.seen err.old))
        (seen_of (P.seen peer.new) (O.seen out.new) (E.seen err.new)) }
{
    match read_words(words) {
        Ok((client, paths)) => run_paths(&client, paths, peer, out, err, xid),
        Err(fault) => say(
            err,
            Cause::Usage {
                kind: fault.kind,
                word: fault.word,
            },
        ),
    }
}

/// Asks for paths, and says what failed, if anything did.
fn run_paths<P: Peer, O: Sink, E: Sink>(
    client: &Client,
    paths: &[String],
    peer: &mut P,
    out: &mut O,
    err: &mut E,
    xid: u32,
) -> u8
    requires few { length paths.now ≤ 16 }
    requires paths { AllPass is_path (texts_of paths.now) }
    ensures runs { Runs (Ok (record { client = client.now; paths = texts_of paths.now })) xid
        (tells_of P.tells O.tells E.tells)
        (seen_of (P.seen peer.old) (O.seen out.old) (E.seen err.old))
        (seen_of (P.seen peer.new) (O.seen out.new) (E.seen err.new)) result }
    ensures status { (result ≤ 1) ⊎ (result ≡ 4) }
    ensures err { result ≤ 1 → err.new ≡ err.old }
    ensures later { IsLater (seen_of (P.seen peer.old) (O.seen out.old) (E.seen err.old))
        (seen_of (P.seen peer.new) (O.seen out.new) (E.seen err.new)) }
{
    match ask_paths(client, paths, peer, out, xid) {
        Ok(true) => 0,
        Ok(false) => 1,
        Err(ClientFault::Asking) => say(err, Cause::LinkFault),
        Err(ClientFault::Printing) => say(err, Cause::SinkFault),
    }
}

/// Writes the error line of a cause that is about no file and no word, and answers its status, which stays where the
/// error output fails.
fn say<E: Sink>(err: &mut E, cause: Cause) -> u8
    ensures status { result ≡ status_of cause }
    ensures line { Says cause E.tells (E.seen err.old) (E.seen err.new) }
    ensures later { (E.seen err.old).faults ≤ (E.seen err.new).faults }
{
    let _ = write_cause(err, Place::nowhere(), cause, b"");
    cause.status()
}
