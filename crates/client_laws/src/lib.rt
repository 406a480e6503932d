//! Laws of the client of rquotad and the server of this repository together. Nothing runs them: their contracts are the
//! laws.
//!
//! The one promise: what the client prints of a path with a reply is what the server replied to the call for this path,
//! whichever datagrams are lost, late, doubled or out of order.
#![tactic(auto)]

ghost use Rattle.std.specs.Prelude.{◌≡◌, ◌≤◌, ℕ, IsTrue, List, Ok};
ghost use Rattle.network.specs.Events.{PeerSeen};
ghost use Rattle.option_words.specs.Items.{texts_of};
ghost use Rattle.rquota_serve.specs.ExportedValues.{ExportedValues};
ghost use Rattle.quota_client.specs.Paths.{PathAsked};
ghost use Rattle.quota_client.specs.Run.{AsksPaths, asking_of};
ghost use Rattle.quota_client.specs.Words.{Asked, asked_of};
ghost use Rattle.client_laws.specs.Served.{HasRepliesOf, PrintsRepliesOf};

use outside::Sink;
use quota_client::{Peer, run_client};

/// Each path that was asked for and has a reply has one to its own call, where the datagrams come from an `rquotad`,
/// whatever it exports.
pub fn each_reply_of_rquotad_is_one_to_its_own_call()
    ensures { (exported : ExportedValues) (asked : Asked) (first : ℕ) (done : List PathAsked) (old new : PeerSeen)
        → AsksPaths asked first done old new → HasRepliesOf exported asked first done }
{}

/// Runs the client, and answers its status. Where that is 0 or 1, each path was asked for by its own call, and where
/// also the datagrams that were taken come from an `rquotad`, what was printed of a path with a reply is what that
/// server replied to the call for this path.
pub fn ask_rquotad<P: Peer, O: Sink, E: Sink>(
    words: &[String],
    peer: &mut P,
    out: &mut O,
    err: &mut E,
    xid: u32,
) -> u8
    ensures { (exported : ExportedValues) (asked : Asked) → asked_of (texts_of words.now) ≡ Ok asked
        → IsTrue P.tells → IsTrue O.tells → result ≤ 1
        → PrintsRepliesOf exported asked xid (asking_of (P.seen peer.old) (O.seen out.old))
        (asking_of (P.seen peer.new) (O.seen out.new)) result }
{
    run_client(words, peer, out, err, xid)
}
