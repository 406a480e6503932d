ghost use Rattle.std.specs.Prelude.{◌≡◌, ◌≤◌, length, IsTrue, IfErr, IfOk, OnOk};
ghost use Rattle.std.specs.List.{AllPass};
ghost use Rattle.network.specs.Events.{KeepsStart};
ghost use Rattle.option_words.specs.Items.{texts_of};
ghost use Rattle.quota_client.specs.Run.{asking_of, asking_tells};
ghost use Rattle.quota_client.specs.Steps.{AreLater, PrintsFirst, PrintsPath, StopsAtPath, StopsAtPaths};
ghost use Rattle.quota_client.specs.Words.{is_path};

use crate::client::Client;
use crate::fault::ClientFault;
use crate::line::{is_answered, write_lines};
use crate::{ask, write_call};
use network::Peer;
use outside::Sink;

/// Starts the peer, and then asks for one path after another and prints what is said of each. Answers whether each path
/// was answered. Path k, counted from 0, is asked for with `xid` + k modulo 2^32.
///
/// # Errors
///
/// The peer or the output failed.
pub(crate) fn ask_paths<P: Peer, O: Sink>(
    client: &Client,
    paths: &[String],
    peer: &mut P,
    out: &mut O,
    xid: u32,
) -> Result<bool, ClientFault>
    requires few { length paths.now ≤ 16 }
    requires paths { AllPass is_path (texts_of paths.now) }
    ensures done { IfOk result (λ answered. IsTrue P.tells
        → PrintsFirst (record { client = client.now; paths = texts_of paths.now }) xid (asking_tells P.tells O.tells)
        (asking_of (P.seen peer.old) (O.seen out.old)) (asking_of (P.seen peer.new) (O.seen out.new))
        (length paths.now) answered) }
    ensures steady { OnOk result ((P.seen peer.new).faults ≡ (P.seen peer.old).faults) }
    ensures stopped { IfErr result (StopsAtPaths (record { client = client.now; paths = texts_of paths.now }) xid
        (asking_tells P.tells O.tells)
        (asking_of (P.seen peer.old) (O.seen out.old)) (asking_of (P.seen peer.new) (O.seen out.new))) }
    ensures later { AreLater (asking_of (P.seen peer.old) (O.seen out.old))
        (asking_of (P.seen peer.new) (O.seen out.new)) }
{
    peer.start(client.port)?;
    let mut answered = true;
    for (place, path) in paths.iter().enumerate() {
        let own = xid.wrapping_add(place as u32);
        let is_answered = print_path(client, path.as_str(), peer, out, own)?;
        answered = answered && is_answered;
    }
    Ok(answered)
}

/// Asks for a path with this xid, and prints what is said of it. Answers whether it was answered.
///
/// # Errors
///
/// The peer failed, and nothing was printed; or the output failed, and a part was.
fn print_path<P: Peer, O: Sink>(
    client: &Client,
    path: &str,
    peer: &mut P,
    out: &mut O,
    xid: u32,
) -> Result<bool, ClientFault>
    requires { IsTrue (is_path path.now) }
    ensures done { IfOk result (λ answered. IsTrue P.tells
        → PrintsPath client.now (record { xid = xid; path = path.now }) (asking_tells P.tells O.tells)
        (asking_of (P.seen peer.old) (O.seen out.old)) (asking_of (P.seen peer.new) (O.seen out.new)) answered) }
    ensures steady { OnOk result ((P.seen peer.new).faults ≡ (P.seen peer.old).faults) }
    ensures stopped { IfErr result (StopsAtPath client.now (record { xid = xid; path = path.now })
        (asking_tells P.tells O.tells)
        (asking_of (P.seen peer.old) (O.seen out.old)) (asking_of (P.seen peer.new) (O.seen out.new))) }
    ensures leaves { KeepsStart (P.seen peer.old) (P.seen peer.new) }
    ensures later { AreLater (asking_of (P.seen peer.old) (O.seen out.old))
        (asking_of (P.seen peer.new) (O.seen out.new)) }
{
    let path = path.as_bytes();
    let mut call = [0; 1092];
    let len = write_call(xid, client.uid, client.gid, path, client.uid, &mut call);
    let reply = ask(peer, xid, &call[..len])?;
    write_lines(out, client.mode, path, reply)?;
    Ok(is_answered(&reply))
}
