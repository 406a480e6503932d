//! Laws of the codec.

ghost use Rattle.std.specs.Prelude.{◌≡◌, ℕ, List, Some};
ghost use Rattle.rquota_xdr.specs.Call.{IsAskedWith, call_of};
ghost use Rattle.rquota_xdr.specs.Fields.{xid_of};
ghost use Rattle.rquota_xdr.specs.Question.{Asks, IsQuestion, Question, question_bytes};
ghost use Rattle.rquota_xdr.specs.Reply.{FitsUnits, spelling_of};
ghost use Rattle.rquota_xdr.specs.declared.reply.Reply.{Reply};

use crate::{Reply, read_reply, write_reply};

/// Writes a reply, reads the bytes, and answers what was read, which is the reply. The clause speaks of the answer
/// alone; the clauses `bytes` of `write_reply` and `found` of `read_reply` say what the bytes in between are.
pub fn a_reply_is_read_again(reply: &Reply, out: &mut [u8; 68]) -> Option<Reply>
    ensures { result ≡ Some reply.now }
{
    let len = write_reply(reply, out);
    read_reply(&out[..len])
}

/// Bytes spell one reply at most.
pub fn a_spelling_has_one_meaning()
    ensures { (reply other : Reply) → FitsUnits reply → FitsUnits other
        → spelling_of reply ≡ spelling_of other → reply ≡ other }
{}

/// A call for limits that was written field by field asks for what its fields say.
pub fn a_written_call_is_what_is_asked()
    ensures { (q : Question) → IsQuestion q → Asks (question_bytes q) q }
{}

/// What a datagram asks has its xid, unless it is no call of RPC.
pub fn what_is_asked_has_the_xid_of_the_datagram()
    ensures { (datagram : List ℕ) → IsAskedWith (xid_of datagram) (call_of datagram) }
{}
