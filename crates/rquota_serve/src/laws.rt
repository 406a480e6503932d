//! Laws of what is replied.

ghost use Rattle.std.specs.Prelude.{◌≡◌, ◌<◌, ◌^◌, ℕ, List, Some};
ghost use Rattle.rquota_xdr.specs.Fields.{xid_of};
ghost use Rattle.rquota_xdr.specs.Reply.{FitsUnits, reply_xid};
ghost use Rattle.rquota_xdr.specs.declared.reply.Reply.{Reply};
ghost use Rattle.rquota_serve.specs.ExportedValues.{ExportedValues};
ghost use Rattle.rquota_serve.specs.Reply.{reply_of};

/// A reply has the xid of its call, whatever is exported, and where that is a number of 32 bits each unit of the reply
/// is.
pub fn a_reply_is_known_by_its_call()
    ensures xid { (exported : ExportedValues) (datagram : List ℕ) (now : ℕ) (reply : Reply)
        → reply_of exported datagram now ≡ Some reply → reply_xid reply ≡ xid_of datagram }
    ensures fits { (exported : ExportedValues) (datagram : List ℕ) (now : ℕ) (reply : Reply) → xid_of datagram < 2 ^ 32
        → reply_of exported datagram now ≡ Some reply → FitsUnits reply }
{}
