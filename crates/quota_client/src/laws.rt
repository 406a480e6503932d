//! Laws of the exchange of calls for replies.

ghost use Rattle.std.specs.Prelude.{◌≡◌, ℕ, ◌++◌, List, Option};
ghost use Rattle.network.specs.Events.{Event};
ghost use Rattle.rquota_xdr.specs.declared.reply.Reply.{Reply};
ghost use Rattle.quota_client.specs.Exchange.{IsBegun, IsExchange};

/// On the same events an exchange takes the same of them, sends as many calls, and has the same reply.
pub fn an_exchange_has_one_outcome()
    ensures { (xid : ℕ) (taken other behind behind_other : List Event) (calls calls_other : ℕ)
        (reply reply_other : Option Reply)
        → IsExchange xid taken calls reply → IsExchange xid other calls_other reply_other
        → taken ++ behind ≡ other ++ behind_other → (taken ≡ other) × (calls ≡ calls_other) × (reply ≡ reply_other) }
{}

/// What was taken of an exchange that was begun and is not over does not complete one, and neither do the first events
/// of it.
pub fn a_begun_exchange_is_not_complete()
    ensures { (xid : ℕ) (taken other behind : List Event) (calls calls_other : ℕ) (reply : Option Reply)
        → IsBegun xid taken calls → IsExchange xid other calls_other reply → taken ≡ other ++ behind → ⊥ }
{}
