//! Laws of records.

ghost use Rattle.std.specs.Prelude.{List, ℕ};
ghost use Rattle.rpc_marks.specs.Marked.{ReadsWhatIsSent};

/// A record that is sent, in whatever fragments, is read again.
pub fn what_is_sent_is_read()
    ensures { (bodies : List (List ℕ)) (last behind : List ℕ) → ReadsWhatIsSent bodies last behind }
{}
