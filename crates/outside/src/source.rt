ghost use Rattle.std.specs.Prelude.{◌≡◌, ◌≤◌, ◌++◌, ◌⊎◌, ◌&&◌, Bool, false, true, is_ok, [], length, take, IsTrue};
ghost use Rattle.std.specs.Prelude.{IfOk, OnErr};
ghost use Rattle.outside.specs.Behind.{IsBehind};
ghost use Rattle.outside.specs.Count.{Rose};
ghost use Rattle.outside.specs.Seen.{SourceSeen};

/// A call on a source failed.
#[derive(Clone, Copy, Debug, PartialEq, Eq)]
pub struct SourceFault;

/// Something that bytes are read from, from its beginning to its end, such as standard input.
///
/// Whatever a source tells, a call fails only where its count of faults rose in that call, and a number of bytes that a
/// call answers fits the buffer.
pub trait Source {
    /// Whether sources of this type tell what is left in them.
    ghost tells: { Bool };

    /// The bytes that are left, which count only where the source tells them, and the count of faults.
    ghost seen: { Self → SourceSeen };

    /// What a source keeps along its calls, such as the files of the store that it reads from: `true` where each of
    /// them answered Ok, and `false` whether they did or not.
    ghost keeps: { Bool → Self → Self → Type 0 };

    /// Takes bytes from the front into `buf`, and answers how many: at least one where `buf` has room for one and bytes
    /// are left.
    ///
    /// # Errors
    ///
    /// The source failed. No byte was taken, but `buf` may hold anything.
    fn read(&mut self, buf: &mut [u8]) -> Result<usize, SourceFault>
        ensures fits { IfOk result (λ count. count ≤ length buf.new) }
        ensures taken { IfOk result (λ count. IsTrue tells
            → (seen self.old).left ≡ take count buf.new ++ (seen self.new).left) }
        ensures end { IfOk result (λ count. IsTrue tells → count ≡ 0
            → (length buf.old ≡ 0) ⊎ ((seen self.old).left ≡ [])) }
        ensures fault { OnErr result (IsTrue tells → (seen self.new).left ≡ (seen self.old).left) }
        ensures cause { OnErr result (Rose (seen self.old).faults (seen self.new).faults) }
        ensures later { (seen self.old).faults ≤ (seen self.new).faults }
        ensures keeps { keeps (is_ok result) self.old self.new };

    /// A source keeps along with itself what it keeps along calls that answer Ok.
    ghost keeps_itself: { (source : Self) → keeps true source source };

    /// What is kept along some calls, and then along others, is kept along both in a row; they all answered Ok where
    /// the ones did and the others too.
    ghost keeps_on: { (one two : Bool) (first between last : Self) → keeps one first between → keeps two between last
        → keeps (one && two) first last };

    /// What is kept along calls that all answered Ok, and then along others, is kept as along the others alone.
    ghost keeps_after_ok: { (ok : Bool) (first between last : Self) → keeps true first between → keeps ok between last
        → keeps ok first last } = { λ ok. keeps_on true ok };

    /// What is kept where each call answered Ok is kept whether they did or not.
    ghost keeps_any: { (old new : Self) → keeps true old new → keeps false old new };

    /// Along what is kept, bytes are taken from the front and no others.
    ghost keeps_behind: { (ok : Bool) (old new : Self) → keeps ok old new → IsTrue tells
        → IsBehind (seen old).left (seen new).left };
}
