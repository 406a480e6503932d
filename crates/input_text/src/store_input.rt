ghost use Rattle.std.specs.Prelude.{◌≡◌, ◌≤◌, ◌++◌, ◌⊎◌, [], length, take, min, is_ok, IsTrue, IfOk, OnErr};
ghost use Rattle.outside.specs.Count.{Rose};

use crate::StoreSource;
use outside::{Source, SourceFault, Store};

/// The file of a source with the store that it is in, as a `Source`. It is made for one call.
#[derive(Drop)]
pub struct StoreInput<'a, S: Store> {
    /// Which file is read, and from where on.
    pub source: &'a mut StoreSource,
    /// The store that has the file.
    pub store: &'a mut S,
}

impl<S: Store> Source for StoreInput<'_, S> {
    ghost use Rattle.input_text.specs.StoreInput.{KeepsInput, store_input_seen};
    ghost use Rattle.input_text.specs.InputLaws.{keeps_input_any, keeps_input_itself, keeps_input_on};

    ghost tells = { S.tells };

    ghost seen = { store_input_seen S.seen };

    ghost keeps = { KeepsInput S.tells S.seen S.commits };

    ghost keeps_itself = { keeps_input_itself S.tells S.seen S.commits S.commits_nothing };

    ghost keeps_on = { keeps_input_on S.tells S.seen S.commits S.commits_on };

    ghost keeps_any = { keeps_input_any S.tells S.seen S.commits };

    ghost keeps_behind = { λ _ _ _ kept. kept.behind };

    /// Reads at most 1,024 bytes in a call.
    fn read(&mut self, buf: &mut [u8]) -> Result<usize, SourceFault>
        ensures asks { IfOk result (λ count. IsTrue S.tells → count
            ≡ min (min (length buf.old) 1024) (length (store_input_seen S.seen self.old).left)) }
        ensures fits { IfOk result (λ count. count ≤ length buf.new) }
        ensures taken { IfOk result (λ count. IsTrue S.tells → (store_input_seen S.seen self.old).left
            ≡ take count buf.new ++ (store_input_seen S.seen self.new).left) }
        ensures end { IfOk result (λ count. IsTrue S.tells → count ≡ 0
            → (length buf.old ≡ 0) ⊎ ((store_input_seen S.seen self.old).left ≡ [])) }
        ensures fault { OnErr result (IsTrue S.tells
            → (store_input_seen S.seen self.new).left ≡ (store_input_seen S.seen self.old).left) }
        ensures cause { OnErr result (Rose (store_input_seen S.seen self.old).faults
            (store_input_seen S.seen self.new).faults) }
        ensures later { (store_input_seen S.seen self.old).faults ≤ (store_input_seen S.seen self.new).faults }
        ensures keeps { KeepsInput S.tells S.seen S.commits (is_ok result) self.old self.new }
    {
        let most = buf.len().min(1024);
        match self.source.read(self.store, &mut buf[..most]) {
            Ok(count) => Ok(count),
            Err(_) => Err(SourceFault),
        }
    }
}
