ghost use Rattle.std.specs.Prelude.{◌≡◌, ◌≤◌, ◌+◌, ◌-◌, ◌^◌, [], length, take, min, IsTrue, IfOk, OnErr, is_ok};
ghost use Rattle.std.specs.String.{string_bytes};
ghost use Rattle.outside.specs.Count.{Rose, counted};
ghost use Rattle.outside.specs.Frame.{OnlyReads};
ghost use Rattle.outside.specs.World.{bytes_from};

use outside::{Store, StoreFault};

/// One file of a store, which is read in pieces from a place on.
#[derive(Debug, Drop)]
pub struct StoreSource {
    /// The name of the file.
    pub name: String,
    /// The place of the next byte, from 0.
    pub at: u64,
}

impl StoreSource {
    /// Reads the bytes of the file from `at` on, as many as `buf` holds or the file has, up to the last place that a
    /// number of 64 bits has, answers how many, and goes on behind them. A file that is not there has none.
    ///
    /// # Errors
    ///
    /// The store failed. Nothing changed, but `buf` may hold anything.
    pub fn read<S: Store>(&mut self, store: &mut S, buf: &mut [u8]) -> Result<usize, StoreFault>
        requires { length buf.old ≤ 1024 }
        ensures fits { IfOk result (λ count. count ≤ length buf.new) }
        ensures bytes { IfOk result (λ count. IsTrue S.tells → take count buf.new
            ≡ bytes_from ((S.seen store.old).files (string_bytes self.old.name)) self.old.at
            (min (length buf.old) (2 ^ 64 - 1 - self.old.at))) }
        ensures count { IfOk result (λ count. IsTrue S.tells → count
            ≡ length (bytes_from ((S.seen store.old).files (string_bytes self.old.name)) self.old.at
            (min (length buf.old) (2 ^ 64 - 1 - self.old.at)))) }
        ensures moved { IfOk result (λ count. self.new.at ≡ self.old.at + count) }
        ensures name { self.new.name ≡ self.old.name }
        ensures fault { OnErr result (self.new.at ≡ self.old.at) }
        ensures cause { OnErr result (Rose (S.seen store.old).faults (S.seen store.new).faults) }
        ensures leaves { OnlyReads (is_ok result) (string_bytes self.old.name) (S.seen store.old) (S.seen store.new) }
        ensures reads { (S.seen store.new).reads ≡ counted (S.seen store.old).reads }
        ensures commits { S.commits [] store.old store.new }
    {
        let places = u64::MAX - self.at;
        let wanted = (buf.len() as u64).min(places) as usize;
        let count = store.read(self.name.as_str(), self.at, &mut buf[..wanted])?;
        self.at += count as u64;
        Ok(count)
    }
}
