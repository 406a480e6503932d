use arrayvec::ArrayVec;

/// The way of an identifier down the tree of a file, as far as it goes.
#[derive(Drop)]
pub struct Path {
    /// The blocks to which the first 0, 1, 2, 3 and 4 digits lead, as far as they do: the root first, and the data
    /// block fifth.
    pub found: ArrayVec<u32, 5>,
}

impl Path {
    ghost use Rattle.std.specs.Prelude.{◌≡◌, slice_get};

    /// The data block of the identifier, where the way goes that far.
    pub fn leaf(&self) -> Option<u32>
        ensures { result ≡ slice_get self.now.found.items 4 }
    {
        self.found.as_slice().get(4).copied()
    }
}
