ghost use Rattle.std.specs.Prelude.{◌≡◌};
ghost use Rattle.quota_types.specs.Field.{field_name, is_of_identifier};

/// A field of a quota file that has a range.
#[derive(Clone, Copy, Debug, PartialEq, Eq)]
pub enum Field {
    /// The block grace period, in seconds.
    BlockGrace,
    /// The inode grace period, in seconds.
    InodeGrace,
    /// The identifier.
    Id,
    /// The hard limit of inodes.
    Ihard,
    /// The soft limit of inodes.
    Isoft,
    /// The inodes in use.
    Inodes,
    /// The hard limit of blocks, in KiB.
    Bhard,
    /// The soft limit of blocks, in KiB.
    Bsoft,
    /// The space in use, in bytes.
    Space,
    /// The end of the block grace period, in seconds since 1970.
    Btime,
    /// The end of the inode grace period, in seconds since 1970.
    Itime,
}

impl Field {
    /// Its name, as error lines print it.
    pub fn name(self) -> &'static str
        ensures { result.now ≡ field_name self }
    {
        match self {
            Field::BlockGrace => "bgrace",
            Field::InodeGrace => "igrace",
            Field::Id => "id",
            Field::Ihard => "ihard",
            Field::Isoft => "isoft",
            Field::Inodes => "inodes",
            Field::Bhard => "bhard",
            Field::Bsoft => "bsoft",
            Field::Space => "space",
            Field::Btime => "btime",
            Field::Itime => "itime",
        }
    }

    /// Whether the field is one of an identifier's record, and none of the whole file.
    pub fn is_of_identifier(self) -> bool
        ensures { result ≡ is_of_identifier self }
    {
        !matches!(self, Field::BlockGrace | Field::InodeGrace)
    }
}

/// A value for which a format has no room.
#[derive(Clone, Copy, Debug, PartialEq, Eq)]
pub struct NoRoom {
    /// The identifier; 0 for the two grace periods.
    pub id: u32,
    /// The field that is out of range.
    pub field: Field,
    /// The value that was wanted. A sum beyond 64 bits stands here as it is.
    pub value: u128,
}
