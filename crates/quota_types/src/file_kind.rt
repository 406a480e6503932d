ghost use Rattle.std.specs.Prelude.{◌≡◌};
ghost use Rattle.quota_types.specs.Format.{is_flat, record_size};
ghost use Rattle.quota_types.specs.Kind.{kind_number, kind_numbered};

/// Whose usage a quota file limits.
#[derive(Clone, Copy, Debug, PartialEq, Eq)]
pub enum Kind {
    /// Users, by their uid.
    User,
    /// Groups, by their gid.
    Group,
    /// Projects, by their number.
    Project,
}

impl Kind {
    /// The number of the kind, which is that of the kernel.
    pub fn number(self) -> u32
        ensures { result ≡ kind_number self }
    {
        match self {
            Kind::User => 0,
            Kind::Group => 1,
            Kind::Project => 2,
        }
    }

    /// The kind with this number, where there is one.
    pub fn numbered(number: u32) -> Option<Kind>
        ensures { result ≡ kind_numbered number }
    {
        match number {
            0 => Some(Kind::User),
            1 => Some(Kind::Group),
            2 => Some(Kind::Project),
            _ => None,
        }
    }
}

/// The format of a quota file, as the Linux quota tools name them, but for vfsold32, which is their vfsold on 32-bit
/// x86.
#[derive(Clone, Copy, Debug, PartialEq, Eq)]
pub enum Format {
    /// vfsold: a flat table of records of 40 bytes, indexed by identifier, with timers of 64 bits.
    V1,
    /// vfsold32: a flat table of records of 32 bytes, indexed by identifier, with timers of 32 bits.
    V1R32,
    /// vfsv0: a tree with fields of 32 bits.
    V2R0,
    /// vfsv1: a tree with fields of 64 bits.
    V2R1,
}

impl Format {
    /// Whether a file of the format is a flat table of records, and no tree of blocks.
    pub fn is_flat(self) -> bool
        ensures { result ≡ is_flat self }
    {
        match self {
            Format::V1 | Format::V1R32 => true,
            Format::V2R0 | Format::V2R1 => false,
        }
    }

    /// The bytes that a file of the format has for the record of one identifier.
    pub fn record_size(self) -> usize
        ensures { result ≡ record_size self }
    {
        match self {
            Format::V1 => 40,
            Format::V1R32 => 32,
            Format::V2R0 => 48,
            Format::V2R1 => 72,
        }
    }
}
