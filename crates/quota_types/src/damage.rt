ghost use Rattle.std.specs.Prelude.{◌≡◌};
ghost use Rattle.quota_types.specs.Damage.{damage_name, names_identifier};

/// What is wrong with a damaged quota file.
#[derive(Clone, Copy, Debug, PartialEq, Eq)]
pub enum DamageKind {
    /// The file is shorter than its number of blocks.
    Short,
    /// A tree block has a reference past the last block.
    RefOut,
    /// A block has two roles, or one role twice.
    TwoRoles,
    /// A block has no role.
    NoRole,
    /// A tree block below the root has no reference.
    EmptyTree,
    /// A head or a link of a list leads past the last block.
    ChainOut,
    /// A list returns to one of its blocks.
    ChainLoop,
    /// The entry list has a block that has no place there.
    ForeignInChain,
    /// A data block with an unused entry is not in the entry list.
    MissingInChain,
    /// A block of the entry list does not name the block before it, or 0 where it is the first.
    BadPrev,
    /// A data block's stored number is not the number of its used entries.
    BadCount,
    /// An identifier's data block has no entry of it.
    MissingEntry,
    /// A data block has an entry whose identifier does not lead to it.
    StrayEntry,
    /// A data block has two entries of one identifier.
    DoubleEntry,
    /// A flat file ends inside a record.
    PartialRecord,
}

impl DamageKind {
    /// Its name, as error lines print it.
    pub fn name(self) -> &'static str
        ensures { result.now ≡ damage_name self }
    {
        match self {
            DamageKind::Short => "Short",
            DamageKind::RefOut => "RefOut",
            DamageKind::TwoRoles => "TwoRoles",
            DamageKind::NoRole => "NoRole",
            DamageKind::EmptyTree => "EmptyTree",
            DamageKind::ChainOut => "ChainOut",
            DamageKind::ChainLoop => "ChainLoop",
            DamageKind::ForeignInChain => "ForeignInChain",
            DamageKind::MissingInChain => "MissingInChain",
            DamageKind::BadPrev => "BadPrev",
            DamageKind::BadCount => "BadCount",
            DamageKind::MissingEntry => "MissingEntry",
            DamageKind::StrayEntry => "StrayEntry",
            DamageKind::DoubleEntry => "DoubleEntry",
            DamageKind::PartialRecord => "PartialRecord",
        }
    }

    /// Whether the damage is about one identifier.
    pub fn names_identifier(self) -> bool
        ensures { result ≡ names_identifier self }
    {
        matches!(
            self,
            DamageKind::MissingEntry | DamageKind::StrayEntry | DamageKind::DoubleEntry
        )
    }
}

/// One thing that is wrong with a quota file, and where.
#[derive(Clone, Copy, Debug, PartialEq, Eq)]
pub struct Damage {
    /// What is wrong.
    pub kind: DamageKind,
    /// The block, or the record where the kind is `PartialRecord`.
    pub block: u32,
    /// The identifier; 0 for the kinds that name none.
    pub id: u32,
}

/// The damage of a block, of a kind that names no identifier.
pub fn damage_at(kind: DamageKind, block: u32) -> Damage
    ensures { result ≡ record { kind = kind; block = block; id = 0 } }
{
    Damage { kind, block, id: 0 }
}
