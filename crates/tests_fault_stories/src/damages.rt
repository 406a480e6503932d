//! Changes of a tree file that damage it, and what commands say of it then.

/// A title, the lines of a story that gather a damaged file, and the damages of which a command names one, as it writes
/// them, parted by bars. Where several hold, any of them may be named.
pub type DamageRow = (&'static str, &'static str, &'static str);

/// Damages of the file of six blocks.
#[rattlefmt::skip]
pub const DAMAGED: &[DamageRow] = &[
    ("no last byte", "use short", "Short at block 5"),
    ("a reference past the last block", "use six\nput 2044 6", "RefOut at block 1"),
    ("the root at the head of the free list",
        "use six\nput 24 1", "TwoRoles at block 1|TwoRoles at block 2|TwoRoles at block 3"),
    ("a block that nothing leads to", "use six\nput 20 7\nfill 0 1024", "NoRole at block 6"),
    ("no leaf", "use six\nput 5024 0", "EmptyTree at block 4|NoRole at block 5|ForeignInChain at block 5"),
    ("the head of the entry list past the last block",
        "use six\nput 28 6", "ChainOut at block 6|MissingInChain at block 5"),
    ("a listed block that is behind itself", "use six\nput 5120 5", "ChainLoop at block 5"),
    ("the root behind a listed block", "use six\nput 5120 1", "ForeignInChain at block 1|ForeignInChain at block 2|\
        ForeignInChain at block 3|BadPrev at block 1|BadPrev at block 2|BadPrev at block 3"),
    ("a block with room that is not listed", "use six\nput 28 0", "MissingInChain at block 5"),
    ("a block before the first one", "use six\nput 5124 1", "BadPrev at block 5"),
    ("a count that is too great", "use six\nput 5128 2", "BadCount at block 5"),
    ("the entry of another identifier",
        "use six\nput 5136 1001", "MissingEntry at block 5 of 1000|StrayEntry at block 5 of 1001"),
    ("a second entry, to which nothing leads",
        "use six\nput 5208 5\nput 5232 1\nput 5128 2", "StrayEntry at block 5 of 5"),
    ("two entries of one identifier",
        "use six\nput 5208 1000\nput 5232 1\nput 5128 2", "DoubleEntry at block 5 of 1000"),
];

/// Commands that open the file, each of which ends at the damage and leaves every file as it was.
pub const COMMANDS: &[&str] = &[
    "repquota -u q",
    "setquota -u 1000 2 8 0 0 q",
    "setquota -u 7 1 1 0 0 q",
    "setquota -p 1000 7 q",
    "setquota -b q",
    "setquota -t 86400 3600 q",
    "setquota -T 1000 3600 unset q",
    "edquota --print 1000 q",
    "quotacheck q",
    "convertquota -f vfsv1,vfsv0 q r",
    "rquotad --calls 1 --port 0 --export /home user q",
];
