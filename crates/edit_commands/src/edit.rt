use quota_types::Grace;
use refusals::Word;
use set_edit::{Limits, TimeWord};

/// The words that ask for an edit of a file.
#[derive(Debug, Drop)]
pub enum EditWords {
    /// Four limits of an identifier.
    Limits {
        /// The word for the identifier.
        name: Word,
        /// The words for the limits: the soft and the hard one of blocks, then those of inodes.
        limits: [Word; 4],
    },
    /// The limits of one identifier for another one.
    Copy {
        /// The word for the identifier whose limits are copied.
        proto: Word,
        /// The word for the identifier that gets them.
        name: Word,
    },
    /// The two grace periods of the file.
    Grace {
        /// The word for the seconds of blocks.
        block: Word,
        /// The word for the seconds of inodes.
        inode: Word,
    },
    /// What is left of the grace periods of an identifier.
    Times {
        /// The word for the identifier.
        name: Word,
        /// The word for the time of blocks.
        block: Word,
        /// The word for the time of inodes.
        inode: Word,
    },
}

/// An edit of a file.
#[derive(Clone, Copy, Debug, PartialEq, Eq)]
pub enum FileEdit {
    /// Four limits of an identifier.
    Limits {
        /// The identifier.
        id: u32,
        /// Its limits.
        limits: Limits,
    },
    /// The limits of one identifier for another one.
    Copy {
        /// The identifier whose limits are copied.
        from: u32,
        /// The identifier that gets them.
        to: u32,
    },
    /// The two grace periods of the file.
    Grace {
        /// The periods, in seconds.
        grace: Grace,
    },
    /// What is left of the grace periods of an identifier.
    Times {
        /// The identifier.
        id: u32,
        /// The time of blocks.
        block: TimeWord,
        /// The time of inodes.
        inode: TimeWord,
    },
}
