/// What a line does, by its verb.
#[derive(Clone, Copy)]
pub enum Verb {
    /// It begins a row.
    Row,
    /// It gathers bytes.
    Gather(Gather),
    /// It sets a file, or what the next run meets.
    Set(Set),
    /// It runs words.
    Run(Runs),
    /// It says what the last run left.
    Tell(Tell),
}

/// How a line gathers bytes; `VERBS` has the word of each.
#[derive(Clone, Copy)]
pub enum Gather {
    Line,
    Raw,
    Hex,
    Filled,
    Record,
    Put,
    Kept,
    Keep,
}

/// What a line sets; `VERBS` has the word of each.
#[derive(Clone, Copy)]
pub enum Set {
    File,
    Input,
    Datagram,
    Moment,
    Failing,
    May,
    Stays,
}

/// How words are run.
#[derive(Clone, Copy)]
pub enum Runs {
    /// Once.
    Once,
    /// By the standard input, and by a file.
    Both,
    /// With each call of an object failing in turn.
    Sweep,
    /// Over a store that turns, after each number of reads.
    Turn,
    /// Over a disk that stops, at each of its calls.
    Stop,
}

/// Of what a line tells; `VERBS` has the word of each.
#[derive(Clone, Copy)]
pub enum Tell {
    Status,
    Out,
    Head,
    Err,
    Calls,
    Files(OfFile),
    Bytes,
    Answer,
    Numbers,
    Writes,
}

/// What a line says of a file, beside what it was before the run.
#[derive(Clone, Copy)]
pub enum OfFile {
    /// It is the same.
    Same,
    /// It is another one.
    Other,
    /// It is not there.
    Absent,
}

/// Each verb, by its word.
pub const VERBS: &[(&str, Verb)] = &[
    ("=", Verb::Row),
    ("text", Verb::Gather(Gather::Line)),
    ("raw", Verb::Gather(Gather::Raw)),
    ("hex", Verb::Gather(Gather::Hex)),
    ("fill", Verb::Gather(Gather::Filled)),
    ("record", Verb::Gather(Gather::Record)),
    ("put", Verb::Gather(Gather::Put)),
    ("use", Verb::Gather(Gather::Kept)),
    ("keep", Verb::Gather(Gather::Keep)),
    ("file", Verb::Set(Set::File)),
    ("input", Verb::Set(Set::Input)),
    ("datagram", Verb::Set(Set::Datagram)),
    ("now", Verb::Set(Set::Moment)),
    ("fails", Verb::Set(Set::Failing)),
    ("may", Verb::Set(Set::May)),
    ("stays", Verb::Set(Set::Stays)),
    ("run", Verb::Run(Runs::Once)),
    ("both", Verb::Run(Runs::Both)),
    ("sweep", Verb::Run(Runs::Sweep)),
    ("turn", Verb::Run(Runs::Turn)),
    ("stop", Verb::Run(Runs::Stop)),
    ("status", Verb::Tell(Tell::Status)),
    (">", Verb::Tell(Tell::Out)),
    ("head", Verb::Tell(Tell::Head)),
    ("!", Verb::Tell(Tell::Err)),
    ("calls", Verb::Tell(Tell::Calls)),
    ("same", Verb::Tell(Tell::Files(OfFile::Same))),
    ("changes", Verb::Tell(Tell::Files(OfFile::Other))),
    ("absent", Verb::Tell(Tell::Files(OfFile::Absent))),
    ("holds", Verb::Tell(Tell::Bytes)),
    ("sent", Verb::Tell(Tell::Answer)),
    ("at", Verb::Tell(Tell::Numbers)),
    ("writes", Verb::Tell(Tell::Writes)),
];

/// What stands for a word in a table.
pub fn by_word<T: Copy>(table: &[(&str, T)], word: &str) -> Option<T> {
    for (known, meaning) in table {
        if *known == word {
            return Some(*meaning);
        }
    }
    None
}
