//! Reports of files with one entry, and what is expected of them.

use id_names::Names;
use memory_objects::{MemSink, MemStore};
use opened_file::QuotaFile;
use quota_types::{Entry, Format, Grace, Kind, Rec};
use report_options::Options;
use report_text::{ReportFault, report};
use std::alloc::{AllocError, Global};
use std::process::Abort;
use tests_row_files::{listed, opened};

/// A report of a file of vfsv1 with one entry, whose title is `f`.
#[derive(Drop)]
pub(crate) struct Report {
    pub kind: Kind,
    /// The file of names, behind `longer` bytes `n`.
    pub names: &'static [u8],
    pub longer: usize,
    pub entry: Entry,
    pub now: u64,
    pub options: Options,
    /// What is behind the head and as many `n`.
    pub line: &'static str,
}

/// Expects a report to be as it is described.
pub(crate) fn expect_report(rt: &impl Abort, alloc: Global, wanted: &Report) {
    let got = report_of(alloc, wanted);
    let is_so = matches!(&got, Ok(Some(text)) if is_report(text.as_slice(), wanted));
    assert!(rt; is_so, "{}{got:?}", wanted.line);
}

/// Whether a text is the report.
fn is_report(text: &[u8], wanted: &Report) -> bool {
    let head = match wanted.kind {
        Kind::User => HEAD_OF_USERS,
        Kind::Group => HEAD_OF_GROUPS,
        Kind::Project => HEAD_OF_PROJECTS,
    };
    let behind = text.get(head.len()..).unwrap_or(b"");
    let line = behind.get(wanted.longer..).unwrap_or(b"");
    text.starts_with(head.as_bytes())
        && behind.iter().take(wanted.longer).all(|byte| *byte == b'n')
        && line == wanted.line.as_bytes()
}

/// What is written of the file; None where it can't be made, or the report is refused.
fn report_of(alloc: Global, wanted: &Report) -> Result<Option<Vec<u8>>, AllocError> {
    let mut names = vec![in alloc; b'n'; wanted.longer]?;
    names.extend_from_slice(wanted.names)?;
    let Ok(names) = Names::read(alloc, names.as_slice(), wanted.kind) else {
        return Ok(None);
    };
    let mut sink = MemSink::new(Vec::new(alloc), Vec::new(alloc));
    match put_report(alloc, wanted, &names, &mut sink) {
        Some(Ok(())) => Ok(Some(Vec::from_slice(alloc, sink.bytes())?)),
        _ => Ok(None),
    }
}

fn put_report(
    alloc: Global,
    wanted: &Report,
    names: &Names,
    sink: &mut MemSink,
) -> Option<Result<(), ReportFault>> {
    let mut store = listed(alloc, wanted.kind, Format::V2R1, GRACE, &[wanted.entry])?;
    let mut file = opened(alloc, &mut store, Format::V2R1, wanted.kind)?;
    if !QuotaFile::<MemStore>::usable(&file) {
        return None;
    }
    Some(report(
        &mut file,
        &mut store,
        names,
        wanted.kind,
        "f",
        wanted.now,
        &wanted.options,
        sink,
    ))
}

/// The longest grace period for blocks, and the shortest one of a minute for inodes.
const GRACE: Grace = Grace {
    block: u32::MAX as u64,
    inode: 60,
};

const HEAD_OF_USERS: &str = "*** Report for user quotas on f
Block grace time: 49710days; Inode grace time: 00:01
User                  used       soft       hard  grace    files     soft     hard  grace
-----------------------------------------------------------------------------------------
";

const HEAD_OF_GROUPS: &str = "*** Report for group quotas on f
Block grace time: 49710days; Inode grace time: 00:01
Group                 used       soft       hard  grace    files     soft     hard  grace
-----------------------------------------------------------------------------------------
";

const HEAD_OF_PROJECTS: &str = "*** Report for project quotas on f
Block grace time: 49710days; Inode grace time: 00:01
Project               used       soft       hard  grace    files     soft     hard  grace
-----------------------------------------------------------------------------------------
";

pub(crate) const PLAIN: Options = Options {
    verbose: false,
    numeric: false,
    raw: false,
};

pub(crate) const RAW: Options = Options { raw: true, ..PLAIN };

pub(crate) const NUMERIC: Options = Options {
    numeric: true,
    ..PLAIN
};

pub(crate) const VERBOSE: Options = Options {
    verbose: true,
    ..PLAIN
};

pub(crate) const NONE: Rec = Rec {
    ihard: 0,
    isoft: 0,
    inodes: 0,
    bhard: 0,
    bsoft: 0,
    space: 0,
    btime: 0,
    itime: 0,
};
