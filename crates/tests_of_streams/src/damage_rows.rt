use crate::calls::ONE_CALL;
use crate::running::{End, PLAIN, Run, end_over, is_as_said};
use crate::turning::Turning;
use std::alloc::{AllocError, Global};
use std::process::Abort;

/// One connection brings nothing.
const SILENT: Run<'static> = Run {
    title: "nothing is asked",
    words: "0 1 any /srv user p /home user q",
    came: &[(1_700_000_000, &[])],
    failing: &[],
    status: 0,
    line: "",
    port: Some(0),
    written: &[&[]],
};

/// The files are damaged behind the opening, and a call asks for what the second one has. Each reference of its root
/// lies past its last block then.
const DAMAGED: Run<'static> = Run {
    title: "the second file is damaged behind the opening",
    words: "0 2 any /srv user p /home user q",
    came: &[(1_700_000_000, ONE_CALL), (1_700_000_000, ONE_CALL)],
    failing: &[],
    status: 3,
    line: "quota: p: damaged: RefOut at block 1\n",
    port: Some(0),
    written: &[&[], &[]],
};

/// How many reads the opening of the files takes, where serving a connection without a call goes as it is to.
fn reads_of_opening(alloc: Global) -> Result<Option<u64>, AllocError> {
    let mut store = Turning::new(alloc, u64::MAX)?;
    let end = end_over(alloc, &SILENT, PLAIN, &mut store)?;
    let is_served = is_as_said(&SILENT, &end) && end.closed == 1;
    Ok(is_served.then_some(store.reads()))
}

/// How a run goes whose files turn behind so many reads.
fn turned(alloc: Global, good_reads: u64) -> Result<End, AllocError> {
    let mut store = Turning::new(alloc, good_reads)?;
    end_over(alloc, &DAMAGED, PLAIN, &mut store)
}

/// Whether a damage that is met behind the opening ends the run, is said of the first file, and leaves the connection
/// open.
fn is_told_of_the_first_file(alloc: Global) -> Result<bool, AllocError> {
    let Some(good_reads) = reads_of_opening(alloc)? else {
        return Ok(false);
    };
    let end = turned(alloc, good_reads)?;
    Ok(is_as_said(&DAMAGED, &end) && end.closed == 0)
}

fn expect_told(rt: &impl Abort, told: Result<bool, AllocError>) {
    assert_eq!(rt; told, Ok(true));
}

#[test]
fn a_damage_behind_the_opening_is_said_of_the_first_file_and_nothing_is_closed(rt: HostRuntime) {
    expect_told(&rt, is_told_of_the_first_file(rt.alloc()));
}
