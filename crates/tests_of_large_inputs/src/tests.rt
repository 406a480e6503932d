use crate::inputs::{greatest_script, many_forms, many_lines};
use crate::running::left_by;
use std::alloc::{AllocError, Global};
use std::process::Abort;

/// What `generate 1 100000 q` prints: the sums were worked out by a program of their own.
const MADE: &str =
    "lines 100000, inodes 90000, identifiers 5000, KiB 11346116, report 450261 bytes\n";

/// Fails with what is wrong, where something is.
fn expect_none(rt: &impl Abort, wrong: Result<&'static str, AllocError>) {
    match wrong {
        Ok(wrong) => assert!(rt; wrong.is_empty(), "{wrong}"),
        Err(_) => assert!(rt; false, "there was no memory"),
    }
}

/// What is wrong with files that are made out of the same seed twice.
fn wrong_of_made(alloc: Global) -> Result<&'static str, AllocError> {
    let first = left_by(alloc, "generate 1 100000 q", Vec::new(alloc))?;
    let second = left_by(alloc, "generate 1 100000 q", Vec::new(alloc))?;
    let done = first.status == 0 && second.status == 0;
    let said = first.out.as_slice() == MADE.as_bytes()
        && first.out.as_slice() == second.out.as_slice();
    let made = !first.file.is_empty() && first.file.as_slice() == second.file.as_slice();
    Ok(match (done, said, made) {
        (true, true, true) => "",
        (false, _, _) => "the status is another one",
        (true, false, _) => "the line is another one",
        (true, true, false) => "the files differ",
    })
}

/// What is wrong with a script of 100,000 lines.
fn wrong_of_many_lines(alloc: Global) -> Result<&'static str, AllocError> {
    let left = left_by(alloc, "script", many_lines(alloc)?)?;
    let forms = many_forms(alloc)?;
    Ok(
        match (left.status == 0, left.out.as_slice() == forms.as_slice()) {
            (true, true) => "",
            (false, _) => "the status is another one",
            (true, false) => "the forms are other ones",
        },
    )
}

/// What is wrong with a script that has these bytes behind the greatest one, and ends so.
fn wrong_of_greatest(
    alloc: Global,
    behind: &str,
    status: u8,
    said: &str,
) -> Result<&'static str, AllocError> {
    let mut script = greatest_script(alloc)?;
    script.extend_from_slice(behind.as_bytes())?;
    let left = left_by(alloc, "script", script)?;
    let alone = left_by(alloc, "setquota -F vfsold 7 1 2 0 0 q", Vec::new(alloc))?;
    let ended = left.status == status && left.err.as_slice() == said.as_bytes();
    let done = !left.file.is_empty() && left.file.as_slice() == alone.file.as_slice();
    Ok(match (ended, done) {
        (true, true) => "",
        (false, _) => "it ends in another way",
        (true, false) => "its first line was not done",
    })
}

#[test]
fn one_seed_makes_one_listing(rt: HostRuntime) {
    expect_none(&rt, wrong_of_made(rt.alloc()));
}

#[test]
fn a_script_may_have_many_lines(rt: HostRuntime) {
    expect_none(&rt, wrong_of_many_lines(rt.alloc()));
}

#[test]
fn a_script_may_have_16777216_bytes(rt: HostRuntime) {
    expect_none(&rt, wrong_of_greatest(rt.alloc(), "", 0, ""));
}

#[test]
fn a_script_of_one_more_byte_is_too_large(rt: HostRuntime) {
    let said = "quota: script: too large\n";
    expect_none(&rt, wrong_of_greatest(rt.alloc(), "#", 1, said));
}
