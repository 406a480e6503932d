use crate::comparing::{But, are_same, copied};
use crate::running::run_twice;
use std::alloc::Global;
use tests_story_stage::{
    Checked, Conditions, Program, Ran, Stage, Wrong, find, holds_if, instead, is_number, set, unmet,
};

/// Whether an error output is that of a run that read the file `l`, where the other one read the standard input.
fn is_said_of_file(by_input: &[u8], by_file: &[u8]) -> bool {
    match by_input.strip_prefix(b"quota: input: ") {
        Some(said) => by_file.strip_prefix(b"quota: l: ") == Some(said),
        None => by_input == by_file,
    }
}

/// Whether a run by the file `l`, which has these lines, left the same as one by the standard input.
fn are_alike(alloc: Global, by_input: &Ran, by_file: &Ran, lines: &[u8]) -> Checked {
    is_number(alloc, u64::from(by_file.status), u64::from(by_input.status))?;
    holds_if(alloc, by_file.out() == by_input.out(), "the outputs differ")?;
    if !is_said_of_file(by_input.err(), by_file.err()) {
        return instead(alloc, by_file.err());
    }
    let is_kept = find(&by_file.files, "l") == Some(lines);
    let is_same = are_same(&by_file.files, &by_input.files, But::File("l"));
    holds_if(alloc, is_kept && is_same, "the files differ")
}

/// Runs words with `--input l` behind them, where the file `l` has these lines.
fn run_by_file<P: Program>(
    program: &P,
    stage: &Stage,
    setting: &Conditions,
    line: &str,
    lines: &[u8],
) -> Result<Ran, Wrong> {
    let mut files = copied(stage.alloc, &stage.files)?;
    let copy = Vec::from_slice(stage.alloc, lines)?;
    set(stage.alloc, &mut files, "l", copy)?;
    let words = format!(in stage.alloc; "{line} --input l")?;
    run_twice(program, stage, &files, setting, words.as_str())
}

/// Runs words with the standard input, and with a file instead of it, which must leave the same.
pub(crate) fn run_both<P: Program>(
    program: &P,
    stage: &Stage,
    setting: &mut Conditions,
    line: &str,
) -> Result<Ran, Wrong> {
    let by_input = run_twice(program, stage, &stage.files, setting, line)?;
    let Some(lines) = setting.input.take() else {
        return unmet(stage.alloc, "there is no input");
    };
    let by_file = run_by_file(program, stage, setting, line, &lines)?;
    are_alike(stage.alloc, &by_input, &by_file, &lines)?;
    Ok(by_input)
}
