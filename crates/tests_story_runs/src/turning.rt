use crate::comparing::at_call;
use crate::leaving::is_allowed;
use tests_story_stage::{
    Checked, Conditions, Program, Ran, Stage, Wrong, find, holds_if, instead, is_number, run_over,
};

/// Whether each file is as it was, or as a line allows, and there is no other one.
fn are_files_kept(stage: &Stage, ran: &Ran) -> bool {
    let mut is_kept = ran.files.len() == stage.files.len();
    for (name, bytes) in &stage.files {
        let after = find(&ran.files, name.as_str());
        is_kept = is_kept && (after == Some(bytes) || is_allowed(stage, name.as_str(), after));
    }
    is_kept
}

/// A run over a store that turned. Where it ends with status 0, what it left is not compared: a change in place writes
/// what it read, and a store that turns tells no file.
fn is_turned(stage: &Stage, whole: &Ran, ran: &Ran) -> Checked {
    let alloc = stage.alloc;
    if ran.status == 0 {
        let is_same = whole.out() == ran.out() && whole.err() == ran.err();
        return holds_if(alloc, is_same, "it said something else");
    }
    is_number(alloc, u64::from(ran.status), 3)?;
    holds_if(alloc, ran.out().is_empty(), "there is an output")?;
    if !ran.err().starts_with(b"quota: q: ") {
        return instead(alloc, ran.err());
    }
    holds_if(alloc, are_files_kept(stage, ran), "a file was changed")
}

/// Whether a run over a store that turns met a damage.
fn is_damaged<P: Program>(
    program: &P,
    stage: &Stage,
    setting: &Conditions,
    line: &str,
    whole: &Ran,
) -> Result<bool, Wrong> {
    let ran = run_over(program, stage, &stage.files, setting, line)?;
    let told = is_turned(stage, whole, &ran);
    at_call(stage.alloc, setting.good_reads, told)?;
    Ok(ran.status != 0)
}

/// Runs words over a store that turns, once for each number of reads below that of the whole run.
pub(crate) fn run_turn<P: Program>(
    program: &P,
    stage: &Stage,
    setting: &mut Conditions,
    line: &str,
) -> Result<Ran, Wrong> {
    let whole = run_over(program, stage, &stage.files, setting, line)?;
    is_number(stage.alloc, u64::from(whole.status), 0)?;
    let mut met_damage = false;
    for good_reads in 0..whole.diary.reads {
        setting.good_reads = good_reads;
        met_damage |= is_damaged(program, stage, setting, line, &whole)?;
    }
    holds_if(stage.alloc, met_damage, "no run met a damage")?;
    Ok(whole)
}
