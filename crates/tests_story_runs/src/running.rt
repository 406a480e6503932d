use crate::both::run_both;
use crate::comparing::copied;
use crate::journaled::run_journaled;
use crate::stops::run_stops;
use crate::sweeps::run_sweep;
use crate::turning::run_turn;
use tests_story_stage::{
    Checked, Conditions, Last, NamedBytes, Object, Program, Ran, Runs, Stage, Wrong, run_over,
};

/// Carries out a line that runs words.
///
/// # Errors
///
/// The line does not hold, or there was not enough memory.
pub fn run<P: Program>(program: &P, stage: &mut Stage, how: Runs, rest: &str) -> Checked {
    let none = Conditions::none(stage.alloc);
    let mut setting = std::mem::replace(&mut stage.setting, none);
    let ran = run_so(program, stage, &mut setting, how, rest)?;
    go_on(stage, ran)
}

/// What words left that are run so.
fn run_so<P: Program>(
    program: &P,
    stage: &Stage,
    setting: &mut Conditions,
    how: Runs,
    rest: &str,
) -> Result<Ran, Wrong> {
    match how {
        Runs::Once => run_twice(program, stage, &stage.files, setting, rest),
        Runs::Both => run_both(program, stage, setting, rest),
        Runs::Sweep => run_sweep(program, stage, setting, rest),
        Runs::Turn => run_turn(program, stage, setting, rest),
        Runs::Stop => run_stops(program, stage, setting, rest),
    }
}

/// Goes on from what a run left, of which nothing was told yet.
fn go_on(stage: &mut Stage, ran: Ran) -> Checked {
    let after = copied(stage.alloc, &ran.files)?;
    let before = std::mem::replace(&mut stage.files, after);
    stage.may = Vec::new(stage.alloc);
    stage.stays = Vec::new(stage.alloc);
    stage.last = Some(Last {
        ran,
        before,
        status_told: false,
        out_told: 0,
        err_told: 0,
        answers_told: 0,
        named: Vec::new(stage.alloc),
    });
    Ok(())
}

/// Runs words over these files in a store in memory, and where nothing is set that only such a store can meet once more
/// on a disk, through a journal.
pub(crate) fn run_twice<P: Program>(
    program: &P,
    stage: &Stage,
    files: &[NamedBytes],
    setting: &Conditions,
    line: &str,
) -> Result<Ran, Wrong> {
    let ran = run_over(program, stage, files, setting, line)?;
    let failing = setting.failing_of(stage.alloc, Object::Store)?;
    if failing.is_empty() && setting.good_reads == u64::MAX {
        run_journaled(program, stage, files, setting, line, &ran)?;
    }
    Ok(ran)
}
