//! Runs of which each call of an object fails in turn.

use crate::comparing::{But, about, are_same, at_call, copied};
use crate::faults::{fault_line, is_fault_line, last_line};
use crate::leaving::{Course, CutOff, is_allowed, is_between, may_be_left};
use crate::made_calls::{NEVER, made_calls};
use tests_story_stage::{
    Checked, Conditions, NamedBytes, OBJECTS, Object, Program, Ran, Stage, Wrong, find, holds_if,
    instead, is_number, run_over,
};

/// What a sweep goes by: the object whose calls fail, the words, and what they left with no fault.
#[derive(Clone, Copy)]
struct Sweep<'a> {
    object: Object,
    line: &'a str,
    whole: &'a Ran,
}

/// What a sweep over the calls of an object came to.
#[derive(Clone, Copy)]
struct Swept {
    /// How many calls of the object the run made.
    made: u64,
    /// Whether a run left what a line allows, where one does.
    is_met: bool,
}

/// Whether a run ended with the line of a fault of an object, which stands alone unless it is one of the error output.
fn is_fault_told(ran: &Ran, object: Object) -> bool {
    let said = match object {
        Object::Error => last_line(ran.err()),
        _ => ran.err(),
    };
    is_fault_line(said, fault_line(object))
}

/// Whether what a run wrote and sent is a first part of what the whole one did.
fn is_first_part(whole: &Ran, ran: &Ran) -> bool {
    let (sent, all) = (ran.streams.link.answers(), whole.streams.link.answers());
    whole.out().starts_with(ran.out()) && all.get(..sent.len()) == Some(sent)
}

/// Whether a run is the whole one, which is refused, but for what it says of that.
fn is_refused_so(whole: &Ran, ran: &Ran) -> bool {
    let is_said_in_part = whole.err().starts_with(ran.err());
    let are_outputs_same = ran.out() == whole.out()
        && ran.streams.link.answers() == whole.streams.link.answers();
    whole.status != 0
        && ran.status == whole.status
        && is_said_in_part
        && are_outputs_same
        && are_same(&ran.files, &whole.files, But::Nothing)
}

/// A run of which a call of an object failed.
fn is_failed(stage: &Stage, sweep: &Sweep<'_>, ran: &Ran) -> Checked {
    let (alloc, whole) = (stage.alloc, sweep.whole);
    if sweep.object == Object::Error && is_refused_so(whole, ran) {
        return Ok(());
    }
    is_number(alloc, u64::from(ran.status), 4)?;
    if !is_fault_told(ran, sweep.object) {
        return instead(alloc, ran.err());
    }
    let is_first = is_first_part(whole, ran);
    holds_if(alloc, is_first, "the output is no first part")?;
    let may_be_left = may_be_left(stage, whole, &ran.files, CutOff::Fault);
    holds_if(alloc, may_be_left, "a file is neither old nor new")
}

/// Whether a file was as a line allows where an earlier call failed, and is as it was at first where a later one does.
fn is_back(stage: &Stage, earlier: &[NamedBytes], later: &[NamedBytes]) -> bool {
    let mut is_back = false;
    for (name, bytes) in earlier {
        let is_old = find(later, name.as_str()) == find(&stage.files, name.as_str());
        is_back = is_back || (is_old && is_allowed(stage, name.as_str(), Some(bytes)));
    }
    is_back
}

/// Runs words of which one call of an object fails.
fn run_failing<P: Program>(
    program: &P,
    stage: &Stage,
    setting: &mut Conditions,
    (object, call): (Object, u64),
    line: &str,
) -> Result<Ran, Wrong> {
    setting.failing.clear();
    setting
        .failing
        .push((object, call))
        .map_err(|_| Wrong::Memory)?;
    run_over(program, stage, &stage.files, setting, line)
}

/// Lets a call fail, behind one of which an earlier call did.
fn sweep_call<P: Program>(
    program: &P,
    stage: &Stage,
    setting: &mut Conditions,
    sweep: &Sweep<'_>,
    call: u64,
    course: &mut Course,
) -> Checked {
    let ran = run_failing(program, stage, setting, (sweep.object, call), sweep.line)?;
    is_failed(stage, sweep, &ran)?;
    let is_back = is_back(stage, &course.earlier, &ran.files);
    holds_if(stage.alloc, !is_back, "a file is old again")?;
    course.is_met = course.is_met || is_between(stage, &ran.files);
    course.earlier = ran.files;
    Ok(())
}

/// Lets `made` calls fail, one after another. It answers whether a run left what a line allows, where one does.
fn sweep_calls<P: Program>(
    program: &P,
    stage: &Stage,
    setting: &mut Conditions,
    sweep: &Sweep<'_>,
    made: u64,
) -> Result<bool, Wrong> {
    let mut course = Course {
        earlier: copied(stage.alloc, &stage.files)?,
        is_met: stage.may.is_empty(),
    };
    for call in 1..=made {
        let told = sweep_call(program, stage, setting, sweep, call, &mut course);
        at_call(stage.alloc, call, told)?;
    }
    Ok(course.is_met)
}

/// Lets each call of an object fail in turn.
fn sweep_object<P: Program>(
    program: &P,
    stage: &Stage,
    setting: &mut Conditions,
    object: Object,
    line: &str,
) -> Result<Swept, Wrong> {
    let mut whole = run_failing(program, stage, setting, (object, NEVER), line)?;
    let made = made_calls(&mut whole, object);
    let sweep = Sweep {
        object,
        line,
        whole: &whole,
    };
    let is_met = sweep_calls(program, stage, setting, &sweep, made)?;
    Ok(Swept { made, is_met })
}

/// Lets each call of the object of a word fail in turn, or of each one where the word is `each`.
fn sweep_all<P: Program>(
    program: &P,
    stage: &Stage,
    setting: &mut Conditions,
    wanted: &str,
    line: &str,
) -> Result<Swept, Wrong> {
    let mut all = Swept {
        made: 0,
        is_met: false,
    };
    for (word, object) in OBJECTS {
        if wanted == "each" || wanted == *word {
            let told = sweep_object(program, stage, setting, *object, line);
            let swept = about(stage.alloc, word, told)?;
            all.made = all.made.saturating_add(swept.made);
            all.is_met = all.is_met || swept.is_met;
        }
    }
    Ok(all)
}

/// Runs the words behind the word of an object whole, and then with each of its calls failing in turn.
pub(crate) fn run_sweep<P: Program>(
    program: &P,
    stage: &Stage,
    setting: &mut Conditions,
    rest: &str,
) -> Result<Ran, Wrong> {
    let (wanted, line) = rest.split_once(' ').unwrap_or((rest, ""));
    let whole = run_over(program, stage, &stage.files, setting, line)?;
    let all = sweep_all(program, stage, setting, wanted, line)?;
    holds_if(stage.alloc, all.made > 0, "it makes no such call")?;
    holds_if(stage.alloc, all.is_met, "no call leaves what a line allows")?;
    Ok(whole)
}
