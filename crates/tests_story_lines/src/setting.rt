use crate::gathering::{add_kept, name_in};
use tests_story_stage::{Checked, OBJECTS, Set, Stage, Wrong, by_word, number, set, unmet};

/// Carries out a line that sets a file, or what the next run meets.
///
/// # Errors
///
/// The line does not hold, or there was not enough memory.
pub fn set_up(stage: &mut Stage, what: Set, rest: &str) -> Checked {
    match what {
        Set::File => set_file(stage, rest),
        Set::Input => set_input(stage, rest),
        Set::Datagram => add_datagrams(stage, rest),
        Set::Moment => {
            stage.now = number(stage.alloc, rest)?;
            Ok(())
        }
        Set::Failing => set_failing(stage, rest),
        Set::May => allow(stage, rest),
        Set::Stays => forbid(stage, rest),
    }
}

fn set_file(stage: &mut Stage, rest: &str) -> Checked {
    let name = name_in(stage, rest)?;
    let bytes = stage.take();
    set(stage.alloc, &mut stage.files, name, bytes)
}

fn set_input(stage: &mut Stage, kept: &str) -> Checked {
    add_kept(stage, kept)?;
    let bytes = stage.take();
    stage.setting.input = Some(bytes);
    Ok(())
}

/// Adds the gathered bytes as a datagram, or as one for each length to which they can be cut, none at first.
fn add_datagrams(stage: &mut Stage, rest: &str) -> Checked {
    let (moment, is_cut) = match rest.strip_suffix(" cut") {
        Some(moment) => (moment, true),
        None => (rest, false),
    };
    let moment = number(stage.alloc, moment)?;
    let bytes = stage.take();
    let shortest = if is_cut { 0 } else { bytes.len() };
    for len in shortest..=bytes.len() {
        let part = Vec::from_slice(stage.alloc, bytes.get(..len).unwrap_or(b""))?;
        stage
            .setting
            .datagrams
            .push((part, moment))
            .map_err(|_| Wrong::Memory)?;
    }
    Ok(())
}

fn set_failing(stage: &mut Stage, rest: &str) -> Checked {
    let (object, calls) = rest.split_once(' ').unwrap_or((rest, ""));
    if object == "bytes" {
        stage.setting.good_reads = number(stage.alloc, calls)?;
        return Ok(());
    }
    let Some(object) = by_word(OBJECTS, object) else {
        return unmet(stage.alloc, "there is no such object");
    };
    for word in calls.split(' ') {
        let call = number(stage.alloc, word)?;
        stage
            .setting
            .failing
            .push((object, call))
            .map_err(|_| Wrong::Memory)?;
    }
    Ok(())
}

fn allow(stage: &mut Stage, rest: &str) -> Checked {
    let Some((file, name)) = rest.split_once(' ') else {
        return unmet(stage.alloc, "a file and a name are wanted");
    };
    let file = String::from_str(stage.alloc, file)?;
    let name = String::from_str(stage.alloc, name)?;
    stage.may.push((file, name)).map_err(|_| Wrong::Memory)
}

fn forbid(stage: &mut Stage, rest: &str) -> Checked {
    for file in rest.split(' ') {
        let file = String::from_str(stage.alloc, file)?;
        stage.stays.push(file).map_err(|_| Wrong::Memory)?;
    }
    Ok(())
}
