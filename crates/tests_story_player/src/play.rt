use std::alloc::{AllocError, Global};
use tests_story_lines::{gather, is_all_told, is_all_used, set_up, tell};
use tests_story_runs::run;
use tests_story_stage::{Checked, NO_LINE, Program, Stage, VERBS, Verb, Wrong, by_word, unmet};

/// What fails in stories that are carried out one after the other, in words: the title of the row, the line that does
/// not hold, and what was there instead. `None` where all of them hold. What a story keeps is there in those behind it.
pub fn failure_of<P: Program>(
    program: &P,
    alloc: Global,
    stories: &[&str],
) -> Result<Option<String>, AllocError> {
    let mut stage = Stage::new(alloc);
    match play_all(program, &mut stage, stories) {
        Ok(()) => Ok(None),
        Err(Wrong::Said(why)) => Ok(Some(why)),
        Err(Wrong::Memory) => Err(AllocError),
    }
}

/// Carries out stories, one after the other.
fn play_all<P: Program>(program: &P, stage: &mut Stage, stories: &[&str]) -> Checked {
    for story in stories {
        play(program, stage, story)?;
    }
    Ok(())
}

/// Carries out a story.
fn play<P: Program>(program: &P, stage: &mut Stage, story: &str) -> Checked {
    let untitled = String::new(stage.alloc);
    stage.begin(untitled, 0);
    for line in story.lines() {
        stage.number = stage.number.saturating_add(1);
        let told = take_line(program, stage, line);
        at_line(stage, line, told)?;
    }
    let told = is_whole(stage);
    at_line(stage, "the end", told)
}

/// What comes of a line, with its place and what was there instead where it does not hold.
fn at_line(stage: &Stage, line: &str, told: Checked) -> Checked {
    let (title, number) = (stage.title.as_str(), stage.number);
    let why = match told {
        Ok(()) => return Ok(()),
        Err(Wrong::Said(why)) => {
            format!(in stage.alloc; "{title}: line {number}, '{line}': {}", why.as_str())?
        }
        Err(Wrong::Memory) => format!(in stage.alloc; "{title}: line {number}: no memory")?,
    };
    Err(Wrong::Said(why))
}

/// That everything was told of the last run, after which there is none.
fn is_finished(stage: &mut Stage) -> Checked {
    let alloc = stage.alloc;
    match stage.last.take() {
        Some(last) => is_all_told(alloc, &last),
        None => Ok(()),
    }
}

/// That a row is finished, and that all that was gathered or set in it was of use.
fn is_whole(stage: &mut Stage) -> Checked {
    is_finished(stage)?;
    is_all_used(stage)
}

/// Ends a row and begins the next one.
fn begin_row(stage: &mut Stage, title: &str) -> Checked {
    is_whole(stage)?;
    let (title, number) = (String::from_str(stage.alloc, title)?, stage.number);
    stage.begin(title, number);
    Ok(())
}

/// Carries out a line.
fn take_line<P: Program>(program: &P, stage: &mut Stage, line: &str) -> Checked {
    if line.is_empty() {
        return Ok(());
    }
    let (word, rest) = line.split_once(' ').unwrap_or((line, ""));
    match by_word(VERBS, word) {
        Some(Verb::Row) => begin_row(stage, rest),
        Some(Verb::Gather(what)) => gather(stage, what, rest),
        Some(Verb::Set(what)) => set_up(stage, what, rest),
        Some(Verb::Run(how)) => {
            is_finished(stage)?;
            run(program, stage, how, rest)
        }
        Some(Verb::Tell(what)) => tell(stage, what, rest),
        None => unmet(stage.alloc, NO_LINE),
    }
}
