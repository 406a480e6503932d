use crate::playing::play;
use tests_script_stories::{failing, lines, refused, run, serving};
use tests_story_player::FILES;

#[test]
fn commands_of_a_script_run_one_after_another(rt: HostRuntime) {
    play(&rt, rt.alloc(), &[FILES, run::RUN]);
}

#[test]
fn a_script_ends_at_its_first_refused_line(rt: HostRuntime) {
    play(&rt, rt.alloc(), &[FILES, refused::REFUSED]);
}

#[test]
fn lines_of_a_script_have_edges(rt: HostRuntime) {
    play(&rt, rt.alloc(), &[FILES, lines::LINES]);
}

#[test]
fn a_script_answers_datagrams(rt: HostRuntime) {
    play(&rt, rt.alloc(), &[FILES, serving::SERVED]);
}

#[test]
fn a_call_that_fails_ends_a_script(rt: HostRuntime) {
    play(&rt, rt.alloc(), &[FILES, failing::FAILING]);
}
