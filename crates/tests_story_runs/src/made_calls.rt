use memory_objects::{MemLink, MemSink, MemSource};
use outside::{Link, Sink, Source};
use tests_story_stage::{Object, Ran};

/// The number of a call that no run of a story makes of an object, so that it is known how many it made.
pub(crate) const NEVER: u64 = 10_000;

/// How many calls of a sink were made, of which the one of number [`NEVER`] is to fail and was not made yet.
fn writes_made(sink: &mut MemSink) -> u64 {
    for probe in 1..=NEVER {
        if sink.write(b"").is_err() {
            return NEVER.saturating_sub(probe);
        }
    }
    0
}

/// How many calls of a source were made, of which the one of number [`NEVER`] is to fail and was not made yet.
fn reads_made(source: &mut MemSource) -> u64 {
    for probe in 1..=NEVER {
        if source.read(&mut []).is_err() {
            return NEVER.saturating_sub(probe);
        }
    }
    0
}

/// How many calls of a link were made, of which the one of number [`NEVER`] is to fail and was not made yet.
fn link_calls_made(link: &mut MemLink) -> u64 {
    for probe in 1..=NEVER {
        if link.start(0).is_err() {
            return NEVER.saturating_sub(probe);
        }
    }
    0
}

/// How many calls of an object a run made, of which the one of number [`NEVER`] was to fail.
pub(crate) fn made_calls(ran: &mut Ran, object: Object) -> u64 {
    match object {
        Object::Store => ran.diary.calls,
        Object::Input => reads_made(&mut ran.streams.input),
        Object::Output => writes_made(&mut ran.streams.out),
        Object::Error => writes_made(&mut ran.streams.err),
        Object::Link => link_calls_made(&mut ran.streams.link),
    }
}
