use input_text::TextBuffer;
use memory_objects::{MemLink, MemSink, MemSource};
use outside::{Got, Link, Sink, SinkFault, Source};
use std::alloc::{AllocError, Global};
use std::process::Abort;

/// A call of a source in memory, with room for this many bytes of three: how many it gives and the three bytes then, or
/// `None` where it fails. Then the bytes that are left.
type SourceStep = (usize, Option<(usize, [u8; 3])>, &'static [u8]);

/// The steps of a source of `abcde` whose second call fails.
const TAKEN: &[SourceStep] = &[
    (0, Some((0, *b"---")), b"abcde"),
    (3, None, b"abcde"),
    (3, Some((3, *b"abc")), b"de"),
    (3, Some((2, *b"dec")), b""),
    (3, Some((0, *b"dec")), b""),
];

fn has_left(source: &MemSource, want: &[u8]) -> bool {
    source.left() == want
}

/// Whether the calls of the source are as told, with one buffer for all of them.
fn are_taken(source: &mut MemSource, steps: &[SourceStep]) -> bool {
    let mut buf = *b"---";
    for step in steps {
        let room = step.0.min(3);
        let count = source.read(&mut buf[..room]).ok();
        if count != step.1.map(|want| want.0) || !has_left(source, step.2) {
            return false;
        }
        if step.1.is_some_and(|want| want.1 != buf) {
            return false;
        }
    }
    true
}

fn source_of(alloc: Global, bytes: &[u8], failing: &[u64]) -> Result<MemSource, AllocError> {
    let bytes = Vec::from_slice(alloc, bytes)?;
    Ok(MemSource::new(bytes, Vec::from_slice(alloc, failing)?))
}

fn expect_taken(rt: &impl Abort, alloc: Global, steps: &[SourceStep]) {
    let taken = match source_of(alloc, b"abcde", &[2]) {
        Ok(mut source) => are_taken(&mut source, steps),
        Err(_) => false,
    };
    assert!(rt; taken, "the source");
}

#[test]
fn a_source_gives_its_bytes_in_order(rt: HostRuntime) {
    expect_taken(&rt, rt.alloc(), TAKEN);
}

/// A call of a link in memory, or a look at it.
enum LinkStep {
    Start,
    /// What is got, and the bytes at the front of a buffer of zeros.
    Next(Got, &'static [u8]),
    NextFails,
    Answer(&'static [u8]),
    AnswerFails(&'static [u8]),
    /// The only answer that was sent.
    Sent(&'static [u8]),
}

/// The steps of a link to which `ask` comes at 7 and then 5,000 bytes of 1 at 9, and whose second and fourth call fail.
const LINK: &[LinkStep] = &[
    LinkStep::Start,
    LinkStep::NextFails,
    LinkStep::Next(Got { len: 3, now: 7 }, b"ask\0"),
    LinkStep::AnswerFails(b"lost"),
    LinkStep::Answer(b"sent"),
    LinkStep::Next(Got { len: 4096, now: 9 }, &[1; 4096]),
    LinkStep::NextFails,
    LinkStep::Sent(b"sent"),
];

fn gets(link: &mut MemLink, want: Got, front: &[u8]) -> bool {
    let mut buf = [0; 4096];
    link.next(&mut buf) == Ok(want) && buf.starts_with(front)
}

fn get_fails(link: &mut MemLink) -> bool {
    let mut buf = [0; 4096];
    link.next(&mut buf).is_err()
}

fn has_sent(link: &MemLink, want: &[u8]) -> bool {
    let answers = link.answers();
    answers.len() == 1 && answers.iter().all(|answer| answer.as_slice() == want)
}

fn link_does(link: &mut MemLink, step: &LinkStep) -> bool {
    match *step {
        LinkStep::Start => link.start(0).is_ok(),
        LinkStep::Next(want, front) => gets(link, want, front),
        LinkStep::NextFails => get_fails(link),
        LinkStep::Answer(bytes) => link.answer(bytes).is_ok(),
        LinkStep::AnswerFails(bytes) => link.answer(bytes).is_err(),
        LinkStep::Sent(want) => has_sent(link, want),
    }
}

fn link_of(alloc: Global) -> Result<MemLink, AllocError> {
    let mut datagrams = Vec::new(alloc);
    datagrams.push((Vec::from_slice(alloc, b"ask")?, 7))?;
    datagrams.push((vec![in alloc; 1; 5000]?, 9))?;
    Ok(MemLink::new(datagrams, Vec::from_slice(alloc, &[2, 4])?))
}

fn expect_link(rt: &impl Abort, alloc: Global, steps: &[LinkStep]) {
    let mut link = link_of(alloc);
    for (at, step) in steps.iter().enumerate() {
        let as_told = match &mut link {
            Ok(link) => link_does(link, step),
            Err(_) => false,
        };
        assert!(rt; as_told, "step {at}, from 0 on");
    }
}

#[test]
fn a_link_gives_the_front_of_each_datagram(rt: HostRuntime) {
    expect_link(&rt, rt.alloc(), LINK);
}

/// A call on a sink in memory with a text buffer in front of it, or a look at the sink.
enum SinkStep {
    Put(&'static [u8]),
    FlushFails,
    /// Past the buffer.
    Write(&'static [u8]),
    Written(&'static [u8]),
}

/// The steps of a sink whose second call fails.
const SINK: &[SinkStep] = &[
    SinkStep::Put(b"one "),
    SinkStep::Written(b""),
    SinkStep::Put(&[b'-'; 4096]),
    SinkStep::Written(b"one "),
    SinkStep::FlushFails,
    SinkStep::Write(b"two"),
    SinkStep::Written(b"one two"),
];

fn sink_does(sink: &mut MemSink, text: &mut TextBuffer, step: &SinkStep) -> bool {
    match *step {
        SinkStep::Put(bytes) => text.put(sink, bytes).is_ok(),
        SinkStep::FlushFails => text.flush(sink) == Err(SinkFault),
        SinkStep::Write(bytes) => sink.write(bytes).is_ok(),
        SinkStep::Written(want) => sink.bytes() == want,
    }
}

fn expect_sink(rt: &impl Abort, sink: &mut MemSink, steps: &[SinkStep]) {
    let mut text = TextBuffer::new();
    for (at, step) in steps.iter().enumerate() {
        let as_told = sink_does(sink, &mut text, step);
        assert!(rt; as_told, "step {at}, from 0 on: {:?}", sink.bytes());
    }
}

fn expect_sink_in_memory(rt: &impl Abort, alloc: Global, steps: &[SinkStep]) {
    match Vec::from_slice(alloc, &[2]) {
        Ok(failing) => expect_sink(rt, &mut MemSink::new(Vec::new(alloc), failing), steps),
        Err(_) => assert!(rt; false, "no memory"),
    }
}

#[test]
fn a_sink_gets_the_gathered_text_in_order(rt: HostRuntime) {
    expect_sink_in_memory(&rt, rt.alloc(), SINK);
}
