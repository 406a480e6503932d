use outside::Store;
use quota_cli::run::run;
use std::alloc::Global;
use std::process::Abort;
use tests_story_player::failure_of;
use tests_story_stage::{Program, Streams};

/// This program, as stories run it. They look at what is left, and rest on no promise of it.
pub(crate) struct QuotaCli;

impl Program for QuotaCli {
    fn run<S: Store>(
        &self,
        alloc: Global,
        words: &[String],
        store: &mut S,
        streams: &mut Streams,
        now: u64,
    ) -> u8 {
        run(
            alloc,
            words,
            store,
            &mut streams.input,
            &mut streams.out,
            &mut streams.err,
            &mut streams.link,
            now,
        )
    }
}

/// Carries out stories, one after the other, and fails with what does not hold in them.
pub(crate) fn play(rt: &impl Abort, alloc: Global, stories: &[&str]) {
    match failure_of(&QuotaCli, alloc, stories) {
        Ok(None) => (),
        Ok(Some(why)) => assert!(rt; false, "{why}"),
        Err(_) => assert!(rt; false, "there was no memory"),
    }
}

/// A story that does not hold, and what is said of it.
type WrongStory = (&'static str, &'static str);

const WRONG: &[WrongStory] = &[
    (
        "= a\nfiel q\n",
        "a: line 2, 'fiel q': this is no line of a story",
    ),
    (
        "= a\nfill 0 4o\n",
        "a: line 2, 'fill 0 4o': a number is misspelt",
    ),
    (
        "= a\nfill 0 4\n= b\n",
        "a: line 3, '= b': bytes were gathered, and nothing uses them",
    ),
    (
        "= a\nfails store 1\n",
        "a: line 2, 'the end': something was set for a run, and none comes",
    ),
    (
        "= a\nrun repquota\n! quota: usage: WrongOperands at word 1\n",
        "a: line 3, 'the end': it is 2",
    ),
    (
        "= a\nrun repquota\nstatus 2\n",
        "a: line 3, 'the end': it is 'quota: usage: WrongOperands at word 1'",
    ),
    (
        "= a\nfile q\nrun repquota -F vfsold q\n= b\n",
        "a: line 4, '= b': it is '*** Report for user quotas on q'",
    ),
    (
        "= a\nfile q\nrun setquota -F vfsold -t 1 1 q\n",
        "a: line 3, 'the end': no line tells of the file q",
    ),
    (
        "= a\nfile q\nrun setquota -F vfsold -t 1 1 q\nsame q\n",
        "a: line 4, 'same q': it has 40 bytes, and 0 at place 0",
    ),
    (
        "= a\nfile q\nrun setquota -F vfsold -t 1 1 q\nchanges r\n",
        "a: line 4, 'changes r': no run looked at a file of this name",
    ),
    (
        "= a\nfile q\nrun setquota -F vfsold -t 1 1 q\nfill 0 40\nholds q\n",
        "a: line 5, 'holds q': it has 40 bytes, and 1 at place 24",
    ),
    ("= a\nuse b\n", "a: line 2, 'use b': nothing has this name"),
    (
        "= a\nfile q\nrun setquota -F vfsold -t 1 1 q\nat q 24 1 0 2\n",
        "a: line 4, 'at q 24 1 0 2': it is 1",
    ),
    (
        "= a\nfile q\nrun setquota -F vfsold -t 1 1 q\nat q 36 0 0\n",
        "a: line 4, 'at q 36 0 0': the file ends before",
    ),
    (
        "= a\nfile q\nrun setquota -F vfsold -t 1 1 q\nat q 36 end\n",
        "a: line 4, 'at q 36 end': it is 40",
    ),
    (
        "= a\nfile q\nraw x\ninput\nrun setquota -F vfsold -t 1 1 q\nchanges q\n",
        "a: line 6, 'the end': it did not take the input to the end",
    ),
    (
        "= a\nfile q\nrun setquota -F vfsold -b q\n",
        "a: line 3, 'run setquota -F vfsold -b q': the input was read, and there is none",
    ),
    (
        "= a\nfile q\nsweep link repquota -F vfsold q\n",
        "a: line 3, 'sweep link repquota -F vfsold q': it makes no such call",
    ),
    (
        "= a\nfile q\nstays q\nsweep each setquota -F vfsold -t 1 1 q\n",
        "a: line 4, 'sweep each setquota -F vfsold -t 1 1 q': store: where 5 is set: a file is neither old nor new",
    ),
];

/// Carries out each story by itself, and fails where one holds, or where something else is said of it.
fn expect_failures(rt: &impl Abort, alloc: Global, stories: &[WrongStory]) {
    for (story, said) in stories {
        let found = failure_of(&QuotaCli, alloc, &[*story]);
        let is_so = matches!(&found, Ok(Some(why)) if why.as_str() == *said);
        assert!(rt; is_so, "{said}: {found:?}");
    }
}

#[test]
fn a_story_that_does_not_hold_is_told(rt: HostRuntime) {
    expect_failures(&rt, rt.alloc(), WRONG);
}
