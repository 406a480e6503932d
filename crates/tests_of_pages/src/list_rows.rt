use free_chains::{
    ChainFault, Heads, count_free, enter_entry_list, give_block, leave_entry_list, take_block,
};
use memory_objects::MemStore;
use outside::{Store, StoreFault};
use quota_pages::Pages;
use std::alloc::{AllocError, Global};
use std::process::Abort;

/// A call on the lists of a file, or what is done with the file besides.
#[derive(Clone, Copy)]
enum Step {
    /// A block of the file gets a number at a place, where places count such numbers.
    Put(u32, u8, u32),
    /// The number of blocks, the first free one, and the first one with room.
    Heads(u32, u32, u32),
    Count(u32),
    Take,
    Give(u32),
    Enter(u32),
    Leave(u32),
    /// The number at a place of a block, as the buffer shows it.
    Word(u32, u8),
    /// The three numbers of the heads.
    Blocks,
    Free,
    First,
    Reads,
}

/// What a step answers.
#[derive(Clone, Copy, PartialEq, Eq)]
enum Answer {
    Done,
    Is(u64),
    /// The list leads to this number, which is past the last block.
    Out(u32),
    Fault,
    /// The step cannot be made.
    Not,
}

/// A step with what it answers.
type Told = (Step, Answer);

const DONE: Answer = Answer::Done;

/// What is done with an empty file.
struct Story {
    title: &'static str,
    steps: &'static [Told],
}

/// A file, and what is kept of it.
#[derive(Drop)]
struct Lists {
    store: MemStore,
    pages: Pages,
    heads: Heads,
}

/// What a refusal says.
fn refused(fault: ChainFault) -> Answer {
    match fault {
        ChainFault::Store => Answer::Fault,
        ChainFault::Damage(damage) => Answer::Out(damage.block),
    }
}

/// What a call that gives a number answers.
fn number(found: Result<u32, ChainFault>) -> Answer {
    match found {
        Ok(number) => Answer::Is(u64::from(number)),
        Err(fault) => refused(fault),
    }
}

/// What a call that gives nothing answers.
fn done(found: Result<(), ChainFault>) -> Answer {
    match found {
        Ok(()) => DONE,
        Err(fault) => refused(fault),
    }
}

/// What a call that only the store refuses answers.
fn stored(found: Result<(), StoreFault>) -> Answer {
    match found {
        Ok(()) => DONE,
        Err(_) => Answer::Fault,
    }
}

impl Lists {
    /// A number is written into the file, past the buffer.
    fn put(&mut self, block: u32, place: u8, number: u32) -> Answer {
        self.pages.clear();
        let at = 1024 * u64::from(block) + 4 * u64::from(place);
        stored(self.store.write("q", at, &number.to_le_bytes()))
    }

    /// A number that the buffer shows.
    fn word(&mut self, block: u32, place: u8) -> Answer {
        if self.pages.spare() == 0 {
            return Answer::Not;
        }
        match self
            .pages
            .word(&mut self.store, block, 4 * usize::from(place))
        {
            Ok(word) => Answer::Is(u64::from(word)),
            Err(_) => Answer::Fault,
        }
    }

    /// A call on the lists.
    #[tactic(auto, using(crate::proofs::MissingLemmas::room_either, crate::proofs::MissingLemmas::room_many, free_chains::proofs::RoomLemmas::enter_room))]
    fn call(&mut self, step: Step) -> Answer {
        if self.pages.spare() < 4 {
            return Answer::Not;
        }
        let pages = &mut self.pages;
        let store = &mut self.store;
        let heads = &mut self.heads;
        match step {
            Step::Count(most) if most <= 4 => number(count_free(pages, store, heads, most)),
            Step::Take if heads.blocks < u32::MAX => number(take_block(pages, store, heads)),
            Step::Give(block) => stored(give_block(pages, store, heads, block)),
            Step::Enter(block) => done(enter_entry_list(pages, store, heads, block)),
            Step::Leave(block) => done(leave_entry_list(pages, store, heads, block)),
            _ => Answer::Not,
        }
    }

    /// What is seen of the heads and of the store.
    fn seen(&self, step: Step) -> Answer {
        match step {
            Step::Blocks => Answer::Is(u64::from(self.heads.blocks)),
            Step::Free => Answer::Is(u64::from(self.heads.free)),
            Step::First => Answer::Is(u64::from(self.heads.first)),
            Step::Reads => Answer::Is(self.store.reads()),
            _ => Answer::Not,
        }
    }

    fn step(&mut self, step: Step) -> Answer {
        match step {
            Step::Put(block, place, number) => self.put(block, place, number),
            Step::Heads(blocks, free, first) => {
                self.heads = Heads {
                    blocks,
                    free,
                    first,
                };
                DONE
            }
            Step::Word(block, place) => self.word(block, place),
            Step::Blocks | Step::Free | Step::First | Step::Reads => self.seen(step),
            _ => self.call(step),
        }
    }

    /// A step; where the store failed the heads are as before, and it is made again.
    fn step_again(&mut self, step: Step) -> Answer {
        let before = self.heads;
        let answer = self.step(step);
        if answer != Answer::Fault || self.heads != before {
            return answer;
        }
        self.step(step)
    }
}

/// How many calls of the store fail in turn, at most.
const SWEEP: u64 = 24;

/// The place of the first step, from 1 on, that isn't as told, or 0, where one call of the store fails, by its number
/// from 1 on, or none.
fn first_otherwise(alloc: Global, story: &Story, failing: u64) -> Result<usize, AllocError> {
    let mut lists = Lists {
        store: MemStore::new(Vec::new(alloc), Vec::from_slice(alloc, &[failing])?),
        pages: Pages::new(String::from_str(alloc, "q")?),
        heads: Heads {
            blocks: 2,
            free: 0,
            first: 0,
        },
    };
    for (at, told) in story.steps.iter().enumerate() {
        if lists.step_again(told.0) != told.1 && !(failing != 0 && matches!(told.0, Step::Reads)) {
            return Ok(at.saturating_add(1));
        }
    }
    Ok(0)
}

fn expect_stories(rt: &impl Abort, alloc: Global, stories: &[Story], failing: u64) {
    for story in stories {
        let found = first_otherwise(alloc, story, failing).unwrap_or(usize::MAX);
        assert!(rt;
            found == 0,
            "{}: step {found}, where call {failing} fails",
            story.title
        );
    }
}

const NONE_FREE: &[Told] = &[
    (Step::Heads(6, 0, 0), DONE),
    (Step::Count(4), Answer::Is(0)),
    (Step::Reads, Answer::Is(0)),
    (Step::Put(6, 9, 77), DONE),
    (Step::Take, Answer::Is(6)),
    (Step::Blocks, Answer::Is(7)),
    (Step::Free, Answer::Is(0)),
    (Step::Word(6, 9), Answer::Is(0)),
];

const ONE_FREE: &[Told] = &[
    (Step::Put(3, 9, 77), DONE),
    (Step::Heads(6, 3, 4), DONE),
    (Step::Count(0), Answer::Is(0)),
    (Step::Reads, Answer::Is(0)),
    (Step::Count(1), Answer::Is(1)),
    (Step::Reads, Answer::Is(1)),
    (Step::Count(4), Answer::Is(1)),
    (Step::Take, Answer::Is(3)),
    (Step::Free, Answer::Is(0)),
    (Step::First, Answer::Is(4)),
    (Step::Word(3, 9), Answer::Is(0)),
    (Step::Take, Answer::Is(6)),
    (Step::Blocks, Answer::Is(7)),
];

const THREE_FREE: &[Told] = &[
    (Step::Put(3, 0, 5), DONE),
    (Step::Put(5, 0, 2), DONE),
    (Step::Heads(6, 3, 0), DONE),
    (Step::Count(2), Answer::Is(2)),
    (Step::Reads, Answer::Is(2)),
    (Step::Count(3), Answer::Is(3)),
    (Step::Count(4), Answer::Is(3)),
    (Step::Reads, Answer::Is(3)),
    (Step::Take, Answer::Is(3)),
    (Step::Word(3, 0), Answer::Is(0)),
    (Step::Take, Answer::Is(5)),
    (Step::Take, Answer::Is(2)),
    (Step::Take, Answer::Is(6)),
];

const LOOPING: &[Told] = &[
    (Step::Put(3, 0, 5), DONE),
    (Step::Put(5, 0, 3), DONE),
    (Step::Heads(6, 3, 0), DONE),
    (Step::Count(4), Answer::Is(2)),
    (Step::Reads, Answer::Is(2)),
    (Step::Put(5, 0, 5), DONE),
    (Step::Count(4), Answer::Is(2)),
];

const LEADING_OUT: &[Told] = &[
    (Step::Heads(6, 6, 6), DONE),
    (Step::Count(0), Answer::Is(0)),
    (Step::Count(1), Answer::Out(6)),
    (Step::Take, Answer::Out(6)),
    (Step::Enter(2), Answer::Out(6)),
    (Step::Free, Answer::Is(6)),
    (Step::First, Answer::Is(6)),
    (Step::Put(5, 0, 6), DONE),
    (Step::Heads(6, 5, 5), DONE),
    (Step::Count(1), Answer::Is(1)),
    (Step::Count(2), Answer::Out(6)),
    (Step::Take, Answer::Out(6)),
    (Step::Word(5, 0), Answer::Is(6)),
    (Step::Leave(5), Answer::Out(6)),
    (Step::Put(5, 0, 0), DONE),
    (Step::Put(5, 1, u32::MAX), DONE),
    (Step::Leave(5), Answer::Out(u32::MAX)),
    (Step::First, Answer::Is(5)),
];

const GIVEN: &[Told] = &[
    (Step::Put(2, 255, 77), DONE),
    (Step::Heads(6, 0, 0), DONE),
    (Step::Give(2), DONE),
    (Step::Word(2, 255), Answer::Is(0)),
    (Step::Free, Answer::Is(2)),
    (Step::Give(3), DONE),
    (Step::Word(3, 0), Answer::Is(2)),
    (Step::Count(4), Answer::Is(2)),
    (Step::Take, Answer::Is(3)),
    (Step::Take, Answer::Is(2)),
    (Step::Blocks, Answer::Is(6)),
];

const ENTERED: &[Told] = &[
    (Step::Put(2, 2, 77), DONE),
    (Step::Heads(8, 0, 0), DONE),
    (Step::Enter(2), DONE),
    (Step::Word(2, 0), Answer::Is(0)),
    (Step::Word(2, 2), Answer::Is(77)),
    (Step::Enter(3), DONE),
    (Step::First, Answer::Is(3)),
    (Step::Word(3, 0), Answer::Is(2)),
    (Step::Word(3, 1), Answer::Is(0)),
    (Step::Word(2, 1), Answer::Is(3)),
    (Step::Enter(4), DONE),
    (Step::Word(3, 1), Answer::Is(4)),
    (Step::Reads, Answer::Is(3)),
];

const LEFT: &[Told] = &[
    (Step::Put(2, 1, 3), DONE),
    (Step::Put(3, 0, 2), DONE),
    (Step::Put(3, 1, 4), DONE),
    (Step::Put(3, 2, 77), DONE),
    (Step::Put(4, 0, 3), DONE),
    (Step::Heads(8, 0, 4), DONE),
    (Step::Leave(3), DONE),
    (Step::First, Answer::Is(4)),
    (Step::Word(4, 0), Answer::Is(2)),
    (Step::Word(2, 1), Answer::Is(4)),
    (Step::Word(3, 0), Answer::Is(0)),
    (Step::Word(3, 1), Answer::Is(0)),
    (Step::Word(3, 2), Answer::Is(77)),
    (Step::Leave(4), DONE),
    (Step::First, Answer::Is(2)),
    (Step::Word(2, 1), Answer::Is(0)),
    (Step::Leave(2), DONE),
    (Step::First, Answer::Is(0)),
    (Step::Reads, Answer::Is(3)),
];

const STORIES: &[Story] = &[
    Story {
        title: "where no block is free the one behind the last is taken",
        steps: NONE_FREE,
    },
    Story {
        title: "the one free block is counted and taken",
        steps: ONE_FREE,
    },
    Story {
        title: "of three free blocks as many are counted as are asked for",
        steps: THREE_FREE,
    },
    Story {
        title: "each block of a list that goes round is counted once",
        steps: LOOPING,
    },
    Story {
        title: "a head or a link past the last block is told, and nothing changes",
        steps: LEADING_OUT,
    },
    Story {
        title: "a block that is given comes first",
        steps: GIVEN,
    },
    Story {
        title: "a block that enters is named by the one behind it",
        steps: ENTERED,
    },
    Story {
        title: "the blocks around one that leaves name each other",
        steps: LEFT,
    },
];

#[test]
fn lists_of_blocks_change_as_told(rt: HostRuntime) {
    expect_stories(&rt, rt.alloc(), STORIES, 0);
}

#[test]
fn a_call_on_lists_that_failed_can_be_made_again(rt: HostRuntime) {
    for failing in 1..=SWEEP {
        expect_stories(&rt, rt.alloc(), STORIES, failing);
    }
}
