use memory_objects::MemStore;
use outside::{Store, StoreFault};
use quota_pages::Pages;
use quota_radix::{WalkFault, find_path, leaf, link, next_leaf};
use quota_types::DamageKind;
use std::alloc::{AllocError, Global};
use std::process::Abort;

/// A call on the tree of a file, or what is done with the file besides.
#[derive(Clone, Copy)]
enum Step {
    /// A block of the tree gets a reference at a digit's place, past the buffer.
    Put(u32, u8, u32),
    /// How many blocks the file has.
    Blocks(u32),
    /// An identifier gets a leaf at a data block, with the fresh blocks of the tree from this one on; what the buffer
    /// shows is written.
    Add(u32, u32, u32),
    /// As many identifiers get a leaf at data block 2: every thousandth, from 0 on, with fresh blocks from 3 on.
    AddEach(u32),
    Leaf(u32),
    /// How many blocks are found on the way of an identifier.
    Way(u32),
    /// The data block, or the identifier, of the leaf after an identifier.
    NextBlock(Option<u32>),
    NextId(Option<u32>),
    /// How many leaves there are, one after another, where each takes seven reads at most.
    Leaves,
    /// How many reads a look for the next leaf takes, with an empty buffer.
    ReadsOfNext(Option<u32>),
}

/// What a step answers.
#[derive(Clone, Copy, PartialEq, Eq)]
enum Answer {
    Done,
    None,
    Is(u32),
    /// A reference in this block leads past the last block.
    Out(u32),
    /// This block has no reference.
    Empty(u32),
    Fault,
    /// The step cannot be made.
    Not,
}

/// A step with what it answers.
type Told = (Step, Answer);

const DONE: Answer = Answer::Done;

/// What is done with an empty file.
struct Story {
    title: &'static str,
    steps: &'static [Told],
}

/// A file, and what is kept of it.
#[derive(Drop)]
struct Tree {
    store: MemStore,
    pages: Pages,
    blocks: u32,
}

/// What a refusal says.
fn refused(fault: WalkFault) -> Answer {
    match fault {
        WalkFault::Store => Answer::Fault,
        WalkFault::Damage(damage) => match damage.kind {
            DamageKind::RefOut => Answer::Out(damage.block),
            DamageKind::EmptyTree => Answer::Empty(damage.block),
            _ => Answer::Not,
        },
    }
}

/// What a call that only the store refuses answers.
fn stored(found: Result<(), StoreFault>) -> Answer {
    match found {
        Ok(()) => DONE,
        Err(_) => Answer::Fault,
    }
}

/// What a call answers that finds something, or nothing.
fn found(found: Result<Option<u32>, WalkFault>) -> Answer {
    match found {
        Ok(Some(number)) => Answer::Is(number),
        Ok(None) => Answer::None,
        Err(fault) => refused(fault),
    }
}

/// A number of 32 bits, or the greatest one.
fn low(number: u64) -> u32 {
    u32::try_from(number).unwrap_or(u32::MAX)
}

/// A count as a number of 32 bits.
fn count(len: usize) -> u32 {
    low(len as u64)
}

impl Tree {
    fn put(&mut self, block: u32, digit: u8, reference: u32) -> Answer {
        let at = 1024 * u64::from(block) + 4 * u64::from(digit);
        stored(self.store.write("q", at, &reference.to_le_bytes()))
    }

    /// An identifier gets a leaf, and the answer is how many fresh blocks it took.
    #[tactic(auto, using(crate::proofs::MissingLemmas::few_missing, crate::proofs::MissingLemmas::room_many))]
    fn add(&mut self, id: u32, data: u32, fresh: u32) -> Answer {
        if self.pages.spare() < 12 || fresh > 1_000_000 {
            return Answer::Not;
        }
        let path = match find_path(&mut self.pages, &mut self.store, self.blocks, id) {
            Ok(path) => path,
            Err(fault) => return refused(fault),
        };
        let known = path.found.len();
        if known == 0 || known > 4 || self.pages.spare() < 4 {
            return Answer::Not;
        }
        let fresh = [fresh, fresh + 1, fresh + 2];
        let fresh = &fresh[..4 - known];
        match link(
            &mut self.pages,
            &mut self.store,
            self.blocks,
            &path,
            id,
            fresh,
            data,
        ) {
            Ok(()) => self.flush(count(fresh.len())),
            Err(_) => Answer::Fault,
        }
    }

    /// Writes what the buffer shows, and answers the number.
    fn flush(&mut self, number: u32) -> Answer {
        match self.pages.flush(&mut self.store) {
            Ok(()) => Answer::Is(number),
            // What the buffer shows can still be written.
            Err(_) => match self.pages.flush(&mut self.store) {
                Ok(()) => Answer::Is(number),
                Err(_) => Answer::Fault,
            },
        }
    }

    fn add_each(&mut self, count: u32) -> Answer {
        let mut fresh = 3u32;
        for at in 0..count {
            match self.add(at.saturating_mul(1000), 2, fresh) {
                Answer::Is(taken) => fresh = fresh.saturating_add(taken),
                other => return other,
            }
        }
        Answer::Is(fresh)
    }

    #[tactic(auto, using(crate::proofs::MissingLemmas::room_either))]
    fn next(&mut self, after: Option<u32>) -> Result<Option<(u32, u32)>, WalkFault> {
        self.pages.clear();
        if self.pages.spare() < 7 {
            return Err(WalkFault::Store);
        }
        next_leaf(&mut self.pages, &mut self.store, self.blocks, after)
    }

    fn leaves(&mut self) -> Answer {
        let mut after = None;
        for count in 0..1000 {
            let before = self.store.reads();
            match self.next(after) {
                Ok(Some((id, _))) => after = Some(id),
                Ok(None) => return Answer::Is(count),
                Err(fault) => return refused(fault),
            }
            if self.store.reads().saturating_sub(before) > 7 {
                return Answer::Not;
            }
        }
        Answer::Not
    }

    fn reads_of_next(&mut self, after: Option<u32>) -> Answer {
        let before = self.store.reads();
        match self.next(after) {
            Ok(_) => Answer::Is(low(self.store.reads().saturating_sub(before))),
            Err(fault) => refused(fault),
        }
    }

    #[tactic(auto, using(crate::proofs::MissingLemmas::room_many))]
    fn look(&mut self, step: Step) -> Answer {
        if self.pages.spare() < 12 {
            return Answer::Not;
        }
        match step {
            Step::Leaf(id) => found(leaf(&mut self.pages, &mut self.store, self.blocks, id)),
            Step::Way(id) => {
                match find_path(&mut self.pages, &mut self.store, self.blocks, id) {
                    Ok(path) => Answer::Is(count(path.found.len())),
                    Err(fault) => refused(fault),
                }
            }
            Step::NextBlock(after) => found(self.next(after).map(|leaf| leaf.map(|leaf| leaf.1))),
            Step::NextId(after) => found(self.next(after).map(|leaf| leaf.map(|leaf| leaf.0))),
            _ => Answer::Not,
        }
    }

    fn step(&mut self, step: Step) -> Answer {
        self.pages.clear();
        match step {
            Step::Put(block, digit, reference) => self.put(block, digit, reference),
            Step::Blocks(blocks) => {
                self.blocks = blocks;
                DONE
            }
            Step::Add(id, data, fresh) => self.add(id, data, fresh),
            Step::AddEach(count) => self.add_each(count),
            Step::Leaves => self.leaves(),
            Step::ReadsOfNext(after) => self.reads_of_next(after),
            _ => self.look(step),
        }
    }

    /// A step; where the store failed it is made again.
    fn step_again(&mut self, step: Step) -> Answer {
        match self.step(step) {
            Answer::Fault => self.step(step),
            other => other,
        }
    }
}

/// How many calls of the store fail in turn, at most.
const SWEEP: u64 = 40;

/// The place of the first step, from 1 on, that isn't as told, or 0, where one call of the store fails, by its number
/// from 1 on, or none.
fn first_otherwise(alloc: Global, story: &Story, failing: u64) -> Result<usize, AllocError> {
    let mut tree = Tree {
        store: MemStore::new(Vec::new(alloc), Vec::from_slice(alloc, &[failing])?),
        pages: Pages::new(String::from_str(alloc, "q")?),
        blocks: 2,
    };
    for (at, told) in story.steps.iter().enumerate() {
        if tree.step_again(told.0) != told.1 {
            return Ok(at.saturating_add(1));
        }
    }
    Ok(0)
}

fn expect_stories(rt: &impl Abort, alloc: Global, stories: &[Story], failing: u64) {
    for story in stories {
        let found = first_otherwise(alloc, story, failing).unwrap_or(usize::MAX);
        assert!(rt;
            found == 0,
            "{}: step {found}, where call {failing} fails",
            story.title
        );
    }
}

const LAST: u32 = u32::MAX;

const NO_LEAF: &[Told] = &[
    (Step::Leaf(0), Answer::None),
    (Step::Way(0), Answer::Is(1)),
    (Step::NextId(None), Answer::None),
    (Step::NextId(Some(7)), Answer::None),
    (Step::Leaves, Answer::Is(0)),
];

const ONE_LEAF: &[Told] = &[
    (Step::Blocks(9), DONE),
    (Step::Add(70_000, 5, 2), Answer::Is(3)),
    (Step::Leaf(70_000), Answer::Is(5)),
    (Step::Leaf(70_001), Answer::None),
    (Step::Way(70_000), Answer::Is(5)),
    (Step::Way(70_001), Answer::Is(4)),
    (Step::Way(0), Answer::Is(2)),
    (Step::Way(LAST), Answer::Is(1)),
    (Step::NextId(None), Answer::Is(70_000)),
    (Step::NextBlock(Some(69_999)), Answer::Is(5)),
    (Step::NextId(Some(70_000)), Answer::None),
    (Step::ReadsOfNext(None), Answer::Is(4)),
    (Step::ReadsOfNext(Some(69_999)), Answer::Is(4)),
];

const TWO_LEAVES: &[Told] = &[
    (Step::Blocks(16), DONE),
    (Step::Add(255, 9, 2), Answer::Is(3)),
    (Step::Add(0x0100_0000, 10, 5), Answer::Is(3)),
    (Step::NextId(Some(0)), Answer::Is(255)),
    (Step::NextId(Some(254)), Answer::Is(255)),
    (Step::NextId(Some(255)), Answer::Is(0x0100_0000)),
    (Step::ReadsOfNext(Some(255)), Answer::Is(6)),
    (Step::ReadsOfNext(Some(0x00FF_FFFF)), Answer::Is(4)),
    (Step::Leaf(255), Answer::Is(9)),
    (Step::Leaf(0x0100_0000), Answer::Is(10)),
    (Step::Leaves, Answer::Is(2)),
];

const BACKING_UP: &[Told] = &[
    (Step::Blocks(16), DONE),
    (Step::Add(255, 9, 2), Answer::Is(3)),
    (Step::Add(0x0100_0000, 10, 5), Answer::Is(3)),
    (Step::ReadsOfNext(Some(254)), Answer::Is(4)),
    (Step::NextBlock(Some(255)), Answer::Is(10)),
    (Step::Add(256, 11, 8), Answer::Is(1)),
    (Step::NextId(Some(255)), Answer::Is(256)),
    (Step::NextId(Some(256)), Answer::Is(0x0100_0000)),
    (Step::ReadsOfNext(Some(256)), Answer::Is(7)),
    (Step::Add(LAST, 12, 11), Answer::Is(3)),
    (Step::NextId(Some(LAST - 1)), Answer::Is(LAST)),
    (Step::NextId(Some(LAST)), Answer::None),
    (Step::ReadsOfNext(Some(LAST)), Answer::Is(0)),
];

const MANY_LEAVES: &[Told] = &[
    (Step::Blocks(1000), DONE),
    (Step::AddEach(300), Answer::Is(309)),
    (Step::Leaves, Answer::Is(300)),
    (Step::Leaf(299_000), Answer::Is(2)),
    (Step::Leaf(299_001), Answer::None),
    (Step::NextId(Some(150_000)), Answer::Is(151_000)),
];

const OUTSIDE: &[Told] = &[
    (Step::Blocks(9), DONE),
    (Step::Put(1, 1, 9), DONE),
    (Step::Leaf(0x0100_0000), Answer::Out(1)),
    (Step::Way(0x0100_0000), Answer::Out(1)),
    (Step::Leaf(0), Answer::None),
    (Step::NextId(None), Answer::Out(1)),
    (Step::NextId(Some(0x01FF_FFFF)), Answer::None),
    (Step::Blocks(10), DONE),
    (Step::Leaf(0x0100_0000), Answer::None),
    (Step::NextId(None), Answer::Empty(9)),
    (Step::NextId(Some(0x0100_0000)), Answer::None),
    (Step::Put(9, 3, LAST), DONE),
    (Step::NextId(None), Answer::Out(9)),
    (Step::Leaf(0x0103_0000), Answer::Out(9)),
    (Step::Way(0x0102_0000), Answer::Is(2)),
];

const STORIES: &[Story] = &[
    Story {
        title: "a tree without a leaf",
        steps: NO_LEAF,
    },
    Story {
        title: "a tree of one leaf",
        steps: ONE_LEAF,
    },
    Story {
        title: "a leaf at the last place of a block, and the next one below another place of the root",
        steps: TWO_LEAVES,
    },
    Story {
        title: "a look for the next leaf backs up, and ends behind the last identifier",
        steps: BACKING_UP,
    },
    Story {
        title: "a reference past the last block, or a block without one, is told where it is met",
        steps: OUTSIDE,
    },
];

const LARGE: &[Story] = &[Story {
    title: "three hundred leaves",
    steps: MANY_LEAVES,
}];

#[test]
fn leaves_are_found_and_added_as_told(rt: HostRuntime) {
    expect_stories(&rt, rt.alloc(), STORIES, 0);
}

#[test]
fn many_leaves_are_found_one_after_another(rt: HostRuntime) {
    expect_stories(&rt, rt.alloc(), LARGE, 0);
}

#[test]
fn a_call_on_a_tree_that_failed_can_be_made_again(rt: HostRuntime) {
    for failing in 1..=SWEEP {
        expect_stories(&rt, rt.alloc(), STORIES, failing);
    }
}
