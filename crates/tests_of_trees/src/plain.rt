//! What is wrong with a tree file, found by following the definitions word by word: whole lists of paths, lists of
//! blocks that are searched from the front, and counts. It is as slow as that, and serves small files.

ghost use Rattle.std.specs.Prelude.{◌≤◌};

use entry_codec::Header;
use quota_radix::TreePath;
use quota_types::{Damage, DamageKind, Format};
use std::alloc::{AllocError, Global};

/// A file with its header.
#[derive(Drop)]
pub(crate) struct Plain<'a> {
    pub file: &'a [u8],
    pub header: Header,
    pub alloc: Global,
}

/// A list of blocks up to the number that ends it.
#[derive(Drop)]
struct Chain {
    blocks: Vec<u32>,
    end: u32,
}

/// How often a number stands among others: `times`.
fn count(numbers: &[u32], number: u32) -> usize {
    numbers.iter().filter(|other| **other == number).count()
}

/// Adds a damage to the defects where it holds.
fn note(
    defects: &mut Vec<Damage>,
    holds: bool,
    kind: DamageKind,
    block: u32,
    id: u32,
) -> Result<(), AllocError> {
    if holds {
        defects.push(Damage { kind, block, id })?;
    }
    Ok(())
}

/// Adds numbers behind others.
fn add(numbers: &mut Vec<u32>, more: &[u32]) -> Result<(), AllocError> {
    numbers.extend_from_slice(more)
}

/// The entries of identifiers that do not lead to the block, and those with a second one: `HasStrayEntry`,
/// `HasDoubleEntry`.
fn of_used(
    defects: &mut Vec<Damage>,
    block: u32,
    used: &[u32],
    ids: &[u32],
) -> Result<(), AllocError> {
    for id in used {
        let stray = !ids.contains(id);
        let double = count(used, *id) > 1;
        note(defects, stray, DamageKind::StrayEntry, block, *id)?;
        note(defects, double, DamageKind::DoubleEntry, block, *id)?;
    }
    Ok(())
}

/// The identifiers that have no entry: `LacksEntry`.
fn of_ids(
    defects: &mut Vec<Damage>,
    block: u32,
    used: &[u32],
    ids: &[u32],
) -> Result<(), AllocError> {
    for id in ids {
        let lacks = !used.contains(id);
        note(defects, lacks, DamageKind::MissingEntry, block, *id)?;
    }
    Ok(())
}

impl Plain<'_> {
    /// The byte at a place of a block, 0 past the end of the file: `block_of`.
    fn byte(&self, block: u32, at: u64) -> u8 {
        let at = 1024 * u64::from(block) + at.min(1023);
        self.file.get(at as usize).copied().unwrap_or(0)
    }

    /// The number of the four bytes at a place of a block: `number_at` of `block_of`.
    fn number(&self, block: u32, at: u64) -> u32 {
        let at = at.min(1020);
        u32::from_le_bytes([
            self.byte(block, at),
            self.byte(block, at + 1),
            self.byte(block, at + 2),
            self.byte(block, at + 3),
        ])
    }

    /// The number of four bytes at a place that counts such numbers: `word_at`.
    fn word(&self, block: u32, place: u32) -> u32 {
        self.number(block, 4 * u64::from(place))
    }

    /// Adds the paths that go on from another one: `steps`.
    fn onward(&self, path: &TreePath, next: &mut Vec<TreePath>) -> Result<(), AllocError> {
        for digit in 0..256 {
            let block = self.word(path.block, digit);
            let number = path.number.wrapping_mul(256).wrapping_add(digit);
            if block != 0 && block < self.header.blocks {
                next.push(TreePath { number, block })?;
            }
        }
        Ok(())
    }

    /// The paths of this many digits: `paths`.
    fn paths(&self, digits: u32) -> Result<Vec<TreePath>, AllocError> {
        let mut paths = vec![in self.alloc;
            TreePath {
                number: 0,
                block: 1
            },
        ]?;
        for _ in 0..digits {
            paths = self.longer(paths.as_slice())?;
        }
        Ok(paths)
    }

    /// The paths that go on from those of a level: `steps` of each, as `paths` has them for one more digit.
    fn longer(&self, paths: &[TreePath]) -> Result<Vec<TreePath>, AllocError> {
        let mut next = Vec::new(self.alloc);
        for path in paths {
            self.onward(path, &mut next)?;
        }
        Ok(next)
    }

    /// The blocks to which the paths of this many digits lead: `level`.
    fn level(&self, digits: u32) -> Result<Vec<u32>, AllocError> {
        let paths = self.paths(digits)?;
        paths.iter().map(|path| path.block).collect(self.alloc)
    }

    /// The list of a head, as far as it goes, and the number that ends it: `IsChain`.
    fn chain(&self, head: u32) -> Result<Chain, AllocError> {
        let mut blocks = Vec::new(self.alloc);
        let mut end = head;
        for _ in 0..self.header.blocks {
            if end == 0 || end >= self.header.blocks || blocks.contains(&end) {
                break;
            }
            add(&mut blocks, &[end])?;
            end = self.word(end, 0);
        }
        Ok(Chain { blocks, end })
    }

    /// The blocks of the tree below the root: `lower_blocks`.
    fn lower_blocks(&self) -> Result<Vec<u32>, AllocError> {
        let mut lower = self.level(1)?;
        add(&mut lower, self.level(2)?.as_slice())?;
        add(&mut lower, self.level(3)?.as_slice())?;
        Ok(lower)
    }

    /// The blocks that leaves name, each once: `data_blocks`.
    fn data_blocks(&self) -> Result<Vec<u32>, AllocError> {
        let leaves = self.level(4)?;
        (0..self.header.blocks)
            .filter(|block| leaves.contains(block))
            .collect(self.alloc)
    }

    /// The identifiers that lead to a block: `ids_at` of `leaves`.
    fn ids_at(&self, block: u32) -> Result<Vec<u32>, AllocError> {
        let leaves = self.paths(4)?;
        leaves
            .iter()
            .filter(|leaf| leaf.block == block)
            .map(|leaf| leaf.number)
            .collect(self.alloc)
    }

    /// How many bytes an entry has: `entry_size`.
    fn entry_size(&self) -> u64
        ensures { result ≤ 72 }
    {
        if self.header.format == Format::V2R0 {
            48
        } else {
            72
        }
    }

    /// The number of used entries that a block states: `stated_count`.
    fn stated(&self, block: u32) -> usize {
        usize::from(u16::from_le_bytes([self.byte(block, 8), self.byte(block, 9)]))
    }

    /// Where an entry of a block begins: `entry_bytes`.
    fn entry_at(&self, place: u64) -> u64 {
        16 + self.entry_size() * place.min(20)
    }

    /// How many entries a block has: `entries_per_block`.
    fn entries(&self) -> u64 {
        if self.header.format == Format::V2R0 {
            21
        } else {
            14
        }
    }

    /// Whether the bytes of an entry are all 0: `is_unused` of `entry_bytes`.
    fn is_unused(&self, block: u32, place: u64) -> bool {
        let start = self.entry_at(place);
        (0..self.entry_size()).all(|at| self.byte(block, start.saturating_add(at)) == 0)
    }

    /// Whether some entry of a block is unused: `has_unused`.
    fn has_unused(&self, block: u32) -> bool {
        (0..self.entries()).any(|place| self.is_unused(block, place))
    }

    /// The identifiers of the used entries of a block: `used_ids`.
    fn used_ids(&self, block: u32) -> Result<Vec<u32>, AllocError> {
        (0..self.entries())
            .filter(|place| !self.is_unused(block, *place))
            .map(|place| self.number(block, self.entry_at(place)))
            .collect(self.alloc)
    }

    /// A file that is shorter than its blocks: `IsShort`.
    fn is_short(&self, defects: &mut Vec<Damage>) -> Result<(), AllocError> {
        let blocks = self.header.blocks;
        let len = self.file.len() as u64;
        let short = blocks > 2 && len < 1024 * u64::from(blocks);
        let cut = (len / 1024).min(u64::from(u32::MAX)) as u32;
        note(defects, short, DamageKind::Short, cut, 0)
    }

    /// A reference past the last block, and a block below the root without a reference: `IsRefOut`, `IsEmptyTree`.
    fn of_tree_block(
        &self,
        defects: &mut Vec<Damage>,
        block: u32,
        is_lower: bool,
    ) -> Result<(), AllocError> {
        let out = (0..256).any(|digit| self.word(block, digit) >= self.header.blocks);
        let empty = (0..256).all(|digit| self.word(block, digit) == 0);
        note(defects, out, DamageKind::RefOut, block, 0)?;
        note(defects, is_lower && empty, DamageKind::EmptyTree, block, 0)
    }

    /// What is wrong with the references of each block of the tree: `tree_blocks`, of which `lower_blocks` may not be
    /// empty.
    fn of_tree(&self, defects: &mut Vec<Damage>) -> Result<(), AllocError> {
        self.of_tree_block(defects, 1, false)?;
        for block in self.lower_blocks()?.iter() {
            self.of_tree_block(defects, *block, true)?;
        }
        Ok(())
    }

    /// The blocks with two roles and those with none, by `roles`: `HasTwoRoles`, `HasNoRole`.
    fn of_roles(&self, defects: &mut Vec<Damage>) -> Result<(), AllocError> {
        let mut roles = vec![in self.alloc; 0, 1]?;
        add(&mut roles, self.lower_blocks()?.as_slice())?;
        add(&mut roles, self.data_blocks()?.as_slice())?;
        add(&mut roles, self.chain(self.header.free)?.blocks.as_slice())?;
        for block in 0..self.header.blocks {
            let times = count(roles.as_slice(), block);
            note(defects, times > 1, DamageKind::TwoRoles, block, 0)?;
            note(defects, times == 0, DamageKind::NoRole, block, 0)?;
        }
        Ok(())
    }

    /// A list that leads past the last block, or to one of its blocks again: `IsOut`, `IsLoop`.
    fn of_chain(&self, defects: &mut Vec<Damage>, head: u32) -> Result<(), AllocError> {
        let Chain { blocks, end } = self.chain(head)?;
        let out = end >= self.header.blocks;
        note(defects, out, DamageKind::ChainOut, end, 0)?;
        note(
            defects,
            blocks.contains(&end),
            DamageKind::ChainLoop,
            end,
            0,
        )
    }

    /// The blocks of the entry list that have no room, and those that do not name the one before: `IsForeign`,
    /// `HasBadPrevious`.
    fn of_listed(&self, defects: &mut Vec<Damage>) -> Result<(), AllocError> {
        let data = self.data_blocks()?;
        let listed = self.chain(self.header.first)?;
        let mut before = 0;
        for block in listed.blocks.iter() {
            let has_room = data.contains(block) && self.has_unused(*block);
            let other = self.word(*block, 1) != before;
            note(defects, !has_room, DamageKind::ForeignInChain, *block, 0)?;
            note(defects, other, DamageKind::BadPrev, *block, 0)?;
            before = *block;
        }
        Ok(())
    }

    /// What is wrong with the data blocks: `IsMissing`, `HasBadCount`, and the entries.
    fn of_data(&self, defects: &mut Vec<Damage>) -> Result<(), AllocError> {
        let listed = self.chain(self.header.first)?;
        for block in self.data_blocks()?.iter() {
            let missing = self.has_unused(*block) && !listed.blocks.contains(block);
            note(defects, missing, DamageKind::MissingInChain, *block, 0)?;
            let used = self.used_ids(*block)?;
            let other = self.stated(*block) != used.len();
            note(defects, other, DamageKind::BadCount, *block, 0)?;
            let ids = self.ids_at(*block)?;
            of_used(defects, *block, used.as_slice(), ids.as_slice())?;
            of_ids(defects, *block, used.as_slice(), ids.as_slice())?;
        }
        Ok(())
    }

    /// Everything that is wrong with the file.
    pub(crate) fn defects(&self) -> Result<Vec<Damage>, AllocError> {
        let mut defects = Vec::new(self.alloc);
        self.is_short(&mut defects)?;
        self.of_tree(&mut defects)?;
        self.of_roles(&mut defects)?;
        self.of_chain(&mut defects, self.header.free)?;
        self.of_chain(&mut defects, self.header.first)?;
        self.of_listed(&mut defects)?;
        self.of_data(&mut defects)?;
        Ok(defects)
    }

    /// How many identifiers have a leaf.
    pub(crate) fn used(&self) -> Result<usize, AllocError> {
        Ok(self.paths(4)?.len())
    }

    /// How many blocks are free.
    pub(crate) fn free(&self) -> Result<usize, AllocError> {
        Ok(self.chain(self.header.free)?.blocks.len())
    }
}
