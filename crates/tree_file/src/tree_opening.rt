ghost use Rattle.std.specs.Prelude.{◌≡◌, ◌≢◌, ◌+◌, ◌*◌, ◌<◌, ◌≤◌, ℕ, Option, true, None, Ok, Some, IsTrue, IfErr, IfOk};
ghost use Rattle.std.specs.Prelude.{IfSome, IsSome, IsSomeAnd, OnOk, is_ok, []};
ghost use Rattle.entry_codec.specs.Header.{header_of};
ghost use Rattle.entry_codec.specs.Spelling.{AreOf};
ghost use Rattle.quota_types.specs.Format.{IsTreeFormat};
ghost use Rattle.quota_types.specs.Range.{grace_unfit};
ghost use Rattle.quota_types.specs.declared.file_kind.Format.{Format};
ghost use Rattle.quota_types.specs.declared.file_kind.Kind.{Kind};
ghost use Rattle.outside.specs.Frame.{OnlyReads};
ghost use Rattle.quota_value.specs.QuotaValue.{QuotaValue};
ghost use Rattle.std.specs.Bool.{OnFalse, OnTrue};
ghost use Rattle.file_blocks.specs.Block.{block_of, file_of};
ghost use Rattle.tree_file.specs.View.{FitsRequest, HasHeader, IsAsAsked, IsRefusedHeader, IsTreeView};
ghost use Rattle.tree_file.specs.View.{IsTreeViewIn};
ghost use Rattle.byte_order.specs.Words.{in_order, words_of};
ghost use Rattle.tree_file.specs.TreeCalls.{IsTreeFault, IsTreeFaultIn};

use crate::TreeFile;
use crate::coming::Coming;
use byte_order::Order;
use entry_codec::{Header, HeaderFault, read_header};
use file_blocks::{BLOCK, read_block};
use opened_file::{FileUse, OpenFault, QuotaFile};
use outside::Store;
use quota_pages::Pages;
use quota_types::{Format, Kind};
use std::alloc::Global;
use tree_check::check;

/// Opens a tree file, which is checked block by block as the store has it. Nothing but its header is kept.
///
/// It has one of the kind, of the format that is asked for, where one is, and at most `limit` blocks. The first block
/// is read, and then each block that the header states twice at most, even where the file is refused.
///
/// # Errors
///
/// It is refused where there is no such file; where its header is of no quota file, of one of another kind, of a
/// version that is not known, of fewer than two blocks, of another format than the one that is asked for, or of more
/// blocks than `limit`; and where it is damaged, in this order; and where the store failed or there was not enough
/// memory.
pub fn open_tree<S: Store>(
    alloc: Global,
    store: &mut S,
    name: &str,
    kind: Kind,
    format: Option<Format>,
    limit: u32,
) -> Result<TreeFile, OpenFault>
    requires { IfSome format IsTreeFormat }
    ensures seen { OnOk result (IsTrue S.tells → (value : QuotaValue)
        × IsTreeView ((S.seen store.old).files name.now) kind format limit (Ok value)) }
    ensures held { IfOk result (λ file. IsTrue S.tells → (value : QuotaValue)
        → IsTreeView ((S.seen store.old).files name.now) kind format limit (Ok value)
        → ⟦<TreeFile as QuotaFile<S>>⟧.holds file store.new value) }
    ensures fresh { IfOk result (λ file. ⟦<TreeFile as QuotaFile<S>>⟧.seen file ≡ record {
      name = name.now;
      format = (⟦<TreeFile as QuotaFile<S>>⟧.seen file).format;
      usable = true;
      limit = limit;
      refusals = 0;
    }) }
    ensures tree { IfOk result (λ file. IsTreeFormat (⟦<TreeFile as QuotaFile<S>>⟧.seen file).format) }
    ensures as_asked { IfOk result (λ file. IsAsAsked format (⟦<TreeFile as QuotaFile<S>>⟧.seen file).format) }
    ensures refused { IfErr result (IsTreeFault (S.seen store.old).faults (S.seen store.new).faults S.tells
        ((S.seen store.old).files name.now) kind format limit) }
    ensures leaves { OnlyReads (is_ok result) name.now (S.seen store.old) (S.seen store.new) }
    ensures reads { IsTrue S.tells → (S.seen store.new).reads
        ≤ (S.seen store.old).reads + 1 + 2 * (header_of (file_of (S.seen store.old).files name.now)).blocks }
    ensures commits { S.commits [] store.old store.new }
{
    let own_name = match String::from_str(alloc, name) {
        Ok(own_name) => own_name,
        Err(_) => return Err(OpenFault::Memory),
    };
    let header = check_tree(alloc, store, name, kind, format, limit, Order::Little)?;
    Ok(TreeFile {
        pages: Pages::new(own_name),
        opened: FileUse::new(),
        header,
        coming: Coming::none(),
        limit,
    })
}

/// Checks a tree file that is read in a byte order, block by block as the store has it, and answers its header.
///
/// # Errors
///
/// Those of `open_tree`.
pub fn check_tree<S: Store>(
    alloc: Global,
    store: &mut S,
    name: &str,
    kind: Kind,
    format: Option<Format>,
    limit: u32,
    order: Order,
) -> Result<Header, OpenFault>
    requires { IfSome format IsTreeFormat }
    ensures seen { OnOk result (IsTrue S.tells → (value : QuotaValue)
        × IsTreeViewIn order ((S.seen store.old).files name.now) kind format limit (Ok value)) }
    ensures numbers { IfOk result (λ header. IsTrue S.tells
        → AreOf header (header_of (words_of order (S.seen store.old).files name.now))) }
    ensures kind { IfOk result (λ header. header.kind ≡ kind) }
    ensures as_asked { IfOk result (λ header. IsAsAsked format header.format) }
    ensures grace { IfOk result (λ header. grace_unfit header.format header.grace ≡ None) }
    ensures tree { IfOk result (λ header. IsTreeFormat header.format) }
    ensures two { IfOk result (λ header. 2 ≤ header.blocks) }
    ensures few { IfOk result (λ header. header.blocks ≤ limit) }
    ensures refused { IfErr result (IsTreeFaultIn order (S.seen store.old).faults (S.seen store.new).faults S.tells
        ((S.seen store.old).files name.now) kind format limit) }
    ensures leaves { OnlyReads (is_ok result) name.now (S.seen store.old) (S.seen store.new) }
    ensures reads { IsTrue S.tells → (S.seen store.new).reads
        ≤ (S.seen store.old).reads + 1 + 2 * (header_of (words_of order (S.seen store.old).files name.now)).blocks }
    ensures few_reads { IfOk result (λ header. (S.seen store.new).reads
        ≤ (S.seen store.old).reads + 1 + 2 * header.blocks) }
    ensures commits { S.commits [] store.old store.new }
{
    let first = first_block(store, name)?;
    let header = accepted_header(&first, kind, format, limit, order)?;
    check(alloc, store, name, &header, order)?;
    Ok(header)
}

/// The first block of a file that is there. Bytes past the end of the file are 0.
fn first_block<S: Store>(store: &mut S, name: &str) -> Result<[u8; BLOCK], OpenFault>
    ensures there { OnOk result (IsTrue S.tells → IsSome ((S.seen store.old).files name.now)) }
    ensures bytes { IfOk result (λ first. IsTrue S.tells
        → first ≡ block_of (file_of (S.seen store.old).files name.now) 0) }
    ensures refused { IfErr result (λ fault. (order : Order) (kind : Kind) (asked : Option Format) (limit : ℕ)
        → IsTreeFaultIn order (S.seen store.old).faults (S.seen store.new).faults S.tells
        ((S.seen store.old).files name.now) kind asked limit fault) }
    ensures leaves { OnlyReads (is_ok result) name.now (S.seen store.old) (S.seen store.new) }
    ensures reads { (S.seen store.new).reads ≤ (S.seen store.old).reads + 1 }
    ensures commits { S.commits [] store.old store.new }
{
    match store.size(name) {
        Ok(Some(_)) => {}
        Ok(None) => return Err(OpenFault::NoFile),
        Err(_) => return Err(OpenFault::Store),
    }
    let mut first = [0; BLOCK];
    match read_block(store, name, 0, &mut first) {
        Ok(()) => Ok(first),
        Err(_) => Err(OpenFault::Store),
    }
}

/// The header that a file begins with, read in a byte order, where it is one of the kind, of the format that is asked
/// for, where one is, and of at most `limit` blocks.
fn accepted_header(
    first: &[u8; BLOCK],
    kind: Kind,
    format: Option<Format>,
    limit: u32,
    order: Order,
) -> Result<Header, OpenFault>
    ensures accepted { IfOk result (λ header. HasHeader kind (header_of (in_order order first.now)) header.format) }
    ensures kind { IfOk result (λ header. header.kind ≡ kind) }
    ensures as_asked { IfOk result (λ header. IsAsAsked format header.format) }
    ensures numbers { IfOk result (λ header. AreOf header (header_of (in_order order first.now))) }
    ensures grace { IfOk result (λ header. grace_unfit header.format header.grace ≡ None) }
    ensures tree { IfOk result (λ header. IsTreeFormat header.format) }
    ensures two { IfOk result (λ header. 2 ≤ header.blocks) }
    ensures few { IfOk result (λ header. header.blocks ≤ limit) }
    ensures fits { IfErr result (FitsRequest format limit) }
    ensures refused { IfErr result
        (λ fault. IsRefusedHeader kind format limit fault (header_of (in_order order first.now))) }
{
    let header = match read_header(first, kind, order) {
        Ok(header) => header,
        Err(HeaderFault::NotQuota) => return Err(OpenFault::NotQuota),
        Err(HeaderFault::WrongKind) => return Err(OpenFault::WrongKind),
        Err(HeaderFault::UnknownVersion) => return Err(OpenFault::UnknownVersion),
        Err(HeaderFault::BadBlockCount) => return Err(OpenFault::BadBlockCount),
    };
    if is_other(format, header.format) {
        return Err(OpenFault::FormatMismatch {
            found: header.format,
        });
    }
    if header.blocks > limit {
        return Err(OpenFault::TooLarge {
            number: u64::from(header.blocks),
            limit: u64::from(limit),
        });
    }
    Ok(header)
}

/// Whether a format was asked for, and is another one than this.
fn is_other(asked: Option<Format>, format: Format) -> bool
    ensures other { OnTrue result (IsSomeAnd asked (λ wanted. wanted ≢ format)) }
    ensures same { OnFalse result (IsAsAsked asked format) }
{
    match asked {
        Some(wanted) => wanted != format,
        None => false,
    }
}
