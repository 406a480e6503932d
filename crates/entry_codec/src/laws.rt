//! Laws of the layout: what is written is read again, and bytes and values determine each other.

ghost use Rattle.std.specs.Prelude.{◌≡◌, ◌^◌, ◌<◌, ◌≤◌, ℕ, List, None, Ok, Some, length};
ghost use Rattle.entry_codec.specs.Spelling.{AreBytes, AreOf, IsEntryIn, IsSpelling};
ghost use Rattle.entry_codec.specs.Header.{HeaderNumbers, header_of};
ghost use Rattle.quota_types.specs.Bytes.{byte_at};
ghost use Rattle.quota_types.specs.Format.{IsTreeFormat, record_size};
ghost use Rattle.quota_types.specs.Kept.{kept_of};
ghost use Rattle.quota_types.specs.Range.{unfit};

use crate::{Header, HeaderFault, read_entry, read_header, write_entry, write_header};
use byte_order::Order;
use quota_types::{Format, Rec};

/// A header that was written is read again.
pub fn a_header_is_read_again(
    header: &Header,
    block: &mut [u8; 1024],
) -> Result<Header, HeaderFault>
    requires tree { IsTreeFormat header.now.format }
    requires blocks { 2 ≤ header.now.blocks }
    requires block_grace { header.now.grace.block < 2 ^ 32 }
    requires inode_grace { header.now.grace.inode < 2 ^ 32 }
    ensures { result ≡ Ok header.now }
{
    write_header(header, block);
    read_header(block, header.kind, Order::Little)
}

/// An entry that was written is read again.
pub fn an_entry_is_read_again(
    format: Format,
    id: u32,
    rec: &Rec,
    bytes: &mut [u8],
) -> Option<(u32, Rec)>
    requires tree { IsTreeFormat format }
    requires size { length bytes.old ≡ record_size format }
    requires fits { unfit format id rec.now ≡ None }
    requires kept { kept_of format id rec.now ≡ rec.now }
    ensures { result ≡ Some (id, rec.now) }
{
    write_entry(format, id, rec, bytes);
    read_entry(format, bytes, Order::Little)
}

/// Numbers are those of one header at most.
pub fn numbers_are_of_one_header()
    ensures { (numbers : HeaderNumbers) (header other : Header) → AreOf header numbers → AreOf other numbers
        → header ≡ other }
{}

/// Bytes that are read in an order are an entry of one identifier and one record at most.
pub fn an_entry_has_one_meaning()
    ensures id { (order : Order) (format : Format) (bytes : List ℕ) (id other_id : ℕ) (rec other : Rec)
        → IsEntryIn order format bytes id rec → IsEntryIn order format bytes other_id other → id ≡ other_id }
    ensures rec { (order : Order) (format : Format) (bytes : List ℕ) (id other_id : ℕ) (rec other : Rec)
        → IsEntryIn order format bytes id rec → IsEntryIn order format bytes other_id other → rec ≡ other }
{}

/// An identifier's record is spelled by one entry at most in which padding is 0, so `write_entry` has no choice.
pub fn an_entry_has_one_spelling()
    ensures { (format : Format) (bytes other : List ℕ) (id : ℕ) (rec : Rec) → IsSpelling format bytes id rec
        → IsSpelling format other id rec → bytes ≡ other }
{}

/// The numbers of a header are spelled by one row of 32 bytes, so `write_header` has no choice.
pub fn numbers_have_one_spelling()
    ensures { (file other : List ℕ) → AreBytes file → AreBytes other → header_of file ≡ header_of other → (at : ℕ)
        → at < 32 → byte_at file at ≡ byte_at other at }
{}
