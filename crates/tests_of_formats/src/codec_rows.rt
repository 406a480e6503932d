use entry_codec::{
    Header, HeaderFault, Order, entries_per_block, read_entry, read_header, write_entry,
    write_header,
};
use quota_types::{Format, Grace, Kind, Rec, check_record, kept};
use std::process::Abort;

/// The header of an empty file, as the quota tools write it: vfsv1 of users, both grace periods a week, two blocks.
const EMPTY: [u8; 32] = [
    0x11, 0x1f, 0xc0, 0xd9, 1, 0, 0, 0, 0x80, 0x3a, 9, 0, 0x80, 0x3a, 9, 0, 0, 0, 0, 0, 2, 0, 0, 0,
    0, 0, 0, 0, 0, 0, 0, 0,
];

/// The same header, as a value.
const EMPTY_HEADER: Header = Header {
    kind: Kind::User,
    format: Format::V2R1,
    grace: Grace {
        block: 604_800,
        inode: 604_800,
    },
    flags: 0,
    blocks: 2,
    free: 0,
    first: 0,
};

/// A place of `EMPTY` with the byte that is put there, the kind that is wanted, and what is read.
type HeaderRow = (usize, u8, Kind, Result<Header, HeaderFault>);

#[rattlefmt::skip]
const HEADERS: &[HeaderRow] = &[
    (4, 1, Kind::User, Ok(EMPTY_HEADER)),
    (4, 1, Kind::Group, Err(HeaderFault::WrongKind)),
    (4, 1, Kind::Project, Err(HeaderFault::WrongKind)),
    (4, 0, Kind::User, Ok(Header { format: Format::V2R0, ..EMPTY_HEADER })),
    (4, 2, Kind::User, Err(HeaderFault::UnknownVersion)),
    (7, 1, Kind::User, Err(HeaderFault::UnknownVersion)),
    (4, 2, Kind::Group, Err(HeaderFault::WrongKind)),
    (3, 0, Kind::User, Err(HeaderFault::NotQuota)),
    (0, 0x14, Kind::Project, Err(HeaderFault::NotQuota)),
    (20, 1, Kind::User, Err(HeaderFault::BadBlockCount)),
];

/// A first block with `EMPTY`, in which one byte is put, and filled up with another one.
fn block_of(at: usize, byte: u8, fill: u8) -> [u8; 1024] {
    let mut block = [fill; 1024];
    block[..32].copy_from_slice(&EMPTY);
    if at < 1024 {
        block[at] = byte;
    }
    block
}

fn expect_headers(rt: &impl Abort, rows: &[HeaderRow]) {
    for row in rows {
        let found = read_header(&block_of(row.0, row.1, 0), row.2, Order::Little);
        assert!(rt;
            found == row.3,
            "byte {} is {}, {:?}: {found:?}",
            row.0,
            row.1,
            row.2
        );
    }
}

#[test]
fn reads_a_header_or_names_its_first_fault(rt: HostRuntime) {
    expect_headers(&rt, HEADERS);
}

/// The block of 255s into which the header was written.
fn block_with(header: &Header) -> Option<[u8; 1024]> {
    let mut block = [0xff; 1024];
    let narrow = u64::from(u32::MAX);
    if header.format.is_flat()
        || header.blocks < 2
        || header.grace.block > narrow
        || header.grace.inode > narrow
    {
        return None;
    }
    write_header(header, &mut block);
    Some(block)
}

fn expect_written_header(rt: &impl Abort, header: &Header, want: &[u8; 1024]) {
    let found = block_with(header);
    assert!(rt; found == Some(*want), "{header:?}: {found:?}");
}

#[test]
fn writes_a_header_and_leaves_the_other_bytes(rt: HostRuntime) {
    expect_written_header(&rt, &EMPTY_HEADER, &block_of(4, 1, 0xff));
}

/// The kinds, each with the first bytes of its files.
const MAGICS: &[(Kind, [u8; 4])] = &[
    (Kind::User, [0x11, 0x1f, 0xc0, 0xd9]),
    (Kind::Group, [0x27, 0x19, 0xc0, 0xd9]),
    (Kind::Project, [0x14, 0x3f, 0xc0, 0xd9]),
];

/// An empty file of a kind with these first bytes, in a block of 255s.
fn block_from(magic: [u8; 4]) -> [u8; 1024] {
    let mut block = block_of(4, 1, 0xff);
    block[..4].copy_from_slice(&magic);
    block
}

/// The header of an empty file of a kind.
fn header_of(kind: Kind) -> Header {
    Header {
        kind,
        ..EMPTY_HEADER
    }
}

/// Turns each number of four bytes round.
fn turn_words(bytes: &mut [u8]) {
    for word in bytes.chunks_exact_mut(4) {
        word.reverse();
    }
}

/// Whether a file of a kind is read as one of this kind, and refused as one of another kind, in either byte order.
fn is_read_as(block: &[u8; 1024], kind: Kind, wanted: Kind) -> bool {
    let want = if kind == wanted {
        Ok(header_of(kind))
    } else {
        Err(HeaderFault::WrongKind)
    };
    let mut turned = *block;
    turn_words(&mut turned);
    read_header(block, wanted, Order::Little) == want
        && read_header(&turned, wanted, Order::Big) == want
}

fn expect_magics(rt: &impl Abort, rows: &[(Kind, [u8; 4])]) {
    for (kind, magic) in rows {
        let block = block_from(*magic);
        expect_written_header(rt, &header_of(*kind), &block);
        for (wanted, _) in rows {
            assert!(rt;
                is_read_as(&block, *kind, *wanted),
                "{kind:?} as {wanted:?}"
            );
        }
    }
}

#[test]
fn a_file_begins_with_the_magic_number_of_its_kind_alone(rt: HostRuntime) {
    expect_magics(&rt, MAGICS);
}

const ZEROS: Rec = Rec {
    ihard: 0,
    isoft: 0,
    inodes: 0,
    bhard: 0,
    bsoft: 0,
    space: 0,
    btime: 0,
    itime: 0,
};

/// The record of `OVER`.
const OVER_RECORD: Rec = Rec {
    inodes: 1,
    bhard: 8,
    bsoft: 2,
    space: 4096,
    btime: 1_700_604_800,
    ..ZEROS
};

/// An entry of vfsv1: identifier 1000 has one inode and 4,096 bytes in use, which exceeds its soft limit of 2 KiB.
const OVER: &[u8] = b"\xe8\x03\0\0\0\0\0\0\
    \0\0\0\0\0\0\0\0\0\0\0\0\0\0\0\0\x01\0\0\0\0\0\0\0\
    \x08\0\0\0\0\0\0\0\x02\0\0\0\0\0\0\0\x00\x10\0\0\0\0\0\0\
    \x80\x2b\x5d\x65\0\0\0\0\0\0\0\0\0\0\0\0";

/// The same entry with a byte of its padding other than 0.
const PADDED: &[u8] = b"\xe8\x03\0\0\0\x07\0\0\
    \0\0\0\0\0\0\0\0\0\0\0\0\0\0\0\0\x01\0\0\0\0\0\0\0\
    \x08\0\0\0\0\0\0\0\x02\0\0\0\0\0\0\0\x00\x10\0\0\0\0\0\0\
    \x80\x2b\x5d\x65\0\0\0\0\0\0\0\0\0\0\0\0";

/// The same entry of vfsv0.
const NARROW: &[u8] = b"\xe8\x03\0\0\
    \0\0\0\0\0\0\0\0\x01\0\0\0\x08\0\0\0\x02\0\0\0\
    \x00\x10\0\0\0\0\0\0\x80\x2b\x5d\x65\0\0\0\0\0\0\0\0\0\0\0\0";

/// An entry of vfsv1 in which every byte but the first one of the inode timer is 0.
const MARKED: &[u8] = b"\0\0\0\0\0\0\0\0\
    \0\0\0\0\0\0\0\0\0\0\0\0\0\0\0\0\0\0\0\0\0\0\0\0\
    \0\0\0\0\0\0\0\0\0\0\0\0\0\0\0\0\0\0\0\0\0\0\0\0\
    \0\0\0\0\0\0\0\0\x01\0\0\0\0\0\0\0";

/// An entry, and the identifier and the record that are read there.
type ReadRow = (&'static str, Format, &'static [u8], Option<(u32, Rec)>);

const READ: &[ReadRow] = &[
    ("unused", Format::V2R1, &[0; 72], None),
    ("marked", Format::V2R1, MARKED, Some((0, ZEROS))),
    ("in use", Format::V2R1, OVER, Some((1000, OVER_RECORD))),
    ("padded", Format::V2R1, PADDED, Some((1000, OVER_RECORD))),
    ("vfsv0", Format::V2R0, NARROW, Some((1000, OVER_RECORD))),
];

/// Whether the bytes have the size of an entry and this is read there.
fn reads(format: Format, bytes: &[u8], want: Option<(u32, Rec)>) -> bool {
    if format.is_flat() || bytes.len() != format.record_size() {
        return false;
    }
    read_entry(format, bytes, Order::Little) == want
}

fn expect_read(rt: &impl Abort, rows: &[ReadRow]) {
    for row in rows {
        assert!(rt; reads(row.1, row.2, row.3), "{}", row.0);
    }
}

#[test]
fn reads_the_entries_of_a_data_block(rt: HostRuntime) {
    expect_read(&rt, READ);
}

/// An identifier and a record, and the entry that is written over bytes of 255.
type WriteRow = (Format, u32, Rec, &'static [u8]);

const WRITTEN: &[WriteRow] = &[
    (Format::V2R1, 1000, OVER_RECORD, OVER),
    (Format::V2R1, 0, ZEROS, MARKED),
    (Format::V2R1, 0, Rec { itime: 1, ..ZEROS }, MARKED),
    (Format::V2R0, 1000, OVER_RECORD, NARROW),
];

/// Writes what the format keeps of an identifier's record, and answers whether it did: the format has room for it, and
/// the bytes have the size of an entry.
fn writes(format: Format, id: u32, rec: Rec, bytes: &mut [u8]) -> bool {
    if format.is_flat() || bytes.len() != format.record_size() {
        return false;
    }
    match check_record(format, id, &rec) {
        Ok(()) => {
            write_entry(format, id, &kept(format, id, rec), bytes);
            true
        }
        Err(_) => false,
    }
}

fn expect_written(rt: &impl Abort, rows: &[WriteRow]) {
    for row in rows {
        let mut bytes = [0xff; 72];
        let len = row.3.len().min(72);
        let written = writes(row.0, row.1, row.2, &mut bytes[..len]);
        assert!(rt;
            written && &bytes[..len] == row.3,
            "{:?} {}: {bytes:?}",
            row.0,
            row.1
        );
    }
}

#[test]
fn writes_an_entry_over_all_its_bytes(rt: HostRuntime) {
    expect_written(&rt, WRITTEN);
}

/// A format, the bytes of an entry, and the entries of a data block.
const SIZES: &[(Format, usize, usize)] = &[(Format::V2R0, 48, 21), (Format::V2R1, 72, 14)];

fn expect_sizes(rt: &impl Abort, rows: &[(Format, usize, usize)]) {
    for row in rows {
        let as_wanted = !row.0.is_flat()
            && row.0.record_size() == row.1
            && entries_per_block(row.0) == row.2;
        assert!(rt; as_wanted, "{:?}", row.0);
    }
}

#[test]
fn entries_fill_a_block_behind_its_head(rt: HostRuntime) {
    expect_sizes(&rt, SIZES);
}
