ghost use Rattle.std.specs.Prelude.{◌≡◌, ◌+◌, ◌≤◌, ◌++◌, length, OnOk, OnErr};
ghost use Rattle.id_names.specs.FirstMatch.{first_name};
ghost use Rattle.outside.specs.Count.{Rose};
ghost use Rattle.outside.specs.Gathering.{Gathers, WritesPrefix};
ghost use Rattle.report_text.specs.Report.{left_in, name_of, numbered, shown_name, column, columns_in, columns_of};
ghost use Rattle.report_text.specs.Report.{entry_line, grace_end, grace_left, is_shown, shown_line};

use crate::page::{CAPACITY, Page};
use crate::period_text;
use crate::usage::Usage;
use arrayvec::ArrayVec;
use id_names::Names;
use outside::{Sink, SinkFault};
use quota_types::Entry;
use report_options::Options;

/// How many places a name has. A longer one widens its column.
const NAME_PLACES: usize = 12;

/// How many bytes a name has at most.
const NAME: usize = 255;

/// How many places the grace column has. A longer text widens it.
const GRACE_PLACES: usize = 6;

/// How many digits a number below 2^64 has at most.
const NUMBER: usize = 20;

/// How many bytes the text of a grace period has at most: a number, and `days`.
const GRACE: usize = NUMBER + 4;

/// How many bytes the columns on blocks, or on inodes, have at most: three numbers and a grace period, a space before
/// each.
const COLUMNS: usize = 3 * (1 + NUMBER) + 1 + GRACE;

/// How many bytes a line has at most: a name, a space, two flags, the columns on blocks and on inodes, and a newline.
const LINE: usize = NAME + 1 + 2 + 2 * COLUMNS + 1;

/// Puts the line of an identifier, where it is shown.
pub(crate) fn put_entry<O: Sink>(
    entry: &Entry,
    names: &Names,
    now: u64,
    options: &Options,
    text: &mut Page,
    sink: &mut O,
) -> Result<(), SinkFault>
    ensures ok { OnOk result (Gathers O.tells (O.seen sink.old).written text.old (O.seen sink.new).written text.new
        (shown_line (first_name names.now) now options.now (entry.now.id, entry.now.rec))) }
    ensures fault { OnErr result (WritesPrefix O.tells (O.seen sink.old).written text.old (O.seen sink.new).written
        (shown_line (first_name names.now) now options.now (entry.now.id, entry.now.rec))) }
    ensures cause { OnErr result (Rose (O.seen sink.old).faults (O.seen sink.new).faults) }
    ensures later { (O.seen sink.old).faults ≤ (O.seen sink.new).faults }
{
    if !is_shown(entry, options) {
        return Ok(());
    }
    text.make_room(sink, LINE)?;
    push_entry(text, entry, names, now, options);
    Ok(())
}

/// Whether an identifier has a line: one that uses neither space nor inodes has it only where all are shown.
fn is_shown(entry: &Entry, options: &Options) -> bool
    ensures { result ≡ is_shown options.now (entry.now.id, entry.now.rec) }
{
    options.verbose || !(entry.rec.space == 0 && entry.rec.inodes == 0)
}

/// Appends the line of an identifier.
#[inline(always)]
#[tactic(auto, unfolding(crate::specs::Report::entry_line))]
fn push_entry(page: &mut Page, entry: &Entry, names: &Names, now: u64, options: &Options)
    requires { length page.old + LINE ≤ CAPACITY }
    ensures { page.new ≡ page.old ++ entry_line (first_name names.now) now options.now (entry.now.id, entry.now.rec) }
{
    let blocks = Usage::of_blocks(&entry.rec);
    let inodes = Usage::of_inodes(&entry.rec);
    push_name(page, names, entry.id, options);
    page.push_text(&[b' ', blocks.flag(), inodes.flag()]);
    push_columns(page, 10, &blocks, now, options);
    push_columns(page, 8, &inodes, now, options);
    page.push_text(b"\n");
}

/// Appends the name of an identifier; where numbers are asked for, `#` and the identifier.
fn push_name(page: &mut Page, names: &Names, id: u32, options: &Options)
    requires { length page.old + NAME ≤ CAPACITY }
    ensures text { page.new ≡ page.old ++ left_in NAME_PLACES (name_of (first_name names.now) options.now id) }
    ensures room { length page.new ≤ length page.old + NAME }
{
    if options.numeric {
        push_numbered(page, id);
    } else {
        push_shown_name(page, names, id);
    }
}

/// Appends the name of an identifier; where it has none, `#` and the identifier.
fn push_shown_name(page: &mut Page, names: &Names, id: u32)
    requires { length page.old + NAME ≤ CAPACITY }
    ensures text { page.new ≡ page.old ++ left_in NAME_PLACES (shown_name (first_name names.now) id) }
    ensures room { length page.new ≤ length page.old + NAME }
{
    match names.name_of(id) {
        Some(name) => page.push_left(NAME_PLACES, name),
        None => push_numbered(page, id),
    }
}

/// Appends `#` and the identifier.
fn push_numbered(page: &mut Page, id: u32)
    requires { length page.old + NAME ≤ CAPACITY }
    ensures text { page.new ≡ page.old ++ left_in NAME_PLACES (numbered id) }
    ensures room { length page.new ≤ length page.old + NAME }
{
    page.push_text(b"#");
    page.push_left_number(NAME_PLACES - 1, id);
}

/// Appends the four columns on blocks, or on inodes.
#[inline(always)]
#[tactic(auto, unfolding(crate::specs::Report::grace_of))]
fn push_columns(page: &mut Page, width: usize, usage: &Usage, now: u64, options: &Options)
    requires narrow { width ≤ NUMBER }
    requires room { length page.old + COLUMNS ≤ CAPACITY }
    ensures text { page.new ≡ page.old ++ columns_in width (columns_of options.now now usage.now) }
    ensures room { length page.new ≤ length page.old + COLUMNS }
{
    page.push_number(width, usage.used);
    page.push_number(width, usage.soft);
    page.push_number(width, usage.hard);
    if options.raw {
        push_grace_end(page, usage);
    } else {
        push_grace_left(page, usage, now);
    }
}

/// Appends the column of what is left of the grace period.
fn push_grace_left(page: &mut Page, usage: &Usage, now: u64)
    requires { length page.old + 1 + GRACE ≤ CAPACITY }
    ensures text { page.new ≡ page.old ++ column GRACE_PLACES (grace_left now usage.now) }
    ensures room { length page.new ≤ length page.old + 1 + GRACE }
{
    if !usage.is_over_soft() {
        page.push_column(GRACE_PLACES, b"-");
    } else if now < usage.timer {
        let mut left = ArrayVec::new();
        period_text(usage.timer - now, &mut left);
        page.push_column(GRACE_PLACES, left.as_slice());
    } else {
        page.push_column(GRACE_PLACES, b"none");
    }
}

/// Appends the column of when the grace period ends.
fn push_grace_end(page: &mut Page, usage: &Usage)
    requires { length page.old + 1 + GRACE ≤ CAPACITY }
    ensures text { page.new ≡ page.old ++ column GRACE_PLACES (grace_end usage.now) }
    ensures room { length page.new ≤ length page.old + 1 + GRACE }
{
    if usage.is_over_soft() {
        page.push_number(GRACE_PLACES, usage.timer);
    } else {
        page.push_column(GRACE_PLACES, b"0");
    }
}
