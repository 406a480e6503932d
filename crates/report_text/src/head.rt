ghost use Rattle.std.specs.Prelude.{◌≡◌, ◌+◌, ◌≤◌, ◌++◌, length, OnOk, OnErr};
ghost use Rattle.outside.specs.Count.{Rose};
ghost use Rattle.outside.specs.Gathering.{Gathers, WritesPrefix};
ghost use Rattle.report_text.specs.Period.{period_of};
ghost use Rattle.report_text.specs.Report.{head_of, title_front, title_line, grace_line, heading_line, hyphen_line};

use crate::page::{CAPACITY, Page};
use crate::period_text;
use arrayvec::ArrayVec;
use outside::{Sink, SinkFault};
use quota_types::{Grace, Kind};

/// How many bytes the three lines below the title have at most.
const BELOW: usize = 105 + 90 + 90;

/// Puts the four lines in front of the columns.
pub(crate) fn put_head<O: Sink>(
    kind: Kind,
    title: &str,
    grace: Grace,
    text: &mut Page,
    sink: &mut O,
) -> Result<(), SinkFault>
    ensures ok { OnOk result (Gathers O.tells (O.seen sink.old).written text.old (O.seen sink.new).written text.new
        (head_of kind title.now grace)) }
    ensures fault { OnErr result (WritesPrefix O.tells (O.seen sink.old).written text.old (O.seen sink.new).written
        (head_of kind title.now grace)) }
    ensures cause { OnErr result (Rose (O.seen sink.old).faults (O.seen sink.new).faults) }
    ensures later { (O.seen sink.old).faults ≤ (O.seen sink.new).faults }
{
    put_title(kind, title, text, sink)?;
    text.make_room(sink, BELOW)?;
    push_below(text, kind, grace);
    Ok(())
}

/// Puts the first line.
fn put_title<O: Sink>(
    kind: Kind,
    title: &str,
    text: &mut Page,
    sink: &mut O,
) -> Result<(), SinkFault>
    ensures ok { OnOk result (Gathers O.tells (O.seen sink.old).written text.old (O.seen sink.new).written text.new
        (title_line kind title.now)) }
    ensures fault { OnErr result (WritesPrefix O.tells (O.seen sink.old).written text.old (O.seen sink.new).written
        (title_line kind title.now)) }
    ensures cause { OnErr result (Rose (O.seen sink.old).faults (O.seen sink.new).faults) }
    ensures later { (O.seen sink.old).faults ≤ (O.seen sink.new).faults }
{
    text.put(sink, title_front(kind))?;
    text.put(sink, title.as_bytes())?;
    text.put(sink, b"\n")
}

/// What stands in front of the title.
#[tactic(auto, unfolding(crate::specs::Report::title_front))]
fn title_front(kind: Kind) -> &'static [u8]
    ensures { result.now ≡ title_front kind }
{
    match kind {
        Kind::User => b"*** Report for user quotas on ",
        Kind::Group => b"*** Report for group quotas on ",
        Kind::Project => b"*** Report for project quotas on ",
    }
}

/// Appends the three lines below the title.
fn push_below(page: &mut Page, kind: Kind, grace: Grace)
    requires { length page.old + BELOW ≤ CAPACITY }
    ensures { page.new ≡ page.old ++ (grace_line grace ++ heading_line kind ++ hyphen_line) }
{
    push_grace_line(page, grace);
    page.push_text(heading_line(kind));
    push_hyphens(page);
}

/// Appends the second line.
#[tactic(auto, unfolding(crate::specs::Report::grace_line))]
fn push_grace_line(page: &mut Page, grace: Grace)
    requires { length page.old + 105 ≤ CAPACITY }
    ensures text { page.new ≡ page.old ++ grace_line grace }
    ensures room { length page.new ≤ length page.old + 105 }
{
    push_period(page, b"Block grace time: ", grace.block);
    push_period(page, b"; Inode grace time: ", grace.inode);
    page.push_text(b"\n");
}

/// Appends a text and that of a period of `seconds` seconds.
fn push_period(page: &mut Page, front: &[u8], seconds: u64)
    requires { length page.old + length front.now + 24 ≤ CAPACITY }
    ensures text { page.new ≡ page.old ++ (front.now ++ period_of seconds) }
    ensures room { length page.new ≤ length page.old + length front.now + 24 }
{
    let mut period = ArrayVec::new();
    period_text(seconds, &mut period);
    page.push_text(front);
    page.push_text(period.as_slice());
}

/// The line above the columns.
#[tactic(auto, unfolding(crate::specs::Report::heading_line))]
fn heading_line(kind: Kind) -> &'static [u8]
    ensures text { result.now ≡ heading_line kind }
    ensures long { length result.now ≡ 90 }
{
    match kind {
        Kind::User => {
            b"User                  used       soft       hard  grace    files     soft     hard  grace\n"
        }
        Kind::Group => {
            b"Group                 used       soft       hard  grace    files     soft     hard  grace\n"
        }
        Kind::Project => {
            b"Project               used       soft       hard  grace    files     soft     hard  grace\n"
        }
    }
}

/// Appends the line of hyphens.
#[tactic(auto, unfolding(crate::specs::Report::hyphen_line))]
fn push_hyphens(page: &mut Page)
    requires { length page.old + 90 ≤ CAPACITY }
    ensures { page.new ≡ page.old ++ hyphen_line }
{
    page.push_repeated(89, b'-');
    page.push_text(b"\n");
}
