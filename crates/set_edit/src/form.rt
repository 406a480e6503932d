ghost use Rattle.std.specs.Prelude.{◌≡◌, ◌+◌, ◌≤◌, ◌++◌, length, codes, decimal, IsTrue, OnOk, OnErr};
ghost use Rattle.std.specs.List.{flat_map};
ghost use Rattle.outside.specs.Count.{Rose};
ghost use Rattle.outside.specs.Text.{AppendsPrefix};
ghost use Rattle.set_edit.specs.Form.{form_columns, form_heading, form_of, id_front, name_front, number_column};

use arrayvec::ArrayVec;
use input_text::TextBuffer;
use itoa::Buffer;
use outside::{Sink, SinkFault};
use quota_types::{Kind, Rec};

/// How many bytes a part of the form has at most.
const CAPACITY: usize = 128;

/// Writes the form in which an editor shows the limits of an identifier, for `read_form` to read it back. The
/// identifier has this name, or `#` and its number where it has none, and `file` is the quota file's name. It takes no
/// memory of the heap.
///
/// # Errors
///
/// The sink failed. It has a prefix of the form.
#[tactic(auto, unfolding(crate::specs::Form::form_of))]
pub fn print_form<O: Sink>(
    sink: &mut O,
    kind: Kind,
    name: &[u8],
    id: u32,
    file: &str,
    rec: &Rec,
) -> Result<(), SinkFault>
    ensures ok { OnOk result (IsTrue O.tells → (O.seen sink.new).written
        ≡ (O.seen sink.old).written ++ form_of kind name.now id file.now rec.now) }
    ensures fault { OnErr result (IsTrue O.tells → AppendsPrefix (O.seen sink.old).written (O.seen sink.new).written
        (form_of kind name.now id file.now rec.now)) }
    ensures cause { OnErr result (Rose (O.seen sink.old).faults (O.seen sink.new).faults) }
    ensures later { (O.seen sink.old).faults ≤ (O.seen sink.new).faults }
{
    let middle = middle(kind, id);
    let columns = columns(rec);
    let pieces = pieces(
        name_front(kind),
        name,
        middle.as_slice(),
        file.as_bytes(),
        columns.as_slice(),
    );
    write_pieces(sink, &pieces)
}

/// The pieces of a form, in order.
fn pieces<'a>(
    front: &'a [u8],
    name: &'a [u8],
    middle: &'a [u8],
    file: &'a [u8],
    columns: &'a [u8],
) -> [&'a [u8]; 5]
    ensures { flat_map (λ piece. piece.now) result
        ≡ front.now ++ name.now ++ middle.now ++ file.now ++ columns.now }
{
    [front, name, middle, file, columns]
}

/// What stands in front of the name.
#[tactic(auto, unfolding(crate::specs::Form::name_front))]
pub(crate) fn name_front(kind: Kind) -> &'static [u8]
    ensures { result.now ≡ name_front kind }
{
    match kind {
        Kind::User => b"Disk quotas for user ",
        Kind::Group => b"Disk quotas for group ",
        Kind::Project => b"Disk quotas for project ",
    }
}

/// What stands between the name and the number.
#[tactic(auto, unfolding(crate::specs::Form::id_front))]
fn id_front(kind: Kind) -> &'static [u8]
    ensures text { result.now ≡ id_front kind }
    ensures long { length result.now ≡ 6 }
{
    match kind {
        Kind::User => b" (uid ",
        Kind::Group => b" (gid ",
        Kind::Project => b" (pid ",
    }
}

/// What stands behind the name in the title.
pub(crate) fn title_end(kind: Kind, id: u32) -> ArrayVec<u8, CAPACITY>
    ensures text { result.items ≡ id_front kind ++ decimal id ++ codes "):" }
    ensures room { length result.items ≤ 18 }
{
    let mut text = ArrayVec::new();
    let mut digits = Buffer::new();
    push(&mut text, id_front(kind));
    push(&mut text, digits.format(id).as_bytes());
    push(&mut text, b"):");
    text
}

/// The line above the limits.
#[tactic(auto, unfolding(crate::specs::Form::form_heading))]
pub(crate) fn heading() -> &'static [u8]
    ensures text { result.now ≡ form_heading }
    ensures long { length result.now ≡ 46 }
{
    b"  Filesystem blocks soft hard inodes soft hard"
}

/// What stands between the name and the file.
fn middle(kind: Kind, id: u32) -> ArrayVec<u8, CAPACITY>
    ensures { result.items
        ≡ id_front kind ++ decimal id ++ codes "):" ++ codes "\n" ++ form_heading ++ codes "\n" ++ codes "  " }
{
    let mut text = title_end(kind, id);
    push(&mut text, b"\n");
    push(&mut text, heading());
    push(&mut text, b"\n");
    push(&mut text, b"  ");
    text
}

/// What stands behind the file.
fn columns(rec: &Rec) -> ArrayVec<u8, CAPACITY>
    ensures { result.items ≡ form_columns rec.now ++ codes "\n" }
{
    let mut text = ArrayVec::new();
    push_number(&mut text, rec.kib());
    push_number(&mut text, rec.bsoft);
    push_number(&mut text, rec.bhard);
    push_number(&mut text, rec.inodes);
    push_number(&mut text, rec.isoft);
    push_number(&mut text, rec.ihard);
    push(&mut text, b"\n");
    text
}

/// Appends a space and a number.
fn push_number(text: &mut ArrayVec<u8, CAPACITY>, number: u64)
    requires { length text.old.items + 21 ≤ CAPACITY }
    ensures text { text.new.items ≡ text.old.items ++ number_column number }
    ensures room { length text.new.items ≤ length text.old.items + 21 }
{
    let mut digits = Buffer::new();
    push(text, b" ");
    push(text, digits.format(number).as_bytes());
}

/// Appends bytes.
fn push(text: &mut ArrayVec<u8, CAPACITY>, bytes: &[u8])
    requires { length text.old.items + length bytes.now ≤ CAPACITY }
    ensures text { text.new.items ≡ text.old.items ++ bytes.now }
    ensures long { length text.new.items ≡ length text.old.items + length bytes.now }
{
    text.try_extend_from_slice(bytes).unwrap();
}

/// Writes pieces one after the other.
fn write_pieces<O: Sink>(sink: &mut O, pieces: &[&[u8]]) -> Result<(), SinkFault>
    ensures ok { OnOk result (IsTrue O.tells → (O.seen sink.new).written
        ≡ (O.seen sink.old).written ++ flat_map (λ piece. piece.now) pieces.now) }
    ensures fault { OnErr result (IsTrue O.tells → AppendsPrefix (O.seen sink.old).written (O.seen sink.new).written
        (flat_map (λ piece. piece.now) pieces.now)) }
    ensures cause { OnErr result (Rose (O.seen sink.old).faults (O.seen sink.new).faults) }
    ensures later { (O.seen sink.old).faults ≤ (O.seen sink.new).faults }
{
    let mut text = TextBuffer::new();
    for piece in pieces {
        text.put(sink, piece)?;
    }
    text.flush(sink)
}
