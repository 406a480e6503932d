ghost use Rattle.std.specs.Prelude.{◌≡◌};
ghost use Rattle.refusals.specs.Piece.{joined};
ghost use Rattle.quota_client.specs.Line.{block_warning, file_warning, grace_of, is_answered, lines_of, none_lines};
ghost use Rattle.quota_client.specs.Line.{quota_line, quota_lines};
ghost use Rattle.quota_client.specs.Writing.{Writes};

use crate::mode::Mode;
use crate::usage::Usage;
use input_text::TextBuffer;
use outside::{Sink, SinkFault};
use refusals::Piece::{self, Number, Text};
use refusals::put_pieces;
use rquota_xdr::{Quota, Reply};

/// Whether a path is answered: by its quota, or by that it has none.
pub(crate) fn is_answered(reply: &Option<Reply>) -> bool
    ensures { result ≡ is_answered reply.now }
{
    matches!(reply, Some(Reply::Quota { .. } | Reply::NoQuota { .. }))
}

/// Writes what is printed of a path by its reply, or by that there was none.
///
/// # Errors
///
/// The sink failed. It then has a prefix of it.
pub(crate) fn write_lines<O: Sink>(
    out: &mut O,
    mode: Mode,
    path: &[u8],
    reply: Option<Reply>,
) -> Result<(), SinkFault>
    ensures { Writes O.tells (lines_of mode path.now reply) (O.seen out.old) (O.seen out.new) result }
{
    match reply {
        None => write_pieces(out, &[Text(path), Text(b": no reply\n")]),
        Some(Reply::Quota { quota, .. }) => write_quota(out, mode, path, &quota),
        Some(Reply::NoQuota { .. }) => write_none(out, mode, path),
        Some(Reply::Denied { .. }) => write_pieces(out, &[Text(path), Text(b": denied\n")]),
        Some(_) => write_pieces(out, &[Text(path), Text(b": refused\n")]),
    }
}

/// Writes what is printed of a quota.
fn write_quota<O: Sink>(
    out: &mut O,
    mode: Mode,
    path: &[u8],
    quota: &Quota,
) -> Result<(), SinkFault>
    ensures { Writes O.tells (quota_lines mode path.now quota.now) (O.seen out.old) (O.seen out.new) result }
{
    let blocks = Usage::of_blocks(quota);
    let files = Usage::of_files(quota);
    let block_grace = blocks.grace();
    let file_grace = files.grace();
    match mode {
        Mode::Quota => write_numbers(
            out,
            path,
            &blocks,
            block_grace.as_slice(),
            &files,
            file_grace.as_slice(),
        ),
        Mode::Warn => {
            write_block_warning(out, path, &blocks, block_grace.as_slice())?;
            write_file_warning(out, path, &files, file_grace.as_slice())
        }
    }
}

/// Writes what is printed where there is no quota.
fn write_none<O: Sink>(out: &mut O, mode: Mode, path: &[u8]) -> Result<(), SinkFault>
    ensures { Writes O.tells (none_lines mode path.now) (O.seen out.old) (O.seen out.new) result }
{
    match mode {
        Mode::Quota => write_pieces(out, &[Text(path), Text(b": none\n")]),
        Mode::Warn => Ok(()),
    }
}

/// Writes the line with all numbers.
fn write_numbers<'a, O: Sink>(
    out: &mut O,
    path: &'a [u8],
    blocks: &Usage,
    block_grace: &'a [u8],
    files: &Usage,
    file_grace: &'a [u8],
) -> Result<(), SinkFault>
    requires block_grace { block_grace.now ≡ grace_of blocks.now }
    requires file_grace { file_grace.now ≡ grace_of files.now }
    ensures { Writes O.tells (quota_line path.now blocks.now files.now) (O.seen out.old) (O.seen out.new) result }
{
    let pieces = [
        Text(path),
        Text(b": "),
        Number(u128::from(blocks.used)),
        Text(b" KiB, soft "),
        Number(u128::from(blocks.soft)),
        Text(b", hard "),
        Number(u128::from(blocks.hard)),
        Text(b", grace "),
        Text(block_grace),
        Text(b", files "),
        Number(u128::from(files.used)),
        Text(b", soft "),
        Number(u128::from(files.soft)),
        Text(b", hard "),
        Number(u128::from(files.hard)),
        Text(b", grace "),
        Text(file_grace),
        Text(b"\n"),
    ];
    write_pieces(out, &pieces)
}

/// Writes the line on blocks, where their soft limit is exceeded.
fn write_block_warning<'a, O: Sink>(
    out: &mut O,
    path: &'a [u8],
    blocks: &Usage,
    grace: &'a [u8],
) -> Result<(), SinkFault>
    requires { grace.now ≡ grace_of blocks.now }
    ensures { Writes O.tells (block_warning path.now blocks.now) (O.seen out.old) (O.seen out.new) result }
{
    if !blocks.exceeded {
        return Ok(());
    }
    let pieces = [
        Text(path),
        Text(b": over block limit by "),
        Number(u128::from(blocks.used.saturating_sub(blocks.soft))),
        Text(b" KiB, grace "),
        Text(grace),
        Text(b"\n"),
    ];
    write_pieces(out, &pieces)
}

/// Writes the line on files, where their soft limit is exceeded.
fn write_file_warning<'a, O: Sink>(
    out: &mut O,
    path: &'a [u8],
    files: &Usage,
    grace: &'a [u8],
) -> Result<(), SinkFault>
    requires { grace.now ≡ grace_of files.now }
    ensures { Writes O.tells (file_warning path.now files.now) (O.seen out.old) (O.seen out.new) result }
{
    if !files.exceeded {
        return Ok(());
    }
    let pieces = [
        Text(path),
        Text(b": over file limit by "),
        Number(u128::from(files.used.saturating_sub(files.soft))),
        Text(b", grace "),
        Text(grace),
        Text(b"\n"),
    ];
    write_pieces(out, &pieces)
}

/// Writes pieces, one after another.
fn write_pieces<'a, O: Sink>(out: &mut O, pieces: &[Piece<'a>]) -> Result<(), SinkFault>
    ensures { Writes O.tells (joined pieces.now) (O.seen out.old) (O.seen out.new) result }
{
    let mut text = TextBuffer::new();
    put_pieces(&mut text, out, pieces)?;
    text.flush(out)
}
