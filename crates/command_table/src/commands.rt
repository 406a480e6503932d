//! The commands, behind one contract that all of them share.
ghost use Rattle.std.specs.Prelude.{◌≡◌, false, Some, Err, is_ok};
ghost use Rattle.run_steps.specs.Done.{outside_of, seen_of, tells_of};
ghost use Rattle.command_table.specs.CarriedOut.{CommandCommits, IsCarriedOut, IsToldAsUsed};
ghost use Rattle.command_table.specs.Table.{described};
ghost use Rattle.refusals.specs.declared.reason.Refusal.{Refusal};

use crate::usage::unknown_command;
use batch_commands::apply_lines;
use command_words::Command;
use edit_commands::{EditWords, apply_by_word, edit_by_words, print_by_word};
use file_commands::{check_file, convert_file, generate_file, report_file};
use outside::{Link, Sink, Source, Store};
use refusals::Refusal;
use run_steps::Invocation;
use serve_command::serve_files;
use std::alloc::Global;

/// Carries out a command, but for its error line.
///
/// # Errors
///
/// The command is refused at one of its steps, an object outside fails, or there is not enough memory.
pub fn carry_out<S: Store, I: Source, O: Sink, E: Sink, L: Link>(
    alloc: Global,
    command: Command,
    store: &mut S,
    input: &mut I,
    out: &mut O,
    err: &mut E,
    link: &mut L,
    invocation: Invocation,
) -> Result<(), Refusal>
    requires known { (described command).known }
    ensures carries { IsCarriedOut (described command) invocation (tells_of S.tells I.tells O.tells E.tells L.tells)
        (seen_of (S.seen store.old) (I.seen input.old) (O.seen out.old) (E.seen err.old) (L.seen link.old))
        (seen_of (S.seen store.new) (I.seen input.new) (O.seen out.new) (E.seen err.new) (L.seen link.new)) result }
    // A faulty word is refused before anything is done.
    ensures word { (refusal : Refusal) → (described command).faulty ≡ Some refusal → result ≡ Err refusal }
    ensures store { (refusal : Refusal) → (described command).faulty ≡ Some refusal → store.new ≡ store.old }
    ensures quiet { (refusal : Refusal) → (described command).faulty ≡ Some refusal → err.new ≡ err.old }
    // A command leaves alone what it does not use.
    ensures input { (described command).uses.input ≡ false → input.new ≡ input.old }
    ensures out { (described command).uses.out ≡ false → out.new ≡ out.old }
    ensures err { (described command).uses.warns ≡ false → err.new ≡ err.old }
    ensures link { (described command).uses.link ≡ false → link.new ≡ link.old }
    ensures source { I.keeps false input.old input.new }
    // All that is committed are files that its steps come to, in which no other file has changed than the command
    // changes; and where it changes files at one moment, those of one moment alone: of the end, where it was done.
    ensures commits { IsToldAsUsed (described command).uses (tells_of S.tells I.tells O.tells E.tells L.tells)
        → CommandCommits (described command) invocation (is_ok result)
        (outside_of (seen_of (S.seen store.old) (I.seen input.old) (O.seen out.old) (E.seen err.old) (L.seen link.old)))
        (S.seen store.new).files (λ worlds. S.commits worlds store.old store.new) }
{
    match command {
        Command::Report {
            common,
            options,
            file,
        } => report_file(alloc, common, &options, file, store, out, invocation.now),
        Command::SetLimits {
            common,
            name,
            limits,
            file,
        } => {
            let words = EditWords::Limits { name, limits };
            edit_by_words(alloc, common, words, file, store, err, invocation)
        }
        Command::CopyLimits {
            common,
            proto,
            name,
            file,
        } => {
            let words = EditWords::Copy { proto, name };
            edit_by_words(alloc, common, words, file, store, err, invocation)
        }
        Command::SetGrace {
            common,
            block,
            inode,
            file,
        } => {
            let words = EditWords::Grace { block, inode };
            edit_by_words(alloc, common, words, file, store, err, invocation)
        }
        Command::SetTimes {
            common,
            name,
            block,
            inode,
            file,
        } => {
            let words = EditWords::Times { name, block, inode };
            edit_by_words(alloc, common, words, file, store, err, invocation)
        }
        Command::Batch {
            common,
            input: from,
            file,
        } => apply_lines(alloc, common, from, file, store, input, invocation.now),
        Command::PrintForm { common, name, file } => {
            print_by_word(alloc, common, name, file, store, out)
        }
        Command::ApplyForm {
            common,
            input: from,
            name,
            file,
        } => apply_by_word(
            alloc, common, from, name, file, store, input, err, invocation,
        ),
        Command::Check {
            common,
            fresh,
            device,
            input: from,
            file,
        } => check_file(
            alloc,
            common,
            fresh,
            device,
            from,
            file,
            store,
            input,
            invocation.now,
        ),
        Command::Convert {
            kind,
            old,
            new,
            source,
            target,
        } => convert_file(alloc, kind, old, new, source, target, store),
        Command::Serve {
            format,
            calls,
            port,
            exports,
        } => serve_files(alloc, format, calls, port, exports, store, link),
        Command::Script => Err(unknown_command(alloc)),
        Command::Generate { seed, count, file } => {
            generate_file(alloc, seed, count, file, store, out, invocation.now)
        }
    }
}
