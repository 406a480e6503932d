//! Laws of the steps of a batch.

ghost use Rattle.std.specs.Prelude.{◌≡◌, ◌≤◌, ◌+◌, ◌*◌, List, length, Ok, Option, Some, ℕ};
ghost use Rattle.batch_commands.specs.Batch.{BatchSteps, line_reads};
ghost use Rattle.batch_commands.specs.FullForLines.{IsFullForLine};
ghost use Rattle.batch_commands.specs.declared.batch_line.LineEdit.{LineEdit};
ghost use Rattle.command_words.specs.declared.command.Common.{Common};
ghost use Rattle.quota_value.specs.QuotaValue.{QuotaValue};
ghost use Rattle.opened_file.specs.Replace.{pieces_of};
ghost use Rattle.quota_map.specs.Asked.{Asked};
ghost use Rattle.quota_map.specs.View.{IsView, opening_reads};
ghost use Rattle.quota_types.specs.declared.file_kind.Kind.{Kind};
ghost use Rattle.refusals.specs.declared.cause.Cause.TheVariants.{Full};
ghost use Rattle.refusals.specs.declared.reason.Refusal.{Refusal};
ghost use Rattle.run_steps.specs.Act.{Act};
ghost use Rattle.run_steps.specs.Done.{Outside};
ghost use Rattle.run_steps.specs.Meaning.{EndsBy};
ghost use Rattle.run_steps.specs.declared.invocation.Invocation.{Invocation};

/// Where the edit of a line is refused since a file is full, that file is the one that was to be edited, and at the
/// end, as the lines before the refused one left it, it has no room for the edit: with the value that the edit makes of
/// it, it would have more blocks than it may have.
pub fn a_file_that_is_full_is_so_behind_lines()
    ensures lines { (common : Common) (from : Option (List ℕ)) (file : List ℕ) (invocation : Invocation)
        (old new : Outside) (acts : List Act) (refusal : Refusal) (blocks limit : ℕ)
        → EndsBy (BatchSteps common from file invocation) old acts new (Some refusal)
        → refusal.cause ≡ Full blocks limit
        → (refusal.name ≡ file) × IsFullForLine common from file invocation.now old new.files blocks limit }
{}

/// With the opening of their file lines make at most four calls of `read` for each 1,024 bytes of it, or a part of
/// them, four more, and seventeen for each line, whichever way they are made.
pub fn lines_read_a_file_four_times_at_most()
    ensures reads { (kind : Kind) (asked : Asked) (file : List ℕ) (value : QuotaValue) (lines : List LineEdit)
        → IsView (Some file) kind asked (Ok value)
        → opening_reads asked file + line_reads lines ≤ 4 + 4 * pieces_of (length file) + 17 * length lines }
{}
