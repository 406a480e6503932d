//! Laws of the steps of the commands.

ghost use Rattle.std.specs.Prelude.{◌≡◌, List, Option, Some, ℕ};
ghost use Rattle.command_words.specs.declared.command.Common.{Common};
ghost use Rattle.edit_commands.specs.Apply.{ApplySteps, IsFullForForm};
ghost use Rattle.edit_commands.specs.Edits.{EditSteps, IsFullForWords};
ghost use Rattle.edit_commands.specs.declared.edit.EditWords.{EditWords};
ghost use Rattle.refusals.specs.declared.cause.Cause.TheVariants.{Full};
ghost use Rattle.refusals.specs.declared.reason.Refusal.{Refusal};
ghost use Rattle.run_steps.specs.Act.{Act};
ghost use Rattle.run_steps.specs.Done.{Outside};
ghost use Rattle.run_steps.specs.Meaning.{EndsBy};
ghost use Rattle.run_steps.specs.declared.invocation.Invocation.{Invocation};

/// Where an edit is refused since a file is full, that file is the one that was to be edited, and at the end it has no
/// room for the edit: with the value that the edit makes of it, it would have more blocks than it may have.
pub fn a_file_that_is_full_is_so_at_the_end()
    ensures words { (common : Common) (words : EditWords) (file : List ℕ) (invocation : Invocation) (old new : Outside)
        (acts : List Act) (refusal : Refusal) (blocks limit : ℕ)
        → EndsBy (EditSteps common words file invocation) old acts new (Some refusal)
        → refusal.cause ≡ Full blocks limit
        → (refusal.name ≡ file) × IsFullForWords common words file invocation.now old new.files blocks limit }
    ensures form { (common : Common) (from : Option (List ℕ)) (word file : List ℕ) (invocation : Invocation)
        (old new : Outside) (acts : List Act) (refusal : Refusal) (blocks limit : ℕ)
        → EndsBy (ApplySteps common from word file invocation) old acts new (Some refusal)
        → refusal.cause ≡ Full blocks limit
        → (refusal.name ≡ file) × IsFullForForm common from word file invocation.now old new.files blocks limit }
{}
