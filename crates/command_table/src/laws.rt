//! Laws of what commands mean: which conditions make no step of one refused, what is known of the words of one, and
//! that the same views give the same effects.

ghost use Rattle.std.specs.Prelude.{◌≡◌, Bool, Contains, List, false, true, ℕ};
ghost use Rattle.command_words.specs.Asked.{command_of};
ghost use Rattle.refusals.specs.declared.cause.Cause.TheVariants.{SourceFault};
ghost use Rattle.command_words.specs.declared.command.Command.{Command};
ghost use Rattle.command_table.specs.Table.{asked_by, described};
ghost use Rattle.command_table.specs.Views.{AreAlike, SameUnlessFull, edits_records, looks_of};
ghost use Rattle.run_steps.specs.Act.{Act};
ghost use Rattle.run_steps.specs.Done.{Outside};
ghost use Rattle.run_steps.specs.Meaning.{HasEffectOf, IsSure};
ghost use Rattle.run_steps.specs.OneCommand.{UnlessFull};
ghost use Rattle.run_steps.specs.SameViews.{FileAsked, Opens};
ghost use Rattle.run_steps.specs.declared.invocation.Invocation.{Invocation};

/// The conditions of a command make no step of it refused.
pub fn conditions_make_no_step_refused()
    ensures { (command : Command) (invocation : Invocation) (old : Outside)
        → (described command).suffices invocation old → IsSure ((described command).steps invocation) old }
{}

/// What is known of the words of a command holds wherever words ask for it, in a script too.
pub fn words_ask_for_what_is_known()
    ensures { (in_script : Bool) (words : List (List ℕ)) → (asked_by described (command_of in_script words)).known }
{}

/// Words in a line of a script never use the standard input, which is the script's, and are not refused for a fault of
/// it: what reads an input there names a file.
pub fn words_in_a_script_use_no_input()
    ensures uses { (words : List (List ℕ)) → (asked_by described (command_of true words)).uses.input ≡ false }
    ensures may { (words : List (List ℕ)) (name : List ℕ)
        → (asked_by described (command_of true words)).may SourceFault name → ⊥ }
{}

/// The same views give the same effects of a command. Two worlds are alike for it where each quota file that it comes
/// to open is seen as the same value, or refused for the same cause, but for a damage; where the files of names and of
/// an input are the same; and where a target is there in both or in neither. However it ends in both, it has the same
/// acts and the same status; and as it ends in the one, so it may end in the other. One that edits records may differ
/// where it is refused for lack of blocks in one of the worlds, since two files of the same value may differ in room.
/// It opens no quota files but those of its row.
pub fn the_same_views_give_the_same_effects()
    ensures acts { (command : Command) (invocation : Invocation) (one other new to : Outside) (acts more : List Act)
        (status code : ℕ)
        → AreAlike command invocation one other
        → (effect : HasEffectOf ((described command).steps invocation) one acts new status)
        → (also : HasEffectOf ((described command).steps invocation) other more to code)
        → SameUnlessFull command effect.refusal also.refusal ((acts ≡ more) × (status ≡ code)) }
    ensures other { (command : Command) (invocation : Invocation) (one other new : Outside)
        (acts : List Act) (status : ℕ)
        → AreAlike command invocation one other
        → (effect : HasEffectOf ((described command).steps invocation) one acts new status)
        → UnlessFull (edits_records command) effect.refusal
        ((more : List Act) × (to : Outside) × (code : ℕ)
        × (also : HasEffectOf ((described command).steps invocation) other more to code)
        × SameUnlessFull command effect.refusal also.refusal ((acts ≡ more) × (status ≡ code))) }
    ensures opens { (command : Command) (invocation : Invocation) (old : Outside) (file : FileAsked)
        → Opens ((described command).steps invocation) old file → Contains (looks_of command).opens file }
{}
