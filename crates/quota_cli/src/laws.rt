//! Laws of what words mean: what holds of every effect of them, and which conditions make no step refused. For a list
//! of commands nothing is said of every effect: another choice of bytes for a changed file may give a later command
//! another answer. Of a command that reads edits, each of which is made in the file as the ones before it left it, that
//! is so as far as room counts.

ghost use Rattle.std.specs.Prelude.{◌≡◌, false, map, List, None, Ok, Option, ℕ};
ghost use Rattle.command_table.specs.Views.{AreAlike, SameUnlessFull, edits_records};
ghost use Rattle.command_words.specs.Asked.{command_of};
ghost use Rattle.command_words.specs.declared.command.Command.{Command};
ghost use Rattle.quota_cli.specs.Script.{LineSteps, LinesSteps, is_script};
ghost use Rattle.run_steps.specs.Carrying.{InARow, AreDoneInPart};
ghost use Rattle.script_lines.specs.Script.{LineSaid};
ghost use Rattle.quota_cli.specs.Headline.{Effect, CommandLine, asked, steps_asked, uses_asked};
ghost use Rattle.run_steps.specs.Act.{Act};
ghost use Rattle.run_steps.specs.Done.{Outside, RunSeen, RunTells, outside_of};
ghost use Rattle.refusals.specs.declared.cause.Cause.{Cause};
ghost use Rattle.refusals.specs.declared.reason.Refusal.{Refusal};
ghost use Rattle.run_steps.specs.Meaning.{EndsBy, IsSure};
ghost use Rattle.run_steps.specs.OneCommand.{UnlessFull};
ghost use Rattle.run_steps.specs.Run.{IsDoneInPart};

/// What a run of one command has done in part is a first part of the acts of every effect of its words, whatever such
/// an effect chooses, and of every way in which its steps end, the error line left out. Where the command reads edits,
/// that is said of all but those that are refused for lack of room.
pub fn a_run_does_a_first_part_of_every_effect()
    ensures steps { (typed : CommandLine) (tells : RunTells) (why : Option Cause) (old new : RunSeen) (acts : List Act)
        (to : Outside) (refusal : Option Refusal)
        → (uses_asked typed).reads_commands ≡ false → IsDoneInPart (steps_asked typed) tells why old new
        → EndsBy (steps_asked typed) (outside_of old) acts to refusal
        → UnlessFull (uses_asked typed).reads_edits refusal (AreDoneInPart tells acts old new) }
    ensures effect { (typed : CommandLine) (tells : RunTells) (why : Option Cause) (old new : RunSeen) (acts : List Act)
        (to : Outside) (status : ℕ)
        → (uses_asked typed).reads_commands ≡ false → IsDoneInPart (steps_asked typed) tells why old new
        → (effect : Effect typed (outside_of old) acts to status)
        → UnlessFull (uses_asked typed).reads_edits effect.refusal (AreDoneInPart tells acts old new) }
{}

/// Where one effect of words that ask for one command, which reads no edits, has status 0, no step is refused, whatever
/// is chosen.
pub fn one_effect_with_status_0_is_enough()
    ensures { (typed : CommandLine) (old to : Outside) (acts : List Act) → (uses_asked typed).reads_commands ≡ false
        → (uses_asked typed).reads_edits ≡ false
        → Effect typed old acts to 0
        → IsSure (steps_asked typed) old }
{}

/// The conditions of what words ask for make no step of it refused.
pub fn conditions_of_words_make_no_step_refused()
    ensures { (typed : CommandLine) (old : Outside)
        → (asked typed).suffices typed.invocation old → IsSure (steps_asked typed) old }
{}

/// What is known of the words of a command holds wherever words ask for it.
pub fn words_ask_for_what_is_known()
    ensures { (typed : CommandLine) → (asked typed).known }
{}

/// The lines of a script that is not refused itself are commands in a row, of which the laws of `run_steps` speak.
pub fn the_lines_of_a_script_are_commands_in_a_row()
    ensures { (now : ℕ) (lines : List LineSaid) → LinesSteps now lines None ≡ InARow (map (LineSteps now) lines) }
{}

/// The same views give the same effects of words that ask for one command, as they do of the command itself.
pub fn the_same_views_give_the_same_effects()
    ensures acts { (typed : CommandLine) (command : Command) (one other new to : Outside) (acts more : List Act)
        (status code : ℕ)
        → command_of false typed.words ≡ Ok command → is_script command ≡ false
        → AreAlike command typed.invocation one other
        → (effect : Effect typed one acts new status) → (also : Effect typed other more to code)
        → SameUnlessFull command effect.refusal also.refusal ((acts ≡ more) × (status ≡ code)) }
    ensures other { (typed : CommandLine) (command : Command) (one other new : Outside) (acts : List Act) (status : ℕ)
        → command_of false typed.words ≡ Ok command → is_script command ≡ false
        → AreAlike command typed.invocation one other
        → (effect : Effect typed one acts new status)
        → UnlessFull (edits_records command) effect.refusal
        ((more : List Act) × (to : Outside) × (code : ℕ) × (also : Effect typed other more to code)
        × SameUnlessFull command effect.refusal also.refusal ((acts ≡ more) × (status ≡ code))) }
{}
