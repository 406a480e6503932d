//! Laws of the steps of the command.

ghost use Rattle.std.specs.Prelude.{Bool, List, Ok, ℕ, true, false};
ghost use Rattle.option_words.specs.declared.export_option.ExportOption.{ExportOption};
ghost use Rattle.rquota_serve.specs.ExportedValues.{ExportedValues, nothing_exported};
ghost use Rattle.run_steps.specs.Act.{Act};
ghost use Rattle.run_steps.specs.Done.{Outside};
ghost use Rattle.run_steps.specs.Meaning.{EndsBy, IsSure};
ghost use Rattle.run_steps.specs.OneCommand.{LooksFirst};
ghost use Rattle.run_steps.specs.Received.{AreReceived, Receives};
ghost use Rattle.run_steps.specs.declared.invocation.Invocation.{Invocation};
ghost use Rattle.std.specs.Prelude.{None, ◌≡◌};
ghost use Rattle.command_words.specs.Asked.{command_of};
ghost use Rattle.command_words.specs.declared.command.Command.{Command};
ghost use Rattle.serve_command.specs.Words.{CanServe};
ghost use Rattle.serve_command.specs.Serve.{ServeSteps};
ghost use Rattle.serve_steps.specs.Exporting.{AreExported};
ghost use Rattle.quota_map.specs.Asked.{Asked};

/// The steps look at files first, and take nothing of the standard input.
pub fn serving_looks_first()
    ensures { (asked : Asked) (calls port : ℕ) (exports : List ExportOption) (invocation : Invocation)
        → LooksFirst true false (ServeSteps asked calls port exports invocation) }
{}

/// Where the steps pass, they received as many datagrams as they were to answer, the first ones.
pub fn serving_receives_its_calls()
    ensures receives { (asked : Asked) (calls port : ℕ) (exports : List ExportOption) (invocation : Invocation)
        → Receives calls (ServeSteps asked calls port exports invocation) }
    ensures received { (asked : Asked) (calls port : ℕ) (exports : List ExportOption) (invocation : Invocation)
        (old new : Outside) (acts : List Act)
        → EndsBy (ServeSteps asked calls port exports invocation) old acts new None
        → AreReceived calls old.datagrams new.datagrams }
{}

/// The steps are sure where each file is seen as a value: no datagram is refused.
pub fn serving_is_sure_where_the_files_are_accepted()
    ensures { (asked : Asked) (calls port : ℕ) (exports : List ExportOption) (invocation : Invocation) (old : Outside)
        (exported : ExportedValues)
        → AreExported asked old.files exports nothing_exported exported
        → IsSure (ServeSteps asked calls port exports invocation) old }
{}

/// Words that ask for calls to be answered ask for one at least, and for files that may be exported one after another.
pub fn words_ask_for_what_can_be_served()
    ensures { (in_script : Bool) (words : List (List ℕ)) (command : Command)
        → command_of in_script words ≡ Ok command → CanServe command }
{}
