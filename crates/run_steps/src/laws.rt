//! Laws of what the steps of a command mean.

ghost use Rattle.std.specs.Prelude.{◌≡◌, ◌++◌, ◌∷◌, [], Bool, List, Option, ℕ, true};
ghost use Rattle.refusals.specs.Refusals.{in_line};
ghost use Rattle.refusals.specs.declared.cause.Cause.{Cause};
ghost use Rattle.refusals.specs.declared.reason.Refusal.{Refusal};
ghost use Rattle.run_steps.specs.Act.{Act, Follows};
ghost use Rattle.run_steps.specs.Done.{Outside, RunSeen, RunTells, outside_of};
ghost use Rattle.run_steps.specs.Carrying.{AreDoneInPart, InARow};
ghost use Rattle.run_steps.specs.Meaning.{EndsBy, HasBegun, IsSure};
ghost use Rattle.run_steps.specs.OneCommand.{IsFirstPart, LooksFirst, LooksFirstBy, ReadsToEnd, UnlessFull};
ghost use Rattle.run_steps.specs.OneCommand.{UnlessOneFull};
ghost use Rattle.run_steps.specs.Received.{AreReceived, Receives};
ghost use Rattle.run_steps.specs.Row.{IsBegunAt, IsRefusedAtOne};
ghost use Rattle.run_steps.specs.Run.{IsDoneInPart};
ghost use Rattle.run_steps.specs.SameViews.{EndsAlso, MeetsSame};
ghost use Rattle.run_steps.specs.Steps.{InLine, Steps};

/// What has ended has begun, with all its acts, and none is at hand.
pub fn what_has_ended_has_begun()
    ensures { (steps : Steps) (old new : Outside) (acts : List Act) (refusal : Option Refusal)
        → EndsBy steps old acts new refusal → HasBegun steps old acts [] new }
{}

/// The files follow the acts of steps that have ended, and of steps that have begun.
pub fn files_follow_the_acts()
    ensures ended { (steps : Steps) (old new : Outside) (acts : List Act) (refusal : Option Refusal)
        → EndsBy steps old acts new refusal → Follows acts old.files new.files }
    ensures begun { (steps : Steps) (old now : Outside) (done hand : List Act)
        → HasBegun steps old done hand now → Follows done old.files now.files }
{}

/// What has begun of one command is a first part of every end of the same steps, so the output has a prefix of that
/// end's. Where looks behind a change may find too little room, that is said of the ends that are not refused for it.
pub fn what_has_begun_is_a_first_part_of_every_end()
    ensures acts { (rooms : Bool) (steps : Steps) (old now new : Outside) (done hand acts : List Act)
        (refusal : Option Refusal)
        → LooksFirstBy rooms true true steps → HasBegun steps old done hand now → EndsBy steps old acts new refusal
        → UnlessFull rooms refusal (IsFirstPart done hand acts) }
    ensures seen { (rooms : Bool) (steps : Steps) (tells : RunTells) (why : Option Cause) (old new : RunSeen)
        (to : Outside) (acts : List Act)
        (refusal : Option Refusal)
        → LooksFirstBy rooms true true steps → IsDoneInPart steps tells why old new
        → EndsBy steps (outside_of old) acts to refusal
        → UnlessFull rooms refusal (AreDoneInPart tells acts old new) }
{}

/// Steps are sure exactly where none of their ends has a refusal; for one command one end without a refusal is enough.
pub fn steps_are_sure_where_no_end_has_a_refusal()
    ensures sure { (steps : Steps) (old : Outside)
        → ((acts : List Act) (new : Outside) (refusal : Refusal) → ¬ EndsBy steps old acts new (Some refusal))
        → IsSure steps old }
    ensures passes { (steps : Steps) (old new : Outside) (acts : List Act) (refusal : Option Refusal)
        → IsSure steps old → EndsBy steps old acts new refusal → refusal ≡ None }
    ensures one { (steps : Steps) (old new : Outside) (acts : List Act)
        → LooksFirst true true steps → EndsBy steps old acts new None → IsSure steps old }
{}

/// Commands in a row: such a list has begun exactly where its first commands ended and the next one has begun from what
/// they left. It ends as its first commands and then the others do; the first of its commands that is refused ends it,
/// and nothing else does. It is sure where each of its commands is, in all that those before it may leave.
pub fn commands_in_a_row()
    ensures begun { (first : List Steps) (next : Steps) (others : List Steps) (old middle now : Outside)
        (acts done hand : List Act)
        → EndsBy (InARow first) old acts middle None → HasBegun next middle done hand now
        → HasBegun (InARow (first ++ next ∷ others)) old (acts ++ done) hand now }
    ensures only_begun { (list : List Steps) (old now : Outside) (done hand : List Act)
        → HasBegun (InARow list) old done hand now → IsBegunAt list old done hand now }
    ensures ends { (first others : List Steps) (old middle new : Outside) (acts more : List Act)
        (refusal : Option Refusal)
        → EndsBy (InARow first) old acts middle None → EndsBy (InARow others) middle more new refusal
        → EndsBy (InARow (first ++ others)) old (acts ++ more) new refusal }
    ensures refused { (first : List Steps) (one : Steps) (others : List Steps) (old middle new : Outside)
        (acts own : List Act) (refusal : Refusal)
        → EndsBy (InARow first) old acts middle None → EndsBy one middle own new (Some refusal)
        → EndsBy (InARow (first ++ one ∷ others)) old (acts ++ own) new (Some refusal) }
    ensures only_refused { (list : List Steps) (old new : Outside) (acts : List Act) (refusal : Refusal)
        → EndsBy (InARow list) old acts new (Some refusal) → IsRefusedAtOne list old acts new refusal }
    ensures sure { (first others : List Steps) (old : Outside) → IsSure (InARow first) old
        → ((acts : List Act) (middle : Outside) → EndsBy (InARow first) old acts middle None
        → IsSure (InARow others) middle)
        → IsSure (InARow (first ++ others)) old }
{}

/// Two commands, each in its line of a script: the second takes place in what the first left, its refusal names its
/// line, and where the first is refused, the second does not take place.
pub fn two_lines_of_a_script()
    ensures both { (one other : Steps) (line next : ℕ) (old middle new : Outside) (first rest : List Act)
        (refusal : Option Refusal)
        → EndsBy one old first middle None → EndsBy other middle rest new refusal
        → EndsBy (InARow (InLine line one ∷ InLine next other ∷ [])) old (first ++ rest) new (in_line next refusal) }
    ensures stopped { (one other : Steps) (line next : ℕ) (old new : Outside) (acts : List Act) (refusal : Refusal)
        → EndsBy one old acts new (Some refusal)
        → EndsBy (InARow (InLine line one ∷ InLine next other ∷ [])) old acts new (in_line line (Some refusal)) }
    ensures sure { (one other : Steps) (line next : ℕ) (old : Outside) → IsSure one old
        → ((acts : List Act) (middle : Outside) → EndsBy one old acts middle None → IsSure other middle)
        → IsSure (InARow (InLine line one ∷ InLine next other ∷ [])) old }
{}

/// Steps that read the standard input to its end leave nothing of it where they pass.
pub fn an_input_is_read_to_its_end()
    ensures { (steps : Steps) (old new : Outside) (acts : List Act)
        → ReadsToEnd steps → EndsBy steps old acts new None → new.input ≡ [] }
{}

/// Steps that pass have taken as many datagrams as they receive, the first ones.
pub fn so_many_datagrams_are_received()
    ensures { (count : ℕ) (steps : Steps) (old new : Outside) (acts : List Act)
        → Receives count steps → EndsBy steps old acts new None → AreReceived count old.datagrams new.datagrams }
{}

/// Steps of one command that see the same in two worlds do the same: however they end in each, the acts and the refusal
/// are the same; and as they end in one, so they may end in the other. Where looks may find too little room, they do
/// the same unless they are refused for it in one of the worlds.
pub fn steps_that_see_the_same_do_the_same()
    ensures acts { (rooms : Bool) (steps : Steps) (one other new to : Outside) (acts more : List Act)
        (refusal stop : Option Refusal)
        → LooksFirstBy rooms true true steps → MeetsSame rooms steps one other
        → EndsBy steps one acts new refusal → EndsBy steps other more to stop
        → UnlessOneFull rooms refusal stop ((acts ≡ more) × (refusal ≡ stop)) }
    ensures other { (rooms : Bool) (steps : Steps) (one other new : Outside) (acts : List Act)
        (refusal : Option Refusal)
        → LooksFirstBy rooms true true steps → MeetsSame rooms steps one other
        → EndsBy steps one acts new refusal → EndsAlso rooms steps other acts refusal }
{}
