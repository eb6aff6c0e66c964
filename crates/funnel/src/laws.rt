//! What holds after every list of turns, and how a channel follows the funnel machine.

ghost use Rattle.std.specs.Prelude.{ℕ, ◌≡◌, ◌≤◌, ◌<◌, ◌++◌, ◌∷◌, [], All, List, Option, length, slice_set};
ghost use mathlib.Core.Option.{some};
ghost use lib.ListN.{get_elem?};
ghost use Rattle.message.specs.declared.message.Message.{Message};
ghost use Rattle.funnel.specs.Lawful.{Lawful, HasFirstTaken};
ghost use Rattle.funnel.specs.Live.{AreLive, Sends, with_new_hart};
ghost use Rattle.funnel.specs.Machine.{Funnel, after_turns, opening, send, take_front};
ghost use Rattle.funnel.specs.Payloads.{ClosesOnlyLast};
ghost use Rattle.funnel.specs.Rule.{Kept, TakesOne, handed_out, newborn, next_port};
ghost use Rattle.funnel.specs.declared.rule.View.{View};
ghost use Rattle.funnel.specs.declared.rule.View.TheVariants as V;
ghost use Rattle.funnel.specs.declared.turn.Turn.{Turn};

/// Does nothing. Its contract says what holds of each state that a list of turns leads to from the opening.
pub fn every_state_is_lawful()
    // The state is lawful, if of each hart's payloads only the last may be closing.
    ensures lawful { (capacity : ℕ) (payloads : List (List (List ℕ))) (turns : List Turn) →
        All ClosesOnlyLast payloads → Lawful (after_turns capacity payloads turns (opening payloads)) }

    // What was taken of a hart carries the first of its payloads.
    ensures carried { (capacity : ℕ) (payloads : List (List (List ℕ))) (turns : List Turn) (hart : ℕ) →
        HasFirstTaken hart payloads (after_turns capacity payloads turns (opening payloads)) }

    // No more messages wait than the capacity.
    ensures bounded { (capacity : ℕ) (payloads : List (List (List ℕ))) (turns : List Turn) →
        length (after_turns capacity payloads turns (opening payloads)).queue ≤ capacity }
{}

/// Does nothing. Its contract speaks of a channel that keeps the rule and has a live port for each hart. The channel is
/// in a state of the funnel machine, and its steps are those of the machine.
pub fn live_channel_is_the_machine()
    // The state is lawful.
    ensures lawful { (queue : List Message) (views : List View) (state : Funnel) →
        Kept queue views → AreLive queue views state → Lawful state }

    // A new channel is the opening of no harts.
    ensures new { AreLive [] (newborn ∷ []) (opening []) }

    // Where the outlet hands out a port, there is one hart more, which sent nothing.
    ensures hands_out { (queue : List Message) (views : List View) (state : Funnel) (pass made : ℕ)
        (taken : List Message) (settled : Option ℕ) (list : List Message) (before : View) →
        Kept queue views → AreLive queue views state → before ≡ V.Outlet made taken settled list →
        get_elem? views pass ≡ some before →
        AreLive queue (slice_set views pass (handed_out before) ++ next_port before ∷ []) (with_new_hart state) }

    // Where a port sends a message, and the funnel is not full, the machine sends it.
    ensures sends { (queue : List Message) (views : List View) (state : Funnel) (capacity pass : ℕ) (message : Message)
        (before after : View) →
        Kept queue views → AreLive queue views state → length queue < capacity →
        get_elem? views pass ≡ some before → Sends before message after →
        Kept (queue ++ message ∷ []) (slice_set views pass after) →
        AreLive (queue ++ message ∷ []) (slice_set views pass after) (send capacity message state) }

    // Where the outlet takes the front message, the machine takes it.
    ensures takes { (queue : List Message) (views : List View) (state : Funnel) (pass : ℕ) (message : Message)
        (before after : View) →
        Kept (message ∷ queue) views → AreLive (message ∷ queue) views state →
        get_elem? views pass ≡ some before → TakesOne before message after →
        AreLive queue (slice_set views pass after) (take_front state) }
{}
