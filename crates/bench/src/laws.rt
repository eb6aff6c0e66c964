//! What schedules deliver of logs.

ghost use Rattle.std.specs.Prelude.{ℕ, ◌≡◌, All, List, Some, length, slice_get, true};
ghost use Rattle.retire.specs.declared.event.Event.{Event};
ghost use Rattle.rvclass.specs.Fetch.{words_of};
ghost use Rattle.legalpath.specs.ProgramLog.{IsLegalLog, ProgramLog};
ghost use Rattle.payload.specs.declared.mode.Mode.{Mode};
ghost use Rattle.decoder.specs.Describes.{Describes};
ghost use Rattle.message.specs.OfHart.{of_hart, packets_of};
ghost use Rattle.funnel.specs.Lawful.{Lawful};
ghost use Rattle.funnel.specs.declared.turn.Turn.{Turn};
ghost use Rattle.bench.specs.Got.{HasGot};
ghost use Rattle.bench.specs.Replayed.{got_from, replayed};

/// Does nothing. Its contract says what any schedule of turns delivers of legal logs.
pub fn turns_let_beginnings_through()
    // Every state is lawful.
    ensures lawful { (period : ℕ) (mode : Mode) (capacity : ℕ) (logs : List ProgramLog) (turns : List Turn) →
        All IsLegalLog logs → Lawful (replayed period mode capacity logs turns) }

    // If the packets that were taken of a hart describe these events, then the outcome of the hart is that of the first
    // packets of its log, as many as were taken.
    ensures got { (period : ℕ) (mode : Mode) (capacity : ℕ) (logs : List ProgramLog) (turns : List Turn) (hart : ℕ)
        (log : ProgramLog)
        (decoded : List Event) → IsLegalLog log → slice_get logs hart ≡ Some log →
        Describes (words_of log.program) (packets_of hart (replayed period mode capacity logs turns).taken) decoded →
        HasGot period mode true log (length (of_hart hart (replayed period mode capacity logs turns).taken))
        (got_from (of_hart hart (replayed period mode capacity logs turns).taken) decoded) }
{}
