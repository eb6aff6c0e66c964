//! What is made of a log.

ghost use Rattle.std.specs.Prelude.{⊤, ◌≡◌, ℕ, List, [], ◌++◌, IfErr, IfOk, OnOk};
ghost use Rattle.retire.specs.Log.{most_long_rows};
ghost use Rattle.retire.specs.declared.event.Event.{Event as AnyEvent};
ghost use Rattle.rvclass.specs.Fetch.{words_of};
ghost use Rattle.rvclass.specs.Image.{Image};
ghost use Rattle.log_streams.specs.Illegal.{IsIllegalRow};
ghost use Rattle.legalpath.specs.LegalUpTo.{IsLegalUpTo};
ghost use Rattle.log_streams.specs.Next.{ComesNext};
ghost use Rattle.log_streams.specs.declared.illegal_row.IllegalRow.{IllegalRow as AnyRow};

use crate::illegal_row::IllegalRow;
use legalpath::PathFault;
use retire::Event;
use rvclass::ProgramOver;
use std::alloc::AllocError;

/// Makes something of the events of a log, which come a piece at a time.
pub trait LogTask<X> {
    /// What it keeps between the pieces of a log.
    type State: Drop;

    /// This is kept of the log of this hart once these events were added.
    ghost Keeps: { Self → Image → ℕ → List AnyEvent → Self.State → Type 0 };

    /// This is made of the log of this hart with these events, which is legal for the program.
    ghost Makes: { Self → Image → ℕ → List AnyEvent → X → Type 0 };

    /// This is made of a log with these events, whose first illegal row is this.
    ghost MakesOfIllegal: { Self → Image → List AnyEvent → AnyRow → X → Type 0 };

    /// It may refuse an illegal log. A task of which this is false makes something of each log that is read.
    ghost MayRefuse: { Self → Type 0 } = { λ _. ⊤ };

    /// Begins with the log of a hart. The error says that an allocation failed.
    fn begin(&self, program: &ProgramOver, hart: usize) -> Result<Self::State, AllocError>
        ensures { IfOk result (Keeps self.now program.now hart []) };

    /// Adds the next events of the log. Together with those before them they are legal, and at most 4,294,967,295. The
    /// error says that an allocation failed.
    fn add(
        &self,
        program: &ProgramOver,
        state: &mut Self::State,
        events: &[Event],
    ) -> Result<(), AllocError>
        requires { ComesNext (Keeps self.now program.now) program.now state.old events.now }
        ensures { (hart : ℕ) (seen : List AnyEvent) → Keeps self.now program.now hart seen state.old
            → IsLegalUpTo most_long_rows program.now (seen ++ events.now)
            → OnOk result (Keeps self.now program.now hart (seen ++ events.now) state.new) };

    /// Ends with a log that is legal. The error says that an allocation failed.
    fn finish(&self, program: &ProgramOver, state: Self::State) -> Result<X, AllocError>
        ensures { (hart : ℕ) (seen : List AnyEvent) → Keeps self.now program.now hart seen state
            → IsLegalUpTo most_long_rows program.now seen
            → IfOk result (Makes self.now program.now hart seen) };

    /// Ends with a log that is illegal. The error is the fault of its first illegal row.
    fn refuse(&self, program: &ProgramOver, row: IllegalRow) -> Result<X, PathFault>
        ensures made { (events : List AnyEvent) → IsIllegalRow (words_of program.now) events row
            → IfOk result (MakesOfIllegal self.now program.now events row) }
        ensures fault { IfErr result (λ fault. fault ≡ row.fault) }
        ensures refused { IfErr result (λ fault. MayRefuse self.now) };
}
