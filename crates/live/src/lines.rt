//! Who is handed the lines of a live audit.

ghost use Rattle.std.specs.Prelude.{◌++◌, List, [], ◌∷◌, option_map};
ghost use Rattle.live.specs.Lines.{Line, Decided, GivenUp, Missing, TooLate};

use crate::arrived::Arrived;
use crate::held::SentMessage;
use auditing::{Finding, Lost};

/// Is handed the lines of a live audit, one after the other.
///
/// No call returns a fault. Who cannot go on keeps that, passes over what follows, and is asked after each message.
pub trait LiveLines {
    /// The lines that were handed over between two states.
    ghost Told: { Self → List Line → Self → Type 0 };

    /// Of a message of RECEIVED this is found. If it is changed, SENT has this payload, and else none is handed over.
    fn decided(&mut self, one: &Arrived, finding: Finding, sent: Option<&[u8]>)
        ensures { Told self.old (Decided one.now finding (option_map (λ payload. payload.now) sent.entry) ∷ []) self.new };

    /// A message of RECEIVED is too late.
    fn too_late(&mut self, one: &Arrived)
        ensures { Told self.old (TooLate one.now ∷ []) self.new };

    /// A message of SENT is given up: it came or not.
    fn given_up(&mut self, slot: &SentMessage)
        ensures { Told self.old (GivenUp slot.now ∷ []) self.new };

    /// These numbers of a hart are lost: each of them was given up.
    fn missing(&mut self, hart: u16, lost: Lost)
        ensures { Told self.old (Missing hart lost ∷ []) self.new };

    /// Between a state and itself no line was.
    ghost nothing: { (lines : Self) → Told lines [] lines };

    /// Lines handed over up to a state come before those from there.
    ghost joined: { (first between last : Self) (before after : List Line) → Told first before between
        → Told between after last → Told first (before ++ after) last };
}
