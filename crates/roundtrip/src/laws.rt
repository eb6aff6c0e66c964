//! What is decoded of the packets of a log.

ghost use Rattle.std.specs.Prelude.{ℕ, List, take};
ghost use Rattle.retire.specs.declared.event.Event.{Event};
ghost use Rattle.rvclass.specs.Words.{Words, IsProgram};
ghost use Rattle.legalpath.specs.Legal.{Legal};
ghost use Rattle.payload.specs.declared.mode.Mode.{Mode};
ghost use Rattle.encoder.specs.Packets.{packets};
ghost use Rattle.decoder.specs.Describes.{Describes};
ghost use Rattle.roundtrip.specs.Reach.{reach};

/// The first packets of a legal log describe the first events of it, as many as those packets settle; all of its
/// packets describe the whole log. Both hold in each mode.
pub fn first_packets_settle_the_first_events()
    ensures first { (words : Words) (period count : ℕ) (mode : Mode) (log : List Event) →
        IsProgram words →
        Legal words log →
        Describes words (take count (packets words period mode log)) (take (reach words period mode log count) log) }
    ensures whole { (words : Words) (period : ℕ) (mode : Mode) (log : List Event) →
        IsProgram words →
        Legal words log →
        Describes words (packets words period mode log) log }
{}
