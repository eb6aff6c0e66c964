//! What the definition of described logs promises.

ghost use Rattle.std.specs.Prelude.{ℕ, ◌≡◌, ◌↔◌, ◌≤◌, ◌*◌, ◌++◌, Bool, true, List, Option, Some, length};
ghost use Rattle.retire.specs.declared.event.Event.{Event};
ghost use Rattle.rvclass.specs.Words.{Words, IsProgram, LiesIn};
ghost use Rattle.payload.specs.ClosedTrace.{last_is_closing};
ghost use Rattle.payload.specs.declared.mode.Mode.{Mode};
ghost use Rattle.payload.specs.declared.packet.Packet.{Packet};
ghost use Rattle.legalpath.specs.Join.{join};
ghost use Rattle.legalpath.specs.Legal.{FollowOn};
ghost use Rattle.decoder.specs.declared.decoding.Decoder.{Decoder};
ghost use Rattle.decoder.specs.Describes.{Describes};
ghost use Rattle.decoder.specs.Resuming.{PassesOver, IsClosed, HasMode};
ghost use Rattle.decoder.specs.SettledPieces.{settled_pieces};
ghost use Rattle.decoder.specs.DecoderStands.{DecoderStands};
ghost use Rattle.decoder.specs.Walk.{End, IsWalk};

/// The same packets describe one log at most.
pub fn one_log_is_described()
    ensures { (words : Words) (packets : List Packet) (log other : List Event) →
        IsProgram words → Describes words packets log → Describes words packets other → log ≡ other }
{}

/// What more packets describe begins with what fewer describe.
pub fn more_packets_describe_a_longer_log()
    ensures { (words : Words) (packets more : List Packet) (log other : List Event) →
        IsProgram words → Describes words packets log → Describes words (packets ++ more) other →
        (rest : List Event) × (other ≡ log ++ rest) }
{}

/// The first packets of a trace describe the events of their settled pieces, with which its log begins.
pub fn first_packets_describe_a_beginning()
    ensures { (words : Words) (packets more : List Packet) (log : List Event) →
        (all : Describes words (packets ++ more) log) →
        Describes words packets (join (settled_pieces packets all.pieces)) ×
        ((rest : List Event) × (log ≡ join (settled_pieces packets all.pieces) ++ rest)) }
{}

/// A walk of at most 31 branches has at most 32 retirements for each place that an instruction may have.
pub fn walks_are_short()
    ensures { (words : Words) (place : ℕ → ℕ) (half : ℕ) (before : Event) (taken : List Bool) (end : End) (walk : List Event) →
        IsProgram words → LiesIn words place half → length taken ≤ 31 →
        IsWalk words before taken end walk → FollowOn words (Some before) walk →
        length walk ≤ 32 * half }
{}

/// A decoder whose state stands for packets is closed if and only if the last of them closes the trace.
pub fn closed_where_last_closes()
    ensures { (words : Words) (packets : List Packet) (log : List Event) (decoder : Decoder) →
        DecoderStands words packets log decoder → IsClosed decoder ↔ (last_is_closing packets ≡ true) }
{}

/// One decoder stands for packets and what they describe, where it is known which mode was announced. So calls that take
/// the same packets leave the same decoder.
pub fn one_decoder_stands()
    ensures { (words : Words) (packets : List Packet) (log other : List Event) (decoder twin : Decoder) →
        (announced : Option Mode) → IsProgram words → DecoderStands words packets log decoder →
        DecoderStands words packets other twin → HasMode announced decoder → HasMode announced twin →
        decoder ≡ twin }
{}

/// A decoder that passes over packets is not closed, and its state stands for no packets.
pub fn passing_over_stands_for_nothing()
    ensures { (mode : Mode) (decoder : Decoder) → PassesOver mode decoder →
        (¬ IsClosed decoder) ×
        ((words : Words) (packets : List Packet) (log : List Event) → ¬ DecoderStands words packets log decoder) }
{}
