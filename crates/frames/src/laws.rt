//! Facts that follow from the definitions of spans.

ghost use Rattle.frames.specs.PassedOver.{FirmArePassedOver, KnownArePassedOver};
ghost use Rattle.frames.specs.Search.{AllHartsChooseEverySpan};

/// All spans of a capture are those of all harts: where no range is asked for, nothing is passed over.
pub fn all_harts_choose_every_span()
    ensures { AllHartsChooseEverySpan }
{}

/// A message that is known by its payload alone is passed over in two cases only: it begins inside a message that is
/// taken, or it is not firm and a firm one begins inside it. Where no message is [the same](crate::Sight::Same) as one
/// that was sent, a firm one is passed over only inside a message that is taken at a firm place.
pub fn known_messages_are_taken()
    ensures known { KnownArePassedOver }
    ensures firm { FirmArePassedOver }
{}
