//! Facts that follow from what decoding of some harts is.

ghost use Rattle.message.specs.Range.{AllSelectEveryMessage};
ghost use Rattle.parallel_decode.specs.Laws.{AllHartsHaveText};

/// Where the harts that are looked at are all, no message is passed over, so what is decoded is of all messages, and
/// what is written is what it is where no range is asked for.
pub fn all_harts_are_decoded()
    ensures decoded { AllSelectEveryMessage }
    ensures text { AllHartsHaveText }
{}
