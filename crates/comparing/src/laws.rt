//! Facts that follow from the definition of a comparison.

ghost use Rattle.comparing.specs.Agreeing.{ListsAgreeBefore};
ghost use Rattle.comparing.specs.Sourced.{NoneStopsEarly};
ghost use Rattle.comparing.specs.Whole.{AllHartsAreGot, WholeIsDecoded, WholeIsEqual, WholeOfHartsIsDecoded};
ghost use Rattle.comparing.specs.Whole.{WholeOfHartsIsEqual};

/// Of what a capture decoded to: the result is whole if and only if decoding comes to the end, the events are just
/// those of the logs, and each hart is closed.
pub fn whole_is_these_logs()
    ensures { WholeIsEqual }
{}

/// Where the result is whole, the bytes of the capture decode without a fault to just these logs, and each hart is
/// closed.
pub fn whole_is_decoded()
    ensures { WholeIsDecoded }
{}

/// Of what a capture decoded to of some harts: the result is whole if and only if decoding comes to the end, the events
/// of these harts are just those of the logs, and each of them is closed.
pub fn whole_of_harts_is_these_logs()
    ensures { WholeOfHartsIsEqual }
{}

/// Where the result of some harts is whole, the bytes of the capture decode without a fault to just the logs of these,
/// and each of them is closed. Messages of other harts are passed over.
pub fn whole_of_harts_is_decoded()
    ensures { WholeOfHartsIsDecoded }
{}

/// What a capture decodes to of all harts is what it decodes to: a comparison of these is one of the capture.
pub fn all_harts_are_compared()
    ensures { AllHartsAreGot }
{}

/// A log and what is decoded of its hart have the same rows before the first row in which they differ, and both have
/// them. Where both have that row, the two are not the same.
pub fn lists_agree_before_the_row()
    ensures { ListsAgreeBefore }
{}

/// Where the bytes of a capture decode to what is compared with the logs of some harts, and decoding these stops at
/// `stop`, none of them stops before it.
pub fn decoding_stops_where_it_is_said()
    ensures { NoneStopsEarly }
{}
