//! Facts that follow from the definitions.

ghost use Rattle.salvage_reports.specs.EffectFields.{TakenHaveTheirEffect as TakenHaveTheirFields};
ghost use Rattle.salvage_reports.specs.Effects.{TakenHaveTheirEffect};
ghost use Rattle.salvage_reports.specs.ListedAlike.{AcceptedAreTaken, CapturesAreListedAlike, LogsAreTaken};
ghost use Rattle.salvage_reports.specs.SalvagedReadBack.{AreReadBack};
ghost use Rattle.salvage_reports.specs.TotalsAddUp.{TotalsAddUp};
ghost use Rattle.salvage_reports.specs.TreatedReadBack.{AreRowsReadBack};
ghost use Rattle.salvage_reports.specs.TreatedText.{AllHartsAreTreated};

use frames::all_harts_choose_every_span;

/// The table of what is salvaged is read back: at each of its rows `csv` reads just the fields of the row, and goes on
/// after it.
pub fn salvaged_rows_are_read_back()
    ensures { AreReadBack }
{}

/// Each message is counted once among the counts of all harts that a report is on: as decoded, passed over, far, bad, alone,
/// of a doubtful number, a copy or a stranger. So these counts come to how many messages there are, if there are fewer than
/// 2^64.
pub fn totals_add_up()
    ensures { TotalsAddUp }
{}

/// The table of what is done with each message is read back: at each of its rows `csv` reads just the fields of the row,
/// with the names of symbols whatever bytes they have, and goes on after it.
pub fn treated_rows_are_read_back()
    ensures { AreRowsReadBack }
{}

/// The word for a message that adds events is the text that a listing has for that effect.
pub fn taken_messages_have_their_effect()
    ensures { TakenHaveTheirEffect }
{}

/// A message that adds events has the fields that the table of a listing has for that effect.
pub fn taken_messages_have_their_fields()
    ensures { TakenHaveTheirFields }
{}

/// Where a demultiplexer accepts messages, one after the other, and they have effects, as a listing finds them,
/// salvaging takes each message with its effect, and none is late. So each message of a capture that is not damaged is
/// taken.
pub fn accepted_messages_are_taken()
    ensures { AcceptedAreTaken }
{}

/// A capture that a listing reads to its end has the same text with what salvaging does with each message: the line of
/// the header, if there is one, and the line of each message with its effect, at the same offsets. The hart of each
/// message is below the header's count, or without a header below 1,024, and its number is below 2^32.
pub fn undamaged_captures_are_listed_alike()
    ensures { CapturesAreListedAlike }
{}

/// The messages of legal logs of one program, none of which was lost, repeated or damaged, are taken by salvaging, each
/// with the effect that a listing has of it. They come as an encoder writes them: those of each hart in order, one hart
/// after the other.
pub fn messages_of_logs_are_taken()
    ensures { LogsAreTaken }
{}

/// The lines or the table of all harts of a capture are those of all its frames: nothing is passed over.
pub fn all_harts_are_treated()
    ensures { AllHartsAreTreated }
{
    // From this call the proof learns that all spans are those of all harts.
    all_harts_choose_every_span();
}
