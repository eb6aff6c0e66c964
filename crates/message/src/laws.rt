//! A fact that follows from the definition of the harts in a range.

ghost use Rattle.message.specs.Range.{AllSelectEveryMessage};

/// The range of all harts selects every message: where no range is asked for, nothing is passed over.
pub fn all_harts_select_every_message()
    ensures { AllSelectEveryMessage }
{}
