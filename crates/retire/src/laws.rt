//! Facts that follow from the definitions of logs.

ghost use Rattle.retire.specs.InRange.{ReadsInRange, ReadsUpToInRange};
ghost use Rattle.retire.specs.ReadBack.{ReadsBack, ReadsBackUpTo};
ghost use Rattle.retire.specs.PlainText.{PlainIsParted};
ghost use Rattle.retire.specs.PlainLog.{WrittenIsPlain};

/// What is read is in range: the events of any records are at most 16777216, each with an even
/// address, a known type and privilege, a cause below 64, and no value where it is an interrupt.
pub fn read_is_in_range()
    ensures { ReadsInRange }
{}

/// A log that is written is read back: the records of the text of events in range hold those
/// events.
pub fn written_is_read_back()
    ensures { ReadsBack }
{}

/// What is read of a log that may have any number of rows is in range: its events are at most so many, each as
/// [`read_is_in_range`] says.
pub fn long_read_is_in_range()
    ensures { ReadsUpToInRange }
{}

/// A log that may have any number of rows is read back where it is written.
pub fn long_written_is_read_back()
    ensures { ReadsBackUpTo }
{}

/// The records of a text with no quote are its lines that are not empty, each parted at its commas.
pub fn plain_is_parted()
    ensures { PlainIsParted }
{}

/// The text of a log in range is a plain log: it is read straight from its bytes where it lies in memory.
pub fn written_is_plain()
    ensures { WrittenIsPlain }
{}
