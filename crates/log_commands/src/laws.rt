//! Facts that follow from the definition of what `encode` writes.

ghost use Rattle.log_commands.specs.Joining.{AllLogsAreOnePart, MixedMessagesAreTheSame, PartsAreJoined};

/// What `encode` writes of the parts of a capture, one after the other, is the capture of all logs, where all parts are
/// there, in order, and are written in the same form, version and mode, at the same period and as parts of as many harts,
/// and their messages are not mixed.
pub fn parts_are_joined()
    ensures { PartsAreJoined }
{}

/// Where no count of all harts is given, nor a seed, `encode` writes the capture of all logs.
pub fn all_logs_are_one_part()
    ensures { AllLogsAreOnePart }
{}

/// What `encode --mixed` writes has each hart's messages, in their order: they are those that are written without it.
pub fn mixed_messages_are_the_same()
    ensures { MixedMessagesAreTheSame }
{}
