//! Facts that follow from the definitions of a log's packets.

ghost use Rattle.encoder.specs.FewPackets.{HaveFewPackets};
ghost use Rattle.encoder.specs.Profile.{PacketsAreInProfile};

/// Every packet of a legal log is of this project's profile, so each has a payload.
pub fn packets_are_in_profile()
    ensures { PacketsAreInProfile }
{}

/// A log has at most two packets more than events: Open and the closing one.
pub fn logs_have_few_packets()
    ensures { HaveFewPackets }
{}
