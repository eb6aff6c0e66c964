//! Facts that follow from the definitions of legal logs.

ghost use Rattle.legalpath.specs.ReasonLaws.{RefusesTheIllegal, NamesOneFault};
ghost use Rattle.legalpath.specs.FollowOnLaws.{SplitsAndJoins};
ghost use Rattle.legalpath.specs.StepLaws.{LeadsToOne, FollowersStandTogether, FollowersStandAbove};
ghost use Rattle.legalpath.specs.StepLaws.{FollowersKeepPrivilege};

/// A row of a log has a reason if and only if it is illegal, and a log has at most one first fault.
pub fn reasons_name_illegal_rows()
    ensures refuses { RefusesTheIllegal }
    ensures one { NamesOneFault }
{}

/// A right retirement that is no uninferable discontinuity leads to one address. What may follow it is at one place and
/// has its privilege. That place is above the retirement, unless the retirement is a branch or a backward jump.
pub fn retirements_lead_to_one_place()
    ensures leads { LeadsToOne }
    ensures together { FollowersStandTogether }
    ensures above { FollowersStandAbove }
    ensures keeps { FollowersKeepPrivilege }
{}

/// A legal log splits and joins at any place.
pub fn logs_split_and_join()
    ensures { SplitsAndJoins }
{}
