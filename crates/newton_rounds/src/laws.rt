//! Each law is the contract of a function that does nothing.
ghost use Rattle.newton_rounds.specs.Alike.{AlikeGroupsAreOne};

/// Groups that are alike are both linear or neither, and have one computation of their summaries.
pub fn alike_groups_are_one()
    ensures { AlikeGroupsAreOne }
{}
