//! The law is the contract of a function that does nothing.
ghost use Rattle.alike_groups.specs.Parts.{AlikePartsAreOne, PlansArePlanned};

/// Alike groups of two plans are of one kind, and what is found of them is one computation.
pub fn alike_parts_are_one()
    ensures planned { PlansArePlanned }
    ensures one { AlikePartsAreOne }
{}
