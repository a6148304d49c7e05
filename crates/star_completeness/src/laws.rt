//! Each law is the contract of a function that does nothing.
ghost use Rattle.star_completeness.specs.Laws.{FinishingLosesNothing, StarIsRelativelyComplete, RepetitionIsRelativelyComplete};

use facet_hull::normals_bound_turns;

/// Putting in order, thinning and cutting a case lose nothing where nothing is noted.
pub fn finishing_loses_nothing()
    ensures { FinishingLosesNothing }
{}

/// Two states that star links are one, or lie within one and more turns of the body, where the
/// normals of the body are among the directions of the vocabulary and nothing is noted.
pub fn star_is_relatively_complete()
    ensures { StarIsRelativelyComplete }
{
    normals_bound_turns();
}

/// Two states that a repetition by the third rule links are one, or lie within one and more turns
/// of the body, where nothing is noted.
pub fn repetition_is_relatively_complete()
    ensures { RepetitionIsRelativelyComplete }
{
    normals_bound_turns();
}
