//! Each law is the contract of a function that does nothing.
ghost use Rattle.hull_limits.specs.Laws.{CalmBodiesHaveNoLimit, SmallBodiesHaveNoLimit};

use facet_hull::two_spots_are_a_tableau;

/// The outcome of a small body is no limit.
pub fn small_bodies_have_no_limit()
    ensures { SmallBodiesHaveNoLimit }
{}

/// The outcome of a body whose question is calm is no limit, where no change is noted to leave 128
/// bits.
pub fn calm_bodies_have_no_limit()
    ensures { CalmBodiesHaveNoLimit }
{
    two_spots_are_a_tableau();
}
