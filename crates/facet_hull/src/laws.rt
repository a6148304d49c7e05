//! Each law is the contract of a function that does nothing.
ghost use Rattle.facet_hull.specs.Laws.{ImagesHaveTheBounds, ImagesHaveAPoint, NormalsAreExact, EquationsAreAll, NormalsAreHull, IsRelativelyComplete, KnowsAllChanges, NormalsAreDirections, StepsMakeNormals};
ghost use Rattle.facet_hull.specs.Spots.{TwoSpotsAreATableau};

/// The points and rays of the changes have the bounds that the changes have, and there is a point
/// exactly where some case has a rational point.
pub fn images_have_the_bounds()
    ensures bounds { ImagesHaveTheBounds }
    ensures point { ImagesHaveAPoint }
{}

/// The normals of a body bound the hull of its changes and nothing beyond it; the equations among
/// them are all that is constant.
pub fn normals_are_exact()
    ensures exact { NormalsAreExact }
    ensures equations { EquationsAreAll }
{}

/// The normals of a body are the reduced equations of its changes, both ways, and the facets of their
/// hull in order, each of which is needed.
pub fn normals_are_the_hull()
    ensures { NormalsAreHull }
{}

/// Rows along exact normals bound the change over many turns as well as any rows that the changes
/// of one turn imply.
pub fn normals_bound_turns()
    ensures { IsRelativelyComplete }
{}

/// The direction from one spot to another is a line of a tableau of their frame.
pub fn two_spots_are_a_tableau()
    ensures { TwoSpotsAreATableau }
{}

/// Where the outcome of a body is its normals, all changes are made, and the normals are directions
/// over the body's columns.
pub fn outcomes_know_changes()
    ensures known { KnowsAllChanges }
    ensures directions { NormalsAreDirections }
    ensures steps { StepsMakeNormals }
{}
