//! Each law is the contract of a function that does nothing.
ghost use Rattle.cones.specs.Laws.{FindsAbove, FindsInside, FindsSpanned, FindsAboveFlat, FacetsAreComplete, Splits, UnitsArePivots, FlatAndRestSplit, StepsMakeWhatIsDefined};

/// A form that is above 0 anywhere in a cone is so on an extreme vector that the search finds; what
/// it finds lies in the cone and is spanned by the basis.
pub fn extremes_see_the_cone()
    ensures above { FindsAbove }
    ensures inside { FindsInside }
    ensures spanned { FindsSpanned }
{}

/// The same with vectors on which all lines are 0.
pub fn flats_and_extremes_see_the_cone()
    ensures { FindsAboveFlat }
{}

/// The facets through each of some points, with rays, leave no place outside their hull.
pub fn facets_are_complete()
    ensures { FacetsAreComplete }
{}

/// Clearing the units by all lines leaves what is flat, and clearing them by its pivots the rest.
pub fn flats_and_rest_split()
    ensures splits { Splits }
    ensures pivots { UnitsArePivots }
    ensures both { FlatAndRestSplit }
{}

/// What is made in 128 bits is what is defined, and where nothing is made a step leaves them.
pub fn steps_make_what_is_defined()
    ensures { StepsMakeWhatIsDefined }
{}
