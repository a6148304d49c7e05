//! Cones that lines bound, and the extreme vectors that span them.
#![tactic(auto)]

mod laws;
mod point;
mod projecting;
mod searching;
mod split;
mod stop;
mod tangents;
mod vectors;

pub use laws::{
    extremes_see_the_cone, facets_are_complete, flats_and_extremes_see_the_cone,
    flats_and_rest_split, steps_make_what_is_defined,
};
pub use point::Point;
pub use projecting::{Cleared, clearing, lowest, projection};
pub use searching::{extremes, opposite};
pub use split::{flat, pivots, rest_basis};
pub use stop::ConeStop;
pub use tangents::{difference, directions, facets};
pub use vectors::{are_at_most, combination, dot};
