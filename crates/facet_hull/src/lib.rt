//! The exact hull of the changes of a loop's body: its definition, its normals, and what rows along
//! these say of many turns.
#![tactic(auto)]

mod case_cone;
mod finding;
mod hull;
mod images;
mod laws;
mod lines;
mod outcome;

pub use finding::facets;
pub use hull::normals;
pub use laws::{
    images_have_the_bounds, normals_are_exact, normals_are_the_hull, normals_bound_turns,
    outcomes_know_changes, two_spots_are_a_tableau,
};
pub use outcome::Facets;
