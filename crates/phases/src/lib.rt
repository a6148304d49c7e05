//! What turns of a loop do, by the rule of the program: at once; along the facets of the exact hull
//! of the body's changes too; or phase by phase, where a body goes first through turns that begin
//! where some inequality is false, and then through turns that begin where it is true.
#![tactic(auto)]

mod facet_star;
mod halving;
mod law;
mod phasing;
mod repeating;
mod rules;
mod splitting;

pub use law::{phases_cover_chains, repetitions_cover_chains};
pub use phasing::star;
pub use repeating::repetition;
pub use rules::{has_facets, has_phases};
