//! Star: what any number of turns of a body do, by recurrences that the body entails.
#![tactic(auto)]

mod growing;
mod law;
mod products;
mod progressions;
mod repeating;
mod solving;
mod stratifying;
mod terms;
mod turning;

pub use law::star_covers_chains;
pub use repeating::star;
