//! From the tree of a text to its core program: what each name means, which columns a procedure
//! has, and which statements its lines become. `specs` says it on the tree: `Elaborated` has the
//! program, and `Faults` why a text has none.
#![tactic(auto)]

mod act;
mod callee;
mod checks;
mod columns;
mod declarations;
mod elaboration;
mod elaborator;
mod env;
mod error;
mod expression;
mod laws;
mod least;
mod line;
mod meaning;
mod procedure;
mod put;
mod scopes;
mod special;
mod sums;

pub use elaboration::elaborate;
pub use error::{Limited, TypeError};
pub use laws::{elaborations_are_answered, elaborations_are_unique};
