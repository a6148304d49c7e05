//! A vector that contracts see as the list of its elements, and a box that they see as its value:
//! the fields of which trees and other recursive data are made. `≡` on a type with such fields is
//! equality of content.
#![tactic(auto)]

mod boxed;
mod items;
#[cfg(test)]
mod tests;

pub use boxed::Boxed;
pub use items::Items;
