//! Rows that are tried at points and exits: rows of the text. A row of the text comes of a
//! comparison whose sides are polynomials, of the truth of another expression, as a comparison with
//! 0, and of an assignment of a number, as a comparison of its column with it.
#![tactic(auto)]

mod calling;
mod ends;
mod exits;
mod naming;
mod offering;
mod reading;
mod shared;
mod sides;
mod texts;

pub use calling::{CallerRows, CallerTexts, by_callers};
pub use ends::{entry_columns, pair_columns, state_columns};
pub use exits::{ExitTexts, exit_rows};
pub use offering::{offer, rows_over};
pub use shared::shared_rows;
pub use texts::text_rows;
