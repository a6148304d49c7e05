//! Rows at points: rounds of questions on a table of rows that may hold at the points and exits of
//! procedures. The rows that the last round leaves are true in every execution from `main`.
#![tactic(auto)]

mod falling;
mod laws;
mod left;
mod round;
mod rounds;
mod source;
mod stepping;
mod table;

pub use falling::fallen_rows;
pub use laws::{called_stand_on_chains, closed_tables_are_true, last_rounds_keep};
pub use left::table_left;
pub use round::{FallenRow, PointRound, PointState, RowPlace, StepFrom};
pub use rounds::last_round;
pub use source::{RoundSource, all_heads};
pub use stepping::steps_by_table;
pub use table::{PointTable, rows_at, rows_at_exit};
