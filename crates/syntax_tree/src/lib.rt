//! The tree of a parsed text, and the core program that it is elaborated to: a small language of
//! assignments, tests, loops and calls over whole numbers, with the evaluation of its expressions
//! and the limits that a program keeps. `specs` has the trees as plain data, by whose cases the
//! other crates define what a program means.
#![tactic(auto)]

mod cases;
mod core_expr;
mod evaluation;
mod expr;
mod limits;
mod line;
mod measure;
mod name;
mod nodes;
mod op;
mod program;
mod stmt;
mod tree;
mod well_formed;

pub use cases::{Cases, count_cases};
pub use core_expr::{Core, copy_cores};
pub use evaluation::{EvalWide, eval};
pub use expr::{Expr, copy_exprs};
pub use limits::{
    MOST_CASES, MOST_CHECKS, MOST_GLOBALS, MOST_NODES, MOST_OPERATORS, MOST_PARAMETERS,
    MOST_PROCEDURES, MOST_SLOTS,
};
pub use line::{Line, copy_lines};
pub use measure::{count_operators, has_columns_below, joint_cases};
pub use name::Name;
pub use nodes::count_nodes;
pub use op::{Op, Sign};
pub use program::{Column, GlobalVar, Proc, Program};
pub use stmt::{Stmt, copy_stmts};
pub use tree::{Item, Param, Tree};
