/// The procedures of a program.
pub const MOST_PROCEDURES: usize = 256;
/// The parameters of a procedure.
pub const MOST_PARAMETERS: u32 = 8;
/// The globals of a program.
pub const MOST_GLOBALS: usize = 16;
/// The parameters, locals and temporaries of a procedure.
pub const MOST_SLOTS: usize = 24;
/// The nodes of a procedure's flow graph.
pub const MOST_NODES: usize = 512;
/// The assertions of a program.
pub const MOST_CHECKS: usize = 1024;
/// The cases of a value, of a condition's truth or falsity, and of the arguments of a call
/// together.
pub const MOST_CASES: usize = 256;
/// The operators of a value, of a condition, and of the arguments of a call together.
pub const MOST_OPERATORS: usize = 200_000;
