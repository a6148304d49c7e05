/// The most levels of nesting: a procedure's block is the first, and each block, `if` and loop, and
/// in an expression each bracket and each sign, is one deeper than what holds it.
pub const MOST_LEVELS: usize = 64;

/// The most operators with two operands in one whole expression.
pub const MOST_BINARY_OPERATORS: usize = 256;
