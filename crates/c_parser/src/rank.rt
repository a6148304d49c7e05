ghost use Rattle.std.specs.Prelude.{◌≡◌};
ghost use Rattle.c_parser.specs.Operators.{rank};

use syntax_tree::Op;

/// How many ranks binary operators have.
pub(crate) const RANKS: usize = 6;

/// How loosely a binary operator binds: 0 is the strongest.
pub(crate) fn rank(op: Op) -> usize
    ensures { result ≡ rank op }
{
    match op {
        Op::Mul | Op::Div | Op::Rem => 0,
        Op::Add | Op::Sub => 1,
        Op::Lt | Op::Le | Op::Gt | Op::Ge => 2,
        Op::Eq | Op::Ne => 3,
        Op::And => 4,
        Op::Or => 5,
    }
}
