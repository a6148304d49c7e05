ghost use Rattle.std.specs.Prelude.{◌≡◌, ◌+◌, ◌*◌, min, List, [], length, map};
ghost use Rattle.syntax_tree.specs.Term.{term_of};
ghost use Rattle.syntax_tree.specs.Cases.{at_most, cases_of, joint_cases, of_number, of_test, operator_cases, sign_cases};
ghost use Rattle.syntax_tree.specs.Limits.{most_cases};

use crate::core_expr::Core;
use crate::limits::MOST_CASES;
use crate::op::{Op, Sign};

/// How many cases an expression has: those of its value, of its truth and of its falsity.
#[derive(Debug, Clone, Copy, PartialEq, Eq)]
pub struct Cases {
    pub value: usize,
    pub truth: usize,
    pub falsity: usize,
}

const CAP: usize = MOST_CASES + 1;

/// The cases of an expression. A number past `MOST_CASES` counts as one more than that.
#[tactic(auto, using(crate::proofs::Counts::counts))]
pub fn count_cases(e: &Core) -> Cases
    ensures { result ≡ at_most (most_cases + 1) (cases_of (term_of e.now)) }
{
    match e {
        Core::Lit(_) => of_number(1),
        Core::Col(_) => of_number(1),
        Core::Unary(sign, inner) => at_sign(*sign, count_cases(inner)),
        Core::Binary(op, left, right) => at_operator(*op, count_cases(left), count_cases(right)),
    }
}

fn sum(a: usize, b: usize) -> usize
    ensures { result ≡ min (a + b) (most_cases + 1) }
{
    a.saturating_add(b).min(CAP)
}

pub(crate) fn product(a: usize, b: usize) -> usize
    ensures { result ≡ min (a * b) (most_cases + 1) }
{
    a.saturating_mul(b).min(CAP)
}

fn of_number(value: usize) -> Cases
    ensures { result ≡ at_most (most_cases + 1) (of_number value) }
{
    Cases {
        value: value.min(CAP),
        truth: product(2, value),
        falsity: value.min(CAP),
    }
}

fn of_test(truth: usize, falsity: usize) -> Cases
    ensures { result ≡ at_most (most_cases + 1) (of_test truth falsity) }
{
    Cases {
        value: sum(truth, falsity),
        truth: truth.min(CAP),
        falsity: falsity.min(CAP),
    }
}

fn at_sign(sign: Sign, inner: Cases) -> Cases
    ensures { result ≡ at_most (most_cases + 1) (sign_cases sign inner) }
{
    match sign {
        Sign::Plus => of_number(inner.value),
        Sign::Minus => of_number(inner.value),
        Sign::Not => of_test(inner.falsity, inner.truth),
    }
}

fn at_operator(op: Op, left: Cases, right: Cases) -> Cases
    ensures { result ≡ at_most (most_cases + 1) (operator_cases op left right) }
{
    let both = product(left.value, right.value);
    match op {
        Op::Add | Op::Sub | Op::Mul => of_number(both),
        Op::Div | Op::Rem => of_number(product(4, both)),
        Op::Lt | Op::Le | Op::Gt | Op::Ge => of_test(both, both),
        Op::Eq => of_test(both, product(2, both)),
        Op::Ne => of_test(product(2, both), both),
        Op::And => of_test(
            product(left.truth, right.truth),
            sum(left.falsity, product(left.truth, right.falsity)),
        ),
        Op::Or => of_test(
            sum(left.truth, product(left.falsity, right.truth)),
            product(left.falsity, right.falsity),
        ),
    }
}
