ghost use Rattle.std.specs.Prelude.{◌≡◌, ◌≢◌, IfOk, IsTrue, length, pos, ◌-ℤ◌, ◌*ℤ◌, int_div};
ghost use Rattle.syntax_tree.specs.Term.{term_of};
ghost use Rattle.syntax_tree.specs.WellFormed.{columns_below};
ghost use Rattle.syntax_tree.specs.Value.{early_value, evaluation_result, truth_value, value_of};
ghost use Rattle.syntax_tree.specs.Evaluation.{number_of, sign_number, step_number};

use crate::core_expr::Core;
use crate::op::{Op, Sign};

/// A step of evaluation whose value leaves 128 bits: its operator and the values of its operands.
#[derive(Debug, Clone, Copy, PartialEq, Eq)]
pub struct EvalWide {
    pub left: i128,
    pub right: i128,
    pub op: Op,
}

// Why an evaluation has no number.
#[derive(Debug, Clone, Copy)]
enum EvalStop {
    DividesByZero,
    Wide(EvalWide),
}

/// The value of an expression in a state, which has one number per column.
#[tactic(auto, using(crate::proofs::Numbers::endings), unfolding(crate::specs::Evaluation::number_of))]
pub fn eval(e: &Core, state: &[i128]) -> Result<Option<i128>, EvalWide>
    requires { IsTrue (columns_below (length state.now) (term_of e.now)) }
    ensures exact { result ≡ evaluation_result (term_of e.now) state.now }
    ensures value { IfOk result (λ v. v ≡ value_of (term_of e.now) state.now) }
{
    match number(e, state) {
        Ok(value) => Ok(Some(value)),
        Err(EvalStop::DividesByZero) => Ok(None),
        Err(EvalStop::Wide(step)) => Err(step),
    }
}

#[tactic(auto, using(crate::proofs::Numbers::evaluation))]
fn number(e: &Core, state: &[i128]) -> Result<i128, EvalStop>
    requires { IsTrue (columns_below (length state.now) (term_of e.now)) }
    ensures { result ≡ number_of (term_of e.now) state.now }
{
    match e {
        Core::Lit(value) => Ok(*value),
        Core::Col(col) => Ok(state[*col as usize]),
        Core::Unary(sign, inner) => at_sign(*sign, number(inner, state)?),
        Core::Binary(op, left, right) => {
            let x = number(left, state)?;
            match early(*op, x) {
                Some(value) => Ok(value),
                None => at_operator(*op, x, number(right, state)?),
            }
        }
    }
}

#[tactic(auto, unfolding(crate::specs::Evaluation::sign_number, crate::specs::Evaluation::step_number))]
fn at_sign(sign: Sign, x: i128) -> Result<i128, EvalStop>
    ensures { result ≡ sign_number sign x }
{
    match sign {
        Sign::Plus => Ok(x),
        Sign::Minus => difference(0, x),
        Sign::Not => Ok(truth(x == 0)),
    }
}

fn truth(holds: bool) -> i128
    ensures { result ≡ truth_value holds }
{
    if holds { 1 } else { 0 }
}

// What `&&` and `||` give without their right operand.
fn early(op: Op, x: i128) -> Option<i128>
    ensures { result ≡ early_value op x }
{
    match op {
        Op::And if x == 0 => Some(0),
        Op::Or if x != 0 => Some(1),
        _ => None,
    }
}

#[tactic(auto, unfolding(crate::specs::Evaluation::step_number))]
fn difference(left: i128, right: i128) -> Result<i128, EvalStop>
    ensures { result ≡ step_number (record { op = Op.Sub; left = left; right = right }) }
{
    let op = Op::Sub;
    left.checked_sub(right)
        .ok_or(EvalStop::Wide(EvalWide { left, right, op }))
}

#[tactic(auto, using(crate::proofs::Numbers::minus_quotient))]
fn remainder(left: i128, right: i128) -> i128
    requires { right ≢ pos 0 }
    ensures { result ≡ left -ℤ (int_div left right *ℤ right) }
{
    left.wrapping_rem(right)
}

#[tactic(auto, unfolding(crate::specs::Evaluation::step_number))]
fn at_operator(op: Op, left: i128, right: i128) -> Result<i128, EvalStop>
    ensures { result ≡ step_number (record { op = op; left = left; right = right }) }
{
    let wide = EvalStop::Wide(EvalWide { left, right, op });
    match op {
        Op::Add => left.checked_add(right).ok_or(wide),
        Op::Sub => difference(left, right),
        Op::Mul => left.checked_mul(right).ok_or(wide),
        Op::Div | Op::Rem if right == 0 => Err(EvalStop::DividesByZero),
        Op::Div => left.checked_div(right).ok_or(wide),
        Op::Rem => Ok(remainder(left, right)),
        Op::Lt => Ok(truth(left < right)),
        Op::Le => Ok(truth(left <= right)),
        Op::Gt => Ok(truth(left > right)),
        Op::Ge => Ok(truth(left >= right)),
        Op::Eq => Ok(truth(left == right)),
        Op::Ne => Ok(truth(left != right)),
        Op::And => Ok(truth(left != 0 && right != 0)),
        Op::Or => Ok(truth(left != 0 || right != 0)),
    }
}
