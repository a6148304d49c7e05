ghost use Rattle.std.specs.Prelude.{◌≡◌, ◌+◌, ◌≤◌, ◌^◌, ◌++◌, [], ◌∷◌, pos, map, IfOk, OnOk};
ghost use Rattle.syntax_tree.specs.declared.limits.TheConstants.{MOST_OPERATORS};
ghost use Rattle.syntax_tree.specs.Term.{term_of};
ghost use Rattle.syntax_tree.specs.WellFormed.{operators_of};
ghost use Rattle.leaf_cases.specs.Listed.{AreFew, together, either};
ghost use Rattle.leaf_cases.specs.Steps.{with_number, cases_by, losses_by_steps};
ghost use Rattle.leaf_cases.specs.Expression.{one_case, of_number, lists_of, sign_lists, operator_lists, calculation_lists, comparison_list, comparison, opposite, tests_of, sought_in};

use crate::division::DivisionPart;
use crate::listed::both;
use crate::step::{Arithmetic, CaseStep, TestRelation, cases_by, push_number_cases};
use items::Items;
use linear_terms::{Case, Col, Poly};
use std::alloc::Global;
use syntax_tree::{Core, Op, Sign};
use transition_formula::{FormulaError, Loss, column};

/// What is sought of an expression.
#[derive(Clone, Copy)]
pub(crate) enum Sought {
    Value,
    Truth,
    Falsity,
}

const SUM: CaseStep = CaseStep::Value(Arithmetic::Sum);

const DIFFERENCE: CaseStep = CaseStep::Value(Arithmetic::Difference);

const PRODUCT: CaseStep = CaseStep::Value(Arithmetic::Product);

const QUOTIENT: CaseStep = CaseStep::Divide(DivisionPart::Quotient);

const REMAINDER: CaseStep = CaseStep::Divide(DivisionPart::Remainder);

const LESS: CaseStep = CaseStep::Test(TestRelation::Less);

const LESS_OR_EQUAL: CaseStep = CaseStep::Test(TestRelation::LessOrEqual);

const GREATER: CaseStep = CaseStep::Test(TestRelation::Greater);

const GREATER_OR_EQUAL: CaseStep = CaseStep::Test(TestRelation::GreaterOrEqual);

const SAME: CaseStep = CaseStep::Test(TestRelation::Same);

/// The cases of an expression's value, of its truth or of its falsity. What is lost on the way is
/// noted.
#[cycle(expression)]
#[tactic(auto, using(syntax_tree::proofs::Terms::terms, crate::proofs::Shapes::shapes))]
pub(crate) fn cases_of(
    alloc: Global,
    e: &Core,
    sought: Sought,
    losses: &mut Items<Loss>,
) -> Result<Items<Case>, FormulaError>
    requires { operators_of (term_of e.now) ≤ MOST_OPERATORS + 1 }
    ensures exact { IfOk result
        (λ made. made ≡ (sought_in sought (lists_of (term_of e.now))).cases) }
    ensures noted { OnOk result
        (losses.new ≡ losses.old ++ (sought_in sought (lists_of (term_of e.now))).lost) }
{
    match e {
        Core::Lit(value) => {
            let value = one_case(alloc, Poly::constant(alloc, *value))?;
            number_cases(alloc, value, sought, losses)
        }
        Core::Col(col) => {
            let value = one_case(alloc, column(alloc, Col::At(*col))?)?;
            number_cases(alloc, value, sought, losses)
        }
        Core::Unary(sign, inner) => sign_cases(alloc, *sign, inner, sought, losses),
        Core::Binary(op, left, right) => operator_cases(alloc, *op, left, right, sought, losses),
    }
}

/// One case without rows.
fn one_case(alloc: Global, value: Poly) -> Result<Items<Case>, FormulaError>
    ensures { IfOk result (λ made. made ≡ (one_case value).cases) }
{
    let mut post = Items::new(alloc);
    post.push(value)?;
    let mut made = Items::new(alloc);
    made.push(Case {
        aux: 0,
        rows: Items::new(alloc),
        post,
    })?;
    Ok(made)
}

/// The cases of a number, or those where it is not 0 or is 0.
fn number_cases(
    alloc: Global,
    values: Items<Case>,
    sought: Sought,
    losses: &mut Items<Loss>,
) -> Result<Items<Case>, FormulaError>
    requires { AreFew (2 ^ 31) values }
    ensures exact { IfOk result
        (λ made. made
        ≡ (sought_in sought (of_number (record { cases = values; lost = [] }))).cases) }
    ensures noted { OnOk result
        (losses.new ≡ losses.old
        ++ (sought_in sought (of_number (record { cases = values; lost = [] }))).lost) }
{
    match sought {
        Sought::Value => Ok(values),
        Sought::Truth => {
            let steps = [
                CaseStep::Test(TestRelation::Negative),
                CaseStep::Test(TestRelation::Positive),
            ];
            cases_by(alloc, &steps, values.as_slice(), losses)
        }
        Sought::Falsity => {
            let steps = [CaseStep::Test(TestRelation::Zero)];
            cases_by(alloc, &steps, values.as_slice(), losses)
        }
    }
}

/// The cases of a test's value: 1 where it is true, and 0 where it is false.
fn test_value(alloc: Global, truth: &[Case], falsity: &[Case]) -> Result<Items<Case>, FormulaError>
    ensures { IfOk result
        (λ made. made ≡ map (with_number (pos 1)) truth.now ++ map (with_number (pos 0))
        falsity.now) }
{
    let mut made = Items::new(alloc);
    push_number_cases(alloc, 1, truth, &mut made)?;
    push_number_cases(alloc, 0, falsity, &mut made)?;
    Ok(made)
}

#[cycle(expression)]
fn sign_cases(
    alloc: Global,
    sign: Sign,
    inner: &Core,
    sought: Sought,
    losses: &mut Items<Loss>,
) -> Result<Items<Case>, FormulaError>
    requires { operators_of (term_of inner.now) ≤ MOST_OPERATORS + 1 }
    ensures exact { IfOk result
        (λ made. made ≡ (sought_in sought (sign_lists sign (lists_of (term_of inner.now)))).cases) }
    ensures noted { OnOk result
        (losses.new ≡ losses.old
        ++ (sought_in sought (sign_lists sign (lists_of (term_of inner.now)))).lost) }
{
    match sign {
        Sign::Plus => {
            let values = cases_of(alloc, inner, Sought::Value, losses)?;
            number_cases(alloc, values, sought, losses)
        }
        Sign::Minus => {
            let values = cases_of(alloc, inner, Sought::Value, losses)?;
            let steps = [CaseStep::Value(Arithmetic::Negate)];
            let turned = cases_by(alloc, &steps, values.as_slice(), losses)?;
            number_cases(alloc, turned, sought, losses)
        }
        Sign::Not => match sought {
            Sought::Truth => cases_of(alloc, inner, Sought::Falsity, losses),
            Sought::Falsity => cases_of(alloc, inner, Sought::Truth, losses),
            Sought::Value => {
                let truth = cases_of(alloc, inner, Sought::Falsity, losses)?;
                let falsity = cases_of(alloc, inner, Sought::Truth, losses)?;
                test_value(alloc, truth.as_slice(), falsity.as_slice())
            }
        },
    }
}

#[cycle(expression)]
fn operator_cases(
    alloc: Global,
    op: Op,
    left: &Core,
    right: &Core,
    sought: Sought,
    losses: &mut Items<Loss>,
) -> Result<Items<Case>, FormulaError>
    requires left { operators_of (term_of left.now) ≤ MOST_OPERATORS + 1 }
    requires right { operators_of (term_of right.now) ≤ MOST_OPERATORS + 1 }
    ensures exact { IfOk result
        (λ made. made
        ≡ (sought_in sought
        (operator_lists op (lists_of (term_of left.now)) (lists_of (term_of right.now)))).cases) }
    ensures noted { OnOk result
        (losses.new ≡ losses.old
        ++ (sought_in sought
        (operator_lists op (lists_of (term_of left.now)) (lists_of (term_of right.now)))).lost) }
{
    match op {
        Op::Add => calculation_cases(alloc, SUM, left, right, sought, losses),
        Op::Sub => calculation_cases(alloc, DIFFERENCE, left, right, sought, losses),
        Op::Mul => calculation_cases(alloc, PRODUCT, left, right, sought, losses),
        Op::Div => calculation_cases(alloc, QUOTIENT, left, right, sought, losses),
        Op::Rem => calculation_cases(alloc, REMAINDER, left, right, sought, losses),
        Op::And => conjunction_cases(alloc, left, right, sought, losses),
        Op::Or => disjunction_cases(alloc, left, right, sought, losses),
        Op::Lt => comparison_cases(alloc, op, left, right, sought, losses),
        Op::Le => comparison_cases(alloc, op, left, right, sought, losses),
        Op::Gt => comparison_cases(alloc, op, left, right, sought, losses),
        Op::Ge => comparison_cases(alloc, op, left, right, sought, losses),
        Op::Eq => comparison_cases(alloc, op, left, right, sought, losses),
        Op::Ne => comparison_cases(alloc, op, left, right, sought, losses),
    }
}

/// The cases of a calculation.
#[cycle(expression)]
fn calculation_cases(
    alloc: Global,
    step: CaseStep,
    left: &Core,
    right: &Core,
    sought: Sought,
    losses: &mut Items<Loss>,
) -> Result<Items<Case>, FormulaError>
    requires left { operators_of (term_of left.now) ≤ MOST_OPERATORS + 1 }
    requires right { operators_of (term_of right.now) ≤ MOST_OPERATORS + 1 }
    ensures exact { IfOk result
        (λ made. made
        ≡ (sought_in sought
        (calculation_lists step (lists_of (term_of left.now)) (lists_of (term_of right.now)))).cases) }
    ensures noted { OnOk result
        (losses.new ≡ losses.old
        ++ (sought_in sought
        (calculation_lists step (lists_of (term_of left.now)) (lists_of (term_of right.now)))).lost) }
{
    let pairs = joint_cases(alloc, left, Sought::Value, right, Sought::Value, losses)?;
    let steps = [step];
    let values = cases_by(alloc, &steps, pairs.as_slice(), losses)?;
    number_cases(alloc, values, sought, losses)
}

/// The cases of a comparison.
#[cycle(expression)]
fn comparison_cases(
    alloc: Global,
    op: Op,
    left: &Core,
    right: &Core,
    sought: Sought,
    losses: &mut Items<Loss>,
) -> Result<Items<Case>, FormulaError>
    requires left { operators_of (term_of left.now) ≤ MOST_OPERATORS + 1 }
    requires right { operators_of (term_of right.now) ≤ MOST_OPERATORS + 1 }
    ensures exact { IfOk result
        (λ made. made
        ≡ (sought_in sought
        (comparison op (lists_of (term_of left.now)) (lists_of (term_of right.now)))).cases) }
    ensures noted { OnOk result
        (losses.new ≡ losses.old
        ++ (sought_in sought
        (comparison op (lists_of (term_of left.now)) (lists_of (term_of right.now)))).lost) }
{
    match sought {
        Sought::Truth => cases_of_comparison(alloc, op, left, right, losses),
        Sought::Falsity => cases_of_comparison(alloc, opposite(op), left, right, losses),
        Sought::Value => {
            let truth = cases_of_comparison(alloc, op, left, right, losses)?;
            let falsity = cases_of_comparison(alloc, opposite(op), left, right, losses)?;
            test_value(alloc, truth.as_slice(), falsity.as_slice())
        }
    }
}

/// The cases in which a comparison is true.
#[cycle(expression)]
fn cases_of_comparison(
    alloc: Global,
    op: Op,
    left: &Core,
    right: &Core,
    losses: &mut Items<Loss>,
) -> Result<Items<Case>, FormulaError>
    requires left { operators_of (term_of left.now) ≤ MOST_OPERATORS + 1 }
    requires right { operators_of (term_of right.now) ≤ MOST_OPERATORS + 1 }
    ensures exact { IfOk result
        (λ made. made
        ≡ (comparison_list op (lists_of (term_of left.now)) (lists_of (term_of right.now))).cases) }
    ensures noted { OnOk result
        (losses.new ≡ losses.old
        ++ (comparison_list op (lists_of (term_of left.now)) (lists_of (term_of right.now))).lost) }
{
    let pairs = joint_cases(alloc, left, Sought::Value, right, Sought::Value, losses)?;
    tests_by(alloc, op, pairs.as_slice(), losses)
}

/// The tests of a comparison, at each pair of its operands.
fn tests_by(
    alloc: Global,
    op: Op,
    pairs: &[Case],
    losses: &mut Items<Loss>,
) -> Result<Items<Case>, FormulaError>
    requires { AreFew (2 ^ 31) pairs.now }
    ensures exact { IfOk result (λ made. made ≡ cases_by (tests_of op) pairs.now) }
    ensures noted { OnOk result (losses.new ≡ losses.old ++ losses_by_steps (tests_of op) pairs.now) }
{
    match op {
        Op::Lt => cases_by(alloc, &[LESS], pairs, losses),
        Op::Le => cases_by(alloc, &[LESS_OR_EQUAL], pairs, losses),
        Op::Gt => cases_by(alloc, &[GREATER], pairs, losses),
        Op::Ge => cases_by(alloc, &[GREATER_OR_EQUAL], pairs, losses),
        Op::Eq => cases_by(alloc, &[SAME], pairs, losses),
        Op::Ne => cases_by(alloc, &[LESS, GREATER], pairs, losses),
        Op::Add | Op::Sub | Op::Mul | Op::Div | Op::Rem | Op::And | Op::Or => {
            cases_by(alloc, &[], pairs, losses)
        }
    }
}

/// The comparison that holds where another does not.
fn opposite(op: Op) -> Op
    ensures { result ≡ opposite op }
{
    match op {
        Op::Lt => Op::Ge,
        Op::Le => Op::Gt,
        Op::Gt => Op::Le,
        Op::Ge => Op::Lt,
        Op::Eq => Op::Ne,
        Op::Ne => Op::Eq,
        Op::Add | Op::Sub | Op::Mul | Op::Div | Op::Rem | Op::And | Op::Or => op,
    }
}

/// The cases of `&&`.
#[cycle(expression)]
fn conjunction_cases(
    alloc: Global,
    left: &Core,
    right: &Core,
    sought: Sought,
    losses: &mut Items<Loss>,
) -> Result<Items<Case>, FormulaError>
    requires left { operators_of (term_of left.now) ≤ MOST_OPERATORS + 1 }
    requires right { operators_of (term_of right.now) ≤ MOST_OPERATORS + 1 }
    ensures exact { IfOk result
        (λ made. made
        ≡ (sought_in sought
        (operator_lists Op.And (lists_of (term_of left.now))
        (lists_of (term_of right.now)))).cases) }
    ensures noted { OnOk result
        (losses.new ≡ losses.old
        ++ (sought_in sought
        (operator_lists Op.And (lists_of (term_of left.now))
        (lists_of (term_of right.now)))).lost) }
{
    match sought {
        Sought::Truth => joint_cases(alloc, left, Sought::Truth, right, Sought::Truth, losses),
        Sought::Falsity => early_cases(alloc, left, right, Sought::Falsity, Sought::Truth, losses),
        Sought::Value => {
            let yes = Sought::Truth;
            let truth = joint_cases(alloc, left, yes, right, yes, losses)?;
            let falsity = early_cases(alloc, left, right, Sought::Falsity, yes, losses)?;
            test_value(alloc, truth.as_slice(), falsity.as_slice())
        }
    }
}

/// The cases of `||`.
#[cycle(expression)]
fn disjunction_cases(
    alloc: Global,
    left: &Core,
    right: &Core,
    sought: Sought,
    losses: &mut Items<Loss>,
) -> Result<Items<Case>, FormulaError>
    requires left { operators_of (term_of left.now) ≤ MOST_OPERATORS + 1 }
    requires right { operators_of (term_of right.now) ≤ MOST_OPERATORS + 1 }
    ensures exact { IfOk result
        (λ made. made
        ≡ (sought_in sought
        (operator_lists Op.Or (lists_of (term_of left.now))
        (lists_of (term_of right.now)))).cases) }
    ensures noted { OnOk result
        (losses.new ≡ losses.old
        ++ (sought_in sought
        (operator_lists Op.Or (lists_of (term_of left.now)) (lists_of (term_of right.now)))).lost) }
{
    match sought {
        Sought::Truth => early_cases(alloc, left, right, Sought::Truth, Sought::Falsity, losses),
        Sought::Falsity => {
            joint_cases(alloc, left, Sought::Falsity, right, Sought::Falsity, losses)
        }
        Sought::Value => {
            let no = Sought::Falsity;
            let truth = early_cases(alloc, left, right, Sought::Truth, no, losses)?;
            let falsity = joint_cases(alloc, left, no, right, no, losses)?;
            test_value(alloc, truth.as_slice(), falsity.as_slice())
        }
    }
}

/// The cases of two expressions together.
#[cycle(expression)]
fn joint_cases(
    alloc: Global,
    left: &Core,
    first: Sought,
    right: &Core,
    second: Sought,
    losses: &mut Items<Loss>,
) -> Result<Items<Case>, FormulaError>
    requires left { operators_of (term_of left.now) ≤ MOST_OPERATORS + 1 }
    requires right { operators_of (term_of right.now) ≤ MOST_OPERATORS + 1 }
    ensures exact { IfOk result
        (λ made. made
        ≡ (together (sought_in first (lists_of (term_of left.now)))
        (sought_in second (lists_of (term_of right.now)))).cases) }
    ensures noted { OnOk result
        (losses.new ≡ losses.old
        ++ (together (sought_in first (lists_of (term_of left.now)))
        (sought_in second (lists_of (term_of right.now)))).lost) }
{
    let firsts = cases_of(alloc, left, first, losses)?;
    let seconds = cases_of(alloc, right, second, losses)?;
    both(alloc, firsts.as_slice(), seconds.as_slice())
}

/// The cases in which the left operand decides, and then those in which the right one does.
#[cycle(expression)]
fn early_cases(
    alloc: Global,
    left: &Core,
    right: &Core,
    decided: Sought,
    rest: Sought,
    losses: &mut Items<Loss>,
) -> Result<Items<Case>, FormulaError>
    requires left { operators_of (term_of left.now) ≤ MOST_OPERATORS + 1 }
    requires right { operators_of (term_of right.now) ≤ MOST_OPERATORS + 1 }
    ensures exact { IfOk result
        (λ made. made
        ≡ (either (sought_in decided (lists_of (term_of left.now)))
        (together (sought_in rest (lists_of (term_of left.now)))
        (sought_in decided (lists_of (term_of right.now))))).cases) }
    ensures noted { OnOk result
        (losses.new ≡ losses.old
        ++ (either (sought_in decided (lists_of (term_of left.now)))
        (together (sought_in rest (lists_of (term_of left.now)))
        (sought_in decided (lists_of (term_of right.now))))).lost) }
{
    let mut made = cases_of(alloc, left, decided, losses)?;
    let late = joint_cases(alloc, left, rest, right, decided, losses)?;
    made.append(late)?;
    Ok(made)
}
