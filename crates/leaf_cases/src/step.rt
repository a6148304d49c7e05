ghost use Rattle.std.specs.Prelude.{◌≡◌, ◌<◌, ◌^◌, ◌++◌, pos, [], ◌∷◌, map, IfOk, OnOk};
ghost use Rattle.std.specs.List.{flat_map};
ghost use Rattle.items.specs.Gives.{Gives};
ghost use Rattle.linear_terms.specs.declared.col.Col.TheVariants.{Aux};
ghost use Rattle.linear_terms.specs.Polynomial.{column_of, constant_of};
ghost use Rattle.linear_terms.specs.TermError.{cause};
ghost use Rattle.transition_formula.specs.Loss.{losses_of};
ghost use Rattle.leaf_cases.specs.Claims.{case_with_claims, claim_losses, case_with_value};
ghost use Rattle.leaf_cases.specs.Listed.{AreFew};
ghost use Rattle.leaf_cases.specs.Steps.{one_more, operand, with_number, value_at, test_at, test_claim, kind_of, part_at, division_at, cases_of_step, losses_at, cases_by, losses_by_steps};

use crate::claims::{case_with_value, push_claim, with_value};
use crate::division::{Division, DivisionPart, Signs};
use items::Items;
use linear_terms::{Case, Col, Kind, Poly, TermError, add, difference, mul, scale};
use std::alloc::Global;
use transition_formula::{FormulaError, Loss, column};

/// A step whose value is a polynomial.
#[derive(Clone, Copy)]
pub(crate) enum Arithmetic {
    Negate,
    Sum,
    Difference,
    Product,
}

/// A test of two numbers, or of one number and zero.
#[derive(Clone, Copy)]
pub(crate) enum TestRelation {
    Less,
    LessOrEqual,
    Greater,
    GreaterOrEqual,
    Same,
    Negative,
    Positive,
    Zero,
}

/// What is made of a case of the values of operands.
#[derive(Clone, Copy)]
pub(crate) enum CaseStep {
    Value(Arithmetic),
    Divide(DivisionPart),
    Test(TestRelation),
}

/// Each step at each case, one step after another. What is lost is noted.
#[tactic(auto, unfolding(crate::specs::Steps::cases_by, crate::specs::Steps::losses_by_steps))]
pub(crate) fn cases_by(
    alloc: Global,
    steps: &[CaseStep],
    cases: &[Case],
    losses: &mut Items<Loss>,
) -> Result<Items<Case>, FormulaError>
    requires { AreFew (2 ^ 31) cases.now }
    ensures exact { IfOk result (λ made. made ≡ cases_by steps.now cases.now) }
    ensures noted { OnOk result (losses.new ≡ losses.old ++ losses_by_steps steps.now cases.now) }
{
    let mut made = Items::new(alloc);
    for step in steps {
        push_each(alloc, *step, cases, &mut made, losses)?;
    }
    Ok(made)
}

/// What a step makes of each case, behind what is made.
fn push_each(
    alloc: Global,
    step: CaseStep,
    cases: &[Case],
    made: &mut Items<Case>,
    losses: &mut Items<Loss>,
) -> Result<(), FormulaError>
    requires { AreFew (2 ^ 31) cases.now }
    ensures made { OnOk result (made.new ≡ made.old ++ flat_map (cases_of_step step) cases.now) }
    ensures noted { OnOk result (losses.new ≡ losses.old ++ flat_map (losses_at step) cases.now) }
{
    for case in cases {
        push_made(alloc, step, case, made, losses)?;
    }
    Ok(())
}

/// What a step makes of one case, behind what is made.
fn push_made(
    alloc: Global,
    step: CaseStep,
    case: &Case,
    made: &mut Items<Case>,
    losses: &mut Items<Loss>,
) -> Result<(), FormulaError>
    requires { case.now.aux < 2 ^ 31 }
    ensures made { OnOk result (made.new ≡ made.old ++ cases_of_step step case.now) }
    ensures noted { OnOk result (losses.new ≡ losses.old ++ losses_at step case.now) }
{
    match step {
        CaseStep::Value(arithmetic) => {
            made.push(case_with_arithmetic(alloc, arithmetic, case, losses)?)?;
            Ok(())
        }
        CaseStep::Divide(part) => push_divided(alloc, part, case, made, losses),
        CaseStep::Test(relation) => {
            made.push(case_with_test(alloc, relation, case, losses)?)?;
            Ok(())
        }
    }
}

/// The value of an operand.
pub(crate) fn operand<'a>(case: &'a Case, place: usize, zero: &'a Poly) -> &'a Poly
    requires { zero.now ≡ constant_of (pos 0) }
    ensures { result.now ≡ operand place case.now }
{
    match case.post.as_slice().get(place) {
        Some(poly) => poly,
        None => zero,
    }
}

/// The case with the value of an operation alone.
fn case_with_arithmetic(
    alloc: Global,
    arithmetic: Arithmetic,
    case: &Case,
    losses: &mut Items<Loss>,
) -> Result<Case, FormulaError>
    requires { case.now.aux < 2 ^ 31 }
    ensures exact { IfOk result
        (λ c. c ≡ case_with_value case.now (value_at arithmetic (operand 0 case.now) (operand 1 case.now))) }
    ensures noted { OnOk result
        (losses.new ≡ losses.old
        ++ losses_of (value_at arithmetic (operand 0 case.now) (operand 1 case.now))) }
{
    let zero = Poly::constant(alloc, 0);
    let first = operand(case, 0, &zero);
    let second = operand(case, 1, &zero);
    case_with_value(
        alloc,
        case,
        value_at(alloc, arithmetic, first, second),
        losses,
    )
}

fn value_at(alloc: Global, arithmetic: Arithmetic, a: &Poly, b: &Poly) -> Result<Poly, TermError>
    ensures { Gives cause (λ p. p) result (value_at arithmetic a.now b.now) }
{
    match arithmetic {
        Arithmetic::Negate => scale(alloc, a, -1),
        Arithmetic::Sum => add(alloc, a, b),
        Arithmetic::Difference => difference(alloc, a, b),
        Arithmetic::Product => mul(alloc, a, b),
    }
}

/// The case with the row of a test, and no value.
fn case_with_test(
    alloc: Global,
    relation: TestRelation,
    case: &Case,
    losses: &mut Items<Loss>,
) -> Result<Case, FormulaError>
    ensures exact { IfOk result
        (λ c. c ≡ case_with_claims case.now 0 (test_claim relation case.now ∷ []) []) }
    ensures noted { OnOk result
        (losses.new ≡ losses.old ++ claim_losses (test_claim relation case.now ∷ [])) }
{
    let zero = Poly::constant(alloc, 0);
    let first = operand(case, 0, &zero);
    let second = operand(case, 1, &zero);
    let mut rows = case.rows.clone()?;
    let poly = test_at(alloc, relation, first, second);
    push_claim(kind_of(relation), poly, &mut rows, losses)?;
    Ok(Case {
        aux: case.aux,
        rows,
        post: Items::new(alloc),
    })
}

fn kind_of(relation: TestRelation) -> Kind
    ensures { result ≡ kind_of relation }
{
    match relation {
        TestRelation::Less | TestRelation::LessOrEqual | TestRelation::Greater => Kind::AtMost,
        TestRelation::GreaterOrEqual | TestRelation::Negative | TestRelation::Positive =>
            Kind::AtMost,
        TestRelation::Same | TestRelation::Zero => Kind::Equal,
    }
}

fn test_at(alloc: Global, relation: TestRelation, a: &Poly, b: &Poly) -> Result<Poly, TermError>
    ensures { Gives cause (λ p. p) result (test_at relation a.now b.now) }
{
    match relation {
        TestRelation::Less => one_more(alloc, a, b),
        TestRelation::LessOrEqual => difference(alloc, a, b),
        TestRelation::Greater => one_more(alloc, b, a),
        TestRelation::GreaterOrEqual => difference(alloc, b, a),
        TestRelation::Same => difference(alloc, a, b),
        TestRelation::Negative => difference(alloc, a, &Poly::constant(alloc, -1)),
        TestRelation::Positive => difference(alloc, &Poly::constant(alloc, 1), a),
        TestRelation::Zero => difference(alloc, a, &Poly::constant(alloc, 0)),
    }
}

/// The difference and one.
fn one_more(alloc: Global, a: &Poly, b: &Poly) -> Result<Poly, TermError>
    ensures { Gives cause (λ p. p) result (one_more a.now b.now) }
{
    let difference = difference(alloc, a, b)?;
    add(alloc, &difference, &Poly::constant(alloc, 1))
}

/// The four cases of a division, behind what is made.
fn push_divided(
    alloc: Global,
    part: DivisionPart,
    case: &Case,
    made: &mut Items<Case>,
    losses: &mut Items<Loss>,
) -> Result<(), FormulaError>
    requires { case.now.aux < 2 ^ 31 }
    ensures made { OnOk result (made.new ≡ made.old ++ cases_of_step (CaseStep.Divide part) case.now) }
    ensures noted { OnOk result (losses.new ≡ losses.old ++ losses_at (CaseStep.Divide part) case.now) }
{
    made.push(case_with_division(alloc, part, case, true, true, losses)?)?;
    made.push(case_with_division(alloc, part, case, true, false, losses)?)?;
    made.push(case_with_division(alloc, part, case, false, true, losses)?)?;
    made.push(case_with_division(alloc, part, case, false, false, losses)?)?;
    Ok(())
}

/// The case with the rows of a division whose divisor is above zero or not, and its dividend not
/// below zero or below it, and the quotient or the remainder as its value.
fn case_with_division(
    alloc: Global,
    part: DivisionPart,
    case: &Case,
    divisor: bool,
    dividend: bool,
    losses: &mut Items<Loss>,
) -> Result<Case, FormulaError>
    requires { case.now.aux < 2 ^ 31 }
    ensures exact { IfOk result
        (λ c. c ≡ case_with_claims case.now 2
        (division_at (record { divisor = divisor; dividend = dividend }) case.now)
        (column_of (Aux (part_at part case.now.aux)) ∷ [])) }
    ensures noted { OnOk result
        (losses.new ≡ losses.old
        ++ claim_losses (division_at (record { divisor = divisor; dividend = dividend }) case.now)) }
{
    let zero = Poly::constant(alloc, 0);
    let quotient = column(alloc, Col::Aux(case.aux))?;
    let remainder = column(alloc, Col::Aux(case.aux + 1))?;
    let parts = Division {
        dividend: operand(case, 0, &zero),
        divisor: operand(case, 1, &zero),
        quotient: &quotient,
        remainder: &remainder,
    };
    let mut rows = case.rows.clone()?;
    parts.push_rows(alloc, Signs { divisor, dividend }, &mut rows, losses)?;
    let mut post = Items::new(alloc);
    post.push(match part {
        DivisionPart::Quotient => quotient,
        DivisionPart::Remainder => remainder,
    })?;
    Ok(Case {
        aux: case.aux + 2,
        rows,
        post,
    })
}

/// Each case with a number as its value.
pub(crate) fn push_number_cases(
    alloc: Global,
    value: i128,
    cases: &[Case],
    made: &mut Items<Case>,
) -> Result<(), FormulaError>
    ensures { OnOk result (made.new ≡ made.old ++ map (with_number value) cases.now) }
{
    for case in cases {
        let value = Poly::constant(alloc, value);
        made.push(with_value(alloc, case, case.aux, value)?)?;
    }
    Ok(())
}
