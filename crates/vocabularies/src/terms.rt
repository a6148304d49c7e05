ghost use Rattle.std.specs.Prelude.{◌≡◌, Result, Ok, IfOk};
ghost use Rattle.items.specs.Gives.{Gives};
ghost use Rattle.linear_terms.specs.Expressions.{Made, ◌⊟◌};
ghost use Rattle.linear_terms.specs.Row.{normal_form};
ghost use Rattle.linear_terms.specs.TermError.{cause};
ghost use Rattle.linear_terms.specs.declared.error.TermError.{TermError as Fault};
ghost use Rattle.linear_terms.specs.declared.row.Normal.{Normal as Reduced};
ghost use Rattle.syntax_tree.specs.Term.{term_of};
ghost use Rattle.vocabularies.specs.Harvest.{keeps_polynomials, is_ring_operator, is_polynomial, with_sign, combination_of, polynomial_of, is_comparison, are_single, is_linear, equation_of, kept_term, linear_term, compared_term};

use linear_terms::{
    Col, Kind, Mono, Normal, Poly, Row, TermError, add, difference, mul, normal, scale,
};
use std::alloc::{AllocError, Global};
use syntax_tree::{Core, Op, Sign};

// ---- expressions that are polynomials

fn keeps_polynomials(sign: Sign) -> bool
    ensures { result ≡ keeps_polynomials sign }
{
    match sign {
        Sign::Plus | Sign::Minus => true,
        Sign::Not => false,
    }
}

fn is_ring_operator(op: Op) -> bool
    ensures { result ≡ is_ring_operator op }
{
    match op {
        Op::Add | Op::Sub | Op::Mul => true,
        Op::Div | Op::Rem | Op::And | Op::Or => false,
        Op::Lt | Op::Le | Op::Gt | Op::Ge | Op::Eq | Op::Ne => false,
    }
}

/// Whether an expression has sums, differences, products and the signs `+` and `-` alone.
#[tactic(auto, using(syntax_tree::proofs::Terms::terms))]
fn is_polynomial(e: &Core) -> bool
    ensures { result ≡ is_polynomial (term_of e.now) }
{
    match e {
        Core::Lit(_) => true,
        Core::Col(_) => true,
        Core::Unary(sign, inner) => keeps_polynomials(*sign) && is_polynomial(inner),
        Core::Binary(op, left, right) => {
            is_ring_operator(*op) && is_polynomial(left) && is_polynomial(right)
        }
    }
}

/// The polynomial of such an expression.
#[tactic(auto, using(syntax_tree::proofs::Terms::terms))]
fn polynomial_of(alloc: Global, e: &Core) -> Result<Poly, TermError>
    ensures { Gives cause (λ p. p) result (polynomial_of (term_of e.now)) }
{
    match e {
        Core::Lit(value) => Ok(Poly::constant(alloc, *value)),
        Core::Col(col) => Poly::column(alloc, Col::At(*col)),
        Core::Unary(sign, inner) => {
            let inner = polynomial_of(alloc, inner)?;
            with_sign(alloc, *sign, inner)
        }
        Core::Binary(op, left, right) => {
            let left = polynomial_of(alloc, left)?;
            let right = polynomial_of(alloc, right)?;
            combination_of(alloc, *op, &left, &right)
        }
    }
}

fn with_sign(alloc: Global, sign: Sign, inner: Poly) -> Result<Poly, TermError>
    ensures { Gives cause (λ p. p) result (with_sign sign inner) }
{
    match sign {
        Sign::Plus => Ok(inner),
        Sign::Minus => scale(alloc, &inner, -1),
        Sign::Not => Ok(Poly::constant(alloc, 0)),
    }
}

fn combination_of(alloc: Global, op: Op, left: &Poly, right: &Poly) -> Result<Poly, TermError>
    ensures { Gives cause (λ p. p) result (combination_of op left.now right.now) }
{
    match op {
        Op::Add => add(alloc, left, right),
        Op::Sub => difference(alloc, left, right),
        Op::Mul => mul(alloc, left, right),
        Op::Div | Op::Rem | Op::And | Op::Or => Ok(Poly::constant(alloc, 0)),
        Op::Lt | Op::Le | Op::Gt | Op::Ge | Op::Eq | Op::Ne => Ok(Poly::constant(alloc, 0)),
    }
}

// ---- the term of a comparison

fn is_comparison(op: Op) -> bool
    ensures { result ≡ is_comparison op }
{
    match op {
        Op::Lt | Op::Le | Op::Gt | Op::Ge | Op::Eq | Op::Ne => true,
        Op::Add | Op::Sub | Op::Mul | Op::Div | Op::Rem | Op::And | Op::Or => false,
    }
}

fn is_linear(terms: &[(Mono, i128)]) -> bool
    ensures { result ≡ is_linear terms.now }
{
    match terms {
        [] => false,
        _ => are_single(terms),
    }
}

fn are_single(terms: &[(Mono, i128)]) -> bool
    ensures { result ≡ are_single terms.now }
{
    terms.iter().all(|(mono, _)| mono.columns().len() == 1)
}

/// The term of a comparison of two polynomials: their difference, if it is linear, without its
/// constant and without a common divisor, its first number positive.
pub(crate) fn compared_term(
    alloc: Global,
    op: Op,
    left: &Core,
    right: &Core,
) -> Result<Option<Poly>, AllocError>
    ensures { IfOk result (λ term. term ≡ compared_term op (term_of left.now) (term_of right.now)) }
{
    if is_comparison(op) && is_polynomial(left) && is_polynomial(right) {
        let made = compared_difference(alloc, left, right);
        linear_term(alloc, made)
    } else {
        Ok(None)
    }
}

fn compared_difference(alloc: Global, left: &Core, right: &Core) -> Result<Poly, TermError>
    ensures { Gives cause (λ p. p) result
        (polynomial_of (term_of left.now) ⊟ polynomial_of (term_of right.now)) }
{
    let left = polynomial_of(alloc, left)?;
    let right = polynomial_of(alloc, right)?;
    difference(alloc, &left, &right)
}

fn linear_term(alloc: Global, made: Result<Poly, TermError>) -> Result<Option<Poly>, AllocError>
    ensures { (stated : Made) → Gives cause (λ p. p) made stated
        → IfOk result (λ term. term ≡ linear_term stated) }
{
    match made {
        Ok(poly) if is_linear(poly.terms()) => {
            let reduced = normal_equation(alloc, poly);
            kept_term(reduced)
        }
        Ok(_curved) => Ok(None),
        Err(TermError::Memory) => Err(AllocError),
        Err(_lost) => Ok(None),
    }
}

fn normal_equation(alloc: Global, poly: Poly) -> Result<Normal, TermError>
    ensures { Gives cause (λ n. n) result (normal_form (equation_of poly)) }
{
    let poly = poly.without_constant();
    let kind = Kind::Equal;
    normal(alloc, &Row { poly, kind })
}

fn kept_term(reduced: Result<Normal, TermError>) -> Result<Option<Poly>, AllocError>
    ensures { (stated : Result Reduced Fault) → Gives cause (λ n. n) reduced stated
        → IfOk result (λ term. term ≡ kept_term stated) }
{
    match reduced {
        Ok(Normal::Kept(row)) => Ok(Some(row.poly)),
        Ok(Normal::Constant(_)) => Ok(None),
        Err(TermError::Memory) => Err(AllocError),
        Err(_lost) => Ok(None),
    }
}
