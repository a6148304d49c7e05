ghost use Rattle.std.specs.Prelude.{◌≡◌, ◌≢◌, ◌<◌, pos, int_div, IfOk, IfErr};
ghost use Rattle.std.specs.Map.{values_of};
ghost use Rattle.items.specs.Gives.{Gives};
ghost use Rattle.whole_numbers.specs.Divisors.{gcd_of_all};
ghost use Rattle.linear_terms.specs.TermError.{cause};
ghost use Rattle.linear_terms.specs.declared.error.TermError.TheVariants.{Memory};
ghost use Rattle.linear_terms.specs.Polynomial.{IsCanonical};
ghost use Rattle.linear_terms.specs.Row.{normal_form, reduced_row, divided_terms, with_positive_first, starts_negative, is_within, SaysAsMuch, IsNormal, IsTurnFault};
ghost use Rattle.linear_terms.specs.Value.{Valuation};

use crate::{Kind, Mono, Normal, Poly, Row, TermError, scale};
use items::Items;
use std::alloc::{AllocError, Global};
use whole_numbers::{gcd, quotient, quotient_up};

/// The normal form of a row, which says the same: the coefficients have no common divisor but 1,
/// and the first one of an equation is positive. A row without columns is true or false, and an
/// equation whose constant the divisor of the coefficients does not divide is false.
#[tactic(auto, using(crate::proofs::Normals::normal_forms))]
pub fn normal(alloc: Global, row: &Row) -> Result<Normal, TermError>
    ensures exact { Gives cause (λ n. n) result (normal_form row.now) }
    ensures same { (at : Valuation) → IfOk result (SaysAsMuch at row.now) }
    ensures is_normal { IfOk result IsNormal }
    ensures fault { IfErr result (λ e. e ≢ Memory → IsTurnFault e) }
{
    let divisor = divisor(&row.poly);
    if divisor == 0 {
        return Ok(Normal::Constant(is_within(row.kind, row.poly.rest)));
    }
    reduced_row(alloc, row.kind, divisor, &row.poly)
}

fn is_within(kind: Kind, number: i128) -> bool
    ensures { result ≡ is_within kind number }
{
    match kind {
        Kind::AtMost => number <= 0,
        Kind::Equal => number == 0,
    }
}

/// The greatest common divisor of the coefficients; 0 where there are none.
fn divisor(poly: &Poly) -> u128
    ensures divisor { result ≡ gcd_of_all (values_of poly.now.terms) }
    ensures canonical { IsCanonical poly.now.terms }
{
    greatest_divisor(poly.terms.as_slice())
}

#[tactic(auto, using(crate::proofs::Normals::common_divisors))]
fn greatest_divisor(terms: &[(Mono, i128)]) -> u128
    ensures { result ≡ gcd_of_all (values_of terms.now) }
{
    let mut divisor = 0;
    for (_, number) in terms {
        divisor = gcd(divisor, number.unsigned_abs());
    }
    divisor
}

/// The row with its coefficients divided by their greatest common divisor.
fn reduced_row(alloc: Global, kind: Kind, divisor: u128, poly: &Poly) -> Result<Normal, TermError>
    requires some { 0 < divisor }
    requires divisor { divisor ≡ gcd_of_all (values_of poly.now.terms) }
    ensures { Gives cause (λ n. n) result (reduced_row kind divisor poly.now) }
{
    match kind {
        Kind::AtMost => {
            let rest = quotient_up(poly.rest, divisor);
            let poly = divided_poly(alloc, poly, divisor, rest)?;
            Ok(Normal::Kept(Row { poly, kind }))
        }
        Kind::Equal => {
            if poly.rest.unsigned_abs() % divisor != 0 {
                return Ok(Normal::Constant(false));
            }
            let rest = quotient(poly.rest, divisor);
            let poly = with_positive_first(alloc, divided_poly(alloc, poly, divisor, rest)?)?;
            Ok(Normal::Kept(Row { poly, kind }))
        }
    }
}

/// The terms divided by their greatest common divisor, with a constant.
fn divided_poly(alloc: Global, poly: &Poly, divisor: u128, rest: i128) -> Result<Poly, AllocError>
    requires some { 0 < divisor }
    requires divisor { divisor ≡ gcd_of_all (values_of poly.now.terms) }
    ensures { IfOk result
        (λ p. p ≡ record { terms = divided_terms divisor poly.now.terms; rest = rest }) }
{
    let terms = quotients(alloc, poly.terms.as_slice(), divisor)?;
    Ok(Poly { terms, rest })
}

fn quotients(
    alloc: Global,
    terms: &[(Mono, i128)],
    divisor: u128,
) -> Result<Items<(Mono, i128)>, AllocError>
    requires { 0 < divisor }
    ensures { IfOk result (λ made. made ≡ divided_terms divisor terms.now) }
{
    let mut made = Items::new(alloc);
    for (mono, number) in terms {
        made.push((*mono, quotient(*number, divisor)))?;
    }
    Ok(made)
}

/// The signs turned where the first coefficient is negative.
fn with_positive_first(alloc: Global, poly: Poly) -> Result<Poly, TermError>
    ensures { Gives cause (λ p. p) result (with_positive_first poly) }
{
    if starts_negative(poly.terms.as_slice()) {
        scale(alloc, &poly, -1)
    } else {
        Ok(poly)
    }
}

fn starts_negative(terms: &[(Mono, i128)]) -> bool
    ensures { result ≡ starts_negative terms.now }
{
    match terms {
        [(_, number), ..] => *number < 0,
        [] => false,
    }
}
