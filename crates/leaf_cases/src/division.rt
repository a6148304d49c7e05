ghost use Rattle.std.specs.Prelude.{◌≡◌, ◌++◌, OnOk};
ghost use Rattle.items.specs.Gives.{Gives};
ghost use Rattle.linear_terms.specs.TermError.{cause};
ghost use Rattle.leaf_cases.specs.Claims.{rows_of, claim_losses};
ghost use Rattle.leaf_cases.specs.Division.{equation, divisor_sign, dividend_sign, lower_bound, upper_bound, division};

use crate::claims::push_claim;
use items::Items;
use linear_terms::{Kind, Poly, Row, TermError, add, difference, mul, scale};
use std::alloc::Global;
use transition_formula::{FormulaError, Loss};

/// What is taken of a division.
#[derive(Clone, Copy)]
pub(crate) enum DivisionPart {
    Quotient,
    Remainder,
}

/// Whether the divisor is above zero, and whether the dividend is not below zero.
#[derive(Clone, Copy)]
pub(crate) struct Signs {
    pub(crate) divisor: bool,
    pub(crate) dividend: bool,
}

/// The polynomials of a division.
#[derive(Clone, Copy)]
pub(crate) struct Division<'a> {
    pub(crate) dividend: &'a Poly,
    pub(crate) divisor: &'a Poly,
    pub(crate) quotient: &'a Poly,
    pub(crate) remainder: &'a Poly,
}

impl Division<'_> {
    /// Adds the rows of one of the four cases behind others. Those that are lost are noted.
    pub(crate) fn push_rows(
        &self,
        alloc: Global,
        signs: Signs,
        rows: &mut Items<Row>,
        losses: &mut Items<Loss>,
    ) -> Result<(), FormulaError>
        ensures made { OnOk result
            (rows.new ≡ rows.old
            ++ rows_of (division signs self.now.dividend.now self.now.divisor.now
            self.now.quotient.now self.now.remainder.now)) }
        ensures noted { OnOk result
            (losses.new ≡ losses.old
            ++ claim_losses (division signs self.now.dividend.now self.now.divisor.now
            self.now.quotient.now self.now.remainder.now)) }
    {
        let Division {
            dividend,
            divisor,
            quotient,
            remainder,
        } = *self;
        let zero = equation(alloc, dividend, divisor, quotient, remainder);
        push_claim(Kind::Equal, zero, rows, losses)?;
        let sign = divisor_sign(alloc, signs.divisor, divisor);
        push_claim(Kind::AtMost, sign, rows, losses)?;
        let sign = dividend_sign(alloc, signs.dividend, dividend);
        push_claim(Kind::AtMost, sign, rows, losses)?;
        let lower = lower_bound(alloc, signs, divisor, remainder);
        push_claim(Kind::AtMost, lower, rows, losses)?;
        let upper = upper_bound(alloc, signs, divisor, remainder);
        push_claim(Kind::AtMost, upper, rows, losses)?;
        Ok(())
    }
}

/// What must be zero: the dividend less the quotient times the divisor, less the remainder.
fn equation(alloc: Global, a: &Poly, b: &Poly, q: &Poly, r: &Poly) -> Result<Poly, TermError>
    ensures { Gives cause (λ p. p) result (equation a.now b.now q.now r.now) }
{
    let product = mul(alloc, q, b)?;
    let rest = difference(alloc, a, &product)?;
    difference(alloc, &rest, r)
}

fn divisor_sign(alloc: Global, above: bool, b: &Poly) -> Result<Poly, TermError>
    ensures { Gives cause (λ p. p) result (divisor_sign above b.now) }
{
    if above {
        difference(alloc, &Poly::constant(alloc, 1), b)
    } else {
        difference(alloc, b, &Poly::constant(alloc, -1))
    }
}

fn dividend_sign(alloc: Global, not_below: bool, a: &Poly) -> Result<Poly, TermError>
    ensures { Gives cause (λ p. p) result (dividend_sign not_below a.now) }
{
    if not_below {
        difference(alloc, &Poly::constant(alloc, 0), a)
    } else {
        difference(alloc, a, &Poly::constant(alloc, -1))
    }
}

fn lower_bound(alloc: Global, signs: Signs, b: &Poly, r: &Poly) -> Result<Poly, TermError>
    ensures { Gives cause (λ p. p) result (lower_bound signs.divisor signs.dividend b.now r.now) }
{
    let one = Poly::constant(alloc, 1);
    if signs.dividend {
        return difference(alloc, &Poly::constant(alloc, 0), r);
    }
    if signs.divisor {
        let turned = scale(alloc, b, -1)?;
        let least = add(alloc, &turned, &one)?;
        difference(alloc, &least, r)
    } else {
        let least = add(alloc, b, &one)?;
        difference(alloc, &least, r)
    }
}

fn upper_bound(alloc: Global, signs: Signs, b: &Poly, r: &Poly) -> Result<Poly, TermError>
    ensures { Gives cause (λ p. p) result (upper_bound signs.divisor signs.dividend b.now r.now) }
{
    let one = Poly::constant(alloc, 1);
    if !signs.dividend {
        return difference(alloc, r, &Poly::constant(alloc, 0));
    }
    if signs.divisor {
        let most = difference(alloc, b, &one)?;
        difference(alloc, r, &most)
    } else {
        let turned = scale(alloc, b, -1)?;
        let most = difference(alloc, &turned, &one)?;
        difference(alloc, r, &most)
    }
}
