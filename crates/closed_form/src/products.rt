ghost use Rattle.std.specs.Prelude.{pos, Ok};
ghost use Rattle.items.specs.Gives.{Gives};
ghost use Rattle.linear_terms.specs.TermError.{cause};
ghost use Rattle.linear_terms.specs.Expressions.{◌⊠◌, ◌⊟◌, whole};

use linear_terms::{Poly, TermError, difference, mul};
use std::alloc::Global;

/// `a*b*c`
pub fn times_both(alloc: Global, a: &Poly, b: &Poly, c: &Poly) -> Result<Poly, TermError>
    ensures { Gives cause (λ p. p) result (Ok a.now ⊠ Ok b.now ⊠ Ok c.now) }
{
    let factor = mul(alloc, a, b)?;
    mul(alloc, &factor, c)
}

/// `from - a*b*c`
pub fn less_product(
    alloc: Global,
    from: &Poly,
    a: &Poly,
    b: &Poly,
    c: &Poly,
) -> Result<Poly, TermError>
    ensures { Gives cause (λ p. p) result (Ok from.now ⊟ Ok a.now ⊠ Ok b.now ⊠ Ok c.now) }
{
    let product = times_both(alloc, a, b, c)?;
    difference(alloc, from, &product)
}

/// `k - 1`, or `k - 2`.
fn less(alloc: Global, k: &Poly, by: u8) -> Result<Poly, TermError>
    ensures { Gives cause (λ p. p) result (Ok k.now ⊟ whole (pos by)) }
{
    let constant = Poly::constant(alloc, i128::from(by));
    difference(alloc, k, &constant)
}

/// `factor*(k-1)`, or `factor*(k-2)`.
pub fn times_less(alloc: Global, factor: &Poly, k: &Poly, by: u8) -> Result<Poly, TermError>
    ensures { Gives cause (λ p. p) result (Ok factor.now ⊠ (Ok k.now ⊟ whole (pos by))) }
{
    let less = less(alloc, k, by)?;
    mul(alloc, factor, &less)
}

/// `e*k*(k-1)`
pub fn pairs(alloc: Global, e: i128, k: &Poly) -> Result<Poly, TermError>
    ensures { Gives cause (λ p. p) result (whole e ⊠ Ok k.now ⊠ (Ok k.now ⊟ whole (pos 1))) }
{
    let constant = Poly::constant(alloc, e);
    let factor = mul(alloc, &constant, k)?;
    times_less(alloc, &factor, k, 1)
}
