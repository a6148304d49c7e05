ghost use Rattle.std.specs.Prelude.{◌≡◌, ◌≢◌, ◌-ℤ◌, IfOk, IfErr};
ghost use Rattle.items.specs.Gives.{Gives};
ghost use Rattle.linear_terms.specs.Operations.{difference_of_polys};
ghost use Rattle.linear_terms.specs.Row.{normal_form, SaysAsMuch, IsNormal, IsTurnFault};
ghost use Rattle.linear_terms.specs.TermError.{cause};
ghost use Rattle.linear_terms.specs.Value.{Valuation, value_of};
ghost use Rattle.linear_terms.specs.declared.error.TermError.TheVariants.{Degree, Memory};

use linear_terms::{Normal, Poly, Row, TermError};
use std::alloc::Global;

/// The first polynomial less the second.
pub fn difference(alloc: Global, a: &Poly, b: &Poly) -> Result<Poly, TermError>
    ensures exact { Gives cause (λ p. p) result (difference_of_polys a.now b.now) }
    ensures value { (at : Valuation)
        → IfOk result (λ p. value_of at p ≡ value_of at a.now -ℤ value_of at b.now) }
    ensures no_degree { IfErr result (λ e. e ≢ Degree) }
{
    linear_terms::difference(alloc, a, b)
}

/// The normal form of a row.
pub fn normal(alloc: Global, row: &Row) -> Result<Normal, TermError>
    ensures exact { Gives cause (λ n. n) result (normal_form row.now) }
    ensures same { (at : Valuation) → IfOk result (SaysAsMuch at row.now) }
    ensures is_normal { IfOk result IsNormal }
    ensures fault { IfErr result (λ e. e ≢ Memory → IsTurnFault e) }
{
    linear_terms::normal(alloc, row)
}
