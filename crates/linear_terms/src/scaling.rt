ghost use Rattle.std.specs.Prelude.{◌≡◌, ◌≢◌, ℤ, ◌*ℤ◌, [], ◌++◌, IfOk, IfErr, OnOk};
ghost use Rattle.items.specs.Gives.{Gives};
ghost use Rattle.linear_terms.specs.TermError.{cause};
ghost use Rattle.linear_terms.specs.declared.error.TermError.TheVariants.{Degree};
ghost use Rattle.linear_terms.specs.Operations.{with_term, times_each, multiple_of};
ghost use Rattle.linear_terms.specs.Value.{Valuation, value_of};

use crate::{Mono, Poly, TermError};
use items::Items;
use std::alloc::{AllocError, Global};
use whole_numbers::product;

/// The polynomial times a number.
#[tactic(auto, using(crate::proofs::Values::multiple_of_value, crate::proofs::Canonical::canonical))]
pub fn scale(alloc: Global, a: &Poly, by: i128) -> Result<Poly, TermError>
    ensures exact { Gives cause (λ p. p) result (multiple_of a.now by) }
    ensures value { (at : Valuation) → IfOk result (λ p. value_of at p ≡ value_of at a.now *ℤ by) }
    ensures no_degree { IfErr result (λ e. e ≢ Degree) }
{
    let terms = scaled_terms(alloc, a.terms.as_slice(), by)?;
    let rest = product(a.rest, by)?;
    Ok(Poly { terms, rest })
}

fn scaled_terms(
    alloc: Global,
    terms: &[(Mono, i128)],
    by: i128,
) -> Result<Items<(Mono, i128)>, TermError>
    ensures exact { Gives cause (λ made. made) result (times_each terms.now by) }
    ensures no_degree { IfErr result (λ e. e ≢ Degree) }
{
    let mut made = Items::from_vec(Vec::with_capacity(alloc, terms.len())?);
    for (mono, number) in terms {
        let number = product(*number, by)?;
        push_kept(&mut made, (*mono, number))?;
    }
    Ok(made)
}

/// Puts a term behind the others, unless its number is zero.
fn push_kept(made: &mut Items<(Mono, i128)>, term: (Mono, i128)) -> Result<(), AllocError>
    ensures { OnOk result (made.new ≡ made.old ++ with_term term.0 term.1 []) }
{
    if term.1 != 0 {
        made.push(term)?;
    }
    Ok(())
}
