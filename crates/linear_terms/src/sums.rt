ghost use Rattle.std.specs.Prelude.{◌≡◌, ◌≢◌, ◌+ℤ◌, ◌++◌, IfOk, IfErr, OnOk, Ok, Err, Some};
ghost use Rattle.items.specs.Gives.{Gives};
ghost use Rattle.linear_terms.specs.TermError.{cause, plus};
ghost use Rattle.linear_terms.specs.declared.error.TermError.TheVariants.{Degree};
ghost use Rattle.linear_terms.specs.Polynomial.{IsCanonical};
ghost use Rattle.linear_terms.specs.Operations.{put_all, sum_of_polys};
ghost use Rattle.linear_terms.specs.Value.{Valuation, value_of};

use crate::{Mono, Poly, TermError};
use items::Items;
use std::alloc::Global;
use std::cmp::Ordering;
use whole_numbers::sum;

/// The sum of two polynomials: one merge of their terms.
#[tactic(auto, using(crate::proofs::Values::sum_of_polys_value, crate::proofs::Canonical::canonical))]
pub fn add(alloc: Global, a: &Poly, b: &Poly) -> Result<Poly, TermError>
    ensures exact { Gives cause (λ p. p) result (sum_of_polys a.now b.now) }
    ensures value { (at : Valuation)
        → IfOk result (λ p. value_of at p ≡ value_of at a.now +ℤ value_of at b.now) }
    ensures no_degree { IfErr result (λ e. e ≢ Degree) }
{
    let terms = merged_terms(alloc, a.terms.as_slice(), b.terms.as_slice())?;
    let rest = sum(a.rest, b.rest)?;
    Ok(Poly { terms, rest })
}

/// The terms of both in print order, with the sum of the numbers where both have a monomial.
fn merged_terms(
    alloc: Global,
    left: &[(Mono, i128)],
    right: &[(Mono, i128)],
) -> Result<Items<(Mono, i128)>, TermError>
    requires left { IsCanonical left.now }
    requires right { IsCanonical right.now }
    ensures exact { Gives cause (λ made. made) result (put_all left.now right.now) }
    ensures no_degree { IfErr result (λ e. e ≢ Degree) }
{
    let room = left.len().saturating_add(right.len());
    let mut made = Items::from_vec(Vec::with_capacity(alloc, room)?);
    let mut left = left;
    let mut right = right;
    loop {
        let Some((first, lefts)) = left.split_first() else {
            break;
        };
        let Some((other, rights)) = right.split_first() else {
            break;
        };
        match first.0.cmp(&other.0) {
            Ordering::Less => {
                made.push(*first)?;
                left = lefts;
            }
            Ordering::Greater => {
                made.push(*other)?;
                right = rights;
            }
            Ordering::Equal => {
                let term = joint_term(first, other)?;
                if term.1 != 0 {
                    made.push(term)?;
                }
                left = lefts;
                right = rights;
            }
        }
    }
    push_both(&mut made, left, right)?;
    Ok(made)
}

/// One monomial with the numbers of both.
fn joint_term(left: &(Mono, i128), right: &(Mono, i128)) -> Result<(Mono, i128), TermError>
    ensures number { IfOk result (λ t. plus left.now.1 right.now.1 ≡ Ok t.1) }
    ensures mono { IfOk result (λ t. t.0 ≡ left.now.0) }
    ensures err { IfErr result (λ e. plus left.now.1 right.now.1 ≡ Err e) }
    ensures told { IfErr result (λ e. cause e ≡ Some e) }
    ensures no_degree { IfErr result (λ e. e ≢ Degree) }
{
    let number = sum(left.1, right.1)?;
    Ok((left.0, number))
}

fn push_each(made: &mut Items<(Mono, i128)>, terms: &[(Mono, i128)]) -> Result<(), TermError>
    ensures made { OnOk result (made.new ≡ made.old ++ terms.now) }
    ensures memory { IfErr result (λ e. e ≡ TermError.Memory) }
{
    for term in terms {
        made.push(*term)?;
    }
    Ok(())
}

fn push_both(
    made: &mut Items<(Mono, i128)>,
    first: &[(Mono, i128)],
    second: &[(Mono, i128)],
) -> Result<(), TermError>
    ensures made { OnOk result (made.new ≡ made.old ++ first.now ++ second.now) }
    ensures memory { IfErr result (λ e. e ≡ TermError.Memory) }
{
    push_each(made, first)?;
    push_each(made, second)
}
