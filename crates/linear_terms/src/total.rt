ghost use Rattle.std.specs.Prelude.{◌≡◌, ◌≤◌, ◌+◌, ◌++◌, nat_lt, length, pos, [], IfOk, IfErr, OnOk, Ok, Some};
ghost use Rattle.items.specs.Gives.{FailsBy, Gives};
ghost use Rattle.linear_terms.specs.TermError.{cause};
ghost use Rattle.linear_terms.specs.Mono.{in_order};
ghost use Rattle.linear_terms.specs.Polynomial.{constant_of, IsCanonical};
ghost use Rattle.linear_terms.specs.Operations.{sum_of_polys, put_term, put_part, add_product};
ghost use Rattle.linear_terms.specs.Lookup.{lookup, summed_term, with_coefficient};

use crate::mono::DEGREE;
use crate::{Col, Mono, Poly, TermError};
use items::Items;
use std::alloc::{AllocError, Global};
use std::collections::BTreeMap;
use std::marker::Model;
use whole_numbers::{product, sum};

/// The sum so far of a product, whose terms are found by their monomials.
#[derive(Drop)]
pub(crate) struct Total {
    terms: BTreeMap<Mono, i128>,
    rest: i128,
}

impl Model for Total {
    ghost use Rattle.linear_terms.specs.Polynomial.{Polynomial, IsCanonical};

    ghost Value = { Polynomial };

    ghost view = { λ s. record { terms = s.terms.entries; rest = s.rest } };

    ghost invariant = { λ s. IsCanonical s.terms.entries };
}

impl Total {
    pub(crate) fn new(alloc: Global) -> Total
        ensures { result ≡ constant_of (pos 0) }
    {
        Total {
            terms: BTreeMap::new(alloc),
            rest: 0,
        }
    }

    /// Adds a polynomial, its terms in print order and then its constant.
    pub(crate) fn add(&mut self, poly: &Poly) -> Result<(), TermError>
        ensures ok { OnOk result (sum_of_polys self.old poly.now ≡ Ok self.new) }
        ensures err { IfErr result (λ e. FailsBy (cause e) (sum_of_polys self.old poly.now)) }
    {
        for term in poly.terms.as_slice() {
            self.put(term)?;
        }
        self.add_constant(&poly.rest)
    }

    /// Adds the product of two terms; the constant is a term of no columns.
    pub(crate) fn add_product(
        &mut self,
        left: &[Col],
        number: &i128,
        right: &[Col],
        other: &i128,
    ) -> Result<(), TermError>
        ensures ok { OnOk result (add_product left.now number.now right.now other.now self.old
            ≡ Ok self.new) }
        ensures err { IfErr result
            (λ e. FailsBy (cause e)
            (add_product left.now number.now right.now other.now self.old)) }
    {
        if is_above_degree(left, right) {
            return Err(TermError::Degree);
        }
        let number = product(*number, *other)?;
        self.put_product(left, right, &number)
    }

    /// Adds a term of the columns of two; of no columns it is the constant.
    fn put_product(&mut self, left: &[Col], right: &[Col], number: &i128) -> Result<(), TermError>
        requires { length left.now + length right.now ≤ 4 }
        ensures ok { OnOk result (put_part (in_order (left.now ++ right.now)) number.now self.old
            ≡ Ok self.new) }
        ensures err { IfErr result
            (λ e. FailsBy (cause e)
            (put_part (in_order (left.now ++ right.now)) number.now self.old)) }
    {
        if left.is_empty() && right.is_empty() {
            return self.add_constant(number);
        }
        let term = (Mono::product(left, right), *number);
        self.put(&term)
    }

    /// Adds a number to the constant.
    pub(crate) fn add_constant(&mut self, number: &i128) -> Result<(), TermError>
        ensures ok { OnOk result (put_part [] number.now self.old ≡ Ok self.new) }
        ensures err { IfErr result (λ e. FailsBy (cause e) (put_part [] number.now self.old)) }
    {
        self.rest = sum(self.rest, *number)?;
        Ok(())
    }

    /// Adds a term.
    #[tactic(auto, using(crate::proofs::Lookups::put_term_is))]
    fn put(&mut self, term: &(Mono, i128)) -> Result<(), TermError>
        ensures ok { OnOk result (put_term term.now.0 term.now.1 self.old ≡ Ok self.new) }
        ensures err { IfErr result
            (λ e. FailsBy (cause e) (put_term term.now.0 term.now.1 self.old)) }
    {
        let term = summed_term(self.coefficient(&term.0), term)?;
        self.store(term)?;
        Ok(())
    }

    fn coefficient(&self, mono: &Mono) -> Option<i128>
        ensures coefficient { result ≡ lookup mono.now self.now.terms }
        ensures canonical { IsCanonical self.now.terms }
    {
        self.terms.get(mono).copied()
    }

    fn store(&mut self, term: (Mono, i128)) -> Result<(), AllocError>
        ensures { OnOk result
            (self.new ≡ record {
              terms = with_coefficient term.0 term.1 self.old.terms;
              rest = self.old.rest;
            }) }
    {
        if term.1 == 0 {
            self.terms.remove(&term.0);
        } else {
            self.terms.insert(term.0, term.1)?;
        }
        Ok(())
    }

    /// The sum and a number more, as a polynomial.
    pub(crate) fn with_constant(mut self, alloc: Global, number: &i128) -> Result<Poly, TermError>
        ensures { Gives cause (λ p. p) result (put_part [] number.now self) }
    {
        self.add_constant(number)?;
        let poly = self.into_poly(alloc)?;
        Ok(poly)
    }

    /// The sum as a polynomial.
    pub(crate) fn into_poly(self, alloc: Global) -> Result<Poly, AllocError>
        ensures { IfOk result (λ p. p ≡ self) }
    {
        let Total { terms, rest } = self;
        let terms = terms_of_map(alloc, terms)?;
        Ok(Poly { terms, rest })
    }
}

/// The terms of a map, in the order of their monomials.
fn terms_of_map(
    alloc: Global,
    terms: BTreeMap<Mono, i128>,
) -> Result<Items<(Mono, i128)>, AllocError>
    ensures { IfOk result (λ made. made ≡ terms.entries) }
{
    let made: Vec<(Mono, i128)> = terms.into_iter().collect(alloc)?;
    Ok(Items::from_vec(made))
}

/// Whether two monomials have more columns together than one may have.
fn is_above_degree(left: &[Col], right: &[Col]) -> bool
    ensures { result ≡ nat_lt 4 (length left.now + length right.now) }
{
    DEGREE < left.len() || DEGREE - left.len() < right.len()
}

/// The term with what its monomial had before.
fn summed_term(had: Option<i128>, term: &(Mono, i128)) -> Result<(Mono, i128), TermError>
    ensures { Gives Some (λ t. t) result (summed_term had term.now) }
{
    let number = match had {
        Some(had) => sum(had, term.1)?,
        None => term.1,
    };
    Ok((term.0, number))
}
