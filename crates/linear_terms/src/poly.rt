ghost use Rattle.std.specs.Prelude.{◌≡◌, ◌↔◌, [], ◌∷◌, IfOk, IsTrue, Ok, All, slice_get};
ghost use Rattle.std.specs.Cmp.{partial_equiv_from_equiv};
ghost use Rattle.items.specs.Gives.{Gives};
ghost use Rattle.std.specs.List.{list_any};
ghost use Rattle.linear_terms.specs.TermError.{cause};
ghost use Rattle.linear_terms.specs.Auxiliaries.{has_auxiliary, occurs, has_entry};
ghost use Rattle.linear_terms.specs.Polynomial.{constant_of, column_of, mono_of, without_constant, coefficient_in, IsCanonical};
ghost use Rattle.linear_terms.specs.Replacement.{IsBelow};
ghost use Rattle.linear_terms.specs.Equality.{poly_eq, poly_eq_equiv};

use crate::{Col, Mono, TermError};
use items::Items;
use std::alloc::{AllocError, Global};
use std::marker::Model;

/// A sum of monomials with nonzero numbers, which stand in print order, and a constant.
#[derive(Debug, Drop)]
pub struct Poly {
    pub(crate) terms: Items<(Mono, i128)>,
    pub(crate) rest: i128,
}

impl Model for Poly {
    ghost use Rattle.linear_terms.specs.Polynomial.{Polynomial, IsCanonical};

    ghost Value = { Polynomial };

    ghost view = { λ p. record { terms = p.terms; rest = p.rest } };

    ghost invariant = { λ p. IsCanonical p.terms };
}

impl Poly {
    /// A constant, which takes no memory.
    #[tactic(auto, using(crate::proofs::Canonical::canonical))]
    pub fn constant(alloc: Global, value: i128) -> Poly
        ensures { result ≡ constant_of value }
    {
        Poly {
            terms: Items::new(alloc),
            rest: value,
        }
    }

    /// One column, with coefficient 1.
    #[tactic(auto, using(crate::proofs::Canonical::canonical))]
    pub fn column(alloc: Global, col: Col) -> Result<Poly, TermError>
        ensures { Gives cause (λ p. p) result (Ok (column_of col)) }
    {
        let mut terms = Items::new(alloc);
        terms.push((Mono::of(col), 1))?;
        Ok(Poly { terms, rest: 0 })
    }

    /// A monomial with coefficient 1. The one error is want of memory.
    #[tactic(auto, using(crate::proofs::Canonical::canonical))]
    pub fn monomial(alloc: Global, mono: Mono) -> Result<Poly, AllocError>
        ensures { IfOk result (λ p. p ≡ mono_of mono) }
    {
        let mut terms = Items::new(alloc);
        terms.push((mono, 1))?;
        Ok(Poly { terms, rest: 0 })
    }

    /// The coefficient of a monomial; zero where it is not there.
    pub fn coefficient(&self, mono: &Mono) -> i128
        ensures { result ≡ coefficient_in self.now.terms mono.now }
    {
        for (own, number) in self.terms.as_slice() {
            if *own == *mono {
                return *number;
            }
        }
        0
    }

    /// The coefficient of one column.
    pub fn column_coefficient(&self, col: Col) -> i128
        ensures { result ≡ coefficient_in self.now.terms (col ∷ []) }
    {
        self.coefficient(&Mono::of(col))
    }

    /// The constant.
    pub fn rest(&self) -> i128
        ensures { result ≡ self.now.rest }
    {
        self.rest
    }

    /// Whether two polynomials are equal.
    #[tactic(auto, using(crate::proofs::Equal::poly_eq_decides))]
    pub fn same(&self, other: &Poly) -> bool
        ensures { IsTrue result ↔ (self.now ≡ other.now) }
    {
        self == other
    }

    /// Whether each entry column has a number below `at`, and each auxiliary one below `aux`.
    pub fn is_covered(&self, at: usize, aux: usize) -> bool
        ensures { IsTrue result ↔ All (λ t. All (IsBelow at aux) t.0) self.now.terms }
    {
        for (mono, _) in self.terms.as_slice() {
            if !mono.is_below(at, aux) {
                return false;
            }
        }
        true
    }

    /// The monomials with their coefficients, in print order.
    pub fn terms(&self) -> &[(Mono, i128)]
        ensures terms { result.now ≡ self.now.terms }
        ensures canonical { IsCanonical result.now }
    {
        self.terms.as_slice()
    }

    /// Whether the auxiliary of that number occurs.
    pub fn has_auxiliary(&self, aux: u32) -> bool
        ensures { result ≡ occurs aux self.now }
    {
        any_has_auxiliary(self.terms.as_slice(), aux)
    }

    /// Whether the entry column of that number occurs.
    pub fn has_entry(&self, at: u32) -> bool
        ensures { result ≡ has_entry at self.now }
    {
        self.terms
            .as_slice()
            .iter()
            .any(|(mono, _)| mono.has_entry(at))
    }

    /// The polynomial with 0 as its constant, which takes no memory.
    pub fn without_constant(self) -> Poly
        ensures { result ≡ without_constant self }
    {
        Poly {
            terms: self.terms,
            rest: 0,
        }
    }

    /// The monomial at a place, from 0, in print order, with its coefficient.
    pub fn term(&self, at: usize) -> Option<(Mono, i128)>
        ensures { result ≡ slice_get self.now.terms at }
    {
        self.terms.as_slice().get(at).copied()
    }
}

fn any_has_auxiliary(terms: &[(Mono, i128)], aux: u32) -> bool
    ensures { result ≡ list_any (λ t. has_auxiliary aux t.0) terms.now }
{
    terms.iter().any(|(mono, _)| mono.has_auxiliary(aux))
}

impl Clone for Poly {
    ghost is_clone = { λ a b. b ≡ a };

    fn clone(&self) -> Result<Poly, AllocError> {
        let terms = self.terms.clone()?;
        Ok(Poly {
            terms,
            rest: self.rest,
        })
    }
}

impl PartialEq for Poly {
    ghost eq = { poly_eq };

    ghost laws = { partial_equiv_from_equiv poly_eq_equiv };

    fn eq(&self, other: &Self) -> bool {
        self.terms == other.terms && self.rest == other.rest
    }
}

impl Eq for Poly {
    ghost laws = { poly_eq_equiv };
}
