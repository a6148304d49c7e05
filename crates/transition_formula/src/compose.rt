ghost use Rattle.std.specs.Prelude.{◌≡◌, ◌↔◌, ◌⊎◌, ℤ, List, map, length, IfOk};
ghost use Rattle.std.specs.List.{range_with_len};
ghost use Rattle.linear_terms.specs.declared.col.Col.TheVariants.{At};
ghost use Rattle.linear_terms.specs.Polynomial.{column_of};
ghost use Rattle.transition_formula.specs.Meaning.{Holds};
ghost use Rattle.transition_formula.specs.Composition.{identity_of, union_of};

use crate::{Formula, FormulaError, Loss};
use items::Items;
use linear_terms::{Case, Col, Poly};
use std::alloc::Global;

/// The formula that says that nothing changes.
pub fn identity(alloc: Global, columns: u32) -> Result<Formula, FormulaError>
    ensures exact { IfOk result (λ f. f ≡ identity_of columns) }
    ensures holds { (before after : List ℤ)
        → IfOk result (λ f. Holds f before after ↔ ((before ≡ after) × (length before ≡ columns))) }
{
    let post = columns_below(alloc, columns)?;
    let mut cases = Items::new(alloc);
    cases.push(Case {
        aux: 0,
        rows: Items::new(alloc),
        post,
    })?;
    Ok(Formula {
        from: columns,
        to: columns,
        cases,
    })
}

pub(crate) fn columns_below(alloc: Global, columns: u32) -> Result<Items<Poly>, FormulaError>
    ensures { IfOk result (λ made. made ≡ map (λ n. column_of (At n)) (range_with_len 0 columns)) }
{
    let mut made = Items::new(alloc);
    for number in 0..columns {
        made.push(column(alloc, Col::At(number))?)?;
    }
    Ok(made)
}

/// One column as a polynomial.
pub fn column(alloc: Global, col: Col) -> Result<Poly, FormulaError>
    ensures { IfOk result (λ p. p ≡ column_of col) }
{
    match Poly::column(alloc, col) {
        Ok(poly) => Ok(poly),
        Err(_) => Err(FormulaError::Memory),
    }
}

/// The choice of two formulas between the same columns: the cases of the one, then those of the
/// other.
pub fn join(alloc: Global, a: &Formula, b: &Formula) -> Result<Formula, FormulaError>
    requires from { a.now.from ≡ b.now.from }
    requires to { a.now.to ≡ b.now.to }
    ensures exact { IfOk result (λ f. f ≡ union_of a.now b.now) }
    ensures holds { (before after : List ℤ)
        → IfOk result
        (λ f. Holds f before after ↔ (Holds a.now before after ⊎ Holds b.now before after)) }
{
    let mut cases = a.cases.clone()?;
    cases.append(b.cases.clone()?)?;
    Ok(Formula {
        from: a.from,
        to: a.to,
        cases,
    })
}
