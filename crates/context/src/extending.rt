ghost use Rattle.std.specs.Prelude.{◌≡◌, ◌≤◌, ◌+◌, ◌<◌, ◌^◌, All, map, IfOk};
ghost use Rattle.std.specs.List.{range_with_len};
ghost use Rattle.linear_terms.specs.declared.col.Col.TheVariants.{Aux};
ghost use Rattle.linear_terms.specs.Polynomial.{column_of};
ghost use Rattle.context.specs.Ends.{HasFew};
ghost use Rattle.context.specs.Verdicts.{extended_case, extended_formula};

use items::Items;
use linear_terms::{Case, Col, Poly};
use std::alloc::Global;
use transition_formula::{Formula, FormulaError};

/// The formula with as many posts as that, of which the further ones may be any numbers. An error is
/// want of memory.
pub fn extended_formula(alloc: Global, columns: u32, f: &Formula) -> Result<Formula, FormulaError>
    requires more { f.now.to ≤ columns }
    requires few { HasFew 64 f.now }
    requires narrow { columns ≤ 1000 }
    ensures { IfOk result (λ g. g ≡ extended_formula columns f.now) }
{
    let more = columns - f.to();
    let cases = extended_cases(alloc, more, f.cases())?;
    Ok(Formula::from_cases(f.from(), columns, cases))
}

fn extended_cases(alloc: Global, more: u32, cases: &[Case]) -> Result<Items<Case>, FormulaError>
    requires few { All (λ case. case.aux ≤ 64) cases.now }
    requires narrow { more ≤ 1000 }
    ensures { IfOk result (λ made. made ≡ map (extended_case more) cases.now) }
{
    let mut made = Items::new(alloc);
    for case in cases {
        made.push(extended_case(alloc, more, case)?)?;
    }
    Ok(made)
}

/// The case with so many posts more, each a new auxiliary. An error is want of memory.
pub fn extended_case(alloc: Global, more: u32, case: &Case) -> Result<Case, FormulaError>
    requires { case.now.aux + more < 2 ^ 32 }
    ensures { IfOk result (λ c. c ≡ extended_case more case.now) }
{
    let rows = case.rows.clone()?;
    let mut post = case.post.clone()?;
    post.append(auxiliaries(alloc, case.aux, more)?)?;
    Ok(Case {
        aux: case.aux + more,
        rows,
        post,
    })
}

/// So many auxiliaries from a number on.
fn auxiliaries(alloc: Global, first: u32, count: u32) -> Result<Items<Poly>, FormulaError>
    requires { first + count < 2 ^ 32 }
    ensures { IfOk result
        (λ made. made ≡ map (λ n. column_of (Aux n)) (range_with_len first count)) }
{
    let mut made = Items::new(alloc);
    for number in first..first + count {
        made.push(auxiliary(alloc, number)?)?;
    }
    Ok(made)
}

fn auxiliary(alloc: Global, number: u32) -> Result<Poly, FormulaError>
    ensures { IfOk result (λ p. p ≡ column_of (Aux number)) }
{
    match Poly::column(alloc, Col::Aux(number)) {
        Ok(poly) => Ok(poly),
        Err(_) => Err(FormulaError::Memory),
    }
}
