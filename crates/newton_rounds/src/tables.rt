ghost use Rattle.std.specs.Prelude.{◌≡◌, ◌<◌, All, length, slice_get, slice_set, IfOk};
ghost use Rattle.newton_rounds.specs.Members.{with_table};

use items::Items;
use std::alloc::{AllocError, Global};
use transition_formula::Formula;

/// The known formulas, with those of a table for these procedures; a procedure past the table's end
/// is unknown.
pub fn with_table(
    alloc: Global,
    procs: &[u32],
    table: &[Formula],
    known: &[Option<Formula>],
) -> Result<Items<Option<Formula>>, AllocError>
    requires { All (λ proc. proc < length known.now) procs.now }
    ensures { IfOk result (λ all. all ≡ with_table procs.now table.now known.now) }
{
    let mut all = copies_of(alloc, known)?;
    for (place, proc) in procs.iter().enumerate() {
        let f = formula_in(table, place)?;
        all = formulas_with(all, *proc as usize, f);
    }
    Ok(Items::from_vec(all))
}

/// The formulas with another in one place.
fn formulas_with(
    formulas: Vec<Option<Formula>>,
    place: usize,
    f: Option<Formula>,
) -> Vec<Option<Formula>>
    requires { place < length formulas.items }
    ensures { result.items ≡ slice_set formulas.items place f }
{
    let mut all = formulas;
    all[place] = f;
    all
}

fn formula_in(table: &[Formula], place: usize) -> Result<Option<Formula>, AllocError>
    ensures { IfOk result (λ f. f ≡ slice_get table.now place) }
{
    match table.get(place) {
        Some(f) => Ok(Some(f.clone()?)),
        None => Ok(None),
    }
}

fn copies_of(alloc: Global, known: &[Option<Formula>]) -> Result<Vec<Option<Formula>>, AllocError>
    ensures { IfOk result (λ copies. copies.items ≡ known.now) }
{
    let mut copies = Vec::new(alloc);
    for f in known {
        copies.push(copy_of(f)?)?;
    }
    Ok(copies)
}

fn copy_of(f: &Option<Formula>) -> Result<Option<Formula>, AllocError>
    ensures { IfOk result (λ copy. copy ≡ f.now) }
{
    match f {
        Some(f) => Ok(Some(f.clone()?)),
        None => Ok(None),
    }
}
