ghost use Rattle.std.specs.Prelude.{◌≡◌, ◌+◌, ◌<◌, ◌^◌, ◌++◌, IfOk, OnOk};
ghost use Rattle.transition_formula.specs.Hiding.{losses_in_hiding};
ghost use Rattle.proc_summary.specs.Claims.{FitsIf};
ghost use Rattle.proc_summary.specs.Summary.{exit_formula};
ghost use Rattle.newton_rounds.specs.Pairs.{base_from, columns_from, entry_told, losses_in_base};
ghost use Rattle.newton_rounds.specs.Shapes.{AreEnds};

use crate::ends::PairEnds;
use items::Items;
use linear_terms::{Col, Poly};
use std::alloc::{AllocError, Global};
use transition_formula::{
    Formula, FormulaError, Loss, column, equated_formula, hidden, raised_formula, with_posts,
};

// ---- the activations without a call of the group

/// A formula over so many columns; an exit that no way leads to has no case.
pub(crate) fn exit_formula(
    alloc: Global,
    columns: u32,
    f: &Option<Formula>,
) -> Result<Formula, AllocError>
    ensures { IfOk result (λ g. g ≡ exit_formula columns f.now) }
{
    match f {
        Some(f) => f.clone(),
        None => Ok(Formula::from_cases(columns, columns, Items::new(alloc))),
    }
}

/// What a formula of the states says of a pair: it says nothing of the pair's exit, and the other
/// columns become auxiliaries.
pub(crate) fn entry_told(
    alloc: Global,
    member: &PairEnds,
    f: &Option<Formula>,
    lost: &mut Items<Loss>,
) -> Result<Formula, FormulaError>
    requires ends { AreEnds member.now }
    requires fits { FitsIf member.now.ends.full.columns f.now }
    ensures made { IfOk result (λ told. told ≡ entry_told member.now f.now) }
    ensures noted { OnOk result
        (lost.new ≡ lost.old ++ losses_in_hiding member.now.ends.entry.columns
        (exit_formula member.now.ends.full.columns f.now)) }
{
    let whole = exit_formula(alloc, member.full.columns(), f)?;
    let told = hidden(alloc, &whole, member.entry.columns(), lost)?;
    raised_formula(&told, member.pair.columns())
}

/// What holds of the pairs of activations without a call of the group, by the formula of the exit.
/// Each loss is noted after those that are there. After an error more may be noted.
pub(crate) fn base_from(
    alloc: Global,
    member: &PairEnds,
    exit: &Option<Formula>,
    lost: &mut Items<Loss>,
) -> Result<Formula, FormulaError>
    requires ends { AreEnds member.now }
    requires fits { FitsIf member.now.ends.full.columns exit.now }
    ensures made { IfOk result (λ base. base ≡ base_from member.now exit.now) }
    ensures noted { OnOk result (lost.new ≡ lost.old ++ losses_in_base member.now exit.now) }
{
    let told = entry_told(alloc, member, exit, lost)?;
    let places = member.exit_places(alloc)?;
    let first = member.entry.columns();
    let equal = equated_formula(alloc, &told, first, places.as_slice(), lost)?;
    with_posts(alloc, &equal, &[])
}

// ---- columns

/// The first so many columns, each as it is.
pub(crate) fn columns_from(
    alloc: Global,
    first: u32,
    count: u32,
) -> Result<Items<Poly>, FormulaError>
    requires { first + count < 2 ^ 32 }
    ensures { IfOk result (λ made. made ≡ columns_from first count) }
{
    let mut made = Items::new(alloc);
    for number in first..first + count {
        made.push(column(alloc, Col::At(number))?)?;
    }
    Ok(made)
}

/// Copies of polynomials behind others.
pub(crate) fn add_copies(polys: &[Poly], made: &mut Items<Poly>) -> Result<(), AllocError>
    ensures { OnOk result (made.new ≡ made.old ++ polys.now) }
{
    for poly in polys {
        made.push(poly.clone()?)?;
    }
    Ok(())
}
