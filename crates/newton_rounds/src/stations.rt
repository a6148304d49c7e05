ghost use Rattle.std.specs.Prelude.{◌≡◌, All, ◌+◌, ◌<◌, ◌≤◌, ◌^◌, ◌++◌, IfOk, OnOk, map};
ghost use Rattle.transition_formula.specs.Transition.{IsTransition};
ghost use Rattle.leaf_cases.specs.Edges.{arguments_of};
ghost use Rattle.leaf_cases.specs.Guard.{with_posts};
ghost use Rattle.proc_summary.specs.Claims.{IsBetweenStates};
ghost use Rattle.newton_rounds.specs.Pairs.{call_entry, carrying};
ghost use Rattle.newton_rounds.specs.Shapes.{AreEnds, IsCallFrom, plain_call};

use crate::calls::GroupCall;
use crate::ends::PairEnds;
use crate::pairs::{add_copies, columns_from};
use items::Items;
use linear_terms::{Case, Poly};
use std::alloc::{AllocError, Global};
use transition_formula::{Formula, FormulaError, Loss};

/// From the caller's columns to these and, behind them, the callee's entry.
pub(crate) fn call_entry(
    alloc: Global,
    caller: &PairEnds,
    call: &GroupCall,
    lost: &mut Items<Loss>,
) -> Result<Formula, FormulaError>
    requires ends { AreEnds caller.now }
    requires call { IsCallFrom caller.now (plain_call call.now) }
    ensures made { IfOk result
        (λ f. f ≡ call_entry caller.now.ends.full.columns caller.now.ends.globals
        (plain_call call.now).args) }
    ensures fits { IfOk result (λ f. IsTransition f.from f.to f.cases) }
    ensures few { IfOk result (λ f. All (λ case. case.aux < 2 ^ 31) f.cases) }
    ensures noted { OnOk result
        (lost.new ≡ lost.old ++ (arguments_of (plain_call call.now).args).lost) }
{
    let columns = caller.full.columns();
    let args = call.args.as_slice();
    let entered = leaf_cases::call_entry(alloc, columns, caller.globals, args, lost)?;
    let front = columns_from(alloc, 0, columns)?;
    let cases = fronted_cases(alloc, front.as_slice(), entered.cases())?;
    Ok(Formula::from_cases(columns, columns + entered.to(), cases))
}

/// Each case with more posts before its own.
pub(crate) fn fronted_cases(
    alloc: Global,
    front: &[Poly],
    cases: &[Case],
) -> Result<Items<Case>, AllocError>
    ensures { IfOk result
        (λ made. made ≡ map (λ case. with_posts (front.now ++ case.post) case) cases.now) }
{
    let mut made = Items::new(alloc);
    for case in cases {
        made.push(posted_case(alloc, case, front, case.post.as_slice())?)?;
    }
    Ok(made)
}

/// A case with these posts, and others behind them.
fn posted_case(
    alloc: Global,
    case: &Case,
    first: &[Poly],
    more: &[Poly],
) -> Result<Case, AllocError>
    ensures { IfOk result (λ c. c ≡ with_posts (first.now ++ more.now) case.now) }
{
    let rows = case.rows.clone()?;
    let post = joined_copies(alloc, first, more)?;
    Ok(Case {
        aux: case.aux,
        rows,
        post,
    })
}

/// Copies of these, and of others behind them.
fn joined_copies(alloc: Global, first: &[Poly], more: &[Poly]) -> Result<Items<Poly>, AllocError>
    ensures { IfOk result (λ made. made ≡ first.now ++ more.now) }
{
    let mut made = Items::new(alloc);
    add_copies(first, &mut made)?;
    add_copies(more, &mut made)?;
    Ok(made)
}

/// A formula between the caller's columns, with so many columns behind them that stay as they are.
pub(crate) fn carrying(
    alloc: Global,
    columns: u32,
    more: u32,
    f: &Formula,
) -> Result<Formula, FormulaError>
    requires states { IsBetweenStates columns f.now }
    requires few { columns + more < 2 ^ 32 }
    ensures { IfOk result (λ g. g ≡ carrying columns more f.now) }
{
    let back = columns_from(alloc, columns, more)?;
    let cases = carrying_cases(alloc, back.as_slice(), f.cases())?;
    Ok(Formula::from_cases(columns + more, columns + more, cases))
}

fn carrying_cases(alloc: Global, back: &[Poly], cases: &[Case]) -> Result<Items<Case>, AllocError>
    ensures { IfOk result
        (λ made. made ≡ map (λ case. with_posts (case.post ++ back.now) case) cases.now) }
{
    let mut made = Items::new(alloc);
    for case in cases {
        made.push(posted_case(alloc, case, case.post.as_slice(), back)?)?;
    }
    Ok(made)
}
