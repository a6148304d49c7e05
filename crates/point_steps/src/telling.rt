ghost use Rattle.std.specs.Prelude.{◌≡◌, ◌+◌, ◌<◌, ◌≤◌, ◌^◌, ◌++◌, All, IfOk, IsTrue, OnOk, length, map, take};
ghost use Rattle.std.specs.List.{flat_map};
ghost use Rattle.transition_formula.specs.Composition.{after_case, losses_by, sequence_of_cases};
ghost use Rattle.transition_formula.specs.Transition.{fits};
ghost use Rattle.point_steps.specs.States.{told_case};

use items::Items;
use linear_terms::{Case, Poly};
use std::alloc::{AllocError, Global};
use transition_formula::{Formula, FormulaError, Loss, seq};

/// One case from no columns, and then each of a formula. What is lost is noted after the losses
/// that are there.
pub(crate) fn sequences(
    alloc: Global,
    first: Case,
    second: &Formula,
    losses: &mut Items<Loss>,
) -> Result<Formula, FormulaError>
    requires fits { IsTrue (fits 0 second.now.from first) }
    requires few { All (λ case. first.aux + case.aux + second.now.to < 2 ^ 32) second.now.cases }
    ensures exact { IfOk result
        (λ f. f ≡ record {
          from = 0;
          to = second.now.to;
          cases = map (sequence_of_cases first) second.now.cases;
        }) }
    ensures noted { OnOk result
        (losses.new ≡ losses.old
        ++ flat_map (λ case. losses_by (after_case first case) case) second.now.cases) }
{
    let mut cases = Items::new(alloc);
    cases.push(first)?;
    let one = Formula::from_cases(0, second.from(), cases);
    let made = seq(alloc, &one, second, losses)?;
    Ok(made)
}

/// Adds the cases of a formula, with further posts before their own and behind them.
pub(crate) fn add_told(
    alloc: Global,
    f: &Formula,
    front: &[Poly],
    behind: &[Poly],
    cases: &mut Items<Case>,
) -> Result<(), FormulaError>
    ensures { OnOk result
        (cases.new ≡ cases.old ++ map (told_case front.now behind.now) f.now.cases) }
{
    for case in f.cases() {
        cases.push(told_case(alloc, front, behind, case)?)?;
    }
    Ok(())
}

/// The case with further posts before its own and behind them.
fn told_case(
    alloc: Global,
    front: &[Poly],
    behind: &[Poly],
    case: &Case,
) -> Result<Case, AllocError>
    ensures { IfOk result (λ told. told ≡ told_case front.now behind.now case.now) }
{
    let rows = case.rows.clone()?;
    let post = told_posts(alloc, front, case.post.as_slice(), behind)?;
    Ok(Case {
        aux: case.aux,
        rows,
        post,
    })
}

/// Copies of posts, one list behind the other.
fn told_posts(
    alloc: Global,
    front: &[Poly],
    posts: &[Poly],
    behind: &[Poly],
) -> Result<Items<Poly>, AllocError>
    ensures { IfOk result (λ told. told ≡ front.now ++ (posts.now ++ behind.now)) }
{
    let mut told = copies_of(alloc, front)?;
    told.append(copies_of(alloc, posts)?)?;
    told.append(copies_of(alloc, behind)?)?;
    Ok(told)
}

/// A copy of polynomials.
pub(crate) fn copies_of(alloc: Global, polys: &[Poly]) -> Result<Items<Poly>, AllocError>
    ensures { IfOk result (λ copies. copies ≡ polys.now) }
{
    let mut copies = Items::new(alloc);
    for poly in polys {
        copies.push(poly.clone()?)?;
    }
    Ok(copies)
}

/// So many polynomials, the first.
pub(crate) fn first_of(polys: &[Poly], count: u32) -> &[Poly]
    requires { count ≤ length polys.now }
    ensures { result.now ≡ take count polys.now }
{
    &polys[..count as usize]
}
