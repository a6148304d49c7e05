ghost use Rattle.std.specs.Prelude.{◌≡◌, ◌+◌, ◌≤◌, ◌<◌, ◌^◌, ◌++◌, ℤ, List, length, All, IfOk, OnOk, OnErr, IsTrue};
ghost use Rattle.syntax_tree.specs.declared.limits.TheConstants.{MOST_OPERATORS};
ghost use Rattle.syntax_tree.specs.Term.{term_of};
ghost use Rattle.syntax_tree.specs.WellFormed.{columns_below, operators_of};
ghost use Rattle.execution.specs.Step.{IsTrueIn, IsFalseIn};
ghost use Rattle.transition_formula.specs.Meaning.{Holds};
ghost use Rattle.transition_formula.specs.Transition.{IsTransition};
ghost use Rattle.leaf_cases.specs.Expression.{lists_of};
ghost use Rattle.leaf_cases.specs.Guard.{AreCovered, columns_of, guard_of, with_posts};

use crate::expression::{Sought, cases_of};
use items::Items;
use linear_terms::{Case, Col, Poly};
use std::alloc::Global;
use syntax_tree::Core;
use transition_formula::{Formula, FormulaError, Loss, column};

/// Says that an expression is true, and that nothing changes. What is lost is noted after the
/// losses that are there: a lost row is left out, and a lost value may be any number. After an
/// error nothing is noted.
pub fn truth(
    alloc: Global,
    e: &Core,
    columns: u32,
    losses: &mut Items<Loss>,
) -> Result<Formula, FormulaError>
    requires below { IsTrue (columns_below columns (term_of e.now)) }
    requires operators { operators_of (term_of e.now) ≤ MOST_OPERATORS + 1 }
    ensures exact { IfOk result (λ f. f ≡ guard_of columns (lists_of (term_of e.now)).truth.cases) }
    ensures noted { OnOk result (losses.new ≡ losses.old ++ (lists_of (term_of e.now)).truth.lost) }
    ensures kept { OnErr result (losses.new ≡ losses.old) }
    ensures few { IfOk result (λ f. All (λ case. case.aux < 2 ^ 31) f.cases) }
    ensures at_least { (state : List ℤ)
        → IfOk result (λ f. length state ≡ columns → IsTrueIn (term_of e.now) state
        → Holds f state state) }
    ensures at_most { (before after : List ℤ) → losses.new ≡ losses.old
        → IfOk result (λ f. Holds f before after
        → ((after ≡ before) × IsTrueIn (term_of e.now) before)) }
{
    let mut lost = Items::new(alloc);
    let cases = cases_of(alloc, e, Sought::Truth, &mut lost)?;
    let formula = guard(alloc, columns, cases.as_slice())?;
    losses.append(lost)?;
    Ok(formula)
}

/// Says that an expression is false, and that nothing changes. Losses are noted as for its truth.
pub fn falsity(
    alloc: Global,
    e: &Core,
    columns: u32,
    losses: &mut Items<Loss>,
) -> Result<Formula, FormulaError>
    requires below { IsTrue (columns_below columns (term_of e.now)) }
    requires operators { operators_of (term_of e.now) ≤ MOST_OPERATORS + 1 }
    ensures exact { IfOk result
        (λ f. f ≡ guard_of columns (lists_of (term_of e.now)).falsity.cases) }
    ensures noted { OnOk result
        (losses.new ≡ losses.old ++ (lists_of (term_of e.now)).falsity.lost) }
    ensures kept { OnErr result (losses.new ≡ losses.old) }
    ensures few { IfOk result (λ f. All (λ case. case.aux < 2 ^ 31) f.cases) }
    ensures at_least { (state : List ℤ)
        → IfOk result (λ f. length state ≡ columns → IsFalseIn (term_of e.now) state
        → Holds f state state) }
    ensures at_most { (before after : List ℤ) → losses.new ≡ losses.old
        → IfOk result (λ f. Holds f before after
        → ((after ≡ before) × IsFalseIn (term_of e.now) before)) }
{
    let mut lost = Items::new(alloc);
    let cases = cases_of(alloc, e, Sought::Falsity, &mut lost)?;
    let formula = guard(alloc, columns, cases.as_slice())?;
    losses.append(lost)?;
    Ok(formula)
}

/// Where one of the cases is, all stays as it is.
fn guard(alloc: Global, columns: u32, cases: &[Case]) -> Result<Formula, FormulaError>
    requires { AreCovered columns cases.now }
    ensures { IfOk result (λ f. f ≡ guard_of columns cases.now) }
{
    let post = columns_below(alloc, columns)?;
    let mut made = Items::new(alloc);
    for case in cases {
        made.push(with_posts(case, &post)?)?;
    }
    Ok(formula(columns, columns, made))
}

pub(crate) fn columns_below(alloc: Global, columns: u32) -> Result<Items<Poly>, FormulaError>
    ensures { IfOk result (λ made. made ≡ columns_of columns) }
{
    let mut made = Items::new(alloc);
    for number in 0..columns {
        made.push(column(alloc, Col::At(number))?)?;
    }
    Ok(made)
}

/// The case with other posts.
fn with_posts(case: &Case, post: &Items<Poly>) -> Result<Case, FormulaError>
    ensures { IfOk result (λ c. c ≡ with_posts post.now case.now) }
{
    let rows = case.rows.clone()?;
    let post = post.clone()?;
    Ok(Case {
        aux: case.aux,
        rows,
        post,
    })
}

/// The formula of cases that fit.
pub(crate) fn formula(from: u32, to: u32, cases: Items<Case>) -> Formula
    requires { IsTransition from to cases }
    ensures { result ≡ record { from = from; to = to; cases = cases } }
{
    match Formula::new(from, to, cases) {
        Some(formula) => formula,
        None => unreachable!(),
    }
}
