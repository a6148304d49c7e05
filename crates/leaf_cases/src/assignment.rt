ghost use Rattle.std.specs.Prelude.{◌≡◌, ◌+◌, ◌≤◌, ◌<◌, ◌++◌, map, slice_set, IfOk, OnOk, IsTrue};
ghost use Rattle.syntax_tree.specs.declared.limits.TheConstants.{MOST_OPERATORS};
ghost use Rattle.syntax_tree.specs.Term.{term_of};
ghost use Rattle.syntax_tree.specs.WellFormed.{columns_below, operators_of};
ghost use Rattle.leaf_cases.specs.Edges.{any_of, nothing_of, set_of};
ghost use Rattle.leaf_cases.specs.Expression.{lists_of};
ghost use Rattle.leaf_cases.specs.Guard.{with_posts};
ghost use Rattle.leaf_cases.specs.Steps.{operand};

use crate::expression::{Sought, cases_of};
use crate::guard::{columns_below, formula};
use crate::step::operand;
use items::Items;
use linear_terms::{Case, Col, Poly};
use std::alloc::Global;
use syntax_tree::Core;
use transition_formula::{Formula, FormulaError, Loss, column};

/// Sets a column to the value of an expression. What is lost is noted.
pub(crate) fn set(
    alloc: Global,
    columns: u32,
    col: u32,
    e: &Core,
    losses: &mut Items<Loss>,
) -> Result<Formula, FormulaError>
    requires col { col < columns }
    requires below { IsTrue (columns_below columns (term_of e.now)) }
    requires operators { operators_of (term_of e.now) ≤ MOST_OPERATORS + 1 }
    ensures exact { IfOk result
        (λ f. f ≡ set_of columns col (lists_of (term_of e.now)).value.cases) }
    ensures noted { OnOk result (losses.new ≡ losses.old ++ (lists_of (term_of e.now)).value.lost) }
{
    let values = cases_of(alloc, e, Sought::Value, losses)?;
    let same = columns_below(alloc, columns)?;
    let made = set_cases(alloc, &same, col, values.as_slice())?;
    Ok(formula(columns, columns, made))
}

/// Each case with the columns as its posts, but for one, which is the case's own value.
fn set_cases(
    alloc: Global,
    same: &Items<Poly>,
    col: u32,
    cases: &[Case],
) -> Result<Items<Case>, FormulaError>
    ensures { IfOk result
        (λ made. made ≡ map (λ case. with_posts (slice_set same.now col (operand 0 case)) case)
        cases.now) }
{
    let mut made = Items::new(alloc);
    for case in cases {
        made.push(set_case(alloc, same, col, case)?)?;
    }
    Ok(made)
}

fn set_case(alloc: Global, same: &Items<Poly>, col: u32, case: &Case) -> Result<Case, FormulaError>
    ensures { IfOk result
        (λ c. c ≡ with_posts (slice_set same.now col (operand 0 case.now)) case.now) }
{
    let rows = case.rows.clone()?;
    let zero = Poly::constant(alloc, 0);
    let value = operand(case, 0, &zero).clone()?;
    let posts = same.clone()?;
    Ok(Case {
        aux: case.aux,
        rows,
        post: posts_with(posts, col, value),
    })
}

/// The posts with another in the place of one, if that is there.
pub(crate) fn posts_with(posts: Items<Poly>, col: u32, value: Poly) -> Items<Poly>
    ensures { result ≡ slice_set posts col value }
{
    let mut posts = posts.into_vec();
    if (col as usize) < posts.len() {
        posts[col as usize] = value;
    }
    Items::from_vec(posts)
}

/// Sets a column to any number.
pub(crate) fn any(alloc: Global, columns: u32, col: u32) -> Result<Formula, FormulaError>
    requires { col < columns }
    ensures { IfOk result (λ f. f ≡ any_of columns col) }
{
    let same = columns_below(alloc, columns)?;
    let free = column(alloc, Col::Aux(0))?;
    let mut cases = Items::new(alloc);
    cases.push(Case {
        aux: 1,
        rows: Items::new(alloc),
        post: posts_with(same, col, free),
    })?;
    Ok(formula(columns, columns, cases))
}

/// Holds of nothing.
pub(crate) fn nothing(alloc: Global, columns: u32) -> Formula
    ensures { result ≡ nothing_of columns }
{
    formula(columns, columns, Items::new(alloc))
}
