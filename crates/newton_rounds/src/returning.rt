ghost use Rattle.std.specs.Prelude.{◌≡◌, ◌+◌, ◌<◌, ◌≤◌, ◌^◌, IfOk, drop, length, slice_get, slice_set, unwrap_or};
ghost use Rattle.leaf_cases.specs.Division.{zero};
ghost use Rattle.leaf_cases.specs.Edges.{posts_with_value};
ghost use Rattle.newton_rounds.specs.Pairs.{call_exit, exit_columns, posts_after_return};

use crate::pairs::{add_copies, columns_from};
use items::Items;
use linear_terms::{Case, Col, Poly};
use std::alloc::{AllocError, Global};
use transition_formula::{Formula, FormulaError, column};

/// Where a call has returned: the callee's exit in new auxiliaries. These are put into the caller's
/// columns; the callee's entry is carried along, and its exit stands behind it.
pub(crate) fn call_exit(
    alloc: Global,
    columns: u32,
    globals: u32,
    into: Option<u32>,
    entry: u32,
    exit: u32,
) -> Result<Formula, FormulaError>
    requires few { columns + entry + exit < 2 ^ 32 }
    requires globals { globals ≤ exit }
    requires columns { globals ≤ columns }
    ensures { IfOk result (λ f. f ≡ call_exit columns globals into entry exit) }
{
    let values = exit_columns(alloc, exit)?;
    let mut post = posts_after_return(alloc, columns, globals, into, values.as_slice())?;
    let mut carried = columns_from(alloc, columns, entry)?;
    carried.append(values)?;
    post.append(carried)?;
    let mut cases = Items::new(alloc);
    cases.push(Case {
        aux: exit,
        rows: Items::new(alloc),
        post,
    })?;
    Ok(Formula::from_cases(columns + entry, columns + entry + exit, cases))
}

/// So many new auxiliaries.
fn exit_columns(alloc: Global, count: u32) -> Result<Items<Poly>, FormulaError>
    ensures { IfOk result (λ made. made ≡ exit_columns count) }
{
    let mut made = Items::new(alloc);
    for number in 0..count {
        made.push(column(alloc, Col::Aux(number))?)?;
    }
    Ok(made)
}

/// The caller's columns where a call has returned with these values: first the globals, then what
/// is returned.
fn posts_after_return(
    alloc: Global,
    columns: u32,
    globals: u32,
    into: Option<u32>,
    values: &[Poly],
) -> Result<Items<Poly>, FormulaError>
    requires values { globals ≤ length values.now }
    requires columns { globals ≤ columns }
    ensures { IfOk result (λ made. made ≡ posts_after_return columns globals into values.now) }
{
    let same = columns_from(alloc, 0, columns)?;
    let mut made = Items::new(alloc);
    add_copies(&values[..globals as usize], &mut made)?;
    made.append(rest_of(alloc, same.as_slice(), globals as usize)?)?;
    let value = value_at(alloc, values, globals as usize)?;
    Ok(posts_with_value(into, value, made))
}

fn copies(alloc: Global, polys: &[Poly]) -> Result<Items<Poly>, AllocError>
    ensures { IfOk result (λ made. made ≡ polys.now) }
{
    let mut made = Items::new(alloc);
    add_copies(polys, &mut made)?;
    Ok(made)
}

/// Copies of the polynomials behind the first ones.
fn rest_of(alloc: Global, polys: &[Poly], count: usize) -> Result<Items<Poly>, AllocError>
    ensures { IfOk result (λ made. made ≡ drop count polys.now) }
{
    if polys.len() <= count {
        Ok(Items::new(alloc))
    } else {
        copies(alloc, &polys[count..])
    }
}

/// The value at a place; zero where there is none.
fn value_at(alloc: Global, values: &[Poly], place: usize) -> Result<Poly, AllocError>
    ensures { IfOk result (λ value. value ≡ unwrap_or (slice_get values.now place) zero) }
{
    match values.get(place) {
        Some(value) => value.clone(),
        None => Ok(Poly::constant(alloc, 0)),
    }
}

/// A value goes into the column that awaits it.
fn posts_with_value(into: Option<u32>, value: Poly, posts: Items<Poly>) -> Items<Poly>
    ensures { result ≡ posts_with_value into value posts }
{
    match into {
        Some(col) => posts_with(posts, col, value),
        None => posts,
    }
}

/// The posts with another in the place of one, if that is there.
fn posts_with(posts: Items<Poly>, col: u32, value: Poly) -> Items<Poly>
    ensures { result ≡ slice_set posts col value }
{
    let mut posts = posts.into_vec();
    if (col as usize) < posts.len() {
        posts[col as usize] = value;
    }
    Items::from_vec(posts)
}
