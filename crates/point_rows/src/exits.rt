ghost use Rattle.std.specs.Prelude.{◌≡◌, ◌+◌, ◌++◌, length, map, slice_get, Result, IfOk, OnOk};
ghost use Rattle.std.specs.Option.{option_map};
ghost use Rattle.items.specs.Gives.{Gives};
ghost use Rattle.linear_terms.specs.TermError.{cause};
ghost use Rattle.linear_terms.specs.declared.error.TermError.{TermError};
ghost use Rattle.linear_terms.specs.declared.row.Normal.{Normal as PlainNormal};
ghost use Rattle.row_products.specs.Products.{never};
ghost use Rattle.transition_formula.specs.Transition.{IsTransition};
ghost use Rattle.leaf_cases.specs.Guard.{columns_of};
ghost use Rattle.point_rows.specs.Reading.{AreOverColumns, stood_row, stood_rows};
ghost use Rattle.point_rows.specs.Exits.{AreExitRows, FitExits, IsExitOf, case_with_exit_rows, exit_rows_at, formula_with_rows, formulas_with_exits, with_exit_rows};

use crate::reading::read_row;
use items::Items;
use linear_terms::{Case, Col, Kind, Normal, Poly, Row, TermError};
use std::alloc::{AllocError, Global};
use transition_formula::{Formula, FormulaError, column};

/// The known formulas, each with the rows at its place, which are over its columns at the entry and
/// behind them those at the exit. In each case the posts are the columns at the exit, and behind its
/// own rows stands the normal form of each row, in order. What is always true and a row of which a
/// step is lost, because it leaves 128 bits or passes degree 4, add nothing, and what never is true
/// is the row `1 <= 0`. A formula past the end of the rows stays as it is. The one error is want of
/// memory.
pub fn formulas_with_exits(
    alloc: Global,
    known: &[Option<Formula>],
    exits: &[Items<Row>],
) -> Result<Items<Option<Formula>>, FormulaError>
    requires { FitExits known.now exits.now }
    ensures { IfOk result (λ made. made ≡ formulas_with_exits known.now exits.now) }
{
    let mut made = Items::new(alloc);
    for (place, f) in known.iter().enumerate() {
        made.push(formula_with_rows_at(alloc, f, exits, place)?)?;
    }
    Ok(made)
}

/// The formula with the rows at the place, if it is known.
fn formula_with_rows_at(
    alloc: Global,
    f: &Option<Formula>,
    exits: &[Items<Row>],
    place: usize,
) -> Result<Option<Formula>, FormulaError>
    requires { IsExitOf f.now (exit_rows_at exits.now place) }
    ensures { IfOk result
        (λ made. made ≡ option_map (formula_with_rows (slice_get exits.now place)) f.now) }
{
    match f {
        Some(f) => Ok(Some(formula_at(alloc, f, exits, place)?)),
        None => Ok(None),
    }
}

/// The formula with the rows at the place, if there are some.
fn formula_at(
    alloc: Global,
    f: &Formula,
    exits: &[Items<Row>],
    place: usize,
) -> Result<Formula, FormulaError>
    requires { AreExitRows f.now (exit_rows_at exits.now place) }
    ensures { IfOk result
        (λ made. made ≡ formula_with_rows (slice_get exits.now place) f.now) }
{
    match exits.get(place) {
        Some(rows) => with_exit_rows(alloc, f, rows.as_slice()),
        None => Ok(f.clone()?),
    }
}

/// Each case with the rows.
fn with_exit_rows(alloc: Global, f: &Formula, rows: &[Row]) -> Result<Formula, FormulaError>
    requires { AreExitRows f.now rows.now }
    ensures { IfOk result (λ made. made ≡ with_exit_rows rows.now f.now) }
{
    let cases = cases_with_exit_rows(alloc, f, rows)?;
    Ok(Formula::from_cases(f.from(), f.to(), cases))
}

fn cases_with_exit_rows(
    alloc: Global,
    f: &Formula,
    rows: &[Row],
) -> Result<Items<Case>, FormulaError>
    requires { AreExitRows f.now rows.now }
    ensures made { IfOk result
        (λ cases. cases ≡ map (case_with_exit_rows f.now.from rows.now) f.now.cases) }
    ensures fit { IfOk result (IsTransition f.now.from f.now.to) }
{
    let mut cases = Items::new(alloc);
    for case in f.cases() {
        cases.push(case_with_exit_rows(alloc, f.from(), case, rows)?)?;
    }
    Ok(cases)
}

/// The case from so many columns with what stands of the rows behind its own.
fn case_with_exit_rows(
    alloc: Global,
    from: u32,
    case: &Case,
    rows: &[Row],
) -> Result<Case, FormulaError>
    requires { AreOverColumns (from + length case.now.post) rows.now }
    ensures { IfOk result (λ made. made ≡ case_with_exit_rows from rows.now case.now) }
{
    let pair = pair_posts(alloc, from, case.post.as_slice())?;
    let mut all = case.rows.clone()?;
    add_stood_rows(alloc, pair.as_slice(), rows, &mut all)?;
    let post = case.post.clone()?;
    Ok(Case {
        aux: case.aux,
        rows: all,
        post,
    })
}

/// The first so many columns, and posts behind them.
fn pair_posts(alloc: Global, from: u32, posts: &[Poly]) -> Result<Items<Poly>, FormulaError>
    ensures { IfOk result (λ pair. pair ≡ columns_of from ++ posts.now) }
{
    let mut pair = columns(alloc, from)?;
    for post in posts {
        pair.push(post.clone()?)?;
    }
    Ok(pair)
}

fn columns(alloc: Global, count: u32) -> Result<Items<Poly>, FormulaError>
    ensures { IfOk result (λ made. made ≡ columns_of count) }
{
    let mut made = Items::new(alloc);
    for number in 0..count {
        made.push(column(alloc, Col::At(number))?)?;
    }
    Ok(made)
}

/// Adds to others what stands of rows.
fn add_stood_rows(
    alloc: Global,
    posts: &[Poly],
    rows: &[Row],
    all: &mut Items<Row>,
) -> Result<(), AllocError>
    requires { AreOverColumns (length posts.now) rows.now }
    ensures { OnOk result (all.new ≡ all.old ++ stood_rows posts.now rows.now) }
{
    for row in rows {
        let form = read_row(alloc, posts, row);
        add_stood_row(alloc, form, all)?;
    }
    Ok(())
}

/// Adds what stands of a row that was read.
fn add_stood_row(
    alloc: Global,
    form: Result<Normal, TermError>,
    all: &mut Items<Row>,
) -> Result<(), AllocError>
    ensures { (stated : Result PlainNormal TermError) → Gives cause (λ form. form) form stated
        → OnOk result (all.new ≡ all.old ++ stood_row stated) }
{
    match form {
        Ok(Normal::Constant(true)) => Ok(()),
        Ok(Normal::Constant(false)) => Ok(all.push(never(alloc))?),
        Ok(Normal::Kept(row)) => Ok(all.push(row)?),
        Err(TermError::Memory) => Err(AllocError),
        Err(_lost) => Ok(()),
    }
}

/// The row `1 <= 0`.
fn never(alloc: Global) -> Row
    ensures { result ≡ never }
{
    Row {
        poly: Poly::constant(alloc, 1),
        kind: Kind::AtMost,
    }
}
