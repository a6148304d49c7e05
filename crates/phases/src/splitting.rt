ghost use Rattle.std.specs.Prelude.{◌≡◌, IfOk, OnOk, option_to_list};
ghost use Rattle.std.specs.List.{flat_map, list_any};
ghost use Rattle.items.specs.Gives.{Gives};
ghost use Rattle.linear_terms.specs.TermError.{cause};
ghost use Rattle.linear_terms.specs.Equality.{poly_eq};
ghost use Rattle.transition_formula.specs.Transition.{every_column, is_below};
ghost use Rattle.phases.specs.Splits.{contrary, inequality, normal_polynomial, normal_polynomials, offers, splits, splits_of};
ghost use Rattle.phases.specs.Words.{is_new, with_split, with_splits};

use items::Items;
use linear_terms::{Case, Kind, Normal, Poly, Row, TermError, add, normal, scale};
use std::alloc::{AllocError, Global};
use transition_formula::Formula;

/// How many inequalities of a body are tried.
const MOST_SPLITS: usize = 64;

/// The inequalities `p <= 0` by which a body may split, each once and the first 64: the rows of its
/// cases over entry columns alone, an equation as its two halves, and their contraries, each in
/// normal form. A row at which a step leaves 128 bits offers none.
pub(crate) fn splits(alloc: Global, body: &Formula) -> Result<Items<Poly>, AllocError>
    ensures { IfOk result (λ ps. ps ≡ splits body.now) }
{
    let mut made = Items::new(alloc);
    add_all(alloc, body.from(), body.cases(), &mut made)?;
    Ok(made)
}

/// Adds those of cases.
fn add_all(
    alloc: Global,
    from: u32,
    cases: &[Case],
    made: &mut Items<Poly>,
) -> Result<(), AllocError>
    ensures { OnOk result
        (made.new
        ≡ with_splits made.old (flat_map (λ case. flat_map (splits_of from) case.rows) cases.now)) }
{
    for case in cases {
        add_splits(alloc, from, case.rows.as_slice(), made)?;
    }
    Ok(())
}

/// Adds those of the rows of a case.
fn add_splits(
    alloc: Global,
    from: u32,
    rows: &[Row],
    made: &mut Items<Poly>,
) -> Result<(), AllocError>
    ensures { OnOk result (made.new ≡ with_splits made.old (flat_map (splits_of from) rows.now)) }
{
    for row in rows {
        add_row(alloc, from, row, made)?;
    }
    Ok(())
}

/// Adds those of a row, if it has entry columns alone.
fn add_row(alloc: Global, from: u32, row: &Row, made: &mut Items<Poly>) -> Result<(), AllocError>
    ensures { OnOk result (made.new ≡ with_splits made.old (splits_of from row.now)) }
{
    if !is_over_entries(from, &row.poly) {
        return Ok(());
    }
    add_offers(alloc, row, made)
}

fn is_over_entries(from: u32, poly: &Poly) -> bool
    ensures { result ≡ every_column (is_below from 0) poly.now }
{
    poly.is_covered(from as usize, 0)
}

/// Adds what a row offers.
fn add_offers(alloc: Global, row: &Row, made: &mut Items<Poly>) -> Result<(), AllocError>
    ensures { OnOk result
        (made.new
        ≡ with_splits made.old (normal_polynomials (offers row.now.kind row.now.poly))) }
{
    match offers(alloc, row) {
        Ok(polys) => add_normal(alloc, polys.as_slice(), made),
        Err(TermError::Memory) => Err(AllocError),
        Err(_lost) => Ok(()),
    }
}

/// Adds inequalities in normal form.
fn add_normal(alloc: Global, polys: &[Poly], made: &mut Items<Poly>) -> Result<(), AllocError>
    ensures { OnOk result
        (made.new
        ≡ with_splits made.old (flat_map (λ p. option_to_list (normal_polynomial p)) polys.now)) }
{
    for poly in polys {
        add_split(alloc, poly, made)?;
    }
    Ok(())
}

/// An inequality and its contrary, or both halves of an equation and theirs.
fn offers(alloc: Global, row: &Row) -> Result<Items<Poly>, TermError>
    ensures { Gives cause (λ ps. ps) result (offers row.now.kind row.now.poly) }
{
    let mut made = Items::new(alloc);
    made.push(row.poly.clone()?)?;
    made.push(contrary(alloc, &row.poly)?)?;
    if row.kind == Kind::Equal {
        made.push(scale(alloc, &row.poly, -1)?)?;
        made.push(add(alloc, &row.poly, &Poly::constant(alloc, 1))?)?;
    }
    Ok(made)
}

/// The polynomial that is at most 0 exactly where the given one is not.
pub(crate) fn contrary(alloc: Global, poly: &Poly) -> Result<Poly, TermError>
    ensures { Gives cause (λ p. p) result (contrary poly.now) }
{
    let turned = scale(alloc, poly, -1)?;
    add(alloc, &turned, &Poly::constant(alloc, 1))
}

/// Adds an inequality in normal form, unless it is constant or there already.
fn add_split(alloc: Global, poly: &Poly, made: &mut Items<Poly>) -> Result<(), AllocError>
    ensures { OnOk result
        (made.new ≡ with_splits made.old (option_to_list (normal_polynomial poly.now))) }
{
    match normal_poly(alloc, poly)? {
        Some(split) => add_new(split, made),
        None => Ok(()),
    }
}

/// Adds an inequality, unless it is there already or there is no room.
fn add_new(poly: Poly, made: &mut Items<Poly>) -> Result<(), AllocError>
    ensures { OnOk result (made.new ≡ with_split made.old poly) }
{
    if is_new(made.as_slice(), &poly) {
        made.push(poly)?;
    }
    Ok(())
}

/// The polynomial of an inequality in normal form; none where it is constant.
fn normal_poly(alloc: Global, poly: &Poly) -> Result<Option<Poly>, AllocError>
    ensures { IfOk result (λ found. found ≡ normal_polynomial poly.now) }
{
    let row = inequality(poly)?;
    match normal(alloc, &row) {
        Ok(Normal::Kept(row)) => Ok(Some(row.poly)),
        Ok(Normal::Constant(_holds)) => Ok(None),
        Err(TermError::Memory) => Err(AllocError),
        Err(_lost) => Ok(None),
    }
}

/// The row that says that a polynomial is at most 0.
pub(crate) fn inequality(poly: &Poly) -> Result<Row, AllocError>
    ensures { IfOk result (λ row. row ≡ inequality poly.now) }
{
    let poly = poly.clone()?;
    Ok(Row {
        poly,
        kind: Kind::AtMost,
    })
}

/// There is room, and it is not there.
fn is_new(made: &[Poly], poly: &Poly) -> bool
    ensures { result ≡ is_new made.now poly.now }
{
    made.len() < MOST_SPLITS && !is_known(made, poly)
}

fn is_known(made: &[Poly], poly: &Poly) -> bool
    ensures { result ≡ list_any (poly_eq poly.now) made.now }
{
    made.iter().any(|known| *poly == *known)
}
