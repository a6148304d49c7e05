ghost use Rattle.std.specs.Prelude.{◌≡◌, ◌<◌, length, IfOk, OnOk, int_lt};
ghost use Rattle.std.specs.Option.{IfSome};
ghost use Rattle.transition_formula.specs.Rows.{with_row, each_once, negated_terms, are_opposite};
ghost use Rattle.transition_formula.specs.Places.{key_of, first_place, TellsPlaces};

use crate::FormulaError;
use crate::tidy::are_opposite;
use items::Items;
use linear_terms::{Kind, Mono, Row};
use std::alloc::{AllocError, Global};
use std::collections::BTreeMap;

/// What rows have in common that are one but for the constant of an inequality: the terms, and of
/// an equation its constant too.
type RowKey = (Option<i128>, Items<(Mono, i128)>);

/// The place of the first row with a key.
pub(crate) type Places = BTreeMap<RowKey, usize>;

/// Each row once, and of inequalities with the same terms the one with the greatest constant; and
/// where they stand.
pub(crate) fn each_once(
    alloc: Global,
    rows: Items<Row>,
) -> Result<(Items<Row>, Places), FormulaError>
    ensures made { IfOk result (λ made. made.0 ≡ each_once rows) }
    ensures places { IfOk result (λ made. TellsPlaces made.1 made.0) }
{
    let mut made = Vec::new(alloc);
    let mut places = BTreeMap::new(alloc);
    for row in rows {
        put_row(alloc, &mut made, &mut places, row)?;
    }
    Ok((Items::from_vec(made), places))
}

/// Puts a row behind the others, or in the place of one that it is alike and stronger than.
fn put_row(
    alloc: Global,
    rows: &mut Vec<Row>,
    places: &mut Places,
    row: Row,
) -> Result<(), FormulaError>
    requires { TellsPlaces places.old rows.old.items }
    ensures made { OnOk result (rows.new.items ≡ with_row rows.old.items row) }
    ensures places { OnOk result (TellsPlaces places.new rows.new.items) }
{
    let key = key_of(alloc, &row)?;
    let place = places.get(&key).copied();
    match place {
        Some(place) => {
            if is_weaker(&rows[place], &row) {
                rows[place] = row;
            }
        }
        None => {
            places.insert(key, rows.len())?;
            rows.push(row)?;
        }
    }
    Ok(())
}

fn key_of(alloc: Global, row: &Row) -> Result<RowKey, AllocError>
    ensures { IfOk result (λ key. key ≡ key_of row.now) }
{
    let terms = Items::from_vec(Vec::from_slice(alloc, row.poly.terms())?);
    match row.kind {
        Kind::AtMost => Ok((None, terms)),
        Kind::Equal => Ok((Some(row.poly.rest()), terms)),
    }
}

fn is_weaker(row: &Row, other: &Row) -> bool
    ensures { result ≡ int_lt row.now.poly.rest other.now.poly.rest }
{
    row.poly.rest() < other.poly.rest()
}

/// The place of the first row with the opposite terms, if both are inequalities.
pub(crate) fn opposite_place(
    alloc: Global,
    row: &Row,
    rows: &[Row],
    places: &Places,
) -> Result<Option<usize>, FormulaError>
    requires { TellsPlaces places.now rows.now }
    ensures first { IfOk result (λ place. place ≡ first_place (are_opposite row.now) rows.now) }
    ensures within { IfOk result (λ place. IfSome place (λ n. n < length rows.now)) }
{
    match row.kind {
        Kind::Equal => Ok(None),
        Kind::AtMost => match negated_terms(alloc, row.poly.terms())? {
            Some(terms) => Ok(places.get(&(None, terms)).copied()),
            None => Ok(first_opposite(row, rows)),
        },
    }
}

/// The terms with their signs turned; none where a number leaves 128 bits.
fn negated_terms(
    alloc: Global,
    terms: &[(Mono, i128)],
) -> Result<Option<Items<(Mono, i128)>>, AllocError>
    ensures { IfOk result (λ made. IfSome made (λ turned. turned ≡ negated_terms terms.now)) }
{
    let mut made = Items::new(alloc);
    for (mono, number) in terms {
        match number.checked_neg() {
            Some(turned) => made.push((*mono, turned))?,
            None => return Ok(None),
        }
    }
    Ok(Some(made))
}

/// The same place, by looking at each row.
fn first_opposite(row: &Row, rows: &[Row]) -> Option<usize>
    ensures { result ≡ first_place (are_opposite row.now) rows.now }
{
    for (place, other) in rows.iter().enumerate() {
        if are_opposite(row, other) {
            return Some(place);
        }
    }
    None
}
