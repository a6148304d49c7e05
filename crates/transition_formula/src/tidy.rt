ghost use Rattle.std.specs.Prelude.{◌≡◌, ◌+◌, ◌++◌, ◌+ℤ◌, [], pos, neg_ℤ, int_lt, nat_lt, ◌&&◌, if◌then◌else◌, map, take, drop, None, Some, IfOk, OnOk};
ghost use Rattle.std.specs.List.{list_any, find, cons_option};
ghost use Rattle.std.specs.Ordering.{int_eq};
ghost use Rattle.std.specs.Cmp.Lexicographic.{pointwise};
ghost use Rattle.linear_terms.specs.Equality.{term_eq};
ghost use Rattle.linear_terms.specs.Row.{normal_form, starts_negative};
ghost use Rattle.transition_formula.specs.Loss.{answer_of, losses_of};
ghost use Rattle.transition_formula.specs.Places.{key_of, EachApart, TellsPlaces};
ghost use Rattle.transition_formula.specs.Forms.{never_holds, kept_row};
ghost use Rattle.transition_formula.specs.Rows.{normal_rows, each_once, is_at_most, negated_terms, are_opposite, exclude, can_agree, close, equation_of, with_met, met_rows, opposites_met, tidied_rows};

use crate::loss::note;
use crate::places::{Places, each_once, opposite_place};
use crate::{FormulaError, Loss};
use items::Items;
use linear_terms::{Kind, Mono, Normal, Row, normal};
use std::alloc::Global;

/// The rows in normal form, each once, and opposite inequalities as equations; none where they
/// can't all be true. A row whose normal form leaves 128 bits is left out and noted.
pub(crate) fn tidy(
    alloc: Global,
    rows: &[Row],
    losses: &mut Items<Loss>,
) -> Result<Option<Items<Row>>, FormulaError>
    ensures exact { IfOk result (λ made. made ≡ (tidied_rows rows.now).rows) }
    ensures noted { OnOk result (losses.new ≡ losses.old ++ (tidied_rows rows.now).losses) }
{
    let Some(rows) = normal_rows(alloc, rows, losses)? else {
        return Ok(None);
    };
    once_and_met(alloc, rows)
}

/// Each row in normal form, without those that always hold; none where one never holds.
fn normal_rows(
    alloc: Global,
    rows: &[Row],
    losses: &mut Items<Loss>,
) -> Result<Option<Items<Row>>, FormulaError>
    ensures exact { IfOk result (λ made. made ≡ (normal_rows rows.now).rows) }
    ensures noted { OnOk result (losses.new ≡ losses.old ++ (normal_rows rows.now).losses) }
{
    let mut made = Items::new(alloc);
    for row in rows {
        let form = normal_row(alloc, row, losses)?;
        if never_holds(&form) {
            return Ok(None);
        }
        let row = kept_row(form);
        push_some(&mut made, row)?;
    }
    Ok(Some(made))
}

/// Whether no numbers make a row in normal form true.
fn never_holds(form: &Option<Normal>) -> bool
    ensures { result ≡ never_holds form.now }
{
    match form {
        Some(Normal::Constant(holds)) => !*holds,
        Some(Normal::Kept(_row)) => false,
        None => false,
    }
}

/// The row that is left in normal form; none where it says nothing.
fn kept_row(form: Option<Normal>) -> Option<Row>
    ensures { result ≡ kept_row form }
{
    match form {
        Some(Normal::Kept(row)) => Some(row),
        Some(Normal::Constant(_holds)) => None,
        None => None,
    }
}

/// A row in normal form, or none where that is lost, which is noted.
fn normal_row(
    alloc: Global,
    row: &Row,
    losses: &mut Items<Loss>,
) -> Result<Option<Normal>, FormulaError>
    ensures answer { IfOk result (λ made. made ≡ answer_of (normal_form row.now)) }
    ensures noted { OnOk result (losses.new ≡ losses.old ++ losses_of (normal_form row.now)) }
{
    match normal(alloc, row) {
        Ok(form) => Ok(Some(form)),
        Err(error) => {
            note(error, losses)?;
            Ok(None)
        }
    }
}

/// Each row once, and opposite inequalities as equations; none where two rows exclude each other.
fn once_and_met(alloc: Global, rows: Items<Row>) -> Result<Option<Items<Row>>, FormulaError>
    ensures { IfOk result (λ made. made ≡ opposites_met (Some (each_once rows))) }
{
    let (rows, places) = each_once(alloc, rows)?;
    opposites_met(alloc, rows.as_slice(), &places)
}

/// Opposite inequalities as equations; none where two rows exclude each other.
fn opposites_met(
    alloc: Global,
    rows: &[Row],
    places: &Places,
) -> Result<Option<Items<Row>>, FormulaError>
    requires places { TellsPlaces places.now rows.now }
    requires apart { EachApart (map key_of rows.now) }
    ensures { IfOk result (λ made. made ≡ opposites_met (Some rows.now)) }
{
    if !can_agree(alloc, rows, places)? {
        return Ok(None);
    }
    let met = met_rows(alloc, rows, places)?;
    Ok(Some(met))
}

/// Whether no two rows exclude each other.
fn can_agree(alloc: Global, rows: &[Row], places: &Places) -> Result<bool, FormulaError>
    requires places { TellsPlaces places.now rows.now }
    requires apart { EachApart (map key_of rows.now) }
    ensures { IfOk result (λ agree. agree ≡ can_agree rows.now) }
{
    for (place, row) in rows.iter().enumerate() {
        if excludes_later(alloc, row, place, rows, places)? {
            return Ok(false);
        }
    }
    Ok(true)
}

/// Whether a row excludes one that stands behind a place.
fn excludes_later(
    alloc: Global,
    row: &Row,
    place: usize,
    rows: &[Row],
    places: &Places,
) -> Result<bool, FormulaError>
    requires places { TellsPlaces places.now rows.now }
    requires apart { EachApart (map key_of rows.now) }
    ensures { IfOk result
        (λ found. found ≡ list_any (exclude row.now) (drop (place + 1) rows.now)) }
{
    match opposite_place(alloc, row, rows, places)? {
        Some(other) => Ok(place < other && exclude(row, &rows[other])),
        None => Ok(false),
    }
}

fn exclude(row: &Row, other: &Row) -> bool
    ensures { result ≡ exclude row.now other.now }
{
    are_opposite(row, other) && is_sum_positive(row.poly.rest(), other.poly.rest())
}

fn close(row: &Row, other: &Row) -> bool
    ensures { result ≡ close row.now other.now }
{
    are_opposite(row, other) && is_sum_zero(row.poly.rest(), other.poly.rest())
}

/// Whether two rows are inequalities with opposite terms.
pub(crate) fn are_opposite(row: &Row, other: &Row) -> bool
    ensures { result ≡ are_opposite row.now other.now }
{
    is_at_most(row.kind)
        && is_at_most(other.kind)
        && have_opposite_terms(row.poly.terms(), other.poly.terms())
}

fn is_at_most(kind: Kind) -> bool
    ensures { result ≡ is_at_most kind }
{
    match kind {
        Kind::AtMost => true,
        Kind::Equal => false,
    }
}

fn have_opposite_terms(terms: &[(Mono, i128)], others: &[(Mono, i128)]) -> bool
    ensures { result ≡ pointwise term_eq (negated_terms terms.now) others.now }
{
    let mut left = terms;
    let mut right = others;
    loop {
        match left.split_first() {
            None => return right.is_empty(),
            Some((first, lefts)) => match right.split_first() {
                None => return false,
                Some((second, rights)) => {
                    if !are_opposite_terms(first, second) {
                        return false;
                    }
                    left = lefts;
                    right = rights;
                }
            },
        }
    }
}

fn are_opposite_terms(term: &(Mono, i128), other: &(Mono, i128)) -> bool
    ensures { result ≡ term_eq (term.now.0, neg_ℤ term.now.1) other.now }
{
    term.0 == other.0 && is_sum_zero(term.1, other.1)
}

/// Whether the sum is positive, though it may leave 128 bits.
fn is_sum_positive(left: i128, right: i128) -> bool
    ensures { result ≡ int_lt (pos 0) (left +ℤ right) }
{
    match left.checked_add(right) {
        Some(sum) => 0 < sum,
        None => 0 < left,
    }
}

fn is_sum_zero(left: i128, right: i128) -> bool
    ensures { result ≡ int_eq (left +ℤ right) (pos 0) }
{
    match left.checked_add(right) {
        Some(sum) => sum == 0,
        None => false,
    }
}

/// The rows, with an equation in place of two that close each other.
fn met_rows(alloc: Global, rows: &[Row], places: &Places) -> Result<Items<Row>, FormulaError>
    requires places { TellsPlaces places.now rows.now }
    requires apart { EachApart (map key_of rows.now) }
    ensures { IfOk result (λ made. made ≡ met_rows [] rows.now) }
{
    let mut made = Items::new(alloc);
    for (place, row) in rows.iter().enumerate() {
        let row = met_row(alloc, row, place, rows, places)?;
        push_some(&mut made, row)?;
    }
    Ok(made)
}

pub(crate) fn push_some(rows: &mut Items<Row>, row: Option<Row>) -> Result<(), FormulaError>
    ensures { OnOk result (rows.new ≡ rows.old ++ cons_option row []) }
{
    if let Some(row) = row {
        rows.push(row)?;
    }
    Ok(())
}

/// What becomes of a row at a place by those before it and after it.
fn met_row(
    alloc: Global,
    row: &Row,
    place: usize,
    rows: &[Row],
    places: &Places,
) -> Result<Option<Row>, FormulaError>
    requires places { TellsPlaces places.now rows.now }
    requires apart { EachApart (map key_of rows.now) }
    ensures { IfOk result
        (λ made. cons_option made []
        ≡ with_met row.now (list_any (λ s. close s row.now) (take place rows.now))
        (find (close row.now) (drop (place + 1) rows.now)) []) }
{
    match opposite_place(alloc, row, rows, places)? {
        Some(other) => row_met_with(row, place, &rows[other], other),
        None => Ok(Some(row.clone()?)),
    }
}

/// What becomes of a row at a place by an opposite one at another.
fn row_met_with(
    row: &Row,
    place: usize,
    opposite: &Row,
    other: usize,
) -> Result<Option<Row>, FormulaError>
    ensures { IfOk result
        (λ made. cons_option made []
        ≡ with_met row.now (nat_lt other place && close opposite.now row.now)
        (if nat_lt place other && close row.now opposite.now then Some opposite.now else None) []) }
{
    if other < place {
        return row_met_before(row, opposite);
    }
    if place < other && close(row, opposite) {
        return Ok(Some(equation(row, opposite)?));
    }
    Ok(Some(row.clone()?))
}

/// What becomes of a row by an opposite one that stands before it.
fn row_met_before(row: &Row, opposite: &Row) -> Result<Option<Row>, FormulaError>
    ensures { IfOk result
        (λ made. cons_option made [] ≡ with_met row.now (close opposite.now row.now) None []) }
{
    if close(opposite, row) {
        Ok(None)
    } else {
        Ok(Some(row.clone()?))
    }
}

/// The equation that two rows make, in normal form.
fn equation(row: &Row, other: &Row) -> Result<Row, FormulaError>
    ensures { IfOk result (λ made. made ≡ equation_of row.now other.now) }
{
    let poly = if starts_negative(row.poly.terms()) {
        other.poly.clone()?
    } else {
        row.poly.clone()?
    };
    Ok(Row {
        poly,
        kind: Kind::Equal,
    })
}

fn starts_negative(terms: &[(Mono, i128)]) -> bool
    ensures { result ≡ starts_negative terms.now }
{
    match terms {
        [(_, number), ..] => *number < 0,
        [] => false,
    }
}
