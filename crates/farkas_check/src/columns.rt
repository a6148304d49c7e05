ghost use Rattle.std.specs.Prelude.{◌≡◌, [], ◌∷◌, ◌==◌, length, map, slice_get, Some, MatchOption, IfOk, IfSome, IsTrue};
ghost use Rattle.std.specs.Map.{keys_of};
ghost use Rattle.std.specs.Ordering.{is_lt};
ghost use Rattle.linear_terms.specs.Mono.{mono_cmp};
ghost use Rattle.linear_terms.specs.Polynomial.{IsCanonical};
ghost use Rattle.farkas_check.specs.Columns.{columns};
ghost use Rattle.farkas_check.specs.Relations.{stratum_columns, source_columns};
ghost use Rattle.farkas_check.specs.Listing.{columns_in};
ghost use Rattle.farkas_check.specs.Walk.{IsNext, IsBlank, IsListing, IsRightBefore, is_after, lesser, multiplied_rows, least_after, least_in_row, least_in_multiplied, least_in_rows, least_in_polys, least_in_cases};

use crate::search::{first_behind, is_after};
use crate::source::{ColumnSource, Columns, LISTED};
use crate::{Change, Ratio, Stratum};
use items::Items;
use linear_terms::{Mono, Poly, Row};
use std::alloc::{AllocError, Global};

impl<'a> Columns<'a> {
    #[tactic(auto, using(crate::proofs::Listing::listing))]
    pub(crate) fn of(source: ColumnSource<'a>) -> Columns<'a>
        ensures { columns_in result ≡ source_columns source.entry }
    {
        let mut listed = blank::<LISTED>();
        list_columns(&source, &mut listed);
        Columns { source, listed }
    }
}

fn blank<const N: usize>() -> [Option<Mono>; N]
    ensures { IsBlank result }
{
    [None; N]
}

/// Puts the first columns in their places, as many as there is room for.
#[tactic(auto, using(crate::proofs::Listing::listing))]
fn list_columns(source: &ColumnSource<'_>, listed: &mut [Option<Mono>])
    requires { IsBlank listed.old }
    ensures { IsListing listed.new (source_columns source.now) }
{
    let mut last = None;
    for place in 0..listed.len() {
        let next = next_of(source, &last);
        if next.is_none() {
            return;
        }
        listed[place] = next;
        last = next;
    }
}

/// The first column after another one, or the first of all; none after the last. The columns are
/// monomials in print order, each once. The place is where the next one is looked for first: that
/// of the last one, and one more.
#[tactic(auto, using(crate::proofs::Listing::listing))]
pub(crate) fn next_column(columns: &Columns<'_>, last: &Option<Mono>, place: usize) -> Option<Mono>
    ensures { IsNext result last.now (columns_in columns.now) }
{
    match listed_next(columns, last, place) {
        Some(next) => next,
        None => next_of(&columns.source, last),
    }
}

/// The next column, or that there is none, where the listing tells it.
#[tactic(auto, using(crate::proofs::Listing::listing))]
fn listed_next(columns: &Columns<'_>, last: &Option<Mono>, place: usize) -> Option<Option<Mono>>
    ensures { IfSome result (λ next. IsNext next last.now (columns_in columns.now)) }
{
    let listed = &columns.listed;
    if place < listed.len() && is_right_before(listed, last, place) {
        Some(listed[place])
    } else {
        None
    }
}

/// Whether the last column is listed right before a place. Before the first place is none.
#[tactic(auto, using(crate::proofs::Listing::listing))]
fn is_right_before(listed: &[Option<Mono>], last: &Option<Mono>, place: usize) -> bool
    ensures { IsTrue result → IsRightBefore listed.now last.now place }
{
    match last {
        None => place == 0,
        Some(column) => 0 < place && is_listed(listed, place - 1, column),
    }
}

/// Whether a column is listed at a place.
#[tactic(auto, using(crate::proofs::Listing::listing))]
fn is_listed(listed: &[Option<Mono>], place: usize, column: &Mono) -> bool
    ensures { IsTrue result → slice_get listed.now place ≡ Some (Some column.now) }
{
    match listed_column_at(listed, place) {
        Some(own) => own == *column,
        None => false,
    }
}

fn listed_column_at(listed: &[Option<Mono>], place: usize) -> Option<Mono>
    ensures { IfSome result (λ column. slice_get listed.now place ≡ Some (Some column)) }
{
    if place < listed.len() {
        listed[place]
    } else {
        None
    }
}

/// The place of a column among all of them, where it is listed from another place on.
#[tactic(auto, using(crate::proofs::Listing::listing))]
pub(crate) fn listed_place(columns: &Columns<'_>, start: usize, column: &Mono) -> Option<usize>
    ensures { IfSome result (λ place. slice_get (columns_in columns.now) place ≡ Some column.now) }
{
    place_of(&columns.listed, start, column)
}

/// A place where a column is listed, from another place on.
#[tactic(auto, using(crate::proofs::Listing::listing))]
fn place_of(listed: &[Option<Mono>], start: usize, column: &Mono) -> Option<usize>
    ensures { IfSome result (λ place. slice_get listed.now place ≡ Some (Some column.now)) }
{
    for place in start..listed.len() {
        match listed_column_at(listed, place) {
            Some(own) => {
                if own == *column {
                    return Some(place);
                }
            }
            None => return None,
        }
    }
    None
}

#[tactic(auto, using(crate::proofs::Walks::next_column))]
fn next_of(source: &ColumnSource<'_>, last: &Option<Mono>) -> Option<Mono>
    ensures { IsNext result last.now (source_columns source.now) }
{
    match source {
        ColumnSource::OfCase(rows, terms) => next_of_case(rows, terms, last),
        ColumnSource::OfStratum(cases, lower) => next_of_stratum(cases, lower, last),
    }
}

#[tactic(auto, using(crate::proofs::Walks::next_column))]
fn next_of_case(rows: &[Row], terms: &[(Mono, i128)], last: &Option<Mono>) -> Option<Mono>
    ensures { IsNext result last.now (columns rows.now terms.now) }
{
    let least = least_in_rows(rows, last, None);
    least_after(terms, last, least)
}

#[tactic(auto, using(crate::proofs::Walks::next_column))]
fn next_of_stratum(cases: &[Change], lower: &[Poly], last: &Option<Mono>) -> Option<Mono>
    ensures { IsNext result last.now (stratum_columns cases.now lower.now) }
{
    let least = least_in_cases(cases, last);
    least_in_polys(lower, last, least)
}

/// The next column of the rows whose multipliers are not 0, and of terms in print order.
#[tactic(auto, using(crate::proofs::Walks::next_column))]
pub(crate) fn next_of_multiplied(
    rows: &[Row],
    by: &[i128],
    terms: &[(Mono, i128)],
    last: &Option<Mono>,
) -> Option<Mono>
    requires by { length by.now ≡ length rows.now }
    requires terms { IsCanonical terms.now }
    ensures { IsNext result last.now (columns (multiplied_rows rows.now by.now) terms.now) }
{
    let least = least_in_multiplied(rows, by, last);
    least_in_order(terms, last, least)
}

fn least_in_multiplied(rows: &[Row], by: &[i128], last: &Option<Mono>) -> Option<Mono>
    requires { length by.now ≡ length rows.now }
    ensures { result ≡ least_in_multiplied last.now None rows.now by.now }
{
    let mut least = None;
    for (i, row) in rows.iter().enumerate() {
        least = least_in_row(row, &by[i], last, least);
    }
    least
}

fn least_in_row(row: &Row, by: &i128, last: &Option<Mono>, known: Option<Mono>) -> Option<Mono>
    ensures { result ≡ least_in_row last.now known by.now row.now }
{
    if *by == 0 {
        known
    } else {
        least_in_order(row.poly.terms(), last, known)
    }
}

fn least_in_cases(cases: &[Change], last: &Option<Mono>) -> Option<Mono>
    ensures { result ≡ least_in_cases last.now None cases.now }
{
    let mut least = None;
    for case in cases {
        least = least_in_case(case, last, least);
    }
    least
}

fn least_in_case(case: &Change, last: &Option<Mono>, known: Option<Mono>) -> Option<Mono>
    ensures { result ≡ least_in_polys last.now (least_in_rows last.now known case.now.rows)
        case.now.terms }
{
    let least = least_in_rows(case.rows.as_slice(), last, known);
    least_in_polys(case.terms.as_slice(), last, least)
}

fn least_in_polys(polys: &[Poly], last: &Option<Mono>, known: Option<Mono>) -> Option<Mono>
    ensures { result ≡ least_in_polys last.now known polys.now }
{
    let mut least = known;
    for poly in polys {
        least = least_in_order(poly.terms(), last, least);
    }
    least
}

fn least_in_rows(rows: &[Row], last: &Option<Mono>, known: Option<Mono>) -> Option<Mono>
    ensures { result ≡ least_in_rows last.now known rows.now }
{
    let mut least = known;
    for row in rows {
        least = least_in_order(row.poly.terms(), last, least);
    }
    least
}

/// The same of terms in print order, whose first one after `last` is the least of those.
#[tactic(auto, using(crate::proofs::OrderedTerms::ordered))]
fn least_in_order(terms: &[(Mono, i128)], last: &Option<Mono>, known: Option<Mono>) -> Option<Mono>
    requires { IsCanonical terms.now }
    ensures { result ≡ least_after last.now known (keys_of terms.now) }
{
    let place = first_behind(terms, last);
    if place < terms.len() {
        lesser(known, terms[place].0, true)
    } else {
        known
    }
}

/// The least of the monomials after `last`, and of one that is known.
fn least_after(terms: &[(Mono, i128)], last: &Option<Mono>, known: Option<Mono>) -> Option<Mono>
    ensures { result ≡ least_after last.now known (keys_of terms.now) }
{
    let mut least = known;
    for (mono, _) in terms {
        least = lesser(least, *mono, is_after(last, mono));
    }
    least
}

/// The lesser of two monomials, where the second counts.
fn lesser(known: Option<Mono>, mono: Mono, counts: bool) -> Option<Mono>
    ensures { result ≡ lesser known mono counts }
{
    if !counts {
        return known;
    }
    match known {
        Some(least) => {
            if least < mono {
                Some(least)
            } else {
                Some(mono)
            }
        }
        None => Some(mono),
    }
}

/// Whether there is one number for each column.
#[tactic(auto, using(crate::proofs::Walks::walk))]
pub(crate) fn has_length(columns: &Columns<'_>, point: &[Ratio]) -> bool
    ensures { result ≡ (length point.now == length (columns_in columns.now)) }
{
    let mut last = None;
    for (place, _number) in point.iter().enumerate() {
        match next_column(columns, &last, place) {
            Some(column) => last = Some(column),
            None => return false,
        }
    }
    next_column(columns, &last, point.len()).is_none()
}

/// The columns of a case of rows with one more list of terms (an objective's, or none): their
/// monomials in print order, each once.
pub fn case_columns(
    alloc: Global,
    rows: &[Row],
    terms: &[(Mono, i128)],
) -> Result<Items<Mono>, AllocError>
    ensures { IfOk result (λ made. made ≡ columns rows.now terms.now) }
{
    column_list(alloc, &Columns::of(ColumnSource::OfCase(rows, terms)))
}

/// The columns that each case of a stratum question has: those of all cases and of the lower terms.
pub fn stratum_columns(alloc: Global, stratum: &Stratum) -> Result<Items<Mono>, AllocError>
    ensures { IfOk result (λ made. made ≡ stratum_columns stratum.now.cases stratum.now.lower) }
{
    let source = ColumnSource::OfStratum(stratum.cases(), stratum.lower());
    column_list(alloc, &Columns::of(source))
}

/// Columns as a list.
#[tactic(auto, using(crate::proofs::Walks::walk))]
fn column_list(alloc: Global, columns: &Columns<'_>) -> Result<Items<Mono>, AllocError>
    ensures { IfOk result (λ made. made ≡ columns_in columns.now) }
{
    let mut last = None;
    let mut place = 0;
    let mut made = Items::new(alloc);
    while let Some(column) = next_column(columns, &last, place) {
        made.push(column)?;
        last = Some(column);
        place = place.saturating_add(1);
    }
    Ok(made)
}
