ghost use Rattle.std.specs.Prelude.{◌≡◌, pos, get_or};
ghost use Rattle.linear_terms.specs.Row.{is_within};
ghost use Rattle.farkas_check.specs.Ratios.{whole};
ghost use Rattle.farkas_check.specs.Listing.{columns_in};
ghost use Rattle.farkas_check.specs.Points.{ratio_at, value_from, slope_at, ratio_value, meets};

use crate::Ratio;
use crate::columns::{listed_place, next_column};
use crate::source::Columns;
use linear_terms::{Kind, Mono, Poly, Row};
use whole_numbers::Wide;

/// The number that a point has at a column, and the place of the column, from which the search for
/// the next one begins: the monomials of a polynomial stand in the same order as the columns.
#[tactic(auto, using(crate::proofs::Listing::listing))]
fn ratio_and_place(
    columns: &Columns<'_>,
    point: &[Ratio],
    start: usize,
    column: &Mono,
) -> (Ratio, usize)
    ensures { result.0 ≡ ratio_at (columns_in columns.now) point.now column.now }
{
    match listed_place(columns, start, column) {
        Some(place) => (number_at(point, place), place),
        None => (ratio_at(columns, point, column), start),
    }
}

/// The number at a place; zero past the last.
fn number_at(point: &[Ratio], place: usize) -> Ratio
    ensures { result ≡ get_or point.now place (whole (pos 0)) }
{
    if place < point.len() {
        point[place]
    } else {
        Ratio::whole(0)
    }
}

/// The number that a point has at a column, by a walk over the columns.
#[tactic(auto, using(crate::proofs::Walks::walk))]
fn ratio_at(columns: &Columns<'_>, point: &[Ratio], column: &Mono) -> Ratio
    ensures { result ≡ ratio_at (columns_in columns.now) point.now column.now }
{
    let mut last = None;
    for (place, number) in point.iter().enumerate() {
        match next_column(columns, &last, place) {
            Some(at) => {
                if at == *column {
                    return *number;
                }
                last = Some(at);
            }
            None => return Ratio::whole(0),
        }
    }
    Ratio::whole(0)
}

/// The value of terms at a point, or the first step that leaves 128 bits.
fn terms_value(columns: &Columns<'_>, point: &[Ratio], of: &[(Mono, i128)]) -> Result<Ratio, Wide>
    ensures { result ≡ value_from (ratio_at (columns_in columns.now) point.now) (whole (pos 0))
        of.now }
{
    let mut total = Ratio::whole(0);
    let mut place = 0;
    for (mono, number) in of {
        let (ratio, found) = ratio_and_place(columns, point, place, mono);
        total = total.with_multiple(number, &ratio)?;
        place = found;
    }
    Ok(total)
}

/// The value of a polynomial without its constant.
pub(crate) fn slope_at(columns: &Columns<'_>, point: &[Ratio], poly: &Poly) -> Result<Ratio, Wide>
    ensures { result ≡ slope_at (ratio_at (columns_in columns.now) point.now) poly.now }
{
    terms_value(columns, point, poly.terms())
}

/// The value of a polynomial.
pub(crate) fn ratio_value(
    columns: &Columns<'_>,
    point: &[Ratio],
    poly: &Poly,
) -> Result<Ratio, Wide>
    ensures { result ≡ ratio_value (ratio_at (columns_in columns.now) point.now) poly.now }
{
    let slope = slope_at(columns, point, poly)?;
    slope.sum(&Ratio::whole(poly.rest()))
}

/// Whether each row is true at a point.
pub(crate) fn meets(rows: &[Row], columns: &Columns<'_>, point: &[Ratio]) -> Result<bool, Wide>
    ensures { result ≡ meets (ratio_value (ratio_at (columns_in columns.now) point.now)) rows.now }
{
    for row in rows {
        let value = ratio_value(columns, point, &row.poly)?;
        if !is_within(row.kind, &value) {
            return Ok(false);
        }
    }
    Ok(true)
}

/// Whether each row without its constant is true on a ray.
pub(crate) fn meets_slopes(rows: &[Row], columns: &Columns<'_>, ray: &[Ratio]) -> Result<bool, Wide>
    ensures { result ≡ meets (slope_at (ratio_at (columns_in columns.now) ray.now)) rows.now }
{
    for row in rows {
        let value = slope_at(columns, ray, &row.poly)?;
        if !is_within(row.kind, &value) {
            return Ok(false);
        }
    }
    Ok(true)
}

fn is_within(kind: Kind, value: &Ratio) -> bool
    ensures { result ≡ is_within kind value.now.num }
{
    match kind {
        Kind::AtMost => value.num() <= 0,
        Kind::Equal => value.num() == 0,
    }
}
