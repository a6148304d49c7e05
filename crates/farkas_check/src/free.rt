ghost use Rattle.std.specs.Prelude.{◌≡◌, ◌<◌, ◌-◌, ◌^◌, length, map, pos, slice_get};
ghost use Rattle.farkas_check.specs.Points.{ratio_at, ratio_value};
ghost use Rattle.farkas_check.specs.Ratios.{whole};
ghost use Rattle.farkas_check.specs.Listing.{columns_in, side_in, lines_in};
ghost use Rattle.farkas_check.specs.Relations.{numbers_of, places, free_places};
ghost use Rattle.farkas_check.specs.Steps.{unless_pivot, count_with, is_free, part_with, units_from};
ghost use Rattle.farkas_check.specs.Stratum.{all_of, rows_of, terms_of, tested_spot, spots_from, minus_value, spot_side, unit_at, unit_test_at, tested_unit, tested_free};

use crate::columns::has_length;
use crate::lines::is_pivot;
use crate::points::{meets, ratio_value};
use crate::source::Columns;
use crate::{Change, Ratio, Relation, Spot};
use items::Items;
use linear_terms::{Poly, Row};
use whole_numbers::Wide;

/// The rows of the case at a place; none where there is none.
fn rows_of(cases: &[Change], place: usize) -> &[Row]
    ensures { result.now ≡ rows_of cases.now place }
{
    match cases.get(place) {
        Some(case) => case.rows.as_slice(),
        None => &[],
    }
}

/// The terms of the case at a place; none where there is none.
fn terms_of(cases: &[Change], place: usize) -> &[Poly]
    ensures { result.now ≡ terms_of cases.now place }
{
    match cases.get(place) {
        Some(case) => case.terms.as_slice(),
        None => &[],
    }
}

/// Whether a spot is a point of its case.
fn tested_spot(spot: &Spot, cases: &[Change], columns: &Columns<'_>) -> Result<bool, Wide>
    ensures { result ≡ tested_spot (columns_in columns.now) cases.now spot.now }
{
    let place = spot.case as usize;
    if cases.len() <= place {
        return Ok(false);
    }
    if !has_length(columns, spot.at.as_slice()) {
        return Ok(false);
    }
    meets(rows_of(cases, place), columns, spot.at.as_slice())
}

pub(crate) fn tested_spots(
    spots: &[Spot],
    cases: &[Change],
    columns: &Columns<'_>,
) -> Result<bool, Wide>
    ensures { result ≡ all_of (tested_spot (columns_in columns.now) cases.now) spots.now }
{
    for spot in spots {
        if !tested_spot(spot, cases, columns)? {
            return Ok(false);
        }
    }
    Ok(true)
}

/// Minus the value of a polynomial at a point.
fn minus_value(columns: &Columns<'_>, point: &[Ratio], poly: &Poly) -> Result<Ratio, Wide>
    ensures { result ≡ minus_value (ratio_value (ratio_at (columns_in columns.now) point.now))
        poly.now }
{
    let value = ratio_value(columns, point, poly)?;
    value.product(&Ratio::whole(-1))
}

/// What the difference at a spot has at an unknown, or the first step that leaves 128 bits.
#[tactic(auto, using(crate::proofs::Unknowns::spot_side), unfolding(crate::specs::Stratum::spot_side))]
fn spot_side(
    spot: &Spot,
    cases: &[Change],
    lower: &[Poly],
    columns: &Columns<'_>,
    place: usize,
) -> Result<Ratio, Wide>
    ensures { result ≡ spot_side (columns_in columns.now) cases.now lower.now spot.now place }
{
    let terms = terms_of(cases, spot.case as usize);
    let at = spot.at.as_slice();
    if place < terms.len() {
        return ratio_value(columns, at, &terms[place]);
    }
    let rest = place - terms.len();
    if rest < lower.len() {
        return minus_value(columns, at, &lower[rest]);
    }
    if rest == lower.len() {
        Ok(Ratio::whole(-1))
    } else {
        Ok(Ratio::whole(0))
    }
}

/// What the numbers of the unknowns that are no pivot are tested against.
#[derive(Clone, Copy)]
pub(crate) struct Basis<'a> {
    pub(crate) relations: &'a [Relation],
    pub(crate) spots: &'a [Spot],
    pub(crate) cases: &'a [Change],
    pub(crate) lower: &'a [Poly],
    pub(crate) count: usize,
}

/// The sum of multiples of what the spots' differences have at an unknown.
fn spots_sum(
    basis: &Basis<'_>,
    columns: &Columns<'_>,
    place: usize,
    by: &[Ratio],
) -> Result<Ratio, Wide>
    requires { length by.now ≡ length basis.now.spots.now }
    ensures { result
        ≡ spots_from (λ spot. spot_side (columns_in columns.now) basis.now.cases.now
        basis.now.lower.now spot place) (whole (pos 0)) basis.now.spots.now by.now }
{
    let mut total = Ratio::whole(0);
    for (i, spot) in basis.spots.iter().enumerate() {
        let number = by[i];
        let value = spot_side(spot, basis.cases, basis.lower, columns, place)?;
        let part = value.product(&number)?;
        total = total.sum(&part)?;
    }
    Ok(total)
}

/// Whether that sum is what a unit at a place has at an unknown.
fn unit_test_at(
    basis: &Basis<'_>,
    columns: &Columns<'_>,
    place: usize,
    by: &[Ratio],
    other: usize,
) -> Result<bool, Wide>
    requires { length by.now ≡ length basis.now.spots.now }
    ensures { result ≡ unit_test_at (side_in basis.now columns.now) basis.now.spots.now place by.now
        other }
{
    let total = spots_sum(basis, columns, other, by)?;
    total.is_exactly(unit_at(place, other))
}

fn unit_at(place: usize, other: usize) -> i128
    ensures { result ≡ unit_at place other }
{
    if other == place { 1 } else { 0 }
}

/// The same, unless the unknown is a pivot.
fn unless_pivot(
    basis: &Basis<'_>,
    columns: &Columns<'_>,
    place: usize,
    by: &[Ratio],
    other: usize,
) -> Result<bool, Wide>
    requires { length by.now ≡ length basis.now.spots.now }
    ensures { result ≡ unless_pivot (lines_in basis.now)
        (unit_test_at (side_in basis.now columns.now) basis.now.spots.now place by.now) other }
{
    if is_pivot(basis.relations, other) {
        return Ok(true);
    }
    unit_test_at(basis, columns, place, by, other)
}

/// Whether the sums are a unit at a place, over all unknowns.
#[tactic(auto, using(crate::proofs::Unknowns::walk_places))]
fn tested_each(
    basis: &Basis<'_>,
    columns: &Columns<'_>,
    place: usize,
    by: &[Ratio],
) -> Result<bool, Wide>
    requires { length by.now ≡ length basis.now.spots.now }
    ensures { result
        ≡ all_of (unless_pivot (lines_in basis.now)
        (unit_test_at (side_in basis.now columns.now) basis.now.spots.now place by.now))
        (places basis.now.count) }
{
    for other in 0..basis.count {
        if !unless_pivot(basis, columns, place, by, other)? {
            return Ok(false);
        }
    }
    Ok(true)
}

#[tactic(auto, using(crate::proofs::Unknowns::free_ones))]
fn tested_unit(
    basis: &Basis<'_>,
    columns: &Columns<'_>,
    place: usize,
    by: &[Ratio],
) -> Result<bool, Wide>
    ensures { result ≡ tested_unit (side_in basis.now columns.now) basis.now.spots.now
        (free_places (lines_in basis.now) basis.now.count) place by.now }
{
    if by.len() != basis.spots.len() {
        return Ok(false);
    }
    tested_each(basis, columns, place, by)
}

/// A count, with one more where something counts.
fn count_with(count: usize, counts: bool) -> usize
    requires { count < 2 ^ 64 - 1 }
    ensures { result ≡ count_with count counts }
{
    if counts { count + 1 } else { count }
}

fn is_free(relations: &[Relation], place: usize) -> bool
    ensures { result ≡ is_free (map numbers_of relations.now) place }
{
    !is_pivot(relations, place)
}

/// How many of the first `count` unknowns are no pivot.
#[tactic(auto, using(crate::proofs::Unknowns::walk_places, crate::proofs::Unknowns::free_ones))]
fn free_count(relations: &[Relation], count: usize) -> usize
    ensures { result ≡ length (free_places (map numbers_of relations.now) count) }
{
    let mut total = 0;
    for place in 0..count {
        total = count_with(total, is_free(relations, place));
    }
    total
}

/// The unit at a place by the numbers that stand next, where the place is free and numbers are
/// left.
fn part_with(
    basis: &Basis<'_>,
    columns: &Columns<'_>,
    place: usize,
    free: &[Items<Ratio>],
    next: usize,
) -> Result<bool, Wide>
    ensures { result ≡ part_with (is_free (lines_in basis.now) place)
        (tested_unit (side_in basis.now columns.now) basis.now.spots.now
        (free_places (lines_in basis.now) basis.now.count) place) (slice_get free.now next) }
{
    if !is_free(basis.relations, place) {
        return Ok(true);
    }
    if free.len() <= next {
        return Ok(true);
    }
    tested_unit(basis, columns, place, free[next].as_slice())
}

/// Whether the sums are a unit at each unknown that is no pivot.
#[tactic(auto, using(crate::proofs::Unknowns::walk_places))]
fn tested_units(
    basis: &Basis<'_>,
    columns: &Columns<'_>,
    free: &[Items<Ratio>],
) -> Result<bool, Wide>
    ensures { result ≡ units_from (lines_in basis.now)
        (tested_unit (side_in basis.now columns.now) basis.now.spots.now
        (free_places (lines_in basis.now) basis.now.count)) free.now 0 (places basis.now.count) }
{
    let mut next = 0;
    for place in 0..basis.count {
        if !part_with(basis, columns, place, free, next)? {
            return Ok(false);
        }
        next = count_with(next, is_free(basis.relations, place));
    }
    Ok(true)
}

/// Whether each unknown that is no pivot has numbers that make it a unit.
#[tactic(auto, using(crate::proofs::Unknowns::each_unit))]
pub(crate) fn tested_free(
    basis: &Basis<'_>,
    columns: &Columns<'_>,
    free: &[Items<Ratio>],
) -> Result<bool, Wide>
    ensures { result ≡ tested_free (side_in basis.now columns.now) basis.now.spots.now
        (free_places (lines_in basis.now) basis.now.count) free.now }
{
    if free.len() != free_count(basis.relations, basis.count) {
        return Ok(false);
    }
    tested_units(basis, columns, free)
}
