ghost use Rattle.std.specs.Prelude.{◌≡◌, ◌&&◌, ◌==◌, [], ◌∷◌, pos, length, true, false, Ok};
ghost use Rattle.std.specs.List.{list_all, zip};
ghost use Rattle.farkas_check.specs.Listing.{columns_in};
ghost use Rattle.farkas_check.specs.Relations.{Term, Lower, One, sides, numbers_of, with_side, with_sides, coefficient_at, difference_numbers, difference_form, has_count, have_equally_many};
ghost use Rattle.farkas_check.specs.Steps.{sums_cancel, terms_from, lower_from, value_in, is_constant, scaled_number, are_multiples, with_half_constants};
ghost use Rattle.farkas_check.specs.Stratum.{all_of, tested_multiple, tested_half, tested_tie, tested_relation, has_unknowns};

use crate::columns::next_column;
use crate::multiples::{are_multipliers, column_sum, constant_sum, is_same, sums_cancel};
use crate::search::coefficient;
use crate::source::Columns;
use crate::{Change, Relation, Tie};
use linear_terms::{Mono, Poly, Row};
use whole_numbers::{Wide, product, sum};

/// A place of a linear form.
#[derive(Clone, Copy)]
pub(crate) enum FormPlace {
    At(Mono),
    Constant,
}

/// Which half of a tie: the multiples of the rows give the difference times the scale, or minus
/// that.
#[derive(Clone, Copy)]
pub(crate) enum TieHalf {
    Up,
    Down,
}

/// A half of a tie: multiples of the rows, and the scale of the difference that they give.
#[derive(Clone, Copy)]
pub(crate) struct Multiples<'a> {
    half: TieHalf,
    scale: i128,
    by: &'a [i128],
}

fn value_in(place: &FormPlace, poly: &Poly) -> i128
    ensures { result ≡ value_in place.now poly.now }
{
    match place {
        FormPlace::At(column) => coefficient(poly.terms(), column),
        FormPlace::Constant => poly.rest(),
    }
}

/// A sum so far with a multiple of a term. The multiple 0 leaves it as it is.
#[tactic(auto, using(crate::proofs::Sums::zeros))]
fn with_term(total: &i128, number: &i128, place: &FormPlace, poly: &Poly) -> Result<i128, Wide>
    ensures { result ≡ with_side (value_in place.now) false total.now number.now (Term poly.now) }
{
    if *number == 0 {
        return Ok(*total);
    }
    let part = product(*number, value_in(place, poly))?;
    sum(*total, part)
}

/// A sum so far less a multiple of a lower term. The multiple 0 leaves it as it is.
#[tactic(auto, using(crate::proofs::Sums::zeros))]
fn less_lower(total: &i128, number: &i128, place: &FormPlace, poly: &Poly) -> Result<i128, Wide>
    ensures { result ≡ with_side (value_in place.now) false total.now number.now (Lower poly.now) }
{
    if *number == 0 {
        return Ok(*total);
    }
    let part = product(*number, value_in(place, poly))?;
    let less = product(part, -1)?;
    sum(*total, less)
}

/// A sum so far less a number, which stands in the constant alone.
fn less_constant(total: &i128, number: &i128, place: &FormPlace) -> Result<i128, Wide>
    ensures { result ≡ with_side (value_in place.now) (is_constant place.now) total.now number.now
        One }
{
    match place {
        FormPlace::At(_column) => Ok(*total),
        FormPlace::Constant => {
            let less = product(*number, -1)?;
            sum(*total, less)
        }
    }
}

fn with_terms(numbers: &[i128], terms: &[Poly], place: &FormPlace) -> Result<i128, Wide>
    requires { length numbers.now ≡ length terms.now }
    ensures { result ≡ terms_from (value_in place.now) (pos 0) numbers.now terms.now }
{
    let mut total = 0;
    for (i, term) in terms.iter().enumerate() {
        total = with_term(&total, &numbers[i], place, term)?;
    }
    Ok(total)
}

fn less_lowers(
    start: &i128,
    numbers: &[i128],
    lower: &[Poly],
    place: &FormPlace,
) -> Result<i128, Wide>
    requires { length numbers.now ≡ length lower.now }
    ensures { result ≡ lower_from (value_in place.now) start.now numbers.now lower.now }
{
    let mut total = *start;
    for (i, term) in lower.iter().enumerate() {
        total = less_lower(&total, &numbers[i], place, term)?;
    }
    Ok(total)
}

/// What the difference of a relation has at a place, or the first step that leaves 128 bits.
fn difference_at(
    relation: &Relation,
    terms: &[Poly],
    lower: &[Poly],
    place: &FormPlace,
) -> Result<i128, Wide>
    requires terms { length relation.now.a ≡ length terms.now }
    requires lower { length relation.now.b ≡ length lower.now }
    ensures { result ≡ with_sides (value_in place.now) (is_constant place.now) (pos 0)
        (numbers_of relation.now) (sides terms.now lower.now) }
{
    let terms_sum = with_terms(relation.a.as_slice(), terms, place)?;
    let both = less_lowers(&terms_sum, relation.b.as_slice(), lower, place)?;
    less_constant(&both, &relation.c, place)
}

fn scaled_number(half: TieHalf, scale: &i128, number: i128) -> Result<i128, Wide>
    ensures { result ≡ scaled_number half scale.now number }
{
    let part = product(*scale, number)?;
    match half {
        TieHalf::Up => Ok(part),
        TieHalf::Down => product(part, -1),
    }
}

/// What the difference has at a column.
fn difference_number(
    relation: &Relation,
    terms: &[Poly],
    lower: &[Poly],
    column: Mono,
) -> Result<i128, Wide>
    requires terms { length relation.now.a ≡ length terms.now }
    requires lower { length relation.now.b ≡ length lower.now }
    ensures { result ≡ with_sides (coefficient_at column) false (pos 0) (numbers_of relation.now)
        (sides terms.now lower.now) }
{
    difference_at(relation, terms, lower, &FormPlace::At(column))
}

/// Whether the difference is 0 at each column; every number is made.
#[tactic(auto, using(crate::proofs::Walks::walk))]
fn differences_cancel(
    relation: &Relation,
    terms: &[Poly],
    lower: &[Poly],
    columns: &Columns<'_>,
) -> Result<bool, Wide>
    requires terms { length relation.now.a ≡ length terms.now }
    requires lower { length relation.now.b ≡ length lower.now }
    ensures { result
        ≡ sums_cancel true
        (difference_numbers (numbers_of relation.now) (sides terms.now lower.now)
        (columns_in columns.now)) }
{
    let mut last = None;
    let mut place = 0;
    let mut cancel = true;
    while let Some(column) = next_column(columns, &last, place) {
        let number = difference_number(relation, terms, lower, column)?;
        cancel = cancel && number == 0;
        last = Some(column);
        place = place.saturating_add(1);
    }
    Ok(cancel)
}

/// Whether the sum of the multiples is a multiple of the difference at each column. The sum is made
/// first.
#[tactic(auto, using(crate::proofs::Walks::walk))]
fn are_multiples(
    relation: &Relation,
    case: &Change,
    lower: &[Poly],
    columns: &Columns<'_>,
    multiples: &Multiples<'_>,
) -> Result<bool, Wide>
    requires terms { length relation.now.a ≡ length case.now.terms }
    requires lower { length relation.now.b ≡ length lower.now }
    requires by { length multiples.now.by.now ≡ length case.now.rows }
    ensures { result ≡ are_multiples (scaled_number multiples.now.half multiples.now.scale) true
        case.now.rows multiples.now.by.now (numbers_of relation.now)
        (sides case.now.terms lower.now) (columns_in columns.now) }
{
    let mut last = None;
    let mut place = 0;
    let mut same = true;
    while let Some(column) = next_column(columns, &last, place) {
        let multiple = is_multiple_at(relation, case, lower, &column, multiples)?;
        same = same && multiple;
        last = Some(column);
        place = place.saturating_add(1);
    }
    Ok(same)
}

/// Whether the sum of the multiples is a multiple of the difference at a column.
fn is_multiple_at(
    relation: &Relation,
    case: &Change,
    lower: &[Poly],
    column: &Mono,
    multiples: &Multiples<'_>,
) -> Result<bool, Wide>
    requires terms { length relation.now.a ≡ length case.now.terms }
    requires lower { length relation.now.b ≡ length lower.now }
    requires by { length multiples.now.by.now ≡ length case.now.rows }
    ensures { result ≡ are_multiples (scaled_number multiples.now.half multiples.now.scale) true
        case.now.rows multiples.now.by.now (numbers_of relation.now)
        (sides case.now.terms lower.now) (column.now ∷ []) }
{
    let left = column_sum(case.rows.as_slice(), multiples.by, column)?;
    let own = difference_number(relation, case.terms.as_slice(), lower, *column)?;
    let right = scaled_number(multiples.half, &multiples.scale, own)?;
    Ok(left == right)
}

/// Whether the sum of the multiples is the scale, or minus the scale, times the difference. Where
/// no step at a column leaves 128 bits, the order of these steps does not matter.
fn tested_multiple(
    relation: &Relation,
    case: &Change,
    lower: &[Poly],
    columns: &Columns<'_>,
    multiples: &Multiples<'_>,
) -> Result<bool, Wide>
    requires terms { length relation.now.a ≡ length case.now.terms }
    requires lower { length relation.now.b ≡ length lower.now }
    requires by { length multiples.now.by.now ≡ length case.now.rows }
    ensures { result ≡ tested_multiple (scaled_number multiples.now.half multiples.now.scale)
        (columns_in columns.now) case.now.rows
        (difference_form (numbers_of relation.now) (sides case.now.terms lower.now)
        (columns_in columns.now)) multiples.now.by.now }
{
    match are_multiples(relation, case, lower, columns, multiples) {
        Ok(same) => with_half_constants(relation, case, lower, multiples, same),
        Err(_step) => tested_multiple_in_order(relation, case, lower, columns, multiples),
    }
}

/// Whether the constants of both sides agree, as other numbers do.
fn with_half_constants(
    relation: &Relation,
    case: &Change,
    lower: &[Poly],
    multiples: &Multiples<'_>,
    same: bool,
) -> Result<bool, Wide>
    requires terms { length relation.now.a ≡ length case.now.terms }
    requires lower { length relation.now.b ≡ length lower.now }
    requires by { length multiples.now.by.now ≡ length case.now.rows }
    ensures { result
        ≡ with_half_constants (scaled_number multiples.now.half multiples.now.scale) case.now.rows
        multiples.now.by.now (numbers_of relation.now) (sides case.now.terms lower.now) same }
{
    let left = constant_sum(case.rows.as_slice(), multiples.by)?;
    let own = difference_at(relation, case.terms.as_slice(), lower, &FormPlace::Constant)?;
    let right = scaled_number(multiples.half, &multiples.scale, own)?;
    Ok(is_same(same, &left, &right))
}

/// The same as `tested_multiple`, with every number of a side made before the first one of the
/// next.
fn tested_multiple_in_order(
    relation: &Relation,
    case: &Change,
    lower: &[Poly],
    columns: &Columns<'_>,
    multiples: &Multiples<'_>,
) -> Result<bool, Wide>
    requires terms { length relation.now.a ≡ length case.now.terms }
    requires lower { length relation.now.b ≡ length lower.now }
    requires by { length multiples.now.by.now ≡ length case.now.rows }
    ensures { result ≡ tested_multiple (scaled_number multiples.now.half multiples.now.scale)
        (columns_in columns.now) case.now.rows
        (difference_form (numbers_of relation.now) (sides case.now.terms lower.now)
        (columns_in columns.now)) multiples.now.by.now }
{
    let rows = case.rows.as_slice();
    let terms = case.terms.as_slice();
    sums_cancel(rows, columns, multiples.by)?;
    let left = constant_sum(rows, multiples.by)?;
    differences_cancel(relation, terms, lower, columns)?;
    let own = difference_at(relation, terms, lower, &FormPlace::Constant)?;
    let same = are_multiples(relation, case, lower, columns, multiples)?;
    let right = scaled_number(multiples.half, &multiples.scale, own)?;
    Ok(is_same(same, &left, &right))
}

fn tested_half(
    relation: &Relation,
    case: &Change,
    lower: &[Poly],
    columns: &Columns<'_>,
    multiples: &Multiples<'_>,
) -> Result<bool, Wide>
    requires terms { length relation.now.a ≡ length case.now.terms }
    requires lower { length relation.now.b ≡ length lower.now }
    ensures { result ≡ tested_half (scaled_number multiples.now.half) (columns_in columns.now)
        case.now.rows
        (difference_form (numbers_of relation.now) (sides case.now.terms lower.now)
        (columns_in columns.now)) multiples.now.scale multiples.now.by.now }
{
    if !are_multipliers(case.rows.as_slice(), multiples.by) {
        return Ok(false);
    }
    if multiples.scale < 1 {
        return Ok(false);
    }
    tested_multiple(relation, case, lower, columns, multiples)
}

/// Whether the multiples of the rows tie the difference of the relation to 0.
fn tested_tie(
    relation: &Relation,
    case: &Change,
    lower: &[Poly],
    columns: &Columns<'_>,
    tie: &Tie,
) -> Result<bool, Wide>
    requires terms { length relation.now.a ≡ length case.now.terms }
    requires lower { length relation.now.b ≡ length lower.now }
    ensures { result ≡ tested_tie (columns_in columns.now) lower.now (numbers_of relation.now)
        case.now tie.now }
{
    let up = Multiples {
        half: TieHalf::Up,
        scale: tie.up_scale,
        by: tie.up.as_slice(),
    };
    let down = Multiples {
        half: TieHalf::Down,
        scale: tie.down_scale,
        by: tie.down.as_slice(),
    };
    if !tested_half(relation, case, lower, columns, &up)? {
        return Ok(false);
    }
    tested_half(relation, case, lower, columns, &down)
}

fn tested_ties(
    relation: &Relation,
    cases: &[Change],
    lower: &[Poly],
    columns: &Columns<'_>,
    ties: &[Tie],
) -> Result<bool, Wide>
    requires terms { list_all (has_count (length relation.now.a)) cases.now ≡ true }
    requires lower { length relation.now.b ≡ length lower.now }
    requires ties { length ties.now ≡ length cases.now }
    ensures { result
        ≡ all_of (λ p. tested_tie (columns_in columns.now) lower.now (numbers_of relation.now) p.0
        p.1) (zip cases.now ties.now) }
{
    for (i, case) in cases.iter().enumerate() {
        if !tested_tie(relation, case, lower, columns, &ties[i])? {
            return Ok(false);
        }
    }
    Ok(true)
}

/// Whether each case has a tie of the relation.
#[tactic(auto, using(crate::proofs::Halves::counts))]
fn tested_relation(
    relation: &Relation,
    cases: &[Change],
    lower: &[Poly],
    columns: &Columns<'_>,
) -> Result<bool, Wide>
    requires even { have_equally_many cases.now ≡ true }
    requires counts { has_unknowns cases.now lower.now relation.now ≡ true }
    ensures { result ≡ tested_relation (columns_in columns.now) cases.now lower.now relation.now }
{
    let ties = relation.ties.as_slice();
    if ties.len() != cases.len() {
        return Ok(false);
    }
    tested_ties(relation, cases, lower, columns, ties)
}

/// Whether each relation is tied in each case.
pub(crate) fn tested_relations(
    relations: &[Relation],
    cases: &[Change],
    lower: &[Poly],
    columns: &Columns<'_>,
) -> Result<bool, Wide>
    requires even { have_equally_many cases.now ≡ true }
    requires counts { list_all (has_unknowns cases.now lower.now) relations.now ≡ true }
    ensures { result ≡ all_of (tested_relation (columns_in columns.now) cases.now lower.now)
        relations.now }
{
    for relation in relations {
        if !tested_relation(relation, cases, lower, columns)? {
            return Ok(false);
        }
    }
    Ok(true)
}
