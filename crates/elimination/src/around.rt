ghost use Rattle.std.specs.Prelude.{◌≡◌, ◌+◌, ◌<◌, ◌≤◌, ◌^◌, ℕ, ◌*ℤ◌, ◌<ℤ◌, pos, negsuc, ◌*◌, length, unsigned_abs, IfOk};
ghost use Rattle.std.specs.List.{AllByRecursion};
ghost use Rattle.farkas_check.specs.Ratios.{lowest_terms};
ghost use Rattle.farkas_check.specs.Relations.{entry};
ghost use Rattle.farkas_check.specs.Stratum.{rows_of};
ghost use Rattle.farkas_check.proofs.Walks.{IsOrdered};
ghost use Rattle.elimination.specs.Around.{IsSmallOver, AreAround, sum_of_all, constant_weight, column_weight, weight_at};
ghost use Rattle.elimination.specs.Moves.{IsSmallInner, moved_number, numbers_moved_from, spot_at, spots_to, weights_to};
ghost use Rattle.elimination.specs.Probes.{IsInner};

use crate::inner::Inner;
use farkas_check::{Change, Ratio, Spot};
use items::Items;
use linear_terms::Mono;
use std::alloc::{AllocError, Global};

/// The spots around an inner point of the rows of a case: the point, and for each column the point
/// moved along it.
pub(crate) fn spots_around(
    alloc: Global,
    columns: &[Mono],
    cases: &[Change],
    case: u32,
    inner: &Inner,
) -> Result<Items<Spot>, AllocError>
    requires few { length columns.now ≤ 3 }
    requires order { IsOrdered columns.now }
    requires here { case < length cases.now }
    requires rows { AllByRecursion (λ row. IsSmallOver columns.now row.poly)
        (rows_of cases.now case) }
    requires inner { IsInner columns.now (rows_of cases.now case) inner.now }
    ensures { IfOk result (AreAround columns.now cases.now case inner.now) }
{
    let _cases = cases;
    spots_to(alloc, case, inner, columns.len() + 1)
}

/// The first so many spots.
fn spots_to(
    alloc: Global,
    case: u32,
    inner: &Inner,
    count: usize,
) -> Result<Items<Spot>, AllocError>
    requires { IsSmallInner inner.now }
    ensures { IfOk result (λ spots. spots ≡ spots_to case inner.now count) }
{
    let mut spots = Items::new(alloc);
    for place in 0..count {
        spots.push(spot_at(alloc, case, inner, place)?)?;
    }
    Ok(spots)
}

/// The spot at a place: the inner point, or behind it the point moved along a column by a quarter
/// of 1 over its denominator.
fn spot_at(alloc: Global, case: u32, inner: &Inner, place: usize) -> Result<Spot, AllocError>
    requires { IsSmallInner inner.now }
    ensures { IfOk result (λ spot. spot ≡ spot_at case inner.now place) }
{
    let at = moved_numbers(alloc, inner.numbers.as_slice(), &inner.over, place)?;
    Ok(Spot { case, at })
}

/// The numbers of the spot at a place.
fn moved_numbers(
    alloc: Global,
    numbers: &[i128],
    over: &i128,
    place: usize,
) -> Result<Items<Ratio>, AllocError>
    requires few { length numbers.now ≤ 3 }
    requires positive { pos 0 <ℤ over.now }
    requires over_small { unsigned_abs over.now ≤ 20 ^ 5 }
    requires small { AllByRecursion (λ z. unsigned_abs z ≤ 20 ^ 5) numbers.now }
    ensures { IfOk result (λ made. made ≡ numbers_moved_from over.now place 0 numbers.now) }
{
    let mut made = Items::new(alloc);
    for (j, number) in numbers.iter().enumerate() {
        made.push(moved_ratio(number, over, j, place))?;
    }
    Ok(made)
}

/// One number of the spot at a place.
fn moved_ratio(number: &i128, over: &i128, j: usize, place: usize) -> Ratio
    requires few { j ≤ 3 }
    requires positive { pos 0 <ℤ over.now }
    requires over_small { unsigned_abs over.now ≤ 20 ^ 5 }
    requires small { unsigned_abs number.now ≤ 20 ^ 5 }
    ensures { result ≡ lowest_terms (moved_number place j number.now) (pos 4 *ℤ over.now) }
{
    Ratio::lowest(moved_number(number, j, place), four_times(over))
}

/// Four times a number.
fn four_times(number: &i128) -> i128
    requires { unsigned_abs number.now ≤ 20 ^ 5 }
    ensures { result ≡ pos 4 *ℤ number.now }
{
    4 * number
}

/// Four times the number of the j-th column, and one more in the spot that is moved along it.
fn moved_number(number: &i128, j: usize, place: usize) -> i128
    requires few { j ≤ 3 }
    requires small { unsigned_abs number.now ≤ 20 ^ 5 }
    ensures { result ≡ moved_number place j number.now }
{
    if place == j + 1 {
        return 4 * number + 1;
    }
    4 * number
}

/// The multiples of the spots around an inner point that a place takes.
pub(crate) fn weights(
    alloc: Global,
    columns: usize,
    inner: &Inner,
    place: usize,
) -> Result<Items<i128>, AllocError>
    requires few { columns ≤ 3 }
    requires each { length inner.now.numbers ≡ columns }
    requires within { place ≤ columns }
    requires positive { pos 0 <ℤ inner.now.over }
    requires over_small { unsigned_abs inner.now.over ≤ 20 ^ 5 }
    requires small { AllByRecursion (λ z. unsigned_abs z ≤ 20 ^ 5) inner.now.numbers }
    ensures { IfOk result
        (λ made. (length made ≡ columns + 1)
        × ((i : ℕ) → i < columns + 1 → entry made i ≡ weight_at columns inner.now place i)) }
{
    weights_to(alloc, columns, inner, place)
}

/// The same, one after another.
fn weights_to(
    alloc: Global,
    columns: usize,
    inner: &Inner,
    place: usize,
) -> Result<Items<i128>, AllocError>
    requires each { length inner.now.numbers ≡ columns }
    requires small { IsSmallInner inner.now }
    ensures { IfOk result (λ made. made ≡ weights_to columns inner.now place (columns + 1)) }
{
    let mut made = Items::new(alloc);
    for spot in 0..columns + 1 {
        made.push(weight_at(columns, inner, place, spot))?;
    }
    Ok(made)
}

/// The multiple of the spot at a place that a place of the case takes.
fn weight_at(columns: usize, inner: &Inner, place: usize, spot: usize) -> i128
    requires each { length inner.now.numbers ≡ columns }
    requires within { spot ≤ columns }
    requires small { IsSmallInner inner.now }
    ensures { result ≡ weight_at columns inner.now place spot }
{
    if place < columns {
        return column_weight(inner, place, spot);
    }
    constant_weight(inner, spot)
}

/// The multiple that a column takes.
#[tactic(auto, using(crate::proofs::AroundWeights::weight_steps))]
fn column_weight(inner: &Inner, own: usize, spot: usize) -> i128
    requires { IsSmallInner inner.now }
    ensures { result ≡ column_weight inner.now own spot }
{
    if spot == 0 {
        return -4 * inner.over;
    }
    if spot - 1 == own { 4 * inner.over } else { 0 }
}

/// The multiple that the constants take.
#[tactic(auto, using(crate::proofs::AroundWeights::weight_steps))]
fn constant_weight(inner: &Inner, spot: usize) -> i128
    requires small { IsSmallInner inner.now }
    requires within { spot ≤ length inner.now.numbers }
    ensures { result ≡ constant_weight inner.now spot }
{
    let numbers = inner.numbers.as_slice();
    if spot == 0 {
        return 1 + 4 * sum_of_all(numbers);
    }
    minus_four_times(&numbers[spot - 1])
}

/// Minus four times a number.
fn minus_four_times(number: &i128) -> i128
    requires { unsigned_abs number.now ≤ 20 ^ 5 }
    ensures { result ≡ negsuc 3 *ℤ number.now }
{
    -4 * number
}

/// The sum of all numbers.
fn sum_of_all(numbers: &[i128]) -> i128
    requires few { length numbers.now ≤ 3 }
    requires small { AllByRecursion (λ z. unsigned_abs z ≤ 20 ^ 5) numbers.now }
    ensures value { result ≡ sum_of_all numbers.now }
    ensures small { unsigned_abs result ≤ 3 * 20 ^ 5 }
{
    let mut total = 0;
    for number in numbers {
        total += number;
    }
    total
}
