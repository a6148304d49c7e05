ghost use Rattle.std.specs.Prelude.{◌≡◌, ◌<ℤ◌, pos, int_div, IfOk, IfErr};
ghost use Rattle.whole_numbers.specs.Fits.{product_of};
ghost use Rattle.items.specs.Gives.{Gives};
ghost use Rattle.farkas_check.specs.Points.{ratio_at, value_from, ratio_value};
ghost use Rattle.farkas_check.specs.Ratios.{whole, ratio_sum};
ghost use Rattle.simplex.specs.Exchange.{cause};
ghost use Rattle.simplex.specs.Refusal.{LeavesBits, IsRefusal};
ghost use Rattle.simplex.specs.Spots.{common_denominator, denominator_from, numerators_over, sums_of};

use crate::SearchStop;
use crate::steps::step_product;
use farkas_check::{Ratio, common_multiple};
use items::Items;
use linear_terms::{Mono, Poly};
use std::alloc::Global;
use whole_numbers::Wide;

/// The number that a point has at a column; 0 where it has none.
fn ratio_at(columns: &[Mono], point: &[Ratio], column: &Mono) -> Ratio
    ensures { result ≡ ratio_at columns.now point.now column.now }
{
    let mut columns = columns;
    let mut point = point;
    while let Some((own, more_columns)) = columns.split_first()
        && let Some((number, more_numbers)) = point.split_first()
    {
        if *own == *column {
            return *number;
        }
        columns = more_columns;
        point = more_numbers;
    }
    Ratio::whole(0)
}

/// The value of a polynomial at a point.
pub(crate) fn value_at(columns: &[Mono], point: &[Ratio], poly: &Poly) -> Result<Ratio, Wide>
    ensures value { result ≡ ratio_value (ratio_at columns.now point.now) poly.now }
    ensures width { IfErr result LeavesBits }
{
    let value = poly_value(columns, point, poly)?;
    Ok(value)
}

fn poly_value(columns: &[Mono], point: &[Ratio], poly: &Poly) -> Result<Ratio, Wide>
    ensures { result ≡ ratio_value (ratio_at columns.now point.now) poly.now }
{
    let terms = terms_value(columns, point, poly.terms())?;
    terms.sum(&Ratio::whole(poly.rest()))
}

fn terms_value(columns: &[Mono], point: &[Ratio], of: &[(Mono, i128)]) -> Result<Ratio, Wide>
    ensures { result ≡ value_from (ratio_at columns.now point.now) (whole (pos 0)) of.now }
{
    let mut total = Ratio::whole(0);
    for (mono, number) in of {
        let part = Ratio::whole(*number).product(&ratio_at(columns, point, mono))?;
        total = total.sum(&part)?;
    }
    Ok(total)
}

/// The sum of two ratios.
fn ratio_sum(left: &Ratio, right: &Ratio) -> Result<Ratio, Wide>
    ensures exact { result ≡ ratio_sum left.now right.now }
    ensures width { IfErr result LeavesBits }
{
    let made = left.sum(right)?;
    Ok(made)
}

/// The sums of two lists of ratios, place by place.
pub(crate) fn sums_of(
    alloc: Global,
    left: &[Ratio],
    right: &[Ratio],
) -> Result<Items<Ratio>, SearchStop>
    ensures exact { Gives cause (λ made. made) result (sums_of left.now right.now) }
    ensures refusal { IfErr result IsRefusal }
{
    let mut made = Items::new(alloc);
    let mut left = left;
    let mut right = right;
    while let Some((one, more_left)) = left.split_first()
        && let Some((other, more_right)) = right.split_first()
    {
        made.push(ratio_sum(one, other)?)?;
        left = more_left;
        right = more_right;
    }
    Ok(made)
}

/// The least common denominator of ratios.
pub fn common_denominator(values: &[Ratio]) -> Result<i128, Wide>
    ensures exact { result ≡ common_denominator values.now }
    ensures positive { IfOk result (λ common. pos 0 <ℤ common) }
    ensures width { IfErr result LeavesBits }
{
    let common = all_denominators(values)?;
    Ok(common)
}

fn all_denominators(values: &[Ratio]) -> Result<i128, Wide>
    ensures exact { result ≡ common_denominator values.now }
    ensures positive { IfOk result (λ common. pos 0 <ℤ common) }
{
    let mut common = 1;
    for value in values {
        common = common_multiple(common, value.den())?;
    }
    Ok(common)
}

/// The numerator of a ratio over a multiple of its denominator.
fn numerator_over(common: &i128, value: &Ratio) -> Result<i128, Wide>
    ensures exact { result ≡ product_of value.now.num (int_div common.now value.now.den) }
    ensures width { IfErr result LeavesBits }
{
    let den = value.den();
    step_product(&value.num(), &(*common / den))
}

/// The numerators of ratios over a common denominator.
pub fn numerators_over(
    alloc: Global,
    common: &i128,
    values: &[Ratio],
) -> Result<Items<i128>, SearchStop>
    ensures exact { Gives cause (λ made. made) result (numerators_over common.now values.now) }
    ensures refusal { IfErr result IsRefusal }
{
    let mut made = Items::new(alloc);
    for value in values {
        made.push(numerator_over(common, value)?)?;
    }
    Ok(made)
}
