ghost use Rattle.std.specs.Prelude.{◌≡◌, ◌<◌, pos, int_div, map, drop, length, IfOk};
ghost use Rattle.whole_numbers.specs.Divisors.{gcd_of_all};
ghost use Rattle.farkas_check.specs.Multiples.{lowest_multipliers};
ghost use Rattle.cost_bounds.specs.Costs.{first_of, of_entries, scale_in};

use items::Items;
use linear_terms::Row;
use std::alloc::{AllocError, Global};
use whole_numbers::{gcd, quotient};

/// The multipliers divided by their greatest common divisor.
pub(crate) fn lowest_multipliers(alloc: Global, by: &[i128]) -> Result<Items<i128>, AllocError>
    ensures { IfOk result (λ made. made ≡ lowest_multipliers by.now) }
{
    let divisor = common_divisor(by).max(1);
    quotients(alloc, by, divisor)
}

fn common_divisor(by: &[i128]) -> u128
    ensures { result ≡ gcd_of_all by.now }
{
    let mut divisor = 0;
    for number in by {
        divisor = gcd(divisor, number.unsigned_abs());
    }
    divisor
}

fn quotients(alloc: Global, by: &[i128], divisor: u128) -> Result<Items<i128>, AllocError>
    requires { 0 < divisor }
    ensures { IfOk result (λ made. made ≡ map (λ m. int_div m (pos divisor)) by.now) }
{
    let mut made = Items::new(alloc);
    for number in by {
        made.push(quotient(*number, divisor))?;
    }
    Ok(made)
}

/// The multipliers behind so many.
fn behind(by: &[i128], count: usize) -> &[i128]
    ensures { result.now ≡ drop count by.now }
{
    if count <= by.len() { &by[count..] } else { &[] }
}

/// The multipliers behind those of the case's rows.
pub(crate) fn of_entries<'a>(rows: &[Row], by: &'a [i128]) -> &'a [i128]
    ensures { result.now ≡ of_entries rows.now by.now }
{
    behind(by, rows.len())
}

fn first_of(by: &[i128]) -> i128
    ensures { result ≡ first_of by.now }
{
    match by {
        [number, ..] => *number,
        [] => 0,
    }
}

/// The multiplier of the last row.
pub(crate) fn scale_in(rows: &[Row], entries: &[Row], by: &[i128]) -> i128
    ensures { result ≡ scale_in rows.now entries.now by.now }
{
    first_of(behind(of_entries(rows, by), entries.len()))
}
