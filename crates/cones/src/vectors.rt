ghost use Rattle.std.specs.Prelude.{◌≡◌, length};
ghost use Rattle.items.specs.Gives.{Gives};
ghost use Rattle.cones.specs.InBits as in_bits;
ghost use Rattle.cones.specs.Refusal.{cause};

use crate::ConeStop;
use crate::stop::{step_product, step_sum};
use items::Items;
use std::alloc::Global;
use whole_numbers::Wide;

/// The sum of the products of their numbers; what is missing is 0.
pub fn dot(line: &[i128], vector: &[i128]) -> Result<i128, Wide>
    ensures { result ≡ in_bits.dot line.now vector.now }
{
    let [x, xs @ ..] = line else {
        return Ok(0);
    };
    let [y, ys @ ..] = vector else {
        return Ok(0);
    };
    let part = step_product(x, y)?;
    let more = dot(xs, ys)?;
    step_sum(&part, &more)
}

/// So many times one vector and so many times another, of equally many numbers.
pub fn combination(
    alloc: Global,
    a: &i128,
    first: &[i128],
    b: &i128,
    second: &[i128],
) -> Result<Items<i128>, ConeStop>
    requires { length second.now ≡ length first.now }
    ensures { Gives cause (λ made. made) result (in_bits.combination a.now first.now b.now second.now) }
{
    let mut made = Items::from_vec(Vec::with_capacity(alloc, first.len())?);
    for (i, x) in first.iter().enumerate() {
        made.push(sum_of_products(a, x, b, &second[i])?)?;
    }
    Ok(made)
}

fn sum_of_products(a: &i128, x: &i128, b: &i128, y: &i128) -> Result<i128, Wide>
    ensures { result ≡ in_bits.sum_of_products a.now x.now b.now y.now }
{
    let left = step_product(a, x)?;
    let right = step_product(b, y)?;
    step_sum(&left, &right)
}

/// Whether each line is at most 0 on the vector.
pub fn are_at_most(lines: &[Items<i128>], vector: &[i128]) -> Result<bool, Wide>
    ensures { result ≡ in_bits.are_at_most lines.now vector.now }
{
    let [line, more @ ..] = lines else {
        return Ok(true);
    };
    let value = dot(line.as_slice(), vector)?;
    if value <= 0 {
        are_at_most(more, vector)
    } else {
        Ok(false)
    }
}
