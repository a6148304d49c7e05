ghost use Rattle.std.specs.Prelude.{◌≡◌, ◌<◌, pos, ◌∷◌, int_div, map, length, IfOk};
ghost use Rattle.items.specs.Gives.{Gives};
ghost use Rattle.whole_numbers.specs.Divisors.{gcd_of_all};
ghost use Rattle.cones.specs.Cones.{AreWide, IsWide, Kept};
ghost use Rattle.cones.specs.InBits as in_bits;
ghost use Rattle.cones.specs.Refusal.{cause};
ghost use Rattle.cones.specs.Vectors.{lowest};

use crate::ConeStop;
use crate::stop::step_product;
use crate::vectors::{combination, dot};
use items::Items;
use std::alloc::{AllocError, Global};
use whole_numbers::{Wide, gcd, quotient};

/// What is left of a basis where a line is made 0.
#[derive(Drop)]
pub enum Cleared {
    /// All of it, since the line is 0 there.
    Kept,
    /// The vector that is given up, and the rest.
    Given(Items<i128>, Items<Items<i128>>),
}

/// The numbers without their common divisor.
pub fn lowest(alloc: Global, numbers: Items<i128>) -> Result<Items<i128>, AllocError>
    ensures { IfOk result (λ v. v ≡ lowest numbers) }
{
    let divisor = divisor(numbers.as_slice());
    if divisor == 0 {
        return Ok(numbers);
    }
    quotients(alloc, numbers.as_slice(), divisor)
}

/// The greatest common divisor of the numbers.
fn divisor(numbers: &[i128]) -> u128
    ensures { result ≡ gcd_of_all numbers.now }
{
    let [z, zs @ ..] = numbers else {
        return 0;
    };
    let rest = divisor(zs);
    gcd(z.unsigned_abs(), rest)
}

fn quotients(alloc: Global, numbers: &[i128], divisor: u128) -> Result<Items<i128>, AllocError>
    requires { 0 < divisor }
    ensures { IfOk result (λ made. made ≡ map (λ z. int_div z (pos divisor)) numbers.now) }
{
    let mut made = Items::from_vec(Vec::with_capacity(alloc, numbers.len())?);
    for number in numbers {
        made.push(quotient(*number, divisor))?;
    }
    Ok(made)
}

/// The number without its sign.
fn magnitude(number: &i128) -> Result<i128, Wide>
    ensures { result ≡ in_bits.magnitude number.now }
{
    if *number < 0 {
        step_product(number, &-1)
    } else {
        Ok(*number)
    }
}

/// The opposite of a number, where the sign is not negative; else the number.
fn opposite_along(sign: &i128, number: &i128) -> Result<i128, Wide>
    ensures { result ≡ in_bits.opposite_along sign.now number.now }
{
    if *sign < 0 {
        Ok(*number)
    } else {
        step_product(number, &-1)
    }
}

/// The vector moved along the pivot to where the line is 0.
pub fn projection(
    alloc: Global,
    line: &[i128],
    pivot: &[i128],
    v: &[i128],
) -> Result<Items<i128>, ConeStop>
    requires { length pivot.now ≡ length v.now }
    ensures { Gives cause (λ made. made) result (in_bits.projection line.now pivot.now v.now) }
{
    let own = dot(line, pivot)?;
    let value = dot(line, v)?;
    let times = magnitude(&own)?;
    let by = opposite_along(&own, &value)?;
    let made = combination(alloc, &times, v, &by, pivot)?;
    Ok(lowest(alloc, made)?)
}

/// The last vector on which the line is not 0 is given up, and those before it are moved along it.
pub fn clearing(alloc: Global, line: &[i128], basis: &[Items<i128>]) -> Result<Cleared, ConeStop>
    requires wide { AreWide (length line.now) basis.now }
    ensures { Gives cause (λ made. made) result (in_bits.clearing line.now basis.now) }
{
    let [v, vs @ ..] = basis else {
        return Ok(Cleared::Kept);
    };
    let behind = clearing(alloc, line, vs)?;
    clearing_with(alloc, line, v.as_slice(), vs, behind)
}

fn clearing_with(
    alloc: Global,
    line: &[i128],
    v: &[i128],
    vs: &[Items<i128>],
    behind: Cleared,
) -> Result<Cleared, ConeStop>
    requires own { length v.now ≡ length line.now }
    requires behind { IsWide (length line.now) behind }
    ensures { Gives cause (λ made. made) result (in_bits.clearing_with line.now v.now vs.now behind) }
{
    match behind {
        Cleared::Kept => first_clearing(alloc, line, v, vs),
        Cleared::Given(pivot, rest) => {
            let made = projection(alloc, line, pivot.as_slice(), v)?;
            let rest = with_first(alloc, made, rest)?;
            Ok(Cleared::Given(pivot, rest))
        }
    }
}

/// The first vector is given up, unless the line is 0 there.
fn first_clearing(
    alloc: Global,
    line: &[i128],
    v: &[i128],
    vs: &[Items<i128>],
) -> Result<Cleared, ConeStop>
    ensures { Gives cause (λ made. made) result (in_bits.clearing_with line.now v.now vs.now Kept) }
{
    let value = dot(line, v)?;
    if value == 0 {
        return Ok(Cleared::Kept);
    }
    let pivot = Items::from_slice(alloc, v)?;
    let rest = copies_of(alloc, vs)?;
    Ok(Cleared::Given(pivot, rest))
}

/// Vectors behind another one.
fn with_first(
    alloc: Global,
    first: Items<i128>,
    rest: Items<Items<i128>>,
) -> Result<Items<Items<i128>>, AllocError>
    ensures { IfOk result (λ made. made ≡ first ∷ rest) }
{
    let mut made = Items::from_vec(Vec::with_capacity(alloc, rest.len())?);
    made.push(first)?;
    for v in rest {
        made.push(v)?;
    }
    Ok(made)
}

/// Vectors once more.
pub(crate) fn copies_of(
    alloc: Global,
    vectors: &[Items<i128>],
) -> Result<Items<Items<i128>>, AllocError>
    ensures { IfOk result (λ made. made ≡ vectors.now) }
{
    let mut made = Items::from_vec(Vec::with_capacity(alloc, vectors.len())?);
    for v in vectors {
        made.push(Items::from_slice(alloc, v.as_slice())?)?;
    }
    Ok(made)
}
