ghost use Rattle.std.specs.Prelude.{◌≡◌, [], ◌∷◌, ◌++◌, IfOk};
ghost use Rattle.items.specs.Gives.{Gives};
ghost use Rattle.cones.specs.Cones.{AreWide};
ghost use Rattle.cones.specs.InBits as in_bits;
ghost use Rattle.cones.specs.Refusal.{cause};

use crate::ConeStop;
use crate::projecting::{Cleared, clearing};
use crate::stop::step_product;
use crate::vectors::are_at_most;
use items::Items;
use std::alloc::{AllocError, Global};
use whole_numbers::Wide;

/// The vectors of the cone that are found from a basis: of the lines that are left each is made 0,
/// or is passed over, until one vector is left.
pub fn extremes(
    alloc: Global,
    lines: &[Items<i128>],
    rest: &[Items<i128>],
    basis: &[Items<i128>],
    count: usize,
) -> Result<Items<Items<i128>>, ConeStop>
    requires rest { AreWide count rest.now }
    requires basis { AreWide count basis.now }
    ensures { Gives cause (λ made. made) result (in_bits.extremes lines.now rest.now basis.now) }
{
    let [line, more @ ..] = rest else {
        return at_end(alloc, lines, basis);
    };
    match basis {
        [] => Ok(Items::new(alloc)),
        [w] => ends(alloc, lines, w.as_slice()),
        [_first, _second, ..] => {
            let left = clearing(alloc, line.as_slice(), basis)?;
            let taken = match left {
                Cleared::Kept => Items::new(alloc),
                Cleared::Given(_pivot, vectors) => {
                    extremes(alloc, lines, more, vectors.as_slice(), count)?
                }
            };
            let passed = extremes(alloc, lines, more, basis, count)?;
            Ok(concatenation(taken, passed)?)
        }
    }
}

fn at_end(
    alloc: Global,
    lines: &[Items<i128>],
    basis: &[Items<i128>],
) -> Result<Items<Items<i128>>, ConeStop>
    ensures { Gives cause (λ made. made) result (in_bits.at_end lines.now basis.now) }
{
    match basis {
        [w] => ends(alloc, lines, w.as_slice()),
        _ => Ok(Items::new(alloc)),
    }
}

/// The vector or its opposite, where it lies in the cone.
fn ends(alloc: Global, lines: &[Items<i128>], w: &[i128]) -> Result<Items<Items<i128>>, ConeStop>
    ensures { Gives cause (λ made. made) result (in_bits.ends lines.now w.now) }
{
    let along = are_at_most(lines, w)?;
    if along {
        let vector = Items::from_slice(alloc, w)?;
        return Ok(alone(alloc, vector)?);
    }
    let vector = opposite(alloc, w)?;
    let against = are_at_most(lines, vector.as_slice())?;
    if against {
        return Ok(alone(alloc, vector)?);
    }
    Ok(Items::new(alloc))
}

fn alone(alloc: Global, vector: Items<i128>) -> Result<Items<Items<i128>>, AllocError>
    ensures { IfOk result (λ made. made ≡ vector ∷ []) }
{
    let mut made = Items::new(alloc);
    made.push(vector)?;
    Ok(made)
}

/// Each number with its sign turned.
pub fn opposite(alloc: Global, numbers: &[i128]) -> Result<Items<i128>, ConeStop>
    ensures { Gives cause (λ made. made) result (in_bits.opposite numbers.now) }
{
    let mut made = Items::from_vec(Vec::with_capacity(alloc, numbers.len())?);
    for number in numbers {
        made.push(opposite_number(number)?)?;
    }
    Ok(made)
}

pub(crate) fn opposite_number(number: &i128) -> Result<i128, Wide>
    ensures { result ≡ in_bits.opposite_number number.now }
{
    step_product(number, &-1)
}

fn concatenation(
    first: Items<Items<i128>>,
    second: Items<Items<i128>>,
) -> Result<Items<Items<i128>>, AllocError>
    ensures { IfOk result (λ made. made ≡ first ++ second) }
{
    let mut made = first;
    for v in second {
        made.push(v)?;
    }
    Ok(made)
}
