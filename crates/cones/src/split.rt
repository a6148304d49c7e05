ghost use Rattle.std.specs.Prelude.{◌≡◌, ◌<◌, ◌-◌, pos, [], ◌∷◌, ◌++◌, IfOk, OnOk};
ghost use Rattle.std.specs.List.{cons_option};
ghost use Rattle.items.specs.Gives.{Gives};
ghost use Rattle.cones.specs.Cones.{AreWide};
ghost use Rattle.cones.specs.InBits as in_bits;
ghost use Rattle.cones.specs.Refusal.{cause};
ghost use Rattle.cones.specs.Split.{zeros, units, remainder};

use crate::ConeStop;
use crate::projecting::{Cleared, clearing};
use crate::vectors::dot;
use items::Items;
use std::alloc::{AllocError, Global};
use whole_numbers::Wide;

/// The vectors of so many numbers on which all lines are 0: what is left of the units where each
/// line is made 0, one after another.
#[tactic(auto, using(crate::proofs::Making::widths))]
pub fn flat(
    alloc: Global,
    lines: &[Items<i128>],
    count: usize,
) -> Result<Items<Items<i128>>, ConeStop>
    requires { AreWide count lines.now }
    ensures { Gives cause (λ made. made) result (in_bits.flat lines.now count) }
{
    let units = units(alloc, count)?;
    clearing_by_all(alloc, lines, units, count)
}

/// A basis of the rest: the vectors on which the pivots of flat ones are 0.
#[tactic(auto, using(crate::proofs::Making::widths))]
pub fn rest_basis(
    alloc: Global,
    vectors: &[Items<i128>],
    count: usize,
) -> Result<Items<Items<i128>>, ConeStop>
    ensures { Gives cause (λ made. made) result (in_bits.rest_basis vectors.now count) }
{
    let units = units(alloc, count)?;
    let pivots = pivots(alloc, units.as_slice(), vectors)?;
    clearing_by_all(alloc, pivots.as_slice(), units, count)
}

/// What is left of a basis where each line is made 0, one after another.
#[tactic(auto, using(crate::proofs::Making::widths))]
fn clearing_by_all(
    alloc: Global,
    lines: &[Items<i128>],
    basis: Items<Items<i128>>,
    count: usize,
) -> Result<Items<Items<i128>>, ConeStop>
    requires lines { AreWide count lines.now }
    requires basis { AreWide count basis }
    ensures { Gives cause (λ made. made) result (in_bits.clearing_by_all lines.now basis) }
{
    let [line, more @ ..] = lines else {
        return Ok(basis);
    };
    let made = clearing(alloc, line.as_slice(), basis.as_slice())?;
    let left = remainder(basis, made);
    clearing_by_all(alloc, more, left, count)
}

/// The vectors of a basis that are left by clearing.
fn remainder(basis: Items<Items<i128>>, made: Cleared) -> Items<Items<i128>>
    ensures { result ≡ remainder basis made }
{
    match made {
        Cleared::Kept => basis,
        Cleared::Given(_pivot, rest) => rest,
    }
}

/// One vector for each of so many places: 1 there, and 0 elsewhere.
#[tactic(auto, using(crate::proofs::Units::unit_steps))]
fn units(alloc: Global, count: usize) -> Result<Items<Items<i128>>, AllocError>
    ensures { IfOk result (λ made. made ≡ units count) }
{
    let mut made = Items::new(alloc);
    for place in 0..count {
        made.push(unit(alloc, place, count)?)?;
    }
    Ok(made)
}

fn unit(alloc: Global, place: usize, count: usize) -> Result<Items<i128>, AllocError>
    requires { place < count }
    ensures { IfOk result (λ made. made ≡ zeros place ++ pos 1 ∷ zeros (count - place - 1)) }
{
    let mut made = Items::new(alloc);
    push_zeros(&mut made, place)?;
    made.push(1)?;
    push_zeros(&mut made, count - place - 1)?;
    Ok(made)
}

#[tactic(auto, using(crate::proofs::Units::unit_steps))]
fn push_zeros(made: &mut Items<i128>, count: usize) -> Result<(), AllocError>
    ensures { OnOk result (made.new ≡ made.old ++ zeros count) }
{
    for _place in 0..count {
        made.push(0)?;
    }
    Ok(())
}

/// For each vector the first of the lines that is not 0 on it, and is 0 on all others, if there is
/// one.
#[tactic(auto, using(crate::proofs::Making::pivoting))]
pub fn pivots(
    alloc: Global,
    lines: &[Items<i128>],
    vectors: &[Items<i128>],
) -> Result<Items<Items<i128>>, ConeStop>
    ensures { Gives cause (λ made. made) result (in_bits.pivots lines.now vectors.now) }
{
    let mut made = Items::new(alloc);
    for (place, v) in vectors.iter().enumerate() {
        let found = pivot(
            alloc,
            lines,
            v.as_slice(),
            &vectors[..place],
            &vectors[place + 1..],
        )?;
        push_some(&mut made, found)?;
    }
    Ok(made)
}

fn push_some(vectors: &mut Items<Items<i128>>, found: Option<Items<i128>>) -> Result<(), AllocError>
    ensures { OnOk result (vectors.new ≡ vectors.old ++ cons_option found []) }
{
    if let Some(vector) = found {
        vectors.push(vector)?;
    }
    Ok(())
}

/// The first line that is not 0 on a vector, and is 0 on those before it and behind it.
fn pivot(
    alloc: Global,
    lines: &[Items<i128>],
    v: &[i128],
    before: &[Items<i128>],
    behind: &[Items<i128>],
) -> Result<Option<Items<i128>>, ConeStop>
    ensures { Gives cause (λ made. made) result (in_bits.first_of (in_bits.is_pivot v.now before.now behind.now) lines.now) }
{
    let [line, more @ ..] = lines else {
        return Ok(None);
    };
    if is_pivot(line.as_slice(), v, before, behind)? {
        let line = Items::from_slice(alloc, line.as_slice())?;
        return Ok(Some(line));
    }
    pivot(alloc, more, v, before, behind)
}

fn is_pivot(
    line: &[i128],
    v: &[i128],
    before: &[Items<i128>],
    behind: &[Items<i128>],
) -> Result<bool, Wide>
    ensures { result ≡ in_bits.is_pivot v.now before.now behind.now line.now }
{
    let value = dot(line, v)?;
    if value == 0 {
        return Ok(false);
    }
    let zero_before = is_zero_on(line, before)?;
    if !zero_before {
        return Ok(false);
    }
    is_zero_on(line, behind)
}

/// Whether a line is 0 on each vector.
fn is_zero_on(line: &[i128], vectors: &[Items<i128>]) -> Result<bool, Wide>
    ensures { result ≡ in_bits.is_zero_on line.now vectors.now }
{
    let [v, more @ ..] = vectors else {
        return Ok(true);
    };
    let value = dot(line, v.as_slice())?;
    if value == 0 {
        is_zero_on(line, more)
    } else {
        Ok(false)
    }
}
