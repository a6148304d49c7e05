ghost use Rattle.std.specs.Prelude.{◌≡◌, length, fold, IfOk, OnOk};
ghost use Rattle.std.specs.BTreeSet.{insert_key};
ghost use Rattle.std.specs.Cmp.Lexicographic.{slice_cmp};
ghost use Rattle.std.specs.Ordering.{int_cmp};
ghost use Rattle.items.specs.Gives.{Gives};
ghost use Rattle.cones.specs.Cones.{AreWide};
ghost use Rattle.cones.specs.InBits as in_bits;
ghost use Rattle.cones.specs.Refusal.{cause};
ghost use Rattle.cones.specs.Tangents.{ArePoints};

use crate::projecting::{copies_of, lowest};
use crate::searching::{extremes, opposite_number};
use crate::vectors::combination;
use crate::{ConeStop, Point};
use items::Items;
use std::alloc::{AllocError, Global};
use std::collections::BTreeSet;

/// The facets through each of the points, in ascending order, each once.
#[tactic(auto, using(crate::proofs::Making::pointing))]
pub fn facets(
    alloc: Global,
    basis: &[Items<i128>],
    points: &[Point],
    rays: &[Items<i128>],
    count: usize,
) -> Result<Items<Items<i128>>, ConeStop>
    requires basis { AreWide count basis.now }
    requires points { ArePoints count points.now }
    requires rays { AreWide count rays.now }
    ensures { Gives cause (λ made. made) result (in_bits.facets basis.now points.now rays.now) }
{
    let mut found = BTreeSet::new(alloc);
    for point in points {
        let through = facets_at(alloc, basis, points, rays, point, count)?;
        add_vectors(&mut found, through)?;
    }
    Ok(keys_of(alloc, found)?)
}

/// The facets through a point.
#[tactic(auto, using(crate::proofs::Making::pointing))]
fn facets_at(
    alloc: Global,
    basis: &[Items<i128>],
    points: &[Point],
    rays: &[Items<i128>],
    point: &Point,
    count: usize,
) -> Result<Items<Items<i128>>, ConeStop>
    requires basis { AreWide count basis.now }
    requires points { ArePoints count points.now }
    requires rays { AreWide count rays.now }
    requires point { length point.now.numbers ≡ count }
    ensures { Gives cause (λ made. made) result (in_bits.facets_at basis.now points.now rays.now point.now) }
{
    let lines = directions(alloc, points, rays, point, count)?;
    extremes(alloc, lines.as_slice(), lines.as_slice(), basis, count)
}

/// The directions from a point: to each of the points, without common divisor, and the rays.
pub fn directions(
    alloc: Global,
    points: &[Point],
    rays: &[Items<i128>],
    point: &Point,
    count: usize,
) -> Result<Items<Items<i128>>, ConeStop>
    requires points { ArePoints count points.now }
    requires point { length point.now.numbers ≡ count }
    ensures { Gives cause (λ made. made) result (in_bits.directions points.now rays.now point.now) }
{
    let mut made = directions_to(alloc, points, point, count)?;
    let rays = copies_of(alloc, rays)?;
    made.append(rays)?;
    Ok(made)
}

#[tactic(auto, using(crate::proofs::Making::pointing))]
fn directions_to(
    alloc: Global,
    points: &[Point],
    point: &Point,
    count: usize,
) -> Result<Items<Items<i128>>, ConeStop>
    requires points { ArePoints count points.now }
    requires point { length point.now.numbers ≡ count }
    ensures { Gives cause (λ made. made) result (in_bits.each (in_bits.direction point.now) points.now) }
{
    let mut made = Items::new(alloc);
    for other in points {
        made.push(direction(alloc, point, other)?)?;
    }
    Ok(made)
}

fn direction(alloc: Global, p: &Point, q: &Point) -> Result<Items<i128>, ConeStop>
    requires { length p.now.numbers ≡ length q.now.numbers }
    ensures { Gives cause (λ made. made) result (in_bits.direction p.now q.now) }
{
    let made = difference(alloc, p, q)?;
    Ok(lowest(alloc, made)?)
}

/// From one point to another, times both denominators.
pub fn difference(alloc: Global, p: &Point, q: &Point) -> Result<Items<i128>, ConeStop>
    requires { length p.now.numbers ≡ length q.now.numbers }
    ensures { Gives cause (λ made. made) result (in_bits.difference p.now q.now) }
{
    let by = opposite_number(&q.over)?;
    combination(alloc, &p.over, &q.numbers, &by, &p.numbers)
}

fn add_vectors(
    found: &mut BTreeSet<Items<i128>>,
    vectors: Items<Items<i128>>,
) -> Result<(), AllocError>
    ensures { OnOk result
        (found.new.keys ≡ fold (insert_key (slice_cmp int_cmp)) found.old.keys vectors) }
{
    for vector in vectors {
        found.insert(vector)?;
    }
    Ok(())
}

/// The vectors of a set, in ascending order.
fn keys_of(alloc: Global, found: BTreeSet<Items<i128>>) -> Result<Items<Items<i128>>, AllocError>
    ensures { IfOk result (λ made. made ≡ found.keys) }
{
    let made: Vec<Items<i128>> = found.into_iter().collect(alloc)?;
    Ok(Items::from_vec(made))
}
