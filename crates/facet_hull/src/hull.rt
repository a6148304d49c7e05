ghost use Rattle.std.specs.Prelude.{◌≡◌, length, IfOk, IfErr};
ghost use Rattle.items.specs.Gives.{Gives};
ghost use Rattle.farkas_check.specs.Relations.{term_count};
ghost use Rattle.cones.specs.Cones.{AreWide};
ghost use Rattle.cones.specs.InBits.{all_of};
ghost use Rattle.cones.specs.Refusal.{cause, IsRefusal};
ghost use Rattle.cones.specs.Tangents.{ArePoints};
ghost use Rattle.facet_hull.specs.Changes.{HasChange};
ghost use Rattle.facet_hull.specs.Hull.{IsHull};
ghost use Rattle.facet_hull.specs.InBits as in_bits;
ghost use Rattle.facet_hull.specs.Normals.{normals};

use crate::images::images_of;
use crate::lines::both_signs;
use cones::{ConeStop, Point, directions, facets, flat, rest_basis};
use farkas_check::{Change, Stratum, canonical_stratum};
use items::Items;
use std::alloc::Global;

/// The normals of the hull of the changes of a body: of the cases of a question that has no lower
/// terms.
pub fn normals(alloc: Global, body: &Stratum) -> Result<Items<Items<i128>>, ConeStop>
    ensures stated { Gives cause (λ made. made) result (in_bits.normals body.now.cases) }
    ensures value { IfOk result (λ made. made ≡ normals body.now.cases) }
    ensures hull { IfOk result
        (λ made. HasChange body.now.cases
        → IsHull (term_count body.now.cases) body.now.cases made) }
    ensures refusal { IfErr result IsRefusal }
{
    canonical_stratum(body);
    stated_normals(alloc, body)
}

/// The same without what the normals say of the changes.
#[tactic(auto, using(crate::proofs::Making::lengths))]
fn stated_normals(alloc: Global, body: &Stratum) -> Result<Items<Items<i128>>, ConeStop>
    ensures { Gives cause (λ made. made) result (in_bits.normals body.now.cases) }
{
    let images = images_of(alloc, body.cases())?;
    normals_at(
        alloc,
        term_count(body.cases()),
        images.points.as_slice(),
        images.rays.as_slice(),
    )
}

/// How many terms each case has; none without cases.
fn term_count(cases: &[Change]) -> usize
    ensures { result ≡ term_count cases.now }
{
    match cases {
        [case, ..] => case.terms.len(),
        [] => 0,
    }
}

/// The normals of points and rays; without a point there are none.
fn normals_at(
    alloc: Global,
    count: usize,
    points: &[Point],
    rays: &[Items<i128>],
) -> Result<Items<Items<i128>>, ConeStop>
    requires points { ArePoints count points.now }
    requires rays { AreWide count rays.now }
    ensures { Gives cause (λ made. made) result (in_bits.normals_at count points.now rays.now) }
{
    let [first, ..] = points else {
        return Ok(Items::new(alloc));
    };
    let equations = equations_from(alloc, first, count, points, rays)?;
    normals_beside(alloc, equations.as_slice(), count, points, rays)
}

/// The forms that are 0 on all directions from a point.
#[tactic(auto, using(crate::proofs::Making::lengths))]
fn equations_from(
    alloc: Global,
    first: &Point,
    count: usize,
    points: &[Point],
    rays: &[Items<i128>],
) -> Result<Items<Items<i128>>, ConeStop>
    requires first { length first.now.numbers ≡ count }
    requires points { ArePoints count points.now }
    requires rays { AreWide count rays.now }
    ensures { Gives cause (λ made. made) result
        (in_bits.equations_from first.now count points.now rays.now) }
{
    let lines = directions(alloc, points, rays, first, count)?;
    flat(alloc, lines.as_slice(), count)
}

/// The equations with both signs, and the facets beside them.
#[tactic(auto, using(crate::proofs::Making::lengths))]
fn normals_beside(
    alloc: Global,
    equations: &[Items<i128>],
    count: usize,
    points: &[Point],
    rays: &[Items<i128>],
) -> Result<Items<Items<i128>>, ConeStop>
    requires points { ArePoints count points.now }
    requires rays { AreWide count rays.now }
    ensures { Gives cause (λ made. made) result
        (in_bits.normals_beside equations.now count points.now rays.now) }
{
    let mut made = signed_forms(alloc, equations)?;
    let basis = rest_basis(alloc, equations, count)?;
    made.append(facets(alloc, basis.as_slice(), points, rays, count)?)?;
    Ok(made)
}

/// Each form with both signs.
fn signed_forms(alloc: Global, forms: &[Items<i128>]) -> Result<Items<Items<i128>>, ConeStop>
    ensures { Gives cause (λ made. made) result (all_of in_bits.both_signs forms.now) }
{
    let mut made = Items::new(alloc);
    for form in forms {
        let copy = Items::from_slice(alloc, form.as_slice())?;
        made.append(both_signs(alloc, copy)?)?;
    }
    Ok(made)
}
