ghost use Rattle.std.specs.Prelude.{◌≡◌, length, IfOk};
ghost use Rattle.items.specs.Gives.{Gives};
ghost use Rattle.farkas_check.specs.Relations.{entry};
ghost use Rattle.cones.specs.InBits.{all_of};
ghost use Rattle.cones.specs.Refusal.{cause};
ghost use Rattle.facet_hull.specs.InBits as in_bits;

use crate::case_cone::{CaseCone, case_cone};
use crate::lines::{alone, both_signs, columns_of, line_of};
use cones::{ConeStop, Point, dot, lowest};
use farkas_check::Change;
use items::Items;
use linear_terms::{Mono, Poly};
use std::alloc::{AllocError, Global};

/// The points and rays of the changes of a body.
#[derive(Drop)]
pub(crate) struct Images {
    pub(crate) points: Items<Point>,
    pub(crate) rays: Items<Items<i128>>,
}

/// The points and rays of all cases.
pub(crate) fn images_of(alloc: Global, cases: &[Change]) -> Result<Images, ConeStop>
    ensures { Gives cause (λ made. made) result (in_bits.images_of cases.now) }
{
    let [case, others @ ..] = cases else {
        let points = Items::new(alloc);
        let rays = Items::new(alloc);
        return Ok(Images { points, rays });
    };
    let columns = columns_of(alloc, case)?;
    let own = images_in(alloc, columns.as_slice(), case)?;
    let more = images_of(alloc, others)?;
    Ok(both_images(own, more)?)
}

fn both_images(own: Images, more: Images) -> Result<Images, AllocError>
    ensures { IfOk result (λ made. made ≡ in_bits.both_images own more) }
{
    let Images {
        mut points,
        mut rays,
    } = own;
    points.append(more.points)?;
    rays.append(more.rays)?;
    Ok(Images { points, rays })
}

fn images_in(alloc: Global, columns: &[Mono], case: &Change) -> Result<Images, ConeStop>
    ensures { Gives cause (λ made. made) result (in_bits.images_in columns.now case.now) }
{
    let cone = case_cone(alloc, columns, case.rows.as_slice())?;
    images_from(alloc, columns, case.terms.as_slice(), &cone)
}

/// The points and rays of what the search found.
fn images_from(
    alloc: Global,
    columns: &[Mono],
    terms: &[Poly],
    cone: &CaseCone,
) -> Result<Images, ConeStop>
    ensures { Gives cause (λ made. made) result
        (in_bits.images_from columns.now terms.now cone.now) }
{
    let points = points_of(alloc, columns, terms, cone.extremes.as_slice())?;
    let rays = rays_from(alloc, points.as_slice(), columns, terms, cone)?;
    Ok(Images { points, rays })
}

/// Rays where there is a point that goes along them.
fn rays_from(
    alloc: Global,
    points: &[Point],
    columns: &[Mono],
    terms: &[Poly],
    cone: &CaseCone,
) -> Result<Items<Items<i128>>, ConeStop>
    ensures { Gives cause (λ made. made) result
        (in_bits.rays_from points.now (in_bits.all_rays columns.now terms.now cone.now)) }
{
    match points {
        [] => Ok(Items::new(alloc)),
        [_first, ..] => all_rays(alloc, columns, terms, cone),
    }
}

fn all_rays(
    alloc: Global,
    columns: &[Mono],
    terms: &[Poly],
    cone: &CaseCone,
) -> Result<Items<Items<i128>>, ConeStop>
    ensures { Gives cause (λ made. made) result
        (in_bits.all_rays columns.now terms.now cone.now) }
{
    let mut rays = rays_of(alloc, columns, terms, cone.extremes.as_slice())?;
    rays.append(ways_of(alloc, columns, terms, cone.flats.as_slice())?)?;
    Ok(rays)
}

/// The points of the corners among the vectors.
fn points_of(
    alloc: Global,
    columns: &[Mono],
    terms: &[Poly],
    vectors: &[Items<i128>],
) -> Result<Items<Point>, ConeStop>
    ensures { Gives cause (λ made. made) result
        (all_of (in_bits.point_of columns.now terms.now) vectors.now) }
{
    let mut points = Items::new(alloc);
    for v in vectors {
        points.append(point_of(alloc, columns, terms, v.as_slice())?)?;
    }
    Ok(points)
}

fn point_of(
    alloc: Global,
    columns: &[Mono],
    terms: &[Poly],
    v: &[i128],
) -> Result<Items<Point>, ConeStop>
    ensures { Gives cause (λ made. made) result (in_bits.point_of columns.now terms.now v.now) }
{
    let over = denominator(columns, v);
    let mut points = Items::new(alloc);
    if 0 < over {
        let numbers = image(alloc, columns, terms, v)?;
        points.push(Point { numbers, over })?;
    }
    Ok(points)
}

/// The rays of the other vectors.
fn rays_of(
    alloc: Global,
    columns: &[Mono],
    terms: &[Poly],
    vectors: &[Items<i128>],
) -> Result<Items<Items<i128>>, ConeStop>
    ensures { Gives cause (λ made. made) result
        (all_of (in_bits.ray_of columns.now terms.now) vectors.now) }
{
    let mut rays = Items::new(alloc);
    for v in vectors {
        rays.append(ray_of(alloc, columns, terms, v.as_slice())?)?;
    }
    Ok(rays)
}

fn ray_of(
    alloc: Global,
    columns: &[Mono],
    terms: &[Poly],
    v: &[i128],
) -> Result<Items<Items<i128>>, ConeStop>
    ensures { Gives cause (λ made. made) result (in_bits.ray_of columns.now terms.now v.now) }
{
    if 0 < denominator(columns, v) {
        return Ok(Items::new(alloc));
    }
    let numbers = image(alloc, columns, terms, v)?;
    let ray = lowest(alloc, numbers)?;
    Ok(alone(alloc, ray)?)
}

/// The rays of flat vectors, both ways.
fn ways_of(
    alloc: Global,
    columns: &[Mono],
    terms: &[Poly],
    vectors: &[Items<i128>],
) -> Result<Items<Items<i128>>, ConeStop>
    ensures { Gives cause (λ made. made) result
        (all_of (in_bits.line_ways columns.now terms.now) vectors.now) }
{
    let mut rays = Items::new(alloc);
    for v in vectors {
        rays.append(line_ways(alloc, columns, terms, v.as_slice())?)?;
    }
    Ok(rays)
}

fn line_ways(
    alloc: Global,
    columns: &[Mono],
    terms: &[Poly],
    v: &[i128],
) -> Result<Items<Items<i128>>, ConeStop>
    ensures { Gives cause (λ made. made) result (in_bits.line_ways columns.now terms.now v.now) }
{
    let numbers = image(alloc, columns, terms, v)?;
    let ray = lowest(alloc, numbers)?;
    both_signs(alloc, ray)
}

/// The number behind those at the columns; 0 where there is none.
fn denominator(columns: &[Mono], v: &[i128]) -> i128
    ensures { result ≡ entry v.now (length columns.now) }
{
    if columns.len() < v.len() {
        v[columns.len()]
    } else {
        0
    }
}

/// The value of each term on a vector, times the denominator.
fn image(
    alloc: Global,
    columns: &[Mono],
    terms: &[Poly],
    v: &[i128],
) -> Result<Items<i128>, ConeStop>
    ensures { Gives cause (λ made. made) result (in_bits.image columns.now terms.now v.now) }
{
    let mut made = Items::new(alloc);
    for term in terms {
        let line = line_of(alloc, columns, term)?;
        made.push(dot(line.as_slice(), v)?)?;
    }
    Ok(made)
}
