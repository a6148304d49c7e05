ghost use Rattle.std.specs.Prelude.{◌≡◌, ◌≢◌, ◌↔◌, ◌≤◌, ◌^◌, pos, [], ◌∷◌, length, take, unsigned_abs, All, IsTrue, IfOk};
ghost use Rattle.elimination.specs.Echelon.{width, IsSmallRatio, AreSmallRatios, IsReducedOf, OneReducedBasis};
ghost use Rattle.elimination.specs.Spaces.{IsSome, IsProper, IsSpaceOf, HasWidth, IsRatioOf, IsBasisOf};
ghost use Rattle.elimination.specs.declared.spaces.Space.TheVariants.{Line, Plane, Whole};

use crate::spaces::Space;
use crate::vectors::{Vector, cleared_row};
use farkas_check::Ratio;
use items::Items;
use std::alloc::{AllocError, Global};

/// The reduced row echelon basis of rows of equal lengths with at most three columns and small
/// numbers. The one error is want of memory.
pub fn reduced_basis(
    alloc: Global,
    rows: &[Items<Ratio>],
) -> Result<Items<Items<Ratio>>, AllocError>
    requires { AreSmallRatios rows.now }
    ensures { IfOk result (λ lines. IsReducedOf rows.now lines) }
{
    let space = span_of(rows);
    basis(alloc, &space, width(rows))
}

/// Rows have one reduced basis of numbers in lowest terms.
pub fn uniqueness_of_reduced()
    ensures { OneReducedBasis }
{}

/// Whether rows have equally many numbers, at most three, all of them small.
pub fn are_small_ratios(rows: &[Items<Ratio>]) -> bool
    ensures { IsTrue result ↔ AreSmallRatios rows.now }
{
    let width = width(rows);
    width <= 3 && rows.iter().all(|row| row.len() == width) && are_small_rows(rows)
}

fn are_small_rows(rows: &[Items<Ratio>]) -> bool
    ensures { IsTrue result ↔ All (All IsSmallRatio) rows.now }
{
    rows.iter().all(|row| is_small_row(row.as_slice()))
}

fn is_small_row(row: &[Ratio]) -> bool
    ensures { IsTrue result ↔ All IsSmallRatio row.now }
{
    row.iter().all(|ratio| is_small_ratio(ratio))
}

fn is_small_ratio(ratio: &Ratio) -> bool
    ensures { IsTrue result ↔ IsSmallRatio ratio.now }
{
    ratio.num().unsigned_abs() <= 64 && ratio.den().unsigned_abs() <= 64
}

/// How many numbers each row has.
fn width(rows: &[Items<Ratio>]) -> usize
    ensures { result ≡ width rows.now }
{
    match rows {
        [row, ..] => row.len(),
        [] => 0,
    }
}

/// What the rows span.
fn span_of(rows: &[Items<Ratio>]) -> Space
    requires { AreSmallRatios rows.now }
    ensures { IsSpaceOf rows.now result }
{
    let mut space = Space::Origin;
    for row in rows {
        space = space.with(&cleared_row(row.as_slice()));
    }
    space
}

/// The lines of a space's basis.
fn basis(alloc: Global, space: &Space, width: usize) -> Result<Items<Items<Ratio>>, AllocError>
    requires proper { IsProper space.now }
    requires width { HasWidth width space.now }
    requires few { width ≤ 3 }
    ensures { IfOk result (λ lines. IsBasisOf width space.now lines) }
{
    match space {
        Space::Origin => Ok(Items::new(alloc)),
        Space::Line(p) => basis_of_line(alloc, p, width),
        Space::Plane(n) => basis_of_plane(alloc, n, width),
        Space::Whole => units(alloc, width),
    }
}

/// The basis of the multiples of a vector: the vector over its first number that is not 0.
fn basis_of_line(alloc: Global, p: &Vector, width: usize) -> Result<Items<Items<Ratio>>, AllocError>
    requires proper { IsSome (2 ^ 18) p.now }
    requires width { HasWidth width (Line p.now) }
    requires few { width ≤ 3 }
    ensures { IfOk result (λ lines. IsBasisOf width (Line p.now) lines) }
{
    let (zero, one) = (Ratio::whole(0), Ratio::whole(1));
    if p.x != 0 {
        return one_line(alloc, &[one, ratio(&p.y, &p.x), ratio(&p.z, &p.x)], width);
    }
    if p.y != 0 {
        return one_line(alloc, &[zero, one, ratio(&p.z, &p.y)], width);
    }
    one_line(alloc, &[zero, zero, one], width)
}

/// The basis of what is orthogonal to a vector; its last number that is not 0 stands where no line
/// has its pivot.
fn basis_of_plane(
    alloc: Global,
    n: &Vector,
    width: usize,
) -> Result<Items<Items<Ratio>>, AllocError>
    requires proper { IsSome (2 ^ 37) n.now }
    requires width { HasWidth width (Plane n.now) }
    requires few { width ≤ 3 }
    ensures { IfOk result (λ lines. IsBasisOf width (Plane n.now) lines) }
{
    let (zero, one) = (Ratio::whole(0), Ratio::whole(1));
    let (x, y) = (-n.x, -n.y);
    if n.z != 0 {
        let first = [one, zero, ratio(&x, &n.z)];
        return two_lines(alloc, &first, &[zero, one, ratio(&y, &n.z)], width);
    }
    if n.y != 0 {
        let first = [one, ratio(&x, &n.y), zero];
        return two_lines(alloc, &first, &[zero, zero, one], width);
    }
    two_lines(alloc, &[zero, one, zero], &[zero, zero, one], width)
}

/// The basis of all vectors.
fn units(alloc: Global, width: usize) -> Result<Items<Items<Ratio>>, AllocError>
    requires width { HasWidth width Whole }
    requires few { width ≤ 3 }
    ensures { IfOk result (λ lines. IsBasisOf width Whole lines) }
{
    let (zero, one) = (Ratio::whole(0), Ratio::whole(1));
    let mut lines = two_lines(alloc, &[one, zero, zero], &[zero, one, zero], width)?;
    lines.push(line(alloc, &[zero, zero, one], width)?)?;
    Ok(lines)
}

/// Two lines, cut to a width.
fn two_lines(
    alloc: Global,
    first: &[Ratio],
    second: &[Ratio],
    width: usize,
) -> Result<Items<Items<Ratio>>, AllocError>
    requires first { width ≤ length first.now }
    requires second { width ≤ length second.now }
    ensures { IfOk result (λ lines. lines ≡ take width first.now ∷ take width second.now ∷ []) }
{
    let mut lines = one_line(alloc, first, width)?;
    lines.push(line(alloc, second, width)?)?;
    Ok(lines)
}

/// One line, cut to a width.
fn one_line(
    alloc: Global,
    numbers: &[Ratio],
    width: usize,
) -> Result<Items<Items<Ratio>>, AllocError>
    requires { width ≤ length numbers.now }
    ensures { IfOk result (λ lines. lines ≡ take width numbers.now ∷ []) }
{
    let mut lines = Items::new(alloc);
    lines.push(line(alloc, numbers, width)?)?;
    Ok(lines)
}

fn line(alloc: Global, numbers: &[Ratio], width: usize) -> Result<Items<Ratio>, AllocError>
    requires { width ≤ length numbers.now }
    ensures { IfOk result (λ line. line ≡ take width numbers.now) }
{
    Items::from_slice(alloc, &numbers[..width])
}

/// A numerator over a denominator that is not 0.
fn ratio(num: &i128, den: &i128) -> Ratio
    requires some { den.now ≢ pos 0 }
    requires num { unsigned_abs num.now ≤ 2 ^ 37 }
    requires den { unsigned_abs den.now ≤ 2 ^ 37 }
    ensures { IsRatioOf result num.now den.now }
{
    if 0 < *den {
        return Ratio::lowest(*num, *den);
    }
    Ratio::lowest(-*num, -*den)
}
