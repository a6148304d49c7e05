ghost use Rattle.std.specs.Prelude.{◌≡◌, [], ◌∷◌, ◌++◌, OnOk, IfOk};
ghost use Rattle.items.specs.Gives.{Gives};
ghost use Rattle.farkas_check.specs.Frames.{line_of};
ghost use Rattle.cones.specs.Refusal.{cause};
ghost use Rattle.cones.specs.Split.{zeros};
ghost use Rattle.facet_hull.specs.Images.{columns_of, far};
ghost use Rattle.facet_hull.specs.InBits as in_bits;

use cones::{ConeStop, opposite};
use farkas_check::{Change, Stratum, stratum_columns};
use items::Items;
use linear_terms::{Kind, Mono, Poly, Row};
use std::alloc::{AllocError, Global};

/// The monomials of a case's rows and terms, in print order, each once.
pub(crate) fn columns_of(alloc: Global, case: &Change) -> Result<Items<Mono>, AllocError>
    ensures { IfOk result (λ columns. columns ≡ columns_of case.now) }
{
    let mut cases = Items::new(alloc);
    cases.push(case.clone()?)?;
    match Stratum::new(cases, Items::new(alloc)) {
        Some(alone) => stratum_columns(alloc, &alone),
        None => unreachable!(),
    }
}

/// The lines of all rows of a case, and before them that the denominator is not negative.
pub(crate) fn cone_lines(
    alloc: Global,
    columns: &[Mono],
    rows: &[Row],
) -> Result<Items<Items<i128>>, ConeStop>
    ensures { Gives cause (λ made. made) result (in_bits.cone_lines columns.now rows.now) }
{
    let mut lines = Items::new(alloc);
    lines.push(far(alloc, columns.len())?)?;
    for row in rows {
        lines.append(row_lines(alloc, columns, row)?)?;
    }
    Ok(lines)
}

/// The line of a row, and for an equation its opposite too.
fn row_lines(alloc: Global, columns: &[Mono], row: &Row) -> Result<Items<Items<i128>>, ConeStop>
    ensures { Gives cause (λ made. made) result (in_bits.row_lines columns.now row.now) }
{
    let line = line_of(alloc, columns, &row.poly)?;
    match row.kind {
        Kind::AtMost => Ok(alone(alloc, line)?),
        Kind::Equal => both_signs(alloc, line),
    }
}

/// One vector as a list.
pub(crate) fn alone(alloc: Global, vector: Items<i128>) -> Result<Items<Items<i128>>, AllocError>
    ensures { IfOk result (λ made. made ≡ vector ∷ []) }
{
    let mut made = Items::new(alloc);
    made.push(vector)?;
    Ok(made)
}

/// A form, and the same with each sign turned.
pub(crate) fn both_signs(alloc: Global, form: Items<i128>) -> Result<Items<Items<i128>>, ConeStop>
    ensures { Gives cause (λ made. made) result (in_bits.both_signs form) }
{
    let turned = opposite(alloc, form.as_slice())?;
    let mut forms = Items::new(alloc);
    forms.push(form)?;
    forms.push(turned)?;
    Ok(forms)
}

/// The coefficients of a polynomial at the columns, and its constant.
pub(crate) fn line_of(
    alloc: Global,
    columns: &[Mono],
    poly: &Poly,
) -> Result<Items<i128>, AllocError>
    ensures { IfOk result (λ line. line ≡ line_of columns.now poly.now) }
{
    let mut made = Items::new(alloc);
    for column in columns {
        made.push(poly.coefficient(column))?;
    }
    made.push(poly.rest())?;
    Ok(made)
}

/// Minus the denominator, which stands behind so many numbers.
fn far(alloc: Global, count: usize) -> Result<Items<i128>, AllocError>
    ensures { IfOk result (λ line. line ≡ far count) }
{
    let mut made = Items::new(alloc);
    push_zeros(&mut made, count)?;
    made.push(-1)?;
    Ok(made)
}

fn push_zeros(made: &mut Items<i128>, count: usize) -> Result<(), AllocError>
    ensures { OnOk result (made.new ≡ made.old ++ zeros count) }
{
    for _place in 0..count {
        made.push(0)?;
    }
    Ok(())
}
