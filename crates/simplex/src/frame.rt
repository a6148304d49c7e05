ghost use Rattle.std.specs.Prelude.{◌≡◌, ◌++◌, ◌+◌, ◌<◌, ◌^◌, ℕ, List, [], ◌∷◌, length, map, IsTrue, IfOk, IfSome};
ghost use Rattle.std.specs.Map.{keys_of};
ghost use Rattle.linear_terms.specs.declared.col.Col.{Col};
ghost use Rattle.linear_terms.specs.declared.row.Kind.TheVariants.{AtMost};
ghost use Rattle.linear_terms.specs.Polynomial.{coefficient_in, IsCanonical};
ghost use Rattle.farkas_check.proofs.Spreads.{AreAmong};
ghost use Rattle.farkas_check.proofs.Walks.{IsOrdered};
ghost use Rattle.simplex.specs.Endings.{spread};
ghost use Rattle.simplex.specs.Rows.{kinds_of, coefficients, units_to, whole_line, lines_from, units_from, framed_tableau};

use crate::Tableau;
use items::Items;
use linear_terms::{Kind, Mono, Poly, Row};
use std::alloc::{AllocError, Global};

/// The kinds of the rows, with room for that of an objective.
pub(crate) fn kinds_of(alloc: Global, rows: &[Row]) -> Result<Items<Kind>, AllocError>
    ensures { IfOk result (λ kinds. kinds ≡ kinds_of rows.now) }
{
    let room = rows.len().saturating_add(1);
    let mut kinds = Items::from_vec(Vec::with_capacity(alloc, room)?);
    for row in rows {
        kinds.push(row.kind)?;
    }
    Ok(kinds)
}

/// The tableau of the rows that chooses the unit columns: a line has the row's numbers at the
/// columns, its constant, and 1 at the row's own unit column.
pub(crate) fn framed_tableau(
    alloc: Global,
    rows: &[Row],
    columns: &[Mono],
) -> Result<Tableau, AllocError>
    requires wide { length columns.now + 1 + length rows.now < 2 ^ 64 }
    requires ordered { IsOrdered columns.now }
    ensures { IfOk result (λ t. t ≡ framed_tableau columns.now rows.now) }
{
    let lines = lines_from(alloc, rows, columns)?;
    let chosen = units_from(alloc, columns.len() + 1, rows.len())?;
    Ok(Tableau { lines, chosen })
}

fn lines_from(
    alloc: Global,
    rows: &[Row],
    columns: &[Mono],
) -> Result<Items<Items<i128>>, AllocError>
    requires wide { length columns.now + 1 + length rows.now < 2 ^ 64 }
    requires ordered { IsOrdered columns.now }
    ensures { IfOk result (λ lines. lines ≡ lines_from columns.now (length rows.now) 0 rows.now) }
{
    let mut lines = Items::from_vec(Vec::with_capacity(alloc, rows.len())?);
    for (place, row) in rows.iter().enumerate() {
        let (line, _among) = ordered_line(alloc, &row.poly, columns, place, rows.len())?;
        lines.push(line)?;
    }
    Ok(lines)
}

/// The line of a row with this polynomial, the place-th of so many.
fn whole_line(
    alloc: Global,
    poly: &Poly,
    columns: &[Mono],
    place: usize,
    count: usize,
) -> Result<Items<i128>, AllocError>
    requires { length columns.now + 1 + count < 2 ^ 64 }
    ensures { IfOk result
        (λ line. line ≡ whole_line columns.now count place
        (record { poly = poly.now; kind = AtMost })) }
{
    let mut line = coefficients(alloc, poly, columns, columns.len() + 1 + count)?;
    line.push(poly.rest())?;
    with_units(line, place, count)
}

/// The same where the columns stand in print order, and whether each of the polynomial's monomials
/// is known to be one of them.
pub(crate) fn ordered_line(
    alloc: Global,
    poly: &Poly,
    columns: &[Mono],
    place: usize,
    count: usize,
) -> Result<(Items<i128>, bool), AllocError>
    requires wide { length columns.now + 1 + count < 2 ^ 64 }
    requires ordered { IsOrdered columns.now }
    ensures line { IfOk result
        (λ r. r.0 ≡ whole_line columns.now count place
        (record { poly = poly.now; kind = AtMost })) }
    ensures among { IfOk result
        (λ r. IsTrue r.1 → AreAmong (keys_of poly.now.terms) columns.now) }
{
    let room = columns.len() + 1 + count;
    match numbers_at(alloc, columns, poly.terms(), room)? {
        Some(numbers) => {
            let mut line = numbers;
            line.push(poly.rest())?;
            Ok((with_units(line, place, count)?, true))
        }
        None => {
            let line = whole_line(alloc, poly, columns, place, count)?;
            Ok((line, false))
        }
    }
}

/// The numbers of terms at columns, with room for so many numbers in all; none where a monomial is
/// not among the columns. As both stand in print order, one walk over the columns finds them.
fn numbers_at(
    alloc: Global,
    columns: &[Mono],
    terms: &[(Mono, i128)],
    room: usize,
) -> Result<Option<Items<i128>>, AllocError>
    requires ordered { IsOrdered columns.now }
    requires canonical { IsCanonical terms.now }
    ensures numbers { IfOk result
        (λ found. IfSome found (λ line. line ≡ map (coefficient_in terms.now) columns.now)) }
    ensures among { IfOk result
        (λ found. IfSome found (λ _. AreAmong (keys_of terms.now) columns.now)) }
{
    let mut line = Items::from_vec(Vec::with_capacity(alloc, room)?);
    let mut left = terms;
    for column in columns {
        let (number, more) = number_next(left, column);
        line.push(number)?;
        left = more;
    }
    if left.is_empty() {
        Ok(Some(line))
    } else {
        Ok(None)
    }
}

/// The number at a column where the first of the terms may have it, and the terms that are left.
fn number_next<'a>(terms: &'a [(Mono, i128)], column: &Mono) -> (i128, &'a [(Mono, i128)])
    ensures spread { (cs : List (List Col)) → spread terms.entry.now (column.now ∷ cs)
        ≡ result.0 ∷ spread result.1.now cs }
    ensures among { (cs : List (List Col)) → AreAmong (keys_of result.1.now) cs
        → AreAmong (keys_of terms.entry.now) (column.now ∷ cs) }
{
    match terms {
        [(mono, number), more @ ..] => {
            if *mono == *column {
                (*number, more)
            } else {
                (0, terms)
            }
        }
        [] => (0, terms),
    }
}

/// The polynomial's numbers at the columns, with room for so many numbers in all.
fn coefficients(
    alloc: Global,
    poly: &Poly,
    columns: &[Mono],
    room: usize,
) -> Result<Items<i128>, AllocError>
    ensures { IfOk result
        (λ line. line ≡ coefficients (record { poly = poly.now; kind = AtMost }) columns.now) }
{
    let mut line = Items::from_vec(Vec::with_capacity(alloc, room)?);
    for column in columns {
        line.push(poly.coefficient(column))?;
    }
    Ok(line)
}

/// A line with its numbers at the unit columns.
pub(crate) fn with_units(
    line: Items<i128>,
    place: usize,
    count: usize,
) -> Result<Items<i128>, AllocError>
    ensures { IfOk result (λ made. made ≡ line ++ units_to count place) }
{
    let first = line.len();
    let all = first.checked_add(count).ok_or(AllocError)?;
    let mut made = line.into_vec();
    made.resize(all, 0)?;
    if place < count {
        made[first + place] = 1;
    }
    Ok(Items::from_vec(made))
}

/// The unit columns.
pub(crate) fn units_from(
    alloc: Global,
    first: usize,
    count: usize,
) -> Result<Items<usize>, AllocError>
    requires { first + count < 2 ^ 64 }
    ensures { IfOk result (λ made. made ≡ units_from first count) }
{
    let mut made = Items::from_vec(Vec::with_capacity(alloc, count)?);
    for i in 0..count {
        made.push(first + i)?;
    }
    Ok(made)
}
