ghost use Rattle.std.specs.Prelude.{◌≡◌, [], ◌∷◌, ◌++◌, ◌≤◌, drop, length, List, IsTrue, pos, IfOk, OnOk, MatchOption, if◌then◌else◌};
ghost use Rattle.std.specs.Map.{keys_of};
ghost use Rattle.std.specs.Ordering.{eq_by_cmp};
ghost use Rattle.linear_terms.specs.declared.col.Col.{Col};
ghost use Rattle.linear_terms.specs.Mono.{mono_cmp};
ghost use Rattle.linear_terms.specs.Polynomial.{IsCanonical};
ghost use Rattle.farkas_check.specs.Columns.{columns as columns_of};
ghost use Rattle.farkas_check.specs.Ratios.{whole};
ghost use Rattle.farkas_check.proofs.Spreads.{is_among, AreAmong};
ghost use Rattle.simplex.specs.Raise.{sign_of};
ghost use Rattle.simplex.specs.Wider.{widened_numbers, number_along, unit_ray, widened_supremum, IsBesides};

use crate::Supremum;
use farkas_check::Ratio;
use items::Items;
use linear_terms::{Mono, Row};
use std::alloc::{AllocError, Global};
use std::cmp::Ordering;

/// The columns of rows and of terms: one merge of the rows' own columns and the terms' monomials.
pub(crate) fn columns_with(
    alloc: Global,
    own: &[Mono],
    rows: &[Row],
    terms: &[(Mono, i128)],
) -> Result<Items<Mono>, AllocError>
    requires own { own.now ≡ columns_of rows.now [] }
    requires terms { IsCanonical terms.now }
    ensures { IfOk result (λ made. made ≡ columns_of rows.now terms.now) }
{
    let _rows = rows;
    let room = own.len().saturating_add(terms.len());
    let mut made = Items::from_vec(Vec::with_capacity(alloc, room)?);
    let mut left = own;
    let mut right = terms;
    loop {
        let Some((column, columns)) = left.split_first() else {
            break;
        };
        let Some((term, more)) = right.split_first() else {
            break;
        };
        match column.cmp(&term.0) {
            Ordering::Less => {
                made.push(*column)?;
                left = columns;
            }
            Ordering::Equal => {
                made.push(*column)?;
                left = columns;
                right = more;
            }
            Ordering::Greater => {
                made.push(term.0)?;
                right = more;
            }
        }
    }
    push_both(&mut made, left, right)?;
    Ok(made)
}

fn push_both(
    made: &mut Items<Mono>,
    columns: &[Mono],
    terms: &[(Mono, i128)],
) -> Result<(), AllocError>
    ensures { OnOk result (made.new ≡ made.old ++ columns.now ++ keys_of terms.now) }
{
    for column in columns {
        made.push(*column)?;
    }
    for (mono, _number) in terms {
        made.push(*mono)?;
    }
    Ok(())
}

/// The first monomial of the terms that is none of the columns, and whether its number is positive.
pub(crate) fn first_besides(own: &[Mono], terms: &[(Mono, i128)]) -> Option<(Mono, bool)>
    requires { IsCanonical terms.now }
    ensures { MatchOption result (AreAmong (keys_of terms.now) own.now)
        (λ r. IsBesides own.now terms.now r.0 r.1) }
{
    for (mono, number) in terms {
        if !is_own(own, mono) {
            return Some((*mono, 0 < *number));
        }
    }
    None
}

fn is_own(own: &[Mono], mono: &Mono) -> bool
    ensures { result ≡ is_among mono.now own.now }
{
    for column in own {
        if *mono == *column {
            return true;
        }
    }
    false
}

/// The numbers over wider columns: those at the own columns, and else 0.
pub(crate) fn widened_numbers(
    alloc: Global,
    own: &[Mono],
    wider: &[Mono],
    numbers: &[Ratio],
) -> Result<Items<Ratio>, AllocError>
    ensures { IfOk result (λ made. made ≡ widened_numbers own.now wider.now numbers.now) }
{
    let mut made = Items::from_vec(Vec::with_capacity(alloc, wider.len())?);
    let mut place = 0;
    for mono in wider {
        let (number, next) = number_there(own, numbers, place, mono);
        made.push(number)?;
        place = next;
    }
    Ok(made)
}

/// The number at the next of the wider columns, and how many of the own ones come before what is
/// left.
fn number_there(own: &[Mono], numbers: &[Ratio], place: usize, mono: &Mono) -> (Ratio, usize)
    ensures { (rest : List (List Col))
        → widened_numbers (drop place own.now) (mono.now ∷ rest) (drop place numbers.now)
        ≡ result.0 ∷ widened_numbers (drop result.1 own.now) rest (drop result.1 numbers.now) }
{
    if own.len() <= place || numbers.len() <= place {
        return (Ratio::whole(0), place);
    }
    if own[place] == *mono {
        (numbers[place], place + 1)
    } else {
        (Ratio::whole(0), place)
    }
}

/// The ray along one monomial.
pub(crate) fn unit_ray(
    alloc: Global,
    mono: &Mono,
    up: bool,
    columns: &[Mono],
) -> Result<Items<Ratio>, AllocError>
    ensures { IfOk result (λ ray. ray ≡ unit_ray mono.now up columns.now) }
{
    let mut ray = Items::from_vec(Vec::with_capacity(alloc, columns.len())?);
    for column in columns {
        ray.push(number_along(mono, up, column))?;
    }
    Ok(ray)
}

fn number_along(mono: &Mono, up: bool, column: &Mono) -> Ratio
    ensures { result ≡ number_along mono.now up column.now }
{
    if *mono != *column {
        return Ratio::whole(0);
    }
    Ratio::whole(if up { 1 } else { -1 })
}

/// What a supremum came to, over wider columns.
pub(crate) fn widened_supremum(
    alloc: Global,
    own: &[Mono],
    wider: &[Mono],
    found: Supremum,
) -> Result<Supremum, AllocError>
    ensures { IfOk result (λ made. made ≡ widened_supremum own.now wider.now found) }
{
    match found {
        Supremum::Empty => Ok(Supremum::Empty),
        Supremum::Pivots => Ok(Supremum::Pivots),
        Supremum::Bound(cert, point) => {
            let point = widened_numbers(alloc, own, wider, point.as_slice())?;
            Ok(Supremum::Bound(cert, point))
        }
        Supremum::Unbounded(point, ray) => {
            let point = widened_numbers(alloc, own, wider, point.as_slice())?;
            let ray = widened_numbers(alloc, own, wider, ray.as_slice())?;
            Ok(Supremum::Unbounded(point, ray))
        }
    }
}
