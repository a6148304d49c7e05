ghost use Rattle.std.specs.Prelude.{◌≡◌, ◌≤◌, [], ◌∷◌, IfOk};
ghost use Rattle.linear_terms.specs.declared.col.Col.TheVariants.{At};
ghost use Rattle.farkas_check.specs.Points.{ratio_at};
ghost use Rattle.elimination.specs.Equations.{values_to};

use farkas_check::Ratio;
use items::Items;
use linear_terms::{Col, Mono};
use std::alloc::{AllocError, Global};

/// The numbers that a point has at the first so many entry columns.
pub(crate) fn entry_values(
    alloc: Global,
    columns: &[Mono],
    point: &[Ratio],
    count: usize,
) -> Result<Items<Ratio>, AllocError>
    requires { count ≤ 6 }
    ensures { IfOk result (λ made. made ≡ values_to columns.now point.now count) }
{
    let mut made = Items::new(alloc);
    for place in 0..count {
        made.push(entry_value(columns, point, place as u32))?;
    }
    Ok(made)
}

/// The number that a point has at an entry column.
fn entry_value(columns: &[Mono], point: &[Ratio], place: u32) -> Ratio
    ensures { result ≡ ratio_at columns.now point.now (At place ∷ []) }
{
    match Mono::new(&[Col::At(place)]) {
        Some(column) => ratio_at(columns, point, &column),
        None => unreachable!(),
    }
}

/// The number that a point has at a column; 0 where it has none.
fn ratio_at(columns: &[Mono], point: &[Ratio], column: &Mono) -> Ratio
    ensures { result ≡ ratio_at columns.now point.now column.now }
{
    let mut columns = columns;
    let mut point = point;
    while let Some((own, more_columns)) = columns.split_first()
        && let Some((number, more_numbers)) = point.split_first()
    {
        if *own == *column {
            return *number;
        }
        columns = more_columns;
        point = more_numbers;
    }
    Ratio::whole(0)
}
