ghost use Rattle.std.specs.Prelude.{◌≡◌, IfOk};

use items::Items;
use linear_terms::Row;
use std::alloc::{AllocError, Global};

/// A copy of rows.
pub(crate) fn copies_of(alloc: Global, rows: &[Row]) -> Result<Items<Row>, AllocError>
    ensures { IfOk result (λ copies. copies ≡ rows.now) }
{
    let mut copies = Items::from_vec(Vec::with_capacity(alloc, rows.len())?);
    for row in rows {
        copies.push(row.clone()?)?;
    }
    Ok(copies)
}
