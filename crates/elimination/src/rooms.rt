ghost use Rattle.std.specs.Prelude.{◌↔◌, [], IsTrue, IfOk};
ghost use Rattle.elimination.specs.Narrow.{IsSmallCase};
ghost use Rattle.elimination.specs.Rooms.{HasSmallRoom};

use crate::inner::inner_point;
use farkas_check::{canonical_rows, case_columns};
use linear_terms::Row;
use std::alloc::{AllocError, Global};

/// Whether small rows have a point, and no equation that each of their points meets.
pub(crate) fn has_room(alloc: Global, rows: &[Row]) -> Result<bool, AllocError>
    requires { IsSmallCase 4 rows.now [] }
    ensures { IfOk result (λ b. IsTrue b ↔ HasSmallRoom rows.now) }
{
    canonical_rows(rows);
    let columns = case_columns(alloc, rows, &[])?;
    let inner = inner_point(alloc, columns.as_slice(), rows)?;
    Ok(inner.is_some())
}
