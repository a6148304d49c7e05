ghost use Rattle.std.specs.Prelude.{length};
ghost use Rattle.items.specs.Gives.{Gives};
ghost use Rattle.linear_terms.specs.TermError.{cause};
ghost use Rattle.point_rows.specs.Reading.{IsOverColumns, read_row};

use linear_terms::{Normal, Poly, Row, TermError, normal, subst};
use std::alloc::Global;

/// The row with the posts put in for its columns, in normal form.
pub(crate) fn read_row(alloc: Global, posts: &[Poly], row: &Row) -> Result<Normal, TermError>
    requires { IsOverColumns (length posts.now) row.now }
    ensures { Gives cause (λ form. form) result (read_row posts.now row.now) }
{
    let poly = subst(alloc, &row.poly, posts, &[])?;
    let row = Row {
        poly,
        kind: row.kind,
    };
    normal(alloc, &row)
}
