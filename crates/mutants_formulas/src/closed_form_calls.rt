ghost use Rattle.std.specs.Prelude.{◌↔◌, ℕ, IfOk};
ghost use Rattle.items.specs.Gives.{Gives};
ghost use Rattle.linear_terms.specs.Row.{RowHolds};
ghost use Rattle.linear_terms.specs.TermError.{cause};
ghost use Rattle.linear_terms.specs.Value.{Valuation, value_of};
ghost use Rattle.closed_form.specs.ClosedRow.{closed_row};
ghost use Rattle.closed_form.specs.Differences.{IsConstant, IsForwardSum, IsRun, ReadsAs, Run, Sequence, run_of, third_difference};

use linear_terms::{Col, Poly, Row, TermError};
use std::alloc::Global;

/// The row of Newton's forward differences.
pub fn row(
    alloc: Global,
    after: &Poly,
    before: &Poly,
    d1: &Poly,
    d2: &Poly,
    d3: &Poly,
    k: Col,
) -> Result<Row, TermError>
    ensures exact { Gives cause (λ r. r) result
        (closed_row after.now before.now d1.now d2.now d3.now k) }
    ensures value { (at : Valuation) → IfOk result (λ r. RowHolds at r ↔
        IsForwardSum (value_of at after.now) (value_of at before.now)
        (value_of at d1.now) (value_of at d2.now) (value_of at d3.now) (at k)) }
    ensures holds { (at : Valuation) (u : Sequence) (n : ℕ) → IsConstant (third_difference u) →
        ReadsAs at (run_of u n) after.now before.now d1.now d2.now d3.now k
        → IfOk result (RowHolds at) }
    ensures holds_on_runs { (at : Valuation) (run : Run) → IsRun run →
        ReadsAs at run after.now before.now d1.now d2.now d3.now k → IfOk result (RowHolds at) }
{
    closed_form::row(alloc, after, before, d1, d2, d3, k)
}
