ghost use Rattle.std.specs.Prelude.{◌≡◌};
ghost use Rattle.items.specs.Gives.{Gives};
ghost use Rattle.cones.specs.Cones.{AreWide};
ghost use Rattle.cones.specs.Refusal.{cause};
ghost use Rattle.facet_hull.specs.InBits as in_bits;

use crate::lines::cone_lines;
use cones::{ConeStop, extremes, flat, rest_basis};
use items::Items;
use linear_terms::{Mono, Row};
use std::alloc::Global;

/// What the search finds in the cone of a case: the vectors on which all lines are 0, and the
/// extreme ones.
#[derive(Drop)]
pub(crate) struct CaseCone {
    pub(crate) flats: Items<Items<i128>>,
    pub(crate) extremes: Items<Items<i128>>,
}

/// The search in the cone of a case.
#[tactic(auto, using(crate::proofs::Making::lengths))]
pub(crate) fn case_cone(alloc: Global, columns: &[Mono], rows: &[Row]) -> Result<CaseCone, ConeStop>
    ensures { Gives cause (λ made. made) result (in_bits.case_cone columns.now rows.now) }
{
    let lines = cone_lines(alloc, columns, rows)?;
    cone_from(alloc, lines.as_slice(), columns.len() + 1)
}

/// The search in the cone that lines bound, in vectors of so many numbers.
#[tactic(auto, using(crate::proofs::Making::lengths))]
fn cone_from(alloc: Global, lines: &[Items<i128>], count: usize) -> Result<CaseCone, ConeStop>
    requires { AreWide count lines.now }
    ensures { Gives cause (λ made. made) result (in_bits.cone_from lines.now count) }
{
    let flats = flat(alloc, lines, count)?;
    let basis = rest_basis(alloc, flats.as_slice(), count)?;
    let extremes = extremes(alloc, lines, lines, basis.as_slice(), count)?;
    Ok(CaseCone { flats, extremes })
}
