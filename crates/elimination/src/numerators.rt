ghost use Rattle.items.specs.Gives.{Gives};
ghost use Rattle.simplex.specs.Exchange.{cause};
ghost use Rattle.elimination.specs.Equations.{least_numerators};

use farkas_check::Ratio;
use items::Items;
use simplex::{SearchStop, common_denominator, numerators_over};
use std::alloc::Global;

/// The numerators of ratios over their least common denominator.
pub(crate) fn least_numerators(alloc: Global, values: &[Ratio]) -> Result<Items<i128>, SearchStop>
    ensures { Gives cause (λ made. made) result (least_numerators values.now) }
{
    let common = common_denominator(values)?;
    numerators_over(alloc, &common, values)
}
