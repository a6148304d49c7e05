ghost use Rattle.std.specs.Prelude.{◌≡◌, IfErr};
ghost use Rattle.whole_numbers.specs.Fits.{sum_of, product_of};
ghost use Rattle.simplex.specs.Refusal.{LeavesBits};

use whole_numbers::{Wide, product, sum};

/// The product of two numbers, as a step of the search.
pub(crate) fn step_product(left: &i128, right: &i128) -> Result<i128, Wide>
    ensures exact { result ≡ product_of left.now right.now }
    ensures width { IfErr result LeavesBits }
{
    product(*left, *right)
}

/// The sum of two numbers, as a step of the search.
pub(crate) fn step_sum(left: &i128, right: &i128) -> Result<i128, Wide>
    ensures exact { result ≡ sum_of left.now right.now }
    ensures width { IfErr result LeavesBits }
{
    sum(*left, *right)
}
