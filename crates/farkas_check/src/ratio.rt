ghost use Rattle.std.specs.Prelude.{◌≡◌, ◌<ℤ◌, pos, int_div, IsTrue, IfOk};
ghost use Rattle.whole_numbers.specs.Fits.{product_of};
ghost use Rattle.std.specs.Option.{SomeIff};
ghost use Rattle.std.specs.Cmp.{partial_equiv_from_equiv};
ghost use Rattle.farkas_check.specs.Ratios.{IsLowest, whole, lowest_terms, is_lowest, ratio_product, ratio_sum, common_multiple, is_at_least, ratio_eq, ratio_eq_equiv};
ghost use Rattle.farkas_check.specs.Steps.{with_multiple};
ghost use Rattle.farkas_check.specs.Stratum.{is_exactly};
ghost use Rattle.farkas_check.specs.Laws.{SumsAreExact, ProductsAreExact, ValuesAreExact};

use std::marker::Model;
use whole_numbers::{Wide, gcd, product, quotient, sum};

/// A ratio of whole numbers in lowest terms, with a positive denominator.
#[derive(Clone, Copy, Debug, Hash)]
pub struct Ratio {
    num: i128,
    den: i128,
}

impl Model for Ratio {
    ghost use Rattle.farkas_check.specs.Ratios.{Fraction, IsLowest};

    ghost Value = { Fraction };

    ghost view = { λ r. record { num = r.num; den = r.den } };

    ghost invariant = { λ r. IsLowest (record { num = r.num; den = r.den }) };

    ghost inverse = { λ r. record { num = r.num; den = r.den } };
}

impl Ratio {
    /// A numerator over a denominator; none where the denominator is not positive or the two have a
    /// common divisor other than 1.
    pub fn new(num: i128, den: i128) -> Option<Ratio>
        ensures { SomeIff result (IsTrue (is_lowest num den)) (record { num = num; den = den }) }
    {
        if 0 < den && gcd(num.unsigned_abs(), den.unsigned_abs()) == 1 {
            Some(Ratio { num, den })
        } else {
            None
        }
    }

    /// A whole number.
    #[tactic(auto, using(crate::proofs::Lowest::lowest))]
    pub fn whole(number: i128) -> Ratio
        ensures { result ≡ whole number }
    {
        Ratio {
            num: number,
            den: 1,
        }
    }

    /// The numerator.
    pub fn num(&self) -> i128
        ensures { result ≡ self.now.num }
    {
        self.num
    }

    /// The denominator, which is positive.
    pub fn den(&self) -> i128
        ensures den { result ≡ self.now.den }
        ensures positive { pos 0 <ℤ result }
        ensures lowest { IsLowest self.now }
    {
        self.den
    }

    /// A numerator over a positive denominator, brought to lowest terms.
    #[tactic(auto, using(crate::proofs::Lowest::lowest, crate::proofs::Shortcuts::shortcuts))]
    pub fn lowest(num: i128, den: i128) -> Ratio
        requires { pos 0 <ℤ den }
        ensures { result ≡ lowest_terms num den }
    {
        if den == 1 {
            return Ratio::whole(num);
        }
        if num == 0 {
            return Ratio::whole(0);
        }
        let divisor = gcd(num.unsigned_abs(), den.unsigned_abs());
        Ratio {
            num: quotient(num, divisor),
            den: quotient(den, divisor),
        }
    }

    /// The numerator over another denominator, a multiple of this one.
    #[tactic(auto, using(crate::proofs::Shortcuts::shortcuts))]
    fn over(&self, den: i128) -> Result<i128, Wide>
        ensures { result ≡ product_of self.now.num (int_div den self.now.den) }
    {
        if den == self.den {
            return Ok(self.num);
        }
        product(self.num, den / self.den)
    }

    /// The product, or the first step that leaves 128 bits.
    pub fn product(&self, by: &Ratio) -> Result<Ratio, Wide>
        ensures { result ≡ ratio_product self.now by.now }
    {
        if self.num == 0 {
            return Ok(Ratio::lowest(0, by.den));
        }
        if by.num == 0 {
            return Ok(Ratio::lowest(0, self.den));
        }
        self.product_of_both(by)
    }

    /// The same, of numerators and denominators.
    fn product_of_both(&self, by: &Ratio) -> Result<Ratio, Wide>
        ensures { result ≡ ratio_product self.now by.now }
    {
        let num = product(self.num, by.num)?;
        let den = product(self.den, by.den)?;
        Ok(Ratio::lowest(num, den))
    }

    /// The sum with a multiple of another ratio, or the first step that leaves 128 bits. The
    /// multiple of 0 leaves it as it is.
    pub(crate) fn with_multiple(&self, number: &i128, of: &Ratio) -> Result<Ratio, Wide>
        ensures { result ≡ with_multiple self.now number.now of.now }
    {
        if of.num == 0 {
            let Ratio { num, den } = *self;
            return Ok(Ratio { num, den });
        }
        let part = Ratio::whole(*number).product(of)?;
        self.sum(&part)
    }

    /// The sum, or the first step that leaves 128 bits.
    #[tactic(auto, using(crate::proofs::Shortcuts::zeros))]
    pub fn sum(&self, other: &Ratio) -> Result<Ratio, Wide>
        ensures { result ≡ ratio_sum self.now other.now }
    {
        if other.num == 0 {
            let Ratio { num, den } = *self;
            return Ok(Ratio { num, den });
        }
        self.sum_over_multiple(other)
    }

    /// The same, over the least common multiple of the denominators.
    fn sum_over_multiple(&self, other: &Ratio) -> Result<Ratio, Wide>
        ensures { result ≡ ratio_sum self.now other.now }
    {
        let den = common_multiple(self.den, other.den)?;
        let left = self.over(den)?;
        let right = other.over(den)?;
        let num = sum(left, right)?;
        Ok(Ratio::lowest(num, den))
    }

    /// Whether this is at least a whole number, or the product that leaves 128 bits.
    pub fn is_at_least(&self, number: i128) -> Result<bool, Wide>
        ensures { result ≡ is_at_least self.now number }
    {
        let bound = product(number, self.den)?;
        Ok(bound <= self.num)
    }

    /// Whether this is a whole number, or the product that leaves 128 bits.
    pub fn is_exactly(&self, number: i128) -> Result<bool, Wide>
        ensures { result ≡ is_exactly self.now number }
    {
        let right = product(number, self.den)?;
        Ok(self.num == right)
    }
}

/// The least common multiple of two positive numbers, or the product that leaves 128 bits.
#[tactic(auto, using(crate::proofs::Lowest::lowest, crate::proofs::Shortcuts::shortcuts))]
pub fn common_multiple(left: i128, right: i128) -> Result<i128, Wide>
    requires left { pos 0 <ℤ left }
    requires right { pos 0 <ℤ right }
    ensures multiple { result ≡ common_multiple left right }
    ensures positive { IfOk result (λ multiple. pos 0 <ℤ multiple) }
{
    if right == 1 {
        return Ok(left);
    }
    let divisor = gcd(left.unsigned_abs(), right.unsigned_abs());
    product(quotient(left, divisor), right)
}

impl PartialEq for Ratio {
    ghost eq = { ratio_eq };

    ghost laws = { partial_equiv_from_equiv ratio_eq_equiv };

    fn eq(&self, other: &Self) -> bool {
        self.num == other.num && self.den == other.den
    }
}

impl Eq for Ratio {
    ghost laws = { ratio_eq_equiv };
}

/// Sums and products of ratios, and values of polynomials at points, are what they say wherever
/// their steps have 128 bits.
pub fn exactness_of_ratios()
    ensures sums { SumsAreExact }
    ensures products { ProductsAreExact }
    ensures values { ValuesAreExact }
{}
