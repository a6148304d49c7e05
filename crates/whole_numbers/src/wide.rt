ghost use Rattle.std.specs.Prelude.{◌≡◌, ◌^◌, ◌≤◌, ◌*ℤ◌, IsTrue, unsigned_abs};
ghost use Rattle.whole_numbers.specs.Fits.{sum_of, product_of};

/// Two numbers whose sum, or product where `times` holds, is no number of 128 bits.
#[derive(Clone, Copy, Debug, PartialEq, Eq)]
pub struct Wide {
    pub left: i128,
    pub right: i128,
    pub times: bool,
}

/// Whether a number has 64 bits, sign and all: the product of two such numbers has 128.
fn is_short(number: i128) -> bool
    ensures { IsTrue result → unsigned_abs number ≤ 2 ^ 63 }
{
    i64::MIN as i128 <= number && number <= i64::MAX as i128
}

/// The sum, or its operands where it leaves 128 bits.
pub fn sum(left: i128, right: i128) -> Result<i128, Wide>
    ensures { result ≡ sum_of left right }
{
    left.checked_add(right).ok_or(Wide {
        left,
        right,
        times: false,
    })
}

/// The product, or its operands where it leaves 128 bits.
pub fn product(left: i128, right: i128) -> Result<i128, Wide>
    ensures { result ≡ product_of left right }
{
    if is_short(left) && is_short(right) {
        return Ok(left * right);
    }
    left.checked_mul(right).ok_or(Wide {
        left,
        right,
        times: true,
    })
}

#[cfg(test)]
mod tests {
    use super::*;

    #[test]
    fn sums_and_products_at_the_edges(rt: HostRuntime) {
        let half = 1i128 << 64;
        for (left, right, total, times) in [
            (i128::MAX, 0, Some(i128::MAX), Some(0)),
            (i128::MAX, 1, None, Some(i128::MAX)),
            (i128::MIN, -1, None, None),
            (i128::MIN, i128::MAX, Some(-1), None),
            (half, half / 2, Some(half + half / 2), None),
            (-half, half / 2, Some(-(half / 2)), Some(i128::MIN)),
            (
                half - 1,
                half / 2,
                Some(half - 1 + half / 2),
                Some(i128::MAX - (half / 2 - 1)),
            ),
        ] {
            let wide = Wide {
                left,
                right,
                times: false,
            };
            assert_eq!(rt; sum(left, right), total.ok_or(wide), "{left} + {right}");
            let wide = Wide {
                left,
                right,
                times: true,
            };
            assert_eq!(rt; product(left, right), times.ok_or(wide), "{left} * {right}");
        }
    }
}
