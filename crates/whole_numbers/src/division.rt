ghost use Rattle.std.specs.Prelude.{◌≡◌, ◌^◌, ◌<◌, ◌≤◌, int_div, neg_ℤ, pos};
ghost use Rattle.whole_numbers.specs.Divisors.{gcd_of, ceiling_of};

/// The greatest number that divides both; 0 where both are 0. Euclid's algorithm, whose divisions
/// are those of 64 bits as soon as both numbers have no more.
#[tactic(auto, using(crate::proofs::CommonDivisors::euclid))]
pub fn gcd(a: u128, b: u128) -> u128
    ensures { result ≡ gcd_of a b }
{
    if a <= u64::MAX as u128 && b <= u64::MAX as u128 {
        short_gcd(a as u64, b as u64) as u128
    } else if b == 0 {
        a
    } else {
        gcd(b, a % b)
    }
}

#[tactic(auto, using(crate::proofs::CommonDivisors::euclid))]
fn short_gcd(a: u64, b: u64) -> u64
    ensures { result ≡ gcd_of a b }
{
    let mut x = a;
    let mut y = b;
    while y != 0 {
        let rest = x % y;
        x = y;
        y = rest;
    }
    x
}

/// The quotient without its fraction, rounded toward zero.
pub fn quotient(value: i128, by: u128) -> i128
    requires { 0 < by }
    ensures { result ≡ int_div value (pos by) }
{
    let size = value.unsigned_abs() / by;
    if 0 <= value {
        size as i128
    } else {
        opposite_of(size)
    }
}

/// The least whole number that is at least the quotient.
#[tactic(auto, using(crate::proofs::Quotients::ceilings))]
pub fn quotient_up(value: i128, by: u128) -> i128
    requires { 0 < by }
    ensures { result ≡ ceiling_of value by }
{
    if 0 < value {
        ((value.unsigned_abs() - 1) / by + 1) as i128
    } else {
        quotient(value, by)
    }
}

fn opposite_of(size: u128) -> i128
    requires { size ≤ 2 ^ 127 }
    ensures { result ≡ neg_ℤ (pos size) }
{
    if size == 0 {
        0
    } else {
        -1 - (size - 1) as i128
    }
}

#[cfg(test)]
mod tests {
    use super::*;

    #[test]
    fn greatest_common_divisors(rt: HostRuntime) {
        for (a, b, greatest) in [
            (0, 0, 0),
            (0, 7, 7),
            (7, 0, 7),
            (12, 18, 6),
            (17, 5, 1),
            (1 << 127, 6, 2),
            (1 << 127, 1 << 127, 1 << 127),
            (u128::MAX, u128::MAX - 1, 1),
        ] {
            assert_eq!(rt; gcd(a, b), greatest, "{a} and {b}");
        }
    }

    #[test]
    fn quotients_toward_zero_and_up(rt: HostRuntime) {
        for (value, by, toward_zero, up) in [
            (7, 2, 3, 4),
            (6, 2, 3, 3),
            (0, 2, 0, 0),
            (-6, 2, -3, -3),
            (-7, 2, -3, -3),
            (i128::MIN, 1, i128::MIN, i128::MIN),
            (i128::MIN, 1 << 127, -1, -1),
            (i128::MAX, 1, i128::MAX, i128::MAX),
            (i128::MAX, 1 << 127, 0, 1),
            (-1, u128::MAX, 0, 0),
        ] {
            assert!(rt; 0 < by);
            assert_eq!(rt; quotient(value, by), toward_zero, "{value} by {by}");
            assert_eq!(rt; quotient_up(value, by), up, "{value} by {by}, up");
        }
    }
}
