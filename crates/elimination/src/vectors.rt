ghost use Rattle.std.specs.Prelude.{◌≡◌, ◌↔◌, ◌≤◌, ◌^◌, pos, ◌*ℤ◌, ◌<ℤ◌, length, unsigned_abs, All, IsTrue};
ghost use Rattle.elimination.specs.Echelon.{number_in, IsSmallRatio};
ghost use Rattle.elimination.specs.Spaces.{cross, vector_dot, IsZero, IsUpTo, IsClearing};

use farkas_check::Ratio;

/// Three whole numbers.
#[derive(Clone, Copy)]
pub(crate) struct Vector {
    pub(crate) x: i128,
    pub(crate) y: i128,
    pub(crate) z: i128,
}

impl Vector {
    /// Whether all three are 0.
    pub(crate) fn is_zero(&self) -> bool
        ensures { IsTrue result ↔ IsZero self.now }
    {
        self.x == 0 && self.y == 0 && self.z == 0
    }

    /// A vector that is orthogonal to both.
    pub(crate) fn cross(&self, other: &Vector) -> Vector
        requires own { IsUpTo (2 ^ 18) self.now }
        requires other { IsUpTo (2 ^ 18) other.now }
        ensures value { result ≡ cross self.now other.now }
        ensures small { IsUpTo (2 ^ 37) result }
    {
        Vector {
            x: product(&self.y, &other.z) - product(&self.z, &other.y),
            y: product(&self.z, &other.x) - product(&self.x, &other.z),
            z: product(&self.x, &other.y) - product(&self.y, &other.x),
        }
    }

    /// The sum of the products of their numbers.
    pub(crate) fn dot(&self, other: &Vector) -> i128
        requires own { IsUpTo (2 ^ 37) self.now }
        requires other { IsUpTo (2 ^ 18) other.now }
        ensures { result ≡ vector_dot self.now other.now }
    {
        product(&self.x, &other.x) + product(&self.y, &other.y) + product(&self.z, &other.z)
    }
}

/// The product of two numbers that are small enough for it.
fn product(left: &i128, right: &i128) -> i128
    requires left { unsigned_abs left.now ≤ 2 ^ 37 }
    requires right { unsigned_abs right.now ≤ 2 ^ 18 }
    ensures value { result ≡ left.now *ℤ right.now }
    ensures small { unsigned_abs result ≤ 2 ^ 55 }
{
    *left * *right
}

/// A row of at most three numbers, times its denominators.
pub(crate) fn cleared_row(row: &[Ratio]) -> Vector
    requires few { length row.now ≤ 3 }
    requires small { All IsSmallRatio row.now }
    ensures { IsClearing row.now result }
{
    let (x, y, z) = (number_in(row, 0), number_in(row, 1), number_in(row, 2));
    Vector {
        x: cleared_number(&x, &y, &z),
        y: cleared_number(&y, &x, &z),
        z: cleared_number(&z, &x, &y),
    }
}

/// The number of a row at a place; 0 past the last.
fn number_in(row: &[Ratio], place: usize) -> Ratio
    ensures { result ≡ number_in row.now place }
{
    if place < row.len() {
        return row[place];
    }
    Ratio::whole(0)
}

/// A numerator times two other denominators, of small ratios.
fn cleared_number(number: &Ratio, first: &Ratio, second: &Ratio) -> i128
    requires number { IsSmallRatio number.now }
    requires first { IsSmallRatio first.now }
    requires second { IsSmallRatio second.now }
    ensures value { result ≡ number.now.num *ℤ (first.now.den *ℤ second.now.den) }
    ensures small { unsigned_abs result ≤ 2 ^ 18 }
    ensures first { pos 0 <ℤ first.now.den }
    ensures second { pos 0 <ℤ second.now.den }
{
    number.num() * (first.den() * second.den())
}
