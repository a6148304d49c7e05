use items::Items;

/// Rational numbers: whole numerators over one denominator.
#[derive(Debug, Drop)]
pub struct Point {
    pub numbers: Items<i128>,
    pub over: i128,
}
