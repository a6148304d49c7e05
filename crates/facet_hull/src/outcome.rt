use farkas_check::Limit;
use items::Items;
use linear_terms::Poly;

/// What is found of the exact hull of a body.
#[derive(Drop)]
pub enum Facets {
    /// The normals, as polynomials over the modified variables.
    Normals(Items<Poly>),
    /// The body has too many variables or cases, or one of them too many rows or monomials.
    Beyond,
    /// A step leaves 128 bits.
    Limit(Limit),
}
