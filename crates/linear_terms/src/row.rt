ghost use Rattle.std.specs.Prelude.{◌≡◌, ◌↔◌, IsTrue};
ghost use Rattle.linear_terms.specs.Row.{AreCanonical};

use crate::Poly;
use items::Items;
use std::alloc::AllocError;

/// What a row says of its polynomial, that it is at most zero or that it is zero.
#[derive(Clone, Copy, Debug, PartialEq, Eq)]
pub enum Kind {
    AtMost,
    Equal,
}

/// Says that the polynomial is at most zero, or is zero.
#[derive(Debug, PartialEq, Eq, Drop)]
pub struct Row {
    pub poly: Poly,
    pub kind: Kind,
}

impl Row {
    /// Whether two rows are equal.
    pub fn same(&self, other: &Row) -> bool
        ensures { IsTrue result ↔ (self.now ≡ other.now) }
    {
        self == other
    }
}

impl Clone for Row {
    ghost is_clone = { λ a b. b ≡ a };

    fn clone(&self) -> Result<Row, AllocError> {
        let poly = self.poly.clone()?;
        Ok(Row {
            poly,
            kind: self.kind,
        })
    }
}

/// Each row has its monomials in print order, each once, with numbers that are not zero. It goes
/// over the rows and has no part in an answer: a list of rows does not hand out what the type of
/// its polynomials keeps.
pub fn see_rows(rows: &[Row])
    ensures { AreCanonical rows.now }
{
    for row in rows {
        let _ = row.poly.terms();
    }
}

/// Rows over columns of which `aux` are auxiliary, and a polynomial for each number afterwards.
#[derive(Debug, PartialEq, Eq, Drop)]
pub struct Case {
    pub aux: u32,
    pub rows: Items<Row>,
    pub post: Items<Poly>,
}

impl Case {
    /// Whether two cases are equal.
    pub fn same(&self, other: &Case) -> bool
        ensures { IsTrue result ↔ (self.now ≡ other.now) }
    {
        self == other
    }
}

impl Clone for Case {
    ghost is_clone = { λ a b. b ≡ a };

    fn clone(&self) -> Result<Case, AllocError> {
        let rows = self.rows.clone()?;
        let post = self.post.clone()?;
        Ok(Case {
            aux: self.aux,
            rows,
            post,
        })
    }
}

/// A row in normal form, or whether a row without columns holds.
#[derive(Clone, Debug, PartialEq, Eq, Drop)]
pub enum Normal {
    Constant(bool),
    Kept(Row),
}
