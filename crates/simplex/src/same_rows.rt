ghost use Rattle.std.specs.Prelude.{◌≡◌, IsTrue};

use linear_terms::{Mono, Poly, Row};

/// Whether rows are equal. Those of a case are compared with kept ones for each supremum, and
/// mostly are equal, so all is looked at once.
pub(crate) fn are_rows(own: &[Row], rows: &[Row]) -> bool
    ensures { IsTrue result → own.now ≡ rows.now }
{
    let mut left = own;
    let mut right = rows;
    while let Some((row, more)) = left.split_first() {
        let Some((other, others)) = right.split_first() else {
            return false;
        };
        if !is_row(row, other) {
            return false;
        }
        left = more;
        right = others;
    }
    right.is_empty()
}

fn is_row(own: &Row, row: &Row) -> bool
    ensures { IsTrue result → own.now ≡ row.now }
{
    own.kind == row.kind && is_poly(&own.poly, &row.poly)
}

fn is_poly(own: &Poly, poly: &Poly) -> bool
    ensures { IsTrue result → own.now ≡ poly.now }
{
    own.rest() == poly.rest() && are_terms(own.terms(), poly.terms())
}

fn are_terms(own: &[(Mono, i128)], terms: &[(Mono, i128)]) -> bool
    ensures { IsTrue result → own.now ≡ terms.now }
{
    let mut left = own;
    let mut right = terms;
    while let Some((term, more)) = left.split_first() {
        let Some((other, others)) = right.split_first() else {
            return false;
        };
        if !is_term(term, other) {
            return false;
        }
        left = more;
        right = others;
    }
    right.is_empty()
}

fn is_term(own: &(Mono, i128), term: &(Mono, i128)) -> bool
    ensures { IsTrue result → own.now ≡ term.now }
{
    own.1 == term.1 && is_mono(&own.0, &term.0)
}

/// Mostly both are one column.
fn is_mono(own: &Mono, mono: &Mono) -> bool
    ensures { IsTrue result → own.now ≡ mono.now }
{
    match (own.columns(), mono.columns()) {
        ([column], [other]) => *column == *other,
        _ => *own == *mono,
    }
}
