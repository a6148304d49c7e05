//! Whether auxiliaries are numbered below a count, and few.
ghost use Rattle.std.specs.Prelude.{◌≡◌, ◌+◌, ◌-◌, ◌<◌, ◌≤◌, ◌^◌, nat_lt, All, IsTrue};
ghost use Rattle.std.specs.List.{list_all};
ghost use Rattle.linear_terms.specs.Auxiliaries.{is_numbered};
ghost use Rattle.transition_formula.specs.Transition.{every_column};

use linear_terms::{Case, Col, Mono, Poly, Row};

fn poly_is_numbered(poly: &Poly, aux: u32) -> bool
    ensures { result ≡ every_column (is_numbered aux) poly.now }
{
    poly.terms()
        .iter()
        .all(|(mono, _)| mono_is_numbered(mono, aux))
}

fn mono_is_numbered(mono: &Mono, aux: u32) -> bool
    ensures { result ≡ list_all (is_numbered aux) mono.now }
{
    mono.columns().iter().all(|col| col_is_numbered(*col, aux))
}

fn col_is_numbered(col: Col, aux: u32) -> bool
    ensures { result ≡ is_numbered aux col }
{
    match col {
        Col::At(_) => true,
        Col::Aux(number) => number < aux,
    }
}

pub(crate) fn rows_are_numbered(rows: &[Row], aux: u32) -> bool
    ensures { result ≡ list_all (λ row. every_column (is_numbered aux) row.poly) rows.now }
{
    rows.iter().all(|row| poly_is_numbered(&row.poly, aux))
}

pub(crate) fn posts_are_numbered(posts: &[Poly], aux: u32) -> bool
    ensures { result ≡ list_all (every_column (is_numbered aux)) posts.now }
{
    posts.iter().all(|post| poly_is_numbered(post, aux))
}

/// Whether the auxiliaries are surely few enough to hide entry columns.
pub(crate) fn hide_few(cases: &[Case], from: u32, n: u32, to: u32) -> bool
    requires { n ≤ from }
    ensures { IsTrue result → All (λ case. case.aux + (from - n) + to < 2 ^ 32) cases.now }
{
    if from >= 1000 || to >= 1000 {
        return false;
    }
    have_few(cases)
}

/// Whether each place is below an end.
pub(crate) fn are_below(places: &[u32], end: u32) -> bool
    ensures { IsTrue result → All (λ place. place < end) places.now }
{
    places.iter().all(|place| *place < end)
}

fn have_few(cases: &[Case]) -> bool
    ensures { result ≡ list_all (λ case. nat_lt case.aux 1000) cases.now }
{
    cases.iter().all(|case| case.aux < 1000)
}

/// Whether the auxiliaries of both are surely few enough for a sequence.
pub(crate) fn are_few(first: &[Case], second: &[Case], to: u32) -> bool
    ensures { IsTrue result
        → All (λ x. All (λ y. x.aux + y.aux + to < 2 ^ 32) second.now) first.now }
{
    if to >= 1000 {
        return false;
    }
    if !have_few(first) {
        return false;
    }
    have_few(second)
}
