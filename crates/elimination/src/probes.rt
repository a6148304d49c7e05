ghost use Rattle.std.specs.Prelude.{◌≡◌, ◌≤◌, [], unsigned_abs};
ghost use Rattle.std.specs.List.{AllByRecursion};
ghost use Rattle.farkas_check.specs.Relations.{sides};
ghost use Rattle.farkas_check.specs.Sizes.{HasNumbersUpTo};
ghost use Rattle.elimination.specs.Probes.{read_at, one_at, side_at, probe_at, IsProbe};
ghost use Rattle.elimination.specs.Stages.{HasSmallTerms};

use farkas_check::Change;
use linear_terms::{Mono, Poly};

/// Where a difference is read: in the case at a place, the coefficient at the column of a place, or
/// behind the columns the constant.
#[derive(Clone, Copy, Drop)]
pub(crate) struct Probe {
    pub(crate) case: usize,
    pub(crate) place: usize,
}

/// What stands at an unknown, at a probe.
pub(crate) fn probe_value(
    columns: &[Mono],
    cases: &[Change],
    lower: &[Poly],
    probe: &Probe,
    unknown: usize,
) -> i128
    requires small { HasSmallTerms cases.now lower.now }
    requires probe { IsProbe columns.now cases.now probe.now }
    ensures value { result ≡ probe_at columns.now cases.now lower.now probe.now unknown }
    ensures small { unsigned_abs result ≤ 4 }
{
    let terms = cases[probe.case].terms.as_slice();
    side(columns, terms, lower, probe.place, unknown)
}

/// What stands at an unknown, at a place of a case with these terms.
fn side(columns: &[Mono], terms: &[Poly], lower: &[Poly], place: usize, unknown: usize) -> i128
    requires terms { AllByRecursion (HasNumbersUpTo 4) terms.now }
    requires lower { AllByRecursion (HasNumbersUpTo 4) lower.now }
    ensures value { result ≡ side_at columns.now place (sides terms.now lower.now) unknown }
    ensures small { unsigned_abs result ≤ 4 }
{
    if unknown < terms.len() {
        return read(columns, place, &terms[unknown]);
    }
    lower_side(columns, lower, place, unknown - terms.len())
}

/// The same behind the terms.
fn lower_side(columns: &[Mono], lower: &[Poly], place: usize, behind: usize) -> i128
    requires { AllByRecursion (HasNumbersUpTo 4) lower.now }
    ensures value { result ≡ side_at columns.now place (sides [] lower.now) behind }
    ensures small { unsigned_abs result ≤ 4 }
{
    if behind < lower.len() {
        return -read(columns, place, &lower[behind]);
    }
    if behind == lower.len() {
        return -one(columns, place);
    }
    0
}

/// What a polynomial has at a place: its coefficient at the column there, or its constant.
fn read(columns: &[Mono], place: usize, poly: &Poly) -> i128
    requires { HasNumbersUpTo 4 poly.now }
    ensures value { result ≡ read_at columns.now place poly.now }
    ensures small { unsigned_abs result ≤ 4 }
{
    if place < columns.len() {
        return poly.coefficient(&columns[place]);
    }
    if place == columns.len() {
        return poly.rest();
    }
    0
}

/// What the polynomial 1 has at a place.
fn one(columns: &[Mono], place: usize) -> i128
    ensures value { result ≡ one_at columns.now place }
    ensures small { unsigned_abs result ≤ 4 }
{
    if place == columns.len() { 1 } else { 0 }
}
