ghost use Rattle.farkas_check.specs.Relations.{source_columns};
ghost use Rattle.farkas_check.specs.Walk.{IsListing};

use crate::Change;
use linear_terms::{Mono, Poly, Row};

/// Where columns come from: the rows and the terms of a case, or all cases and lower terms of a
/// stratum question.
#[derive(Clone, Copy)]
pub(crate) enum ColumnSource<'a> {
    OfCase(&'a [Row], &'a [(Mono, i128)]),
    OfStratum(&'a [Change], &'a [Poly]),
}

/// How many columns are listed at most.
pub(crate) const LISTED: usize = 256;

/// Columns. The first of them are listed in place, which takes no memory; the others are found by
/// going over all terms.
#[derive(Clone, Copy)]
pub(crate) struct Columns<'a> {
    pub(crate) source: ColumnSource<'a>,
    pub(crate) listed: [Option<Mono>; LISTED],
    ghost stand_there: { IsListing listed (source_columns source) },
}
