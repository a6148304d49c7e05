use crate::asker::Asker;
use finder::Finder;

/// For how many pairs of a direction and a case of a step bounds are sought.
const MOST_BOUNDS: usize = 100_000;

/// How many pairs of a row and a case of a step are judged.
const MOST_JUDGEMENTS: usize = 200_000;

/// How much the search may ask for the fourth power of the number of a program's points. It is
/// counted as weights of questions.
const ASKED_BY_POINTS: u64 = 700;

/// How much the search of a program with few points may ask.
const MOST_FOR_FEW: u64 = 6_500_000;

/// How much the search of a program with many points may ask.
const MOST_FOR_MANY: u64 = 30_000_000;

/// Of how much that the analysis asked the search may ask one less.
const ASKED_BEFORE: u64 = 3;

/// How much the search may ask at least, however much the analysis did.
const LEAST_ASKED: u64 = 1_000_000;

/// How often rows are dropped by steps that are made by what is left at exits.
pub(crate) const MOST_MAKINGS: usize = 64;

/// What a search may still do, and whether it was cut, since that was not enough.
#[derive(Drop)]
pub(crate) struct SearchLeft {
    bounds: usize,
    pub(crate) judgements: CaseJudgements,
    pub(crate) asker: Asker,
    /// A quarter of what might be asked as the search began.
    quarter: u64,
    pub(crate) is_cut: bool,
}

/// How many rows may still be judged by cases, and how many cases that were judged by had no points
/// under the rows where they begin.
#[derive(Drop)]
pub(crate) struct CaseJudgements {
    left: usize,
    empty: usize,
    others: usize,
}

impl CaseJudgements {
    /// Whether so many rows may be judged by one more case.
    pub(crate) fn takes(&mut self, count: usize) -> bool {
        if self.left < count {
            return false;
        }
        self.left = self.left.saturating_sub(count);
        true
    }

    /// Counts a case that was judged by.
    pub(crate) fn count(&mut self, is_empty: bool) {
        if is_empty {
            self.empty = self.empty.saturating_add(1);
        } else {
            self.others = self.others.saturating_add(1);
        }
    }

    /// Whether most cases so far had no points.
    pub(crate) fn are_mostly_empty(&self) -> bool {
        self.others < self.empty
    }
}

impl SearchLeft {
    /// What a search for rows at so many points may do, of which the analysis asked the finder, or
    /// those beside it, before.
    pub(crate) fn new(finder: Finder, points: usize) -> SearchLeft {
        let less = finder.weight_so_far() / ASKED_BEFORE;
        let left = most_weight(points).saturating_sub(less).max(LEAST_ASKED);
        SearchLeft {
            bounds: MOST_BOUNDS,
            judgements: CaseJudgements {
                left: MOST_JUDGEMENTS,
                empty: 0,
                others: 0,
            },
            asker: Asker::new(finder, left),
            quarter: left / 4,
            is_cut: false,
        }
    }

    /// Whether bounds in so many directions may be sought for one more case.
    pub(crate) fn takes_bounds(&mut self, count: usize) -> bool {
        if self.bounds < count {
            self.is_cut = true;
            return false;
        }
        self.bounds = self.bounds.saturating_sub(count);
        true
    }

    /// Whether more than three quarters of what might be asked were.
    pub(crate) fn is_nearly_spent(&self) -> bool {
        self.asker.left < self.quarter
    }
}

/// How much the search of a program with so many points may ask, where its analysis asked nothing.
fn most_weight(points: usize) -> u64 {
    let square = (points as u64).saturating_mul(points as u64);
    square
        .saturating_mul(square)
        .saturating_mul(ASKED_BY_POINTS)
        .max(MOST_FOR_FEW)
        .min(MOST_FOR_MANY)
}
