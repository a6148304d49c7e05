ghost use Rattle.std.specs.Prelude.{◌≡◌, ◌↔◌, ◌&&◌, nat_le, length, IsTrue};
ghost use Rattle.std.specs.List.{list_all};
ghost use Rattle.std.specs.Option.{SomeIff};
ghost use Rattle.transition_formula.specs.Transition.{Transition, fits, every_column, every_column_of, is_below, is_fitted, most_rows, most_auxiliaries, IsTransition};

use items::Items;
use linear_terms::{Case, Poly, Row};
use std::alloc::AllocError;
use std::marker::Model;

/// How many cases a formula, and how many rows and auxiliaries a case may have for the analysis to
/// go on with them.
const MOST_CASES: usize = 16;

const MOST_ROWS: usize = 64;

const MOST_AUXILIARIES: u32 = 64;

/// From the numbers of so many columns to those of so many, by one case or another. Each case has a
/// post for each column afterwards.
#[derive(Debug, Drop)]
pub struct Formula {
    pub(crate) from: u32,
    pub(crate) to: u32,
    pub(crate) cases: Items<Case>,
}

impl Model for Formula {
    ghost use Rattle.transition_formula.specs.Transition.{Transition, IsTransition};

    ghost Value = { Transition };

    ghost view = { λ f. record { from = f.from; to = f.to; cases = f.cases } };

    ghost invariant = { λ f. IsTransition f.from f.to f.cases };
}

impl Formula {
    /// None where a case has another number of posts than `to`, or a column that is neither one of
    /// `from` entry columns nor one of its auxiliaries.
    pub fn new(from: u32, to: u32, cases: Items<Case>) -> Option<Formula>
        ensures { SomeIff result (IsTransition from to cases)
            (record { from = from; to = to; cases = cases }) }
    {
        if all_fit(cases.as_slice(), from, to) {
            Some(Formula { from, to, cases })
        } else {
            None
        }
    }

    /// The formula of cases that fit.
    pub fn from_cases(from: u32, to: u32, cases: Items<Case>) -> Formula
        requires { IsTransition from to cases }
        ensures { result ≡ record { from = from; to = to; cases = cases } }
    {
        Formula { from, to, cases }
    }

    /// Whether two formulas are equal.
    pub fn same(&self, other: &Formula) -> bool
        ensures { IsTrue result ↔ (self.now ≡ other.now) }
    {
        self.from == other.from
            && self.to == other.to
            && are_same(self.cases.as_slice(), other.cases.as_slice())
    }

    /// Whether there are at most 16 cases, each of at most 64 rows and 64 auxiliaries.
    pub fn is_fitted(&self) -> bool
        ensures { result ≡ is_fitted self.now.cases }
    {
        self.cases.len() <= MOST_CASES && have_few_parts(self.cases.as_slice())
    }

    /// The number of columns at entry.
    pub fn from(&self) -> u32
        ensures { result ≡ self.now.from }
    {
        self.from
    }

    /// The number of columns afterwards.
    pub fn to(&self) -> u32
        ensures { result ≡ self.now.to }
    {
        self.to
    }

    /// The cases, one of which holds of any two states that the formula holds of.
    pub fn cases(&self) -> &[Case]
        ensures cases { result.now ≡ self.now.cases }
        ensures fit { IsTransition self.now.from self.now.to result.now }
    {
        self.cases.as_slice()
    }
}

impl Clone for Formula {
    ghost is_clone = { λ a b. b ≡ a };

    fn clone(&self) -> Result<Formula, AllocError> {
        let cases = self.cases.clone()?;
        Ok(Formula {
            from: self.from,
            to: self.to,
            cases,
        })
    }
}

fn are_same(cases: &[Case], others: &[Case]) -> bool
    ensures { IsTrue result ↔ (cases.now ≡ others.now) }
{
    cases == others
}

fn have_few_parts(cases: &[Case]) -> bool
    ensures { result
        ≡ list_all (λ case. nat_le (length case.rows) most_rows && nat_le case.aux most_auxiliaries)
        cases.now }
{
    cases.iter().all(|case| case.rows.len() <= MOST_ROWS && case.aux <= MOST_AUXILIARIES)
}

fn all_fit(cases: &[Case], from: u32, to: u32) -> bool
    ensures { result ≡ list_all (fits from to) cases.now }
{
    cases.iter().all(|case| fits(from, to, case))
}

fn fits(from: u32, to: u32, case: &Case) -> bool
    ensures { result ≡ fits from to case.now }
{
    case.post.len() == to as usize
        && rows_have_columns_below(case.rows.as_slice(), from, case.aux)
        && posts_have_columns_below(case.post.as_slice(), from, case.aux)
}

fn rows_have_columns_below(rows: &[Row], from: u32, aux: u32) -> bool
    ensures { result ≡ list_all (λ row. every_column (is_below from aux) row.poly) rows.now }
{
    rows.iter()
        .all(|row| has_columns_below(&row.poly, from, aux))
}

fn posts_have_columns_below(posts: &[Poly], from: u32, aux: u32) -> bool
    ensures { result ≡ list_all (every_column (is_below from aux)) posts.now }
{
    posts.iter().all(|post| has_columns_below(post, from, aux))
}

fn has_columns_below(poly: &Poly, from: u32, aux: u32) -> bool
    ensures { result ≡ every_column (is_below from aux) poly.now }
{
    poly.is_covered(from as usize, aux as usize)
}
