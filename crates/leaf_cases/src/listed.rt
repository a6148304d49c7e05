ghost use Rattle.std.specs.Prelude.{◌≡◌, ◌+◌, ◌<◌, ◌^◌, ◌++◌, map, IfOk, OnOk, IsTrue};
ghost use Rattle.std.specs.List.{list_all, range_with_len};
ghost use Rattle.linear_terms.specs.Auxiliaries.{renumbered_polynomial, is_numbered};
ghost use Rattle.transition_formula.specs.Renumbering.{renumbered_row};
ghost use Rattle.transition_formula.specs.Transition.{every_column, every_column_of};
ghost use Rattle.leaf_cases.specs.Listed.{AreReady, beside, both};

use items::Items;
use linear_terms::{Case, Poly, Row, renumbered_poly};
use std::alloc::Global;
use transition_formula::FormulaError;

/// Each case of the one with each of the other, of one state.
#[tactic(auto, unfolding(crate::specs::Listed::both))]
pub(crate) fn both(
    alloc: Global,
    firsts: &[Case],
    seconds: &[Case],
) -> Result<Items<Case>, FormulaError>
    requires firsts { AreReady (2 ^ 30) firsts.now }
    requires seconds { AreReady (2 ^ 30) seconds.now }
    ensures { IfOk result (λ made. made ≡ both firsts.now seconds.now) }
{
    let mut made = Items::new(alloc);
    for first in firsts {
        push_beside(alloc, first, seconds, &mut made)?;
    }
    Ok(made)
}

/// One case with each of a list, behind what is made.
fn push_beside(
    alloc: Global,
    first: &Case,
    seconds: &[Case],
    made: &mut Items<Case>,
) -> Result<(), FormulaError>
    requires first { first.now.aux < 2 ^ 30 }
    requires seconds { AreReady (2 ^ 30) seconds.now }
    ensures { OnOk result (made.new ≡ made.old ++ map (beside first.now) seconds.now) }
{
    for second in seconds {
        made.push(beside(alloc, first, second)?)?;
    }
    Ok(())
}

/// Two cases of one state together: the auxiliaries of the second come after those of the first.
fn beside(alloc: Global, first: &Case, second: &Case) -> Result<Case, FormulaError>
    requires few { first.now.aux + second.now.aux < 2 ^ 32 }
    requires numbered { IsTrue (every_column_of (is_numbered second.now.aux) second.now) }
    ensures { IfOk result (λ c. c ≡ beside first.now second.now) }
{
    let numbers = numbers_from(alloc, first.aux, second.aux)?;
    let later = Later {
        first: first.aux,
        count: second.aux,
        numbers: numbers.as_slice(),
    };
    let mut rows = first.rows.clone()?;
    later.push_rows(alloc, second.rows.as_slice(), &mut rows)?;
    let mut post = first.post.clone()?;
    later.push_posts(alloc, second.post.as_slice(), &mut post)?;
    Ok(Case {
        aux: first.aux + second.aux,
        rows,
        post,
    })
}

/// The numbers from one on.
fn numbers_from(alloc: Global, first: u32, count: u32) -> Result<Items<u32>, FormulaError>
    requires { first + count < 2 ^ 32 }
    ensures { IfOk result (λ made. made ≡ range_with_len first count) }
{
    let mut made = Items::new(alloc);
    for number in first..first + count {
        made.push(number)?;
    }
    Ok(made)
}

/// Numbers for auxiliaries, that many from the first on.
#[derive(Clone, Copy)]
struct Later<'a> {
    first: u32,
    count: u32,
    numbers: &'a [u32],
}

impl Later<'_> {
    /// The rows over the auxiliaries with these numbers, behind others.
    fn push_rows(
        &self,
        alloc: Global,
        rows: &[Row],
        made: &mut Items<Row>,
    ) -> Result<(), FormulaError>
        requires numbers { self.now.numbers.now ≡ range_with_len self.now.first self.now.count }
        requires numbered { IsTrue
            (list_all (λ row. every_column (is_numbered self.now.count) row.poly) rows.now) }
        ensures { OnOk result
            (made.new ≡ made.old ++ map (renumbered_row (λ n. self.now.first + n)) rows.now) }
    {
        for row in rows {
            let poly = self.poly(alloc, &row.poly)?;
            made.push(Row {
                poly,
                kind: row.kind,
            })?;
        }
        Ok(())
    }

    /// The posts over the auxiliaries with these numbers, behind others.
    fn push_posts(
        &self,
        alloc: Global,
        posts: &[Poly],
        made: &mut Items<Poly>,
    ) -> Result<(), FormulaError>
        requires numbers { self.now.numbers.now ≡ range_with_len self.now.first self.now.count }
        requires numbered { IsTrue
            (list_all (every_column (is_numbered self.now.count)) posts.now) }
        ensures { OnOk result
            (made.new ≡ made.old ++ map (renumbered_polynomial (λ n. self.now.first + n)) posts.now) }
    {
        for post in posts {
            made.push(self.poly(alloc, post)?)?;
        }
        Ok(())
    }

    /// A polynomial over the auxiliaries with these numbers.
    fn poly(&self, alloc: Global, poly: &Poly) -> Result<Poly, FormulaError>
        requires numbers { self.now.numbers.now ≡ range_with_len self.now.first self.now.count }
        requires numbered { IsTrue (every_column (is_numbered self.now.count) poly.now) }
        ensures { IfOk result (λ p. p ≡ renumbered_polynomial (λ n. self.now.first + n) poly.now) }
    {
        Ok(renumbered_poly(alloc, poly, self.numbers)?)
    }
}
