ghost use Rattle.std.specs.Prelude.{◌≡◌, ◌+◌, ◌<◌, ◌^◌, ◌++◌, ℤ, List, map, length, count_by, All, IfOk, OnErr, OnOk, IsTrue};
ghost use Rattle.std.specs.List.{flat_map, list_all, range_with_len};
ghost use Rattle.std.specs.Option.{is_none};
ghost use Rattle.linear_terms.specs.declared.col.Col.TheVariants.{Aux};
ghost use Rattle.linear_terms.specs.Polynomial.{column_of};
ghost use Rattle.linear_terms.specs.Operations.{substituted_polynomial};
ghost use Rattle.linear_terms.specs.Replacement.{HasPoly, put_in};
ghost use Rattle.transition_formula.specs.Loss.{answer_of, losses_of};
ghost use Rattle.transition_formula.specs.Meaning.{Holds};
ghost use Rattle.transition_formula.specs.Transition.{every_column, every_column_of, is_below, AreFew};
ghost use Rattle.transition_formula.specs.Composition.{rows_by, posts_by, after_case, sequence_of_cases, losses_by, sequence_of, losses_in_sequence};

use crate::compose::column;
use crate::loss::note;
use crate::{Formula, FormulaError, Loss};
use items::Items;
use linear_terms::{Case, Col, Poly, Row, subst};
use std::alloc::Global;

/// One formula and then another: each case of the first with each of the second, whose columns the
/// posts of the first are put in for. A row that is lost is left out, and a post that is lost may
/// be any number: each loss is noted after those that are there. After an error nothing is noted.
pub fn seq(
    alloc: Global,
    a: &Formula,
    b: &Formula,
    losses: &mut Items<Loss>,
) -> Result<Formula, FormulaError>
    requires between { a.now.to ≡ b.now.from }
    requires few { AreFew a.now b.now }
    ensures exact { IfOk result (λ f. f ≡ sequence_of a.now b.now) }
    ensures noted { OnOk result (losses.new ≡ losses.old ++ losses_in_sequence a.now b.now) }
    ensures kept { OnErr result (losses.new ≡ losses.old) }
    ensures at_least { (before middle after : List ℤ)
        → IfOk result (λ f. Holds a.now before middle → Holds b.now middle after
        → Holds f before after) }
    ensures at_most { (before after : List ℤ) → losses.new ≡ losses.old
        → IfOk result (λ f. Holds f before after
        → ((middle : List ℤ) × (Holds a.now before middle × Holds b.now middle after))) }
{
    let mut lost = Items::new(alloc);
    let formula = sequence_formula(alloc, a, b, &mut lost)?;
    losses.append(lost)?;
    Ok(formula)
}

/// The formula, and what is noted.
fn sequence_formula(
    alloc: Global,
    a: &Formula,
    b: &Formula,
    losses: &mut Items<Loss>,
) -> Result<Formula, FormulaError>
    requires between { a.now.to ≡ b.now.from }
    requires few { AreFew a.now b.now }
    ensures exact { IfOk result (λ f. f ≡ sequence_of a.now b.now) }
    ensures noted { OnOk result (losses.new ≡ losses.old ++ losses_in_sequence a.now b.now) }
    ensures at_least { (before middle after : List ℤ)
        → IfOk result (λ f. Holds a.now before middle → Holds b.now middle after
        → Holds f before after) }
    ensures at_most { (before after : List ℤ) → losses.new ≡ losses.old
        → IfOk result (λ f. Holds f before after
        → ((middle : List ℤ) × (Holds a.now before middle × Holds b.now middle after))) }
{
    let mut cases = Items::new(alloc);
    for first in a.cases() {
        before_each(alloc, first, b, losses, &mut cases)?;
    }
    Ok(Formula {
        from: a.from,
        to: b.to,
        cases,
    })
}

/// Puts one case before each of a formula, behind those that are made.
fn before_each(
    alloc: Global,
    first: &Case,
    b: &Formula,
    losses: &mut Items<Loss>,
    cases: &mut Items<Case>,
) -> Result<(), FormulaError>
    requires between { length first.now.post ≡ b.now.from }
    requires few { All (λ second. first.now.aux + second.aux + b.now.to < 2 ^ 32) b.now.cases }
    ensures made { OnOk result
        (cases.new ≡ cases.old ++ map (sequence_of_cases first.now) b.now.cases) }
    ensures noted { OnOk result
        (losses.new ≡ losses.old
        ++ flat_map (λ second. losses_by (after_case first.now second) second) b.now.cases) }
{
    for second in b.cases() {
        cases.push(sequence(alloc, first, second, losses)?)?;
    }
    Ok(())
}

/// One case and then another.
fn sequence(
    alloc: Global,
    first: &Case,
    second: &Case,
    losses: &mut Items<Loss>,
) -> Result<Case, FormulaError>
    requires covered { IsTrue
        (every_column_of (is_below (length first.now.post) second.now.aux) second.now) }
    requires few { first.now.aux + second.now.aux + length second.now.post < 2 ^ 32 }
    ensures exact { IfOk result (λ c. c ≡ sequence_of_cases first.now second.now) }
    ensures noted { OnOk result
        (losses.new ≡ losses.old ++ losses_by (after_case first.now second.now) second.now) }
{
    let aux = auxiliaries_from(alloc, first.aux, second.aux)?;
    let mut rows = first.rows.clone()?;
    let put_in = PutIn {
        at: first.post.as_slice(),
        aux: aux.as_slice(),
    };
    put_in.rows(alloc, second.rows.as_slice(), &mut rows, losses)?;
    let mut post = Items::new(alloc);
    let count = put_in.posts(
        alloc,
        second.post.as_slice(),
        first.aux + second.aux,
        &mut post,
        losses,
    )?;
    Ok(Case {
        aux: count,
        rows,
        post,
    })
}

/// Auxiliaries from a number on.
pub(crate) fn auxiliaries_from(
    alloc: Global,
    first: u32,
    count: u32,
) -> Result<Items<Poly>, FormulaError>
    requires { first + count < 2 ^ 32 }
    ensures { IfOk result
        (λ made. made ≡ map (λ n. column_of (Aux n)) (range_with_len first count)) }
{
    let mut made = Items::new(alloc);
    for number in first..first + count {
        made.push(column(alloc, Col::Aux(number))?)?;
    }
    Ok(made)
}

/// What is put in for the columns.
#[derive(Clone, Copy)]
pub(crate) struct PutIn<'a> {
    pub(crate) at: &'a [Poly],
    pub(crate) aux: &'a [Poly],
}

impl PutIn<'_> {
    /// The rows in which it is put in, behind others. Those that are lost are noted.
    pub(crate) fn rows(
        &self,
        alloc: Global,
        rows: &[Row],
        made: &mut Items<Row>,
        losses: &mut Items<Loss>,
    ) -> Result<(), FormulaError>
        requires { IsTrue
            (list_all (λ row. every_column
            (is_below (length self.now.at.now) (length self.now.aux.now)) row.poly) rows.now) }
        ensures made { OnOk result
            (made.new ≡ made.old ++ rows_by (substituted_polynomial (put_in self.now.at.now self.now.aux.now))
            rows.now) }
        ensures noted { OnOk result
            (losses.new ≡ losses.old
            ++ flat_map (λ row. losses_of
            (substituted_polynomial (put_in self.now.at.now self.now.aux.now) row.poly)) rows.now) }
    {
        for row in rows {
            if let Some(poly) = self.poly(alloc, &row.poly, losses)? {
                made.push(Row {
                    poly,
                    kind: row.kind,
                })?;
            }
        }
        Ok(())
    }

    /// The posts in which it is put in, and how many auxiliaries there are then: one that is lost
    /// is the next.
    pub(crate) fn posts(
        &self,
        alloc: Global,
        posts: &[Poly],
        aux: u32,
        made: &mut Items<Poly>,
        losses: &mut Items<Loss>,
    ) -> Result<u32, FormulaError>
        requires covered { IsTrue
            (list_all (every_column (is_below (length self.now.at.now) (length self.now.aux.now)))
            posts.now) }
        requires few { aux + length posts.now < 2 ^ 32 }
        ensures made { OnOk result
            (made.new ≡ made.old ++ posts_by (substituted_polynomial (put_in self.now.at.now self.now.aux.now))
            aux posts.now) }
        ensures count { IfOk result
            (λ n. n ≡ aux + count_by
            (λ p. is_none (answer_of (substituted_polynomial (put_in self.now.at.now self.now.aux.now) p)))
            posts.now) }
        ensures noted { OnOk result
            (losses.new ≡ losses.old
            ++ flat_map (λ p. losses_of (substituted_polynomial (put_in self.now.at.now self.now.aux.now) p))
            posts.now) }
    {
        let mut aux = aux;
        for post in posts {
            let poly = if let Some(poly) = self.poly(alloc, post, losses)? {
                poly
            } else {
                aux += 1;
                column(alloc, Col::Aux(aux - 1))?
            };
            made.push(poly)?;
        }
        Ok(aux)
    }

    /// A polynomial in which it is put in, or none where that is lost, which is noted.
    fn poly(
        &self,
        alloc: Global,
        poly: &Poly,
        losses: &mut Items<Loss>,
    ) -> Result<Option<Poly>, FormulaError>
        requires { IsTrue
            (every_column (is_below (length self.now.at.now) (length self.now.aux.now)) poly.now) }
        ensures answer { IfOk result
            (λ p. p ≡ answer_of (substituted_polynomial (put_in self.now.at.now self.now.aux.now) poly.now)) }
        ensures noted { OnOk result
            (losses.new ≡ losses.old
            ++ losses_of (substituted_polynomial (put_in self.now.at.now self.now.aux.now) poly.now)) }
    {
        match subst(alloc, poly, self.at, self.aux) {
            Ok(made) => Ok(Some(made)),
            Err(error) => {
                note(error, losses)?;
                Ok(None)
            }
        }
    }
}
