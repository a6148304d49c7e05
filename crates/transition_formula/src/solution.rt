ghost use Rattle.std.specs.Prelude.{◌≡◌, ◌+◌, ◌<◌, ◌^◌, ◌++◌, Some, length, slice_get, count_by, IfOk, OnOk};
ghost use Rattle.std.specs.List.{flat_map, remove};
ghost use Rattle.std.specs.Option.{is_none};
ghost use Rattle.linear_terms.specs.declared.row.Row.{Row};
ghost use Rattle.transition_formula.specs.Loss.{answer_of, losses_of};
ghost use Rattle.transition_formula.specs.Composition.{row_of, rows_by, posts_by, by, losses_by};
ghost use Rattle.transition_formula.specs.Order.{solution, with_solution};
ghost use Rattle.transition_formula.specs.Rounds.{with_solved, losses_with_solved};

use crate::compose::column;
use crate::equations::{solution, with_solution};
use crate::loss::note;
use crate::tidy::push_some;
use crate::{FormulaError, Loss};
use items::Items;
use linear_terms::{Case, Col, Poly, Row};
use std::alloc::Global;

/// The case without the equation at a place, whose solution for an auxiliary is put in. Where the
/// solution leaves 128 bits the equation is lost.
pub(crate) fn without_equation(
    alloc: Global,
    case: Case,
    place: usize,
    aux: u32,
    losses: &mut Items<Loss>,
) -> Result<Case, FormulaError>
    requires there { place < length case.rows }
    requires few { (row : Row) → slice_get case.rows place ≡ Some row
        → (with_solved (solution row.poly aux) aux
        (record { aux = case.aux; rows = remove case.rows place; post = case.post })).aux < 2 ^ 32 }
    ensures exact { (row : Row) → slice_get case.rows place ≡ Some row
        → IfOk result
        (λ made. made ≡ with_solved (solution row.poly aux) aux
        (record { aux = case.aux; rows = remove case.rows place; post = case.post })) }
    ensures noted { (row : Row) → slice_get case.rows place ≡ Some row
        → OnOk result
        (losses.new ≡ losses.old ++ losses_with_solved (solution row.poly aux) aux
        (record { aux = case.aux; rows = remove case.rows place; post = case.post })) }
{
    let (equation, left) = row_and_rest(case, place);
    with_solved(alloc, left, &equation.poly, aux, losses)
}

/// The row at a place, and the case without it.
fn row_and_rest(case: Case, place: usize) -> (Row, Case)
    requires { place < length case.rows }
    ensures row { slice_get case.rows place ≡ Some result.0 }
    ensures rest { result.1
        ≡ record { aux = case.aux; rows = remove case.rows place; post = case.post } }
{
    let mut rows = case.rows.into_vec();
    let row = rows.remove(place);
    let left = Case {
        aux: case.aux,
        rows: Items::from_vec(rows),
        post: case.post,
    };
    (row, left)
}

/// The case in which the solution of an equation is put in; as it is where that leaves 128 bits,
/// which is noted.
fn with_solved(
    alloc: Global,
    case: Case,
    equation: &Poly,
    aux: u32,
    losses: &mut Items<Loss>,
) -> Result<Case, FormulaError>
    requires { (with_solved (solution equation.now aux) aux case).aux < 2 ^ 32 }
    ensures exact { IfOk result (λ made. made ≡ with_solved (solution equation.now aux) aux case) }
    ensures noted { OnOk result
        (losses.new ≡ losses.old ++ losses_with_solved (solution equation.now aux) aux case) }
{
    match solution(alloc, equation, aux) {
        Ok(by) => {
            let solution = Solution { aux, by };
            let rows = case.rows.as_slice();
            solution.put_in(alloc, case.aux, rows, case.post.as_slice(), losses)
        }
        Err(error) => {
            note(error, losses)?;
            Ok(case)
        }
    }
}

/// What an auxiliary is.
#[derive(Drop)]
struct Solution {
    aux: u32,
    by: Poly,
}

impl Solution {
    /// The case in which it is put in.
    fn put_in(
        &self,
        alloc: Global,
        count: u32,
        rows: &[Row],
        posts: &[Poly],
        losses: &mut Items<Loss>,
    ) -> Result<Case, FormulaError>
        requires { count + count_by
            (λ p. is_none (answer_of (with_solution self.now.aux self.now.by p))) posts.now
            < 2 ^ 32 }
        ensures exact { IfOk result
            (λ made. made ≡ by (with_solution self.now.aux self.now.by)
            (record { aux = count; rows = rows.now; post = posts.now })) }
        ensures noted { OnOk result
            (losses.new ≡ losses.old ++ losses_by (with_solution self.now.aux self.now.by)
            (record { aux = count; rows = rows.now; post = posts.now })) }
    {
        let made = self.rows(alloc, rows, losses)?;
        let (aux, post) = self.posts(alloc, posts, count, losses)?;
        Ok(Case {
            aux,
            rows: made,
            post,
        })
    }

    /// The rows in which it is put in. Those that are lost are noted.
    fn rows(
        &self,
        alloc: Global,
        rows: &[Row],
        losses: &mut Items<Loss>,
    ) -> Result<Items<Row>, FormulaError>
        ensures made { IfOk result
            (λ made. made ≡ rows_by (with_solution self.now.aux self.now.by) rows.now) }
        ensures noted { OnOk result
            (losses.new ≡ losses.old
            ++ flat_map (λ row. losses_of (with_solution self.now.aux self.now.by row.poly))
            rows.now) }
    {
        let mut made = Items::new(alloc);
        for row in rows {
            let row = self.row(alloc, row, losses)?;
            push_some(&mut made, row)?;
        }
        Ok(made)
    }

    /// A row in which it is put in, or none where that is lost, which is noted.
    #[tactic(auto, using(crate::proofs::Loops::row_of_answered))]
    fn row(
        &self,
        alloc: Global,
        row: &Row,
        losses: &mut Items<Loss>,
    ) -> Result<Option<Row>, FormulaError>
        ensures answer { IfOk result
            (λ made. made
            ≡ row_of row.now.kind (with_solution self.now.aux self.now.by row.now.poly)) }
        ensures noted { OnOk result
            (losses.new ≡ losses.old
            ++ losses_of (with_solution self.now.aux self.now.by row.now.poly)) }
    {
        match self.poly(alloc, &row.poly, losses)? {
            Some(poly) => Ok(Some(Row {
                poly,
                kind: row.kind,
            })),
            None => Ok(None),
        }
    }

    /// The posts in which it is put in, after how many auxiliaries there are then: one that is lost
    /// is the next.
    fn posts(
        &self,
        alloc: Global,
        posts: &[Poly],
        count: u32,
        losses: &mut Items<Loss>,
    ) -> Result<(u32, Items<Poly>), FormulaError>
        requires { count + count_by
            (λ p. is_none (answer_of (with_solution self.now.aux self.now.by p))) posts.now
            < 2 ^ 32 }
        ensures made { IfOk result
            (λ made. made.1 ≡ posts_by (with_solution self.now.aux self.now.by) count posts.now) }
        ensures count { IfOk result
            (λ made. made.0
            ≡ count + count_by (λ p. is_none (answer_of (with_solution self.now.aux self.now.by p)))
            posts.now) }
        ensures noted { OnOk result
            (losses.new ≡ losses.old
            ++ flat_map (λ p. losses_of (with_solution self.now.aux self.now.by p)) posts.now) }
    {
        let mut made = Items::new(alloc);
        let mut aux = count;
        for post in posts {
            let poly = if let Some(poly) = self.poly(alloc, post, losses)? {
                poly
            } else {
                let lost = column(alloc, Col::Aux(aux))?;
                aux += 1;
                lost
            };
            made.push(poly)?;
        }
        Ok((aux, made))
    }

    /// A polynomial in which it is put in, or none where that is lost, which is noted.
    fn poly(
        &self,
        alloc: Global,
        poly: &Poly,
        losses: &mut Items<Loss>,
    ) -> Result<Option<Poly>, FormulaError>
        ensures answer { IfOk result
            (λ p. p ≡ answer_of (with_solution self.now.aux self.now.by poly.now)) }
        ensures noted { OnOk result
            (losses.new ≡ losses.old
            ++ losses_of (with_solution self.now.aux self.now.by poly.now)) }
    {
        match with_solution(alloc, poly, self.aux, &self.by) {
            Ok(made) => Ok(Some(made)),
            Err(error) => {
                note(error, losses)?;
                Ok(None)
            }
        }
    }
}
