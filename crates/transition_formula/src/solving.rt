ghost use Rattle.std.specs.Prelude.{◌≡◌, ℕ, ℤ, List, ◌+◌, ◌<◌, ◌^◌, ◌++◌, length, IfOk, OnErr, OnOk, IsTrue};
ghost use Rattle.std.specs.Option.{option_map};
ghost use Rattle.linear_terms.specs.Auxiliaries.{is_numbered};
ghost use Rattle.transition_formula.specs.Meaning.{HoldsCase, HoldsSolved};
ghost use Rattle.transition_formula.specs.Transition.{every_column_of, fits};
ghost use Rattle.transition_formula.specs.Rows.{tidied_rows};
ghost use Rattle.transition_formula.specs.Renumbering.{renumbered_case};
ghost use Rattle.transition_formula.specs.declared.solving.Solved.TheVariants.{Kept};
ghost use Rattle.transition_formula.specs.Rounds.{with_rows, in_order, solved_answer, Stays};

use crate::equations::first_equation;
use crate::numbering::renumbered_case;
use crate::solution::without_equation;
use crate::tidy::tidy;
use crate::{FormulaError, Loss};
use items::Items;
use linear_terms::{Case, see_rows};
use std::alloc::Global;

/// What is left of a case that is put in order.
#[derive(Debug, PartialEq, Eq, Drop)]
pub enum Solved {
    Kept(Case),
    /// No numbers make the rows true.
    False,
}

/// Puts a case in order: its rows are tidied, and equations solved for auxiliaries, until no more
/// can be. What is lost is left out and noted after what is there. What comes of the case holds of
/// at least what it held of, and of no more where nothing was lost. After an error nothing is noted.
pub fn solve(alloc: Global, case: &Case, losses: &mut Items<Loss>) -> Result<Solved, FormulaError>
    requires numbered { IsTrue (every_column_of (is_numbered case.now.aux) case.now) }
    requires few { case.now.aux + length case.now.post < 2 ^ 32 }
    ensures exact { IfOk result (λ made. made ≡ solved_answer (in_order case.now).left) }
    ensures noted { OnOk result (losses.new ≡ losses.old ++ (in_order case.now).losses) }
    ensures kept { OnErr result (losses.new ≡ losses.old) }
    ensures at_least { (before after : List ℤ)
        → IfOk result (λ made. HoldsCase case.now before after → HoldsSolved made before after) }
    ensures at_most { (before after : List ℤ) → losses.new ≡ losses.old
        → IfOk result (λ made. HoldsSolved made before after → HoldsCase case.now before after) }
    ensures fits { (from to : ℕ) → IsTrue (fits from to case.now)
        → IfOk result (Stays (λ c. IsTrue (fits from to c))) }
{
    let mut lost = Items::new(alloc);
    let solved = solved_case(alloc, case, &mut lost)?;
    losses.append(lost)?;
    Ok(solved)
}

/// What is left of the case, and what is noted.
fn solved_case(alloc: Global, case: &Case, losses: &mut Items<Loss>) -> Result<Solved, FormulaError>
    requires numbered { IsTrue (every_column_of (is_numbered case.now.aux) case.now) }
    requires few { case.now.aux + length case.now.post < 2 ^ 32 }
    ensures exact { IfOk result (λ made. made ≡ solved_answer (in_order case.now).left) }
    ensures noted { OnOk result (losses.new ≡ losses.old ++ (in_order case.now).losses) }
    ensures at_least { (before after : List ℤ)
        → IfOk result (λ made. HoldsCase case.now before after → HoldsSolved made before after) }
    ensures at_most { (before after : List ℤ) → losses.new ≡ losses.old
        → IfOk result (λ made. HoldsSolved made before after → HoldsCase case.now before after) }
    ensures fits { (from to : ℕ) → IsTrue (fits from to case.now)
        → IfOk result (Stays (λ c. IsTrue (fits from to c))) }
{
    see_rows(case.rows.as_slice());
    in_order(alloc, case, losses)
}

fn in_order(alloc: Global, case: &Case, losses: &mut Items<Loss>) -> Result<Solved, FormulaError>
    requires numbered { IsTrue (every_column_of (is_numbered case.now.aux) case.now) }
    requires few { case.now.aux + length case.now.post < 2 ^ 32 }
    ensures exact { IfOk result (λ made. made ≡ solved_answer (in_order case.now).left) }
    ensures noted { OnOk result (losses.new ≡ losses.old ++ (in_order case.now).losses) }
{
    let mut left = case.clone()?;
    for _round in 0..case.rows.len() {
        let Some(tidied) = tidied_case(alloc, left, losses)? else {
            return Ok(Solved::False);
        };
        let Some((place, aux)) = first_equation(tidied.rows.as_slice()) else {
            let made = kept_case(alloc, tidied)?;
            return Ok(made);
        };
        left = without_equation(alloc, tidied, place, aux, losses)?;
    }
    let made = kept_case(alloc, left)?;
    Ok(made)
}

/// The case with its auxiliaries numbered anew.
fn kept_case(alloc: Global, case: Case) -> Result<Solved, FormulaError>
    requires { IsTrue (every_column_of (is_numbered case.aux) case) }
    ensures { IfOk result (λ made. made ≡ Kept (renumbered_case case)) }
{
    let made = renumbered_case(alloc, &case)?;
    Ok(Solved::Kept(made))
}

/// The case with its rows tidied; none where they can't all be true.
fn tidied_case(
    alloc: Global,
    case: Case,
    losses: &mut Items<Loss>,
) -> Result<Option<Case>, FormulaError>
    ensures exact { IfOk result
        (λ made. made ≡ option_map (with_rows case) (tidied_rows case.rows).rows) }
    ensures noted { OnOk result (losses.new ≡ losses.old ++ (tidied_rows case.rows).losses) }
{
    let Some(rows) = tidy(alloc, case.rows.as_slice(), losses)? else {
        return Ok(None);
    };
    Ok(Some(Case {
        aux: case.aux,
        rows,
        post: case.post,
    }))
}
