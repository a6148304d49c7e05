ghost use Rattle.std.specs.Prelude.{◌≡◌, ◌<◌, ◌≤◌, ℕ, [], length, get_or, IsTrue, IfOk, IfSome};
ghost use Rattle.std.specs.Map.{keys_of};
ghost use Rattle.items.specs.Gives.{Gives};
ghost use Rattle.farkas_check.proofs.Spreads.{AreAmong};
ghost use Rattle.farkas_check.proofs.Walks.{IsOrdered};
ghost use Rattle.simplex.specs.Endings.{cleared_line, IsFront, IsMetFor, StandsAt};
ghost use Rattle.simplex.specs.Exchange.{cause};

use crate::frame::ordered_line;
use crate::gauss::Stage;
use crate::tableau::line_without;
use crate::{SearchStop, Tableau};
use items::Items;
use linear_terms::{Mono, Poly, Row};
use std::alloc::{AllocError, Global};

/// The line cleared at the columns that lines choose, one after another.
fn cleared_line(
    alloc: Global,
    lines: &[Items<i128>],
    chosen: &[usize],
    line: Items<i128>,
) -> Result<Items<i128>, SearchStop>
    requires many { length lines.now ≤ length chosen.now }
    requires choices { (k : ℕ) → k < length lines.now → get_or chosen.now k 0 < length line }
    requires wide { (k : ℕ) → k < length lines.now → length (get_or lines.now k []) ≡ length line }
    ensures exact { Gives cause (λ made. made) result (cleared_line lines.now chosen.now 0 line) }
{
    let mut made = line;
    for (k, pivot) in lines.iter().enumerate() {
        let column = chosen[k];
        if made[column] != 0 {
            made = line_without(alloc, made, column, pivot.as_slice())?;
        }
    }
    Ok(made)
}

/// The lines without the last one.
fn front_of(lines: Items<Items<i128>>) -> Items<Items<i128>>
    requires { 0 < length lines }
    ensures { IsFront lines result }
{
    let mut front = lines;
    front.pop();
    front
}

/// The corner with another objective as its goal, and whether each of the objective's monomials is
/// known to be one of the columns; none where a step leaves 128 bits.
pub(crate) fn stage_for_goal(
    alloc: Global,
    columns: &[Mono],
    rows: &[Row],
    stage: Stage,
    objective: &Poly,
) -> Result<Option<(Stage, bool)>, AllocError>
    requires ordered { IsOrdered columns.now }
    requires stands { StandsAt columns.now rows.now stage.enters stage.tableau }
    ensures met { IfOk result
        (λ found. IfSome found
        (λ r. IsMetFor columns.now rows.now objective.now r.0.enters r.0.tableau)) }
    ensures among { IfOk result
        (λ found. IfSome found
        (λ r. IsTrue r.1 → AreAmong (keys_of objective.now.terms) columns.now)) }
{
    let count = rows.len();
    let (own, among) = ordered_line(alloc, objective, columns, count, count + 1)?;
    let Stage { tableau, enters } = stage;
    let Tableau { lines, chosen } = tableau;
    let mut lines = front_of(lines);
    match cleared_line(alloc, lines.as_slice(), chosen.as_slice(), own) {
        Ok(line) => {
            lines.push(line)?;
            let tableau = Tableau { lines, chosen };
            Ok(Some((Stage { tableau, enters }, among)))
        }
        Err(SearchStop::Wide(_step)) => Ok(None),
        Err(SearchStop::Memory) => Err(AllocError),
    }
}
