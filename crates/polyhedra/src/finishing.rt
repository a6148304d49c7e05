ghost use Rattle.std.specs.Prelude.{◌≡◌, length, take, IfOk};
ghost use Rattle.transition_formula.specs.Transition.{IsSolvable};
ghost use Rattle.posing.specs.Follows.{Asks};
ghost use Rattle.posing.specs.Logs.{Adds};
ghost use Rattle.polyhedra.specs.Finish.{told_count, cut_notes, cut_case, cut, finish_of_case};

use crate::settling::solve_noted;
use crate::thinning::thin_case;
use crate::{Log, Note, WorkError};
use farkas_check::Oracle;
use items::Items;
use linear_terms::{Case, Row};
use std::alloc::{AllocError, Global};

/// What is left of a case that is put in order, thinned and cut, if anything is.
#[tactic(auto, using(posing::proofs::Following::following), unfolding(crate::specs::Finish::finish_of_case))]
pub fn finish<O: Oracle>(
    alloc: Global,
    case: &Case,
    oracle: &mut O,
    log: &mut Log,
) -> Result<Option<Case>, WorkError>
    requires { IsSolvable case.now }
    ensures { Asks O.asking oracle log result (finish_of_case case.now) }
{
    match solve_noted(alloc, case, log)? {
        None => Ok(None),
        Some(ordered) => {
            let thinned = thin_case(alloc, ordered, oracle, log)?;
            let kept = cut(alloc, thinned, log)?;
            Ok(Some(kept))
        }
    }
}

/// The case with its first 64 rows; how many more there are is noted.
fn cut(alloc: Global, case: Case, log: &mut Log) -> Result<Case, AllocError>
    ensures noted { Adds (cut_notes (length case.rows)) log.old log.new result }
    ensures exact { IfOk result (λ kept. kept ≡ cut_case case) }
{
    let Case { aux, rows, post } = case;
    log.add_notes(cut_notes(alloc, rows.len())?)?;
    let rows = first_rows(rows);
    Ok(Case { aux, rows, post })
}

fn first_rows(rows: Items<Row>) -> Items<Row>
    ensures { result ≡ take 64 rows }
{
    let mut rows = rows.into_vec();
    rows.truncate(64);
    Items::from_vec(rows)
}

fn cut_notes(alloc: Global, rows: usize) -> Result<Items<Note>, AllocError>
    ensures { IfOk result (λ notes. notes ≡ cut_notes rows) }
{
    let mut notes = Items::new(alloc);
    if rows > 64 {
        notes.push(Note::Cut(told_count(rows - 64)))?;
    }
    Ok(notes)
}

pub(crate) fn told_count(count: usize) -> u32
    ensures { result ≡ told_count count }
{
    if count <= 4294967295 {
        count as u32
    } else {
        4294967295
    }
}
