ghost use Rattle.std.specs.Prelude.{◌≡◌, [], All, length, map, IfOk};
ghost use Rattle.std.specs.List.{AllByRecursion};
ghost use Rattle.posing.specs.Follows.{Asks};
ghost use Rattle.posing.specs.Posing.{each};
ghost use Rattle.polyhedra.specs.Bounds.{IsCovered, IsCoveredByPosts, rows_with_exit_bound};
ghost use Rattle.polyhedra.specs.Directions.{directions};
ghost use Rattle.leaf_cases.specs.Guard.{columns_of};
ghost use Rattle.newton_rounds.specs.Candidates.{candidate_formula, candidate_of, paired_case, table_of};
ghost use Rattle.newton_rounds.specs.Between.{AreCandidates, IsMember, IsRowOver, IsSummary};
ghost use Rattle.newton_rounds.specs.Shapes.{AreEnds};

use crate::chains::exits_told;
use crate::ends::PairEnds;
use crate::pairs::columns_from;
use crate::stations::fronted_cases;
use farkas_check::Oracle;
use items::Items;
use linear_terms::{Case, Row};
use polyhedra::{bounds_after, directions};
use posing::{Log, WorkError};
use std::alloc::{AllocError, Global};
use transition_formula::{Formula, FormulaError};

/// The bounds of a formula in the directions of its pairs; without a case nothing is asked, and
/// there is no row.
#[tactic(auto, using(posing::proofs::Following::following), unfolding(crate::specs::Candidates::candidate_of))]
pub(crate) fn candidate_of<O: Oracle>(
    alloc: Global,
    member: &PairEnds,
    f: &Formula,
    oracle: &mut O,
    log: &mut Log,
) -> Result<Items<Row>, WorkError>
    requires member { IsMember member.now }
    requires summary { IsSummary member.now f.now }
    ensures follows { Asks O.asking oracle log result (candidate_of member.now f.now) }
    ensures over { IfOk result (AllByRecursion (IsRowOver member.now.pair.columns)) }
{
    if f.cases().is_empty() {
        return Ok(Items::new(alloc));
    }
    let cases = paired_cases(alloc, f)?;
    pair_bounds(alloc, member, cases.as_slice(), oracle, log)
}

/// The cases of a formula with the entry's columns before the posts.
fn paired_cases(alloc: Global, f: &Formula) -> Result<Items<Case>, FormulaError>
    ensures { IfOk result (λ cases. cases ≡ map (paired_case f.now.from) f.now.cases) }
{
    let front = columns_from(alloc, 0, f.from())?;
    Ok(fronted_cases(alloc, front.as_slice(), f.cases())?)
}

/// The bounds of such cases in the directions of a procedure's pairs.
#[tactic(auto, using(posing::proofs::Following::following))]
fn pair_bounds<O: Oracle>(
    alloc: Global,
    member: &PairEnds,
    cases: &[Case],
    oracle: &mut O,
    log: &mut Log,
) -> Result<Items<Row>, WorkError>
    requires posts { All (IsCoveredByPosts cases.now) (directions member.now.pair) }
    requires rows { All (IsCovered (length (columns_of member.now.pair.columns)))
        (directions member.now.pair) }
    ensures { Asks O.asking oracle log result
        (each (rows_with_exit_bound cases.now (columns_of member.now.pair.columns)) []
        (directions member.now.pair)) }
{
    let after = columns_from(alloc, 0, member.pair.columns())?;
    let asked = directions(alloc, &member.pair)?;
    bounds_after(
        alloc,
        Items::new(alloc),
        cases,
        after.as_slice(),
        asked.as_slice(),
        oracle,
        log,
    )
}

/// A candidate as a formula: one case, in which the exit's columns are auxiliaries and posts.
pub(crate) fn candidate_formula(
    alloc: Global,
    member: &PairEnds,
    rows: &Items<Row>,
) -> Result<Formula, FormulaError>
    requires member { IsMember member.now }
    requires rows { AllByRecursion (IsRowOver member.now.pair.columns) rows.now }
    ensures { IfOk result (λ f. f ≡ candidate_formula member.now rows.now) }
{
    let mut cases = Items::new(alloc);
    cases.push(Case {
        aux: 0,
        rows: row_copies(rows)?,
        post: Items::new(alloc),
    })?;
    let pairs = Formula::from_cases(member.pair.columns(), 0, cases);
    let mut lost = Items::new(alloc);
    exits_told(alloc, member, &pairs, &mut lost)
}

fn row_copies(rows: &Items<Row>) -> Result<Items<Row>, AllocError>
    ensures { IfOk result (λ copy. copy ≡ rows.now) }
{
    rows.clone()
}

/// The candidates of several procedures as formulas.
pub(crate) fn table_of(
    alloc: Global,
    members: &[PairEnds],
    candidates: &[Items<Row>],
) -> Result<Items<Formula>, FormulaError>
    requires members { AllByRecursion IsMember members.now }
    requires candidates { AreCandidates members.now candidates.now }
    ensures { IfOk result (λ table. table ≡ table_of members.now candidates.now) }
{
    let mut table = Items::new(alloc);
    for (place, member) in members.iter().enumerate() {
        table.push(candidate_formula(alloc, member, &candidates[place])?)?;
    }
    Ok(table)
}
