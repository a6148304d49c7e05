ghost use Rattle.std.specs.Prelude.{◌≡◌, ℕ, ◌+◌, [], Some, length, IsTrue, MatchOption, IfOk, IfErr, IfSome};
ghost use Rattle.std.specs.Map.{keys_of};
ghost use Rattle.linear_terms.specs.Polynomial.{IsCanonical};
ghost use Rattle.farkas_check.specs.Columns.{columns as columns_of};
ghost use Rattle.farkas_check.proofs.Spreads.{AreAmong};
ghost use Rattle.farkas_check.proofs.Walks.{IsOrdered};
ghost use Rattle.simplex.specs.Wider.{AreColumnsOf, IsBesides};
ghost use Rattle.simplex.specs.Endings.{IsMetFor, StandsAt, FoundFor};
ghost use Rattle.simplex.specs.Raise.{Framed};
ghost use Rattle.simplex.specs.Refusal.{IsRefusalIn};
ghost use Rattle.simplex.specs.Shortness.{AreShortRows};
ghost use Rattle.simplex.specs.Suprema.{FramedKinds, case_over, with_goal, frame_over, own_frame, IsSupremumOver, IsSupremumOf};

use crate::corner::corner;
use crate::endings::Ending;
use crate::frame::{framed_tableau, kinds_of};
use crate::gauss::Stage;
use crate::same_rows::are_rows;
use crate::search::{SearchEnd, corner_search};
use crate::shortness::are_short_rows;
use crate::supremum::{topped_stage, with_goal};
use crate::swap::stage_for_goal;
use crate::widening::{columns_with, first_besides, unit_ray, widened_numbers, widened_supremum};
use crate::{SearchStop, Supremum};
use farkas_check::{Goal, case_columns};
use items::Items;
use linear_terms::{Mono, Poly, Row};
use std::alloc::{AllocError, Global};

/// Rows and an objective over columns, among which are theirs.
#[derive(Clone, Copy)]
pub(crate) struct GoalOver<'a> {
    pub(crate) columns: &'a [Mono],
    pub(crate) rows: &'a [Row],
    pub(crate) objective: &'a Poly,
}

/// What a case of a supremum question came to.
#[derive(Drop)]
pub(crate) struct CaseEnd {
    pub(crate) found: Supremum,
    /// Whether the numbers of the rows are short.
    pub(crate) short: bool,
    /// Where it ended, if the next one over the same rows may begin there.
    pub(crate) ending: Option<Ending>,
}

/// A corner of rows, over their own columns, with an objective as its goal.
#[derive(Drop)]
pub(crate) struct Corner {
    columns: Items<Mono>,
    rows: Items<Row>,
    /// Whether the numbers of the rows are short.
    short: bool,
    stage: Stage,
    /// Whether each of the objective's monomials is known to be one of the columns.
    among: bool,
}

/// What a case of a supremum question comes to, with no more turns a raise than the budget, and
/// where it ended. It begins where the last one ended, if that was over the same rows, and else at
/// the frame of the rows.
pub(crate) fn next_supremum(
    alloc: Global,
    goal: &Goal,
    budget: u128,
    last: Option<Ending>,
) -> Result<CaseEnd, SearchStop>
    ensures supremum { IfOk result (λ r. IsSupremumOf goal.now budget r.found) }
    ensures short { IfOk result (λ r. IsTrue r.short → AreShortRows goal.now.rows) }
    ensures refusal { IfErr result
        (IsRefusalIn (own_frame goal.now.rows goal.now.objective) (length goal.now.rows + 1)) }
{
    let rows = goal.rows.as_slice();
    let objective = &goal.objective;
    match corner_for(alloc, last, rows, objective)? {
        Some(corner) => {
            let short = corner.short;
            let (found, ending) = supremum_with(alloc, rows, objective, corner, budget)?;
            Ok(CaseEnd {
                found,
                short,
                ending,
            })
        }
        None => {
            let own = case_columns(alloc, rows, &[])?;
            let columns = columns_with(alloc, own.as_slice(), rows, objective.terms())?;
            let goal = GoalOver {
                columns: columns.as_slice(),
                rows,
                objective,
            };
            let short = are_short_rows(rows);
            let (found, ending) = supremum_anew(alloc, goal, own, short, budget)?;
            Ok(CaseEnd {
                found,
                short,
                ending,
            })
        }
    }
}

/// The supremum from a corner of the rows on. Where the objective has no monomial but those of the
/// rows, the columns are the rows' own.
fn supremum_with(
    alloc: Global,
    rows: &[Row],
    objective: &Poly,
    corner: Corner,
    budget: u128,
) -> Result<(Supremum, Option<Ending>), SearchStop>
    requires own { corner.columns ≡ columns_of rows.now [] }
    requires rows { corner.rows ≡ rows.now }
    requires short { IsTrue corner.short → AreShortRows rows.now }
    requires met { IsMetFor corner.columns rows.now objective.now corner.stage.enters
        corner.stage.tableau }
    requires among { IsTrue corner.among → AreAmong (keys_of objective.now.terms) corner.columns }
    ensures supremum { IfOk result
        (λ r. IsSupremumOver (columns_of rows.now objective.now.terms) rows.now objective.now budget
        r.0) }
    ensures refusal { IfErr result
        (IsRefusalIn (own_frame rows.now objective.now) (length rows.now + 1)) }
{
    let Corner {
        columns: own,
        rows: copies,
        short,
        stage,
        among,
    } = corner;
    match first_unless(among, own.as_slice(), objective.terms()) {
        Some((mono, up)) => {
            let columns = columns_with(alloc, own.as_slice(), rows, objective.terms())?;
            let goal = GoalOver {
                columns: columns.as_slice(),
                rows,
                objective,
            };
            let found = ray_supremum(alloc, goal, &own, &stage, &mono, up)?;
            Ok((found, ending_of(own, copies, short, Some(stage))))
        }
        None => {
            let (found, left) = supremum_from_corner(alloc, &own, stage, rows, objective, budget)?;
            Ok((found, ending_of(own, copies, short, left)))
        }
    }
}

/// The first monomial of the terms that is none of the columns, unless all are known to be.
fn first_unless(among: bool, own: &[Mono], terms: &[(Mono, i128)]) -> Option<(Mono, bool)>
    requires canonical { IsCanonical terms.now }
    requires among { IsTrue among → AreAmong (keys_of terms.now) own.now }
    ensures { MatchOption result (AreAmong (keys_of terms.now) own.now)
        (λ r. IsBesides own.now terms.now r.0 r.1) }
{
    if among {
        return None;
    }
    first_besides(own, terms)
}

/// The same of a goal over columns. The search is over the rows' own columns, and what it comes to
/// has 0 at the others.
pub(crate) fn supremum_from(
    alloc: Global,
    goal: GoalOver<'_>,
    budget: u128,
    last: Option<Ending>,
) -> Result<(Supremum, Option<Ending>), SearchStop>
    requires { AreColumnsOf goal.columns.now goal.rows.now goal.objective.now }
    ensures supremum { IfOk result
        (λ r. IsSupremumOver goal.entry.columns.now goal.entry.rows.now goal.entry.objective.now
        budget r.0) }
    ensures refusal { IfErr result
        (IsRefusalIn (own_frame goal.entry.rows.now goal.entry.objective.now)
        (length goal.entry.rows.now + 1)) }
{
    match corner_for(alloc, last, goal.rows, goal.objective)? {
        Some(
            Corner {
                columns,
                rows,
                short,
                stage,
                among: _among,
            },
        ) => supremum_at(alloc, goal, columns, rows, short, stage, budget),
        None => {
            let own = case_columns(alloc, goal.rows, &[])?;
            let short = are_short_rows(goal.rows);
            supremum_anew(alloc, goal, own, short, budget)
        }
    }
}

/// The corner where the last supremum ended, with the objective as its goal, if it was over the same
/// rows and no step leaves 128 bits.
fn corner_for(
    alloc: Global,
    last: Option<Ending>,
    rows: &[Row],
    objective: &Poly,
) -> Result<Option<Corner>, AllocError>
    ensures own { IfOk result (λ found. IfSome found (λ c. c.columns ≡ columns_of rows.now [])) }
    ensures rows { IfOk result (λ found. IfSome found (λ c. c.rows ≡ rows.now)) }
    ensures short { IfOk result
        (λ found. IfSome found (λ c. IsTrue c.short → AreShortRows rows.now)) }
    ensures met { IfOk result
        (λ found. IfSome found
        (λ c. IsMetFor c.columns rows.now objective.now c.stage.enters c.stage.tableau)) }
    ensures among { IfOk result
        (λ found. IfSome found
        (λ c. IsTrue c.among → AreAmong (keys_of objective.now.terms) c.columns)) }
{
    match last {
        None => Ok(None),
        Some(ending) => corner_over(alloc, ending, rows, objective),
    }
}

fn corner_over(
    alloc: Global,
    ending: Ending,
    rows: &[Row],
    objective: &Poly,
) -> Result<Option<Corner>, AllocError>
    ensures own { IfOk result (λ found. IfSome found (λ c. c.columns ≡ columns_of rows.now [])) }
    ensures rows { IfOk result (λ found. IfSome found (λ c. c.rows ≡ rows.now)) }
    ensures short { IfOk result
        (λ found. IfSome found (λ c. IsTrue c.short → AreShortRows rows.now)) }
    ensures met { IfOk result
        (λ found. IfSome found
        (λ c. IsMetFor c.columns rows.now objective.now c.stage.enters c.stage.tableau)) }
    ensures among { IfOk result
        (λ found. IfSome found
        (λ c. IsTrue c.among → AreAmong (keys_of objective.now.terms) c.columns)) }
{
    let Ending {
        columns,
        rows: copies,
        short,
        stage,
    } = ending;
    if !are_rows(copies.as_slice(), rows) {
        return Ok(None);
    }
    match stage_for_goal(
        alloc,
        columns.as_slice(),
        copies.as_slice(),
        stage,
        objective,
    )? {
        Some((stage, among)) => Ok(Some(Corner {
            columns,
            rows: copies,
            short,
            stage,
            among,
        })),
        None => Ok(None),
    }
}

/// The supremum from the frame of the rows on.
fn supremum_anew(
    alloc: Global,
    goal: GoalOver<'_>,
    own: Items<Mono>,
    short: bool,
    budget: u128,
) -> Result<(Supremum, Option<Ending>), SearchStop>
    requires columns { AreColumnsOf goal.columns.now goal.rows.now goal.objective.now }
    requires own { own ≡ columns_of goal.rows.now [] }
    requires short { IsTrue short → AreShortRows goal.rows.now }
    ensures supremum { IfOk result
        (λ r. IsSupremumOver goal.entry.columns.now goal.entry.rows.now goal.entry.objective.now
        budget r.0) }
    ensures refusal { IfErr result
        (IsRefusalIn (own_frame goal.entry.rows.now goal.entry.objective.now)
        (length goal.entry.rows.now + 1)) }
{
    let (stage, found) = searched_case(alloc, &own, goal.rows, goal.objective, budget)?;
    match found {
        SearchEnd::Refuted(_line) => Ok((Supremum::Empty, None)),
        SearchEnd::Pivots => Ok((Supremum::Pivots, None)),
        SearchEnd::Corner => {
            let copies = copies_of(alloc, goal.rows)?;
            supremum_at(alloc, goal, own, copies, short, stage, budget)
        }
    }
}

/// The supremum from a corner of the rows on. Along a monomial that no row has the objective grows
/// without end.
fn supremum_at(
    alloc: Global,
    goal: GoalOver<'_>,
    own: Items<Mono>,
    copies: Items<Row>,
    short: bool,
    stage: Stage,
    budget: u128,
) -> Result<(Supremum, Option<Ending>), SearchStop>
    requires columns { AreColumnsOf goal.columns.now goal.rows.now goal.objective.now }
    requires own { own ≡ columns_of goal.rows.now [] }
    requires rows { copies ≡ goal.rows.now }
    requires short { IsTrue short → AreShortRows goal.rows.now }
    requires met { IsMetFor own goal.rows.now goal.objective.now stage.enters stage.tableau }
    ensures supremum { IfOk result
        (λ r. IsSupremumOver goal.entry.columns.now goal.entry.rows.now goal.entry.objective.now
        budget r.0) }
    ensures refusal { IfErr result
        (IsRefusalIn (own_frame goal.entry.rows.now goal.entry.objective.now)
        (length goal.entry.rows.now + 1)) }
{
    match first_besides(own.as_slice(), goal.objective.terms()) {
        Some((mono, up)) => {
            let found = ray_supremum(alloc, goal, &own, &stage, &mono, up)?;
            let left = Some(stage);
            Ok((found, ending_of(own, copies, short, left)))
        }
        None => {
            let (found, left) = supremum_over(alloc, goal, &own, stage, budget)?;
            Ok((found, ending_of(own, copies, short, left)))
        }
    }
}

/// The corner, and the ray from it along a monomial that no row has.
fn ray_supremum(
    alloc: Global,
    goal: GoalOver<'_>,
    own: &Items<Mono>,
    stage: &Stage,
    mono: &Mono,
    up: bool,
) -> Result<Supremum, SearchStop>
    ghost over: { Framed }
    requires frame { over ≡ frame_over own.now goal.rows.now goal.objective.now }
    requires columns { AreColumnsOf goal.columns.now goal.rows.now goal.objective.now }
    requires own { own.now ≡ columns_of goal.rows.now [] }
    requires met { IsMetFor own.now goal.rows.now goal.objective.now stage.now.enters
        stage.now.tableau }
    requires besides { IsBesides own.now goal.objective.now.terms mono.now up }
    ensures supremum { (budget : ℕ) → IfOk result
        (λ found. IsSupremumOver goal.entry.columns.now goal.entry.rows.now goal.entry.objective.now
        budget found) }
    ensures refusal { IfErr result
        (IsRefusalIn (own_frame goal.entry.rows.now goal.entry.objective.now)
        (length goal.entry.rows.now + 1)) }
{
    let point = corner(alloc, &stage.tableau, own.len())?;
    let at = widened_numbers(alloc, own.as_slice(), goal.columns, point.as_slice())?;
    let ray = unit_ray(alloc, mono, up, goal.columns)?;
    Ok(Supremum::Unbounded(at, ray))
}

/// The raise of the objective, whose monomials are all among the rows'.
fn supremum_over(
    alloc: Global,
    goal: GoalOver<'_>,
    own: &Items<Mono>,
    stage: Stage,
    budget: u128,
) -> Result<(Supremum, Option<Stage>), SearchStop>
    requires columns { AreColumnsOf goal.columns.now goal.rows.now goal.objective.now }
    requires own { own.now ≡ columns_of goal.rows.now [] }
    requires met { IsMetFor own.now goal.rows.now goal.objective.now stage.enters stage.tableau }
    requires inside { AreAmong (keys_of goal.objective.now.terms) own.now }
    ensures supremum { IfOk result
        (λ r. IsSupremumOver goal.entry.columns.now goal.entry.rows.now goal.entry.objective.now
        budget r.0) }
    ensures left { IfOk result
        (λ r. IfSome r.1 (λ s. StandsAt own.now goal.entry.rows.now s.enters s.tableau)) }
    ensures refusal { IfErr result
        (IsRefusalIn (own_frame goal.entry.rows.now goal.entry.objective.now)
        (length goal.entry.rows.now + 1)) }
{
    let (found, left) = supremum_from_corner(alloc, own, stage, goal.rows, goal.objective, budget)?;
    let wide = widened_supremum(alloc, own.as_slice(), goal.columns, found)?;
    Ok((wide, left))
}

fn copies_of(alloc: Global, rows: &[Row]) -> Result<Items<Row>, AllocError>
    ensures { IfOk result (λ copies. copies ≡ rows.now) }
{
    let mut copies = Items::from_vec(Vec::with_capacity(alloc, rows.len())?);
    for row in rows {
        copies.push(row.clone()?)?;
    }
    Ok(copies)
}

/// The search for a corner of the rows, in the frame that they have with the objective.
fn searched_case(
    alloc: Global,
    columns: &Items<Mono>,
    rows: &[Row],
    objective: &Poly,
    budget: u128,
) -> Result<(Stage, SearchEnd), SearchStop>
    requires { IsOrdered columns.now }
    ensures found { IfOk result
        (λ r. FoundFor columns.now rows.now objective.now budget r.0.enters r.0.tableau
        r.1) }
    ensures refusal { IfErr result
        (IsRefusalIn (frame_over columns.now rows.now objective.now)
        (length rows.now + 1)) }
{
    let all = with_goal(alloc, rows, objective)?;
    let kinds = kinds_of(alloc, all.as_slice())?;
    let t = framed_tableau(alloc, all.as_slice(), columns.as_slice())?;
    corner_search(
        alloc,
        t,
        columns.len(),
        kinds.as_slice(),
        rows.len(),
        budget,
    )
}

/// Raises the objective from a corner of the rows, and tells where that ends.
fn supremum_from_corner(
    alloc: Global,
    columns: &Items<Mono>,
    stage: Stage,
    rows: &[Row],
    objective: &Poly,
    budget: u128,
) -> Result<(Supremum, Option<Stage>), SearchStop>
    ghost case: { FramedKinds }
    requires case { case ≡ case_over columns.now rows.now objective.now }
    requires met { IsMetFor columns.now rows.now objective.now stage.enters stage.tableau }
    ensures supremum { IfOk result
        (λ r. IsSupremumOver columns.now rows.now objective.now budget r.0) }
    ensures left { IfOk result
        (λ r. IfSome r.1 (λ s. StandsAt columns.now rows.now s.enters s.tableau)) }
    ensures refusal { IfErr result
        (IsRefusalIn (frame_over columns.now rows.now objective.now) (length rows.now + 1)) }
{
    let _objective = objective;
    topped_stage(alloc, stage, columns.len(), rows.len(), budget)
}

fn ending_of(
    columns: Items<Mono>,
    rows: Items<Row>,
    short: bool,
    left: Option<Stage>,
) -> Option<Ending>
    requires own { columns ≡ columns_of rows [] }
    requires short { IsTrue short → AreShortRows rows }
    requires left { IfSome left (λ s. StandsAt columns rows s.enters s.tableau) }
{
    match left {
        Some(stage) => Some(Ending {
            columns,
            rows,
            short,
            stage,
        }),
        None => None,
    }
}
