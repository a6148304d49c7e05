ghost use Rattle.std.specs.Prelude.{◌≡◌, ◌<◌, ◌^◌, ◌++◌, ◌∷◌, [], true, ℕ, All, List, Ok, map, fold, length, IfOk, OnOk};
ghost use Rattle.std.specs.List.{filter_map, flat_map, list_any};
ghost use Rattle.items.specs.Gives.{Gives};
ghost use Rattle.linear_terms.specs.declared.col.Col.TheVariants.{Aux};
ghost use Rattle.linear_terms.specs.Polynomial.{column_of};
ghost use Rattle.linear_terms.specs.TermError.{cause};
ghost use Rattle.transition_formula.specs.Loss.{answer_of, losses_of};
ghost use Rattle.posing.specs.Follows.{Asks};
ghost use Rattle.posing.specs.Logs.{Adds, loss_notes};
ghost use Rattle.polyhedra.specs.Bounds.{IsCovered, IsCoveredByPosts};
ghost use Rattle.polyhedra.specs.Changes.{lost_changes, modified_variables};
ghost use Rattle.polyhedra.specs.Directions.{with_new};
ghost use Rattle.recurrence.specs.Law.{IsStarred};
ghost use Rattle.recurrence.specs.Products.{products};
ghost use Rattle.recurrence.specs.Star.{after_from, past_third, is_none_or_lost, term_row, same_term, terms_once, terms_with_row, posts, rows_of, turns};
ghost use Rattle.recurrence.specs.Words.{Ascend, IsMovement, AreModified, row_of_term, turn_row, bound_rows, bounds_at_ends, rows_by_strata};

use crate::products::products;
use crate::progressions::{after, turn_count, with_progressions};
use crate::stratifying::{Body, strata_of};
use crate::terms::{Strata, StratumTerm, column, linear};
use closed_form::row;
use farkas_check::Oracle;
use items::Items;
use linear_terms::{Case, Col, Kind, Mono, Poly, Row, TermError, difference};
use polyhedra::{
    Displacement, Log, Movement, Vocabulary, WorkError, add_row, bounds_after, bounds_before,
    bounds_on_changes, changes_after, directions, movement_of, posts_after,
};
use std::alloc::{AllocError, Global};
use transition_formula::Formula;

/// The second case as it is put together: one and more turns.
#[tactic(auto, using(posing::proofs::Following::following), unfolding(crate::specs::Star::turns))]
pub(crate) fn turns<O: Oracle>(
    alloc: Global,
    body: &Formula,
    voc: &Vocabulary,
    oracle: &mut O,
    log: &mut Log,
) -> Result<Case, WorkError>
    requires { IsStarred body.now voc.now }
    ensures { Asks O.asking oracle log result (turns body.now voc.now) }
{
    let movement = movement_of(alloc, true, body)?;
    let looped = Body {
        formula: body,
        movement: &movement,
    };
    turns_by(alloc, looped, voc, oracle, log)
}

/// The same by what the body changes.
fn turns_by<O: Oracle>(
    alloc: Global,
    body: Body,
    voc: &Vocabulary,
    oracle: &mut O,
    log: &mut Log,
) -> Result<Case, WorkError>
    requires starred { IsStarred body.formula.now voc.now }
    requires movement { IsMovement body.formula.now body.movement.now }
    requires lost { loss_notes body.movement.now.lost ≡ lost_changes true body.formula.now }
    ensures { Asks O.asking oracle log result (turns body.entry.formula.now voc.now) }
{
    let aux = body.movement.modified.len() as u32 + 1;
    let post = noted_posts(alloc, body, log)?;
    let rows = rows_by_strata(alloc, body, voc, oracle, log)?;
    Ok(Case { aux, rows, post })
}

/// What stands for each variable after the turns; losses of changes are noted.
fn noted_posts(alloc: Global, body: Body, log: &mut Log) -> Result<Items<Poly>, AllocError>
    requires few { length body.movement.now.modified < 2 ^ 32 }
    requires modified { body.movement.now.modified ≡ modified_variables true body.formula.now }
    requires lost { loss_notes body.movement.now.lost ≡ lost_changes true body.formula.now }
    ensures noted { Adds (lost_changes true body.entry.formula.now) log.old log.new result }
    ensures exact { IfOk result (λ made. made ≡ posts body.entry.formula.now) }
{
    let modified = body.movement.modified.as_slice();
    let posts = posts_after(alloc, true, modified, body.formula.to())?;
    log.add_losses(alloc, body.movement.lost.as_slice())?;
    Ok(posts)
}

/// The rows by the strata of the body.
#[tactic(auto, using(posing::proofs::Following::following), unfolding(crate::specs::Words::rows_by_strata))]
fn rows_by_strata<O: Oracle>(
    alloc: Global,
    body: Body,
    voc: &Vocabulary,
    oracle: &mut O,
    log: &mut Log,
) -> Result<Items<Row>, WorkError>
    requires starred { IsStarred body.formula.now voc.now }
    requires movement { IsMovement body.formula.now body.movement.now }
    ensures { Asks O.asking oracle log result (rows_by_strata body.entry.formula.now voc.now) }
{
    let products = products(alloc, body.movement, voc)?;
    let monos = products.as_slice();
    let strata = strata_of(alloc, body, monos, oracle, log)?;
    rows_of(alloc, body, voc, monos, &strata, oracle, log)
}

/// Its rows: what the terms are after the turns, that there is a turn, bounds, and progressions.
#[tactic(auto, using(posing::proofs::Following::following), unfolding(crate::specs::Star::rows_of))]
fn rows_of<O: Oracle>(
    alloc: Global,
    body: Body,
    voc: &Vocabulary,
    monos: &[Mono],
    strata: &Strata,
    oracle: &mut O,
    log: &mut Log,
) -> Result<Items<Row>, WorkError>
    requires starred { IsStarred body.formula.now voc.now }
    requires movement { IsMovement body.formula.now body.movement.now }
    requires products { monos.now ≡ products body.formula.now voc.now }
    ensures { Asks O.asking oracle log result (rows_of body.entry.formula.now voc.now strata.now) }
{
    let modified = body.movement.modified.as_slice();
    let terms = terms_with_row(alloc, monos, strata)?;
    let moving = body.movement.moving.as_slice();
    let equations = equations(alloc, terms.as_slice(), monos, modified, moving, log)?;
    let started = with_some_turn(alloc, equations, modified)?;
    let bounds = bound_rows(alloc, body.formula, voc, modified, started, oracle, log)?;
    with_progressions(alloc, bounds, body, voc, strata, oracle, log)
}

// ---- rows of terms

/// Each term once that has a closed row, or of which a step to it is lost.
fn terms_with_row(
    alloc: Global,
    monos: &[Mono],
    strata: &Strata,
) -> Result<Items<StratumTerm>, AllocError>
    ensures { IfOk result (λ terms. terms ≡ terms_with_row monos.now strata.now) }
{
    let terms = terms_once(alloc, strata)?;
    let mut left = Items::new(alloc);
    for term in terms {
        if is_none_or_lost(alloc, monos, &term) {
            left.push(term)?;
        }
    }
    Ok(left)
}

/// Whether the fourth difference is zero or lost, where there are products.
fn is_none_or_lost(alloc: Global, monos: &[Mono], term: &StratumTerm) -> bool
    ensures { result ≡ is_none_or_lost (past_third monos.now term.now) }
{
    match (monos, &term.recurrence.fourth) {
        ([_, ..], Ok(poly)) => *poly == Poly::constant(alloc, 0),
        _ => true,
    }
}

/// Each term once.
fn terms_once(alloc: Global, strata: &Strata) -> Result<Items<StratumTerm>, AllocError>
    ensures { IfOk result (λ terms. terms ≡ terms_once strata.now) }
{
    let mut made = Items::new(alloc);
    add_each(&mut made, strata.first.as_slice())?;
    add_each(&mut made, strata.second.as_slice())?;
    add_each(&mut made, strata.third.as_slice())?;
    Ok(made)
}

fn add_each(made: &mut Items<StratumTerm>, terms: &[StratumTerm]) -> Result<(), AllocError>
    ensures { OnOk result (made.new ≡ fold (with_new same_term) made.old terms.now) }
{
    for term in terms {
        add_new(made, term)?;
    }
    Ok(())
}

fn add_new(made: &mut Items<StratumTerm>, term: &StratumTerm) -> Result<(), AllocError>
    ensures { OnOk result (made.new ≡ with_new same_term made.old term.now) }
{
    if !has_same(made.as_slice(), term) {
        let copy = term.clone()?;
        made.push(copy)?;
    }
    Ok(())
}

fn has_same(terms: &[StratumTerm], term: &StratumTerm) -> bool
    ensures { result ≡ list_any (same_term term.now) terms.now }
{
    terms.iter().any(|other| is_same(term, other))
}

fn is_same(term: &StratumTerm, other: &StratumTerm) -> bool
    ensures { result ≡ same_term term.now other.now }
{
    term.relation.a.as_slice() == other.relation.a.as_slice()
}

/// What the terms are after the turns, by their numbers and differences before. A row that is lost
/// is noted.
fn equations(
    alloc: Global,
    terms: &[StratumTerm],
    monos: &[Mono],
    modified: &[u32],
    moving: &[u32],
    log: &mut Log,
) -> Result<Items<Row>, AllocError>
    requires few { length modified.now < 2 ^ 32 }
    requires ascending { Ascend (map (after_from 0 modified.now) moving.now) }
    ensures noted { Adds
        (loss_notes (flat_map (λ t. losses_of (row_of_term monos.now modified.now moving.now t)) terms.now))
        log.old log.new result }
    ensures exact { IfOk result
        (λ rows. rows ≡ filter_map (λ t. answer_of (row_of_term monos.now modified.now moving.now t))
        terms.now) }
{
    let columns = columns_after(alloc, modified, moving)?;
    let mut rows = Items::new(alloc);
    let mut losses = Items::new(alloc);
    for term in terms {
        let row = term_row(alloc, monos, term, columns.as_slice(), modified);
        add_row(&mut rows, &mut losses, row)?;
    }
    log.add_losses(alloc, losses.as_slice())?;
    Ok(rows)
}

/// The columns of variables after the turns.
fn columns_after(
    alloc: Global,
    modified: &[u32],
    variables: &[u32],
) -> Result<Items<Poly>, AllocError>
    requires { length modified.now < 2 ^ 32 }
    ensures { IfOk result
        (λ columns. columns ≡ map column_of (map (after_from 0 modified.now) variables.now)) }
{
    let mut columns = Items::new(alloc);
    for v in variables {
        columns.push(column(alloc, after(modified, *v))?)?;
    }
    Ok(columns)
}

/// The term after the turns by Newton's forward difference formula.
fn term_row(
    alloc: Global,
    monos: &[Mono],
    term: &StratumTerm,
    columns: &[Poly],
    modified: &[u32],
) -> Result<Row, TermError>
    requires { length modified.now < 2 ^ 32 }
    ensures { (moving : List ℕ) → Ascend (map (after_from 0 modified.now) moving)
        → columns.now ≡ map column_of (map (after_from 0 modified.now) moving) →
        Gives cause (λ r. r) result (row_of_term monos.now modified.now moving term.now) }
{
    let _fourth = past_third(alloc, monos, term)?;
    let first = made_part(&term.recurrence.first)?;
    let second = made_part(&term.recurrence.second)?;
    let third = made_part(&term.recurrence.third)?;
    let last = linear(alloc, term.relation.a.as_slice(), columns)?;
    row(
        alloc,
        &last,
        &term.recurrence.start,
        first,
        second,
        third,
        turn_count(modified),
    )
}

/// That the fourth difference can be made, where there are products.
fn past_third(alloc: Global, monos: &[Mono], term: &StratumTerm) -> Result<Poly, TermError>
    ensures { Gives cause (λ p. p) result (past_third monos.now term.now) }
{
    match monos {
        [] => Ok(Poly::constant(alloc, 0)),
        [_, ..] => {
            let fourth = made_part(&term.recurrence.fourth)?.clone()?;
            Ok(fourth)
        }
    }
}

/// What is made, or the step that cannot be made.
fn made_part(part: &Result<Poly, TermError>) -> Result<&Poly, TermError>
    ensures { Gives cause (λ p. p.now) result part.now }
{
    match part {
        Ok(poly) => Ok(poly),
        Err(error) => Err(*error),
    }
}

/// That there is at least one turn, behind other rows.
fn with_some_turn(
    alloc: Global,
    rows: Items<Row>,
    modified: &[u32],
) -> Result<Items<Row>, AllocError>
    requires { length modified.now < 2 ^ 32 }
    ensures { IfOk result (λ all. all ≡ rows ++ turn_row (Aux (length modified.now)) ∷ []) }
{
    let mut all = rows;
    let poly = one_less(alloc, turn_count(modified))?;
    all.push(Row {
        poly,
        kind: Kind::AtMost,
    })?;
    Ok(all)
}

/// 1 less a column. No step of it leaves 128 bits.
fn less_column(alloc: Global, col: Col) -> Result<Poly, TermError>
    ensures { Gives cause (λ p. p) result (Ok (turn_row col).poly) }
{
    let count = Poly::column(alloc, col)?;
    difference(alloc, &Poly::constant(alloc, 1), &count)
}

/// 1 less a column; its one error is want of memory.
fn one_less(alloc: Global, col: Col) -> Result<Poly, AllocError>
    ensures { IfOk result (λ p. p ≡ (turn_row col).poly) }
{
    match less_column(alloc, col) {
        Ok(poly) => Ok(poly),
        Err(_memory) => Err(AllocError),
    }
}

// ---- bounds

/// Bounds before, after and on changes, behind other rows.
#[tactic(auto, using(posing::proofs::Following::following), unfolding(crate::specs::Words::bound_rows))]
fn bound_rows<O: Oracle>(
    alloc: Global,
    body: &Formula,
    voc: &Vocabulary,
    modified: &[u32],
    rows: Items<Row>,
    oracle: &mut O,
    log: &mut Log,
) -> Result<Items<Row>, WorkError>
    requires starred { IsStarred body.now voc.now }
    requires modified { AreModified body.now modified.now }
    ensures { Asks O.asking oracle log result (bound_rows body.now voc.now rows) }
{
    let mut directions = directions(alloc, voc)?;
    let cases = body.cases();
    let posts = posts_after(alloc, true, modified, body.to())?;
    let moves = changes_after(alloc, true, modified, body.to())?;
    let along = directions.as_slice();
    let both = bounds_at_ends(alloc, rows, cases, posts.as_slice(), along, oracle, log)?;
    add_extra(&mut directions, voc)?;
    let count = turn_count(modified);
    let displacement = Displacement {
        f: body,
        moved: moves.as_slice(),
        turns: Some(count),
    };
    bounds_on_changes(
        alloc,
        both,
        displacement,
        directions.as_slice(),
        oracle,
        log,
    )
}

/// Bounds before and after, behind other rows.
#[tactic(auto, using(posing::proofs::Following::following), unfolding(crate::specs::Words::bounds_at_ends))]
fn bounds_at_ends<O: Oracle>(
    alloc: Global,
    rows: Items<Row>,
    cases: &[Case],
    after: &[Poly],
    directions: &[Poly],
    oracle: &mut O,
    log: &mut Log,
) -> Result<Items<Row>, WorkError>
    requires posts { All (IsCoveredByPosts cases.now) directions.now }
    requires rows { All (IsCovered (length after.now)) directions.now }
    ensures { Asks O.asking oracle log result
        (bounds_at_ends cases.now after.now directions.now rows) }
{
    let before = bounds_before(alloc, rows, cases, directions, oracle, log)?;
    bounds_after(alloc, before, cases, after, directions, oracle, log)
}

/// Adds the further directions.
fn add_extra(directions: &mut Items<Poly>, voc: &Vocabulary) -> Result<(), AllocError>
    ensures { OnOk result (directions.new ≡ directions.old ++ voc.now.extra) }
{
    for d in voc.extra() {
        let copy = d.clone()?;
        directions.push(copy)?;
    }
    Ok(())
}
