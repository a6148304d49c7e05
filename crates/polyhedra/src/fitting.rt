ghost use Rattle.std.specs.Prelude.{◌≡◌, ◌<◌, ◌^◌, [], ◌∷◌, true, map, length, IsTrue, IfOk, option_to_list};
ghost use Rattle.farkas_check.specs.Relations.{have_equally_many};
ghost use Rattle.polyhedra.specs.Directions.{directions};
ghost use Rattle.polyhedra.specs.Vocabulary.{IsVocabulary};
ghost use Rattle.transition_formula.specs.Meaning.{Covers};
ghost use Rattle.transition_formula.specs.Transition.{IsTransition};
ghost use Rattle.posing.specs.Follows.{Asks};
ghost use Rattle.posing.specs.Logs.{Adds, loss_notes};
ghost use Rattle.posing.specs.Posing.{each};
ghost use Rattle.posing.specs.declared.note.Note.TheVariants as note;
ghost use Rattle.polyhedra.specs.Bounds.{rows_with_exit_bound};
ghost use Rattle.polyhedra.specs.Changes as changes;
ghost use Rattle.polyhedra.specs.Finish.{told_count};
ghost use Rattle.polyhedra.specs.Laws.{IsBetween, IsSmall, FittingCovers, FittingFits};
ghost use Rattle.polyhedra.specs.Squash.{are_same, change_after, entries_of, posts_after, relation_rows, relation_losses, change_relations, with_differences, with_bounds, squash_rows, squashed_case, squashed_formula, noted_squash, fitted_formula};

use crate::after::{changes_after, changes_of_some, entries_of, posts_after};
use crate::finishing::told_count;
use crate::{
    Displacement, Log, Movement, Note, Vocabulary, WorkError, bounds_after, bounds_before,
    bounds_on_changes, directions, finish, movement_of, relation_rows, relations_of,
};
use farkas_check::{Change, Oracle, Relation, Stratum};
use items::Items;
use linear_terms::{Case, Poly, Row};
use std::alloc::{AllocError, Global};
use transition_formula::Formula;

/// A formula that becomes one case, and the vocabularies that it goes between.
#[derive(Clone, Copy)]
struct Fitting<'a> {
    /// Whether both ends have one vocabulary.
    one: bool,
    f: &'a Formula,
    from: &'a Vocabulary,
    to: &'a Vocabulary,
}

/// The columns that relations between changes speak of.
#[derive(Clone, Copy)]
struct Variables<'a> {
    /// The variables whose change is not zero, or cannot be made, in some case.
    modified: &'a [u32],
    /// Those of them whose change can be made in each case.
    moving: &'a [u32],
    /// The entry columns that occur.
    occurring: &'a [u32],
}

/// The formula, if it has at most 16 cases, each of at most 64 rows and 64 auxiliaries; else one
/// case that holds of all that it holds of, from relations and bounds that the answers give. It
/// goes between the same columns.
pub fn fit<O: Oracle>(
    alloc: Global,
    f: &Formula,
    from: &Vocabulary,
    to: &Vocabulary,
    oracle: &mut O,
    log: &mut Log,
) -> Result<Formula, WorkError>
    requires { IsBetween f.now from.now to.now }
    ensures follows { Asks O.asking oracle log result (fitted_formula f.now from.now to.now) }
    ensures covers { IfOk result (λ g. Covers g f.now) }
    ensures small { IfOk result (IsSmall f.now) }
{
    fitted_formula(alloc, f, from, to, oracle, log)
}

/// What comes of fitting a formula holds of all that the formula holds of, whatever true answers
/// are given.
pub fn coverage_of_fitting()
    ensures { FittingCovers }
{}

/// It goes between the same columns, by at most 16 cases of at most 64 rows and 64 auxiliaries.
pub fn size_of_fitting()
    ensures { FittingFits }
{}

/// The formula itself if it is small enough, else squashed.
#[tactic(auto, using(posing::proofs::Following::stops))]
fn fitted_formula<O: Oracle>(
    alloc: Global,
    f: &Formula,
    from: &Vocabulary,
    to: &Vocabulary,
    oracle: &mut O,
    log: &mut Log,
) -> Result<Formula, WorkError>
    requires { IsBetween f.now from.now to.now }
    ensures { Asks O.asking oracle log result (fitted_formula f.now from.now to.now) }
{
    if f.is_fitted() {
        let copy = f.clone()?;
        return Ok(copy);
    }
    noted_squash(alloc, f, from, to, oracle, log)
}

/// Squashes it, after a note of how many cases it has.
#[tactic(auto, using(posing::proofs::Following::following), unfolding(crate::specs::Squash::noted_squash))]
fn noted_squash<O: Oracle>(
    alloc: Global,
    f: &Formula,
    from: &Vocabulary,
    to: &Vocabulary,
    oracle: &mut O,
    log: &mut Log,
) -> Result<Formula, WorkError>
    requires { IsBetween f.now from.now to.now }
    ensures { Asks O.asking oracle log result (noted_squash f.now from.now to.now) }
{
    let notes = squash_notes(alloc, f.cases().len())?;
    log.add_notes(notes)?;
    squash(alloc, f, from, to, oracle, log)
}

fn squash_notes(alloc: Global, cases: usize) -> Result<Items<Note>, AllocError>
    ensures { IfOk result (λ notes. notes ≡ note.Squash (told_count cases) ∷ []) }
{
    let mut notes = Items::new(alloc);
    notes.push(Note::Squash(told_count(cases)))?;
    Ok(notes)
}

/// One case for all cases of the formula, if it is left in order.
#[tactic(auto, using(posing::proofs::Following::following), unfolding(crate::specs::Squash::squashed_formula))]
fn squash<O: Oracle>(
    alloc: Global,
    f: &Formula,
    from: &Vocabulary,
    to: &Vocabulary,
    oracle: &mut O,
    log: &mut Log,
) -> Result<Formula, WorkError>
    requires { IsBetween f.now from.now to.now }
    ensures { Asks O.asking oracle log result (squashed_formula f.now from.now to.now) }
{
    let one = from.same(to);
    let fitting = Fitting { one, f, from, to };
    let case = squashed_case(alloc, fitting, oracle, log)?;
    let left = finish(alloc, &case, oracle, log)?;
    let cases = cases_of(alloc, left)?;
    Ok(Formula::from_cases(f.from(), f.to(), cases))
}

fn cases_of(alloc: Global, left: Option<Case>) -> Result<Items<Case>, AllocError>
    ensures { IfOk result (λ cases. cases ≡ option_to_list left) }
{
    let mut cases = Items::new(alloc);
    if let Some(case) = left {
        cases.push(case)?;
    }
    Ok(cases)
}

/// The one case as it is put together.
#[tactic(auto, using(posing::proofs::Following::following), unfolding(crate::specs::Squash::squashed_case))]
fn squashed_case<O: Oracle>(
    alloc: Global,
    fitting: Fitting,
    oracle: &mut O,
    log: &mut Log,
) -> Result<Case, WorkError>
    requires between { IsBetween fitting.f.now fitting.from.now fitting.to.now }
    requires one { fitting.one ≡ are_same fitting.from.now fitting.to.now }
    ensures { Asks O.asking oracle log result
        (squashed_case fitting.entry.one fitting.entry.f.now fitting.entry.from.now
        fitting.entry.to.now) }
{
    let movement = movement_of(alloc, fitting.one, fitting.f)?;
    let aux = movement.modified.len() as u32;
    let post = noted_posts(alloc, fitting, &movement, log)?;
    let rows = squash_rows(alloc, fitting, movement, oracle, log)?;
    Ok(Case { aux, rows, post })
}

/// What stands for each variable afterwards; losses of changes are noted.
fn noted_posts(
    alloc: Global,
    fitting: Fitting,
    movement: &Movement,
    log: &mut Log,
) -> Result<Items<Poly>, AllocError>
    requires few { length movement.now.modified < 2 ^ 32 }
    requires modified { movement.now.modified
        ≡ changes.modified_variables fitting.one fitting.f.now }
    requires lost { loss_notes movement.now.lost
        ≡ changes.lost_changes fitting.one fitting.f.now }
    ensures noted { Adds (changes.lost_changes fitting.entry.one fitting.entry.f.now) log.old
        log.new result }
    ensures exact { IfOk result
        (λ posts. posts ≡ posts_after fitting.entry.one fitting.entry.f.now) }
{
    let modified = movement.modified.as_slice();
    let posts = posts_after(alloc, fitting.one, modified, fitting.f.to())?;
    log.add_losses(alloc, movement.lost.as_slice())?;
    Ok(posts)
}

/// Rows of relations, and bounds behind them.
#[tactic(auto, using(posing::proofs::Following::following), unfolding(crate::specs::Squash::squash_rows))]
fn squash_rows<O: Oracle>(
    alloc: Global,
    fitting: Fitting,
    movement: Movement,
    oracle: &mut O,
    log: &mut Log,
) -> Result<Items<Row>, WorkError>
    requires between { IsBetween fitting.f.now fitting.from.now fitting.to.now }
    requires one { fitting.one ≡ are_same fitting.from.now fitting.to.now }
    requires modified { movement.modified ≡ changes.modified_variables fitting.one fitting.f.now }
    requires moving { movement.moving ≡ changes.moving fitting.one fitting.f.now }
    requires cases { movement.cases ≡ changes.changes_of fitting.one fitting.f.now }
    requires occurring { movement.occurring ≡ changes.occurring fitting.one fitting.f.now }
    ensures { Asks O.asking oracle log result
        (squash_rows fitting.entry.one fitting.entry.f.now fitting.entry.from.now
        fitting.entry.to.now) }
{
    let Movement {
        modified,
        moving,
        lost: _lost,
        cases,
        occurring,
    } = movement;
    let variables = Variables {
        modified: modified.as_slice(),
        moving: moving.as_slice(),
        occurring: occurring.as_slice(),
    };
    let equations = change_relations(alloc, fitting, variables, cases, oracle, log)?;
    bounds(alloc, fitting, variables.modified, equations, oracle, log)
}

/// Relations between the changes of variables that can be made and the entry columns that occur.
#[tactic(auto, using(posing::proofs::Following::following), unfolding(crate::specs::Squash::change_relations))]
fn change_relations<O: Oracle>(
    alloc: Global,
    fitting: Fitting,
    variables: Variables,
    cases: Items<Change>,
    oracle: &mut O,
    log: &mut Log,
) -> Result<Items<Row>, WorkError>
    requires few { length variables.modified.now < 2 ^ 32 }
    requires modified { variables.modified.now
        ≡ changes.modified_variables fitting.one fitting.f.now }
    requires moving { variables.moving.now ≡ changes.moving fitting.one fitting.f.now }
    requires cases { cases ≡ changes.changes_of fitting.one fitting.f.now }
    requires occurring { variables.occurring.now ≡ changes.occurring fitting.one fitting.f.now }
    ensures { Asks O.asking oracle log result
        (change_relations fitting.entry.one fitting.entry.f.now) }
{
    let lower = entries_of(alloc, variables.occurring)?;
    let found = relations_of(alloc, stratum_of(cases, lower), oracle, log)?;
    match found {
        None => Ok(Items::new(alloc)),
        Some(relations) => {
            let relations = relations.as_slice();
            Ok(related_rows(alloc, fitting.one, variables, relations, log)?)
        }
    }
}

/// The rows of relations between changes and entry columns. A row that is lost is noted.
fn related_rows(
    alloc: Global,
    one: bool,
    variables: Variables,
    relations: &[Relation],
    log: &mut Log,
) -> Result<Items<Row>, AllocError>
    requires { length variables.modified.now < 2 ^ 32 }
    ensures noted { Adds
        (loss_notes (relation_losses
        (map (change_after one variables.entry.modified.now) variables.entry.moving.now)
        (entries_of variables.entry.occurring.now) relations.now)) log.old log.new result }
    ensures exact { IfOk result
        (λ rows. rows ≡ relation_rows
        (map (change_after one variables.entry.modified.now) variables.entry.moving.now)
        (entries_of variables.entry.occurring.now) relations.now) }
{
    let terms = changes_of_some(alloc, one, variables.modified, variables.moving)?;
    let lower = entries_of(alloc, variables.occurring)?;
    relation_rows(alloc, terms.as_slice(), lower.as_slice(), relations, log)
}

/// A question about cases that have equally many terms.
fn stratum_of(cases: Items<Change>, lower: Items<Poly>) -> Stratum
    requires { IsTrue (have_equally_many cases) }
    ensures { result ≡ record { cases = cases; lower = lower } }
{
    match Stratum::new(cases, lower) {
        Some(stratum) => stratum,
        None => unreachable!(),
    }
}

/// Bounds before, after, and on differences where both ends have one vocabulary, behind other rows.
#[tactic(auto, using(posing::proofs::Following::following), unfolding(crate::specs::Squash::with_bounds))]
fn bounds<O: Oracle>(
    alloc: Global,
    fitting: Fitting,
    modified: &[u32],
    rows: Items<Row>,
    oracle: &mut O,
    log: &mut Log,
) -> Result<Items<Row>, WorkError>
    requires between { IsBetween fitting.f.now fitting.from.now fitting.to.now }
    requires one { fitting.one ≡ are_same fitting.from.now fitting.to.now }
    requires modified { modified.now ≡ changes.modified_variables fitting.one fitting.f.now }
    ensures { Asks O.asking oracle log result
        (with_bounds fitting.entry.one fitting.entry.f.now fitting.entry.from.now
        fitting.entry.to.now rows) }
{
    let directions = directions(alloc, fitting.from)?;
    let entry = directions.as_slice();
    let before = bounds_before(alloc, rows, fitting.f.cases(), entry, oracle, log)?;
    let both = exit_bounds(alloc, fitting, modified, before, oracle, log)?;
    differences(alloc, fitting, modified, entry, both, oracle, log)
}

/// Bounds after, behind other rows.
fn exit_bounds<O: Oracle>(
    alloc: Global,
    fitting: Fitting,
    modified: &[u32],
    rows: Items<Row>,
    oracle: &mut O,
    log: &mut Log,
) -> Result<Items<Row>, WorkError>
    requires fits { IsTransition fitting.f.now.from fitting.f.now.to fitting.f.now.cases }
    requires columns { fitting.to.now.columns ≡ fitting.f.now.to }
    requires valid { IsVocabulary fitting.to.now }
    requires few { length modified.now < 2 ^ 32 }
    requires modified { modified.now ≡ changes.modified_variables fitting.one fitting.f.now }
    ensures { Asks O.asking oracle log result
        (each (rows_with_exit_bound fitting.entry.f.now.cases
        (posts_after fitting.entry.one fitting.entry.f.now)) rows
        (directions fitting.entry.to.now)) }
{
    let posts = posts_after(alloc, fitting.one, modified, fitting.f.to())?;
    let exit = directions(alloc, fitting.to)?;
    bounds_after(
        alloc,
        rows,
        fitting.f.cases(),
        posts.as_slice(),
        exit.as_slice(),
        oracle,
        log,
    )
}

/// Bounds on differences, behind other rows.
fn differences<O: Oracle>(
    alloc: Global,
    fitting: Fitting,
    modified: &[u32],
    entry: &[Poly],
    rows: Items<Row>,
    oracle: &mut O,
    log: &mut Log,
) -> Result<Items<Row>, WorkError>
    requires columns { fitting.from.now.columns ≡ fitting.f.now.from }
    requires valid { IsVocabulary fitting.from.now }
    requires ends { fitting.one ≡ true → fitting.f.now.from ≡ fitting.f.now.to }
    requires few { length modified.now < 2 ^ 32 }
    requires modified { modified.now ≡ changes.modified_variables fitting.one fitting.f.now }
    requires entry { entry.now ≡ directions fitting.from.now }
    ensures { Asks O.asking oracle log result
        (with_differences fitting.entry.one fitting.entry.f.now fitting.entry.from.now rows) }
{
    if !fitting.one {
        return Ok(rows);
    }
    let moves = changes_after(alloc, true, modified, fitting.f.to())?;
    let displacement = Displacement {
        f: fitting.f,
        moved: moves.as_slice(),
        turns: None,
    };
    bounds_on_changes(alloc, rows, displacement, entry, oracle, log)
}
