ghost use Rattle.std.specs.Prelude.{◌≡◌, ◌++◌, true, List, All, Ok, Result, IfOk, length, option_to_list};
ghost use Rattle.items.specs.Gives.{Gives};
ghost use Rattle.linear_terms.specs.declared.row.Case.{Case};
ghost use Rattle.linear_terms.specs.declared.row.Row.{Row};
ghost use Rattle.linear_terms.specs.declared.error.TermError.{TermError};
ghost use Rattle.linear_terms.specs.Expressions.{Made, ◌⊟◌, at_most, put_into};
ghost use Rattle.linear_terms.specs.TermError.{cause};
ghost use Rattle.transition_formula.specs.Loss.{answer_of, losses_of};
ghost use Rattle.farkas_check.specs.declared.question.Goal.{Goal};
ghost use Rattle.farkas_check.specs.declared.question.Question.TheVariants.{Sup};
ghost use Rattle.posing.specs.Follows.{Asks};
ghost use Rattle.posing.specs.Logs.{Adds, loss_notes};
ghost use Rattle.posing.specs.Posing.{each};
ghost use Rattle.polyhedra.specs.Bounds.{put_in_for, bound_of, bound_by, bound_in, before_row, after_row, rows_with_entry_bound, rows_with_exit_bound, so_often, change_row, bounded_change, IsCovered, IsCoveredByPosts, for_entries};
ghost use Rattle.polyhedra.specs.Changes.{change};
ghost use Rattle.polyhedra.specs.Kept.{AreOver, with_objectives, objectives_of};
ghost use Rattle.polyhedra.specs.Tables.{AreTables};

use crate::changes::{Moves, objective, tables_of};
use crate::goals::{goals_in, goals_over, with_objectives};
use crate::infeasible::noted_answer;
use crate::losses::note;
use crate::{Log, WorkError};
use farkas_check::{Answer, Goal, Oracle, Question};
use items::Items;
use linear_terms::{Case, Col, Kind, Poly, Row, TermError, difference, mul, subst};
use std::alloc::{AllocError, Global};
use std::mem;
use transition_formula::Formula;

/// The changes of the variables of a formula, and what stands for them in rows.
#[derive(Clone, Copy)]
pub struct Displacement<'a> {
    /// A formula both of whose ends have one vocabulary.
    pub f: &'a Formula,
    /// What stands for the change of each variable in a row.
    pub moved: &'a [Poly],
    /// The column that says how often a bound is taken; once where there is none.
    pub turns: Option<Col>,
}

/// The posts of cases, and what stands for them in rows.
#[derive(Clone, Copy)]
struct Posts<'a> {
    cases: &'a [Case],
    /// What stands for each post in a row.
    after: &'a [Poly],
}

/// The changes of the variables of cases, and what stands for them in rows.
#[derive(Clone, Copy)]
struct Changes<'a> {
    cases: &'a [Case],
    /// The changes of the variables of each case.
    tables: &'a [Moves],
    /// What stands for the change of each variable in a row.
    moved: &'a [Poly],
    /// The column that says how often a bound is taken; once where there is none.
    turns: Option<Col>,
}

// ---- the greatest value of an objective

/// The greatest value of the objective of goals, if it is known. A limit is noted.
#[tactic(auto, using(posing::proofs::Following::following), unfolding(crate::specs::Bounds::bound_by))]
fn ask_bound<O: Oracle>(
    alloc: Global,
    question: &Question,
    oracle: &mut O,
    log: &mut Log,
) -> Result<Option<i128>, WorkError>
    ensures { (goals : List Goal) → question.now ≡ Sup goals →
        Asks O.asking oracle log result (bound_by (Ok goals)) }
{
    let answer = noted_answer(alloc, question, oracle, log)?;
    Ok(bound_in(answer.get()))
}

fn bound_in(answer: &Answer) -> Option<i128>
    ensures { result ≡ bound_in answer.now }
{
    match answer {
        Answer::Bound { at, .. } => Some(*at),
        _ => None,
    }
}

/// The greatest value of the objective of goals, if it is known. Where the objective is lost, its
/// loss is noted and nothing is asked; a limit is noted too.
pub fn bound_by<O: Oracle>(
    alloc: Global,
    goals: Result<Items<Goal>, TermError>,
    oracle: &mut O,
    log: &mut Log,
) -> Result<Option<i128>, WorkError>
    ensures { (stated : Result (List Goal) TermError) → Gives cause (λ g. g) goals stated →
        Asks O.asking oracle log result (bound_by stated) }
{
    match goals {
        Ok(goals) => ask_bound(alloc, &Question::Sup(goals), oracle, log),
        Err(error) => {
            note(alloc, error, log)?;
            Ok(None)
        }
    }
}

/// The greatest value of objectives over the rows of goals, if it is known. Where an objective is
/// lost, its loss is noted and nothing is asked; a limit is noted too.
fn bound_over<O: Oracle>(
    alloc: Global,
    goals: &mut Items<Goal>,
    objectives: Result<Items<Poly>, TermError>,
    oracle: &mut O,
    log: &mut Log,
) -> Result<Option<i128>, WorkError>
    ensures follows { (cases : List Case) (objective : Case → Made) → AreOver cases goals.old →
        Gives cause (λ ps. ps) objectives (objectives_of objective cases) →
        Asks O.asking oracle log result (bound_of cases objective) }
    ensures goals { (cases : List Case) → AreOver cases goals.old → AreOver cases goals.new }
{
    match objectives {
        Ok(objectives) => bound_with(alloc, goals, objectives, oracle, log),
        Err(error) => {
            note(alloc, error, log)?;
            Ok(None)
        }
    }
}

/// The same of objectives that could be made. The goals are moved into the question and back.
fn bound_with<O: Oracle>(
    alloc: Global,
    goals: &mut Items<Goal>,
    objectives: Items<Poly>,
    oracle: &mut O,
    log: &mut Log,
) -> Result<Option<i128>, WorkError>
    ensures follows { Asks O.asking oracle log result
        (bound_by (Ok (with_objectives goals.old objectives))) }
    ensures goals { goals.new ≡ with_objectives goals.old objectives }
{
    let kept = mem::replace(goals, Items::new(alloc));
    let question = Question::Sup(with_objectives(kept, objectives));
    let bound = ask_bound(alloc, &question, oracle, log);
    *goals = goals_in(alloc, question);
    bound
}

// ---- rows

/// The rows with one more, where it could be made; else its loss is noted.
pub fn with_row(
    alloc: Global,
    rows: Items<Row>,
    made: Result<Row, TermError>,
    log: &mut Log,
) -> Result<Items<Row>, AllocError>
    ensures noted { (stated : Result Row TermError) → Gives cause (λ r. r) made stated →
        Adds (loss_notes (losses_of stated)) log.old log.new result }
    ensures exact { (stated : Result Row TermError) → Gives cause (λ r. r) made stated →
        IfOk result (λ all. all ≡ rows ++ option_to_list (answer_of stated)) }
{
    let mut all = rows;
    match made {
        Ok(row) => {
            all.push(row)?;
        }
        Err(error) => {
            note(alloc, error, log)?;
        }
    }
    Ok(all)
}

/// That a polynomial is at most another.
fn at_most(alloc: Global, left: &Poly, most: &Poly) -> Result<Row, TermError>
    ensures { Gives cause (λ r. r) result (at_most (Ok left.now ⊟ Ok most.now)) }
{
    let poly = difference(alloc, left, most)?;
    Ok(Row {
        poly,
        kind: Kind::AtMost,
    })
}

/// A direction with polynomials put in for its columns.
fn put_in_for(alloc: Global, polys: &[Poly], d: &Poly) -> Result<Poly, TermError>
    requires { IsCovered (length polys.now) d.now }
    ensures { Gives cause (λ p. p) result (put_in_for polys.now d.now) }
{
    subst(alloc, d, polys, &[])
}

// ---- bounds before

/// Each direction's greatest value on the entry columns is asked; where there is one, it gives a
/// row behind the others.
pub fn bounds_before<O: Oracle>(
    alloc: Global,
    rows: Items<Row>,
    cases: &[Case],
    directions: &[Poly],
    oracle: &mut O,
    log: &mut Log,
) -> Result<Items<Row>, WorkError>
    ensures { Asks O.asking oracle log result
        (each (rows_with_entry_bound cases.now) rows directions.now) }
{
    let mut goals = goals_over(alloc, cases)?;
    let mut made = rows;
    for d in directions {
        made = bound_before(alloc, made, cases, &mut goals, d, oracle, log)?;
    }
    Ok(made)
}

fn bound_before<O: Oracle>(
    alloc: Global,
    rows: Items<Row>,
    cases: &[Case],
    goals: &mut Items<Goal>,
    d: &Poly,
    oracle: &mut O,
    log: &mut Log,
) -> Result<Items<Row>, WorkError>
    requires { AreOver cases.now goals.old }
    ensures follows { Asks O.asking oracle log result (rows_with_entry_bound cases.now rows d.now) }
    ensures goals { AreOver cases.now goals.new }
{
    let objectives = objectives_before(alloc, cases, d);
    let bound = bound_over(alloc, goals, objectives, oracle, log)?;
    match &bound {
        None => Ok(rows),
        Some(most) => {
            let row = before_row(alloc, d, most);
            Ok(with_row(alloc, rows, row, log)?)
        }
    }
}

fn objectives_before(alloc: Global, cases: &[Case], d: &Poly) -> Result<Items<Poly>, TermError>
    ensures { Gives cause (λ ps. ps) result (objectives_of (λ case. Ok d.now) cases.now) }
{
    let mut objectives = Items::new(alloc);
    for _case in cases {
        objectives.push(d.clone()?)?;
    }
    Ok(objectives)
}

fn before_row(alloc: Global, d: &Poly, most: &i128) -> Result<Row, TermError>
    ensures { Gives cause (λ r. r) result (before_row d.now most.now) }
{
    at_most(alloc, d, &Poly::constant(alloc, *most))
}

// ---- bounds after

/// Each direction's greatest value on the posts is asked; where there is one, it gives a row behind
/// the others, in which `after` has what stands for each post.
pub fn bounds_after<O: Oracle>(
    alloc: Global,
    rows: Items<Row>,
    cases: &[Case],
    after: &[Poly],
    directions: &[Poly],
    oracle: &mut O,
    log: &mut Log,
) -> Result<Items<Row>, WorkError>
    requires posts { All (IsCoveredByPosts cases.now) directions.now }
    requires rows { All (IsCovered (length after.now)) directions.now }
    ensures { Asks O.asking oracle log result
        (each (rows_with_exit_bound cases.now after.now) rows directions.now) }
{
    let posts = Posts { cases, after };
    let mut goals = goals_over(alloc, cases)?;
    let mut made = rows;
    for d in directions {
        made = bound_after(alloc, made, posts, &mut goals, d, oracle, log)?;
    }
    Ok(made)
}

fn bound_after<O: Oracle>(
    alloc: Global,
    rows: Items<Row>,
    posts: Posts,
    goals: &mut Items<Goal>,
    d: &Poly,
    oracle: &mut O,
    log: &mut Log,
) -> Result<Items<Row>, WorkError>
    requires posts { IsCoveredByPosts posts.cases.now d.now }
    requires rows { IsCovered (length posts.after.now) d.now }
    requires goals { AreOver posts.cases.now goals.old }
    ensures follows { Asks O.asking oracle log result
        (rows_with_exit_bound posts.entry.cases.now posts.entry.after.now rows d.now) }
    ensures goals { AreOver posts.entry.cases.now goals.new }
{
    let objectives = objectives_after(alloc, posts.cases, d);
    let bound = bound_over(alloc, goals, objectives, oracle, log)?;
    match &bound {
        None => Ok(rows),
        Some(most) => {
            let row = after_row(alloc, posts.after, d, most);
            Ok(with_row(alloc, rows, row, log)?)
        }
    }
}

fn objectives_after(alloc: Global, cases: &[Case], d: &Poly) -> Result<Items<Poly>, TermError>
    requires { IsCoveredByPosts cases.now d.now }
    ensures { Gives cause (λ ps. ps) result
        (objectives_of (λ case. put_in_for case.post d.now) cases.now) }
{
    let mut objectives = Items::new(alloc);
    for case in cases {
        objectives.push(put_in_for(alloc, case.post.as_slice(), d)?)?;
    }
    Ok(objectives)
}

fn after_row(alloc: Global, after: &[Poly], d: &Poly, most: &i128) -> Result<Row, TermError>
    requires { IsCovered (length after.now) d.now }
    ensures { Gives cause (λ r. r) result (after_row after.now d.now most.now) }
{
    let left = put_in_for(alloc, after, d)?;
    at_most(alloc, &left, &Poly::constant(alloc, *most))
}

// ---- bounds on changes

/// Each direction's greatest value on the changes of the variables is asked; where there is one, it
/// gives a row behind the others.
pub fn bounds_on_changes<O: Oracle>(
    alloc: Global,
    rows: Items<Row>,
    by: Displacement,
    directions: &[Poly],
    oracle: &mut O,
    log: &mut Log,
) -> Result<Items<Row>, WorkError>
    requires columns { All (IsCovered by.f.now.to) directions.now }
    requires rows { All (IsCovered (length by.moved.now)) directions.now }
    ensures { Asks O.asking oracle log result
        (each (bounded_change by.entry.f.now.cases by.entry.moved.now by.entry.turns) rows
        directions.now) }
{
    let cases = by.f.cases();
    let tables = tables_of(alloc, true, cases, by.f.to())?;
    let changes = Changes {
        cases,
        tables: tables.as_slice(),
        moved: by.moved,
        turns: by.turns,
    };
    let mut goals = goals_over(alloc, cases)?;
    let mut made = rows;
    for d in directions {
        made = bound_on_changes(alloc, made, changes, &mut goals, d, oracle, log)?;
    }
    Ok(made)
}

fn bound_on_changes<O: Oracle>(
    alloc: Global,
    rows: Items<Row>,
    changes: Changes,
    goals: &mut Items<Goal>,
    d: &Poly,
    oracle: &mut O,
    log: &mut Log,
) -> Result<Items<Row>, WorkError>
    requires tables { AreTables changes.cases.now changes.tables.now d.now }
    requires rows { IsCovered (length changes.moved.now) d.now }
    requires goals { AreOver changes.cases.now goals.old }
    ensures follows { Asks O.asking oracle log result
        (bounded_change changes.entry.cases.now changes.entry.moved.now changes.entry.turns rows
        d.now) }
    ensures goals { AreOver changes.entry.cases.now goals.new }
{
    let objectives = objectives_on_changes(alloc, changes, d);
    let bound = bound_over(alloc, goals, objectives, oracle, log)?;
    match &bound {
        None => Ok(rows),
        Some(most) => {
            let row = change_row(alloc, changes, d, most);
            Ok(with_row(alloc, rows, row, log)?)
        }
    }
}

fn objectives_on_changes(
    alloc: Global,
    changes: Changes,
    d: &Poly,
) -> Result<Items<Poly>, TermError>
    requires { AreTables changes.cases.now changes.tables.now d.now }
    ensures { Gives cause (λ ps. ps) result
        (objectives_of (λ case. put_into (for_entries (change true case)) d.now)
        changes.entry.cases.now) }
{
    let mut objectives = Items::new(alloc);
    for (place, _case) in changes.cases.iter().enumerate() {
        objectives.push(objective(alloc, &changes.tables[place], d)?)?;
    }
    Ok(objectives)
}

fn change_row(alloc: Global, changes: Changes, d: &Poly, most: &i128) -> Result<Row, TermError>
    requires { IsCovered (length changes.moved.now) d.now }
    ensures { Gives cause (λ r. r) result
        (change_row changes.entry.moved.now changes.entry.turns d.now most.now) }
{
    let left = put_in_for(alloc, changes.moved, d)?;
    let right = so_often(alloc, changes.turns, Poly::constant(alloc, *most))?;
    at_most(alloc, &left, &right)
}

/// A bound, or so many times a bound as a column says.
fn so_often(alloc: Global, turns: Option<Col>, most: Poly) -> Result<Poly, TermError>
    ensures { Gives cause (λ p. p) result (so_often turns (Ok most)) }
{
    match turns {
        None => Ok(most),
        Some(turns) => {
            let turns = Poly::column(alloc, turns)?;
            mul(alloc, &most, &turns)
        }
    }
}
