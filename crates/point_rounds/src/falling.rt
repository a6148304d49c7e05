ghost use Rattle.std.specs.Prelude.{◌≡◌, ◌≤◌, ◌<◌, List, drop, length, IfOk, OnOk};
ghost use Rattle.std.specs.List.{AllByRecursion};
ghost use Rattle.linear_terms.specs.declared.row.Row.{Row as PlainRow};
ghost use Rattle.farkas_check.specs.declared.question.Question.TheVariants.{Infeasible};
ghost use Rattle.posing.specs.Follows.{Asks};
ghost use Rattle.posing.specs.Posing.{answer_to, each};
ghost use Rattle.polyhedra.specs.Infeasibility.{is_yes};
ghost use Rattle.leaf_cases.specs.Conditions.{columns_at};
ghost use Rattle.point_rows.specs.Reading.{AreOverColumns, IsOverColumns};
ghost use Rattle.point_rounds.specs.Closed.{AreStepsFrom, IsStepOf};
ghost use Rattle.point_rounds.specs.Parts.{IsReadBy};
ghost use Rattle.point_rounds.specs.Rounds.{all_refuted, fallen_rows, none_possible, place_of, row_refuted, row_shown, rows_at_place, unless_shown, with_case, with_cases, with_numbers_from, with_row, with_rows, with_step};
ghost use Rattle.point_rounds.specs.Source.{IsRoundSource};
ghost use Rattle.point_rounds.specs.Table.{IsTable};

use crate::round::{FallenRow, RowPlace, StepFrom};
use crate::source::{RoundSource, heads_at};
use crate::table::{PointTable, rows_at, rows_at_exit};
use farkas_check::{Answer, Oracle, Question};
use items::Items;
use linear_terms::{Case, Poly, Row};
use point_rows::{contraries, given_rows};
use point_steps::Target;
use posing::{Log, WorkError, ask};
use std::alloc::{AllocError, Global};
use std::mem;

/// The rows that fall: those that a case of a step to their place does not show, where the rows at
/// the step's point are given. A row falls once for each such case, in the order of the steps, of
/// their cases and of the rows.
///
/// # Errors
///
/// A question that the oracle refused, or want of memory.
pub fn fallen_rows<O: Oracle>(
    alloc: Global,
    source: RoundSource,
    table: &PointTable,
    steps: &[StepFrom],
    oracle: &mut O,
    log: &mut Log,
) -> Result<Items<FallenRow>, WorkError>
    requires source { IsRoundSource source }
    requires table { IsTable source.program.now table.now }
    requires steps { AreStepsFrom source.program.now steps.now }
    ensures { Asks O.asking oracle log result
        (fallen_rows source.entry.program.now table.now steps.now) }
{
    let mut fell = Items::new(alloc);
    for from in steps {
        fell = with_step(alloc, source, table, fell, from, oracle, log)?;
    }
    Ok(fell)
}

/// The rows at both ends of a step: how many columns its point has, the rows there, the place to
/// which it leads, and the rows at the place.
#[derive(Clone, Copy)]
struct StepRows<'a> {
    columns: u32,
    source: &'a [Row],
    place: RowPlace,
    rows: &'a [Row],
}

/// A row of a place with its number there, and the posts that are its columns.
#[derive(Clone, Copy)]
struct ReadRow<'a> {
    place: RowPlace,
    number: usize,
    row: &'a Row,
    posts: &'a [Poly],
}

// ---- steps and their cases

/// The rows that fell, with those that do not stay by a step.
#[tactic(auto, using(posing::proofs::Following::following), unfolding(crate::specs::Rounds::with_step))]
fn with_step<O: Oracle>(
    alloc: Global,
    source: RoundSource,
    table: &PointTable,
    fell: Items<FallenRow>,
    from: &StepFrom,
    oracle: &mut O,
    log: &mut Log,
) -> Result<Items<FallenRow>, WorkError>
    requires source { IsRoundSource source }
    requires table { IsTable source.program.now table.now }
    requires from { IsStepOf source.program.now from.now }
    ensures { Asks O.asking oracle log result
        (with_step source.entry.program.now table.now fell from.now) }
{
    match place_of(from.proc, from.step.target) {
        Some(place) => {
            let ends = StepRows {
                columns: columns_at(source, from.proc),
                source: rows_at(heads_at(source, from.proc), table, from.proc, from.node),
                place,
                rows: rows_at_place(source, table, place),
            };
            with_cases(alloc, ends, fell, from.step.formula.cases(), oracle, log)
        }
        None => Ok(fell),
    }
}

/// Where a step of a procedure leads to; no rows stand at assertions.
fn place_of(proc: u32, target: Target) -> Option<RowPlace>
    ensures { result ≡ place_of proc target }
{
    match target {
        Target::Head(node) => Some(RowPlace::AtPoint { proc, node }),
        Target::Entry(callee) => Some(RowPlace::AtPoint {
            proc: callee,
            node: 0,
        }),
        Target::Exit => Some(RowPlace::AtExit { proc }),
        Target::Check(_) => None,
    }
}

/// How many columns the states of a procedure have.
fn columns_at(source: RoundSource, proc: u32) -> u32
    requires source { IsRoundSource source }
    requires procedure { proc < length source.program.now.procs }
    ensures { result ≡ columns_at source.entry.program.now proc }
{
    let p = &source.program.procs.as_slice()[proc as usize];
    (source.program.globals.len() + p.columns.len() + 1) as u32
}

/// The rows at a place.
fn rows_at_place<'t>(source: RoundSource, table: &'t PointTable, place: RowPlace) -> &'t [Row]
    requires { IsRoundSource source }
    ensures { result.now ≡ rows_at_place source.entry.program.now table.now place }
{
    match place {
        RowPlace::AtPoint { proc, node } => rows_at(heads_at(source, proc), table, proc, node),
        RowPlace::AtExit { proc } => rows_at_exit(table, proc),
    }
}

/// The same in all cases of a step, where there are rows.
#[tactic(auto, using(posing::proofs::Following::following))]
fn with_cases<O: Oracle>(
    alloc: Global,
    ends: StepRows,
    fell: Items<FallenRow>,
    cases: &[Case],
    oracle: &mut O,
    log: &mut Log,
) -> Result<Items<FallenRow>, WorkError>
    requires { AllByRecursion (IsReadBy ends) cases.now }
    ensures { Asks O.asking oracle log result
        (with_cases ends.entry.columns ends.entry.source.now cases.now ends.entry.place fell
        ends.entry.rows.now) }
{
    match ends.rows {
        [] => Ok(fell),
        [_, ..] => with_each_case(alloc, ends, fell, cases, oracle, log),
    }
}

/// The same in these cases.
#[tactic(auto, using(posing::proofs::Following::following))]
fn with_each_case<O: Oracle>(
    alloc: Global,
    ends: StepRows,
    fell: Items<FallenRow>,
    cases: &[Case],
    oracle: &mut O,
    log: &mut Log,
) -> Result<Items<FallenRow>, WorkError>
    requires { AllByRecursion (IsReadBy ends) cases.now }
    ensures { Asks O.asking oracle log result
        (each
        (with_case ends.entry.columns ends.entry.source.now ends.entry.place ends.entry.rows.now)
        fell cases.now) }
{
    let mut all = fell;
    for case in cases {
        all = with_case(alloc, ends, all, case, oracle, log)?;
    }
    Ok(all)
}

/// The same in one case. Where a row at the point is false in it, nothing is asked.
#[tactic(auto, using(posing::proofs::Following::following), unfolding(crate::specs::Rounds::with_case))]
fn with_case<O: Oracle>(
    alloc: Global,
    ends: StepRows,
    fell: Items<FallenRow>,
    case: &Case,
    oracle: &mut O,
    log: &mut Log,
) -> Result<Items<FallenRow>, WorkError>
    requires { IsReadBy ends case.now }
    ensures { Asks O.asking oracle log result
        (with_case ends.entry.columns ends.entry.source.now ends.entry.place ends.entry.rows.now
        fell case.now) }
{
    let posts = case.post.as_slice();
    let given = given_rows(alloc, posts, case.rows.as_slice(), ends.source)?;
    let posts = posts_behind(posts, ends.columns);
    with_rows(alloc, ends, fell, posts, given, oracle, log)
}

/// The posts behind so many.
fn posts_behind(posts: &[Poly], columns: u32) -> &[Poly]
    requires { columns ≤ length posts.now }
    ensures { result.now ≡ drop columns posts.now }
{
    &posts[columns as usize..]
}

// ---- rows

/// The rows that fell, with those of the place that what is given does not show, if something is.
#[tactic(auto, using(posing::proofs::Following::following))]
fn with_rows<O: Oracle>(
    alloc: Global,
    ends: StepRows,
    fell: Items<FallenRow>,
    posts: &[Poly],
    given: Option<Items<Row>>,
    oracle: &mut O,
    log: &mut Log,
) -> Result<Items<FallenRow>, WorkError>
    requires { AreOverColumns (length posts.now) ends.rows.now }
    ensures { Asks O.asking oracle log result
        (with_rows ends.entry.place ends.entry.rows.now posts.now fell given) }
{
    match given {
        Some(given) => with_each_row(alloc, ends, fell, posts, given, oracle, log),
        None => Ok(fell),
    }
}

/// The same where rows are given.
#[tactic(auto, using(posing::proofs::Following::following))]
fn with_each_row<O: Oracle>(
    alloc: Global,
    ends: StepRows,
    fell: Items<FallenRow>,
    posts: &[Poly],
    given: Items<Row>,
    oracle: &mut O,
    log: &mut Log,
) -> Result<Items<FallenRow>, WorkError>
    requires { AreOverColumns (length posts.now) ends.rows.now }
    ensures { Asks O.asking oracle log result
        (each (with_row ends.entry.place given posts.now) fell
        (with_numbers_from 0 ends.entry.rows.now)) }
{
    let mut all = fell;
    let mut given = given;
    let place = ends.place;
    let rows = ends.rows;
    for (number, row) in rows.iter().enumerate() {
        let read = ReadRow {
            place,
            number,
            row,
            posts,
        };
        all = with_row(alloc, read, all, &mut given, oracle, log)?;
    }
    Ok(all)
}

/// The rows that fell, with one more unless it is shown by what is given, which stays as it is.
#[tactic(auto, using(posing::proofs::Following::following), unfolding(crate::specs::Rounds::with_row))]
fn with_row<O: Oracle>(
    alloc: Global,
    read: ReadRow,
    fell: Items<FallenRow>,
    given: &mut Items<Row>,
    oracle: &mut O,
    log: &mut Log,
) -> Result<Items<FallenRow>, WorkError>
    requires { IsOverColumns (length read.posts.now) read.row.now }
    ensures follows { Asks O.asking oracle log result
        (with_row read.entry.place given.old read.entry.posts.now fell
        (read.entry.number, read.entry.row.now)) }
    ensures same { OnOk result (given.new ≡ given.old) }
{
    let shown = row_shown(alloc, read.posts, read.row, given, oracle, log)?;
    Ok(unless_shown(read.place, read.number, fell, shown)?)
}

/// The rows that fell, and the row of that number of the place unless it is shown.
fn unless_shown(
    place: RowPlace,
    number: usize,
    fell: Items<FallenRow>,
    shown: bool,
) -> Result<Items<FallenRow>, AllocError>
    ensures { IfOk result (λ all. all ≡ unless_shown place number fell shown) }
{
    let mut all = fell;
    if !shown {
        all.push(FallenRow { place, number })?;
    }
    Ok(all)
}

/// Whether what is given shows the row, whose columns are the posts. What is given stays as it is.
#[tactic(auto, using(posing::proofs::Following::following), unfolding(crate::specs::Rounds::row_shown))]
fn row_shown<O: Oracle>(
    alloc: Global,
    posts: &[Poly],
    row: &Row,
    given: &mut Items<Row>,
    oracle: &mut O,
    log: &mut Log,
) -> Result<bool, WorkError>
    requires { IsOverColumns (length posts.now) row.now }
    ensures follows { Asks O.asking oracle log result (row_shown given.old posts.now row.now) }
    ensures same { OnOk result (given.new ≡ given.old) }
{
    let rows = contraries(alloc, posts, row)?;
    none_possible(alloc, rows, given, oracle, log)
}

/// The same of contraries that may be lost; then nothing is asked, and the row is not shown.
#[tactic(auto, using(posing::proofs::Following::following))]
fn none_possible<O: Oracle>(
    alloc: Global,
    contraries: Option<Items<Row>>,
    given: &mut Items<Row>,
    oracle: &mut O,
    log: &mut Log,
) -> Result<bool, WorkError>
    ensures follows { Asks O.asking oracle log result (none_possible given.old contraries) }
    ensures same { OnOk result (given.new ≡ given.old) }
{
    match contraries {
        Some(rows) => all_refuted(alloc, rows, given, oracle, log),
        None => Ok(false),
    }
}

/// Whether each of the rows is refuted by what is given; the first that is not ends it.
#[tactic(auto, using(posing::proofs::Following::following))]
fn all_refuted<O: Oracle>(
    alloc: Global,
    rows: Items<Row>,
    given: &mut Items<Row>,
    oracle: &mut O,
    log: &mut Log,
) -> Result<bool, WorkError>
    ensures follows { Asks O.asking oracle log result (all_refuted given.old rows) }
    ensures same { OnOk result (given.new ≡ given.old) }
{
    for row in rows {
        let refuted = row_refuted(alloc, row, given, oracle, log)?;
        if !refuted {
            return Ok(false);
        }
    }
    Ok(true)
}

/// Whether the row is refuted by what is given, behind which it is put and then taken away.
#[tactic(auto, using(posing::proofs::Following::following), unfolding(crate::specs::Rounds::row_refuted))]
fn row_refuted<O: Oracle>(
    alloc: Global,
    row: Row,
    given: &mut Items<Row>,
    oracle: &mut O,
    log: &mut Log,
) -> Result<bool, WorkError>
    ensures follows { Asks O.asking oracle log result (row_refuted given.old row) }
    ensures same { OnOk result (given.new ≡ given.old) }
{
    given.push(row)?;
    let answer = answer_on(alloc, given, oracle, log)?;
    let _last = given.pop();
    Ok(is_yes(&answer))
}

/// The answer whether rows are infeasible. They are moved into the question and back.
fn answer_on<O: Oracle>(
    alloc: Global,
    rows: &mut Items<Row>,
    oracle: &mut O,
    log: &mut Log,
) -> Result<Answer, WorkError>
    ensures follows { Asks O.asking oracle log result (answer_to (Infeasible rows.old)) }
    ensures same { rows.new ≡ rows.old }
{
    let question = Question::Infeasible(mem::replace(rows, Items::new(alloc)));
    let answer = ask(alloc, &question, oracle, log);
    *rows = rows_of(alloc, question);
    answer
}

/// The rows of a question.
fn rows_of(alloc: Global, question: Question) -> Items<Row>
    ensures { (rows : List PlainRow) → question ≡ Infeasible rows → result ≡ rows }
{
    match question {
        Question::Infeasible(rows) => rows,
        _ => Items::new(alloc),
    }
}

fn is_yes(answer: &Answer) -> bool
    ensures { result ≡ is_yes answer.now }
{
    matches!(answer, Answer::Yes(_))
}
