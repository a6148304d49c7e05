ghost use Rattle.std.specs.Prelude.{◌≡◌, ◌<◌, length, Result, Ok, IfOk};
ghost use Rattle.items.specs.Gives.{Gives};
ghost use Rattle.linear_terms.specs.declared.error.TermError.{TermError};
ghost use Rattle.linear_terms.specs.declared.row.Row.{Row};
ghost use Rattle.linear_terms.specs.Expressions.{Made};
ghost use Rattle.linear_terms.specs.Polynomial.{without_constant};
ghost use Rattle.linear_terms.specs.TermError.{cause};
ghost use Rattle.farkas_check.specs.declared.answer.Answer.TheVariants.{Yes};
ghost use Rattle.farkas_check.specs.declared.question.Question.TheVariants.{Infeasible};
ghost use Rattle.posing.specs.Follows.{Asks};
ghost use Rattle.posing.specs.Posing.{answer_to};
ghost use Rattle.cost_bounds.specs.Changes.{change_of};
ghost use Rattle.cost_bounds.specs.Questions.{cost_rows};
ghost use Rattle.cost_bounds.specs.Costs.{bound_by, kept_bound, by_answer, cost_asked, cost_by, cost_by_last, cost_of_change, case_cost};
ghost use Rattle.cost_bounds.specs.Small.{kept_part};
ghost use Rattle.cost_bounds.specs.Says.{IsMetByCase, Says};

use crate::Cost;
use crate::entries::{entry_rows, is_over_entry};
use crate::kept::Kept;
use crate::limits::limit_of;
use crate::multipliers::{lowest_multipliers, scale_in};
use crate::questions::{asked_rows, bares_of, copy_of, question_of};
use crate::small::least_kept;
use crate::sums::bound_of;
use farkas_check::{Answer, Limit, Oracle, Question};
use items::Items;
use linear_terms::{Case, Col, Poly, Row, TermError, difference, negation};
use posing::{Log, WorkError, ask};
use std::alloc::{AllocError, Global};

/// By how much a case changes the global of a number, whose entry column has the same number.
pub fn bound<O: Oracle>(
    alloc: Global,
    case: &Case,
    global: u32,
    oracle: &mut O,
    log: &mut Log,
) -> Result<Cost, WorkError>
    requires { global < length case.now.post }
    ensures follows { Asks O.asking oracle log result (case_cost case.now global) }
    ensures met { IfOk result (IsMetByCase case.now global) }
    ensures says { IfOk result (Says O.asking.allows case.now global) }
{
    cost_of(alloc, case, global, oracle, log)
}

fn cost_of<O: Oracle>(
    alloc: Global,
    case: &Case,
    global: u32,
    oracle: &mut O,
    log: &mut Log,
) -> Result<Cost, WorkError>
    requires { global < length case.now.post }
    ensures { Asks O.asking oracle log result (case_cost case.now global) }
{
    let change = change_in(alloc, case, global);
    cost_by(alloc, &case.rows, change, oracle, log)
}

fn change_in(alloc: Global, case: &Case, global: u32) -> Result<Poly, TermError>
    requires { global < length case.now.post }
    ensures { Gives cause (λ p. p) result (change_of case.now.post global) }
{
    change_of(alloc, case.post.as_slice(), global)
}

/// The post of a number less its entry column.
fn change_of(alloc: Global, posts: &[Poly], global: u32) -> Result<Poly, TermError>
    requires { global < length posts.now }
    ensures { Gives cause (λ p. p) result (change_of posts.now global) }
{
    let column = Poly::column(alloc, Col::At(global))?;
    difference(alloc, &posts[global as usize], &column)
}

/// By the change, where it can be made.
fn cost_by<O: Oracle>(
    alloc: Global,
    rows: &Items<Row>,
    change: Result<Poly, TermError>,
    oracle: &mut O,
    log: &mut Log,
) -> Result<Cost, WorkError>
    ensures { (stated : Made) → Gives cause (λ p. p) change stated
        → Asks O.asking oracle log result (cost_by rows.now stated) }
{
    match change {
        Ok(change) => cost_of_change(alloc, rows, change, oracle, log),
        Err(error) => Ok(Cost::Limit(limit_of(error)?)),
    }
}

/// A change without auxiliaries is told as it is.
#[tactic(auto, using(posing::proofs::Following::following), unfolding(crate::specs::Costs::cost_of_change))]
fn cost_of_change<O: Oracle>(
    alloc: Global,
    rows: &Items<Row>,
    change: Poly,
    oracle: &mut O,
    log: &mut Log,
) -> Result<Cost, WorkError>
    ensures { Asks O.asking oracle log result (cost_of_change change rows.now) }
{
    if is_over_entry(&change) {
        return Ok(Cost::Exact(change));
    }
    let height = height_of(&change)?;
    let last = negation(alloc, &height);
    cost_by_last(alloc, rows, &change, last, oracle, log)
}

/// The change without its constant.
fn height_of(change: &Poly) -> Result<Poly, AllocError>
    ensures { IfOk result (λ height. height ≡ without_constant change.now) }
{
    let copy = change.clone()?;
    Ok(copy.without_constant())
}

/// By the row that asks for growth, where it can be made.
fn cost_by_last<O: Oracle>(
    alloc: Global,
    rows: &Items<Row>,
    change: &Poly,
    last: Result<Row, TermError>,
    oracle: &mut O,
    log: &mut Log,
) -> Result<Cost, WorkError>
    ensures { (stated : Result Row TermError) → Gives cause (λ r. r) last stated
        → Asks O.asking oracle log result (cost_by_last change.now rows.now stated) }
{
    match last {
        Ok(last) => {
            let growth = ChangeGrowth {
                change,
                rows,
                last: &last,
            };
            cost_asked(alloc, growth, oracle, log)
        }
        Err(error) => Ok(Cost::Limit(limit_of(error)?)),
    }
}

/// The question whether a change grows without end.
#[derive(Clone, Copy)]
pub(crate) struct ChangeGrowth<'a> {
    pub(crate) change: &'a Poly,
    /// The rows of the case.
    pub(crate) rows: &'a Items<Row>,
    /// The row that asks for growth.
    pub(crate) last: &'a Row,
}

/// Asks the first question.
#[tactic(auto, using(posing::proofs::Following::following), unfolding(crate::specs::Costs::cost_asked))]
fn cost_asked<O: Oracle>(
    alloc: Global,
    growth: ChangeGrowth,
    oracle: &mut O,
    log: &mut Log,
) -> Result<Cost, WorkError>
    ensures { Asks O.asking oracle log result
        (cost_asked growth.entry.change.now growth.entry.rows.now growth.entry.last.now) }
{
    let entries = entry_rows(alloc, growth.rows, growth.change)?;
    let answer = first_answer(alloc, growth, &entries, oracle, log)?;
    cost_by_answer(alloc, growth, entries, answer, oracle, log)
}

fn first_answer<O: Oracle>(
    alloc: Global,
    growth: ChangeGrowth,
    entries: &Items<Row>,
    oracle: &mut O,
    log: &mut Log,
) -> Result<Answer, WorkError>
    ensures { Asks O.asking oracle log result
        (answer_to (Infeasible (cost_rows growth.entry.rows.now entries.now growth.entry.last.now))) }
{
    let question = question_with(alloc, growth, entries)?;
    ask(alloc, &question, oracle, log)
}

fn question_with(
    alloc: Global,
    growth: ChangeGrowth,
    entries: &Items<Row>,
) -> Result<Question, AllocError>
    ensures { IfOk result (λ question. question
        ≡ Infeasible (cost_rows growth.entry.rows.now entries.now growth.entry.last.now)) }
{
    let bares = bares_of(alloc, growth.rows)?;
    let entries = copy_of(entries)?;
    question_of(bares, entries, growth.last)
}

fn cost_by_answer<O: Oracle>(
    alloc: Global,
    growth: ChangeGrowth,
    entries: Items<Row>,
    answer: Answer,
    oracle: &mut O,
    log: &mut Log,
) -> Result<Cost, WorkError>
    ensures { Asks O.asking oracle log result
        (by_answer growth.entry.change.now.rest growth.entry.last.now growth.entry.rows.now entries
        answer) }
{
    match answer {
        Answer::Yes(by) => cost_by_yes(alloc, growth, entries, by, oracle, log),
        Answer::No(point) => Ok(Cost::Unbounded(point)),
        Answer::Limit(limit) => Ok(Cost::Limit(limit)),
        Answer::Bound { .. } => Ok(Cost::Limit(Limit::Pivots)),
        Answer::Unbounded { .. } => Ok(Cost::Limit(Limit::Pivots)),
        Answer::Basis { .. } => Ok(Cost::Limit(Limit::Pivots)),
    }
}

/// Makes the question least_kept, and tells the bound of what is left.
#[tactic(auto, using(posing::proofs::Following::following))]
fn cost_by_yes<O: Oracle>(
    alloc: Global,
    growth: ChangeGrowth,
    entries: Items<Row>,
    by: Items<i128>,
    oracle: &mut O,
    log: &mut Log,
) -> Result<Cost, WorkError>
    ensures { Asks O.asking oracle log result
        (by_answer growth.entry.change.now.rest growth.entry.last.now growth.entry.rows.now entries
        (Yes by)) }
{
    let kept = kept_part(growth.rows, entries, by)?;
    let least = least_kept(alloc, kept, growth.last, oracle, log)?;
    Ok(kept_bound(alloc, growth, least)?)
}

fn kept_part(rows: &Items<Row>, entries: Items<Row>, by: Items<i128>) -> Result<Kept, AllocError>
    ensures { IfOk result (λ kept. kept ≡ kept_part rows.now entries by) }
{
    let rows = copy_of(rows)?;
    Ok(Kept { rows, entries, by })
}

fn kept_bound(alloc: Global, growth: ChangeGrowth, kept: Kept) -> Result<Cost, AllocError>
    ensures { IfOk result
        (λ made. made ≡ kept_bound growth.entry.change.now.rest growth.entry.last.now kept) }
{
    let Kept { rows, entries, by } = kept;
    let by = lowest_multipliers(alloc, by.as_slice())?;
    let sum = bound_of(
        alloc,
        growth.change,
        rows.as_slice(),
        entries.as_slice(),
        by.as_slice(),
    );
    bound_by(alloc, rows, entries, growth.last, by, sum)
}

fn bound_by(
    alloc: Global,
    rows: Items<Row>,
    entries: Items<Row>,
    last: &Row,
    by: Items<i128>,
    sum: Result<Poly, TermError>,
) -> Result<Cost, AllocError>
    ensures { (stated : Made) → Gives cause (λ p. p) sum stated
        → IfOk result (λ made. made ≡ bound_by rows entries last.now by stated) }
{
    match sum {
        Ok(poly) => told_bound(alloc, rows, entries, last, by, poly),
        Err(error) => Ok(Cost::Limit(limit_of(error)?)),
    }
}

fn told_bound(
    alloc: Global,
    rows: Items<Row>,
    entries: Items<Row>,
    last: &Row,
    by: Items<i128>,
    poly: Poly,
) -> Result<Cost, AllocError>
    ensures { IfOk result (λ made. made ≡ bound_by rows entries last.now by (Ok poly)) }
{
    let scale = scale_in(rows.as_slice(), entries.as_slice(), by.as_slice());
    let bares = bares_of(alloc, &rows)?;
    let kept = asked_rows(bares, entries, last)?;
    Ok(Cost::Bound {
        scale,
        by: poly,
        kept,
        multipliers: by,
    })
}
