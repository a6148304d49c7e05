ghost use Rattle.std.specs.Prelude.{◌≡◌, ◌<◌, length, IfOk};
ghost use Rattle.std.specs.List.{remove};
ghost use Rattle.farkas_check.specs.declared.question.Question.TheVariants.{Infeasible};
ghost use Rattle.posing.specs.Follows.{Asks};
ghost use Rattle.cost_bounds.specs.Questions.{cost_rows};
ghost use Rattle.cost_bounds.specs.Small.{yes_to, is_of, fewer_rows, least_kept, trial, without_entries, without_entry, without_row, without_rows, yes_of};

use crate::kept::Kept;
use crate::questions::{bares_of, copy_of, question_of};
use farkas_check::{Answer, Oracle, Question};
use items::Items;
use linear_terms::{Kind, Row};
use posing::{Log, WorkError, ask};
use std::alloc::{AllocError, Global};

/// Leaves out what the answer does not need: inequalities, then equations, then entry monomials.
#[tactic(auto, using(posing::proofs::Following::following), unfolding(crate::specs::Small::least_kept))]
pub(crate) fn least_kept<O: Oracle>(
    alloc: Global,
    kept: Kept,
    last: &Row,
    oracle: &mut O,
    log: &mut Log,
) -> Result<Kept, WorkError>
    ensures { Asks O.asking oracle log result (least_kept last.now kept) }
{
    let fewer = without_rows(alloc, kept, Kind::AtMost, last, oracle, log)?;
    let least = without_rows(alloc, fewer, Kind::Equal, last, oracle, log)?;
    without_entries(alloc, least, last, oracle, log)
}

/// Goes over the rows of a kind, from the last to the first.
fn without_rows<O: Oracle>(
    alloc: Global,
    kept: Kept,
    kind: Kind,
    last: &Row,
    oracle: &mut O,
    log: &mut Log,
) -> Result<Kept, WorkError>
    ensures { Asks O.asking oracle log result (without_rows kind last.now kept) }
{
    let mut left = kept;
    let mut place = left.rows.len();
    while place > 0 {
        place -= 1;
        left = without_row(alloc, left, kind, place, last, oracle, log)?;
    }
    Ok(left)
}

/// Without the row at a place, if it is of the kind and the others suffice.
#[tactic(auto, using(posing::proofs::Following::following), unfolding(crate::specs::Small::without_row))]
fn without_row<O: Oracle>(
    alloc: Global,
    kept: Kept,
    kind: Kind,
    place: usize,
    last: &Row,
    oracle: &mut O,
    log: &mut Log,
) -> Result<Kept, WorkError>
    ensures { Asks O.asking oracle log result (without_row kind last.now kept place) }
{
    if place >= kept.rows.len() {
        return Ok(kept);
    }
    if is_of(kind, kept.rows[place].kind) {
        trial_without_row(alloc, kept, place, last, oracle, log)
    } else {
        Ok(kept)
    }
}

fn is_of(kind: Kind, own: Kind) -> bool
    ensures { result ≡ is_of kind own }
{
    match (kind, own) {
        (Kind::AtMost, Kind::AtMost) => true,
        (Kind::AtMost, Kind::Equal) => false,
        (Kind::Equal, Kind::AtMost) => false,
        (Kind::Equal, Kind::Equal) => true,
    }
}

#[tactic(auto, using(posing::proofs::Following::following), unfolding(crate::specs::Small::trial))]
fn trial_without_row<O: Oracle>(
    alloc: Global,
    kept: Kept,
    place: usize,
    last: &Row,
    oracle: &mut O,
    log: &mut Log,
) -> Result<Kept, WorkError>
    requires { place < length kept.rows }
    ensures { Asks O.asking oracle log result
        (trial last.now kept (remove kept.rows place) kept.entries) }
{
    let question = question_without_row(alloc, &kept, place, last)?;
    let by = yes_to(alloc, question, oracle, log)?;
    Ok(less_row(kept, place, by))
}

fn question_without_row(
    alloc: Global,
    kept: &Kept,
    place: usize,
    last: &Row,
) -> Result<Question, AllocError>
    requires { place < length kept.now.rows }
    ensures { IfOk result (λ question. question
        ≡ Infeasible (cost_rows (remove kept.now.rows place) kept.now.entries last.now)) }
{
    let bares = bares_of(alloc, &kept.rows)?;
    let entries = copy_of(&kept.entries)?;
    question_of(without(bares, place), entries, last)
}

fn less_row(kept: Kept, place: usize, by: Option<Items<i128>>) -> Kept
    requires { place < length kept.rows }
    ensures { result ≡ fewer_rows kept (remove kept.rows place) kept.entries by }
{
    match by {
        None => kept,
        Some(by) => Kept {
            rows: without(kept.rows, place),
            entries: kept.entries,
            by,
        },
    }
}

/// Goes over the rows of entry monomials, from the last to the first.
fn without_entries<O: Oracle>(
    alloc: Global,
    kept: Kept,
    last: &Row,
    oracle: &mut O,
    log: &mut Log,
) -> Result<Kept, WorkError>
    ensures { Asks O.asking oracle log result (without_entries last.now kept) }
{
    let mut left = kept;
    let mut place = left.entries.len();
    while place > 0 {
        place -= 1;
        left = without_entry(alloc, left, place, last, oracle, log)?;
    }
    Ok(left)
}

/// Without the entry monomial at a place, if the others suffice.
#[tactic(auto, using(posing::proofs::Following::following), unfolding(crate::specs::Small::without_entry))]
fn without_entry<O: Oracle>(
    alloc: Global,
    kept: Kept,
    place: usize,
    last: &Row,
    oracle: &mut O,
    log: &mut Log,
) -> Result<Kept, WorkError>
    ensures { Asks O.asking oracle log result (without_entry last.now kept place) }
{
    if place >= kept.entries.len() {
        return Ok(kept);
    }
    trial_without_entry(alloc, kept, place, last, oracle, log)
}

#[tactic(auto, using(posing::proofs::Following::following), unfolding(crate::specs::Small::trial))]
fn trial_without_entry<O: Oracle>(
    alloc: Global,
    kept: Kept,
    place: usize,
    last: &Row,
    oracle: &mut O,
    log: &mut Log,
) -> Result<Kept, WorkError>
    requires { place < length kept.entries }
    ensures { Asks O.asking oracle log result
        (trial last.now kept kept.rows (remove kept.entries place)) }
{
    let question = question_without_entry(alloc, &kept, place, last)?;
    let by = yes_to(alloc, question, oracle, log)?;
    Ok(less_entry(kept, place, by))
}

fn question_without_entry(
    alloc: Global,
    kept: &Kept,
    place: usize,
    last: &Row,
) -> Result<Question, AllocError>
    requires { place < length kept.now.entries }
    ensures { IfOk result (λ question. question
        ≡ Infeasible (cost_rows kept.now.rows (remove kept.now.entries place) last.now)) }
{
    let bares = bares_of(alloc, &kept.rows)?;
    let entries = copy_of(&kept.entries)?;
    question_of(bares, without(entries, place), last)
}

fn less_entry(kept: Kept, place: usize, by: Option<Items<i128>>) -> Kept
    requires { place < length kept.entries }
    ensures { result ≡ fewer_rows kept kept.rows (remove kept.entries place) by }
{
    match by {
        None => kept,
        Some(by) => Kept {
            rows: kept.rows,
            entries: without(kept.entries, place),
            by,
        },
    }
}

/// The multipliers of a yes, where the answer to a question is one.
#[tactic(auto, using(posing::proofs::Following::following), unfolding(crate::specs::Small::yes_to))]
fn yes_to<O: Oracle>(
    alloc: Global,
    question: Question,
    oracle: &mut O,
    log: &mut Log,
) -> Result<Option<Items<i128>>, WorkError>
    ensures { Asks O.asking oracle log result (yes_to question) }
{
    let answer = ask(alloc, &question, oracle, log)?;
    Ok(yes_of(answer))
}

fn yes_of(answer: Answer) -> Option<Items<i128>>
    ensures { result ≡ yes_of answer }
{
    match answer {
        Answer::Yes(by) => Some(by),
        _ => None,
    }
}

fn without(rows: Items<Row>, place: usize) -> Items<Row>
    requires { place < length rows }
    ensures { result ≡ remove rows place }
{
    let mut others = rows.into_vec();
    let _row = others.remove(place);
    Items::from_vec(others)
}
