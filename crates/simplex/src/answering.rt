ghost use Rattle.std.specs.Prelude.{◌≡◌, ◌+◌, ◌-◌, ◌^◌, ◌<◌, ◌≤◌, ℕ, pos, length, drop, IfOk, IfErr};
ghost use Rattle.items.specs.Gives.{Gives};
ghost use Rattle.linear_terms.specs.Row.{AreCanonical};
ghost use Rattle.farkas_check.specs.Calm.{IsCalm, IsLiveAndCalm};
ghost use Rattle.farkas_check.specs.Meaning.{IsLimit, IsTight};
ghost use Rattle.farkas_check.specs.Tested.{Passes};
ghost use Rattle.farkas_check.specs.declared.answer.Answer.TheVariants as answer;
ghost use Rattle.farkas_check.specs.declared.answer.Limit.TheVariants as limit;
ghost use Rattle.farkas_check.specs.declared.question.Question.TheVariants as question;
ghost use Rattle.simplex.specs.Answers.{IsWide, NamesStep, PivotsOf, IsRowsStep, IsRowsAnswer, IsFoundFor, IsRefusalFor, AnswerOf, multipliers_of};
ghost use Rattle.simplex.specs.Calm.{HasSquares, IsSmallLine, IsMemory};
ghost use Rattle.simplex.specs.Exchange.{cause};
ghost use Rattle.simplex.specs.Raise.{Framed};
ghost use Rattle.simplex.specs.Refusal.{IsRefusal, IsRefusalIn};
ghost use Rattle.simplex.specs.Search.{FoundAt, IsSolving};
ghost use Rattle.simplex.specs.declared.stop.SearchStop.TheVariants as stop;

use crate::corner::corner;
use crate::frame::{framed_tableau, kinds_of};
use crate::gauss::Stage;
use crate::search::{SearchEnd, corner_search};
use crate::shortness::is_short_rows_answer;
use crate::tableau::upright_line;
use crate::{SearchStop, Tableau};
use farkas_check::{
    Answer, Limit, canonical_rows, case_columns, positivity, rows_outcome, truth_of_passing,
};
use items::Items;
use linear_terms::{Kind, Row};
use std::alloc::{AllocError, Global};
use whole_numbers::Wide;

/// Answers whether no point makes the rows true. The answer passes the test of its question; it is
/// a limit only where a step of the search, or of the test, leaves 128 bits, or where there are
/// more choices of columns than turns.
pub fn infeasible(alloc: Global, rows: &[Row]) -> Result<Answer, AllocError>
    ensures passes { IfOk result (λ a. Passes (question.Infeasible rows.now) a) }
    ensures tight { IfOk result (λ a. (IsLimit a → ⊥) → IsTight (question.Infeasible rows.now) a) }
    ensures wide { IsCalm (question.Infeasible rows.now) → IfOk result (λ a. IsWide a → ⊥) }
    ensures pivots { IfOk result (λ a. PivotsOf (2 ^ 127 - 1) rows.now a) }
    ensures calm { IsLiveAndCalm (question.Infeasible rows.now) → IfOk result (λ a. IsLimit a → ⊥) }
    ensures step { IfOk result (NamesStep (IsRowsStep rows.now)) }
{
    truth_of_passing();
    let found = answer_of_rows(alloc, rows)?;
    Ok(found)
}

fn answer_of_rows(alloc: Global, rows: &[Row]) -> Result<Answer, AllocError>
    ensures { IfOk result (λ a. IsRowsAnswer rows.now a) }
{
    canonical_rows(rows);
    match searched_rows(alloc, rows, i128::MAX as u128) {
        Ok(found) => Ok(checked_answer(rows, found)),
        Err(SearchStop::Wide(step)) => Ok(overrun(rows, &step)),
        Err(SearchStop::Memory) => Err(AllocError),
    }
}

/// The limit that a step names.
pub(crate) fn limit_of(step: &Wide) -> Answer
    ensures { result ≡ answer.Limit (limit.Wide step.now.left step.now.right step.now.times) }
{
    Answer::Limit(Limit::Wide {
        left: step.left,
        right: step.right,
        times: step.times,
    })
}

/// The answer where a step of the search leaves 128 bits.
fn overrun(rows: &[Row], step: &Wide) -> Answer
    requires canonical { AreCanonical rows.now }
    requires step { IsRefusalFor rows.now (stop.Wide step.now) }
    ensures { IsRowsAnswer rows.now result }
{
    let _rows = rows;
    limit_of(step)
}

/// The answer where it passes its test, and else the first step of the test that leaves 128 bits.
/// Where all numbers are short there is no such step, and the test is left out.
fn checked_answer(rows: &[Row], found: Answer) -> Answer
    requires canonical { AreCanonical rows.now }
    requires found { IsFoundFor (2 ^ 127 - 1) rows.now found }
    ensures { IsRowsAnswer rows.now result }
{
    positivity(&found);
    if is_short_rows_answer(rows, &found) {
        return found;
    }
    match rows_outcome(rows, &found) {
        Ok(_holds) => found,
        Err(step) => limit_of(&step),
    }
}

/// The search's answer, before its test.
fn searched_rows(alloc: Global, rows: &[Row], budget: u128) -> Result<Answer, SearchStop>
    ensures found { IfOk result (λ a. IsFoundFor budget rows.now a) }
    ensures refusal { IfErr result (λ stop. IsRefusalFor rows.now stop) }
{
    let columns = case_columns(alloc, rows, &[])?;
    let kinds = kinds_of(alloc, rows)?;
    let t = framed_tableau(alloc, rows, columns.as_slice())?;
    search_answer(
        alloc,
        t,
        columns.len(),
        kinds.as_slice(),
        rows.len(),
        budget,
    )
}

/// The answer that a search from the frame of the rows comes to.
fn search_answer(
    alloc: Global,
    t: Tableau,
    constants: usize,
    kinds: &[Kind],
    count: usize,
    budget: u128,
) -> Result<Answer, SearchStop>
    ghost over: { Framed }
    requires solving { IsSolving over constants kinds.now 0 t }
    requires count { count ≡ over.rows }
    requires within { count ≤ length kinds.now }
    requires wide { constants + 1 + length kinds.now < 2 ^ 64 }
    ensures of { IfOk result (λ a. AnswerOf over constants kinds.now budget a) }
    ensures refusal { IfErr result (IsRefusalIn over (length kinds.now)) }
{
    let (stage, found) = corner_search(alloc, t, constants, kinds, count, budget)?;
    answer_at(alloc, &stage, constants, kinds, budget, found)
}

/// The answer that is read off where a search came to this end.
fn answer_at(
    alloc: Global,
    stage: &Stage,
    constants: usize,
    kinds: &[Kind],
    budget: u128,
    found: SearchEnd,
) -> Result<Answer, SearchStop>
    ghost over: { Framed }
    requires found { FoundAt over constants kinds.now budget stage.now.enters stage.now.tableau
        found }
    ensures of { IfOk result (λ a. AnswerOf over constants kinds.now budget a) }
    ensures refusal { IfErr result (IsRefusalIn over (length kinds.now)) }
{
    let (_kinds, _budget) = (kinds, budget);
    match found {
        SearchEnd::Corner => Ok(Answer::No(corner(alloc, &stage.tableau, constants)?)),
        SearchEnd::Refuted(line) => {
            let by = multipliers(alloc, stage.tableau.lines[line].as_slice(), constants)?;
            Ok(Answer::Yes(by))
        }
        SearchEnd::Pivots => Ok(Answer::Limit(Limit::Pivots)),
    }
}

/// The line's numbers at the unit columns, turned so that its constant is positive.
fn multipliers(alloc: Global, line: &[i128], constants: usize) -> Result<Items<i128>, SearchStop>
    requires { constants + 1 ≤ length line.now }
    ensures exact { Gives cause (λ by. by) result (multipliers_of constants line.now) }
    ensures refusal { IfErr result IsRefusal }
    ensures calm { (n : ℕ) → HasSquares n → IsSmallLine n line.now → IfErr result IsMemory }
{
    unit_numbers(alloc, line, constants)
}

fn unit_numbers(alloc: Global, line: &[i128], constants: usize) -> Result<Items<i128>, SearchStop>
    requires { constants + 1 ≤ length line.now }
    ensures exact { Gives cause (λ by. by) result (multipliers_of constants line.now) }
    ensures refusal { IfErr result IsRefusal }
{
    let own = upright_line(alloc, line, constants)?;
    Ok(after(alloc, own.as_slice(), constants + 1)?)
}

/// The numbers from a place on.
fn after(alloc: Global, line: &[i128], first: usize) -> Result<Items<i128>, AllocError>
    requires { first ≤ length line.now }
    ensures { IfOk result (λ made. made ≡ drop first line.now) }
{
    Items::from_slice(alloc, &line[first..])
}
