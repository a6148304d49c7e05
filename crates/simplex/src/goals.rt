ghost use Rattle.std.specs.Prelude.{◌≡◌, ◌+◌, ◌-◌, ◌^◌, ◌<◌, ◌≤◌, ◌<ℤ◌, ℕ, pos, length, slice_get, Some, All, IsTrue, IfOk, IfErr};
ghost use Rattle.farkas_check.specs.Calm.{IsCalm, IsLiveAndCalm};
ghost use Rattle.farkas_check.specs.Kept.{IsCanonicalGoal};
ghost use Rattle.farkas_check.specs.Meaning.{IsLimit, IsTight};
ghost use Rattle.farkas_check.specs.Tested.{Passes};
ghost use Rattle.farkas_check.specs.declared.question.Question.TheVariants as question;
ghost use Rattle.simplex.specs.Goals.{whole_bound, higher, with_bound, bound_answer, AreBoundsTo, ProgressAt, IsShortProgress, EndsAt, IsFoundAmong, IsRefusalAmong, IsSupremumAt, IsGoalsStep, IsGoalsAnswer, PivotsAmong};
ghost use Rattle.simplex.specs.Answers.{IsWide, NamesStep};
ghost use Rattle.farkas_check.specs.declared.question.Goal.{Goal};
ghost use Rattle.simplex.specs.Refusal.{LeavesBits};
ghost use Rattle.simplex.specs.Shortness.{AreShortRows, HaveShortRows};
ghost use Rattle.simplex.specs.SearchSteps.{far_step};
ghost use Rattle.simplex.specs.declared.stop.SearchStop.TheVariants as stop;

use crate::answering::limit_of;
use crate::next_supremum::{CaseEnd, next_supremum};
use crate::shortness::is_short_goals_answer;
use crate::{Endings, SearchStop, Supremum};
use farkas_check::{
    Answer, Cert, Goal, Limit, Ratio, canonical_goals, goals_outcome, positivity, truth_of_passing,
};
use items::Items;
use std::alloc::{AllocError, Global};
use whole_numbers::Wide;

/// How far the objective gets in the cases so far: the greatest of their bounds, rounded down, the
/// first case that has it, and a point of that case.
#[derive(Drop)]
pub(crate) struct Reach {
    pub(crate) at: i128,
    pub(crate) case: u32,
    pub(crate) point: Items<Ratio>,
}

/// What cases come to that are all bounded: a certificate for each, and how far the objective gets.
#[derive(Drop)]
pub(crate) struct Bounds {
    pub(crate) certs: Items<Cert>,
    pub(crate) reach: Option<Reach>,
}

/// What the next case leads to: one more bound, or the answer.
#[derive(Drop)]
pub(crate) enum Progress {
    On(Bounds),
    End(Answer),
}

/// Answers how great the objective gets over all points of all cases: the supremum rounded down,
/// with a certificate for each case and a point that reaches it, or a point and a ray along which
/// it grows without end. The answer passes the test of its question; it names a step that leaves
/// 128 bits only where the question is not calm, and is `Pivots` only where there is no case or one
/// without points, or more choices of columns than turns.
pub fn sup(alloc: Global, goals: &[Goal]) -> Result<Answer, AllocError>
    ensures passes { IfOk result (λ a. Passes (question.Sup goals.now) a) }
    ensures tight { IfOk result (λ a. (IsLimit a → ⊥) → IsTight (question.Sup goals.now) a) }
    ensures wide { IsCalm (question.Sup goals.now) → IfOk result (λ a. IsWide a → ⊥) }
    ensures pivots { IfOk result (λ a. PivotsAmong (2 ^ 127 - 1) goals.now a) }
    ensures calm { IsLiveAndCalm (question.Sup goals.now) → IfOk result (λ a. IsLimit a → ⊥) }
    ensures step { IfOk result (NamesStep (IsGoalsStep goals.now)) }
{
    let mut endings = Endings::new(alloc);
    sup_with(alloc, goals, &mut endings)
}

/// The same, where the search of each case begins where the last one over the same rows ended.
pub fn sup_with(alloc: Global, goals: &[Goal], endings: &mut Endings) -> Result<Answer, AllocError>
    ensures passes { IfOk result (λ a. Passes (question.Sup goals.now) a) }
    ensures tight { IfOk result (λ a. (IsLimit a → ⊥) → IsTight (question.Sup goals.now) a) }
    ensures wide { IsCalm (question.Sup goals.now) → IfOk result (λ a. IsWide a → ⊥) }
    ensures pivots { IfOk result (λ a. PivotsAmong (2 ^ 127 - 1) goals.now a) }
    ensures calm { IsLiveAndCalm (question.Sup goals.now) → IfOk result (λ a. IsLimit a → ⊥) }
    ensures step { IfOk result (NamesStep (IsGoalsStep goals.now)) }
{
    truth_of_passing();
    let found = answer_of_goals(alloc, goals, endings)?;
    Ok(found)
}

fn answer_of_goals(
    alloc: Global,
    goals: &[Goal],
    endings: &mut Endings,
) -> Result<Answer, AllocError>
    ensures { IfOk result (λ a. IsGoalsAnswer goals.now a) }
{
    canonical_goals(goals);
    match searched_goals(alloc, goals, i128::MAX as u128, endings) {
        Ok((found, short)) => Ok(tested_answer(goals, found, short)),
        Err(SearchStop::Wide(step)) => Ok(step_answer(goals, &step)),
        Err(SearchStop::Memory) => Err(AllocError),
    }
}

/// The answer where a step of the search leaves 128 bits.
fn step_answer(goals: &[Goal], step: &Wide) -> Answer
    requires canonical { All IsCanonicalGoal goals.now }
    requires step { IsRefusalAmong goals.now (stop.Wide step.now) }
    ensures { IsGoalsAnswer goals.now result }
{
    let _goals = goals;
    limit_of(step)
}

/// The answer where it passes its test, and else the first step of the test that leaves 128 bits.
/// Where all numbers are short there is no such step, and the test is left out.
fn tested_answer(goals: &[Goal], found: Answer, short: bool) -> Answer
    requires canonical { All IsCanonicalGoal goals.now }
    requires short { IsTrue short → HaveShortRows goals.now found }
    requires found { IsFoundAmong (2 ^ 127 - 1) goals.now found }
    ensures { IsGoalsAnswer goals.now result }
{
    positivity(&found);
    if is_short_goals_answer(goals, &found, short) {
        return found;
    }
    match goals_outcome(goals, &found) {
        Ok(_holds) => found,
        Err(step) => limit_of(&step),
    }
}

/// The search's answer, before its test, and whether the rows that the test would read are known to
/// be short.
fn searched_goals(
    alloc: Global,
    goals: &[Goal],
    budget: u128,
    endings: &mut Endings,
) -> Result<(Answer, bool), SearchStop>
    ensures found { IfOk result (λ r. IsFoundAmong budget goals.now r.0) }
    ensures short { IfOk result (λ r. IsTrue r.1 → HaveShortRows goals.now r.0) }
    ensures refusal { IfErr result (IsRefusalAmong goals.now) }
{
    let mut bounds = Bounds {
        certs: Items::new(alloc),
        reach: None,
    };
    let mut short = true;
    for place in 0..goals.len() {
        let (came, short_here) = next_case(alloc, goals, place, bounds, budget, endings)?;
        match came {
            Progress::On(more) => bounds = more,
            Progress::End(answer) => return Ok((answer, short_here)),
        }
        short = short && short_here;
    }
    Ok((bound_answer(bounds), short))
}

/// The answer where all cases are bounded.
fn bound_answer(bounds: Bounds) -> Answer
    ensures { result ≡ bound_answer bounds }
{
    let Bounds { certs, reach } = bounds;
    match reach {
        None => Answer::Limit(Limit::Pivots),
        Some(Reach { at, case, point }) => Answer::Bound {
            at,
            certs,
            case,
            point,
        },
    }
}

/// What the next case leads to, where those before it are bounded, and whether its rows are short.
fn next_case(
    alloc: Global,
    goals: &[Goal],
    place: usize,
    bounds: Bounds,
    budget: u128,
    endings: &mut Endings,
) -> Result<(Progress, bool), SearchStop>
    requires so_far { AreBoundsTo budget goals.now place bounds }
    requires here { place < length goals.now }
    ensures came { IfOk result (λ r. ProgressAt budget goals.now place r.0) }
    ensures short { IfOk result (λ r. IsTrue r.1 → IsShortProgress goals.now place r.0) }
    ensures refusal { IfErr result (IsRefusalAmong goals.now) }
{
    let case = case_number(place)?;
    let (found, short) = case_supremum(alloc, goals, place, budget, endings)?;
    let came = progress_of(goals, place, bounds, budget, case, found)?;
    Ok((came, short))
}

/// What the supremum of the next case leads to.
fn progress_of(
    goals: &[Goal],
    place: usize,
    bounds: Bounds,
    budget: u128,
    case: u32,
    found: Supremum,
) -> Result<Progress, AllocError>
    requires so_far { AreBoundsTo budget goals.now place bounds }
    requires number { case ≡ place }
    requires supremum { IsSupremumAt budget goals.now place found }
    ensures came { IfOk result (λ p. ProgressAt budget goals.now place p) }
    ensures case { IfOk result (λ p. EndsAt place p) }
{
    let (_goals, _place, _budget) = (goals, place, budget);
    match found {
        Supremum::Empty => Ok(Progress::End(Answer::Limit(Limit::Pivots))),
        Supremum::Pivots => Ok(Progress::End(Answer::Limit(Limit::Pivots))),
        Supremum::Bound(cert, point) => {
            let more = with_bound(bounds, case, cert, point)?;
            Ok(Progress::On(more))
        }
        Supremum::Unbounded(point, ray) => Ok(Progress::End(Answer::Unbounded {
            case,
            point,
            ray,
        })),
    }
}

/// What the case at a place comes to, and whether its rows are short.
fn case_supremum(
    alloc: Global,
    goals: &[Goal],
    place: usize,
    budget: u128,
    endings: &mut Endings,
) -> Result<(Supremum, bool), SearchStop>
    requires { place < length goals.now }
    ensures supremum { IfOk result (λ r. IsSupremumAt budget goals.now place r.0) }
    ensures short { IfOk result
        (λ r. (goal : Goal) → IsTrue r.1 → slice_get goals.now place ≡ Some goal
        → AreShortRows goal.rows) }
    ensures refusal { IfErr result (IsRefusalAmong goals.now) }
{
    let last = endings.take(place);
    let came = next_supremum(alloc, &goals[place], budget, last)?;
    let CaseEnd {
        found,
        short,
        ending,
    } = came;
    endings.note(place, ending)?;
    Ok((found, short))
}

/// The place of a case in 32 bits. There are no more cases in a calm question.
pub(crate) fn case_number(place: usize) -> Result<u32, Wide>
    ensures number { IfOk result (λ case. case ≡ place) }
    ensures far { IfErr result
        (λ step. LeavesBits step × (2 ^ 32 ≤ place) × (step ≡ far_step)) }
{
    match u32::try_from(place) {
        Ok(case) => Ok(case),
        Err(_far) => Err(Wide {
            left: i128::MAX,
            right: 1,
            times: false,
        }),
    }
}

/// One more case that is bounded.
fn with_bound(
    bounds: Bounds,
    case: u32,
    cert: Cert,
    point: Items<Ratio>,
) -> Result<Bounds, AllocError>
    requires { pos 0 <ℤ cert.scale }
    ensures { IfOk result (λ made. made ≡ with_bound bounds case cert point) }
{
    let Bounds { certs, reach } = bounds;
    let at = whole_bound(&cert);
    let next = Reach { at, case, point };
    let reach = Some(higher(reach, next));
    let mut certs = certs;
    certs.push(cert)?;
    Ok(Bounds { certs, reach })
}

/// The bound of a certificate, rounded down.
fn whole_bound(cert: &Cert) -> i128
    requires { pos 0 <ℤ cert.now.scale }
    ensures { result ≡ whole_bound cert.now }
{
    cert.sum.div_euclid(cert.scale)
}

/// The higher reach, and the first of equal ones.
fn higher(reach: Option<Reach>, next: Reach) -> Reach
    ensures { result ≡ higher reach next }
{
    match reach {
        None => next,
        Some(first) => { if first.at < next.at { next } else { first } }
    }
}
