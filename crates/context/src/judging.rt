ghost use Rattle.std.specs.Prelude.{◌≡◌, ◌++◌, ◌∷◌, [], Some, drop, IfOk};
ghost use Rattle.std.specs.List.{filter_map, list_any};
ghost use Rattle.farkas_check.specs.declared.question.Question.TheVariants.{Infeasible};
ghost use Rattle.transition_formula.specs.Rounds.{in_order};
ghost use Rattle.transition_formula.specs.Transition.{IsSolvable, AreSolvable};
ghost use Rattle.posing.specs.Follows.{Asks};
ghost use Rattle.posing.specs.Posing.{each};
ghost use Rattle.posing.specs.Logs.{Adds, loss_notes};
ghost use Rattle.context.specs.SecondQuestions.{twofold};
ghost use Rattle.context.specs.Verdicts.{case_verdict, is_refuted, verdict_on_cases_from, limit_of, limits_of, verdict_at, verdict_by, verdict_from, verdict_left, with_verdict};
ghost use Rattle.context.specs.Judging.{AddsVerdict, AreVerdictsOn, IsAnswered, IsLeftOf, IsVerdictOn, IsVerdictOnAll, stronger};

use crate::second_questions::second_verdict;
use farkas_check::{Answer, Oracle, Question};
use items::Items;
use linear_terms::Case;
use phases::has_phases;
use posing::{Log, Note, WorkError, ask};
use report::Verdict;
use std::alloc::{AllocError, Global};
use transition_formula::{FormulaError, Solved, solve};

/// The verdict on cases in which an assertion would fail: the first that has a point, else the
/// first with a limit, else it is proved. Each case is put in order and it is asked whether its
/// rows are infeasible; a case without rows has the empty point. All cases are asked about,
/// whatever is found of the first ones; limits are noted last, but for the one that the verdict
/// carries. Under a rule with phases a case that is not proved is asked about once more, with
/// products of its rows: a Yes proves it, and any other answer changes nothing.
///
/// # Errors
///
/// What putting a case in order, a question or its answer comes to, or want of memory.
#[tactic(auto, using(posing::proofs::Following::following), unfolding(crate::specs::Verdicts::verdict_on_cases_from))]
pub fn verdict_on_cases<O: Oracle>(
    alloc: Global,
    rule: u32,
    cases: &[Case],
    oracle: &mut O,
    log: &mut Log,
) -> Result<Verdict, WorkError>
    requires { AreSolvable cases.now }
    ensures follows { Asks O.asking oracle log result (verdict_on_cases_from rule cases.now) }
    ensures known { IfOk result (IsVerdictOnAll cases.now) }
{
    let verdicts = verdicts_on(alloc, rule, cases, oracle, log)?;
    log.add_notes(limits_of(alloc, verdicts.as_slice())?)?;
    Ok(verdict_from(verdicts))
}

fn verdicts_on<O: Oracle>(
    alloc: Global,
    rule: u32,
    cases: &[Case],
    oracle: &mut O,
    log: &mut Log,
) -> Result<Items<Verdict>, WorkError>
    requires { AreSolvable cases.now }
    ensures follows { Asks O.asking oracle log result (each (with_verdict rule) [] cases.now) }
    ensures known { IfOk result (AreVerdictsOn cases.now) }
{
    let mut made = Items::new(alloc);
    for case in cases {
        made = with_verdict(alloc, rule, made, case, oracle, log)?;
    }
    Ok(made)
}

/// What is made, and the verdict on a case behind it.
#[tactic(auto, using(posing::proofs::Following::following), unfolding(crate::specs::Verdicts::with_verdict))]
fn with_verdict<O: Oracle>(
    alloc: Global,
    rule: u32,
    made: Items<Verdict>,
    case: &Case,
    oracle: &mut O,
    log: &mut Log,
) -> Result<Items<Verdict>, WorkError>
    requires { IsSolvable case.now }
    ensures follows { Asks O.asking oracle log result (with_verdict rule made case.now) }
    ensures known { IfOk result (AddsVerdict case.now made) }
{
    let verdict = case_verdict(alloc, rule, case, oracle, log)?;
    let mut all = made;
    all.push(verdict)?;
    Ok(all)
}

/// The verdict on one case, which is put in order first.
#[tactic(auto, using(posing::proofs::Following::following), unfolding(crate::specs::Verdicts::case_verdict))]
fn case_verdict<O: Oracle>(
    alloc: Global,
    rule: u32,
    case: &Case,
    oracle: &mut O,
    log: &mut Log,
) -> Result<Verdict, WorkError>
    requires { IsSolvable case.now }
    ensures follows { Asks O.asking oracle log result (case_verdict rule case.now) }
    ensures known { IfOk result (IsVerdictOn case.now) }
{
    match solve_noted(alloc, case, log)? {
        None => Ok(Verdict::Proved),
        Some(left) => verdict_left(alloc, rule, left, oracle, log),
    }
}

/// The case in order, if anything is left of it; its losses are noted.
fn solve_noted(alloc: Global, case: &Case, log: &mut Log) -> Result<Option<Case>, FormulaError>
    requires { IsSolvable case.now }
    ensures noted { Adds (loss_notes (in_order case.now).losses) log.old log.new result }
    ensures exact { IfOk result (λ left. left ≡ (in_order case.now).left) }
    ensures known { IfOk result (IsLeftOf case.now) }
{
    let mut losses = Items::new(alloc);
    let solved = solve(alloc, case, &mut losses)?;
    log.add_losses(alloc, losses.as_slice())?;
    match solved {
        Solved::Kept(left) => Ok(Some(left)),
        Solved::False => Ok(None),
    }
}

/// The verdict on a case in order, by the rule.
fn verdict_left<O: Oracle>(
    alloc: Global,
    rule: u32,
    case: Case,
    oracle: &mut O,
    log: &mut Log,
) -> Result<Verdict, WorkError>
    ensures follows { Asks O.asking oracle log result (verdict_left rule (Some case)) }
    ensures known { IfOk result (IsVerdictOn case) }
{
    if has_phases(rule) {
        return twofold_verdict(alloc, case, oracle, log);
    }
    verdict_at(alloc, case, oracle, log)
}

/// A case that the first question leaves unproved is asked about once more, with products of its
/// rows.
#[tactic(auto, using(posing::proofs::Following::following))]
fn twofold_verdict<O: Oracle>(
    alloc: Global,
    case: Case,
    oracle: &mut O,
    log: &mut Log,
) -> Result<Verdict, WorkError>
    ensures follows { Asks O.asking oracle log result (twofold (verdict_at case case.rows)) }
    ensures known { IfOk result (IsVerdictOn case) }
{
    let verdict = verdict_at(alloc, case, oracle, log)?;
    second_verdict(alloc, verdict, oracle, log)
}

/// The empty point refutes a case without rows; another is asked about.
#[tactic(auto, using(posing::proofs::Following::following))]
fn verdict_at<O: Oracle>(
    alloc: Global,
    case: Case,
    oracle: &mut O,
    log: &mut Log,
) -> Result<Verdict, WorkError>
    ensures follows { Asks O.asking oracle log result (verdict_at case case.rows) }
    ensures known { IfOk result (IsVerdictOn case) }
{
    if case.rows.is_empty() {
        let point = Items::new(alloc);
        return Ok(Verdict::Unproved { case, point });
    }
    let question = question_of(&case)?;
    let answer = ask(alloc, &question, oracle, log)?;
    Ok(verdict_by(alloc, case, answer))
}

fn question_of(case: &Case) -> Result<Question, AllocError>
    ensures { IfOk result (λ question. question ≡ Infeasible case.now.rows) }
{
    let rows = case.rows.clone()?;
    Ok(Question::Infeasible(rows))
}

/// The verdict that an answer gives.
fn verdict_by(alloc: Global, case: Case, answer: Answer) -> Verdict
    requires { IsAnswered case answer }
    ensures exact { result ≡ verdict_by case answer }
    ensures known { IsVerdictOn case result }
{
    match answer {
        Answer::Yes(_) => Verdict::Proved,
        Answer::No(point) => Verdict::Unproved { case, point },
        Answer::Limit(limit) => Verdict::UnprovedLimit { case, limit },
        _ => Verdict::Unproved {
            case,
            point: Items::new(alloc),
        },
    }
}

/// The first with a point, else the first with a limit, else it is proved.
fn verdict_from(verdicts: Items<Verdict>) -> Verdict
    ensures { result ≡ verdict_from verdicts }
{
    let mut found = Verdict::Proved;
    for verdict in verdicts {
        found = stronger(found, verdict);
    }
    found
}

/// Of two the one that counts; the first if both count the same.
fn stronger(first: Verdict, second: Verdict) -> Verdict
    ensures { result ≡ stronger first second }
{
    match first {
        Verdict::Unproved { .. } => first,
        Verdict::Proved => second,
        Verdict::UnprovedLimit { .. } => { if is_refuted(&second) { second } else { first } }
    }
}

fn is_refuted(verdict: &Verdict) -> bool
    ensures { result ≡ is_refuted verdict.now }
{
    matches!(verdict, Verdict::Unproved { .. })
}

/// The limits of verdicts as notes, without the first where no verdict has a point.
fn limits_of(alloc: Global, verdicts: &[Verdict]) -> Result<Items<Note>, AllocError>
    ensures { IfOk result (λ notes. notes ≡ limits_of verdicts.now) }
{
    let notes = all_limits(alloc, verdicts)?;
    if is_any_refuted(verdicts) {
        return Ok(notes);
    }
    Ok(without_first(notes))
}

fn is_any_refuted(verdicts: &[Verdict]) -> bool
    ensures { result ≡ list_any is_refuted verdicts.now }
{
    verdicts.iter().any(|verdict| is_refuted(verdict))
}

fn all_limits(alloc: Global, verdicts: &[Verdict]) -> Result<Items<Note>, AllocError>
    ensures { IfOk result (λ notes. notes ≡ filter_map limit_of verdicts.now) }
{
    let mut notes = Items::new(alloc);
    for verdict in verdicts {
        if let Verdict::UnprovedLimit { limit, .. } = verdict {
            notes.push(Note::Limit(*limit))?;
        }
    }
    Ok(notes)
}

fn without_first(notes: Items<Note>) -> Items<Note>
    ensures { result ≡ drop 1 notes }
{
    let mut left = notes.into_vec();
    if !left.is_empty() {
        let _carried = left.remove(0);
    }
    Items::from_vec(left)
}
