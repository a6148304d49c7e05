ghost use Rattle.std.specs.Prelude.{◌≡◌, map, Ok, Some, IfOk};
ghost use Rattle.std.specs.List.{AllByRecursion};
ghost use Rattle.items.specs.Gives.{Gives};
ghost use Rattle.linear_terms.specs.TermError.{cause};
ghost use Rattle.linear_terms.specs.Expressions.{Made};
ghost use Rattle.transition_formula.specs.Loss.{error_losses};
ghost use Rattle.transition_formula.specs.Rounds.{in_order};
ghost use Rattle.transition_formula.specs.Transition.{IsSolvable};
ghost use Rattle.posing.specs.Follows.{Asks};
ghost use Rattle.posing.specs.Logs.{Adds, loss_notes};
ghost use Rattle.polyhedra.specs.Infeasibility.{is_yes};
ghost use Rattle.phases.specs.Phases.{body_where, case_excludes, case_excludes_by, case_where, cases_exclude, first_halves, halves_at, halves_by, halves_if, halves_of, has_cases, is_apart, is_as_long, order_excludes, rows_exclude, split, turns_where, with_first};
ghost use Rattle.phases.specs.Words.{AreExcludable, IsExcludable, IsHalvable, IsOverEntries, IsSplittable};

use crate::splitting::{contrary, inequality, splits};
use farkas_check::{Answer, Oracle, Question};
use items::Items;
use linear_terms::{Case, Poly, Row, TermError, subst};
use polyhedra::settle;
use posing::{Log, WorkError, ask};
use std::alloc::{AllocError, Global};
use transition_formula::{Formula, FormulaError, Solved, note, solve};

/// A body in two phases: the turns of the first, and then those of the second.
#[derive(Debug, Drop)]
pub(crate) struct Halves {
    pub(crate) first: Formula,
    pub(crate) second: Formula,
}

/// The halves of the first split of a body that stands; none where it has fewer than two cases.
#[tactic(auto, using(posing::proofs::Following::following), unfolding(crate::specs::Phases::split))]
pub(crate) fn split<O: Oracle>(
    alloc: Global,
    body: &Formula,
    oracle: &mut O,
    log: &mut Log,
) -> Result<Option<Halves>, WorkError>
    requires { IsSplittable body.now }
    ensures { Asks O.asking oracle log result (split body.now) }
{
    if body.cases().len() < 2 {
        return Ok(None);
    }
    let tried = splits(alloc, body)?;
    first_halves(alloc, body, tried.as_slice(), oracle, log)
}

/// The halves of the first of these splits that stands.
fn first_halves<O: Oracle>(
    alloc: Global,
    body: &Formula,
    tried: &[Poly],
    oracle: &mut O,
    log: &mut Log,
) -> Result<Option<Halves>, WorkError>
    requires body { IsSplittable body.now }
    requires tried { AllByRecursion (IsOverEntries body.now.from) tried.now }
    ensures { Asks O.asking oracle log result (first_halves body.now tried.now) }
{
    for poly in tried {
        let found = halves_at(alloc, body, poly, oracle, log)?;
        if found.is_some() {
            return Ok(found);
        }
    }
    Ok(None)
}

/// The halves by `poly <= 0`, if it is a split that stands.
#[tactic(auto, using(posing::proofs::Following::following), unfolding(crate::specs::Phases::halves_at))]
fn halves_at<O: Oracle>(
    alloc: Global,
    body: &Formula,
    poly: &Poly,
    oracle: &mut O,
    log: &mut Log,
) -> Result<Option<Halves>, WorkError>
    requires { IsHalvable body.now poly.now }
    ensures { Asks O.asking oracle log result (halves_at body.now poly.now) }
{
    match contrary(alloc, poly) {
        Ok(opposite) => halves_by(alloc, body, poly, &opposite, oracle, log),
        Err(TermError::Memory) => Err(WorkError::Memory),
        Err(_lost) => Ok(None),
    }
}

/// The same, its contrary being known.
#[tactic(auto, using(posing::proofs::Following::following))]
fn halves_by<O: Oracle>(
    alloc: Global,
    body: &Formula,
    poly: &Poly,
    opposite: &Poly,
    oracle: &mut O,
    log: &mut Log,
) -> Result<Option<Halves>, WorkError>
    requires split { IsHalvable body.now poly.now }
    requires opposite { IsHalvable body.now opposite.now }
    ensures { Asks O.asking oracle log result (halves_by body.now poly.now (Ok opposite.now)) }
{
    let first = turns_where(alloc, body, opposite, oracle, log)?;
    with_first(alloc, body, poly, opposite, first, oracle, log)
}

#[tactic(auto, using(posing::proofs::Following::following), unfolding(crate::specs::Phases::with_first))]
fn with_first<O: Oracle>(
    alloc: Global,
    body: &Formula,
    poly: &Poly,
    opposite: &Poly,
    first: Formula,
    oracle: &mut O,
    log: &mut Log,
) -> Result<Option<Halves>, WorkError>
    requires split { IsHalvable body.now poly.now }
    requires opposite { IsHalvable body.now opposite.now }
    ensures { Asks O.asking oracle log result (with_first body.now poly.now opposite.now first) }
{
    if !has_cases(&first) {
        return Ok(None);
    }
    let second = turns_where(alloc, body, poly, oracle, log)?;
    halves_of(alloc, body, opposite, first, second, oracle, log)
}

/// Both halves, where no turn of the second ends where `opposite <= 0` is true.
#[tactic(auto, using(posing::proofs::Following::following), unfolding(crate::specs::Phases::halves_of))]
fn halves_of<O: Oracle>(
    alloc: Global,
    body: &Formula,
    opposite: &Poly,
    first: Formula,
    second: Formula,
    oracle: &mut O,
    log: &mut Log,
) -> Result<Option<Halves>, WorkError>
    requires { AreExcludable opposite.now second.cases }
    ensures { Asks O.asking oracle log result (halves_of body.now opposite.now first second) }
{
    if !is_apart(body, &first, &second) {
        return Ok(None);
    }
    let excluded = cases_exclude(alloc, opposite, second.cases(), oracle, log)?;
    Ok(halves_if(first, second, excluded))
}

fn has_cases(f: &Formula) -> bool
    ensures { result ≡ has_cases f.now }
{
    !f.cases().is_empty()
}

/// The second half has cases, and not both have as many as the body.
fn is_apart(body: &Formula, first: &Formula, second: &Formula) -> bool
    ensures { result ≡ is_apart body.now first.now second.now }
{
    has_cases(second) && !(is_as_long(first, body) && is_as_long(second, body))
}

fn is_as_long(f: &Formula, body: &Formula) -> bool
    ensures { result ≡ is_as_long f.now body.now }
{
    f.cases().len() == body.cases().len()
}

fn halves_if(first: Formula, second: Formula, excluded: bool) -> Option<Halves>
    ensures { result ≡ halves_if first second excluded }
{
    if excluded {
        Some(Halves { first, second })
    } else {
        None
    }
}

/// The turns of a body that begin where `poly <= 0` is true, settled.
#[tactic(auto, using(posing::proofs::Following::following), unfolding(crate::specs::Phases::turns_where))]
fn turns_where<O: Oracle>(
    alloc: Global,
    body: &Formula,
    poly: &Poly,
    oracle: &mut O,
    log: &mut Log,
) -> Result<Formula, WorkError>
    requires { IsHalvable body.now poly.now }
    ensures { Asks O.asking oracle log result (turns_where poly.now body.now) }
{
    let begun = body_where(alloc, body, poly)?;
    settle(alloc, &begun, oracle, log)
}

/// The body with `poly <= 0` behind the rows of each case.
fn body_where(alloc: Global, body: &Formula, poly: &Poly) -> Result<Formula, AllocError>
    requires { IsHalvable body.now poly.now }
    ensures { IfOk result (λ f. f ≡ body_where poly.now body.now) }
{
    let cases = cases_where(alloc, body.cases(), poly)?;
    Ok(Formula::from_cases(body.from(), body.to(), cases))
}

fn cases_where(alloc: Global, cases: &[Case], poly: &Poly) -> Result<Items<Case>, AllocError>
    ensures { IfOk result (λ made. made ≡ map (case_where poly.now) cases.now) }
{
    let mut made = Items::new(alloc);
    for case in cases {
        made.push(case_where(case, poly)?)?;
    }
    Ok(made)
}

fn case_where(case: &Case, poly: &Poly) -> Result<Case, AllocError>
    ensures { IfOk result (λ c. c ≡ case_where poly.now case.now) }
{
    let mut rows = case.rows.clone()?;
    rows.push(inequality(poly)?)?;
    let post = case.post.clone()?;
    Ok(Case {
        aux: case.aux,
        rows,
        post,
    })
}

/// Whether no case ends where `poly <= 0` is true, as the answers say. The first that may ends it.
fn cases_exclude<O: Oracle>(
    alloc: Global,
    poly: &Poly,
    cases: &[Case],
    oracle: &mut O,
    log: &mut Log,
) -> Result<bool, WorkError>
    requires { AreExcludable poly.now cases.now }
    ensures { Asks O.asking oracle log result (cases_exclude poly.now cases.now) }
{
    for case in cases {
        if !case_excludes(alloc, poly, case, oracle, log)? {
            return Ok(false);
        }
    }
    Ok(true)
}

/// The same of one case: `poly <= 0` is put on its posts. A step that is lost is noted.
#[tactic(auto, using(posing::proofs::Following::following), unfolding(crate::specs::Phases::case_excludes))]
fn case_excludes<O: Oracle>(
    alloc: Global,
    poly: &Poly,
    case: &Case,
    oracle: &mut O,
    log: &mut Log,
) -> Result<bool, WorkError>
    requires { IsExcludable poly.now case.now }
    ensures { Asks O.asking oracle log result (case_excludes poly.now case.now) }
{
    let after = subst(alloc, poly, case.post.as_slice(), &[]);
    excludes_by(alloc, case, after, oracle, log)
}

/// The same by what comes of the posts. A step that is lost is noted, and excludes nothing.
fn excludes_by<O: Oracle>(
    alloc: Global,
    case: &Case,
    after: Result<Poly, TermError>,
    oracle: &mut O,
    log: &mut Log,
) -> Result<bool, WorkError>
    requires { IfOk after (λ q. IsSolvable (case_where q case.now)) }
    ensures { (stated : Made) → Gives cause (λ p. p) after stated
        → Asks O.asking oracle log result (case_excludes_by case.now stated) }
{
    match after {
        Ok(poly) => order_excludes(alloc, case, &poly, oracle, log),
        Err(error) => {
            note_lost(alloc, error, log)?;
            Ok(false)
        }
    }
}

/// Notes an operation that has no answer; want of memory is an error here too.
fn note_lost(alloc: Global, error: TermError, log: &mut Log) -> Result<(), FormulaError>
    ensures noted { Adds (loss_notes (error_losses error)) log.old log.new result }
    ensures told { IfOk result (λ _. cause error ≡ Some error) }
{
    let mut losses = Items::new(alloc);
    note(error, &mut losses)?;
    log.add_losses(alloc, losses.as_slice())?;
    Ok(())
}

/// Whether the case with `poly <= 0` behind its rows, put in order, holds of nothing.
fn order_excludes<O: Oracle>(
    alloc: Global,
    case: &Case,
    poly: &Poly,
    oracle: &mut O,
    log: &mut Log,
) -> Result<bool, WorkError>
    requires { IsSolvable (case_where poly.now case.now) }
    ensures { Asks O.asking oracle log result
        (order_excludes (in_order (case_where poly.now case.now))) }
{
    let whole = case_where(case, poly)?;
    match solve_noted(alloc, &whole, log)? {
        None => Ok(true),
        Some(left) => rows_exclude(alloc, left.rows, oracle, log),
    }
}

/// The case in order, if anything is left of it; its losses are noted.
fn solve_noted(alloc: Global, case: &Case, log: &mut Log) -> Result<Option<Case>, FormulaError>
    requires { IsSolvable case.now }
    ensures noted { Adds (loss_notes (in_order case.now).losses) log.old log.new result }
    ensures exact { IfOk result (λ left. left ≡ (in_order case.now).left) }
{
    let mut losses = Items::new(alloc);
    let solved = solve(alloc, case, &mut losses)?;
    log.add_losses(alloc, losses.as_slice())?;
    match solved {
        Solved::Kept(left) => Ok(Some(left)),
        Solved::False => Ok(None),
    }
}

/// Whether the answer calls rows infeasible; nothing is noted. No rows are not asked about.
#[tactic(auto, using(posing::proofs::Following::following))]
fn rows_exclude<O: Oracle>(
    alloc: Global,
    rows: Items<Row>,
    oracle: &mut O,
    log: &mut Log,
) -> Result<bool, WorkError>
    ensures { Asks O.asking oracle log result (rows_exclude rows) }
{
    if rows.is_empty() {
        return Ok(false);
    }
    let answer = ask(alloc, &Question::Infeasible(rows), oracle, log)?;
    Ok(is_yes(&answer))
}

fn is_yes(answer: &Answer) -> bool
    ensures { result ≡ is_yes answer.now }
{
    matches!(answer, Answer::Yes(_))
}
