ghost use Rattle.std.specs.Prelude.{◌≡◌, ◌++◌, ◌∷◌, [], List, None, Ok, IfOk, OnOk, option_to_list};
ghost use Rattle.items.specs.Gives.{Gives};
ghost use Rattle.linear_terms.specs.TermError.{cause};
ghost use Rattle.linear_terms.specs.declared.row.Row.{Row as PlainRow};
ghost use Rattle.transition_formula.specs.Hiding.{own_auxiliaries};
ghost use Rattle.transition_formula.specs.Loss.{answer_of, losses_of};
ghost use Rattle.farkas_check.specs.Columns.{columns};
ghost use Rattle.posing.specs.Follows.{Asks};
ghost use Rattle.posing.specs.Posing.{each};
ghost use Rattle.leaf_cases.specs.Guard.{columns_of};
ghost use Rattle.newton_rounds.specs.Candidates.{against, contrary, findings_in, found_left, limit_notes, outcome, outcome_by, refutation, with_answer, with_case, with_point};
ghost use Rattle.newton_rounds.specs.Shapes.{IsOverPairs, IsRefutable, case_left_of};

use crate::findings::Findings;
use crate::pairs::add_copies;
use farkas_check::{Answer, Limit, Oracle, Question, case_columns};
use items::Items;
use linear_terms::{Case, Col, Kind, Mono, Poly, Row, TermError, negation, subst};
use posing::{Log, Note, Witness, WorkError, ask};
use std::alloc::{AllocError, Global};
use transition_formula::{Formula, FormulaError, Loss, Solved, note, solve};

/// What refutes a row of a candidate, over all cases of the formula that one more unfolding makes:
/// the first point, else the first limit, if there is one.
#[tactic(auto, using(posing::proofs::Following::following), unfolding(crate::specs::Candidates::refutation))]
pub(crate) fn refutation<O: Oracle>(
    alloc: Global,
    f: &Formula,
    row: &Row,
    oracle: &mut O,
    log: &mut Log,
) -> Result<Option<Witness>, WorkError>
    requires rows { IsRefutable f.now row.now }
    ensures { Asks O.asking oracle log result (refutation f.now row.now) }
{
    let found = findings_over(alloc, f, row, oracle, log)?;
    outcome(alloc, found, oracle, log)
}

#[tactic(auto, using(posing::proofs::Following::following))]
fn findings_over<O: Oracle>(
    alloc: Global,
    f: &Formula,
    row: &Row,
    oracle: &mut O,
    log: &mut Log,
) -> Result<Findings, WorkError>
    requires rows { IsRefutable f.now row.now }
    ensures { Asks O.asking oracle log result
        (each (with_case f.now.from row.now) (record { point = None; limits = [] }) f.now.cases) }
{
    let mut found = Findings {
        point: None,
        limits: Items::new(alloc),
    };
    for case in f.cases() {
        found = with_case(alloc, f.from(), row, found, case, oracle, log)?;
    }
    Ok(found)
}

/// One case with the contrary row, put in order; losses are noted before the question.
#[tactic(auto, using(posing::proofs::Following::following), unfolding(crate::specs::Candidates::with_case))]
fn with_case<O: Oracle>(
    alloc: Global,
    from: u32,
    row: &Row,
    found: Findings,
    case: &Case,
    oracle: &mut O,
    log: &mut Log,
) -> Result<Findings, WorkError>
    requires { IsOverPairs from case.now row.now }
    ensures { Asks O.asking oracle log result (with_case from row.now found case.now) }
{
    let mut lost = Items::new(alloc);
    let whole = against(alloc, from, case, row, &mut lost)?;
    let left = solve(alloc, &whole, &mut lost)?;
    log.add_losses(alloc, lost.as_slice())?;
    found_left(alloc, found, left, oracle, log)
}

/// The case with the row that holds where the given one does not; where that is lost, without it.
fn against(
    alloc: Global,
    from: u32,
    case: &Case,
    row: &Row,
    lost: &mut Items<Loss>,
) -> Result<Case, FormulaError>
    requires { IsOverPairs from case.now row.now }
    ensures made { IfOk result (λ c. c ≡ against from case.now row.now) }
    ensures noted { OnOk result
        (lost.new ≡ lost.old ++ losses_of (contrary from case.now row.now)) }
{
    let mut rows = case.rows.clone()?;
    add_contrary(alloc, from, case, row, &mut rows, lost)?;
    let post = case.post.clone()?;
    Ok(Case {
        aux: case.aux,
        rows,
        post,
    })
}

fn add_contrary(
    alloc: Global,
    from: u32,
    case: &Case,
    row: &Row,
    rows: &mut Items<Row>,
    lost: &mut Items<Loss>,
) -> Result<(), FormulaError>
    requires { IsOverPairs from case.now row.now }
    ensures made { OnOk result
        (rows.new ≡ rows.old ++ option_to_list (answer_of (contrary from case.now row.now))) }
    ensures noted { OnOk result
        (lost.new ≡ lost.old ++ losses_of (contrary from case.now row.now)) }
{
    match contrary(alloc, from, case, row) {
        Ok(opposite) => rows.push(opposite)?,
        Err(error) => note(error, lost)?,
    }
    Ok(())
}

/// The row that holds where the candidate's row does not, over the entry and the posts of a case.
fn contrary(alloc: Global, from: u32, case: &Case, row: &Row) -> Result<Row, TermError>
    requires { IsOverPairs from case.now row.now }
    ensures { Gives cause (λ r. r) result (contrary from case.now row.now) }
{
    let mut pair = columns(alloc, from)?;
    add_copies(case.post.as_slice(), &mut pair)?;
    let own = auxiliaries(alloc, case.aux)?;
    let opposite = negation(alloc, &row.poly)?;
    let poly = subst(alloc, &opposite.poly, pair.as_slice(), own.as_slice())?;
    Ok(Row {
        poly,
        kind: Kind::AtMost,
    })
}

/// The first so many entry columns.
fn columns(alloc: Global, count: u32) -> Result<Items<Poly>, TermError>
    ensures { Gives cause (λ ps. ps) result (Ok (columns_of count)) }
{
    let mut made = Items::new(alloc);
    for number in 0..count {
        made.push(Poly::column(alloc, Col::At(number))?)?;
    }
    Ok(made)
}

/// The first so many auxiliaries.
fn auxiliaries(alloc: Global, count: u32) -> Result<Items<Poly>, TermError>
    ensures { Gives cause (λ ps. ps) result (Ok (own_auxiliaries count)) }
{
    let mut made = Items::new(alloc);
    for number in 0..count {
        made.push(Poly::column(alloc, Col::Aux(number))?)?;
    }
    Ok(made)
}

#[tactic(auto, using(posing::proofs::Following::following))]
fn found_left<O: Oracle>(
    alloc: Global,
    found: Findings,
    left: Solved,
    oracle: &mut O,
    log: &mut Log,
) -> Result<Findings, WorkError>
    ensures { Asks O.asking oracle log result (found_left found (case_left_of left)) }
{
    match left {
        Solved::Kept(case) => findings_in(alloc, found, case.rows, oracle, log),
        Solved::False => Ok(found),
    }
}

/// A case without rows is refuted by the point without numbers.
#[tactic(auto, using(posing::proofs::Following::following))]
fn findings_in<O: Oracle>(
    alloc: Global,
    found: Findings,
    rows: Items<Row>,
    oracle: &mut O,
    log: &mut Log,
) -> Result<Findings, WorkError>
    ensures { Asks O.asking oracle log result (findings_in found rows) }
{
    if rows.is_empty() {
        let of = Items::new(alloc);
        let at = Items::new(alloc);
        return Ok(with_point(found, Witness::Point { of, at }));
    }
    let of = case_columns(alloc, rows.as_slice(), &[])?;
    let answer = ask(alloc, &Question::Infeasible(rows), oracle, log)?;
    Ok(with_answer(found, of, answer)?)
}

fn with_answer(found: Findings, of: Items<Mono>, answer: Answer) -> Result<Findings, AllocError>
    ensures { (rows : List PlainRow) → of ≡ columns rows []
        → IfOk result (λ next. next ≡ with_answer found rows answer) }
{
    match answer {
        Answer::No(at) => Ok(with_point(found, Witness::Point { of, at })),
        Answer::Limit(limit) => with_limit(found, limit),
        _ => Ok(found),
    }
}

/// The first point is kept.
fn with_point(found: Findings, point: Witness) -> Findings
    ensures { result ≡ with_point found point }
{
    let Findings {
        point: first,
        limits,
    } = found;
    Findings {
        point: Some(first.unwrap_or(point)),
        limits,
    }
}

fn with_limit(found: Findings, limit: Limit) -> Result<Findings, AllocError>
    ensures { IfOk result
        (λ next. next ≡ record { point = found.point; limits = found.limits ++ limit ∷ [] }) }
{
    let Findings { point, limits } = found;
    let mut all = limits;
    all.push(limit)?;
    Ok(Findings { point, limits: all })
}

/// The point, else the first limit; limits that are not told so are noted by themselves. Nothing is
/// asked.
#[tactic(auto, using(posing::proofs::Following::following))]
fn outcome<O: Oracle>(
    alloc: Global,
    found: Findings,
    oracle: &mut O,
    log: &mut Log,
) -> Result<Option<Witness>, WorkError>
    ensures { Asks O.asking oracle log result (outcome found) }
{
    let Findings { point, limits } = found;
    match point {
        Some(point) => {
            let notes = limit_notes(alloc, limits.as_slice())?;
            log.add_notes(notes)?;
            Ok(Some(point))
        }
        None => first_limit(alloc, limits.as_slice(), oracle, log),
    }
}

#[tactic(auto, using(posing::proofs::Following::following))]
fn first_limit<O: Oracle>(
    alloc: Global,
    limits: &[Limit],
    _oracle: &mut O,
    log: &mut Log,
) -> Result<Option<Witness>, WorkError>
    ensures { Asks O.asking _oracle log result (outcome_by None limits.now) }
{
    match limits {
        [] => Ok(None),
        [first, more @ ..] => {
            let notes = limit_notes(alloc, more)?;
            log.add_notes(notes)?;
            Ok(Some(Witness::Limit(*first)))
        }
    }
}

fn limit_notes(alloc: Global, limits: &[Limit]) -> Result<Items<Note>, AllocError>
    ensures { IfOk result (λ notes. notes ≡ limit_notes limits.now) }
{
    let mut notes = Items::new(alloc);
    for limit in limits {
        notes.push(Note::Limit(*limit))?;
    }
    Ok(notes)
}
