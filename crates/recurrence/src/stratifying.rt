ghost use Rattle.std.specs.Prelude.{◌≡◌, ◌&&◌, [], map, not, length, unwrap_or, IsTrue, IfOk};
ghost use Rattle.std.specs.List.{filter};
ghost use Rattle.std.specs.Option.{option_map};
ghost use Rattle.farkas_check.specs.Relations.{have_equally_many};
ghost use Rattle.polyhedra.specs.Changes.{is_modified, moving, occurring};
ghost use Rattle.posing.specs.Follows.{Asks};
ghost use Rattle.recurrence.specs.Strata.{term_of, has_terms, stratum, steady_columns, steady, stratum_if, is_short, has_grown, strata};
ghost use Rattle.recurrence.specs.Words.{Rise, IsMovement, IsClosed, is_among, lower_terms};

use crate::growing::sequences;
use crate::solving::{unmodified_columns, with_terms};
use crate::terms::{Recurrence, Strata, StratumTerm, has_terms, steady, term_of};
use farkas_check::{Change, Oracle, Relation, Stratum};
use items::Items;
use linear_terms::{Mono, Poly};
use polyhedra::{Log, Movement, WorkError, relations_of};
use std::alloc::{AllocError, Global};
use transition_formula::Formula;

/// The body of a loop.
#[derive(Clone, Copy)]
pub(crate) struct Body<'a> {
    pub(crate) formula: &'a Formula,
    /// What a turn changes.
    pub(crate) movement: &'a Movement,
}

/// What a stratum stands on besides the columns that no turn changes.
#[derive(Clone, Copy)]
pub(crate) struct Below<'a> {
    /// The products that are looked at.
    pub(crate) products: &'a [Mono],
    /// What a turn makes of each column, where it is known.
    pub(crate) known: &'a [Option<Poly>],
    /// The terms of the stratum before, where they are known.
    pub(crate) terms: &'a Option<Items<StratumTerm>>,
}

/// The strata of a body with these products.
#[tactic(auto, using(posing::proofs::Following::following), unfolding(crate::specs::Strata::strata))]
pub(crate) fn strata_of<O: Oracle>(
    alloc: Global,
    body: Body,
    products: &[Mono],
    oracle: &mut O,
    log: &mut Log,
) -> Result<Strata, WorkError>
    requires ends { body.formula.now.from ≡ body.formula.now.to }
    requires movement { IsMovement body.formula.now body.movement.now }
    ensures { Asks O.asking oracle log result (strata body.entry.formula.now products.now) }
{
    let modified = body.movement.modified.as_slice();
    let most = body.movement.modified.len();
    let moving = body.movement.moving.as_slice();
    let unsolved = unmodified_columns(alloc, modified, body.formula.to(), products)?;
    let first = one_stratum(alloc, body, &[], oracle, log)?;
    let asked = is_short(most, &first);
    let known = with_terms(alloc, unsolved, moving, &first)?;
    let solved = known.as_slice();
    let below = Below {
        products,
        known: solved,
        terms: &first,
    };
    let second = next_stratum(alloc, asked, body, below, oracle, log)?;
    let again = asks_third(most, &first, &second);
    let more = with_terms(alloc, known, moving, &second)?;
    let all_solved = more.as_slice();
    let below = Below {
        products,
        known: all_solved,
        terms: &second,
    };
    let third = next_stratum(alloc, again, body, below, oracle, log)?;
    Ok(Strata {
        first: terms_in(alloc, first),
        second: terms_in(alloc, second),
        third: terms_in(alloc, third),
    })
}

/// The relations between the changes of a body and lower terms, as terms.
#[tactic(auto, using(posing::proofs::Following::following), unfolding(crate::specs::Strata::stratum))]
fn one_stratum<O: Oracle>(
    alloc: Global,
    body: Body,
    lower: &[Recurrence],
    oracle: &mut O,
    log: &mut Log,
) -> Result<Option<Items<StratumTerm>>, WorkError>
    requires { IsMovement body.formula.now body.movement.now }
    ensures { Asks O.asking oracle log result (stratum body.entry.formula.now lower.now) }
{
    let cases = cases_of(body.movement)?;
    let starts = starts_of(alloc, lower)?;
    let question = question_of(cases, starts);
    let found = relations_of(alloc, question, oracle, log)?;
    let terms = terms_of(alloc, body.movement.moving.as_slice(), lower, found)?;
    Ok(terms)
}

/// The next stratum where it is asked, over the columns that no turn changes, the terms of the
/// stratum before, and the products of known columns.
#[tactic(auto, using(posing::proofs::Following::stops))]
fn next_stratum<O: Oracle>(
    alloc: Global,
    asked: bool,
    body: Body,
    below: Below,
    oracle: &mut O,
    log: &mut Log,
) -> Result<Option<Items<StratumTerm>>, WorkError>
    requires ends { body.formula.now.from ≡ body.formula.now.to }
    requires movement { IsMovement body.formula.now body.movement.now }
    requires closed { IsClosed below.known.now }
    ensures { Asks O.asking oracle log result
        (stratum_if asked body.entry.formula.now
        (lower_terms body.entry.formula.now below.entry)) }
{
    if !asked {
        return Ok(None);
    }
    let lower = over(alloc, body, below)?;
    one_stratum(alloc, body, lower.as_slice(), oracle, log)
}

fn cases_of(movement: &Movement) -> Result<Items<Change>, AllocError>
    ensures { IfOk result (λ cases. cases ≡ movement.now.cases) }
{
    let cases = movement.cases.clone()?;
    Ok(cases)
}

/// A question about cases that have equally many terms.
fn question_of(cases: Items<Change>, lower: Items<Poly>) -> Stratum
    requires { IsTrue (have_equally_many cases) }
    ensures { result ≡ record { cases = cases; lower = lower } }
{
    match Stratum::new(cases, lower) {
        Some(stratum) => stratum,
        None => unreachable!(),
    }
}

fn starts_of(alloc: Global, lower: &[Recurrence]) -> Result<Items<Poly>, AllocError>
    ensures { IfOk result (λ starts. starts ≡ map (λ l. l.start) lower.now) }
{
    let mut starts = Items::new(alloc);
    for recurrence in lower {
        let start = recurrence.start.clone()?;
        starts.push(start)?;
    }
    Ok(starts)
}

/// The terms of relations that have some variable.
fn terms_of(
    alloc: Global,
    variables: &[u32],
    lower: &[Recurrence],
    found: Option<Items<Relation>>,
) -> Result<Option<Items<StratumTerm>>, AllocError>
    requires { Rise variables.now }
    ensures { IfOk result
        (λ terms. terms
        ≡ option_map (λ rs. map (term_of variables.now lower.now) (filter has_terms rs)) found) }
{
    match found {
        None => Ok(None),
        Some(relations) => Ok(Some(terms_from(alloc, variables, lower, relations)?)),
    }
}

fn terms_from(
    alloc: Global,
    variables: &[u32],
    lower: &[Recurrence],
    relations: Items<Relation>,
) -> Result<Items<StratumTerm>, AllocError>
    requires { Rise variables.now }
    ensures { IfOk result
        (λ terms. terms ≡ map (term_of variables.now lower.now) (filter has_terms relations)) }
{
    let mut terms = Items::new(alloc);
    for relation in relations {
        if has_terms(&relation) {
            terms.push(term_of(alloc, variables, lower, relation)?)?;
        }
    }
    Ok(terms)
}

/// The columns that no turn changes and that occur, then the terms of a stratum, then the products
/// of known columns.
fn over(alloc: Global, body: Body, below: Below) -> Result<Items<Recurrence>, AllocError>
    requires ends { body.formula.now.from ≡ body.formula.now.to }
    requires movement { IsMovement body.formula.now body.movement.now }
    requires closed { IsClosed below.known.now }
    ensures { IfOk result (λ lower. lower ≡ lower_terms body.entry.formula.now below.entry) }
{
    let columns = steady_columns(
        alloc,
        body.movement.modified.as_slice(),
        body.movement.occurring.as_slice(),
    )?;
    let mut lower = steadies(alloc, columns.as_slice())?;
    lower.append(recurrences_in(alloc, below.terms)?)?;
    lower.append(sequences(alloc, below.known, below.products)?)?;
    Ok(lower)
}

/// Those of the columns that are not modified.
fn steady_columns(
    alloc: Global,
    modified: &[u32],
    occurring: &[u32],
) -> Result<Items<u32>, AllocError>
    ensures { IfOk result
        (λ columns. columns ≡ filter (λ v. not (is_among modified.now v)) occurring.now) }
{
    let mut columns = Items::new(alloc);
    for v in occurring {
        if !is_among(modified, *v) {
            columns.push(*v)?;
        }
    }
    Ok(columns)
}

pub(crate) fn is_among(numbers: &[u32], v: u32) -> bool
    ensures { result ≡ is_among numbers.now v }
{
    numbers.iter().any(|u| *u == v)
}

fn steadies(alloc: Global, columns: &[u32]) -> Result<Items<Recurrence>, AllocError>
    ensures { IfOk result (λ lower. lower ≡ map steady columns.now) }
{
    let mut lower = Items::new(alloc);
    for v in columns {
        lower.push(steady(alloc, *v)?)?;
    }
    Ok(lower)
}

fn recurrences_in(
    alloc: Global,
    found: &Option<Items<StratumTerm>>,
) -> Result<Items<Recurrence>, AllocError>
    ensures { IfOk result (λ all. all ≡ map (λ t. t.recurrence) (unwrap_or found.now [])) }
{
    match found {
        None => Ok(Items::new(alloc)),
        Some(terms) => Ok(recurrences_of(alloc, terms.as_slice())?),
    }
}

fn recurrences_of(alloc: Global, terms: &[StratumTerm]) -> Result<Items<Recurrence>, AllocError>
    ensures { IfOk result (λ all. all ≡ map (λ t. t.recurrence) terms.now) }
{
    let mut recurrences = Items::new(alloc);
    for term in terms {
        let recurrence = term.recurrence.clone()?;
        recurrences.push(recurrence)?;
    }
    Ok(recurrences)
}

/// Whether the terms are known, and are fewer than so many.
fn is_short(most: usize, found: &Option<Items<StratumTerm>>) -> bool
    ensures { result ≡ is_short most found.now }
{
    match found {
        None => false,
        Some(terms) => terms.len() < most,
    }
}

/// Whether the second has more terms than the first, and fewer than so many.
fn asks_third(
    most: usize,
    first: &Option<Items<StratumTerm>>,
    second: &Option<Items<StratumTerm>>,
) -> bool
    ensures { result ≡ (has_grown first.now second.now && is_short most second.now) }
{
    has_grown(first, second) && is_short(most, second)
}

/// Whether the second has more terms than the first.
fn has_grown(first: &Option<Items<StratumTerm>>, second: &Option<Items<StratumTerm>>) -> bool
    ensures { result ≡ has_grown first.now second.now }
{
    count_in(first) < count_in(second)
}

fn count_in(found: &Option<Items<StratumTerm>>) -> usize
    ensures { result ≡ length (unwrap_or found.now []) }
{
    match found {
        None => 0,
        Some(terms) => terms.len(),
    }
}

fn terms_in(alloc: Global, found: Option<Items<StratumTerm>>) -> Items<StratumTerm>
    ensures { result ≡ unwrap_or found [] }
{
    match found {
        None => Items::new(alloc),
        Some(terms) => terms,
    }
}
