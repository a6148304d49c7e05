ghost use Rattle.std.specs.Prelude.{◌≡◌, ◌<◌, ◌^◌, ◌&&◌, true, not, pos, map, length, All, Ok, IfOk};
ghost use Rattle.std.specs.List.{filter, list_all};
ghost use Rattle.std.specs.Ordering.{int_eq};
ghost use Rattle.items.specs.Gives.{Gives};
ghost use Rattle.linear_terms.specs.declared.col.Col.TheVariants.{At, Aux};
ghost use Rattle.linear_terms.specs.Expressions.{◌⊟◌, ◌⊠◌, column, whole};
ghost use Rattle.linear_terms.specs.TermError.{cause};
ghost use Rattle.posing.specs.Follows.{Asks};
ghost use Rattle.posing.specs.Posing.{each};
ghost use Rattle.polyhedra.specs.Changes.{change};
ghost use Rattle.polyhedra.specs.Bounds.{bound_of, goals_of};
ghost use Rattle.recurrence.specs.Progressions.{signs, is_alone, is_term, progressions, excess, progression_row, bounded_progression};
ghost use Rattle.recurrence.specs.Star.{after_from, count, change_over_turns};
ghost use Rattle.recurrence.specs.Strata.{all_terms};
ghost use Rattle.recurrence.specs.Words.{is_among, IsMovement, AreTurns, plain_progression, change_over_turns_by, rows_with_progression_bound, by_term, by_variable};

use crate::stratifying::{Body, is_among};
use crate::terms::{Strata, StratumTerm};
use closed_form::sum_row;
use farkas_check::{Goal, Oracle};
use items::Items;
use linear_terms::{Case, Col, Poly, Row, TermError, difference, mul};
use polyhedra::{Log, Movement, Vocabulary, WorkError, bound_by, change, with_row};
use std::alloc::{AllocError, Global};
use transition_formula::Formula;
use whole_numbers::product;

/// The column that has a variable's number after the turns.
pub(crate) fn after(modified: &[u32], v: u32) -> Col
    requires { length modified.now < 2 ^ 32 }
    ensures { result ≡ after_from 0 modified.now v }
{
    for (n, u) in modified.iter().enumerate() {
        if *u == v {
            return Col::Aux(n as u32);
        }
    }
    Col::At(v)
}

/// The column for the number of turns.
pub(crate) fn turn_count(modified: &[u32]) -> Col
    requires { length modified.now < 2 ^ 32 }
    ensures { result ≡ Aux (length modified.now) }
{
    Col::Aux(modified.len() as u32)
}

/// A variable's change over the turns.
fn change_over_turns(alloc: Global, modified: &[u32], v: u32) -> Result<Poly, TermError>
    requires { length modified.now < 2 ^ 32 }
    ensures { Gives cause (λ p. p) result (change_over_turns_by modified.now v) }
{
    let last = Poly::column(alloc, after(modified, v))?;
    let first = Poly::column(alloc, Col::At(v))?;
    difference(alloc, &last, &first)
}

// ---- variables that are no terms by themselves

/// The named modified variables that are no terms by themselves.
pub(crate) fn open_variables(
    alloc: Global,
    named: &[u32],
    movement: &Movement,
    strata: &Strata,
) -> Result<Items<u32>, AllocError>
    ensures { IfOk result
        (λ made. made
        ≡ filter (λ v. is_among named.now v
        && not (is_term movement.now.moving (all_terms strata.now) v)) movement.now.modified) }
{
    let mut variables = Items::new(alloc);
    for v in movement.modified.as_slice() {
        if is_among(named, *v) && !is_in(movement.moving.as_slice(), strata, *v) {
            variables.push(*v)?;
        }
    }
    Ok(variables)
}

fn is_in(moving: &[u32], strata: &Strata, v: u32) -> bool
    ensures { result ≡ is_term moving.now (all_terms strata.now) v }
{
    is_term(moving, strata.first.as_slice(), v)
        || is_term(moving, strata.second.as_slice(), v)
        || is_term(moving, strata.third.as_slice(), v)
}

fn is_term(moving: &[u32], terms: &[StratumTerm], v: u32) -> bool
    ensures { result ≡ is_term moving.now terms.now v }
{
    terms
        .iter()
        .any(|term| is_alone(moving, term.relation.a.as_slice(), v))
}

/// Whether numbers at variables are 1 at v and 0 elsewhere.
fn is_alone(variables: &[u32], numbers: &[i128], v: u32) -> bool
    ensures { result ≡ is_alone variables.now numbers.now v }
{
    let mut variables = variables;
    let mut numbers = numbers;
    while let Some((u, more)) = variables.split_first()
        && let Some((n, rest)) = numbers.split_first()
    {
        if *u == v {
            return *n == 1 && are_zero(rest);
        }
        if *n != 0 {
            return false;
        }
        variables = more;
        numbers = rest;
    }
    false
}

pub(crate) fn are_zero(numbers: &[i128]) -> bool
    ensures { result ≡ list_all (λ m. int_eq m (pos 0)) numbers.now }
{
    numbers.iter().all(|m| *m == 0)
}

// ---- one progression

/// The turns that progressions are asked over.
#[derive(Clone, Copy)]
pub(crate) struct Turns<'a> {
    /// The cases of one turn.
    pub(crate) cases: &'a [Case],
    /// How many columns there are after a turn.
    pub(crate) to: u32,
    /// The variables that a turn modifies.
    pub(crate) modified: &'a [u32],
    /// The terms that bound changes.
    pub(crate) terms: &'a [StratumTerm],
}

/// `up` times the change of a variable.
#[derive(Clone, Copy)]
pub(crate) struct SignedChange {
    pub(crate) variable: u32,
    pub(crate) up: i128,
}

/// A signed change, bounded over `by` times a term.
#[derive(Clone, Copy)]
pub(crate) struct Progression<'a> {
    pub(crate) change: SignedChange,
    pub(crate) term: &'a StratumTerm,
    pub(crate) by: i128,
}

/// The greatest value of the signed change less `by` times the term is asked; where there is one,
/// it gives a row behind the others.
fn with_progression<O: Oracle>(
    alloc: Global,
    rows: Items<Row>,
    turns: Turns,
    progression: Progression,
    oracle: &mut O,
    log: &mut Log,
) -> Result<Items<Row>, WorkError>
    requires turns { AreTurns turns }
    requires low { progression.change.variable < turns.to }
    ensures { Asks O.asking oracle log result
        (rows_with_progression_bound turns.entry rows (plain_progression progression.entry)) }
{
    let bound = bound_over(alloc, turns, progression, oracle, log)?;
    match &bound {
        None => Ok(rows),
        Some(most) => {
            let row = progression_row(alloc, turns.modified, progression, most);
            Ok(with_row(alloc, rows, row, log)?)
        }
    }
}

/// The greatest value, if it is known.
fn bound_over<O: Oracle>(
    alloc: Global,
    turns: Turns,
    progression: Progression,
    oracle: &mut O,
    log: &mut Log,
) -> Result<Option<i128>, WorkError>
    requires turns { AreTurns turns }
    requires low { progression.change.variable < turns.to }
    ensures { Asks O.asking oracle log result
        (bound_of turns.entry.cases.now (excess (plain_progression progression.entry))) }
{
    let goals = goals_over(alloc, turns, progression);
    bound_by(alloc, goals, oracle, log)
}

fn goals_over(
    alloc: Global,
    turns: Turns,
    progression: Progression,
) -> Result<Items<Goal>, TermError>
    requires turns { AreTurns turns }
    requires low { progression.change.variable < turns.to }
    ensures { Gives cause (λ g. g) result
        (goals_of (excess (plain_progression progression.entry)) turns.entry.cases.now) }
{
    let mut goals = Items::new(alloc);
    for case in turns.cases {
        let objective = excess(alloc, case, progression)?;
        goals.push(goal_of(case, objective)?)?;
    }
    Ok(goals)
}

/// An objective over the rows of a case.
fn goal_of(case: &Case, objective: Poly) -> Result<Goal, AllocError>
    ensures { IfOk result (λ goal. goal ≡ record { rows = case.now.rows; objective = objective }) }
{
    let rows = case.rows.clone()?;
    Ok(Goal { rows, objective })
}

/// By how much the signed change is above `by` times the term.
fn excess(alloc: Global, case: &Case, progression: Progression) -> Result<Poly, TermError>
    requires { progression.change.variable < length case.now.post }
    ensures { Gives cause (λ p. p) result (excess (plain_progression progression.entry) case.now) }
{
    let by = progression.by;
    let change = change_so_often(alloc, case, progression.change)?;
    let slope = multiple(alloc, &by, &progression.term.recurrence.start)?;
    difference(alloc, &change, &slope)
}

/// A signed change in a case.
fn change_so_often(alloc: Global, case: &Case, signed: SignedChange) -> Result<Poly, TermError>
    requires { signed.variable < length case.now.post }
    ensures { Gives cause (λ p. p) result
        (whole signed.up ⊠ change true case.now signed.variable) }
{
    let change = change(alloc, true, case, signed.variable)?;
    multiple(alloc, &signed.up, &change)
}

/// A number times a polynomial.
fn multiple(alloc: Global, by: &i128, p: &Poly) -> Result<Poly, TermError>
    ensures { Gives cause (λ p. p) result (whole by.now ⊠ Ok p.now) }
{
    let factor = Poly::constant(alloc, *by);
    mul(alloc, &factor, p)
}

/// The row for a bound.
fn progression_row(
    alloc: Global,
    modified: &[u32],
    progression: Progression,
    most: &i128,
) -> Result<Row, TermError>
    requires { length modified.now < 2 ^ 32 }
    ensures { Gives cause (λ r. r) result
        (progression_row (change_over_turns_by modified.now) (Aux (length modified.now))
        (plain_progression progression.entry) most.now) }
{
    let by = progression.by;
    let change = moved_so_often(alloc, modified, progression.change)?;
    let growth = product(by, progression.term.relation.c)?;
    let slope = multiple(alloc, &by, &progression.term.recurrence.start)?;
    sum_row(alloc, &change, &slope, growth, *most, turn_count(modified))
}

/// A signed change over the turns.
fn moved_so_often(alloc: Global, modified: &[u32], signed: SignedChange) -> Result<Poly, TermError>
    requires { length modified.now < 2 ^ 32 }
    ensures { Gives cause (λ p. p) result
        (whole signed.up ⊠ change_over_turns_by modified.now signed.variable) }
{
    let change = change_over_turns(alloc, modified, signed.variable)?;
    multiple(alloc, &signed.up, &change)
}

// ---- all progressions

/// One signed change, one term, and both signs of the term.
fn with_both_slopes<O: Oracle>(
    alloc: Global,
    rows: Items<Row>,
    turns: Turns,
    change: SignedChange,
    term: &StratumTerm,
    oracle: &mut O,
    log: &mut Log,
) -> Result<Items<Row>, WorkError>
    requires turns { AreTurns turns }
    requires low { change.variable < turns.to }
    ensures { Asks O.asking oracle log result (by_term turns.entry change rows term.now) }
{
    let rising = Progression {
        change,
        term,
        by: 1,
    };
    let falling = Progression {
        change,
        term,
        by: -1,
    };
    let once = with_progression(alloc, rows, turns, rising, oracle, log)?;
    let both = with_progression(alloc, once, turns, falling, oracle, log)?;
    Ok(both)
}

/// One signed change, and each term.
fn with_terms<O: Oracle>(
    alloc: Global,
    rows: Items<Row>,
    turns: Turns,
    change: SignedChange,
    oracle: &mut O,
    log: &mut Log,
) -> Result<Items<Row>, WorkError>
    requires turns { AreTurns turns }
    requires low { change.variable < turns.to }
    ensures { Asks O.asking oracle log result
        (each (by_term turns.entry change) rows turns.entry.terms.now) }
{
    let mut made = rows;
    for term in turns.terms {
        made = with_both_slopes(alloc, made, turns, change, term, oracle, log)?;
    }
    Ok(made)
}

/// One variable.
fn with_variable<O: Oracle>(
    alloc: Global,
    rows: Items<Row>,
    turns: Turns,
    v: &u32,
    oracle: &mut O,
    log: &mut Log,
) -> Result<Items<Row>, WorkError>
    requires turns { AreTurns turns }
    requires low { v.now < turns.to }
    ensures { Asks O.asking oracle log result (by_variable turns.entry rows v.now) }
{
    let rise = SignedChange {
        variable: *v,
        up: 1,
    };
    let fall = SignedChange {
        variable: *v,
        up: -1,
    };
    let upward = with_terms(alloc, rows, turns, rise, oracle, log)?;
    let both = with_terms(alloc, upward, turns, fall, oracle, log)?;
    Ok(both)
}

/// Each of some variables.
fn with_variables<O: Oracle>(
    alloc: Global,
    rows: Items<Row>,
    turns: Turns,
    variables: &[u32],
    oracle: &mut O,
    log: &mut Log,
) -> Result<Items<Row>, WorkError>
    requires turns { AreTurns turns }
    requires low { All (λ v. v < turns.to) variables.now }
    ensures { Asks O.asking oracle log result (each (by_variable turns.entry) rows variables.now) }
{
    let mut made = rows;
    for v in variables {
        made = with_variable(alloc, made, turns, v, oracle, log)?;
    }
    Ok(made)
}

/// The rows of all progressions behind other rows; none under rule 1.
pub(crate) fn with_progressions<O: Oracle>(
    alloc: Global,
    rows: Items<Row>,
    body: Body,
    voc: &Vocabulary,
    strata: &Strata,
    oracle: &mut O,
    log: &mut Log,
) -> Result<Items<Row>, WorkError>
    requires movement { IsMovement body.formula.now body.movement.now }
    requires few { body.formula.now.to < 2 ^ 31 }
    ensures { Asks O.asking oracle log result
        (each (bounded_progression body.entry.formula.now.cases
        (change_over_turns body.entry.formula.now) (count body.entry.formula.now)) rows
        (progressions body.entry.formula.now voc.now strata.now)) }
{
    if voc.rule() <= 1 {
        return Ok(rows);
    }
    let variables = open_variables(alloc, voc.named_columns(), body.movement, strata)?;
    let modified = body.movement.modified.as_slice();
    let terms = strata.first.as_slice();
    let cases = body.formula.cases();
    let to = body.formula.to();
    let turns = Turns {
        cases,
        to,
        modified,
        terms,
    };
    with_variables(alloc, rows, turns, variables.as_slice(), oracle, log)
}
