ghost use Rattle.std.specs.Prelude.{◌≡◌, ◌+◌, ◌<◌, ◌≤◌, ◌^◌, ◌∷◌, ℕ, pos, length, get_or, slice_set, false, true, IfOk, IfErr};
ghost use Rattle.std.specs.List.{AllByRecursion, filter};
ghost use Rattle.linear_terms.specs.declared.row.Kind.TheVariants.{AtMost};
ghost use Rattle.simplex.specs.Raise.{Framed, enters_at};
ghost use Rattle.simplex.specs.Refusal.{IsRefusalIn};
ghost use Rattle.simplex.specs.Rows.{kind_at, frame_of_rows, kinds_of};
ghost use Rattle.simplex.specs.Search.{IsPlaced, TurnedAt, IsMet, IsSolving, FoundAt};

use crate::frame::{framed_tableau, kinds_of};
use crate::gauss::{Stage, equations, inequalities, with_entry};
use crate::raise::{Raise, raised_goal};
use crate::{RaiseEnd, SearchStop, Tableau};
use items::Items;
use linear_terms::{Kind, Mono, Row};
use std::alloc::{AllocError, Global};

/// What the turn of a row comes to: the row is true at the corner and is kept so, or its line
/// refutes the rows, or the turns are used up.
#[derive(Clone, Copy)]
pub enum TurnEnd {
    Kept,
    Refuted,
    Pivots,
}

/// What a search comes to: the tableau's corner makes the rows true, or a line refutes them, or the
/// turns are used up.
#[derive(Clone, Copy)]
pub enum SearchEnd {
    Corner,
    Refuted(usize),
    Pivots,
}

/// The keys of a raise that begins at a corner: the constants, and the chosen columns that may
/// leave.
pub(crate) fn keys_of(
    alloc: Global,
    chosen: &[usize],
    enters: &[bool],
    constants: usize,
) -> Result<Items<usize>, AllocError>
    requires { AllByRecursion (λ c. c < length enters.now) chosen.now }
    ensures { IfOk result (λ keys. keys ≡ constants ∷ filter (enters_at enters.now) chosen.now) }
{
    let room = chosen.len().saturating_add(1);
    let mut keys = Items::from_vec(Vec::with_capacity(alloc, room)?);
    keys.push(constants)?;
    for column in chosen {
        if enters[*column] {
            keys.push(*column)?;
        }
    }
    Ok(keys)
}

/// Raises the slack of a row that is not met yet, until it is not negative.
fn turn_of(
    alloc: Global,
    stage: Stage,
    constants: usize,
    kinds: &[Kind],
    i: usize,
    budget: u128,
) -> Result<(Stage, TurnEnd), SearchStop>
    ghost over: { Framed }
    requires placed { IsPlaced over constants kinds.now stage.enters stage.tableau }
    requires here { i < length kinds.now }
    requires kind { kind_at kinds.now i ≡ AtMost }
    requires waits { enters_at stage.enters (constants + 1 + i) ≡ false }
    requires row { i < over.rows }
    ensures came { IfOk result
        (λ r. TurnedAt over constants kinds.now budget i stage.enters r.0.enters r.0.tableau r.1) }
    ensures refusal { IfErr result (IsRefusalIn over (length kinds.now)) }
{
    let Stage { tableau, enters } = stage;
    let keys = keys_of(
        alloc,
        tableau.chosen.as_slice(),
        enters.as_slice(),
        constants,
    )?;
    let raise = Raise {
        constants,
        goal: i,
        up: true,
        until: true,
        enters: enters.as_slice(),
        keys: keys.as_slice(),
    };
    let (raised, came) = raised_goal(alloc, tableau, raise, budget)?;
    match came {
        RaiseEnd::Met => Ok((
            stage_with_row(raised, enters, constants + 1 + i),
            TurnEnd::Kept,
        )),
        RaiseEnd::Open(column) => {
            let next = raised.exchange(alloc, i, column)?;
            Ok((
                stage_with_row(next, enters, constants + 1 + i),
                TurnEnd::Kept,
            ))
        }
        RaiseEnd::Best => Ok((
            Stage {
                tableau: raised,
                enters,
            },
            TurnEnd::Refuted,
        )),
        RaiseEnd::Pivots => Ok((
            Stage {
                tableau: raised,
                enters,
            },
            TurnEnd::Pivots,
        )),
    }
}

/// The row's unit column may enter from now on.
fn stage_with_row(tableau: Tableau, enters: Items<bool>, column: usize) -> Stage
    requires { column < length enters }
    ensures { result ≡ record { tableau = tableau; enters = slice_set enters column true } }
{
    Stage {
        tableau,
        enters: with_entry(enters, column),
    }
}

/// The turn of a row, where it is not kept yet.
fn turn_of_row(
    alloc: Global,
    stage: Stage,
    constants: usize,
    kinds: &[Kind],
    i: usize,
    budget: u128,
) -> Result<(Stage, TurnEnd), SearchStop>
    ghost over: { Framed }
    requires placed { IsPlaced over constants kinds.now stage.enters stage.tableau }
    requires here { i < length kinds.now }
    requires row { i < over.rows }
    ensures came { IfOk result
        (λ r. TurnedAt over constants kinds.now budget i stage.enters r.0.enters r.0.tableau r.1) }
    ensures refusal { IfErr result (IsRefusalIn over (length kinds.now)) }
{
    if kinds[i] != Kind::AtMost {
        return Ok((stage, TurnEnd::Kept));
    }
    if stage.enters[constants + 1 + i] {
        return Ok((stage, TurnEnd::Kept));
    }
    turn_of(alloc, stage, constants, kinds, i, budget)
}

/// A turn for each row that is not met yet; the first so many lines are those of rows.
fn turns(
    alloc: Global,
    stage: Stage,
    constants: usize,
    kinds: &[Kind],
    count: usize,
    budget: u128,
) -> Result<(Stage, SearchEnd), SearchStop>
    ghost over: { Framed }
    requires placed { IsPlaced over constants kinds.now stage.enters stage.tableau }
    requires count { count ≡ over.rows }
    requires within { count ≤ length kinds.now }
    ensures found { IfOk result
        (λ r. FoundAt over constants kinds.now budget r.0.enters r.0.tableau r.1) }
    ensures refusal { IfErr result (IsRefusalIn over (length kinds.now)) }
{
    let mut now = stage;
    for i in 0..count {
        let (next, came) = turn_of_row(alloc, now, constants, kinds, i, budget)?;
        now = next;
        match came {
            TurnEnd::Kept => {}
            TurnEnd::Refuted => return Ok((now, SearchEnd::Refuted(i))),
            TurnEnd::Pivots => return Ok((now, SearchEnd::Pivots)),
        }
    }
    Ok((now, SearchEnd::Corner))
}

/// Searches for a corner of the rows, or for a line that refutes them.
pub(crate) fn corner_search(
    alloc: Global,
    t: Tableau,
    constants: usize,
    kinds: &[Kind],
    count: usize,
    budget: u128,
) -> Result<(Stage, SearchEnd), SearchStop>
    ghost over: { Framed }
    requires solving { IsSolving over constants kinds.now 0 t }
    requires count { count ≡ over.rows }
    requires within { count ≤ length kinds.now }
    requires wide { constants + 1 + length kinds.now < 2 ^ 64 }
    ensures found { IfOk result
        (λ r. FoundAt over constants kinds.now budget r.0.enters r.0.tableau r.1) }
    ensures refusal { IfErr result (IsRefusalIn over (length kinds.now)) }
{
    let enters = none_of(alloc, constants + 1 + kinds.len())?;
    let (tableau, refuted) = equations(alloc, t, constants, kinds)?;
    let stage = Stage { tableau, enters };
    if let Some(i) = refuted {
        return Ok((stage, SearchEnd::Refuted(i)));
    }
    let stage = inequalities(alloc, stage, constants, kinds, count)?;
    turns(alloc, stage, constants, kinds, count, budget)
}

/// No column may enter.
fn none_of(alloc: Global, count: usize) -> Result<Items<bool>, AllocError>
    ensures length { IfOk result (λ made. length made ≡ count) }
    ensures none { IfOk result (λ made. (j : ℕ) → enters_at made j ≡ false) }
{
    let mut made = Items::new(alloc);
    for _at in 0..count {
        made.push(false)?;
    }
    Ok(made)
}
