ghost use Rattle.std.specs.Prelude.{◌≡◌, ◌+◌, ◌<◌, ◌≤◌, ℕ, pos, ◌*ℤ◌, ◌≤ℤ◌, ◌<ℤ◌, [], length, get_or, true, int_lt, int_le, ◌&&◌, IfOk, IfErr, MatchOption};
ghost use Rattle.std.specs.List.{AllByRecursion};
ghost use Rattle.simplex.specs.Exchange.{HasShape, IsTableauOf, ArePrimitive};
ghost use Rattle.farkas_check.specs.Relations.{entry};
ghost use Rattle.simplex.specs.Calm.{HasSquares, IsSmallLine, HasSmallLines};
ghost use Rattle.simplex.specs.Refusal.{LeavesBits, IsRefusalIn};
ghost use Rattle.simplex.specs.SearchSteps.{IsComparisonStep};
ghost use Rattle.simplex.specs.Raise.{EntersFirst, sign_of, enters_at, order_at, comes_before, LeavingOf, Framed, Begins};
ghost use Rattle.simplex.specs.History.{RaisedFrom, CameTo, MovedTo, EndsAt};

use crate::steps::step_product;
use crate::{SearchStop, Tableau};
use std::alloc::Global;
use std::cmp::Ordering;
use whole_numbers::Wide;

/// The first column that may enter and at which the goal's line lets it grow.
pub(crate) fn entering(line: &[i128], up: bool, enters: &[bool]) -> Option<usize>
    requires { length enters.now ≡ length line.now }
    ensures { EntersFirst line.now up enters.now result }
{
    for (j, number) in line.iter().enumerate() {
        if enters[j] && grows(number, up) {
            return Some(j);
        }
    }
    None
}

/// Whether a column with this number in the goal's line lets the goal grow.
fn grows(number: &i128, up: bool) -> bool
    ensures { result ≡ int_lt (sign_of up *ℤ number.now) (pos 0) }
{
    if up { *number < 0 } else { 0 < *number }
}

/// How two lines stand at a key, each over the other's number at the column; at the constants the
/// other way round.
fn order_at(backward: bool, a: &i128, p: &i128, b: &i128, q: &i128) -> Result<Ordering, Wide>
    ensures exact { result ≡ order_at backward a.now p.now b.now q.now }
    ensures width { IfErr result LeavesBits }
{
    let left = step_product(a, p)?;
    let right = step_product(b, q)?;
    if backward {
        Ok(right.cmp(&left))
    } else {
        Ok(left.cmp(&right))
    }
}

/// Whether a line comes before another one, both over their numbers at the column.
fn comes_before(
    constants: usize,
    column: usize,
    line: &[i128],
    other: &[i128],
    keys: &[usize],
) -> Result<bool, Wide>
    requires same { length other.now ≡ length line.now }
    requires column { column < length line.now }
    requires keys { AllByRecursion (λ c. c < length line.now) keys.now }
    ensures exact { result ≡ comes_before constants column line.now other.now keys.now }
    ensures width { IfErr result LeavesBits }
    ensures calm { (n : ℕ) → HasSquares n → IsSmallLine n line.now → IsSmallLine n other.now
        → IfErr result (λ _. ⊥) }
{
    comes_before_by_keys(constants, column, line, other, keys)
}

/// The same by the first key at which they differ.
fn comes_before_by_keys(
    constants: usize,
    column: usize,
    line: &[i128],
    other: &[i128],
    keys: &[usize],
) -> Result<bool, Wide>
    requires same { length other.now ≡ length line.now }
    requires column { column < length line.now }
    requires keys { AllByRecursion (λ c. c < length line.now) keys.now }
    ensures exact { result ≡ comes_before constants column line.now other.now keys.now }
    ensures width { IfErr result LeavesBits }
{
    for c in keys {
        let backward = *c == constants;
        match order_at(
            backward,
            &line[*c],
            &other[column],
            &other[*c],
            &line[column],
        )? {
            Ordering::Less => return Ok(true),
            Ordering::Greater => return Ok(false),
            Ordering::Equal => {}
        }
    }
    Ok(false)
}

/// How a raise ends: its goal is met, no column lets the goal grow, or one does so without end, or
/// the turns are used up.
#[derive(Clone, Copy)]
pub enum RaiseEnd {
    Met,
    Best,
    Open(usize),
    Pivots,
}

/// What a turn of a raise comes to.
#[derive(Clone, Copy)]
pub enum Turn {
    Met,
    Best,
    Open(usize),
    Moved,
}

/// A raise of the goal of a line.
#[derive(Clone, Copy)]
pub(crate) struct Raise<'a> {
    /// The column of the constants.
    pub(crate) constants: usize,
    /// The line of the goal.
    pub(crate) goal: usize,
    /// Whether the goal is raised, and not lowered.
    pub(crate) up: bool,
    /// Whether the raise ends where the goal's constant is not positive.
    pub(crate) until: bool,
    /// Which columns may enter; a line may leave if its choice may enter.
    pub(crate) enters: &'a [bool],
    /// The columns at which lines that may leave are compared, one after another.
    pub(crate) keys: &'a [usize],
}

/// Raises the goal of a line, or lowers it, by exchanges of columns that may enter for lines that
/// may leave, or `until` its constant is not positive. The turns are used up only where there are
/// as many choices of columns.
pub(crate) fn raised_goal(
    alloc: Global,
    t: Tableau,
    raise: Raise<'_>,
    budget: u128,
) -> Result<(Tableau, RaiseEnd), SearchStop>
    ghost over: { Framed }
    requires begins { Begins over raise.enters.now raise.constants raise.keys.now raise.goal t }
    requires primitive { ArePrimitive t }
    ensures tableau { IfOk result
        (λ r. RaisedFrom over raise.entry.enters.now raise.entry.constants raise.entry.keys.now
        raise.entry.goal (sign_of raise.entry.up) t r.0) }
    ensures ends { IfOk result
        (λ r. EndsAt over raise.entry.enters.now raise.entry.constants (sign_of raise.entry.up)
        raise.entry.until raise.entry.goal budget r.0 r.1) }
    ensures refusal { IfErr result (IsRefusalIn over (length t.lines)) }
{
    let mut now = t;
    for _turn in 0..budget {
        let (next, came) = one_turn(alloc, now, raise)?;
        now = next;
        match came {
            Turn::Met => return Ok((now, RaiseEnd::Met)),
            Turn::Best => return Ok((now, RaiseEnd::Best)),
            Turn::Open(column) => return Ok((now, RaiseEnd::Open(column))),
            Turn::Moved => {}
        }
    }
    Ok((now, RaiseEnd::Pivots))
}

/// Whether a goal that is to be met has a constant that is not positive.
fn is_met(line: &[i128], constants: usize, until: bool) -> bool
    requires { constants < length line.now }
    ensures { result ≡ (until && int_le (entry line.now constants) (pos 0)) }
{
    until && line[constants] <= 0
}

fn one_turn(alloc: Global, t: Tableau, raise: Raise<'_>) -> Result<(Tableau, Turn), SearchStop>
    ghost over: { Framed }
    requires tableau { IsTableauOf over.units over.frame t }
    requires primitive { ArePrimitive t }
    requires wide { length raise.enters.now ≡ over.units + length t.lines }
    requires goal { raise.goal < length t.lines }
    requires constants { raise.constants < length raise.enters.now }
    requires keys { AllByRecursion (λ c. c < length raise.enters.now) raise.keys.now }
    ensures came { IfOk result
        (λ r. CameTo raise.entry.enters.now raise.entry.constants raise.entry.keys.now
        (sign_of raise.entry.up) raise.entry.until raise.entry.goal t r.0 r.1) }
    ensures refusal { IfErr result (IsRefusalIn over (length t.lines)) }
{
    if is_met(t.lines[raise.goal].as_slice(), raise.constants, raise.until) {
        return Ok((t, Turn::Met));
    }
    let line = t.lines[raise.goal].as_slice();
    let Some(column) = entering(line, raise.up, raise.enters) else {
        return Ok((t, Turn::Best));
    };
    exchange_column(alloc, t, raise, column)
}

/// Exchanges the column for the line that leaves where it enters, if one does.
fn exchange_column(
    alloc: Global,
    t: Tableau,
    raise: Raise<'_>,
    column: usize,
) -> Result<(Tableau, Turn), SearchStop>
    ghost over: { Framed }
    requires tableau { IsTableauOf over.units over.frame t }
    requires primitive { ArePrimitive t }
    requires wide { length raise.enters.now ≡ over.units + length t.lines }
    requires column { column < length raise.enters.now }
    requires keys { AllByRecursion (λ c. c < length raise.enters.now) raise.keys.now }
    ensures came { IfOk result
        (λ r. MovedTo raise.entry.enters.now raise.entry.constants raise.entry.keys.now column t r.0
        r.1) }
    ensures refusal { IfErr result (IsRefusalIn over (length t.lines)) }
{
    match leaving(&t, raise, column)? {
        None => Ok((t, Turn::Open(column))),
        Some(line) => {
            let next = t.exchange(alloc, line, column)?;
            Ok((next, Turn::Moved))
        }
    }
}

/// The line that leaves where a column enters: of those that may leave and are positive there, the
/// least by the keys.
fn leaving(t: &Tableau, raise: Raise<'_>, column: usize) -> Result<Option<usize>, Wide>
    requires shape { HasShape (length raise.enters.now) t.now }
    requires choices { (i : ℕ) → i < length t.now.lines
        → get_or t.now.chosen i 0 < length raise.enters.now }
    requires column { column < length raise.enters.now }
    requires keys { AllByRecursion (λ c. c < length raise.enters.now) raise.keys.now }
    ensures least { IfOk result
        (λ line. LeavingOf (length t.now.lines) raise.entry.enters.now raise.entry.constants
        raise.entry.keys.now column t.now line) }
    ensures width { IfErr result LeavesBits }
    ensures step { IfErr result
        (IsComparisonStep t.now raise.entry.constants column raise.entry.keys.now) }
    ensures calm { (n : ℕ) → HasSquares n → HasSmallLines n t.now → IfErr result (λ _. ⊥) }
{
    let mut found = None;
    for i in 0..t.lines.len() {
        found = least_with(t, raise, column, found, i)?;
    }
    Ok(found)
}

/// The least of the lines before one, and of that one.
#[tactic(auto, using(crate::proofs::LeavingLines::running_least))]
fn least_with(
    t: &Tableau,
    raise: Raise<'_>,
    column: usize,
    found: Option<usize>,
    i: usize,
) -> Result<Option<usize>, Wide>
    requires shape { HasShape (length raise.enters.now) t.now }
    requires choices { (i : ℕ) → i < length t.now.lines
        → get_or t.now.chosen i 0 < length raise.enters.now }
    requires column { column < length raise.enters.now }
    requires keys { AllByRecursion (λ c. c < length raise.enters.now) raise.keys.now }
    requires line { i < length t.now.lines }
    requires before { LeavingOf i raise.enters.now raise.constants raise.keys.now column t.now
        found }
    ensures least { IfOk result
        (λ line. LeavingOf (i + 1) raise.entry.enters.now raise.entry.constants raise.entry.keys.now
        column t.now line) }
    ensures width { IfErr result LeavesBits }
    ensures step { IfErr result
        (IsComparisonStep t.now raise.entry.constants column raise.entry.keys.now) }
    ensures calm { (n : ℕ) → HasSquares n → HasSmallLines n t.now → IfErr result (λ _. ⊥) }
{
    let line = t.lines[i].as_slice();
    if !raise.enters[t.chosen[i]] || line[column] <= 0 {
        return Ok(found);
    }
    match found {
        None => Ok(Some(i)),
        Some(k) => {
            let other = t.lines[k].as_slice();
            if comes_before(raise.constants, column, line, other, raise.keys)? {
                Ok(Some(i))
            } else {
                Ok(Some(k))
            }
        }
    }
}
