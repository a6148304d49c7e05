ghost use Rattle.std.specs.Prelude.{◌≡◌, ◌+◌, ◌^◌, ◌<◌, ℕ, List, [], Ok, length, get_or, IfOk, IfErr, IfSome};
ghost use Rattle.items.specs.Gives.{Gives};
ghost use Rattle.farkas_check.proofs.Walks.{IsOrdered};
ghost use Rattle.simplex.specs.Calm.{HasSquares, IsSmallLine, IsMemory};
ghost use Rattle.simplex.specs.Exchange.{cause, IsTableauOf, ArePrimitive};
ghost use Rattle.simplex.specs.Raise.{Framed};
ghost use Rattle.simplex.specs.Refusal.{IsRefusal, IsRefusalIn};
ghost use Rattle.simplex.specs.Search.{IsFlat, IsMet, IsSolving, IsCornerOf};
ghost use Rattle.simplex.specs.Suprema.{FramedKinds, with_goal, frame_over, goal_frame, IsSupremumOver, IsSupremumOf, TopAt, SupremumAt, certificate_of, IsRayOf};

use crate::corner::{corner, ray};
use crate::frame::{framed_tableau, kinds_of};
use crate::gauss::{Stage, question_column};
use crate::raise::{Raise, entering, raised_goal};
use crate::search::{SearchEnd, corner_search, keys_of};
use crate::tableau::line_multiple;
use crate::{RaiseEnd, SearchStop, Tableau};
use farkas_check::{Cert, Goal, Ratio, case_columns};
use items::Items;
use linear_terms::{Kind, Mono, Poly, Row};
use std::alloc::{AllocError, Global};

/// What the raise of an objective over the corners of a case comes to.
#[derive(Clone, Copy)]
pub enum Top {
    /// The objective is greatest at the corner.
    Best,
    /// It grows without end along a column, upwards or downwards.
    Open { column: usize, up: bool },
    /// The turns are used up.
    Pivots,
}

/// What the question how great an objective gets at the points of a case comes to.
#[derive(Drop)]
pub enum Supremum {
    /// No point makes the rows true.
    Empty,
    /// There are more choices of columns than turns, and these are used up.
    Pivots,
    /// The objective is bounded: a certificate that it gets no greater than its sum over its scale,
    /// and the corner that reaches this, a number for each column of the case.
    Bound(Cert, Items<Ratio>),
    /// The objective grows without end: a corner of the rows and a ray from it, a number each for
    /// each column of the case.
    Unbounded(Items<Ratio>, Items<Ratio>),
}

/// The rows, and behind them the objective as a row that takes no part.
pub(crate) fn with_goal(
    alloc: Global,
    rows: &[Row],
    objective: &Poly,
) -> Result<Items<Row>, AllocError>
    ensures { IfOk result (λ made. made ≡ with_goal rows.now objective.now) }
{
    let mut made = Items::new(alloc);
    for row in rows {
        made.push(row.clone()?)?;
    }
    let poly = objective.clone()?;
    made.push(Row {
        poly,
        kind: Kind::AtMost,
    })?;
    Ok(made)
}

/// What a case of a supremum question comes to, with no more turns a raise than the budget. It is
/// an error where a product or a sum of the search leaves 128 bits, which comes only where the
/// tableaux of the case are not small, and for want of memory.
pub fn supremum_of(alloc: Global, goal: &Goal, budget: u128) -> Result<Supremum, SearchStop>
    ensures supremum { IfOk result (λ found. IsSupremumOf goal.now budget found) }
    ensures refusal { IfErr result (IsRefusalIn (goal_frame goal.now) (length goal.now.rows + 1)) }
{
    let rows = goal.rows.as_slice();
    let columns = case_columns(alloc, rows, goal.objective.terms())?;
    supremum_over(alloc, columns.as_slice(), rows, &goal.objective, budget)
}

/// The same of rows and an objective over columns, among which are theirs.
fn supremum_over(
    alloc: Global,
    columns: &[Mono],
    rows: &[Row],
    objective: &Poly,
    budget: u128,
) -> Result<Supremum, SearchStop>
    requires { IsOrdered columns.now }
    ensures supremum { IfOk result
        (λ found. IsSupremumOver columns.now rows.now objective.now budget found) }
    ensures refusal { IfErr result
        (IsRefusalIn (frame_over columns.now rows.now objective.now) (length rows.now + 1)) }
{
    let all = with_goal(alloc, rows, objective)?;
    let kinds = kinds_of(alloc, all.as_slice())?;
    let t = framed_tableau(alloc, all.as_slice(), columns)?;
    raised_supremum(
        alloc,
        t,
        columns.len(),
        kinds.as_slice(),
        rows.len(),
        budget,
    )
}

fn raised_supremum(
    alloc: Global,
    t: Tableau,
    constants: usize,
    kinds: &[Kind],
    count: usize,
    budget: u128,
) -> Result<Supremum, SearchStop>
    ghost case: { FramedKinds }
    requires kinds { kinds.now ≡ case.kinds }
    requires solving { IsSolving case.over constants case.kinds 0 t }
    requires count { count ≡ case.over.rows }
    requires within { count < length case.kinds }
    requires wide { constants + 1 + length case.kinds < 2 ^ 64 }
    ensures supremum { IfOk result
        (λ found. SupremumAt case.over constants case.kinds budget found) }
    ensures refusal { IfErr result (IsRefusalIn case.over (length case.kinds)) }
{
    let (stage, found) = corner_search(alloc, t, constants, kinds, count, budget)?;
    match found {
        SearchEnd::Refuted(_line) => Ok(Supremum::Empty),
        SearchEnd::Pivots => Ok(Supremum::Pivots),
        SearchEnd::Corner => {
            let (found, _left) = topped_stage(alloc, stage, constants, count, budget)?;
            Ok(found)
        }
    }
}

/// Raises the objective from a corner of the rows, reads off what shows how great it gets, and
/// keeps the corner that it came to, if it came to one.
pub(crate) fn topped_stage(
    alloc: Global,
    stage: Stage,
    constants: usize,
    goal: usize,
    budget: u128,
) -> Result<(Supremum, Option<Stage>), SearchStop>
    ghost case: { FramedKinds }
    requires met { IsMet case.over constants case.kinds stage.enters stage.tableau }
    requires goal { goal ≡ case.over.rows }
    requires here { goal < length stage.tableau.lines }
    ensures supremum { IfOk result (λ r. SupremumAt case.over constants case.kinds budget r.0) }
    ensures left { IfOk result
        (λ r. IfSome r.1 (λ s. IsMet case.over constants case.kinds s.enters s.tableau)) }
    ensures refusal { IfErr result (IsRefusalIn case.over (length case.kinds)) }
{
    let (stage, top) = top_of(alloc, stage, constants, goal, budget)?;
    match top {
        Top::Pivots => Ok((Supremum::Pivots, None)),
        Top::Best => {
            let (cert, point) = bound_of(alloc, &stage.tableau, constants, goal)?;
            Ok((Supremum::Bound(cert, point), Some(stage)))
        }
        Top::Open { column, up } => {
            let (point, ray) = point_and_ray(alloc, &stage.tableau, constants, column, up)?;
            Ok((Supremum::Unbounded(point, ray), Some(stage)))
        }
    }
}

pub(crate) fn bound_of(
    alloc: Global,
    t: &Tableau,
    constants: usize,
    goal: usize,
) -> Result<(Cert, Items<Ratio>), SearchStop>
    ghost over: { Framed }
    requires tableau { IsTableauOf over.units over.frame t.now }
    requires primitive { ArePrimitive t.now }
    requires units { over.units ≡ constants + 1 }
    requires goal { goal < length t.now.lines }
    ensures cert { IfOk result (λ r. certificate_of constants goal (get_or t.now.lines goal [])
        ≡ Ok r.0) }
    ensures point { IfOk result (λ r. IsCornerOf t.now constants constants r.1) }
    ensures refusal { IfErr result (IsRefusalIn over (length t.now.lines)) }
{
    let cert = certificate(alloc, t.lines[goal].as_slice(), constants, goal)?;
    let point = corner(alloc, t, constants)?;
    Ok((cert, point))
}

pub(crate) fn point_and_ray(
    alloc: Global,
    t: &Tableau,
    constants: usize,
    column: usize,
    up: bool,
) -> Result<(Items<Ratio>, Items<Ratio>), SearchStop>
    ghost over: { Framed }
    requires tableau { IsTableauOf over.units over.frame t.now }
    requires primitive { ArePrimitive t.now }
    requires units { over.units ≡ constants + 1 }
    requires column { column < over.units + length t.now.lines }
    ensures point { IfOk result (λ r. IsCornerOf t.now constants constants r.0) }
    ensures ray { IfOk result (λ r. IsRayOf t.now column up constants r.1) }
    ensures refusal { IfErr result (IsRefusalIn over (length t.now.lines)) }
{
    let point = corner(alloc, t, constants)?;
    let ray = ray(alloc, t, constants, column, up)?;
    Ok((point, ray))
}

/// The objective's line as a certificate: its multipliers are minus its numbers at the slacks of
/// the rows.
fn certificate(
    alloc: Global,
    line: &[i128],
    constants: usize,
    goal: usize,
) -> Result<Cert, SearchStop>
    requires { constants + 1 + goal < length line.now }
    ensures exact { Gives cause (λ cert. cert) result (certificate_of constants goal line.now) }
    ensures refusal { IfErr result IsRefusal }
    ensures calm { (n : ℕ) → HasSquares n → IsSmallLine n line.now → IfErr result IsMemory }
{
    read_certificate(alloc, line, constants, goal)
}

fn read_certificate(
    alloc: Global,
    line: &[i128],
    constants: usize,
    goal: usize,
) -> Result<Cert, SearchStop>
    requires { constants + 1 + goal < length line.now }
    ensures exact { Gives cause (λ cert. cert) result (certificate_of constants goal line.now) }
    ensures refusal { IfErr result IsRefusal }
{
    let first = constants + 1;
    let by = line_multiple(alloc, &line[first..first + goal], &-1)?;
    Ok(Cert {
        scale: line[first + goal],
        sum: line[constants],
        by,
    })
}

/// Raises the objective, whose slack is minus it, from a corner of the rows. Which columns may
/// enter stays as it is.
pub(crate) fn top_of(
    alloc: Global,
    stage: Stage,
    constants: usize,
    goal: usize,
    budget: u128,
) -> Result<(Stage, Top), SearchStop>
    ghost case: { FramedKinds }
    requires met { IsMet case.over constants case.kinds stage.enters stage.tableau }
    requires goal { goal ≡ case.over.rows }
    requires here { goal < length stage.tableau.lines }
    ensures top { IfOk result
        (λ r. TopAt case.over constants case.kinds budget r.0.enters r.0.tableau r.1) }
    ensures refusal { IfErr result (IsRefusalIn case.over (length case.kinds)) }
{
    match question_column(stage.tableau.lines[goal].as_slice(), constants) {
        Some(column) => {
            let up = 0 < stage.tableau.lines[goal][column];
            Ok((stage, Top::Open { column, up }))
        }
        None => lowered_goal(alloc, stage, constants, goal, budget),
    }
}

/// The same where the objective's line is 0 at the columns of the question. Mostly no column lets
/// the objective grow.
fn lowered_goal(
    alloc: Global,
    stage: Stage,
    constants: usize,
    goal: usize,
    budget: u128,
) -> Result<(Stage, Top), SearchStop>
    ghost case: { FramedKinds }
    requires met { IsMet case.over constants case.kinds stage.enters stage.tableau }
    requires goal { goal ≡ case.over.rows }
    requires here { goal < length stage.tableau.lines }
    requires flat { IsFlat constants stage.tableau goal }
    ensures top { IfOk result
        (λ r. TopAt case.over constants case.kinds budget r.0.enters r.0.tableau r.1) }
    ensures refusal { IfErr result (IsRefusalIn case.over (length case.kinds)) }
{
    let line = stage.tableau.lines[goal].as_slice();
    match entering(line, false, stage.enters.as_slice()) {
        None => Ok((stage, Top::Best)),
        Some(_column) => raised_objective(alloc, stage, constants, goal, budget),
    }
}

fn raised_objective(
    alloc: Global,
    stage: Stage,
    constants: usize,
    goal: usize,
    budget: u128,
) -> Result<(Stage, Top), SearchStop>
    ghost case: { FramedKinds }
    requires met { IsMet case.over constants case.kinds stage.enters stage.tableau }
    requires goal { goal ≡ case.over.rows }
    requires here { goal < length stage.tableau.lines }
    requires flat { IsFlat constants stage.tableau goal }
    ensures top { IfOk result
        (λ r. TopAt case.over constants case.kinds budget r.0.enters r.0.tableau r.1) }
    ensures refusal { IfErr result (IsRefusalIn case.over (length case.kinds)) }
{
    let Stage { tableau, enters } = stage;
    let keys = keys_of(
        alloc,
        tableau.chosen.as_slice(),
        enters.as_slice(),
        constants,
    )?;
    let raise = Raise {
        constants,
        goal,
        up: false,
        until: false,
        enters: enters.as_slice(),
        keys: keys.as_slice(),
    };
    let (t, came) = raised_goal(alloc, tableau, raise, budget)?;
    let stage = Stage { tableau: t, enters };
    match came {
        RaiseEnd::Met => Ok((stage, Top::Best)),
        RaiseEnd::Best => Ok((stage, Top::Best)),
        RaiseEnd::Open(column) => Ok((stage, Top::Open { column, up: true })),
        RaiseEnd::Pivots => Ok((stage, Top::Pivots)),
    }
}
