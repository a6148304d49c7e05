ghost use Rattle.std.specs.Prelude.{◌≡◌, ◌+◌, ◌<◌, ◌≤◌, ◌++◌, All, List, Option, length, map, take, IfOk, OnOk};
ghost use Rattle.std.specs.List.{AllByRecursion, flat_map};
ghost use Rattle.syntax_tree.specs.WellFormed.{width_of};
ghost use Rattle.syntax_tree.specs.declared.program.Proc.{Proc as Procedure};
ghost use Rattle.transition_formula.specs.Composition.{after_case, losses_by};
ghost use Rattle.transition_formula.specs.Transition.{Transition};
ghost use Rattle.posing.specs.Follows.{Asks};
ghost use Rattle.posing.specs.Logs.{Adds, loss_notes};
ghost use Rattle.vocabularies.specs.Ends.{entry_width};
ghost use Rattle.vocabularies.specs.Procs.{IsProcOf};
ghost use Rattle.proc_summary.specs.Summary.{ends_of, exit_places};
ghost use Rattle.point_steps.specs.Claims.{ArePointSteps, IsState, IsStepSource, StepsCover, WaysCover};
ghost use Rattle.point_steps.specs.Parts.{ArePlacesAt, CoverOuts, CoversOut, IsBehind, IsOut, IsOutFormula, IsStepOrigin, IsStateCase};
ghost use Rattle.point_steps.specs.Steps.{losses_in_step, passing_formula, point_case, returning_formula, step_formula, step_of, steps_by, steps_from, through_case, with_step};

use crate::ends::columns_from;
use crate::outs::{WayOut, outs_of};
use crate::source::{StepSource, columns_of};
use crate::target::{PointStep, Target};
use crate::telling::{add_told, copies_of, first_of, sequences};
use farkas_check::Oracle;
use items::Items;
use linear_terms::{Case, Poly};
use polyhedra::settle;
use posing::{Log, WorkError};
use std::alloc::{AllocError, Global};
use transition_formula::{Formula, FormulaError, Loss, with_posts};

/// The steps from a point of a procedure, by its state and the ways from it: to heads in order, to
/// the entries of procedures that are called, in the order of the edges, to the exit, but for
/// `main`, and to assertions in order. Each is the state and then a way, settled, from no columns to
/// those of the point, and behind them those of the target: the columns of the procedure, the
/// globals and parameters of a callee, or at an exit the columns of the entry as they were at the
/// entry, the globals and the returned value. A step without a case is left out. What is lost is
/// noted before the questions of a step.
///
/// # Errors
///
/// A question that the oracle refused, or want of memory.
pub fn steps<O: Oracle>(
    alloc: Global,
    source: StepSource,
    state: &Formula,
    oracle: &mut O,
    log: &mut Log,
) -> Result<Items<PointStep>, WorkError>
    requires source { IsStepSource source }
    requires state { (p : Procedure) → IsProcOf source.program.now source.proc p
        → IsState (width_of source.program.now p + entry_width source.program.now p) state.now }
    ensures follows { (p : Procedure) → IsProcOf source.entry.program.now source.entry.proc p
        → Asks O.asking oracle log result
        (steps_from source.entry.program.now source.entry.proc p source.entry.node state.now
        source.entry.cells.now) }
    ensures fits { (p : Procedure) → IsProcOf source.entry.program.now source.entry.proc p
        → IfOk result (ArePointSteps source.entry.program.now p) }
    ensures covers { (p : Procedure) (known : List (Option Transition))
        → IsProcOf source.entry.program.now source.entry.proc p
        → WaysCover source.entry.program.now p known source.entry.node source.entry.cells.now
        → IfOk result
        (StepsCover source.entry.program.now source.entry.proc p known source.entry.node state.now) }
{
    let places = exit_places(alloc, source)?;
    let outs = outs_of(alloc, source)?;
    let point = StepOrigin {
        columns: columns_of(source),
        places: places.as_slice(),
        state,
    };
    steps_by(alloc, point, outs.as_slice(), oracle, log)
}

/// The columns that are told at the exit of the procedure: the globals, and the returned value if
/// there is one.
fn exit_places(alloc: Global, source: StepSource) -> Result<Items<u32>, AllocError>
    requires { IsStepSource source }
    ensures { (p : Procedure) → IsProcOf source.entry.program.now source.entry.proc p
        → IfOk result (λ places. places ≡ exit_places (ends_of source.entry.program.now p)) }
{
    let program = source.program;
    let proc = source.proc;
    let mut places = columns_from(alloc, 0, program.globals.len() as u32)?;
    if program.procs.as_slice()[proc as usize].returns {
        places.push(columns_of(source) - 1)?;
    }
    Ok(places)
}

/// The state of a point of a procedure of so many columns, of which those at these places are told
/// at its exit.
#[derive(Clone, Copy)]
struct StepOrigin<'a> {
    columns: u32,
    places: &'a [u32],
    state: &'a Formula,
}

/// A step for each way out that leaves one, in order.
#[tactic(auto, using(posing::proofs::Following::following), unfolding(crate::specs::Steps::steps_by))]
fn steps_by<O: Oracle>(
    alloc: Global,
    point: StepOrigin,
    outs: &[WayOut],
    oracle: &mut O,
    log: &mut Log,
) -> Result<Items<PointStep>, WorkError>
    requires state { IsStepOrigin point.columns point.places.now point.state.now }
    requires outs { AllByRecursion (IsOut point.columns point.places.now) outs.now }
    ensures follows { Asks O.asking oracle log result
        (steps_by point.entry.columns point.entry.places.now point.entry.state.now outs.now) }
    ensures covers { IfOk result
        (CoverOuts point.entry.columns point.entry.places.now point.entry.state.now outs.now) }
{
    let mut made = Items::new(alloc);
    for out in outs {
        made = with_step(alloc, point, made, out, oracle, log)?;
    }
    Ok(made)
}

/// The steps, and behind them what is left of the step by a way out.
#[tactic(auto, using(posing::proofs::Following::following), unfolding(crate::specs::Steps::with_step))]
fn with_step<O: Oracle>(
    alloc: Global,
    point: StepOrigin,
    made: Items<PointStep>,
    out: &WayOut,
    oracle: &mut O,
    log: &mut Log,
) -> Result<Items<PointStep>, WorkError>
    requires state { IsStepOrigin point.columns point.places.now point.state.now }
    requires out { IsOut point.columns point.places.now out.now }
    ensures follows { Asks O.asking oracle log result
        (with_step point.entry.columns point.entry.places.now point.entry.state.now made out.now) }
    ensures behind { IfOk result (IsBehind made) }
    ensures covers { IfOk result
        (λ all. CoversOut point.entry.columns point.entry.places.now point.entry.state.now all
        out.now) }
{
    let f = noted_formula(alloc, point, out, log)?;
    let left = settle(alloc, &f, oracle, log)?;
    let all = with_left(made, out.target, left)?;
    Ok(all)
}

/// The steps, and behind them one with this formula, if this has a case.
fn with_left(
    made: Items<PointStep>,
    target: Target,
    formula: Formula,
) -> Result<Items<PointStep>, AllocError>
    ensures { IfOk result (λ all. all ≡ made ++ step_of target formula formula.cases) }
{
    let mut all = made;
    if !formula.cases().is_empty() {
        all.push(PointStep { target, formula })?;
    }
    Ok(all)
}

/// The formula of the step by a way out, before it is settled; what was lost in making the way and
/// what is lost in making the step is noted.
fn noted_formula(
    alloc: Global,
    point: StepOrigin,
    out: &WayOut,
    log: &mut Log,
) -> Result<Formula, FormulaError>
    requires state { IsStepOrigin point.columns point.places.now point.state.now }
    requires out { IsOut point.columns point.places.now out.now }
    ensures noted { Adds
        (loss_notes (out.now.lost ++ losses_in_step point.entry.columns point.entry.state.now
        out.now.formula)) log.old log.new result }
    ensures exact { IfOk result
        (λ f. f ≡ step_formula point.entry.columns point.entry.places.now out.now.target
        point.entry.state.now out.now.formula) }
{
    let mut losses = Items::from_slice(alloc, out.lost.as_slice())?;
    let f = step_formula(alloc, point, out.target, &out.formula, &mut losses)?;
    log.add_losses(alloc, losses.as_slice())?;
    Ok(f)
}

/// The state and then a way to a target.
fn step_formula(
    alloc: Global,
    point: StepOrigin,
    target: Target,
    way: &Formula,
    losses: &mut Items<Loss>,
) -> Result<Formula, FormulaError>
    requires state { IsStepOrigin point.columns point.places.now point.state.now }
    requires way { IsOutFormula point.columns way.now }
    requires places { ArePlacesAt point.places.now target way.now }
    ensures exact { IfOk result
        (λ f. f ≡ step_formula point.entry.columns point.entry.places.now target
        point.entry.state.now way.now) }
    ensures noted { OnOk result
        (losses.new ≡ losses.old
        ++ losses_in_step point.entry.columns point.entry.state.now way.now) }
{
    match target {
        Target::Exit => returning_formula(alloc, point, way, losses),
        Target::Head(_) | Target::Entry(_) | Target::Check(_) => {
            passing_formula(alloc, point, way, losses)
        }
    }
}

/// Each case of the state with each of a way: the posts at the point's columns, and behind them
/// those of the way.
fn passing_formula(
    alloc: Global,
    point: StepOrigin,
    way: &Formula,
    losses: &mut Items<Loss>,
) -> Result<Formula, FormulaError>
    requires state { IsStepOrigin point.columns point.places.now point.state.now }
    requires way { IsOutFormula point.columns way.now }
    ensures exact { IfOk result
        (λ f. f ≡ passing_formula point.entry.columns point.entry.state.now way.now) }
    ensures noted { OnOk result
        (losses.new ≡ losses.old
        ++ losses_in_step point.entry.columns point.entry.state.now way.now) }
{
    let mut cases = Items::new(alloc);
    for case in point.state.cases() {
        let through = through_cases(alloc, point.columns, case, way, losses)?;
        let front = first_of(case.post.as_slice(), point.columns);
        add_told(alloc, &through, front, &[], &mut cases)?;
    }
    Ok(Formula::from_cases(0, point.columns + way.to(), cases))
}

/// Each case of the state with each of the way to the exit: all posts of the state, and behind them
/// those of the way that are told.
fn returning_formula(
    alloc: Global,
    point: StepOrigin,
    way: &Formula,
    losses: &mut Items<Loss>,
) -> Result<Formula, FormulaError>
    requires state { IsStepOrigin point.columns point.places.now point.state.now }
    requires way { IsOutFormula point.columns way.now }
    requires places { All (λ place. place < way.now.to) point.places.now }
    ensures exact { IfOk result
        (λ f. f ≡ returning_formula point.entry.columns point.entry.places.now
        point.entry.state.now way.now) }
    ensures noted { OnOk result
        (losses.new ≡ losses.old
        ++ losses_in_step point.entry.columns point.entry.state.now way.now) }
{
    let mut cases = Items::new(alloc);
    for case in point.state.cases() {
        let through = through_cases(alloc, point.columns, case, way, losses)?;
        let told = with_posts(alloc, &through, point.places)?;
        add_told(alloc, &told, case.post.as_slice(), &[], &mut cases)?;
    }
    let told = point.places.len() as u32;
    Ok(Formula::from_cases(0, point.state.to() + told, cases))
}

/// A case of the state at the columns of the point, and then each of a way.
fn through_cases(
    alloc: Global,
    columns: u32,
    case: &Case,
    way: &Formula,
    losses: &mut Items<Loss>,
) -> Result<Formula, FormulaError>
    requires case { IsStateCase columns case.now }
    requires way { IsOutFormula columns way.now }
    ensures exact { IfOk result
        (λ f. f ≡ record {
          from = 0;
          to = way.now.to;
          cases = map (through_case columns case.now) way.now.cases;
        }) }
    ensures noted { OnOk result
        (losses.new ≡ losses.old
        ++ flat_map
        (λ second. losses_by (after_case (point_case columns case.now) second) second)
        way.now.cases) }
{
    let first = point_case(alloc, columns, case)?;
    sequences(alloc, first, way, losses)
}

/// A case of the state with its posts at the columns of the point alone.
fn point_case(alloc: Global, columns: u32, case: &Case) -> Result<Case, FormulaError>
    requires { columns ≤ length case.now.post }
    ensures { IfOk result (λ first. first ≡ point_case columns case.now) }
{
    let rows = case.rows.clone()?;
    let post = first_copies(alloc, case.post.as_slice(), columns)?;
    Ok(Case {
        aux: case.aux,
        rows,
        post,
    })
}

/// Copies of so many polynomials, the first.
fn first_copies(alloc: Global, polys: &[Poly], count: u32) -> Result<Items<Poly>, FormulaError>
    requires { count ≤ length polys.now }
    ensures { IfOk result (λ copies. copies ≡ take count polys.now) }
{
    let front = first_of(polys, count);
    Ok(copies_of(alloc, front)?)
}
