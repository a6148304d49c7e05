ghost use Rattle.std.specs.Prelude.{◌≡◌, ◌≤◌, ◌<◌, ◌++◌, length, map, IfOk, OnOk};
ghost use Rattle.syntax_tree.specs.Term.{term_of};
ghost use Rattle.syntax_tree.specs.declared.program.Proc.{Proc as Procedure};
ghost use Rattle.flow_graph.specs.Plain.{arc_of, check_of, statement_of_act};
ghost use Rattle.vocabularies.specs.Procs.{IsProcOf};
ghost use Rattle.proc_summary.specs.Flow.{formula_at};
ghost use Rattle.context.specs.Made.{AreArguments, IsCallFit};
ghost use Rattle.point_steps.specs.Claims.{IsStepSource, IsWayFormula};
ghost use Rattle.point_steps.specs.Outs.{call_outs, entry_out, out_to, outs_of};
ghost use Rattle.point_steps.specs.Parts.{AreWidthsOf, outs_by_call, outs_by_check, outs_by_edge, own_calls, own_checks, own_columns, own_exits, own_heads};

use crate::source::{StepSource, columns_of, is_passed};
use crate::target::Target;
use flow_graph::{Act, CheckNode, Edge};
use items::Items;
use leaf_cases::call_entry;
use proc_summary::formula_at;
use std::alloc::{AllocError, Global};
use syntax_tree::Core;
use transition_formula::{Formula, FormulaError, Loss, seq};

/// A way out of a point: where it leads, its formula, and what was lost in making this.
#[derive(Drop)]
pub(crate) struct WayOut {
    pub(crate) target: Target,
    pub(crate) formula: Formula,
    pub(crate) lost: Items<Loss>,
}

/// The ways out of a point: to heads, to entries of procedures that are called, to the exit, but
/// for `main`, and to assertions, each in its order.
pub(crate) fn outs_of(alloc: Global, source: StepSource) -> Result<Items<WayOut>, FormulaError>
    requires { IsStepSource source }
    ensures { (p : Procedure) → IsProcOf source.entry.program.now source.entry.proc p
        → IfOk result
        (λ outs. outs ≡ outs_of source.entry.program.now source.entry.proc p source.entry.node
        source.entry.cells.now) }
{
    let heads = head_outs(alloc, source)?;
    let calls = call_outs(alloc, source)?;
    let exits = exit_outs(alloc, source)?;
    let checks = check_outs(alloc, source)?;
    list_of(heads, calls, exits, checks)
}

/// One list behind the other.
fn list_of(
    heads: Items<WayOut>,
    calls: Items<WayOut>,
    exits: Items<WayOut>,
    checks: Items<WayOut>,
) -> Result<Items<WayOut>, FormulaError>
    ensures { IfOk result (λ all. all ≡ heads ++ (calls ++ (exits ++ checks))) }
{
    let mut all = heads;
    all.append(calls)?;
    all.append(exits)?;
    all.append(checks)?;
    Ok(all)
}

/// Adds the way to a target by a formula, if there is one.
fn add_out(
    alloc: Global,
    target: Target,
    way: Option<Formula>,
    outs: &mut Items<WayOut>,
) -> Result<(), AllocError>
    ensures { OnOk result (outs.new ≡ outs.old ++ out_to target way) }
{
    if let Some(formula) = way {
        let lost = Items::new(alloc);
        outs.push(WayOut {
            target,
            formula,
            lost,
        })?;
    }
    Ok(())
}

// ---- heads

/// The ways to heads, by the arrivals, which stand behind the nodes.
fn head_outs(alloc: Global, source: StepSource) -> Result<Items<WayOut>, FormulaError>
    requires { IsStepSource source }
    ensures { IfOk result (λ outs. outs ≡ own_heads source.entry) }
{
    let columns = columns_of(source);
    let mut outs = Items::new(alloc);
    let mut arrival = source.graph.nodes;
    let heads = source.heads;
    for head in heads {
        let way = formula_at(alloc, columns, source.cells, arrival)?;
        add_out(alloc, Target::Head(*head), way, &mut outs)?;
        arrival += 1;
    }
    Ok(outs)
}

// ---- calls

/// The ways to the entries of procedures that are called, in the order of the edges.
fn call_outs(alloc: Global, source: StepSource) -> Result<Items<WayOut>, FormulaError>
    requires { IsStepSource source }
    ensures { IfOk result (λ outs. outs ≡ own_calls source.entry) }
{
    let mut outs = Items::new(alloc);
    for edge in source.graph.edges.as_slice() {
        add_edge(alloc, source, edge, &mut outs)?;
    }
    Ok(outs)
}

/// Adds that of an edge, if it is a call and no head is entered on the way to it.
fn add_edge(
    alloc: Global,
    source: StepSource,
    edge: &Edge,
    outs: &mut Items<WayOut>,
) -> Result<(), FormulaError>
    requires source { IsStepSource source }
    requires call { IsCallFit (own_columns source) (statement_of_act edge.now.act) }
    requires there { edge.now.from < source.graph.now.nodes }
    ensures { OnOk result (outs.new ≡ outs.old ++ outs_by_edge source.entry (arc_of edge.now)) }
{
    match &edge.act {
        Act::Call { proc, args, .. } => {
            add_call(alloc, source, edge.from, *proc, args.as_slice(), outs)
        }
        Act::Guard(_) | Act::Set(_, _) | Act::Any(_) => Ok(()),
    }
}

/// Adds that of a call, if no head is entered on the way to it.
fn add_call(
    alloc: Global,
    source: StepSource,
    from: u32,
    callee: u32,
    args: &[Core],
    outs: &mut Items<WayOut>,
) -> Result<(), FormulaError>
    requires source { IsStepSource source }
    requires arguments { AreArguments (own_columns source) (map term_of args.now) }
    requires there { from < source.graph.now.nodes }
    ensures { OnOk result
        (outs.new ≡ outs.old ++ outs_by_call source.entry from callee (map term_of args.now)) }
{
    if !is_passed(source.heads, source.node, from) {
        return Ok(());
    }
    let columns = columns_of(source);
    match formula_at(alloc, columns, source.cells, from)? {
        Some(way) => {
            let globals = source.program.globals.len() as u32;
            outs.push(entry_out(alloc, globals, &way, callee, args)?)?;
            Ok(())
        }
        None => Ok(()),
    }
}

/// The way to where a call stands, and then to the entry of the callee.
fn entry_out(
    alloc: Global,
    globals: u32,
    way: &Formula,
    callee: u32,
    args: &[Core],
) -> Result<WayOut, FormulaError>
    requires widths { AreWidthsOf globals way.now }
    requires way { IsWayFormula way.now.to way.now }
    requires arguments { AreArguments way.now.to (map term_of args.now) }
    ensures { IfOk result
        (λ out. out ≡ entry_out way.now.to globals way.now callee (map term_of args.now)) }
{
    let mut lost = Items::new(alloc);
    let handing = call_entry(alloc, way.to(), globals, args, &mut lost)?;
    let formula = seq(alloc, way, &handing, &mut lost)?;
    Ok(WayOut {
        target: Target::Entry(callee),
        formula,
        lost,
    })
}

// ---- the exit

/// The way to the exit, but for `main`.
fn exit_outs(alloc: Global, source: StepSource) -> Result<Items<WayOut>, FormulaError>
    requires { IsStepSource source }
    ensures { IfOk result (λ outs. outs ≡ own_exits source.entry) }
{
    let mut outs = Items::new(alloc);
    if source.proc != source.program.main {
        let columns = columns_of(source);
        let way = formula_at(alloc, columns, source.cells, source.graph.nodes - 1)?;
        add_out(alloc, Target::Exit, way, &mut outs)?;
    }
    Ok(outs)
}

// ---- assertions

/// The ways to the assertions, in the order of the graph.
fn check_outs(alloc: Global, source: StepSource) -> Result<Items<WayOut>, FormulaError>
    requires { IsStepSource source }
    ensures { IfOk result (λ outs. outs ≡ own_checks source.entry) }
{
    let checks = source.graph.checks.as_slice();
    // No memory has so many assertions.
    if checks.len() > u32::MAX as usize {
        return Err(FormulaError::Memory);
    }
    let mut outs = Items::new(alloc);
    for (number, check) in checks.iter().enumerate() {
        add_check(alloc, source, number as u32, check, &mut outs)?;
    }
    Ok(outs)
}

/// Adds that to an assertion, if no head is entered on the way to it.
fn add_check(
    alloc: Global,
    source: StepSource,
    number: u32,
    check: &CheckNode,
    outs: &mut Items<WayOut>,
) -> Result<(), FormulaError>
    requires source { IsStepSource source }
    requires there { check.now.node < source.graph.now.nodes }
    ensures { OnOk result
        (outs.new ≡ outs.old ++ outs_by_check source.entry number (check_of check.now)) }
{
    if is_passed(source.heads, source.node, check.node) {
        let columns = columns_of(source);
        let way = formula_at(alloc, columns, source.cells, check.node)?;
        add_out(alloc, Target::Check(number), way, outs)?;
    }
    Ok(())
}
