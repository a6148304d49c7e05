ghost use Rattle.std.specs.Prelude.{◌≡◌, ◌+◌, ◌≤◌, ◌<◌, ◌^◌, ◌++◌, ℤ, List, length, All, IfOk, OnOk, OnErr};
ghost use Rattle.flow_graph.specs.Plain.{statement_of_act};
ghost use Rattle.flow_graph.specs.Walks.{EdgeRelates};
ghost use Rattle.syntax_tree.specs.WellFormed.{IsWellFormed};
ghost use Rattle.transition_formula.specs.Meaning.{Holds};
ghost use Rattle.leaf_cases.specs.Conditions.{columns_at, AreKnown, IsActOf, KnownCalls};
ghost use Rattle.leaf_cases.specs.Edges.{leaf_of, losses_in_leaf};

use crate::assignment::{any, nothing, set};
use crate::call::{LeafWidths, call};
use crate::guard::truth;
use flow_graph::Act;
use items::Items;
use std::alloc::Global;
use syntax_tree::Program;
use transition_formula::{Formula, FormulaError, Loss};

/// The formula of an edge of a procedure's graph, by the known formulas of the procedures. A call
/// of a procedure without a known formula has no cases. What is lost is noted after the losses that
/// are there; after an error nothing is noted.
pub fn leaf(
    alloc: Global,
    program: &Program,
    proc: u32,
    act: &Act,
    known: &[Option<Formula>],
    losses: &mut Items<Loss>,
) -> Result<Formula, FormulaError>
    requires formed { IsWellFormed program.now }
    requires procedure { proc < length program.now.procs }
    requires edge { IsActOf program.now proc (statement_of_act act.now) }
    requires known { AreKnown program.now known.now }
    ensures exact { IfOk result
        (λ f. f ≡ leaf_of (columns_at program.now proc) (length program.now.globals) known.now
        (statement_of_act act.now)) }
    ensures noted { OnOk result
        (losses.new ≡ losses.old ++ losses_in_leaf (columns_at program.now proc)
        (length program.now.globals) known.now (statement_of_act act.now)) }
    ensures kept { OnErr result (losses.new ≡ losses.old) }
    ensures cases { IfOk result (λ f. length f.cases ≤ 4096) }
    ensures few { IfOk result (λ f. All (λ case. case.aux < 2 ^ 31) f.cases) }
    ensures at_least { (before after : List ℤ)
        → IfOk result (λ f. length before ≡ columns_at program.now proc
        → EdgeRelates (KnownCalls known.now) (length program.now.globals) (statement_of_act act.now)
        before after → Holds f before after) }
    ensures at_most { (before after : List ℤ) → losses.new ≡ losses.old
        → IfOk result (λ f. Holds f before after
        → EdgeRelates (KnownCalls known.now) (length program.now.globals) (statement_of_act act.now)
        before after) }
{
    let mut lost = Items::new(alloc);
    let formula = act_formula(alloc, program, proc, act, known, &mut lost)?;
    losses.append(lost)?;
    Ok(formula)
}

/// The formula, and what is noted.
fn act_formula(
    alloc: Global,
    program: &Program,
    proc: u32,
    act: &Act,
    known: &[Option<Formula>],
    losses: &mut Items<Loss>,
) -> Result<Formula, FormulaError>
    requires formed { IsWellFormed program.now }
    requires procedure { proc < length program.now.procs }
    requires edge { IsActOf program.now proc (statement_of_act act.now) }
    requires known { AreKnown program.now known.now }
    ensures exact { IfOk result
        (λ f. f ≡ leaf_of (columns_at program.now proc) (length program.now.globals) known.now
        (statement_of_act act.now)) }
    ensures noted { OnOk result
        (losses.new ≡ losses.old ++ losses_in_leaf (columns_at program.now proc)
        (length program.now.globals) known.now (statement_of_act act.now)) }
{
    let widths = widths_of(program, proc);
    match act {
        Act::Guard(cond) => truth(alloc, cond, widths.columns, losses),
        Act::Set(col, value) => set(alloc, widths.columns, *col, value, losses),
        Act::Any(col) => any(alloc, widths.columns, *col),
        Act::Call { proc, args, into } => match &known[*proc as usize] {
            Some(callee) => {
                let formula = call(alloc, widths, args.as_slice(), *into, callee, losses)?;
                Ok(formula)
            }
            None => Ok(nothing(alloc, widths.columns)),
        },
    }
}

/// How many columns and globals the states of a procedure have.
fn widths_of(program: &Program, proc: u32) -> LeafWidths
    requires formed { IsWellFormed program.now }
    requires procedure { proc < length program.now.procs }
    ensures columns { result.columns ≡ columns_at program.now proc }
    ensures globals { result.globals ≡ length program.now.globals }
{
    let own = own_columns(program, proc);
    let globals = program.globals.len() as u32;
    LeafWidths {
        columns: globals + own + 1,
        globals,
    }
}

/// How many columns a procedure has between the globals and the returned value.
fn own_columns(program: &Program, proc: u32) -> u32
    requires formed { IsWellFormed program.now }
    requires procedure { proc < length program.now.procs }
    ensures columns { columns_at program.now proc ≡ length program.now.globals + result + 1 }
    ensures few { result ≤ 24 }
{
    let p = &program.procs.as_slice()[proc as usize];
    p.columns.len() as u32
}
