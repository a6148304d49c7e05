ghost use Rattle.std.specs.Prelude.{◌≡◌, ◌<◌, length, IfOk};
ghost use Rattle.syntax_tree.specs.Code.{code_of};
ghost use Rattle.syntax_tree.specs.WellFormed.{IsWellFormed, width_of};
ghost use Rattle.syntax_tree.specs.declared.program.Proc.{Proc as Procedure};
ghost use Rattle.flow_graph.specs.FlowGraph.{exit_of};
ghost use Rattle.posing.specs.Follows.{Asks};
ghost use Rattle.vocabularies.specs.Procs.{IsProcOf};
ghost use Rattle.leaf_cases.specs.Conditions.{AreKnown};
ghost use Rattle.proc_summary.specs.Claims.{FitsIf};
ghost use Rattle.proc_summary.specs.Subject.{subject_of};
ghost use Rattle.newton_rounds.specs.Closure.{exit_from};

use crate::sides::columns_of;
use farkas_check::Oracle;
use flow_graph::graph;
use posing::{Log, WorkError};
use proc_summary::{cells, formula_at};
use std::alloc::{AllocError, Global};
use syntax_tree::Program;
use transition_formula::Formula;

/// What holds at the exit of a procedure, by one evaluation from its entry.
#[tactic(auto, using(posing::proofs::Following::following), unfolding(crate::specs::Closure::exit_from))]
pub(crate) fn exit_from<O: Oracle>(
    alloc: Global,
    program: &Program,
    proc: u32,
    known: &[Option<Formula>],
    oracle: &mut O,
    log: &mut Log,
) -> Result<Option<Formula>, WorkError>
    requires formed { IsWellFormed program.now }
    requires procedure { proc < length program.now.procs }
    requires known { AreKnown program.now known.now }
    ensures follows { (p : Procedure) → IsProcOf program.now proc p
        → Asks O.asking oracle log result (exit_from (subject_of program.now p known.now)) }
    ensures fits { (p : Procedure) → IsProcOf program.now proc p
        → IfOk result (FitsIf (width_of program.now p)) }
{
    let columns = columns_of(program, proc);
    let exit = exit_node(alloc, program, proc)?;
    let cells = cells(alloc, program, proc, known, 0, oracle, log)?;
    Ok(formula_at(alloc, columns, cells.as_slice(), exit)?)
}

/// The exit of a procedure, the last node of its flow graph.
fn exit_node(alloc: Global, program: &Program, proc: u32) -> Result<u32, AllocError>
    requires formed { IsWellFormed program.now }
    requires procedure { proc < length program.now.procs }
    ensures { (p : Procedure) → IsProcOf program.now proc p
        → IfOk result (λ node. node ≡ exit_of (code_of p.body)) }
{
    let graph = graph(alloc, program, proc)?;
    Ok(graph.nodes - 1)
}
