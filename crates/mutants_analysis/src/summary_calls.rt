ghost use Rattle.std.specs.Prelude.{◌≡◌, ◌<◌, length, IfOk};
ghost use Rattle.syntax_tree.specs.WellFormed.{IsWellFormed};
ghost use Rattle.syntax_tree.specs.declared.program.Proc.{Proc as Procedure};
ghost use Rattle.leaf_cases.specs.Conditions.{AreKnown, IsKnown};
ghost use Rattle.leaf_cases.specs.Summaries.{AreMet, SummaryIsMet};
ghost use Rattle.posing.specs.Follows.{Asks};
ghost use Rattle.vocabularies.specs.Ends.{entry_of};
ghost use Rattle.vocabularies.specs.Harvest.{harvest_of};
ghost use Rattle.vocabularies.specs.Procs.{IsProcOf};
ghost use Rattle.proc_summary.specs.Claims.{FitsFlow, FlowHolds, KnowsCallees};
ghost use Rattle.proc_summary.specs.Flow.{flow_from};
ghost use Rattle.proc_summary.specs.Subject.{subject_of};
ghost use Rattle.proc_summary.specs.Summary.{ends_of, summary_from};

use farkas_check::Oracle;
use items::Items;
use linear_terms::Poly;
use polyhedra::{Log, Vocabulary, WorkError};
use proc_summary::Flow;
use std::alloc::{AllocError, Global};
use syntax_tree::Program;
use transition_formula::Formula;

/// The first 32 different linear terms that a procedure compares.
pub fn harvest(alloc: Global, program: &Program, proc: u32) -> Result<Items<Poly>, AllocError>
    requires { proc < length program.now.procs }
    ensures { (p : Procedure) → IsProcOf program.now proc p
        → IfOk result (λ terms. terms ≡ harvest_of p.body) }
{
    vocabularies::harvest(alloc, program, proc)
}

/// The vocabulary at the entry of a procedure.
pub fn entry(alloc: Global, program: &Program, proc: u32) -> Result<Vocabulary, AllocError>
    requires formed { IsWellFormed program.now }
    requires there { proc < length program.now.procs }
    ensures { (p : Procedure) → IsProcOf program.now proc p
        → IfOk result (λ voc. voc ≡ entry_of program.now p) }
{
    vocabularies::entry(alloc, program, proc)
}

/// The flow of a procedure whose callees are known.
pub fn flow<O: Oracle>(
    alloc: Global,
    program: &Program,
    proc: u32,
    known: &[Option<Formula>],
    oracle: &mut O,
    log: &mut Log,
) -> Result<Flow, WorkError>
    requires formed { IsWellFormed program.now }
    requires procedure { proc < length program.now.procs }
    requires known { AreKnown program.now known.now }
    requires callees { (p : Procedure) → IsProcOf program.now proc p
        → KnowsCallees p known.now }
    ensures follows { (p : Procedure) → IsProcOf program.now proc p
        → Asks O.asking oracle log result (flow_from (subject_of program.now p known.now)) }
    ensures fits { (p : Procedure) → IsProcOf program.now proc p
        → IfOk result (FitsFlow program.now p) }
    ensures holds { AreMet program.now known.now → IfOk result (FlowHolds program.now proc) }
{
    proc_summary::flow(alloc, program, proc, known, oracle, log)
}

/// The summary of a procedure by its flow.
pub fn project<O: Oracle>(
    alloc: Global,
    program: &Program,
    proc: u32,
    flow: &Flow,
    oracle: &mut O,
    log: &mut Log,
) -> Result<Formula, WorkError>
    requires formed { IsWellFormed program.now }
    requires procedure { proc < length program.now.procs }
    requires flow { (p : Procedure) → IsProcOf program.now proc p
        → FitsFlow program.now p flow.now }
    ensures follows { (p : Procedure) → IsProcOf program.now proc p
        → Asks O.asking oracle log result
        (summary_from (ends_of program.now p) flow.now.exit.formula) }
    ensures known { (p : Procedure) → IsProcOf program.now proc p
        → IfOk result (IsKnown program.now p) }
    ensures met { FlowHolds program.now proc flow.now
        → IfOk result (SummaryIsMet program.now proc) }
{
    proc_summary::project(alloc, program, proc, flow, oracle, log)
}
