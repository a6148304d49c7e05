ghost use Rattle.std.specs.Prelude.{◌<◌, ◌≤◌, ◌↔◌, All, length, IfOk, IsTrue};
ghost use Rattle.syntax_tree.specs.WellFormed.{IsWellFormed};
ghost use Rattle.posing.specs.Follows.{Asks};
ghost use Rattle.leaf_cases.specs.Conditions.{AreKnown};
ghost use Rattle.leaf_cases.specs.Summaries.{AreMet};
ghost use Rattle.newton_rounds.specs.Claims.{AreKnownMembers, AreMetMembers, TellsLinear};
ghost use Rattle.newton_rounds.specs.Close.{group_closure};
ghost use Rattle.newton_rounds.specs.Laws.{KnowsOthers};
ghost use Rattle.newton_rounds.specs.Members.{IsLinear};

use farkas_check::Oracle;
use flow_graph::Group;
use items::Items;
use posing::{Log, WorkError};
use std::alloc::Global;
use syntax_tree::Program;
use transition_formula::Formula;

/// Whether no call of a group can follow another in one activation.
pub fn is_linear(alloc: Global, program: &Program, group: &Group) -> Result<bool, WorkError>
    requires formed { IsWellFormed program.now }
    requires there { All (λ proc. proc < length program.now.procs) group.now.procs }
    ensures { IfOk result (λ linear. IsTrue linear ↔ IsLinear program.now group.now.procs) }
{
    newton_rounds::is_linear(alloc, program, group)
}

/// The summaries of a recursive group.
pub fn close<O: Oracle>(
    alloc: Global,
    program: &Program,
    procs: &[u32],
    known: &[Option<Formula>],
    linear: bool,
    oracle: &mut O,
    log: &mut Log,
) -> Result<Items<Formula>, WorkError>
    requires formed { IsWellFormed program.now }
    requires there { All (λ proc. proc < length program.now.procs) procs.now }
    requires few { length procs.now ≤ length program.now.procs }
    requires known { AreKnown program.now known.now }
    requires linear { TellsLinear program.now procs.now linear }
    ensures follows { Asks O.asking oracle log result
        (group_closure linear program.now procs.now known.now) }
    ensures known { IfOk result (AreKnownMembers program.now procs.now) }
    ensures met { AreMet program.now known.now → KnowsOthers program.now procs.now known.now
        → IfOk result (AreMetMembers program.now procs.now) }
{
    newton_rounds::close(alloc, program, procs, known, linear, oracle, log)
}
