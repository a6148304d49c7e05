ghost use Rattle.std.specs.Option.{option_copied};
ghost use Rattle.syntax_tree.specs.WellFormed.{IsWellFormed};
ghost use Rattle.std.specs.Prelude.{IfOk};
ghost use Rattle.analysis.specs.Plan.{IsPlan};
ghost use Rattle.analysis_laws.specs.Laws.{IsWhole};
ghost use Rattle.kept_groups.specs.Kept.{AreKeptIf, Anything};
ghost use Rattle.kept_groups.specs.Outcomes.{FindsOver};

use analysis::Planned;
use farkas_check::Oracle;
use kept_groups::{FoundParts, KeptGroups, Steps};
use posing::WorkError;
use std::alloc::Global;
use std::sync::ledger::Ledger;
use syntax_tree::Program;

/// What is found of all groups of a plan, where groups of another program may be kept.
pub fn findings_over<O: Oracle, L: Ledger>(
    alloc: Global,
    program: &Program,
    plan: &[Planned],
    kept: Option<&KeptGroups>,
    oracle: &mut O,
    steps: &mut Steps<L>,
) -> Result<FoundParts, WorkError>
    requires formed { IsWellFormed program.now }
    requires plan { IsPlan program.now plan.now }
    requires kept { AreKeptIf Anything (option_copied kept) }
    ensures comes { FindsOver O.asking (option_copied kept.entry) program.now plan.now oracle.old
        oracle.new
        steps.old steps.new result }
    ensures whole { IfOk result (λ made. IsWhole program.now made.found) }
{
    kept_groups::findings_over(alloc, program, plan, kept, oracle, steps)
}
