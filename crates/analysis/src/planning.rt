ghost use Rattle.std.specs.Prelude.{◌<◌, All, length, IfOk};
ghost use Rattle.syntax_tree.specs.WellFormed.{IsWellFormed};
ghost use Rattle.analysis.specs.Plan.{IsKindOf, IsPlan, IsPlannedOf};

use flow_graph::{Group, groups};
use items::Items;
use newton_rounds::is_linear;
use std::alloc::Global;
use syntax_tree::Program;
use transition_formula::FormulaError;

/// How the summaries of a group are found.
#[derive(Clone, Copy, Debug, PartialEq, Eq)]
pub enum GroupKind {
    /// A procedure that does not reach itself, by its flow.
    Plain,
    /// By the chains of calls, where no call of the group follows another in one activation.
    Linear,
    /// By rounds that drop rows of candidates.
    Rounds,
}

/// A group of procedures, in the order of the text, and how their summaries are found.
#[derive(Debug, Drop)]
pub struct Planned {
    pub procs: Items<u32>,
    pub kind: GroupKind,
}

/// The groups of a program in the order in which they are summed up. The one error is want of
/// memory.
pub fn plan(alloc: Global, program: &Program) -> Result<Items<Planned>, FormulaError>
    requires { IsWellFormed program.now }
    ensures { IfOk result (IsPlan program.now) }
{
    let Ok(groups) = groups(alloc, program) else {
        return Err(FormulaError::Memory);
    };
    let mut plan = Items::new(alloc);
    for group in groups.as_slice() {
        plan.push(group_plan(alloc, program, group)?)?;
    }
    Ok(plan)
}

fn group_plan(alloc: Global, program: &Program, group: &Group) -> Result<Planned, FormulaError>
    requires formed { IsWellFormed program.now }
    requires there { All (λ proc. proc < length program.now.procs) group.now.procs }
    ensures { IfOk result (IsPlannedOf program.now group.now) }
{
    let kind = kind_of(alloc, program, group)?;
    let procs = Items::from_slice(alloc, group.procs.as_slice())?;
    Ok(Planned { procs, kind })
}

fn kind_of(alloc: Global, program: &Program, group: &Group) -> Result<GroupKind, FormulaError>
    requires formed { IsWellFormed program.now }
    requires there { All (λ proc. proc < length program.now.procs) group.now.procs }
    ensures { IfOk result (IsKindOf program.now group.now) }
{
    if !group.recursive {
        return Ok(GroupKind::Plain);
    }
    match is_linear(alloc, program, group) {
        Ok(true) => Ok(GroupKind::Linear),
        Ok(false) => Ok(GroupKind::Rounds),
        Err(_) => Err(FormulaError::Memory),
    }
}
