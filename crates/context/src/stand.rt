ghost use Rattle.std.specs.Prelude.{◌≡◌, ◌<◌, ◌≤◌, ◌++◌, Some, length, map, IfOk, OnOk};
ghost use Rattle.syntax_tree.specs.Term.{term_of};
ghost use Rattle.syntax_tree.specs.WellFormed.{IsWellFormed};
ghost use Rattle.syntax_tree.specs.declared.program.Proc.{Proc as Procedure};
ghost use Rattle.vocabularies.specs.Procs.{IsProcOf};
ghost use Rattle.proc_summary.specs.Claims.{FitsIf, IsBetweenStates};
ghost use Rattle.context.specs.Entries.{call_leaf, losses_in_call, stand_of, widths_of};
ghost use Rattle.context.specs.Made.{AreArguments, AreWidths};

use items::Items;
use leaf_cases::call_entry;
use std::alloc::Global;
use syntax_tree::{Core, Program};
use transition_formula::{Formula, FormulaError, Loss, hidden, seq};

/// How many columns the states of a procedure have, how many of these its entry has, and how many
/// are globals.
#[derive(Clone, Copy, Debug, PartialEq, Eq)]
pub(crate) struct Widths {
    pub(crate) columns: u32,
    pub(crate) entry: u32,
    pub(crate) globals: u32,
}

pub(crate) fn widths_of(program: &Program, proc: u32) -> Widths
    requires formed { IsWellFormed program.now }
    requires procedure { proc < length program.now.procs }
    ensures exact { (p : Procedure) → IsProcOf program.now proc p
        → result ≡ widths_of program.now p }
    ensures known { AreWidths result }
{
    let p = &program.procs.as_slice()[proc as usize];
    let globals = program.globals.len() as u32;
    Widths {
        columns: globals + p.columns.len() as u32 + 1,
        entry: globals + p.params,
        globals,
    }
}

/// The formula, or one without a case.
pub(crate) fn stand_of(
    alloc: Global,
    columns: u32,
    stand: &Option<Formula>,
) -> Result<Formula, FormulaError>
    requires { FitsIf columns stand.now }
    ensures exact { IfOk result (λ f. f ≡ stand_of columns stand.now) }
    ensures fits { IfOk result (IsBetweenStates columns) }
{
    match stand {
        Some(f) => Ok(f.clone()?),
        None => Ok(Formula::from_cases(columns, columns, Items::new(alloc))),
    }
}

/// From the entry of a procedure to where a call stands, with the entry's other columns as
/// auxiliaries, and then to the globals and the arguments of the callee. Losses are noted behind
/// those that are there.
pub(crate) fn call_leaf(
    alloc: Global,
    widths: Widths,
    stand: &Option<Formula>,
    args: &[Core],
    losses: &mut Items<Loss>,
) -> Result<Formula, FormulaError>
    requires widths { AreWidths widths }
    requires stand { FitsIf widths.columns stand.now }
    requires arguments { AreArguments widths.columns (map term_of args.now) }
    ensures exact { IfOk result (λ f. f ≡ call_leaf widths stand.now (map term_of args.now)) }
    ensures noted { OnOk result
        (losses.new ≡ losses.old ++ losses_in_call widths stand.now (map term_of args.now)) }
{
    let stand = stand_of(alloc, widths.columns, stand)?;
    let told = hidden(alloc, &stand, widths.entry, losses)?;
    let handing = call_entry(alloc, widths.columns, widths.globals, args, losses)?;
    let leaf = seq(alloc, &told, &handing, losses)?;
    Ok(leaf)
}
