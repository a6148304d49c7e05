ghost use Rattle.std.specs.Prelude.{◌≡◌, ◌+◌, ◌<◌, ◌^◌, ◌++◌, IfOk, OnOk};
ghost use Rattle.transition_formula.specs.Composition.{losses_in_sequence, sequence_of};
ghost use Rattle.transition_formula.specs.Transition.{AreFew};
ghost use Rattle.proc_summary.specs.Claims.{FitsIf};
ghost use Rattle.proc_summary.specs.Summary.{exit_formula};
ghost use Rattle.newton_rounds.specs.Pairs.{along, carrying, losses_in_pair, pair_formula, stations_of};
ghost use Rattle.newton_rounds.specs.Shapes.{IsStretchBetween, losses_on_the_way, stretch_of};

use crate::calls::{GroupCall, Sides};
use crate::ends::{PairEnds, numbers_from};
use crate::pairs::{entry_told, exit_formula};
use crate::returning::call_exit;
use crate::stations::{call_entry, carrying};
use items::Items;
use std::alloc::Global;
use transition_formula::{Formula, FormulaError, Loss, equated_formula, seq, with_posts};

/// The formulas between the stations of a call, one after another. The losses of each are noted
/// where it is made, those of the sequences behind them.
fn along(
    alloc: Global,
    caller: &PairEnds,
    callee: &PairEnds,
    call: &GroupCall,
    sides: &Sides,
    lost: &mut Items<Loss>,
) -> Result<Formula, FormulaError>
    requires { IsStretchBetween caller.now callee.now (stretch_of call.now sides.now) }
    ensures made { IfOk result
        (λ f. f ≡ along (stations_of caller.now callee.now (stretch_of call.now sides.now))) }
    ensures noted { OnOk result
        (lost.new ≡ lost.old ++ losses_on_the_way caller.now callee.now
        (stretch_of call.now sides.now)) }
{
    let first = entry_told(alloc, caller, &sides.before, lost)?;
    let second = call_entry(alloc, caller, call, lost)?;
    let entered = seq(alloc, &first, &second, lost)?;
    along_from_entry(alloc, caller, callee, call, sides, &entered, lost)
}

/// The same, by what leads to the callee's entry.
fn along_from_entry(
    alloc: Global,
    caller: &PairEnds,
    callee: &PairEnds,
    call: &GroupCall,
    sides: &Sides,
    entered: &Formula,
    lost: &mut Items<Loss>,
) -> Result<Formula, FormulaError>
    requires stretch { IsStretchBetween caller.now callee.now (stretch_of call.now sides.now) }
    requires entered { entered.now
        ≡ sequence_of (stations_of caller.now callee.now (stretch_of call.now sides.now)).first
        (stations_of caller.now callee.now (stretch_of call.now sides.now)).second }
    requires third { AreFew entered.now
        (stations_of caller.now callee.now (stretch_of call.now sides.now)).third }
    requires fourth { AreFew
        (sequence_of entered.now
        (stations_of caller.now callee.now (stretch_of call.now sides.now)).third)
        (stations_of caller.now callee.now (stretch_of call.now sides.now)).fourth }
    ensures made { IfOk result
        (λ f. f ≡ along (stations_of caller.now callee.now (stretch_of call.now sides.now))) }
    ensures noted { OnOk result
        (lost.new ≡ (lost.old ++ losses_in_sequence entered.now
        (stations_of caller.now callee.now (stretch_of call.now sides.now)).third)
        ++ losses_in_sequence
        (sequence_of entered.now
        (stations_of caller.now callee.now (stretch_of call.now sides.now)).third)
        (stations_of caller.now callee.now (stretch_of call.now sides.now)).fourth) }
{
    let columns = caller.full.columns();
    let entry = caller.globals + call.args.len() as u32;
    let exit = callee.exit.columns();
    let third = call_exit(alloc, columns, caller.globals, call.into, entry, exit)?;
    let returned = seq(alloc, entered, &third, lost)?;
    let fourth = carried_exit(alloc, columns, entry + exit, &sides.after)?;
    seq(alloc, &returned, &fourth, lost)
}

/// From where a call ends to the caller's exit, with so many columns that stay as they are.
fn carried_exit(
    alloc: Global,
    columns: u32,
    more: u32,
    f: &Option<Formula>,
) -> Result<Formula, FormulaError>
    requires fits { FitsIf columns f.now }
    requires few { columns + more < 2 ^ 32 }
    ensures { IfOk result (λ g. g ≡ carrying columns more (exit_formula columns f.now)) }
{
    let rest = exit_formula(alloc, columns, f)?;
    carrying(alloc, columns, more, &rest)
}

/// The formula of a call, from the caller's pair to the callee's. Each loss is noted after those
/// that are there. After an error more may be noted.
pub(crate) fn pair_formula(
    alloc: Global,
    caller: &PairEnds,
    callee: &PairEnds,
    call: &GroupCall,
    sides: &Sides,
    lost: &mut Items<Loss>,
) -> Result<Formula, FormulaError>
    requires { IsStretchBetween caller.now callee.now (stretch_of call.now sides.now) }
    ensures made { IfOk result
        (λ f. f ≡ pair_formula caller.now callee.now (stretch_of call.now sides.now)) }
    ensures noted { OnOk result
        (lost.new ≡ lost.old ++ losses_in_pair caller.now callee.now
        (stretch_of call.now sides.now)) }
{
    let whole = along(alloc, caller, callee, call, sides, lost)?;
    let told = caller.exit_places(alloc)?;
    let first = caller.entry.columns();
    let equal = equated_formula(alloc, &whole, first, told.as_slice(), lost)?;
    let width = caller.globals + call.args.len() as u32 + callee.exit.columns();
    let places = numbers_from(alloc, caller.full.columns(), width)?;
    with_posts(alloc, &equal, places.as_slice())
}
