ghost use Rattle.std.specs.Prelude.{◌≡◌, IfOk};
ghost use Rattle.posing.specs.Follows.{Asks};
ghost use Rattle.point_induction.specs.Induction.{AreTrue};
ghost use Rattle.point_rounds.specs.Closed.{AreStepsFrom, CoverTable, StatesHold, TellCalls};
ghost use Rattle.point_rounds.specs.Parts.{IsRoundOf};
ghost use Rattle.point_rounds.specs.Rounds.{last_round, round};
ghost use Rattle.point_rounds.specs.Sayings.{sayings_of_table};
ghost use Rattle.point_rounds.specs.Source.{IsRoundSource};
ghost use Rattle.point_rounds.specs.Table.{IsTable};

use crate::falling::fallen_rows;
use crate::left::table_left;
use crate::round::PointRound;
use crate::source::RoundSource;
use crate::stepping::steps_by_table;
use crate::table::PointTable;
use farkas_check::Oracle;
use items::Items;
use posing::{Log, WorkError};
use std::alloc::Global;

/// What the last round leaves of a table, after rounds until none drops a row. In a round the steps
/// are made by the table as it stands, and all rows that fall by them are dropped at its end. Where
/// the known formulas are met and the states hold, the rows that are left are true in every
/// execution from `main`.
///
/// # Errors
///
/// A question that the oracle refused, or want of memory.
pub fn last_round<O: Oracle>(
    alloc: Global,
    source: RoundSource,
    table: PointTable,
    oracle: &mut O,
    log: &mut Log,
) -> Result<PointRound, WorkError>
    requires source { IsRoundSource source }
    requires table { IsTable source.program.now table }
    ensures follows { Asks O.asking oracle log result
        (last_round source.entry.program.now source.entry.known.now source.entry.states.now
        table) }
    ensures fits { IfOk result (λ left. IsTable source.entry.program.now left.table) }
    ensures steps { IfOk result (λ left. AreStepsFrom source.entry.program.now left.steps) }
    ensures covers { IfOk result
        (λ left. CoverTable source.entry.program.now source.entry.known.now
        source.entry.states.now left.steps left.table) }
    ensures holds { TellCalls source.entry.program.now source.entry.known.now
        → StatesHold source.entry.program.now source.entry.states.now
        → IfOk result
        (λ left. AreTrue source.entry.program.now
        (sayings_of_table source.entry.program.now left.table)) }
{
    let mut left = PointRound {
        table,
        steps: Items::new(alloc),
    };
    let mut fell = true;
    while fell {
        let (next, more) = round(alloc, source, table_of(left), oracle, log)?;
        left = next;
        fell = more;
    }
    Ok(left)
}

/// One round on a table: all rows that fall are dropped together at its end. It tells whether any
/// fell.
#[tactic(auto, using(posing::proofs::Following::following), unfolding(crate::specs::Rounds::round))]
fn round<O: Oracle>(
    alloc: Global,
    source: RoundSource,
    table: PointTable,
    oracle: &mut O,
    log: &mut Log,
) -> Result<(PointRound, bool), WorkError>
    requires source { IsRoundSource source }
    requires table { IsTable source.program.now table }
    ensures follows { Asks O.asking oracle log result
        (round source.entry.program.now source.entry.known.now source.entry.states.now table) }
    ensures made { IfOk result (IsRoundOf source.entry table) }
{
    let steps = steps_by_table(alloc, source, &table, oracle, log)?;
    let fell = fallen_rows(alloc, source, &table, steps.as_slice(), oracle, log)?;
    let table = table_left(alloc, source, fell.as_slice(), table)?;
    Ok((PointRound { table, steps }, !fell.is_empty()))
}

fn table_of(left: PointRound) -> PointTable
    ensures { result ≡ left.table }
{
    let PointRound {
        table,
        steps: _steps,
    } = left;
    table
}
