ghost use Rattle.std.specs.Prelude.{IfOk, IfSome};
ghost use Rattle.posing.specs.Follows.{Asks};
ghost use Rattle.analysis.specs.Apart.{apart};
ghost use Rattle.analysis.specs.Claims.{FoundReportHolds};
ghost use Rattle.point_rounds.specs.Closed.{StatesHold, TellCalls};
ghost use Rattle.point_rounds.specs.Source.{IsRoundSource};
ghost use Rattle.point_rounds.specs.Table.{IsTable};
ghost use Rattle.point_search.specs.declared.found.FoundTable.{FoundTable as Found};
ghost use Rattle.point_reports.specs.Parts.{CoversRound, FitsRound, IsKnownAtPoints, IsPointGround, IsTrueRound};
ghost use Rattle.point_reports.specs.Proof.{rounds_of, rounds_on};

use analysis::{FoundReport, Standing};
use farkas_check::Oracle;
use finder::Finder;
use items::Items;
use point_rounds::{PointRound, PointTable, RoundSource, last_round};
use point_search::{FoundTable, found_table};
use point_states::point_states;
use posing::{Log, Note, WorkError};
use std::alloc::Global;
use std::mem;
use syntax_tree::Program;

/// A program with its graphs, the heads of these, and what is found of it.
#[derive(Clone, Copy)]
pub(crate) struct PointGround<'a> {
    pub(crate) program: &'a Program,
    pub(crate) standing: &'a Standing,
    pub(crate) heads: &'a [Items<u32>],
    pub(crate) made: &'a FoundReport,
}

/// What the last round leaves of the table that was found, none where the search for one was given
/// up, and whether that was cut.
#[derive(Drop)]
pub(crate) struct RoundsTold {
    pub(crate) round: Option<PointRound>,
    pub(crate) is_cut: bool,
}

/// What is told of the rounds, and the notes of finding it. The log gains the answers, and no notes.
pub(crate) fn rounds_apart<O: Oracle>(
    alloc: Global,
    ground: PointGround<'_>,
    oracle: &mut O,
    searcher: Finder,
    log: &mut Log,
) -> Result<(RoundsTold, Items<Note>), WorkError>
    requires { IsPointGround ground }
    ensures follows { (found : Found) × Asks O.asking oracle log result
        (apart (rounds_on ground.entry.program.now ground.entry.made.now found)) }
    ensures fits { IfOk result
        (λ left. IfSome left.0.round (FitsRound ground.entry.program.now)) }
    ensures known { FoundReportHolds ground.entry.program.now ground.entry.made.now
        → IfOk result (λ left. IfSome left.0.round (IsKnownAtPoints ground.entry.program.now)) }
{
    let others = mem::replace(&mut log.notes, Items::new(alloc));
    let result = rounds_on(alloc, ground, oracle, searcher, log);
    let notes = mem::replace(&mut log.notes, others);
    Ok((result?, notes))
}

/// The states of points, and then the rounds on the table that is found.
#[tactic(auto, using(posing::proofs::Following::following), unfolding(crate::specs::Proof::rounds_on))]
fn rounds_on<O: Oracle>(
    alloc: Global,
    ground: PointGround<'_>,
    oracle: &mut O,
    searcher: Finder,
    log: &mut Log,
) -> Result<RoundsTold, WorkError>
    requires { IsPointGround ground }
    ensures follows { (found : Found) × Asks O.asking oracle log result
        (rounds_on ground.entry.program.now ground.entry.made.now found) }
    ensures fits { IfOk result
        (λ left. IfSome left.round (FitsRound ground.entry.program.now)) }
    ensures known { FoundReportHolds ground.entry.program.now ground.entry.made.now
        → IfOk result (λ left. IfSome left.round (IsKnownAtPoints ground.entry.program.now)) }
{
    let made = ground.made;
    let states = point_states(
        alloc,
        ground.program,
        made.entries.as_slice(),
        made.flows.as_slice(),
        oracle,
        log,
    )?;
    let source = RoundSource {
        program: ground.program,
        graphs: ground.standing.graphs.as_slice(),
        heads: ground.heads,
        known: made.known.as_slice(),
        states: states.as_slice(),
    };
    let FoundTable { table, is_cut } = found_table(alloc, source, searcher)?;
    let round = rounds_of(alloc, source, table, oracle, log)?;
    Ok(RoundsTold { round, is_cut })
}

/// The rounds on a table, if there is one.
fn rounds_of<O: Oracle>(
    alloc: Global,
    source: RoundSource<'_>,
    table: Option<PointTable>,
    oracle: &mut O,
    log: &mut Log,
) -> Result<Option<PointRound>, WorkError>
    requires source { IsRoundSource source }
    requires table { IfSome table (IsTable source.program.now) }
    ensures follows { Asks O.asking oracle log result
        (rounds_of source.entry.program.now source.entry.known.now source.entry.states.now table) }
    ensures fits { IfOk result
        (λ left. IfSome left (FitsRound source.entry.program.now)) }
    ensures covers { IfOk result (λ left. IfSome left
        (CoversRound source.entry.program.now source.entry.known.now source.entry.states.now)) }
    ensures holds { TellCalls source.entry.program.now source.entry.known.now
        → StatesHold source.entry.program.now source.entry.states.now
        → IfOk result (λ left. IfSome left (IsTrueRound source.entry.program.now)) }
{
    match table {
        Some(table) => {
            let round = last_round(alloc, source, table, oracle, log)?;
            Ok(Some(round))
        }
        None => Ok(None),
    }
}
