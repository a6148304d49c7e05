ghost use Rattle.std.specs.Prelude.{IfOk, IfSome};
ghost use Rattle.point_rounds.specs.Source.{IsRoundSource};
ghost use Rattle.point_rounds.specs.Table.{IsTable};

use crate::arrivals::all_arrivals;
use crate::counts::{MOST_MAKINGS, SearchLeft};
use crate::dropping::{CaseSeen, drop_rows, unseen};
use crate::places::{PlaceNumbers, RowsLeft, empty_places, entry_numbers, put_left, rows_left};
use crate::steps::{OwnSteps, make_all, make_next, mark_stale, no_steps};
use crate::strongest::strongest;
use crate::tables::{PlacesLeft, proc_count, table_of};
use crate::texts::program_texts;
use crate::tried::{TriedSource, put_exit_bounds, put_exit_rows, put_point_rows};
use finder::Finder;
use items::Items;
use point_rounds::{PointTable, RoundSource, RowPlace};
use std::alloc::{AllocError, Global};
use std::mem;

/// A table of rows that was found, none where the search was given up, and whether it was cut, so
/// that rows may be missing.
#[derive(Drop)]
pub struct FoundTable {
    pub table: Option<PointTable>,
    pub is_cut: bool,
}

/// A table of rows that may hold at the points and exits of a program's procedures: of the rows of
/// the text and of bounds those that steps keep. What it finds is told by no contract but that it
/// is a table, or none where the search was given up. The one error is want of memory.
pub fn found_table(
    alloc: Global,
    source: RoundSource,
    finder: Finder,
) -> Result<FoundTable, AllocError>
    requires { IsRoundSource source }
    ensures { IfOk result
        (λ found. IfSome found.table (IsTable source.entry.program.now)) }
{
    let entries = entry_numbers(alloc, source.heads)?;
    let numbers = PlaceNumbers {
        entries: &entries,
        heads: source.heads,
    };
    let mut places = empty_places(alloc, source.heads)?;
    let mut left = SearchLeft::new(finder, point_count(source.heads));
    if !find_rows(alloc, source, numbers, &mut places, &mut left)? {
        return Ok(FoundTable {
            table: None,
            is_cut: true,
        });
    }
    let found = PlacesLeft {
        numbers,
        places: &places,
    };
    let table = table_of(alloc, source, found)?;
    Ok(FoundTable {
        table: Some(table),
        is_cut: left.is_cut,
    })
}

/// How many points there are: the entry and the heads of each procedure.
fn point_count(heads: &[Items<u32>]) -> usize {
    let mut count: usize = 0;
    for own in heads {
        count = count.saturating_add(own.len()).saturating_add(1);
    }
    count
}

/// Finds the rows at places, and tells whether the search came to an end.
fn find_rows(
    alloc: Global,
    source: RoundSource,
    numbers: PlaceNumbers,
    places: &mut [RowsLeft],
    left: &mut SearchLeft,
) -> Result<bool, AllocError>
    requires { IsRoundSource source }
{
    let mut steps = no_steps(alloc, proc_count(source))?;
    if take_candidates(alloc, source, numbers, &mut steps, places, left)?
        && keep_rows(alloc, source, numbers, &mut steps, places, left)?
    {
        keep_strongest(alloc, places)?;
        return Ok(true);
    }
    Ok(false)
}

/// Makes steps by all candidates at exits, and takes the candidates at points and bounds at exits. It
/// tells whether it came to an end.
fn take_candidates(
    alloc: Global,
    source: RoundSource,
    numbers: PlaceNumbers,
    steps: &mut [OwnSteps],
    places: &mut [RowsLeft],
    left: &mut SearchLeft,
) -> Result<bool, AllocError>
    requires { IsRoundSource source }
{
    let texts = program_texts(alloc, source)?;
    put_exit_rows(alloc, source, &texts, numbers, places)?;
    if !make_all(alloc, source, PlacesLeft { numbers, places }, steps, left)? {
        return Ok(false);
    }
    let arrivals = all_arrivals(alloc, source, numbers, steps)?;
    let tried = TriedSource {
        texts: &texts,
        numbers,
        arrivals: &arrivals,
    };
    put_point_rows(alloc, source, tried, places, left)?;
    put_exit_bounds(alloc, source, tried, places, left)?;
    Ok(true)
}

/// Drops rows until all that are left are kept by steps that are made by them: where rows fall at an
/// exit, those of its callers are to be made anew, and where that was done too often, no row is left
/// at an exit. It tells whether it came to an end.
fn keep_rows(
    alloc: Global,
    source: RoundSource,
    numbers: PlaceNumbers,
    steps: &mut [OwnSteps],
    places: &mut [RowsLeft],
    left: &mut SearchLeft,
) -> Result<bool, AllocError>
    requires { IsRoundSource source }
{
    let mut seen = nothing_seen(alloc, steps)?;
    for _making in 0..MOST_MAKINGS {
        let before = exit_counts(alloc, source, numbers, places)?;
        if !drop_by_steps(alloc, source, numbers, steps, &mut seen, places, left)? {
            return Ok(false);
        }
        let now = exit_counts(alloc, source, numbers, places)?;
        if !mark_stale(source, &before, &now, steps) {
            return Ok(true);
        }
        if left.is_nearly_spent() {
            break;
        }
        if !make_next(alloc, source, PlacesLeft { numbers, places }, steps, left)? {
            return Ok(false);
        }
    }
    left.is_cut = true;
    drop_exits(alloc, source, numbers, places);
    if !make_all(alloc, source, PlacesLeft { numbers, places }, steps, left)? {
        return Ok(false);
    }
    drop_by_steps(alloc, source, numbers, steps, &mut seen, places, left)
}

fn nothing_seen(alloc: Global, steps: &[OwnSteps]) -> Result<Vec<Vec<CaseSeen>>, AllocError> {
    let mut seen = Vec::new(alloc);
    for _own in steps {
        seen.push(Vec::new(alloc))?;
    }
    Ok(seen)
}

/// Drops rows that steps do not keep. Nothing is known of those that were made anew. It tells whether
/// it came to an end.
fn drop_by_steps(
    alloc: Global,
    source: RoundSource,
    numbers: PlaceNumbers,
    steps: &[OwnSteps],
    seen: &mut [Vec<CaseSeen>],
    places: &mut [RowsLeft],
    left: &mut SearchLeft,
) -> Result<bool, AllocError> {
    let arrivals = all_arrivals(alloc, source, numbers, steps)?;
    for (proc, own) in arrivals.iter().enumerate() {
        if proc < seen.len() && proc < steps.len() && steps[proc].is_new {
            seen[proc] = unseen(alloc, own.len())?;
        }
    }
    drop_rows(alloc, &arrivals, seen, places, &mut left.judgements)
}

/// Drops all rows at exits.
fn drop_exits(alloc: Global, source: RoundSource, numbers: PlaceNumbers, places: &mut [RowsLeft])
    requires { IsRoundSource source }
{
    let procs = proc_count(source);
    for proc in 0..procs {
        let number = numbers.of(RowPlace::AtExit { proc });
        put_left(places, number, RowsLeft::none(alloc, 0));
    }
}

/// How many rows there are at the exit of each procedure.
fn exit_counts(
    alloc: Global,
    source: RoundSource,
    numbers: PlaceNumbers,
    places: &[RowsLeft],
) -> Result<Vec<usize>, AllocError>
    requires { IsRoundSource source }
{
    let mut counts = Vec::new(alloc);
    let procs = proc_count(source);
    for proc in 0..procs {
        let rows = rows_left(places, numbers.of(RowPlace::AtExit { proc }));
        counts.push(rows.len())?;
    }
    Ok(counts)
}

/// Keeps at each place the strongest rows alone.
fn keep_strongest(alloc: Global, places: &mut [RowsLeft]) -> Result<(), AllocError> {
    for place in places.iter_mut() {
        let rows = mem::replace(&mut place.rows, Items::new(alloc));
        place.rows = strongest(alloc, rows)?;
    }
    Ok(())
}
