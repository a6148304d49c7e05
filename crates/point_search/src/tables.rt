ghost use Rattle.std.specs.Prelude.{◌≡◌, ◌<◌, ◌≤◌, ◌&&◌, ◌∷◌, [], ◌++◌, IfOk, OnOk, length, nat_lt, not, slice_get, unwrap_or};
ghost use Rattle.flow_graph.specs.FlowGraph.{graph_of};
ghost use Rattle.point_induction.specs.Points.{heads_of};
ghost use Rattle.syntax_tree.specs.WellFormed.{width_of, IsProcFit};
ghost use Rattle.vocabularies.specs.Procs.{IsProcOf};
ghost use Rattle.transition_formula.specs.Transition.{every_column, is_below};
ghost use Rattle.point_rounds.specs.Source.{IsRoundSource};
ghost use Rattle.point_rounds.specs.Table.{IsTable, most_rows_at_point};
ghost use Rattle.point_search.specs.Shapes.{AreExitLists, AreListsOf, ArePlacedAt, ArePlacedUnless, ArePointLists, IsEntryList, IsExitList};

use crate::places::{PlaceNumbers, RowsLeft, rows_left};
use items::Items;
use linear_terms::Row;
use point_candidates::{entry_columns, pair_columns, state_columns};
use point_rounds::{PointTable, RoundSource, RowPlace};
use std::alloc::{AllocError, Global};
use syntax_tree::{Proc, Program};

/// How many rows stand at a place at most.
pub(crate) const MOST_TRIED: usize = 96;

/// What is left at places.
#[derive(Clone, Copy)]
pub(crate) struct PlacesLeft<'a> {
    pub(crate) numbers: PlaceNumbers<'a>,
    pub(crate) places: &'a [RowsLeft],
}

/// The table of the rows at places: the first 96 of each that are over the columns of the place,
/// and none at the entry and the exit of `main`.
pub(crate) fn table_of(
    alloc: Global,
    source: RoundSource,
    left: PlacesLeft,
) -> Result<PointTable, AllocError>
    requires { IsRoundSource source }
    ensures { IfOk result (IsTable source.entry.program.now) }
{
    let points = point_lists(alloc, source, left)?;
    let exits = exit_lists(alloc, source, left)?;
    Ok(PointTable { points, exits })
}

/// How many procedures there are.
pub(crate) fn proc_count(source: RoundSource) -> u32
    requires { IsRoundSource source }
    ensures { result ≡ length source.entry.program.now.procs }
{
    source.program.procs.len() as u32
}

/// A procedure of the program.
fn proc_at<'a>(source: RoundSource<'a>, proc: u32) -> &'a Proc
    requires source { IsRoundSource source }
    requires there { proc < length source.program.now.procs }
    ensures is { IsProcOf source.entry.program.now proc result.now }
    ensures globals { length source.entry.program.now.globals ≤ 16 }
    ensures fit { IsProcFit source.entry.program.now result.now }
{
    &source.program.procs.as_slice()[proc as usize]
}

// ---- points

/// The rows at the points of all procedures.
fn point_lists(
    alloc: Global,
    source: RoundSource,
    left: PlacesLeft,
) -> Result<Items<Items<Items<Row>>>, AllocError>
    requires { IsRoundSource source }
    ensures { IfOk result
        (ArePointLists source.entry.program.now (length source.entry.program.now.procs)) }
{
    let count = proc_count(source);
    let mut points = Items::new(alloc);
    for proc in 0..count {
        points.push(lists_of(alloc, source, proc, left)?)?;
    }
    Ok(points)
}

/// The rows at the points of a procedure.
fn lists_of(
    alloc: Global,
    source: RoundSource,
    proc: u32,
    left: PlacesLeft,
) -> Result<Items<Items<Row>>, AllocError>
    requires source { IsRoundSource source }
    requires there { proc < length source.program.now.procs }
    ensures { IfOk result (AreListsOf source.entry.program.now proc) }
{
    let p = proc_at(source, proc);
    let heads = heads_at(source, proc);
    let entry = rows_at_entry(alloc, source.program, proc, p, left)?;
    let others = rows_at_heads(alloc, source.program, proc, p, heads, left)?;
    let lists = with_entry(alloc, entry, others)?;
    Ok(lists)
}

/// The rows at the entry of a procedure; none at that of `main`.
fn rows_at_entry(
    alloc: Global,
    program: &Program,
    proc: u32,
    p: &Proc,
    left: PlacesLeft,
) -> Result<Items<Row>, AllocError>
    requires globals { length program.now.globals ≤ 16 }
    requires fit { IsProcFit program.now p.now }
    ensures { IfOk result (IsEntryList program.now proc p.now) }
{
    let columns = entry_columns(program, p);
    let rows = rows_at_place(left, RowPlace::AtPoint { proc, node: 0 });
    let placed = placed_rows(alloc, program.main == proc, columns, rows)?;
    Ok(placed)
}

/// The rows at the heads of a procedure.
fn rows_at_heads(
    alloc: Global,
    program: &Program,
    proc: u32,
    p: &Proc,
    heads: &[u32],
    left: PlacesLeft,
) -> Result<Items<Items<Row>>, AllocError>
    requires globals { length program.now.globals ≤ 16 }
    requires fit { IsProcFit program.now p.now }
    ensures { IfOk result (ArePlacedAt (length heads.now) (width_of program.now p.now)) }
{
    let columns = state_columns(program, p);
    rows_at_each(alloc, columns, proc, heads, left)
}

fn rows_at_each(
    alloc: Global,
    columns: u32,
    proc: u32,
    heads: &[u32],
    left: PlacesLeft,
) -> Result<Items<Items<Row>>, AllocError>
    ensures { IfOk result (ArePlacedAt (length heads.now) columns) }
{
    let mut lists = Items::new(alloc);
    for node in heads {
        let rows = rows_at_place(left, RowPlace::AtPoint { proc, node: *node });
        lists.push(placed_rows(alloc, false, columns, rows)?)?;
    }
    Ok(lists)
}

/// The lists with one before them.
fn with_entry(
    alloc: Global,
    entry: Items<Row>,
    others: Items<Items<Row>>,
) -> Result<Items<Items<Row>>, AllocError>
    ensures { IfOk result (λ lists. lists ≡ entry ∷ others) }
{
    let mut lists = Items::new(alloc);
    lists.push(entry)?;
    lists.append(others)?;
    Ok(lists)
}

// ---- exits

/// The rows at the exits of all procedures.
fn exit_lists(
    alloc: Global,
    source: RoundSource,
    left: PlacesLeft,
) -> Result<Items<Items<Row>>, AllocError>
    requires { IsRoundSource source }
    ensures { IfOk result
        (AreExitLists source.entry.program.now (length source.entry.program.now.procs)) }
{
    let count = proc_count(source);
    let mut exits = Items::new(alloc);
    for proc in 0..count {
        exits.push(exit_list(alloc, source, proc, left)?)?;
    }
    Ok(exits)
}

/// The rows at the exit of a procedure; none at that of `main`.
fn exit_list(
    alloc: Global,
    source: RoundSource,
    proc: u32,
    left: PlacesLeft,
) -> Result<Items<Row>, AllocError>
    requires source { IsRoundSource source }
    requires there { proc < length source.program.now.procs }
    ensures { IfOk result (IsExitList source.entry.program.now proc) }
{
    let p = proc_at(source, proc);
    let columns = pair_columns(source.program, p);
    let rows = rows_at_place(left, RowPlace::AtExit { proc });
    let placed = placed_rows(alloc, source.program.main == proc, columns, rows)?;
    Ok(placed)
}

// ---- places

fn rows_at_place<'a>(left: PlacesLeft<'a>, place: RowPlace) -> &'a [Row] {
    rows_left(left.places, left.numbers.of(place))
}

/// The first 96 of the rows that are over the first so many columns, unless none may be.
fn placed_rows(
    alloc: Global,
    none: bool,
    columns: u32,
    rows: &[Row],
) -> Result<Items<Row>, AllocError>
    ensures { IfOk result (ArePlacedUnless none columns) }
{
    let mut placed = Items::new(alloc);
    for row in rows {
        if may_stand(none, columns, placed.as_slice(), row) {
            add_copy(row, &mut placed)?;
        }
    }
    Ok(placed)
}

/// Whether there is room for a row, and it is over the first so many columns, where rows may be.
fn may_stand(none: bool, columns: u32, placed: &[Row], row: &Row) -> bool
    ensures { result
        ≡ (not none
        && (nat_lt (length placed.now) most_rows_at_point
        && every_column (is_below columns 0) row.now.poly)) }
{
    !none && (placed.len() < MOST_TRIED && is_over(columns, row))
}

fn is_over(columns: u32, row: &Row) -> bool
    ensures { result ≡ every_column (is_below columns 0) row.now.poly }
{
    row.poly.is_covered(columns as usize, 0)
}

fn add_copy(row: &Row, placed: &mut Items<Row>) -> Result<(), AllocError>
    ensures { OnOk result (placed.new ≡ placed.old ++ row.now ∷ []) }
{
    placed.push(row.clone()?)?;
    Ok(())
}

// ---- heads

/// The heads of a procedure.
fn heads_at<'a>(source: RoundSource<'a>, proc: u32) -> &'a [u32]
    requires { IsRoundSource source }
    ensures { result.now ≡ heads_of (graph_of source.entry.program.now proc) }
{
    list_at(source.heads, proc as usize)
}

/// The list of a procedure; an empty one past their end.
fn list_at(lists: &[Items<u32>], place: usize) -> &[u32]
    ensures { result.now ≡ unwrap_or (slice_get lists.now place) [] }
{
    match lists.get(place) {
        Some(list) => list.as_slice(),
        None => &[],
    }
}

// ---- columns, where they bound what is tried

/// How many columns there are at the entry of a procedure.
pub(crate) fn entry_columns_of(source: RoundSource, proc: u32) -> u32
    requires source { IsRoundSource source }
    requires there { proc < length source.program.now.procs }
{
    entry_columns(source.program, proc_at(source, proc))
}

/// How many there are there, and behind them at its exit.
pub(crate) fn pair_columns_of(source: RoundSource, proc: u32) -> u32
    requires source { IsRoundSource source }
    requires there { proc < length source.program.now.procs }
{
    pair_columns(source.program, proc_at(source, proc))
}

/// How many its states have.
pub(crate) fn state_columns_of(source: RoundSource, proc: u32) -> u32
    requires source { IsRoundSource source }
    requires there { proc < length source.program.now.procs }
{
    state_columns(source.program, proc_at(source, proc))
}
