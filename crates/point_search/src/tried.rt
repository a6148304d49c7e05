ghost use Rattle.std.specs.Prelude.{◌<◌, length};
ghost use Rattle.point_rounds.specs.Source.{IsRoundSource};

use crate::arrivals::PointArrival;
use crate::bounds::{BoundPlace, add_bounds};
use crate::case_search::{CaseSearch, copies_of, is_listed, search_over};
use crate::counts::SearchLeft;
use crate::places::{PlaceNumbers, RowsLeft, first_rows, put_rows, taken_rows};
use crate::tables::{MOST_TRIED, entry_columns_of, pair_columns_of, proc_count, state_columns_of};
use crate::texts::{ProgramTexts, rows_tried_at_exit};
use items::Items;
use linear_terms::{Case, Col, Poly, Row, TermError, scale};
use point_rounds::{PointState, RoundSource, RowPlace};
use polyhedra::{Vocabulary, directions};
use std::alloc::{AllocError, Global};
use vocabularies::{entry, full};

/// What candidates are made of: the rows of the text, and the cases of steps.
#[derive(Clone, Copy)]
pub(crate) struct TriedSource<'a> {
    pub(crate) texts: &'a ProgramTexts,
    pub(crate) numbers: PlaceNumbers<'a>,
    pub(crate) arrivals: &'a [Vec<PointArrival<'a>>],
}

// ---- exits

/// Puts the first 96 rows of the text at each exit but that of `main`.
pub(crate) fn put_exit_rows(
    alloc: Global,
    source: RoundSource,
    texts: &ProgramTexts,
    numbers: PlaceNumbers,
    places: &mut [RowsLeft],
) -> Result<(), AllocError>
    requires { IsRoundSource source }
{
    let procs = proc_count(source);
    for proc in 0..procs {
        if source.program.main != proc {
            let rows = rows_tried_at_exit(alloc, source, texts, proc)?;
            let first = first_rows(alloc, MOST_TRIED, rows)?;
            put_rows(alloc, places, numbers.of(RowPlace::AtExit { proc }), first)?;
        }
    }
    Ok(())
}

/// Adds the bounds at each exit but that of `main`, as long as there is room.
pub(crate) fn put_exit_bounds(
    alloc: Global,
    source: RoundSource,
    tried: TriedSource,
    places: &mut [RowsLeft],
    left: &mut SearchLeft,
) -> Result<(), AllocError>
    requires { IsRoundSource source }
{
    let procs = proc_count(source);
    for proc in 0..procs {
        if source.program.main != proc {
            put_bounds_at_exit(alloc, source, tried, proc, places, left)?;
        }
    }
    Ok(())
}

fn put_bounds_at_exit(
    alloc: Global,
    source: RoundSource,
    tried: TriedSource,
    proc: u32,
    places: &mut [RowsLeft],
    left: &mut SearchLeft,
) -> Result<(), AllocError>
    requires source { IsRoundSource source }
    requires there { proc < length source.program.now.procs }
{
    let number = tried.numbers.of(RowPlace::AtExit { proc });
    let first = entry_columns_of(source, proc);
    let polys = columns_with_signs(alloc, first, pair_columns_of(source, proc))?;
    let place = BoundPlace {
        number,
        apart: false,
        arrivals: tried.arrivals,
    };
    let mut rows = taken_rows(alloc, places, number).rows;
    add_bounds(alloc, place, polys.as_slice(), left, &mut rows)?;
    let kept = first_rows(alloc, MOST_TRIED, rows)?;
    put_rows(alloc, places, number, kept)
}

/// The columns from one on up to another, each with both signs.
fn columns_with_signs(alloc: Global, from: u32, to: u32) -> Result<Items<Poly>, AllocError> {
    match signed_columns(alloc, from, to) {
        Ok(polys) => Ok(polys),
        Err(_memory) => Err(AllocError),
    }
}

fn signed_columns(alloc: Global, from: u32, to: u32) -> Result<Items<Poly>, TermError> {
    let mut polys = Items::new(alloc);
    for number in from..to {
        let column = Poly::column(alloc, Col::At(number))?;
        let turned = scale(alloc, &column, -1)?;
        polys.push(column)?;
        polys.push(turned)?;
    }
    Ok(polys)
}

// ---- points

/// Puts the candidates at each point that has a state, but the entry of `main`.
pub(crate) fn put_point_rows(
    alloc: Global,
    source: RoundSource,
    tried: TriedSource,
    places: &mut [RowsLeft],
    left: &mut SearchLeft,
) -> Result<(), AllocError>
    requires { IsRoundSource source }
{
    for state in source.states {
        if is_tried(source, state) {
            let rows = rows_tried_at(alloc, source, tried, state, left)?;
            put_rows(alloc, places, number_of(tried, state), rows)?;
        }
    }
    Ok(())
}

/// Whether rows are tried at the point of a state.
fn is_tried(source: RoundSource, state: &PointState) -> bool {
    state.node != 0 || state.proc != source.program.main
}

fn number_of(tried: TriedSource, state: &PointState) -> usize {
    tried.numbers.of(RowPlace::AtPoint {
        proc: state.proc,
        node: state.node,
    })
}

/// The first 96 of the rows that are tried at a point, without linear ones that its state entails.
fn rows_tried_at(
    alloc: Global,
    source: RoundSource,
    tried: TriedSource,
    state: &PointState,
    left: &mut SearchLeft,
) -> Result<Items<Row>, AllocError>
    requires { IsRoundSource source }
{
    if source.program.procs.len() <= state.proc as usize {
        return Ok(Items::new(alloc));
    }
    let rows = all_rows_at(alloc, source, tried, state, left)?;
    rows_not_entailed(alloc, state.formula.cases(), rows)
}

/// The rows of the text over the columns of a point, and the bounds there.
fn all_rows_at(
    alloc: Global,
    source: RoundSource,
    tried: TriedSource,
    state: &PointState,
    left: &mut SearchLeft,
) -> Result<Items<Row>, AllocError>
    requires source { IsRoundSource source }
    requires there { state.now.proc < length source.program.now.procs }
{
    let polys = directions_at(alloc, source, state)?;
    let place = BoundPlace {
        number: number_of(tried, state),
        apart: state.node != 0,
        arrivals: tried.arrivals,
    };
    let mut rows = text_rows_at(alloc, source, tried.texts, state)?;
    add_bounds(alloc, place, polys.as_slice(), left, &mut rows)?;
    Ok(rows)
}

/// The directions in which bounds are sought at a point.
fn directions_at(
    alloc: Global,
    source: RoundSource,
    state: &PointState,
) -> Result<Items<Poly>, AllocError>
    requires source { IsRoundSource source }
    requires there { state.now.proc < length source.program.now.procs }
{
    let voc = vocabulary_at(alloc, source, state)?;
    directions(alloc, &voc)
}

fn vocabulary_at(
    alloc: Global,
    source: RoundSource,
    state: &PointState,
) -> Result<Vocabulary, AllocError>
    requires source { IsRoundSource source }
    requires there { state.now.proc < length source.program.now.procs }
{
    if state.node == 0 {
        entry(alloc, source.program, state.proc)
    } else {
        full(alloc, source.program, state.proc)
    }
}

/// The rows of the text over the columns of a point: its procedure's, at an entry those of its
/// callers, and those over globals.
fn text_rows_at(
    alloc: Global,
    source: RoundSource,
    texts: &ProgramTexts,
    state: &PointState,
) -> Result<Items<Row>, AllocError>
    requires source { IsRoundSource source }
    requires there { state.now.proc < length source.program.now.procs }
{
    let mut rows = Items::new(alloc);
    if state.node == 0 {
        let columns = entry_columns_of(source, state.proc);
        add_over(columns, texts.own_rows(state.proc), &mut rows)?;
        add_over(columns, texts.at_entry(state.proc), &mut rows)?;
        add_over(columns, texts.shared.as_slice(), &mut rows)?;
    } else {
        let columns = state_columns_of(source, state.proc);
        add_over(columns, texts.own_rows(state.proc), &mut rows)?;
        add_over(columns, texts.shared.as_slice(), &mut rows)?;
    }
    Ok(rows)
}

/// Adds copies of the rows over the first so many columns that are not there yet.
fn add_over(columns: u32, text: &[Row], rows: &mut Items<Row>) -> Result<(), AllocError> {
    for row in text {
        if row.poly.is_covered(columns as usize, 0) && !is_listed(rows.as_slice(), row) {
            rows.push(row.clone()?)?;
        }
    }
    Ok(())
}

// ---- rows that a state entails

/// The first 96 of the rows that are not linear, or not true in some case.
fn rows_not_entailed(
    alloc: Global,
    cases: &[Case],
    rows: Items<Row>,
) -> Result<Items<Row>, AllocError> {
    let mut searches = searches_over(alloc, cases)?;
    let mut kept = Items::new(alloc);
    for row in rows {
        if kept.len() < MOST_TRIED && !is_entailed(alloc, cases, &mut searches, &row)? {
            kept.push(row)?;
        }
    }
    Ok(kept)
}

fn searches_over(alloc: Global, cases: &[Case]) -> Result<Vec<CaseSearch>, AllocError> {
    let mut searches = Vec::new(alloc);
    for case in cases {
        let rows = copies_of(alloc, case.rows.as_slice())?;
        searches.push(search_over(alloc, rows))?;
    }
    Ok(searches)
}

/// Whether a row is linear and true in all cases.
fn is_entailed(
    alloc: Global,
    cases: &[Case],
    searches: &mut [CaseSearch],
    row: &Row,
) -> Result<bool, AllocError> {
    if !is_linear(row) {
        return Ok(false);
    }
    for (place, case) in cases.iter().enumerate() {
        if place < searches.len() {
            if !searches[place].shows(alloc, case.post.as_slice(), row)? {
                return Ok(false);
            }
        }
    }
    Ok(true)
}

fn is_linear(row: &Row) -> bool {
    row.poly
        .terms()
        .iter()
        .all(|(mono, _)| mono.columns().len() == 1)
}
