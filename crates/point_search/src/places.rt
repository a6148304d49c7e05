use items::Items;
use linear_terms::Row;
use point_rounds::RowPlace;
use std::alloc::{AllocError, Global};
use std::mem;

/// The rows that are left at a place, the number of each among those that were tried there, in their
/// order, and how often some were dropped.
#[derive(Drop)]
pub(crate) struct RowsLeft {
    pub(crate) rows: Items<Row>,
    pub(crate) numbers: Items<u32>,
    pub(crate) drops: usize,
}

impl RowsLeft {
    /// No rows, where some were dropped so often.
    pub(crate) fn none(alloc: Global, drops: usize) -> RowsLeft {
        RowsLeft {
            rows: Items::new(alloc),
            numbers: Items::new(alloc),
            drops,
        }
    }
}

/// The places of a program in one list: for each procedure its entry, its heads in the order of
/// their nodes, and its exit.
#[derive(Clone, Copy)]
pub(crate) struct PlaceNumbers<'a> {
    /// The number of each procedure's entry.
    pub(crate) entries: &'a [usize],
    /// The heads of each procedure.
    pub(crate) heads: &'a [Items<u32>],
}

impl<'a> PlaceNumbers<'a> {
    /// The number of a place; one past all where there is no such place.
    pub(crate) fn of(self, place: RowPlace) -> usize {
        match place {
            RowPlace::AtPoint { proc, node } => self.of_point(proc, node),
            RowPlace::AtExit { proc } => self.of_exit(proc),
        }
    }

    fn of_point(self, proc: u32, node: u32) -> usize {
        match (
            self.entries.get(proc as usize),
            self.heads.get(proc as usize),
        ) {
            (Some(entry), Some(heads)) => point_number(*entry, heads.as_slice(), node),
            _ => usize::MAX,
        }
    }

    fn of_exit(self, proc: u32) -> usize {
        match (
            self.entries.get(proc as usize),
            self.heads.get(proc as usize),
        ) {
            (Some(entry), Some(heads)) => later(later(*entry, heads.len()), 1),
            _ => usize::MAX,
        }
    }
}

fn point_number(entry: usize, heads: &[u32], node: u32) -> usize {
    if node == 0 {
        return entry;
    }
    match heads.binary_search(&node) {
        Ok(place) => later(later(entry, place), 1),
        Err(_place) => usize::MAX,
    }
}

/// So many places later. There are few.
fn later(place: usize, more: usize) -> usize {
    place.saturating_add(more)
}

/// The number of each procedure's entry.
pub(crate) fn entry_numbers(alloc: Global, heads: &[Items<u32>]) -> Result<Vec<usize>, AllocError> {
    let mut numbers = Vec::new(alloc);
    let mut next = 0;
    for own in heads {
        numbers.push(next)?;
        next = later(later(next, own.len()), 2);
    }
    Ok(numbers)
}

/// No rows at each place.
pub(crate) fn empty_places(
    alloc: Global,
    heads: &[Items<u32>],
) -> Result<Vec<RowsLeft>, AllocError> {
    let mut places = Vec::new(alloc);
    for own in heads {
        add_empty(alloc, later(own.len(), 2), &mut places)?;
    }
    Ok(places)
}

fn add_empty(alloc: Global, count: usize, places: &mut Vec<RowsLeft>) -> Result<(), AllocError> {
    for _place in 0..count {
        places.push(RowsLeft::none(alloc, 0))?;
    }
    Ok(())
}

/// The rows at the place of a number; none past all.
pub(crate) fn rows_left(places: &[RowsLeft], number: usize) -> &[Row] {
    match places.get(number) {
        Some(left) => left.rows.as_slice(),
        None => &[],
    }
}

/// The numbers of the rows at the place of a number.
pub(crate) fn numbers_left(places: &[RowsLeft], number: usize) -> &[u32] {
    match places.get(number) {
        Some(left) => left.numbers.as_slice(),
        None => &[],
    }
}

/// How often rows were dropped at the place of a number.
pub(crate) fn drops_at(places: &[RowsLeft], number: usize) -> usize {
    match places.get(number) {
        Some(left) => left.drops,
        None => 0,
    }
}

/// Puts the rows that are tried at the place of a number.
pub(crate) fn put_rows(
    alloc: Global,
    places: &mut [RowsLeft],
    number: usize,
    rows: Items<Row>,
) -> Result<(), AllocError> {
    if number < places.len() {
        let numbers = first_numbers(alloc, rows.len())?;
        places[number] = RowsLeft {
            rows,
            numbers,
            drops: 0,
        };
    }
    Ok(())
}

/// The numbers from 0 on.
fn first_numbers(alloc: Global, count: usize) -> Result<Items<u32>, AllocError> {
    let mut numbers = Items::new(alloc);
    let mut next: u32 = 0;
    for _row in 0..count {
        numbers.push(next)?;
        next = next.saturating_add(1);
    }
    Ok(numbers)
}

/// Takes away what is left at the place of a number.
pub(crate) fn taken_rows(alloc: Global, places: &mut [RowsLeft], number: usize) -> RowsLeft {
    if number < places.len() {
        mem::replace(&mut places[number], RowsLeft::none(alloc, 0))
    } else {
        RowsLeft::none(alloc, 0)
    }
}

/// Puts back what is left at the place of a number.
pub(crate) fn put_left(places: &mut [RowsLeft], number: usize, left: RowsLeft) {
    if number < places.len() {
        places[number] = left;
    }
}

/// The first so many of the rows.
pub(crate) fn first_rows(
    alloc: Global,
    most: usize,
    rows: Items<Row>,
) -> Result<Items<Row>, AllocError> {
    let mut first = Items::new(alloc);
    for row in rows {
        if first.len() < most {
            first.push(row)?;
        }
    }
    Ok(first)
}
