use crate::arrivals::{PointArrival, posts_at_end};
use crate::case_search::{CaseSearch, WholeTop, copies_of, search_over};
use crate::counts::SearchLeft;
use items::Items;
use linear_terms::{Kind, Poly, Row, TermError, difference, subst};
use point_candidates::offer;
use std::alloc::{AllocError, Global};

/// How great a direction gets over the cases of steps to a place: of those from other places, and of
/// those from the place itself.
#[derive(Clone, Copy)]
struct DirectionTop {
    others: WholeTop,
    own: WholeTop,
}

/// A place to which steps lead, and whether bounds are also sought over those from other places and
/// over those from itself, each by themselves.
#[derive(Clone, Copy)]
pub(crate) struct BoundPlace<'a> {
    pub(crate) number: usize,
    pub(crate) apart: bool,
    pub(crate) arrivals: &'a [Vec<PointArrival<'a>>],
}

/// Adds the rows `d - c <= 0`, where `c` is how great a direction gets over the arrivals at a place,
/// as long as the search may seek them.
pub(crate) fn add_bounds(
    alloc: Global,
    place: BoundPlace,
    directions: &[Poly],
    left: &mut SearchLeft,
    rows: &mut Items<Row>,
) -> Result<(), AllocError> {
    let tops = direction_tops(alloc, place, directions, left)?;
    for (number, top) in tops.iter().enumerate() {
        if number < directions.len() {
            add_bounds_of(alloc, &directions[number], *top, place.apart, rows)?;
        }
    }
    Ok(())
}

fn add_bounds_of(
    alloc: Global,
    d: &Poly,
    top: DirectionTop,
    apart: bool,
    rows: &mut Items<Row>,
) -> Result<(), AllocError> {
    add_bound(alloc, d, higher(top.others, top.own), rows)?;
    if apart {
        add_bound(alloc, d, top.others, rows)?;
        add_bound(alloc, d, top.own, rows)?;
    }
    Ok(())
}

fn add_bound(
    alloc: Global,
    d: &Poly,
    top: WholeTop,
    rows: &mut Items<Row>,
) -> Result<(), AllocError> {
    match top {
        WholeTop::At(at) => {
            let made = difference(alloc, d, &Poly::constant(alloc, at));
            offer(alloc, rows, made, Kind::AtMost)
        }
        WholeTop::Nowhere => Ok(()),
        WholeTop::Endless => Ok(()),
    }
}

/// The higher of two.
fn higher(first: WholeTop, second: WholeTop) -> WholeTop {
    match (first, second) {
        (WholeTop::Nowhere, _) => second,
        (_, WholeTop::Nowhere) => first,
        (WholeTop::At(one), WholeTop::At(other)) => WholeTop::At(one.max(other)),
        _ => WholeTop::Endless,
    }
}

/// How great each direction gets.
fn direction_tops(
    alloc: Global,
    place: BoundPlace,
    directions: &[Poly],
    left: &mut SearchLeft,
) -> Result<Vec<DirectionTop>, AllocError> {
    let mut tops = no_tops(alloc, directions.len())?;
    for own in place.arrivals {
        for arrival in own.iter() {
            if arrival.to == place.number {
                raise_tops(alloc, *arrival, directions, left, &mut tops)?;
            }
        }
    }
    Ok(tops)
}

fn no_tops(alloc: Global, count: usize) -> Result<Vec<DirectionTop>, AllocError> {
    let mut tops = Vec::new(alloc);
    for _direction in 0..count {
        tops.push(DirectionTop {
            others: WholeTop::Nowhere,
            own: WholeTop::Nowhere,
        })?;
    }
    Ok(tops)
}

/// Raises what directions get to by one arrival: without end, where no bounds may be sought.
fn raise_tops(
    alloc: Global,
    arrival: PointArrival,
    directions: &[Poly],
    left: &mut SearchLeft,
    tops: &mut [DirectionTop],
) -> Result<(), AllocError> {
    let own = arrival.from == arrival.to;
    if !left.takes_bounds(directions.len()) {
        for top in tops.iter_mut() {
            *top = top_with(*top, own, WholeTop::Endless);
        }
        return Ok(());
    }
    let rows = copies_of(alloc, arrival.case.rows.as_slice())?;
    let mut search = search_over(alloc, rows);
    let posts = posts_at_end(arrival);
    for (place, d) in directions.iter().enumerate() {
        if place < tops.len() && !is_endless(tops[place], own) {
            let top = top_at(alloc, posts, d, &mut search)?;
            tops[place] = top_with(tops[place], own, top);
        }
    }
    Ok(())
}

fn is_endless(top: DirectionTop, own: bool) -> bool {
    if own {
        top.own == WholeTop::Endless
    } else {
        top.others == WholeTop::Endless
    }
}

/// What a direction gets to, where arrivals from elsewhere, or from the place itself, get it so far.
fn top_with(top: DirectionTop, own: bool, by: WholeTop) -> DirectionTop {
    if own {
        DirectionTop {
            others: top.others,
            own: higher(top.own, by),
        }
    } else {
        DirectionTop {
            others: higher(top.others, by),
            own: top.own,
        }
    }
}

/// How great a direction gets over the points of a search.
fn top_at(
    alloc: Global,
    posts: &[Poly],
    d: &Poly,
    search: &mut CaseSearch,
) -> Result<WholeTop, AllocError> {
    match put_in(alloc, posts, d) {
        Ok(objective) => search.top(alloc, objective),
        Err(TermError::Memory) => Err(AllocError),
        Err(_lost) => Ok(WholeTop::Endless),
    }
}

/// The direction with the posts put in for its columns.
fn put_in(alloc: Global, posts: &[Poly], d: &Poly) -> Result<Poly, TermError> {
    if d.is_covered(posts.len(), 0) {
        subst(alloc, d, posts, &[])
    } else {
        Err(TermError::Degree)
    }
}
