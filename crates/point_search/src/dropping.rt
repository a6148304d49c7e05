use crate::arrivals::{PointArrival, posts_at_end};
use crate::case_search::{CaseSearch, GivenRows, search_under};
use crate::counts::CaseJudgements;
use crate::places::{RowsLeft, drops_at, numbers_left, put_left, rows_left, taken_rows};
use items::Items;
use linear_terms::{Poly, Row};
use std::alloc::{AllocError, Global};

/// What is known of a case of a step: how often rows had been dropped where it begins when it was
/// asked last, whether it had no points when it was searched last, and which rows it keeps.
#[derive(Drop)]
pub(crate) struct CaseSeen {
    drops: Option<usize>,
    was_empty: Option<bool>,
    kept: Vec<KeptRow>,
}

/// The number of a row that a case keeps, and those of the rows at its begin that show it.
#[derive(Drop)]
struct KeptRow {
    number: u32,
    by: Items<u32>,
}

/// Nothing is known of so many cases.
pub(crate) fn unseen(alloc: Global, count: usize) -> Result<Vec<CaseSeen>, AllocError> {
    let mut seen = Vec::new(alloc);
    for _case in 0..count {
        seen.push(CaseSeen {
            drops: None,
            was_empty: None,
            kept: Vec::new(alloc),
        })?;
    }
    Ok(seen)
}

/// Drops rows until each that is left is kept by all cases of steps, where the rows at the places
/// from which they lead are given. A case is asked anew where rows were dropped there, and then only
/// about the rows that these had shown. It judges all rows at its end: where `left` tells of fewer
/// judgements, it ends, and tells so.
pub(crate) fn drop_rows(
    alloc: Global,
    arrivals: &[Vec<PointArrival>],
    seen: &mut [Vec<CaseSeen>],
    places: &mut [RowsLeft],
    left: &mut CaseJudgements,
) -> Result<bool, AllocError> {
    let most = count_rows(places).saturating_add(1);
    for _pass in 0..most {
        let before = count_rows(places);
        if !drop_once(alloc, arrivals, seen, places, left)? {
            return Ok(false);
        }
        if count_rows(places) == before {
            return Ok(true);
        }
    }
    Ok(true)
}

/// How many rows there are. Each pass but the last drops one.
fn count_rows(places: &[RowsLeft]) -> usize {
    let mut count: usize = 0;
    for place in places {
        count = count.saturating_add(place.rows.len());
    }
    count
}

/// Asks each case that is to be asked, and tells whether there were judgements enough.
fn drop_once(
    alloc: Global,
    arrivals: &[Vec<PointArrival>],
    seen: &mut [Vec<CaseSeen>],
    places: &mut [RowsLeft],
    left: &mut CaseJudgements,
) -> Result<bool, AllocError> {
    for (proc, own) in arrivals.iter().enumerate() {
        if proc < seen.len() {
            if !drop_in(alloc, own, &mut seen[proc], places, left)? {
                return Ok(false);
            }
        }
    }
    Ok(true)
}

/// The same for the cases of a procedure's steps.
fn drop_in(
    alloc: Global,
    arrivals: &[PointArrival],
    seen: &mut [CaseSeen],
    places: &mut [RowsLeft],
    left: &mut CaseJudgements,
) -> Result<bool, AllocError> {
    for (number, arrival) in arrivals.iter().enumerate() {
        if number < seen.len() && is_stale(places, *arrival, seen[number].drops) {
            if !left.takes(rows_left(places, arrival.to).len()) {
                return Ok(false);
            }
            drop_at(alloc, *arrival, &mut seen[number], places, left)?;
        }
    }
    Ok(true)
}

/// Whether there are rows to be judged, under others than when the case was asked last.
fn is_stale(places: &[RowsLeft], arrival: PointArrival, seen: Option<usize>) -> bool {
    match seen {
        Some(drops) => {
            drops != drops_at(places, arrival.from) && !rows_left(places, arrival.to).is_empty()
        }
        None => !rows_left(places, arrival.to).is_empty(),
    }
}

/// Drops the rows that a case does not keep. It is asked first whether the case has points where it
/// had none before, or most cases have none; else a search that finds none is made twice.
fn drop_at(
    alloc: Global,
    arrival: PointArrival,
    seen: &mut CaseSeen,
    places: &mut [RowsLeft],
    judgements: &mut CaseJudgements,
) -> Result<(), AllocError> {
    seen.drops = Some(drops_at(places, arrival.from));
    let known = rows_known(alloc, seen, arrival, places)?;
    if known.iter().all(|is_known| *is_known) {
        return Ok(());
    }
    let mut search = search_from(alloc, arrival, places)?;
    if seen.was_empty.unwrap_or(judgements.are_mostly_empty()) {
        search.find_points(alloc)?;
    }
    let rows = taken_rows(alloc, places, arrival.to);
    let kept = rows_kept(alloc, arrival, rows, &known, &mut search, seen)?;
    seen.was_empty = Some(search.is_empty());
    judgements.count(search.is_empty());
    put_left(places, arrival.to, kept);
    Ok(())
}

/// Which of the rows at its end a case is known to keep, since all rows that show it are left.
fn rows_known(
    alloc: Global,
    seen: &CaseSeen,
    arrival: PointArrival,
    places: &[RowsLeft],
) -> Result<Vec<bool>, AllocError> {
    let given = numbers_left(places, arrival.from);
    let mut known = Vec::new(alloc);
    for number in numbers_left(places, arrival.to) {
        known.push(is_known(&seen.kept, *number, given))?;
    }
    Ok(known)
}

fn is_known(kept: &[KeptRow], number: u32, given: &[u32]) -> bool {
    kept.iter().any(|row| row.number == number && are_left(row.by.as_slice(), given))
}

/// Whether the numbers are among those of the rows that are left.
fn are_left(numbers: &[u32], given: &[u32]) -> bool {
    numbers
        .iter()
        .all(|number| given.binary_search(number).is_ok())
}

/// The search over a case's points, where the rows at its begin are given.
fn search_from(
    alloc: Global,
    arrival: PointArrival,
    places: &[RowsLeft],
) -> Result<CaseSearch, AllocError> {
    let given = GivenRows {
        rows: rows_left(places, arrival.from),
        numbers: numbers_left(places, arrival.from),
    };
    let case = arrival.case;
    search_under(alloc, case.post.as_slice(), case.rows.as_slice(), given)
}

/// Those of the rows that a case is known to keep, or that a search shows.
fn rows_kept(
    alloc: Global,
    arrival: PointArrival,
    rows: RowsLeft,
    known: &[bool],
    search: &mut CaseSearch,
    seen: &mut CaseSeen,
) -> Result<RowsLeft, AllocError> {
    let count = rows.rows.len();
    let mut kept = RowsLeft::none(alloc, rows.drops);
    let posts = posts_at_end(arrival);
    let mut place: usize = 0;
    for row in rows.rows {
        if place < known.len() && place < rows.numbers.len() {
            let number = rows.numbers[place];
            if known[place] || is_shown(alloc, posts, &row, number, search, seen)? {
                kept.rows.push(row)?;
                kept.numbers.push(number)?;
            }
        }
        place = place.saturating_add(1);
    }
    if kept.rows.len() < count {
        kept.drops = kept.drops.saturating_add(1);
    }
    Ok(kept)
}

/// Whether a search shows a row, which is then known.
fn is_shown(
    alloc: Global,
    posts: &[Poly],
    row: &Row,
    number: u32,
    search: &mut CaseSearch,
    seen: &mut CaseSeen,
) -> Result<bool, AllocError> {
    match search.reasons_for(alloc, posts, row)? {
        Some(by) => {
            seen.kept.push(KeptRow { number, by })?;
            Ok(true)
        }
        None => Ok(false),
    }
}
