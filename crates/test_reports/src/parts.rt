//! The parts of the report.

use farkas_check::{Limit, Ratio};
use items::Items;
use linear_terms::{Col, Mono};
use polynomial_texts::{case, row};
use posing::{Note, Witness};
use report::{Judged, ProcBlock, Verdict};
use std::alloc::Global;
use std::test::Fail;
use syntax_tree::Name;
use transition_formula::{Formula, Loss};

/// The names that a text lists, with blanks between them.
pub(crate) fn names(alloc: Global, text: &str) -> Result<Items<Name>, Fail> {
    let mut names = Items::new(alloc);
    for part in text.split_whitespace() {
        names.push(name(alloc, part)?)?;
    }
    Ok(names)
}

pub(crate) fn name(alloc: Global, text: &str) -> Result<Name, Fail> {
    match Name::new(Items::from_slice(alloc, text.as_bytes())?) {
        Some(name) => Ok(name),
        None => Err("no name".into()),
    }
}

/// A formula whose cases stand in lines.
pub(crate) fn formula(alloc: Global, from: u32, to: u32, lines: &str) -> Result<Formula, Fail> {
    let mut cases = Items::new(alloc);
    for line in lines.lines() {
        cases.push(case(alloc, line)?)?;
    }
    match Formula::new(from, to, cases) {
        Some(formula) => Ok(formula),
        None => Err("no formula".into()),
    }
}

/// A procedure with a global whose name is also a parameter's, and one without cases.
pub(crate) fn blocks(alloc: Global) -> Result<Items<ProcBlock>, Fail> {
    let mut blocks = Items::new(alloc);
    blocks.push(ProcBlock {
        name: name(alloc, "f")?,
        before: names(alloc, "g x g")?,
        after: names(alloc, "g")?,
        formula: formula(
            alloc,
            3,
            2,
            "1 | x1 - $1 + 3 <= 0 | 2*x0*x1 - x2 = 0 ; -x2*x2 - 1 ; x2 - 5\n0 ; 0 ; 7*x0*x0*x1",
        )?,
        notes: notes(alloc)?,
    })?;
    blocks.push(ProcBlock {
        name: name(alloc, "none_of_it")?,
        before: names(alloc, "g")?,
        after: names(alloc, "g")?,
        formula: formula(alloc, 1, 1, "")?,
        notes: Items::new(alloc),
    })?;
    Ok(blocks)
}

fn column(number: u32) -> Result<Mono, Fail> {
    match Mono::new(&[Col::At(number)]) {
        Some(mono) => Ok(mono),
        None => Err("no monomial".into()),
    }
}

fn half() -> Result<Ratio, Fail> {
    match Ratio::new(-1, 2) {
        Some(ratio) => Ok(ratio),
        None => Err("no ratio".into()),
    }
}

/// A row over entry and exit columns that a point drops, and one that a limit drops.
fn drop_notes(alloc: Global) -> Result<Items<Note>, Fail> {
    let mut of = Items::new(alloc);
    let mut at = Items::new(alloc);
    of.push(column(2)?)?;
    at.push(half()?)?;
    of.push(column(4)?)?;
    at.push(Ratio::whole(12))?;
    let mut notes = Items::new(alloc);
    notes.push(Note::Dropped {
        proc: 0,
        row: row(alloc, "x2 - x3 + x4 - 9 <= 0")?,
        by: Witness::Point { of, at },
    })?;
    notes.push(Note::Dropped {
        proc: 1,
        row: row(alloc, "x0 - x1 = 0")?,
        by: Witness::Limit(Limit::Pivots),
    })?;
    Ok(notes)
}

/// Every other note.
fn notes(alloc: Global) -> Result<Items<Note>, Fail> {
    let mut notes = Items::new(alloc);
    notes.push(Note::Loss(Loss::Wide {
        left: -3,
        right: 170_141_183_460_469_231_731_687_303_715_884_105_727,
        times: true,
    }))?;
    notes.push(Note::Loss(Loss::Degree))?;
    notes.push(Note::Squash(17))?;
    notes.push(Note::Cut(3))?;
    notes.push(Note::Limit(Limit::Wide {
        left: 1,
        right: -2,
        times: false,
    }))?;
    notes.append(drop_notes(alloc)?)?;
    notes.push(Note::Facets)?;
    Ok(notes)
}

/// One note of a squashed formula.
pub(crate) fn squash_notes(alloc: Global, cases: u32) -> Result<Items<Note>, Fail> {
    let mut notes = Items::new(alloc);
    notes.push(Note::Squash(cases))?;
    Ok(notes)
}

fn verdicts(alloc: Global) -> Result<Items<Verdict>, Fail> {
    let mut verdicts = Items::new(alloc);
    verdicts.push(Verdict::Proved)?;
    let mut point = Items::new(alloc);
    for number in [2, -7] {
        point.push(Ratio::whole(number))?;
    }
    point.push(half()?)?;
    verdicts.push(Verdict::Unproved {
        case: case(alloc, "2 | $1*$2 + $1 <= 0 | $2 - 4 = 0 ; $1 ; 3 ; -$2")?,
        point,
    })?;
    verdicts.push(Verdict::Unproved {
        case: case(alloc, "0 ; 1 ; 2 ; 3")?,
        point: Items::new(alloc),
    })?;
    verdicts.push(Verdict::UnprovedLimit {
        case: case(alloc, "1 | $1 + 1 <= 0 ; $1 ; 2 ; 3")?,
        limit: Limit::Wide {
            left: 9,
            right: 11,
            times: true,
        },
    })?;
    Ok(verdicts)
}

/// An assertion for each verdict, in which the third shown column has the name of the first.
pub(crate) fn judgements(alloc: Global) -> Result<Items<Judged>, Fail> {
    let mut all = Items::new(alloc);
    for verdict in verdicts(alloc)? {
        let mut shown = Items::new(alloc);
        for number in [0, 1, 5] {
            shown.push(number)?;
        }
        all.push(Judged {
            at: 40,
            line: 3,
            column: 14,
            named: names(alloc, "g x g")?,
            shown,
            verdict,
            notes: squash_notes(alloc, 20)?,
        })?;
    }
    Ok(all)
}
