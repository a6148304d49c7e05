//! The reports of worked texts: their parts are printed as the text beside them.

use crate::parts::{formula, name, names};
use crate::table::{COUNT, TABLE};
use farkas_check::Ratio;
use items::Items;
use linear_terms::Row;
use polynomial_texts::{case, row};
use posing::Note;
use report::{
    Judged, PointRows, PointsTold, ProcBlock, Report, RowsAt, Verdict, print_with_points,
};
use std::alloc::Global;
use std::process::Abort;
use std::test::Fail;
use transition_formula::Loss;

fn number(text: &str) -> Result<u32, Fail> {
    Ok(text.trim().parse::<u32>()?)
}

/// A formula of so many cases was made one, or a product left 128 bits.
fn note(alloc: Global, text: &str) -> Result<Note, Fail> {
    let parts = text.split_whitespace().collect::<Vec<&str>>(alloc)?;
    match parts.as_slice() {
        ["squash", cases] => Ok(Note::Squash(number(cases)?)),
        ["wide", left, right] => Ok(Note::Loss(Loss::Wide {
            left: left.parse::<i128>()?,
            right: right.parse::<i128>()?,
            times: true,
        })),
        _ => Err("no note".into()),
    }
}

fn notes(alloc: Global, text: &str) -> Result<Items<Note>, Fail> {
    let mut made = Items::new(alloc);
    if !text.trim().is_empty() {
        for part in text.split(',') {
            made.push(note(alloc, part)?)?;
        }
    }
    Ok(made)
}

fn block(alloc: Global, text: &str) -> Result<ProcBlock, Fail> {
    let (head, cases) = match text.split_once('\n') {
        Some((head, cases)) => (head, cases),
        None => (text, ""),
    };
    let fields = head.split(';').collect::<Vec<&str>>(alloc)?;
    let [title, before, after, exits, all] = fields.as_slice() else {
        return Err("no procedure".into());
    };
    let before = names(alloc, before)?;
    let entries = u32::try_from(before.len())?;
    let formula = formula(alloc, entries, number(exits)?, cases)?;
    Ok(ProcBlock {
        name: name(alloc, title.trim())?,
        before,
        after: names(alloc, after)?,
        formula,
        notes: notes(alloc, all)?,
    })
}

fn point(alloc: Global, text: &str) -> Result<Items<Ratio>, Fail> {
    let mut made = Items::new(alloc);
    if !text.trim().is_empty() {
        for part in text.split(',') {
            made.push(Ratio::whole(part.trim().parse::<i128>()?))?;
        }
    }
    Ok(made)
}

fn verdict(alloc: Global, fields: &[&str]) -> Result<Verdict, Fail> {
    match fields {
        [_proved] => Ok(Verdict::Proved),
        [full, numbers] => {
            let case = case(alloc, full)?;
            let point = point(alloc, numbers)?;
            Ok(Verdict::Unproved { case, point })
        }
        _ => Err("no verdict".into()),
    }
}

fn shown_columns(alloc: Global, text: &str) -> Result<Items<u32>, Fail> {
    let mut made = Items::new(alloc);
    for part in text.split_whitespace() {
        made.push(number(part)?)?;
    }
    Ok(made)
}

fn judgement(alloc: Global, text: &str) -> Result<Judged, Fail> {
    let fields = text.split('@').collect::<Vec<&str>>(alloc)?;
    let [place, named, columns, ..] = fields.as_slice() else {
        return Err("no assertion".into());
    };
    let (line, column) = place.trim().split_once(' ').ok_or("no place")?;
    let verdict = verdict(alloc, &fields.as_slice()[3..])?;
    Ok(Judged {
        at: 0,
        line: number(line)?,
        column: number(column)?,
        named: names(alloc, named)?,
        shown: shown_columns(alloc, columns)?,
        verdict,
        notes: Items::new(alloc),
    })
}

/// The entry, the head of a loop by its number, or the return.
fn rows_at(text: &str) -> Result<RowsAt, Fail> {
    match text {
        "entry" => Ok(RowsAt::Entry),
        "return" => Ok(RowsAt::Return),
        _ => Ok(RowsAt::Loop(number(text)?)),
    }
}

fn rows(alloc: Global, lines: &str) -> Result<Items<Row>, Fail> {
    let mut made = Items::new(alloc);
    for line in lines.lines() {
        made.push(row(alloc, line)?)?;
    }
    Ok(made)
}

fn point_rows(alloc: Global, text: &str) -> Result<PointRows, Fail> {
    let (head, lines) = text.split_once('\n').ok_or("no rows")?;
    let fields = head.split(';').collect::<Vec<&str>>(alloc)?;
    let [title, columns, after] = fields.as_slice() else {
        return Err("no place of rows".into());
    };
    let (at, proc) = title.trim().split_once(' ').ok_or("no procedure of rows")?;
    Ok(PointRows {
        proc: 0,
        name: name(alloc, proc)?,
        at: rows_at(at)?,
        columns: names(alloc, columns)?,
        after: names(alloc, after)?,
        rows: rows(alloc, lines)?,
    })
}

fn points_told(alloc: Global, text: &str) -> Result<PointsTold, Fail> {
    let mut rows = Items::new(alloc);
    for part in text.split("> ") {
        if let Some(rest) = part.strip_prefix("rows ") {
            rows.push(point_rows(alloc, rest.trim())?)?;
        }
    }
    Ok(PointsTold {
        is_cut: text.contains("> search cut\n"),
        rows,
    })
}

fn report(alloc: Global, text: &str) -> Result<Report, Fail> {
    let mut procs = Items::new(alloc);
    let mut all = Items::new(alloc);
    for part in text.split("> ") {
        if let Some(rest) = part.strip_prefix("procedure ") {
            procs.push(block(alloc, rest.trim())?)?;
        }
        if let Some(rest) = part.strip_prefix("assertion ") {
            all.push(judgement(alloc, rest)?)?;
        }
    }
    Ok(Report {
        procs,
        notes: Items::new(alloc),
        judged: all,
    })
}

fn check_report(alloc: Global, rt: &impl Abort, row: &str) -> Result<(), Fail> {
    let (parts, text) = row.split_once("\n> report\n").ok_or("no report")?;
    let told = points_told(alloc, parts)?;
    let printed = print_with_points(alloc, &report(alloc, parts)?, &told)?;
    assert_eq!(rt; str::from_utf8(&printed)?.trim_end(), text);
    Ok(())
}

fn check_reports(alloc: Global, rt: &impl Abort, table: &str, count: usize) -> Result<(), Fail> {
    assert_eq!(rt; table.split("\n\n").count(), count);
    for row in table.split("\n\n") {
        check_report(alloc, rt, row)?;
    }
    Ok(())
}

#[test]
fn reports(rt: HostRuntime) -> Result<(), Fail> {
    check_reports(rt.alloc(), &rt, TABLE, COUNT)
}
