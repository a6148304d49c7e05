ghost use Rattle.std.specs.Prelude.{◌≡◌, ◌<◌, ◌^◌, ◌++◌, map, length, IfOk, OnOk};
ghost use Rattle.std.specs.List.{filter_map};
ghost use Rattle.newton_rounds.specs.Candidates.{drop_notes_by, drop_notes_in, dropped_notes, kept_row};

use items::Items;
use linear_terms::Row;
use posing::{Note, Witness};
use std::alloc::{AllocError, Global};

/// A row of a candidate with what refutes it.
#[derive(Drop)]
pub(crate) struct JudgedRow {
    pub(crate) row: Row,
    pub(crate) by: Option<Witness>,
}

/// A dropped row is noted by the place of its procedure in the group.
pub(crate) fn dropped_notes(
    alloc: Global,
    judged: &[Items<JudgedRow>],
) -> Result<Items<Note>, AllocError>
    requires { length judged.now < 2 ^ 32 }
    ensures { IfOk result (λ notes. notes ≡ dropped_notes judged.now) }
{
    let mut notes = Items::new(alloc);
    for (place, rows) in judged.iter().enumerate() {
        add_dropped(place as u32, rows.as_slice(), &mut notes)?;
    }
    Ok(notes)
}

fn add_dropped(place: u32, judged: &[JudgedRow], notes: &mut Items<Note>) -> Result<(), AllocError>
    ensures { OnOk result (notes.new ≡ notes.old ++ drop_notes_in (place, judged.now)) }
{
    for one in judged {
        add_note(place, one, notes)?;
    }
    Ok(())
}

fn add_note(place: u32, judged: &JudgedRow, notes: &mut Items<Note>) -> Result<(), AllocError>
    ensures { OnOk result (notes.new ≡ notes.old ++ drop_notes_by place judged.now.row judged.now.by) }
{
    if let Some(by) = &judged.by {
        let row = judged.row.clone()?;
        let by = by.clone()?;
        notes.push(Note::Dropped {
            proc: place,
            row,
            by,
        })?;
    }
    Ok(())
}

pub(crate) fn kept_rows(
    alloc: Global,
    judged: &[Items<JudgedRow>],
) -> Result<Items<Items<Row>>, AllocError>
    ensures { IfOk result (λ kept. kept ≡ map (filter_map kept_row) judged.now) }
{
    let mut kept = Items::new(alloc);
    for rows in judged {
        kept.push(unrefuted_rows(alloc, rows.as_slice())?)?;
    }
    Ok(kept)
}

fn unrefuted_rows(alloc: Global, judged: &[JudgedRow]) -> Result<Items<Row>, AllocError>
    ensures { IfOk result (λ rows. rows ≡ filter_map kept_row judged.now) }
{
    let mut rows = Items::new(alloc);
    for one in judged {
        if one.by.is_none() {
            rows.push(one.row.clone()?)?;
        }
    }
    Ok(rows)
}
