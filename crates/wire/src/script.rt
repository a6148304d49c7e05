ghost use Rattle.std.specs.Prelude.{◌≡◌, ◌<◌, ◌≤◌, ◌^◌, codes, length, IsTrue, IfOk};
ghost use Rattle.items.specs.Gives.{Gives};
ghost use Rattle.serde_json.specs.View.{items_view, view};
ghost use Rattle.wire.specs.Edits.{is_inside, text_after, texts_from, texts_of, with_edit};
ghost use Rattle.wire.specs.Errors.{fault, wrong_path};
ghost use Rattle.wire.specs.Shapes.{field};
ghost use Rattle.wire.specs.Files.{edits, few_edits, most_edits, script, script_of};

use crate::FileText;
use crate::certificate::json;
use crate::error::{WireError, Wrong};
use crate::shape::{Shape, field, items, member, under_key};
use crate::text::{MOST_TEXT, source};
use items::Items;
use serde_json::Value;
use std::alloc::{AllocError, Global};

/// A change of a text: at a place, the bytes that are removed there, and what is put in for them.
#[derive(Debug, Drop)]
pub struct Edit {
    pub at: u32,
    pub remove: u32,
    pub insert: FileText,
}

/// A text, and edits that are made one after the other.
#[derive(Debug, Drop)]
pub struct Script {
    pub text: FileText,
    pub edits: Items<Edit>,
}

impl Shape for Edit {
    ghost use Rattle.wire.specs.Files.{edit};

    ghost reads = { edit };

    fn read(alloc: Global, part: &Value) -> Result<Edit, Wrong> {
        let at = field(alloc, part, "at")?;
        let remove = field(alloc, part, "remove")?;
        let insert = field(alloc, part, "insert")?;
        Ok(Edit { at, remove, insert })
    }
}

/// The most edits of a script.
pub const MOST_EDITS: usize = 1000;

#[tactic(auto, using(crate::proofs::JsonTexts::lengths))]
fn few_edits(alloc: Global, parts: &[Value]) -> Result<Items<Edit>, Wrong>
    ensures exact { Gives wrong_path (λ x. x) result (few_edits (items_view parts.now)) }
    ensures few { IfOk result (λ edits. length edits ≤ most_edits) }
{
    if parts.len() <= MOST_EDITS {
        items(alloc, parts)
    } else {
        Err(Wrong::At(Items::new(alloc)))
    }
}

fn edits(alloc: Global, part: &Value) -> Result<Items<Edit>, Wrong>
    ensures exact { Gives wrong_path (λ x. x) result (edits (view part.now)) }
    ensures few { IfOk result (λ edits. length edits ≤ most_edits) }
{
    match part.as_array() {
        Some(parts) => few_edits(alloc, parts.as_slice()),
        None => Err(Wrong::At(Items::new(alloc))),
    }
}

fn edits_in(alloc: Global, file: &Value) -> Result<Items<Edit>, Wrong>
    ensures exact { Gives wrong_path (λ x. x) result (field (codes "edits") edits (view file.now)) }
    ensures few { IfOk result (λ edits. length edits ≤ most_edits) }
{
    let part = member(alloc, file, "edits")?;
    under_key(alloc, "edits", edits(alloc, part))
}

fn script_parts(alloc: Global, file: &Value) -> Result<Script, Wrong>
    ensures exact { Gives wrong_path (λ x. x) result (script (view file.now)) }
    ensures few { IfOk result (λ script. length script.edits ≤ most_edits) }
{
    let text = source(alloc, file)?;
    let edits = edits_in(alloc, file)?;
    Ok(Script { text, edits })
}

/// Reads an edit script. `Json` where the bytes are no JSON text, `Shape` with the first wrong
/// part.
pub fn read_script(alloc: Global, bytes: &[u8]) -> Result<Script, WireError>
    ensures exact { Gives fault (λ x. x) result (script_of bytes.now) }
    ensures few { IfOk result (λ script. length script.edits ≤ most_edits) }
{
    let file = json(alloc, bytes)?;
    Ok(script_parts(alloc, &file)?)
}

/// Whether an edit lies in the text and splits no character.
fn is_inside(text: &FileText, edit: &Edit) -> bool
    ensures { result ≡ is_inside text.now edit.now }
{
    let text = text.as_str();
    let end = edit.at as u64 + edit.remove as u64;
    text.is_char_boundary(edit.at as usize) && text.is_char_boundary(end as usize)
}

/// The text with an edit made.
fn with_edit(alloc: Global, text: &FileText, edit: &Edit) -> Result<FileText, AllocError>
    requires { IsTrue (is_inside text.now edit.now) }
    ensures { IfOk result (λ next. next ≡ with_edit text.now edit.now) }
{
    let at = edit.at as usize;
    let end = at + edit.remove as usize;
    let old = text.as_str();
    let mut next = String::from_str(alloc, &old[..at])?;
    next.push_str(edit.insert.as_str())?;
    next.push_str(&old[end..])?;
    Ok(FileText::from_string(next))
}

/// The text after an edit, which has this number.
fn text_after(
    alloc: Global,
    number: u32,
    text: &FileText,
    edit: &Edit,
) -> Result<FileText, WireError>
    ensures { Gives fault (λ x. x) result (text_after number text.now edit.now) }
{
    if !is_inside(text, edit) {
        return Err(WireError::Edit(number));
    }
    let next = with_edit(alloc, text, edit)?;
    if next.as_str().len() <= MOST_TEXT {
        Ok(next)
    } else {
        Err(WireError::Edit(number))
    }
}

/// A text, and the text after each edit.
fn texts_from(alloc: Global, first: FileText, edits: &[Edit]) -> Result<Items<FileText>, WireError>
    requires { length edits.now < 2 ^ 32 }
    ensures { Gives fault (λ x. x) result (texts_from first edits.now) }
{
    let mut made = Items::new(alloc);
    let mut last = first;
    for (place, edit) in edits.iter().enumerate() {
        let next = text_after(alloc, place as u32 + 1, &last, edit)?;
        made.push(last)?;
        last = next;
    }
    made.push(last)?;
    Ok(made)
}

/// The texts of a script: the first, and the text after each edit. `Edit` with the number of the
/// first edit, from 1, that reaches past its text, splits a character, or gives a text of more than
/// 1,048,576 bytes.
pub fn texts(alloc: Global, script: &Script) -> Result<Items<FileText>, WireError>
    requires { length script.now.edits < 2 ^ 32 }
    ensures { Gives fault (λ x. x) result (texts_of script.now) }
{
    texts_from(alloc, script.text.clone()?, script.edits.as_slice())
}
