ghost use Rattle.std.specs.Prelude.{◌≡◌, ◌≤◌, IfOk, IsTrue, drop, length, map, take};
ghost use Rattle.c_lexer.specs.Laws.{ascends_from};
ghost use Rattle.summary_cache.specs.Limits.{most_bytes};
ghost use Rattle.summary_cache.specs.Place.{column_at, line_at};
ghost use Rattle.summary_cache.specs.Stated.{text_place};

use analysis::TextPlace;
use items::Items;
use std::alloc::{AllocError, Global};

/// What stands before a place.
fn before(text: &[u8], at: u32) -> &[u8]
    ensures { result.now ≡ take at text.now }
{
    if (at as usize) < text.len() {
        &text[..at as usize]
    } else {
        text
    }
}

/// The line of a place: one more than the newlines before it.
pub fn line_at(text: &[u8], at: u32) -> u32
    requires { length text.now ≤ most_bytes }
    ensures { result ≡ line_at text.now at }
{
    let mut line = 1;
    for byte in before(text, at) {
        if *byte == b'\n' {
            line += 1;
        }
    }
    line
}

/// The column of a place: one more than the bytes since the last newline.
pub fn column_at(text: &[u8], at: u32) -> u32
    requires { length text.now ≤ most_bytes }
    ensures { result ≡ column_at text.now at }
{
    let mut column = 1;
    for byte in before(text, at) {
        if *byte == b'\n' {
            column = 1;
        } else {
            column += 1;
        }
    }
    column
}

/// What stands behind one place and before another.
fn between(text: &[u8], from: u32, to: u32) -> &[u8]
    ensures { result.now ≡ drop from (take to text.now) }
{
    let front = before(text, to);
    if (from as usize) < front.len() {
        &front[from as usize..]
    } else {
        &[]
    }
}

/// A place, by the bytes since one that is not behind it.
fn place_from(text: &[u8], last: TextPlace, at: u32) -> TextPlace
    requires short { length text.now ≤ most_bytes }
    requires last { last ≡ text_place text.now last.at }
    requires order { last.at ≤ at }
    ensures { result ≡ text_place text.now at }
{
    let mut line = last.line;
    let mut column = last.column;
    for byte in between(text, last.at, at) {
        if *byte == b'\n' {
            line += 1;
            column = 1;
        } else {
            column += 1;
        }
    }
    TextPlace { at, line, column }
}

/// The places of bytes of a text, which ascend. Each goes on from the one before it.
pub fn places_of(alloc: Global, text: &[u8], ats: &[u32]) -> Result<Items<TextPlace>, AllocError>
    requires short { length text.now ≤ most_bytes }
    requires ascend { IsTrue (ascends_from 0 ats.now) }
    ensures { IfOk result (λ places. places ≡ map (text_place text.now) ats.now) }
{
    let mut places = Items::new(alloc);
    let mut last = TextPlace {
        at: 0,
        line: 1,
        column: 1,
    };
    for at in ats {
        last = place_from(text, last, *at);
        places.push(last)?;
    }
    Ok(places)
}
