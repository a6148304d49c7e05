//! The texts of rows.
use row_texts::Told;
use std::alloc::Global;

/// Puts the byte behind bytes that the first two letters of a part are, and the rest of the part.
fn put_part(bytes: &mut Vec<u8>, part: &str) -> Option<()> {
    let byte = u8::from_str_radix(part.get(..2)?, 16).ok()?;
    bytes.push(byte).ok()?;
    bytes.extend_from_slice(part.get(2..)?.as_bytes()).ok()
}

/// The bytes of a text, in which `~` and two hexadecimal digits stand for one byte.
pub(crate) fn bytes_of(alloc: Global, text: &str) -> Option<Vec<u8>> {
    let mut bytes = Vec::new(alloc);
    let mut parts = text.split('~');
    bytes.extend_from_slice(parts.next()?.as_bytes()).ok()?;
    for part in parts {
        put_part(&mut bytes, part)?;
    }
    Some(bytes)
}

/// A part with its number, which stands for each `~#`.
fn put_numbered(out: &mut Told, part: &str, number: usize) {
    let mut pieces = part.split("~#");
    out.word(pieces.next().unwrap_or(""));
    for piece in pieces {
        out.number(number as i128);
        out.word(piece);
    }
}

/// A part so often, in which `~#` stands for how often it came before.
fn put_repeated(out: &mut Told, part: &str, times: usize) {
    for number in 0..times {
        put_numbered(out, part, number);
    }
}

/// A text of many parts. Between two `~~` stand in turn a text, a part that comes behind it, and
/// how often that comes.
pub(crate) fn put_parts(out: &mut Told, text: &str) {
    let mut pieces = text.split("~~");
    while let Some(before) = pieces.next() {
        out.word(before);
        let part = pieces.next().unwrap_or("");
        let times = pieces.next().unwrap_or("0");
        put_repeated(out, part, times.parse::<usize>().unwrap_or(0));
    }
}

/// The first two words.
pub(crate) fn show_first_words(out: &mut Told, told: &str) {
    let mut words = told.split(' ');
    out.word(words.next().unwrap_or(""));
    out.word(" ");
    out.word(words.next().unwrap_or(""));
}
