//! Texts with values and turns, on which one execution is followed.

use crate::faults::show_error;
use row_texts::Told;
use wire::{Input, read_replay};

/// How many bytes a text has, its values and its turns.
fn show_input(out: &mut Told, input: &Input) {
    out.count("", input.text.as_str().len());
    out.word(" bytes;");
    for value in input.values.as_slice() {
        out.word(" ");
        out.number(*value);
    }
    out.place("; ", input.turns);
}

/// What a file says, or why it is not read.
pub(crate) fn show(out: &mut Told, file: &str) {
    match read_replay(out.alloc(), file.as_bytes()) {
        Ok(input) => show_input(out, &input),
        Err(error) => show_error(out, &error),
    }
}
