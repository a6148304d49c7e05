//! What operations answer, and the steps that leave 128 bits.

use linear_terms::TermError;
use row_texts::Told;
use std::fmt::Display;

/// What an operation answers. What cannot be made stands behind `!`.
pub(crate) fn show_answer<T: Display + Drop>(out: &mut Told, made: Result<T, TermError>) {
    match made {
        Ok(value) => out.value(&value),
        Err(error) => show_fault(out, error),
    }
}

fn show_fault(out: &mut Told, error: TermError) {
    match error {
        TermError::Wide { left, right, times } => {
            out.word("! ");
            show_step(out, left, right, times);
        }
        TermError::Degree => out.word("! degree"),
        TermError::Memory => out.lose(),
    }
}

/// A sum or a product, by its mark.
pub(crate) fn show_step(out: &mut Told, left: i128, right: i128, times: bool) {
    out.number(left);
    out.word(if times { " * " } else { " + " });
    out.number(right);
}

/// A sum or a product, in words.
pub(crate) fn show_worded_step(out: &mut Told, left: i128, right: i128, times: bool) {
    out.number(left);
    out.word(if times { " times " } else { " plus " });
    out.number(right);
}
