//! What is told of a file that is not read.

use row_texts::Told;
use wire::WireError;

fn show_shape(out: &mut Told, path: &[u8]) {
    out.word("shape ");
    out.letters(path);
}

/// An error in words.
pub(crate) fn show_error(out: &mut Told, error: &WireError) {
    match error {
        WireError::Json => out.word("json"),
        WireError::Shape(path) => show_shape(out, path.as_slice()),
        WireError::Version(number) => {
            out.word("version ");
            out.number(i128::from(*number));
        }
        WireError::Edit(number) => out.place("edit ", *number),
        WireError::Memory => out.word("memory"),
    }
}
