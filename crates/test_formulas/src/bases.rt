//! Reduced bases of rows of ratios.

use crate::ratios::{ratio_of, show_ratio};
use elimination::{are_small_ratios, reduced_basis};
use farkas_check::Ratio;
use items::Items;
use row_texts::Told;

fn row_of(out: &mut Told, text: &str) -> Items<Ratio> {
    let mut numbers = Items::new(out.alloc());
    for word in text.split_whitespace() {
        let number = ratio_of(out, word);
        out.lose_unless(numbers.push(number).is_ok());
    }
    numbers
}

/// Rows, parted by semicolons; `none` stands for no row.
fn rows_of(out: &mut Told, text: &str) -> Items<Items<Ratio>> {
    let mut rows = Items::new(out.alloc());
    if text != "none" {
        for part in text.split(';') {
            let row = row_of(out, part);
            out.lose_unless(rows.push(row).is_ok());
        }
    }
    rows
}

fn show_line(out: &mut Told, line: &[Ratio]) {
    for number in line {
        out.word(" ");
        show_ratio(out, number);
    }
    out.word(";");
}

fn show_lines(out: &mut Told, lines: &[Items<Ratio>]) {
    out.count("", lines.len());
    out.word(" lines:");
    for line in lines {
        show_line(out, line.as_slice());
    }
}

/// The lines of the reduced basis, or that the rows are not small.
pub(crate) fn show_reduced(out: &mut Told, given: &str) {
    let rows = rows_of(out, given);
    if !are_small_ratios(rows.as_slice()) {
        out.word("not small");
        return;
    }
    match reduced_basis(out.alloc(), rows.as_slice()) {
        Ok(lines) => show_lines(out, lines.as_slice()),
        Err(_) => out.lose(),
    }
}
