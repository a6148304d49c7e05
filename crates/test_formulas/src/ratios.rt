//! Ratios in lowest terms, their sums and products.

use crate::texts::show_worded_step;
use farkas_check::Ratio;
use row_texts::Told;
use whole_numbers::Wide;

/// The ratio that a numerator and a denominator are, if they are in lowest terms.
fn ratio(text: &str) -> Option<Ratio> {
    let (num, den) = text.trim().split_once('/')?;
    let num = num.parse::<i128>().ok()?;
    let den = den.parse::<i128>().ok()?;
    Ratio::new(num, den)
}

pub(crate) fn ratio_of(out: &mut Told, text: &str) -> Ratio {
    match ratio(text) {
        Some(ratio) => ratio,
        None => {
            out.lose();
            Ratio::whole(0)
        }
    }
}

/// Whether a ratio is in lowest terms.
pub(crate) fn show_lowest(out: &mut Told, given: &str) {
    out.truth(ratio(given).is_some());
}

/// A numerator, a slash and a denominator.
pub(crate) fn show_ratio(out: &mut Told, ratio: &Ratio) {
    out.number(ratio.num());
    out.word("/");
    out.number(ratio.den());
}

fn show_made(out: &mut Told, made: Result<Ratio, Wide>) {
    match made {
        Ok(made) => show_ratio(out, &made),
        Err(Wide { left, right, times }) => {
            out.word("wide ");
            show_worded_step(out, left, right, times);
        }
    }
}

/// The sum and the product of two ratios.
pub(crate) fn show_ratios(out: &mut Told, given: &str) {
    let (left, right) = out.halves(given, "|");
    let left = ratio_of(out, left);
    let right = ratio_of(out, right);
    show_made(out, left.sum(&right));
    out.word("; ");
    show_made(out, left.product(&right));
}
