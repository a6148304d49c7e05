ghost use Rattle.std.specs.Prelude.{◌≡◌, ◌∷◌, ◌++◌, IfOk, OnOk, string_bytes};
ghost use Rattle.std.specs.Fmt.{signed_decimal};
ghost use Rattle.farkas_check.specs.Ratios.{ratio_text};
ghost use Rattle.wire.specs.Numbers.{number_of, ratio_of, ratio_of_two, ratio_over};

use crate::error::Wrong;
use crate::shape::{Shape, Written};
use farkas_check::Ratio;
use items::Items;
use itoa::Buffer;
use serde_json::Value;
use std::alloc::{AllocError, Global};

/// The number that a text is the shortest decimal of.
fn number(text: &str) -> Option<i128>
    ensures { result ≡ number_of text.now }
{
    let number = text.parse::<i128>().ok()?;
    let mut digits = Buffer::new();
    if digits.format(number) == text {
        Some(number)
    } else {
        None
    }
}

/// A ratio in lowest terms that is not whole.
fn ratio_over(num: i128, den: i128) -> Option<Ratio>
    ensures { result ≡ ratio_over num den }
{
    if den == 1 {
        return None;
    }
    Ratio::new(num, den)
}

fn ratio_of_two(above: &str, below: &str) -> Option<Ratio>
    ensures { result ≡ ratio_of_two above.now below.now }
{
    let num = number(above)?;
    let den = number(below)?;
    ratio_over(num, den)
}

/// The ratio that a text is the text of: a numerator, and behind a slash the denominator, unless it
/// is 1.
fn ratio(text: &str) -> Option<Ratio>
    ensures { result ≡ ratio_of text.now }
{
    match text.split_once('/') {
        Some((above, below)) => ratio_of_two(above, below),
        None => number(text).map(Ratio::whole),
    }
}

/// Writes a slash and a denominator.
fn push_denominator(text: &mut String, den: i128) -> Result<(), AllocError>
    ensures { OnOk result
        (string_bytes text.new ≡ string_bytes text.old ++ 47 ∷ signed_decimal den) }
{
    let mut digits = Buffer::new();
    text.push_str("/")?;
    text.push_str(digits.format(den))?;
    Ok(())
}

/// The text of a numerator over a denominator.
fn ratio_text(alloc: Global, num: i128, den: i128) -> Result<String, AllocError>
    ensures { IfOk result
        (λ text. string_bytes text ≡ ratio_text (record { num = num; den = den })) }
{
    let mut digits = Buffer::new();
    let mut text = String::from_str(alloc, digits.format(num))?;
    if den == 1 {
        return Ok(text);
    }
    push_denominator(&mut text, den)?;
    Ok(text)
}

impl Shape for i128 {
    ghost use Rattle.wire.specs.Numbers.{whole};

    ghost reads = { whole };

    fn read(alloc: Global, part: &Value) -> Result<i128, Wrong> {
        part.as_str()
            .and_then(number)
            .ok_or(Wrong::At(Items::new(alloc)))
    }
}

impl Written for i128 {
    ghost use Rattle.wire.specs.Written.{whole_data};

    ghost writes = { whole_data };

    fn write(&self, alloc: Global) -> Result<Value, AllocError> {
        let mut digits = Buffer::new();
        Value::try_from_str(alloc, digits.format(*self))
    }
}

impl Shape for Ratio {
    ghost use Rattle.wire.specs.Numbers.{ratio};

    ghost reads = { ratio };

    fn read(alloc: Global, part: &Value) -> Result<Ratio, Wrong> {
        part.as_str()
            .and_then(ratio)
            .ok_or(Wrong::At(Items::new(alloc)))
    }
}

impl Written for Ratio {
    ghost use Rattle.wire.specs.Written.{ratio_data};

    ghost writes = { ratio_data };

    fn write(&self, alloc: Global) -> Result<Value, AllocError> {
        let num = self.num();
        let den = self.den();
        let text = ratio_text(alloc, num, den)?;
        Value::try_from_str(alloc, text.as_str())
    }
}
