ghost use Rattle.std.specs.Prelude.{◌≡◌, ◌+◌, ◌<◌, ℕ, ℤ, [], if◌then◌else◌, pos, int_div, unsigned_abs, length, map, get_or, IfOk, IfErr};
ghost use Rattle.items.specs.Gives.{Gives};
ghost use Rattle.whole_numbers.specs.Divisors.{gcd_of, gcd_of_all};
ghost use Rattle.whole_numbers.specs.Fits.{product_of};
ghost use Rattle.simplex.specs.Calm.{HasSquares, HasSmallLines, IsMemory};
ghost use Rattle.simplex.specs.Refusal.{LeavesBits, IsRefusal};
ghost use Rattle.simplex.specs.Exchange.{cause, sum_of_lines, sum_of_products, line_multiple, reduced_line, upright_line, line_without, line_without_at, lines_without, exchange, numbers_of, HasShape, KeepsFrames};

use crate::SearchStop;
use crate::steps::{step_product, step_sum};
use items::Items;
use std::alloc::{AllocError, Global};
use whole_numbers::{Wide, gcd, quotient};

/// A chosen column for each line. A line's numbers are whole and have no common divisor but 1; the
/// one at its own chosen column is positive and stands for its denominator.
#[derive(Drop)]
pub struct Tableau {
    pub lines: Items<Items<i128>>,
    pub chosen: Items<usize>,
}

impl Tableau {
    /// Chooses the column in the line in place of the one that is chosen there: a tableau of a
    /// frame becomes one of the same frame. A step that leaves 128 bits stops it.
    pub fn exchange(self, alloc: Global, line: usize, column: usize) -> Result<Tableau, SearchStop>
        ghost columns: { ℕ }
        requires shape { HasShape columns self }
        requires line { line < length self.lines }
        requires column { column < columns }
        requires pivot { numbers_of self line column ≡ pos 0 → ⊥ }
        ensures exact { Gives cause (λ t. t) result (exchange self line column) }
        ensures kept { KeepsFrames columns self result }
        ensures refusal { IfErr result IsRefusal }
        ensures calm { (n : ℕ) → HasSquares n → HasSmallLines n self → IfErr result IsMemory }
    {
        let made = self.exchange_line(alloc, line, column)?;
        Ok(made)
    }

    fn exchange_line(self, alloc: Global, line: usize, column: usize) -> Result<Tableau, SearchStop>
        ghost columns: { ℕ }
        requires shape { HasShape columns self }
        requires line { line < length self.lines }
        requires column { column < columns }
        ensures exact { Gives cause (λ t. t) result (exchange self line column) }
        ensures refusal { IfErr result IsRefusal }
    {
        let Tableau { lines, chosen } = self;
        let pivot = upright_line(alloc, lines[line].as_slice(), column)?;
        let lines = other_lines(alloc, lines, line, column, pivot.as_slice())?;
        let mut chosen = chosen.into_vec();
        chosen[line] = column;
        Ok(Tableau {
            lines,
            chosen: Items::from_vec(chosen),
        })
    }
}

/// Each line but the pivot's is cleared at the column. A line that is 0 there stays as it is.
fn other_lines(
    alloc: Global,
    lines: Items<Items<i128>>,
    line: usize,
    column: usize,
    pivot: &[i128],
) -> Result<Items<Items<i128>>, SearchStop>
    requires column { column < length pivot.now }
    requires wide { (i : ℕ) → i < length lines → length (get_or lines i []) ≡ length pivot.now }
    ensures exact { Gives cause (λ made. made) result
        (lines_without column pivot.now line 0 lines) }
    ensures refusal { IfErr result IsRefusal }
{
    let mut made = Items::from_vec(Vec::with_capacity(alloc, lines.len())?);
    for own in lines {
        let here = made.len() == line;
        made.push(line_without_at(alloc, own, here, column, pivot)?)?;
    }
    Ok(made)
}

/// The pivot itself at its own place, and elsewhere the line cleared.
fn line_without_at(
    alloc: Global,
    own: Items<i128>,
    here: bool,
    column: usize,
    pivot: &[i128],
) -> Result<Items<i128>, SearchStop>
    requires column { column < length own }
    requires same { length pivot.now ≡ length own }
    ensures exact { Gives cause (λ made. made) result
        (if here then Ok pivot.now else line_without column pivot.now own) }
    ensures refusal { IfErr result IsRefusal }
{
    if here {
        return Ok(Items::from_slice(alloc, pivot)?);
    }
    line_without(alloc, own, column, pivot)
}

/// The signs turned where the number at the column is negative.
pub(crate) fn upright_line(
    alloc: Global,
    line: &[i128],
    column: usize,
) -> Result<Items<i128>, SearchStop>
    requires { column < length line.now }
    ensures exact { Gives cause (λ made. made) result (upright_line column line.now) }
    ensures refusal { IfErr result IsRefusal }
{
    if line[column] < 0 {
        line_multiple(alloc, line, &-1)
    } else {
        Ok(Items::from_slice(alloc, line)?)
    }
}

pub(crate) fn line_multiple(
    alloc: Global,
    line: &[i128],
    by: &i128,
) -> Result<Items<i128>, SearchStop>
    ensures exact { Gives cause (λ made. made) result (line_multiple line.now by.now) }
    ensures refusal { IfErr result IsRefusal }
{
    let mut made = Vec::from_slice(alloc, line)?;
    for i in 0..made.len() {
        made[i] = multiple(&line[i], by)?;
    }
    Ok(Items::from_vec(made))
}

/// A number's multiple. That of 0 is not made.
#[tactic(auto, using(crate::proofs::Lines::nothing_made))]
fn multiple(number: &i128, by: &i128) -> Result<i128, Wide>
    ensures exact { result ≡ product_of number.now by.now }
    ensures width { IfErr result LeavesBits }
{
    if *number == 0 {
        return Ok(0);
    }
    step_product(number, by)
}

/// A line cleared at the column by one that is positive there.
pub(crate) fn line_without(
    alloc: Global,
    line: Items<i128>,
    column: usize,
    pivot: &[i128],
) -> Result<Items<i128>, SearchStop>
    requires column { column < length line }
    requires same { length pivot.now ≡ length line }
    ensures exact { Gives cause (λ made. made) result (line_without column pivot.now line) }
    ensures refusal { IfErr result IsRefusal }
{
    if line[column] == 0 {
        return Ok(line);
    }
    let by = step_product(&line[column], &-1)?;
    let made = sum_of_lines(&pivot[column], line, &by, pivot)?;
    Ok(reduced_line(made))
}

/// A multiple of a line and a multiple of another, in the place of the first.
fn sum_of_lines(
    p: &i128,
    line: Items<i128>,
    q: &i128,
    pivot: &[i128],
) -> Result<Items<i128>, SearchStop>
    requires { length pivot.now ≡ length line }
    ensures exact { Gives cause (λ made. made) result (sum_of_lines p.now line q.now pivot.now) }
    ensures refusal { IfErr result IsRefusal }
{
    let mut made = line.into_vec();
    for i in 0..made.len() {
        let number = made[i];
        made[i] = sum_of_products(p, &number, q, &pivot[i])?;
    }
    Ok(Items::from_vec(made))
}

/// Where a number is 0 its product is not made.
#[tactic(auto, using(crate::proofs::Lines::nothing_added))]
fn sum_of_products(p: &i128, a: &i128, q: &i128, b: &i128) -> Result<i128, Wide>
    ensures exact { result ≡ sum_of_products p.now a.now q.now b.now }
    ensures width { IfErr result LeavesBits }
{
    if *b == 0 {
        if *a == 0 {
            return Ok(0);
        }
        return step_product(p, a);
    }
    if *a == 0 {
        return step_product(q, b);
    }
    let left = step_product(p, a)?;
    let right = step_product(q, b)?;
    step_sum(&left, &right)
}

/// The numbers divided by their greatest common divisor.
#[tactic(auto, using(crate::proofs::Lines::short_lines))]
fn reduced_line(line: Items<i128>) -> Items<i128>
    ensures { result ≡ reduced_line line }
{
    let divisor = divisor(line.as_slice());
    if divisor <= 1 {
        return line;
    }
    quotients(line, divisor)
}

/// The numbers divided, each in its place.
fn quotients(line: Items<i128>, divisor: u128) -> Items<i128>
    requires { 0 < divisor }
    ensures { result ≡ map (λ z. int_div z (pos divisor)) line }
{
    let mut made = line.into_vec();
    for i in 0..made.len() {
        let number = made[i];
        made[i] = share(number, divisor);
    }
    Items::from_vec(made)
}

fn share(number: i128, divisor: u128) -> i128
    requires { 0 < divisor }
    ensures { result ≡ int_div number (pos divisor) }
{
    if number == 0 {
        return 0;
    }
    quotient(number, divisor)
}

/// The greatest common divisor of the numbers.
fn divisor(line: &[i128]) -> u128
    ensures { result ≡ gcd_of_all line.now }
{
    let mut divisor = 0;
    for number in line {
        if divisor == 1 {
            return 1;
        }
        divisor = divisor_with(divisor, number);
    }
    divisor
}

#[tactic(auto, using(crate::proofs::Lines::zero_divisors))]
fn divisor_with(divisor: u128, number: &i128) -> u128
    ensures { result ≡ gcd_of divisor (unsigned_abs number.now) }
{
    if *number == 0 {
        return divisor;
    }
    gcd(divisor, number.unsigned_abs())
}
