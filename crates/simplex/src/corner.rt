ghost use Rattle.std.specs.Prelude.{◌≡◌, ◌≢◌, ◌+◌, ◌<◌, ◌≤◌, ◌<ℤ◌, pos, ℕ, length, get_or, MatchOption, IfOk, IfErr};
ghost use Rattle.simplex.specs.Exchange.{IsTableauOf, choices_of};
ghost use Rattle.farkas_check.specs.Relations.{entry};
ghost use Rattle.simplex.specs.Raise.{Framed};
ghost use Rattle.simplex.specs.Calm.{HasSquares, IsSmallLine, HasSmallLines, IsMemory};
ghost use Rattle.simplex.specs.Refusal.{LeavesBits, IsRefusal};
ghost use Rattle.simplex.specs.SearchSteps.{StopsBy, IsNumberStep, IsSlopeStep};
ghost use Rattle.simplex.specs.Suprema.{SlopeAt, IsRayOf, chosen_slope};
ghost use Rattle.simplex.specs.Search.{CornerAt, IsCornerOf, IsLineChoosing, chosen_number};

use crate::steps::step_product;
use crate::{SearchStop, Tableau};
use farkas_check::Ratio;
use items::Items;
use std::alloc::Global;
use whole_numbers::Wide;

/// The corner of a tableau: a number for each column of the question. It is 0 where no line chooses
/// the column.
pub(crate) fn corner(
    alloc: Global,
    t: &Tableau,
    constants: usize,
) -> Result<Items<Ratio>, SearchStop>
    ghost over: { Framed }
    requires tableau { IsTableauOf over.units over.frame t.now }
    requires units { constants < over.units }
    ensures corner { IfOk result (λ point. IsCornerOf t.now constants constants point) }
    ensures refusal { IfErr result IsRefusal }
    ensures step { IfErr result (StopsBy (IsNumberStep t.now constants)) }
    ensures calm { (n : ℕ) → HasSquares n → HasSmallLines n t.now → IfErr result IsMemory }
{
    let mut point = Vec::with_capacity(alloc, constants)?;
    point.resize(constants, Ratio::whole(0))?;
    for line in 0..t.lines.len() {
        let column = t.chosen[line];
        if column < constants {
            point[column] = number_in(t, constants, line, column)?;
        }
    }
    Ok(Items::from_vec(point))
}

/// What the corner has at the column that a line chooses.
fn number_in(t: &Tableau, constants: usize, line: usize, column: usize) -> Result<Ratio, Wide>
    ghost over: { Framed }
    requires tableau { IsTableauOf over.units over.frame t.now }
    requires units { constants < over.units }
    requires line { line < length t.now.lines }
    requires chosen { choices_of t.now line ≡ column }
    requires column { column < constants }
    ensures corner { IfOk result (λ r. CornerAt t.now constants column r) }
    ensures width { IfErr result LeavesBits }
    ensures step { IfErr result (IsNumberStep t.now constants) }
    ensures calm { (n : ℕ) → HasSquares n → HasSmallLines n t.now → IfErr result (λ _. ⊥) }
{
    chosen_number(t.lines[line].as_slice(), constants, column)
}

/// What the corner has at the column that a line chooses: minus its constant over its number there.
fn chosen_number(line: &[i128], constants: usize, column: usize) -> Result<Ratio, Wide>
    requires constants { constants < length line.now }
    requires column { column < length line.now }
    requires positive { pos 0 <ℤ entry line.now column }
    ensures exact { result ≡ chosen_number line.now constants column }
    ensures width { IfErr result LeavesBits }
    ensures calm { (n : ℕ) → HasSquares n → IsSmallLine n line.now → IfErr result (λ _. ⊥) }
{
    lowest_number(line, constants, column)
}

fn lowest_number(line: &[i128], constants: usize, column: usize) -> Result<Ratio, Wide>
    requires constants { constants < length line.now }
    requires column { column < length line.now }
    requires positive { pos 0 <ℤ entry line.now column }
    ensures exact { result ≡ chosen_number line.now constants column }
    ensures width { IfErr result LeavesBits }
{
    let numerator = step_product(&line[constants], &-1)?;
    Ok(Ratio::lowest(numerator, line[column]))
}

/// The first line that chooses a column.
pub(crate) fn line_choosing(chosen: &[usize], column: usize) -> Option<usize>
    ensures { IsLineChoosing chosen.now column result }
{
    for (line, own) in chosen.iter().enumerate() {
        if *own == column {
            return Some(line);
        }
    }
    None
}

/// The ray of a tableau along a column that is not chosen: it grows by 1, or falls by 1 where it is
/// not `up`, and each chosen column of the question gives way.
pub(crate) fn ray(
    alloc: Global,
    t: &Tableau,
    constants: usize,
    column: usize,
    up: bool,
) -> Result<Items<Ratio>, SearchStop>
    ghost over: { Framed }
    requires tableau { IsTableauOf over.units over.frame t.now }
    requires units { constants ≤ over.units }
    requires column { column < over.units + length t.now.lines }
    ensures ray { IfOk result (λ ray. IsRayOf t.now column up constants ray) }
    ensures refusal { IfErr result IsRefusal }
    ensures step { IfErr result (StopsBy (IsSlopeStep t.now column up)) }
    ensures calm { (n : ℕ) → HasSquares n → HasSmallLines n t.now → IfErr result IsMemory }
{
    let mut made = Items::from_vec(Vec::with_capacity(alloc, constants)?);
    for own in 0..constants {
        made.push(slope_of(t, column, up, own)?)?;
    }
    Ok(made)
}

/// What the ray has at a column of the question.
fn slope_of(t: &Tableau, column: usize, up: bool, own: usize) -> Result<Ratio, Wide>
    ghost over: { Framed }
    requires tableau { IsTableauOf over.units over.frame t.now }
    requires column { column < over.units + length t.now.lines }
    requires own { own < over.units }
    ensures ray { IfOk result (λ r. SlopeAt t.now column up own r) }
    ensures width { IfErr result LeavesBits }
    ensures step { IfErr result (IsSlopeStep t.now column up) }
    ensures calm { (n : ℕ) → HasSquares n → HasSmallLines n t.now → IfErr result (λ _. ⊥) }
{
    if own == column {
        return Ok(Ratio::whole(if up { 1 } else { -1 }));
    }
    match line_choosing(t.chosen.as_slice(), own) {
        Some(line) => chosen_slope(t.lines[line].as_slice(), column, up, own),
        None => Ok(Ratio::whole(0)),
    }
}

fn chosen_slope(line: &[i128], column: usize, up: bool, own: usize) -> Result<Ratio, Wide>
    requires column { column < length line.now }
    requires own { own < length line.now }
    requires positive { pos 0 <ℤ entry line.now own }
    ensures exact { result ≡ chosen_slope line.now column up own }
    ensures width { IfErr result LeavesBits }
    ensures calm { (n : ℕ) → HasSquares n → IsSmallLine n line.now → IfErr result (λ _. ⊥) }
{
    lowest_slope(line, column, up, own)
}

fn lowest_slope(line: &[i128], column: usize, up: bool, own: usize) -> Result<Ratio, Wide>
    requires column { column < length line.now }
    requires own { own < length line.now }
    requires positive { pos 0 <ℤ entry line.now own }
    ensures exact { result ≡ chosen_slope line.now column up own }
    ensures width { IfErr result LeavesBits }
{
    let sign = if up { -1 } else { 1 };
    let numerator = step_product(&line[column], &sign)?;
    Ok(Ratio::lowest(numerator, line[own]))
}
