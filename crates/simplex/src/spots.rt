ghost use Rattle.std.specs.Prelude.{◌≡◌, ◌++◌, ◌∷◌, [], ◌+◌, ◌<◌, ◌≤◌, ◌^◌, ◌<ℤ◌, ℕ, pos, length, get_or, List, MatchOption, Ok, IfOk, IfErr, IsTrue};
ghost use Rattle.items.specs.Gives.{Gives};
ghost use Rattle.farkas_check.specs.Points.{ratio_at, ratio_value};
ghost use Rattle.farkas_check.specs.Ratios.{Fraction};
ghost use Rattle.farkas_check.specs.Relations.{entry, is_reduced};
ghost use Rattle.farkas_check.specs.Stratum.{terms_of, minus_value};
ghost use Rattle.simplex.specs.Exchange.{cause, numbers_of};
ghost use Rattle.simplex.specs.Raise.{Framed};
ghost use Rattle.simplex.specs.Calm.{IsMemory};
ghost use Rattle.simplex.specs.CalmStrata.{IsRefusalOf, IsRefusalUnder, IsLinesStep, IsUnitStep, HasSmallScales, AreSpotsOf, IsCalmSpot};
ghost use Rattle.simplex.specs.Points.{IsSpotAt};
ghost use Rattle.simplex.specs.Refusal.{LeavesBits, IsRefusal};
ghost use Rattle.simplex.specs.SearchSteps.{StopsBy, StopsAt};
ghost use Rattle.simplex.specs.StrataSteps.{line_at};
ghost use Rattle.simplex.specs.Spots.{values_of, AreSideValues, HasMoreLine, AreIndependent, IsNewPoint, IsUnchosen, ChoosesUnknowns, entries_to, spot_row, spot_rows, spots_framed, spots_frame, IsSpotTableau, AreSpots, IsLastColumn, IsRelationOf, IsSpotLine, AreRelations};
ghost use Rattle.simplex.specs.Spots.{unit_multiple, multiples_from, AreUnitLists, chosen_below};

use crate::corner::{line_choosing, ray};
use crate::differences::StrataQuestion;
use crate::frame::{units_from, with_units};
use crate::steps::step_product;
use crate::values::{common_denominator, numerators_over, value_at};
use crate::{SearchStop, Tableau};
use farkas_check::{Ratio, Spot, entry};
use items::Items;
use linear_terms::{Mono, Poly};
use std::alloc::{AllocError, Global};
use whole_numbers::Wide;

/// Spots, each with its line under the unknowns and the number by which that line's values were
/// multiplied, and a tableau of these lines that chooses an unknown in each.
#[derive(Drop)]
pub(crate) struct Spots {
    pub(crate) spots: Items<Spot>,
    pub(crate) lines: Items<Items<i128>>,
    pub(crate) scales: Items<i128>,
    pub(crate) tableau: Tableau,
}

/// The value of a polynomial at a point times -1.
fn minus_value(columns: &[Mono], point: &[Ratio], poly: &Poly) -> Result<Ratio, Wide>
    ensures exact { result ≡ minus_value (ratio_value (ratio_at columns.now point.now)) poly.now }
    ensures width { IfErr result LeavesBits }
{
    let value = turned_value(columns, point, poly)?;
    Ok(value)
}

fn turned_value(columns: &[Mono], point: &[Ratio], poly: &Poly) -> Result<Ratio, Wide>
    ensures { result ≡ minus_value (ratio_value (ratio_at columns.now point.now)) poly.now }
{
    let value = value_at(columns, point, poly)?;
    value.product(&Ratio::whole(-1))
}

/// The values of terms at a point.
fn term_values(
    alloc: Global,
    columns: &[Mono],
    point: &[Ratio],
    terms: &[Poly],
) -> Result<Items<Ratio>, SearchStop>
    ensures exact { Gives cause (λ made. made) result
        (values_of (ratio_value (ratio_at columns.now point.now)) terms.now) }
    ensures refusal { IfErr result IsRefusal }
{
    let mut made = Items::new(alloc);
    for term in terms {
        made.push(value_at(columns, point, term)?)?;
    }
    Ok(made)
}

/// The values of lower terms at a point times -1.
fn lower_values(
    alloc: Global,
    columns: &[Mono],
    point: &[Ratio],
    lower: &[Poly],
) -> Result<Items<Ratio>, SearchStop>
    ensures exact { Gives cause (λ made. made) result
        (values_of (minus_value (ratio_value (ratio_at columns.now point.now))) lower.now) }
    ensures refusal { IfErr result IsRefusal }
{
    let mut made = Items::new(alloc);
    for term in lower {
        made.push(minus_value(columns, point, term)?)?;
    }
    Ok(made)
}

/// Ratios, and others behind them.
fn both_values(first: Items<Ratio>, others: &[Ratio]) -> Result<Items<Ratio>, AllocError>
    ensures { IfOk result (λ made. made ≡ first ++ others.now) }
{
    let mut made = first;
    for value in others {
        made.push(*value)?;
    }
    Ok(made)
}

/// What a relation's difference has at a point under each unknown: the values of the terms, minus
/// those of the lower terms, and -1.
fn side_values(
    alloc: Global,
    columns: &[Mono],
    point: &[Ratio],
    terms: &[Poly],
    lower: &[Poly],
) -> Result<Items<Ratio>, SearchStop>
    ensures values { IfOk result (AreSideValues columns.now point.now terms.now lower.now) }
    ensures refusal { IfErr result IsRefusal }
    ensures step { IfErr result (StopsAt (line_at columns.now point.now terms.now lower.now)) }
    ensures calm { (own others : List Fraction)
        → values_of (ratio_value (ratio_at columns.now point.now)) terms.now ≡ Ok own
        → values_of (minus_value (ratio_value (ratio_at columns.now point.now))) lower.now
        ≡ Ok others → IfErr result IsMemory }
{
    let own = term_values(alloc, columns, point, terms)?;
    let mut others = lower_values(alloc, columns, point, lower)?;
    others.push(Ratio::whole(-1))?;
    Ok(both_values(own, others.as_slice())?)
}

/// The line of a spot in its frame.
fn spot_row(
    alloc: Global,
    count: usize,
    all: usize,
    place: usize,
    line: &[i128],
) -> Result<Items<i128>, AllocError>
    ensures { IfOk result (λ made. made ≡ spot_row count all place line.now) }
{
    let mut made = Items::new(alloc);
    for unknown in 0..count {
        made.push(entry(line, unknown))?;
    }
    with_units(made, place, all)
}

/// The lines of the frame of spots.
fn spot_rows(
    alloc: Global,
    count: usize,
    lines: &[Items<i128>],
) -> Result<Items<Items<i128>>, AllocError>
    ensures { IfOk result (λ made. made ≡ spot_rows count (length lines.now) 0 lines.now) }
{
    let mut made = Items::new(alloc);
    for (place, line) in lines.iter().enumerate() {
        made.push(spot_row(alloc, count, lines.len(), place, line.as_slice())?)?;
    }
    Ok(made)
}

/// The last of the first columns at which a line is not 0.
fn last_column(line: &[i128], count: usize) -> Option<usize>
    requires { count ≤ length line.now }
    ensures { IsLastColumn line.now count result }
{
    let mut found = None;
    for column in 0..count {
        if line[column] != 0 {
            found = Some(column);
        }
    }
    found
}

/// Chooses in a line the last unknown at which it is not 0.
fn with_last(
    alloc: Global,
    t: Tableau,
    count: usize,
    lines: &[Items<i128>],
    line: usize,
) -> Result<Tableau, SearchStop>
    ghost units: { ℕ }
    requires units { units ≡ count }
    requires tableau { IsSpotTableau count lines.now t }
    requires here { line < length lines.now }
    requires before { ChoosesUnknowns count line t }
    requires independent { AreIndependent count lines.now }
    ensures tableau { IfOk result (λ made. IsSpotTableau count lines.now made) }
    ensures chosen { IfOk result (ChoosesUnknowns count (line + 1)) }
    ensures refusal { IfErr result (IsRefusalUnder count lines.now) }
    ensures step { IfErr result (StopsBy (IsLinesStep count lines.now)) }
{
    let _lines = lines;
    match last_column(t.lines[line].as_slice(), count) {
        Some(column) => {
            let made = t.exchange(alloc, line, column)?;
            Ok(made)
        }
        None => Ok(t),
    }
}

/// The tableau of the frame of spots that chooses the unit columns.
fn spots_framed(alloc: Global, count: usize, lines: &[Items<i128>]) -> Result<Tableau, AllocError>
    requires { count + length lines.now < 2 ^ 64 }
    ensures { IfOk result (λ t. t ≡ spots_framed count lines.now) }
{
    let made = spot_rows(alloc, count, lines)?;
    let chosen = units_from(alloc, count, lines.len())?;
    Ok(Tableau {
        lines: made,
        chosen,
    })
}

/// The tableau of spots: from the frame of their lines on, each line in order chooses the last
/// unknown at which it is not 0.
fn spot_tableau(alloc: Global, count: usize, lines: &[Items<i128>]) -> Result<Tableau, SearchStop>
    requires wide { count + length lines.now < 2 ^ 64 }
    requires independent { AreIndependent count lines.now }
    ensures tableau { IfOk result (λ t. IsSpotTableau count lines.now t) }
    ensures chosen { IfOk result (ChoosesUnknowns count (length lines.now)) }
    ensures refusal { IfErr result (IsRefusalUnder count lines.now) }
    ensures step { IfErr result (StopsBy (IsLinesStep count lines.now)) }
{
    let mut t = spots_framed(alloc, count, lines)?;
    for line in 0..lines.len() {
        t = with_last(alloc, t, count, lines, line)?;
    }
    Ok(t)
}

/// No spots.
pub(crate) fn no_spots(alloc: Global) -> Spots
    ensures none { result.spots ≡ [] }
    ensures lines { result.lines ≡ [] }
    ensures scales { result.scales ≡ [] }
    ensures spots { (count : ℕ) → AreSpots count result }
{
    Spots {
        spots: Items::new(alloc),
        lines: Items::new(alloc),
        scales: Items::new(alloc),
        tableau: Tableau {
            lines: Items::new(alloc),
            chosen: Items::new(alloc),
        },
    }
}

/// One more spot, of a case with these terms.
pub(crate) fn with_spot(
    alloc: Global,
    strata: &StrataQuestion<'_>,
    known: Spots,
    terms: &[Poly],
    spot: Spot,
) -> Result<Spots, SearchStop>
    requires known { AreSpots strata.now.count known }
    requires few { strata.now.count < 2 ^ 61 }
    requires apart { IsNewPoint strata.now.columns.now spot.at terms.now strata.now.lower.now
        strata.now.count known.lines }
    requires calm { IsCalmSpot strata.now terms.now spot.at known.lines }
    requires of { AreSpotsOf strata.now known }
    requires point { IsSpotAt strata.now.columns.now strata.now.cases.now spot }
    requires terms { terms.now ≡ terms_of strata.now.cases.now spot.case }
    ensures more { IfOk result (λ made. made.spots ≡ known.spots ++ spot ∷ []) }
    ensures line { IfOk result
        (HasMoreLine strata.now.columns.now spot.at terms.now strata.now.lower.now known) }
    ensures spots { IfOk result (λ made. AreSpots strata.now.count made) }
    ensures refusal { IfErr result (IsRefusalOf strata.now) }
{
    let (line, scale) = spot_line(alloc, strata, &known, terms, &spot)?;
    more_spots(alloc, strata.count, known, spot, line, scale)
}

/// The line of one more spot, and the number by which its values were multiplied.
fn spot_line(
    alloc: Global,
    strata: &StrataQuestion<'_>,
    known: &Spots,
    terms: &[Poly],
    spot: &Spot,
) -> Result<(Items<i128>, i128), SearchStop>
    requires calm { IsCalmSpot strata.now terms.now spot.now.at known.now.lines }
    requires point { IsSpotAt strata.now.columns.now strata.now.cases.now spot.now }
    requires terms { terms.now ≡ terms_of strata.now.cases.now spot.now.case }
    ensures line { IfOk result
        (λ r. IsSpotLine strata.now.columns.now spot.now.at terms.now strata.now.lower.now r.0
        r.1) }
    ensures refusal { IfErr result (IsRefusalOf strata.now) }
{
    let _known = known;
    let values = side_values(
        alloc,
        strata.columns,
        spot.at.as_slice(),
        terms,
        strata.lower,
    )?;
    let scale = common_denominator(values.as_slice())?;
    let line = numerators_over(alloc, &scale, values.as_slice())?;
    Ok((line, scale))
}

fn more_spots(
    alloc: Global,
    count: usize,
    known: Spots,
    spot: Spot,
    line: Items<i128>,
    scale: i128,
) -> Result<Spots, SearchStop>
    requires known { AreSpots count known }
    requires few { count < 2 ^ 61 }
    requires independent { AreIndependent count (known.lines ++ line ∷ []) }
    ensures more { IfOk result (λ made. made.spots ≡ known.spots ++ spot ∷ []) }
    ensures lines { IfOk result (λ made. made.lines ≡ known.lines ++ line ∷ []) }
    ensures scales { IfOk result (λ made. made.scales ≡ known.scales ++ scale ∷ []) }
    ensures spots { IfOk result (λ made. AreSpots count made) }
    ensures refusal { IfErr result (IsRefusalUnder count (known.lines ++ line ∷ [])) }
    ensures step { IfErr result (StopsBy (IsLinesStep count (known.lines ++ line ∷ []))) }
{
    let Spots {
        mut spots,
        mut lines,
        mut scales,
        tableau: _before,
    } = known;
    spots.push(spot)?;
    lines.push(line)?;
    scales.push(scale)?;
    let tableau = spot_tableau(alloc, count, lines.as_slice())?;
    Ok(Spots {
        spots,
        lines,
        scales,
        tableau,
    })
}

/// The relation of an unknown that no line chooses: there it has the least common denominator of
/// the tableau's multiples in its column, at the chosen unknowns minus their numerators, and 0
/// elsewhere.
pub(crate) fn relation_of(
    alloc: Global,
    count: usize,
    known: &Spots,
    unknown: usize,
) -> Result<Items<i128>, SearchStop>
    ghost over: { Framed }
    requires over { over ≡ spots_frame count known.now.lines }
    requires known { AreSpots count known.now }
    requires unknown { unknown < count }
    requires free { IsUnchosen known.now.tableau unknown }
    ensures count { IfOk result (λ numbers. length numbers ≡ count) }
    ensures relation { IfOk result
        (λ numbers. IsRelationOf count known.now.tableau unknown numbers) }
    ensures refusal { IfErr result (IsRefusalUnder count known.now.lines) }
    ensures step { IfErr result (StopsBy (IsLinesStep count known.now.lines)) }
{
    let ratios = ray(alloc, &known.tableau, count, unknown, true)?;
    let scale = common_denominator(ratios.as_slice())?;
    numerators_over(alloc, &scale, ratios.as_slice())
}

/// The relations of the unknowns before one, and its own where no line chooses it.
fn with_unknown(
    alloc: Global,
    count: usize,
    known: &Spots,
    made: Items<Items<i128>>,
    unknown: usize,
) -> Result<Items<Items<i128>>, SearchStop>
    requires known { AreSpots count known.now }
    requires before { AreRelations count known.now.tableau unknown made }
    requires unknown { unknown < count }
    ensures relations { IfOk result
        (λ made. AreRelations count known.now.tableau (unknown + 1) made) }
    ensures refusal { IfErr result (IsRefusalUnder count known.now.lines) }
    ensures step { IfErr result (StopsBy (IsLinesStep count known.now.lines)) }
{
    let mut made = made;
    match line_choosing(known.tableau.chosen.as_slice(), unknown) {
        Some(_line) => Ok(made),
        None => {
            let relation = relation_of(alloc, count, known, unknown)?;
            made.push(relation)?;
            Ok(made)
        }
    }
}

/// The relations of all unknowns that no line chooses, in order.
pub(crate) fn relations_of(
    alloc: Global,
    count: usize,
    known: &Spots,
) -> Result<Items<Items<i128>>, SearchStop>
    requires known { AreSpots count known.now }
    ensures relations { IfOk result (λ made. AreRelations count known.now.tableau count made) }
    ensures reduced { IfOk result (λ made. IsTrue (is_reduced made)) }
    ensures refusal { IfErr result (IsRefusalUnder count known.now.lines) }
    ensures step { IfErr result (StopsBy (IsLinesStep count known.now.lines)) }
{
    let mut made = Items::new(alloc);
    for unknown in 0..count {
        made = with_unknown(alloc, count, known, made, unknown)?;
    }
    Ok(made)
}

/// Multiples of the spots' differences whose sum is 1 at the unknown that a line chooses, and 0 at
/// the other chosen ones.
fn unit_multiples(
    alloc: Global,
    count: usize,
    line: &[i128],
    unknown: usize,
    scales: &[i128],
) -> Result<Items<Ratio>, SearchStop>
    requires unknown { unknown < length line.now }
    requires wide { count + length scales.now ≤ length line.now }
    requires positive { pos 0 <ℤ entry line.now unknown }
    ensures exact { Gives cause (λ made. made) result
        (multiples_from line.now (entry line.now unknown) count scales.now) }
    ensures refusal { IfErr result IsRefusal }
{
    let mut made = Items::new(alloc);
    for (spot, scale) in scales.iter().enumerate() {
        made.push(unit_multiple(line, count + spot, unknown, scale)?)?;
    }
    Ok(made)
}

fn unit_multiple(line: &[i128], place: usize, unknown: usize, scale: &i128) -> Result<Ratio, Wide>
    requires unknown { unknown < length line.now }
    requires place { place < length line.now }
    requires positive { pos 0 <ℤ entry line.now unknown }
    ensures exact { result ≡ unit_multiple line.now (entry line.now unknown) place scale.now }
    ensures width { IfErr result LeavesBits }
{
    let number = step_product(&line[place], scale)?;
    Ok(Ratio::lowest(number, line[unknown]))
}

/// The multiples for the chosen unknowns before one, and its own where a line chooses it.
fn with_unit(
    alloc: Global,
    count: usize,
    known: &Spots,
    made: Items<Items<Ratio>>,
    unknown: usize,
) -> Result<Items<Items<Ratio>>, SearchStop>
    requires known { AreSpots count known.now }
    requires scales { HasSmallScales count known.now }
    requires before { AreUnitLists count known.now (chosen_below known.now.tableau unknown) made }
    requires unknown { unknown < count }
    ensures lists { IfOk result
        (AreUnitLists count known.now (chosen_below known.now.tableau (unknown + 1))) }
    ensures refusal { IfErr result (IsRefusalUnder count known.now.lines) }
    ensures step { IfErr result (StopsBy (IsUnitStep count known.now)) }
{
    let mut made = made;
    match line_choosing(known.tableau.chosen.as_slice(), unknown) {
        Some(line) => {
            let own = known.tableau.lines[line].as_slice();
            let by = unit_multiples(alloc, count, own, unknown, known.scales.as_slice())?;
            made.push(by)?;
            Ok(made)
        }
        None => Ok(made),
    }
}

/// Those multiples for each chosen unknown in order.
pub(crate) fn unit_lists(
    alloc: Global,
    count: usize,
    known: &Spots,
) -> Result<Items<Items<Ratio>>, SearchStop>
    requires known { AreSpots count known.now }
    requires scales { HasSmallScales count known.now }
    ensures lists { IfOk result
        (AreUnitLists count known.now (chosen_below known.now.tableau count)) }
    ensures refusal { IfErr result (IsRefusalUnder count known.now.lines) }
    ensures step { IfErr result (StopsBy (IsUnitStep count known.now)) }
{
    let mut made = Items::new(alloc);
    for unknown in 0..count {
        made = with_unit(alloc, count, known, made, unknown)?;
    }
    Ok(made)
}
