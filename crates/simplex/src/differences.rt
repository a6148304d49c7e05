ghost use Rattle.std.specs.Prelude.{◌≡◌, ◌+◌, ◌^◌, ◌<◌, ℤ, pos, List, length, take, drop, Bool, true, not, Ok, IfOk, IfErr};
ghost use Rattle.linear_terms.specs.Operations.{sum_of_polys};
ghost use Rattle.linear_terms.specs.Polynomial.{Polynomial, constant_of};
ghost use Rattle.farkas_check.specs.Points.{ratio_at, ratio_value};
ghost use Rattle.farkas_check.specs.Ratios.{Fraction};
ghost use Rattle.farkas_check.specs.declared.stratum.Change.{Change};
ghost use Rattle.simplex.specs.Calm.{IsMemory};
ghost use Rattle.simplex.specs.CalmStrata.{IsRefusalOf, IsCalmRelation};
ghost use Rattle.simplex.specs.Differences.{with_multiple, with_multiples, IsDifferenceOf};
ghost use Rattle.simplex.specs.Exchange.{line_multiple};
ghost use Rattle.simplex.specs.Points.{IsPointOf};
ghost use Rattle.simplex.specs.Raise.{sign_of};
ghost use Rattle.simplex.specs.Refusal.{IsRefusal};
ghost use Rattle.simplex.specs.SearchSteps.{StopsAt};
ghost use Rattle.simplex.specs.SmallBasis.{HasSmallMultipliers, HasSmallHalf, HasSmallBond};
ghost use Rattle.simplex.specs.Spots.{IsApart, sums_of};
ghost use Rattle.simplex.specs.StrataSteps.{point_beyond, StopsSum, IsCandidate};
ghost use Rattle.simplex.specs.Strata.{IsAsked, IsCaseOf, IsFurther, HalfAt, BondAt};
ghost use Rattle.simplex.specs.Suprema.{IsSupremumOver};
ghost use Rattle.simplex.specs.Ties.{IsHonestHalf};
ghost use Rattle.simplex.specs.declared.differences.StrataQuestion.{StrataQuestion};

use crate::next_supremum::{GoalOver, supremum_from};
use crate::supremum::Supremum;
use crate::tableau::line_multiple;
use crate::values::{sums_of, value_at};
use crate::{Endings, SearchStop};
use farkas_check::{Cert, Change, Ratio, Tie, entry};
use items::Items;
use linear_terms::{Mono, Poly, add, scale};
use std::alloc::Global;

/// A stratum question, its columns, how many terms a case has and how many unknowns there are, and
/// how many turns a raise may take.
#[derive(Clone, Copy)]
pub(crate) struct StrataQuestion<'a> {
    pub(crate) cases: &'a [Change],
    pub(crate) lower: &'a [Poly],
    pub(crate) columns: &'a [Mono],
    pub(crate) terms: usize,
    pub(crate) count: usize,
    pub(crate) budget: u128,
}

/// What the question how great a relation's difference gets in a case comes to, or how great minus
/// the difference.
#[derive(Drop)]
pub(crate) enum DifferenceHalf {
    /// It gets no greater than 0.
    Tied(Cert),
    /// It is not 0 at this point of the case.
    Apart(Items<Ratio>),
    Pivots,
}

/// What the test of a relation in a case comes to: it is tied there, or its difference is not 0 at
/// a point.
#[derive(Drop)]
pub(crate) enum Bond {
    Tied(Tie),
    Apart(Items<Ratio>),
    Pivots,
}

/// 1 or -1.
fn sign_of(up: bool) -> i128
    ensures { result ≡ sign_of up }
{
    if up { 1 } else { -1 }
}

/// A polynomial with a multiple of another one.
fn with_multiple(alloc: Global, total: &Poly, number: i128, poly: &Poly) -> Result<Poly, SearchStop>
    ensures exact { IfOk result (λ p. with_multiple total.now number poly.now ≡ Ok p) }
    ensures refusal { IfErr result IsRefusal }
    ensures step { IfErr result (StopsSum (with_multiple total.now number poly.now)) }
    ensures calm { (p : Polynomial) → with_multiple total.now number poly.now ≡ Ok p
        → IfErr result IsMemory }
{
    let part = scale(alloc, poly, number)?;
    Ok(add(alloc, total, &part)?)
}

/// A polynomial with multiples of others.
fn with_multiples(
    alloc: Global,
    first: Poly,
    numbers: &[i128],
    polys: &[Poly],
) -> Result<Poly, SearchStop>
    ensures exact { IfOk result (λ p. with_multiples first numbers.now polys.now ≡ Ok p) }
    ensures refusal { IfErr result IsRefusal }
    ensures step { IfErr result (StopsSum (with_multiples first numbers.now polys.now)) }
    ensures calm { (p : Polynomial) → with_multiples first numbers.now polys.now ≡ Ok p
        → IfErr result IsMemory }
{
    let mut total = first;
    let mut numbers = numbers;
    let mut polys = polys;
    while let Some((number, more_numbers)) = numbers.split_first()
        && let Some((poly, more_polys)) = polys.split_first()
    {
        total = with_multiple(alloc, &total, *number, poly)?;
        numbers = more_numbers;
        polys = more_polys;
    }
    Ok(total)
}

/// A polynomial with a number more.
fn with_rest(alloc: Global, poly: Poly, number: &i128) -> Result<Poly, SearchStop>
    ensures exact { IfOk result (λ p. sum_of_polys poly (constant_of number.now) ≡ Ok p) }
    ensures refusal { IfErr result IsRefusal }
    ensures step { IfErr result (StopsSum (sum_of_polys poly (constant_of number.now))) }
    ensures calm { (p : Polynomial) → sum_of_polys poly (constant_of number.now) ≡ Ok p
        → IfErr result IsMemory }
{
    let rest = Poly::constant(alloc, *number);
    Ok(add(alloc, &poly, &rest)?)
}

/// The difference of a relation in a case, or minus the difference.
fn difference_in(
    alloc: Global,
    strata: &StrataQuestion<'_>,
    case: &Change,
    numbers: &[i128],
    up: bool,
) -> Result<Poly, SearchStop>
    requires asked { IsAsked strata.now }
    requires case { IsCaseOf strata.now case.now }
    requires count { strata.now.count ≡ strata.now.terms + length strata.now.lower.now + 1 }
    requires numbers { length numbers.now ≡ strata.now.count }
    requires few { strata.now.count < 2 ^ 61 }
    requires calm { IsCalmRelation strata.now numbers.now }
    requires candidate { IsCandidate strata.now.columns.now strata.now.cases.now
        strata.now.lower.now numbers.now }
    ensures difference { IfOk result
        (IsDifferenceOf case.now.terms strata.now.lower.now numbers.now up) }
    ensures refusal { IfErr result (IsRefusalOf strata.now) }
{
    let (first, last) = numbers.split_at(strata.terms);
    let own = line_multiple(alloc, first, &sign_of(up))?;
    let others = line_multiple(alloc, last, &sign_of(!up))?;
    difference_with(
        alloc,
        strata,
        case,
        numbers,
        up,
        own.as_slice(),
        others.as_slice(),
    )
}

/// The same from the numbers of the terms and of the lower terms and 1, each with its sign.
fn difference_with(
    alloc: Global,
    strata: &StrataQuestion<'_>,
    case: &Change,
    numbers: &[i128],
    up: bool,
    own: &[i128],
    others: &[i128],
) -> Result<Poly, SearchStop>
    requires asked { IsAsked strata.now }
    requires case { IsCaseOf strata.now case.now }
    requires count { strata.now.count ≡ strata.now.terms + length strata.now.lower.now + 1 }
    requires numbers { length numbers.now ≡ strata.now.count }
    requires few { strata.now.count < 2 ^ 61 }
    requires calm { IsCalmRelation strata.now numbers.now }
    requires candidate { IsCandidate strata.now.columns.now strata.now.cases.now
        strata.now.lower.now numbers.now }
    requires own { line_multiple (take strata.now.terms numbers.now) (sign_of up) ≡ Ok own.now }
    requires others { line_multiple (drop strata.now.terms numbers.now) (sign_of (not up))
        ≡ Ok others.now }
    ensures difference { IfOk result
        (IsDifferenceOf case.now.terms strata.now.lower.now numbers.now up) }
    ensures refusal { IfErr result (IsRefusalOf strata.now) }
{
    let (_numbers, _up) = (numbers, up);
    let zero = Poly::constant(alloc, 0);
    let terms = with_multiples(alloc, zero, own, case.terms.as_slice())?;
    let sides = with_multiples(alloc, terms, others, strata.lower)?;
    let last = entry(others, strata.lower.len());
    let made = with_rest(alloc, sides, &last)?;
    Ok(made)
}

/// A point at which the objective is not 0: this one, or where it is 0 here, one further along a
/// ray on which it grows.
fn point_apart(
    alloc: Global,
    columns: &[Mono],
    objective: &Poly,
    point: Items<Ratio>,
    ray: Items<Ratio>,
) -> Result<Items<Ratio>, SearchStop>
    ensures point { IfOk result (IsFurther columns.now objective.now point ray) }
    ensures refusal { IfErr result IsRefusal }
    ensures step { IfErr result (StopsAt (point_beyond columns.now objective.now point ray)) }
    ensures calm { (v : Fraction) (zs : List Fraction)
        → ratio_value (ratio_at columns.now point) objective.now ≡ Ok v → sums_of point ray ≡ Ok zs
        → IfErr result IsMemory }
{
    let value = value_at(columns, point.as_slice(), objective)?;
    if value.num() != 0 {
        return Ok(point);
    }
    sums_of(alloc, point.as_slice(), ray.as_slice())
}

/// How far the difference of a relation, or minus the difference, gets in a case.
fn half_of(
    alloc: Global,
    strata: &StrataQuestion<'_>,
    case: &Change,
    numbers: &[i128],
    up: bool,
    endings: &mut Endings,
    place: usize,
) -> Result<DifferenceHalf, SearchStop>
    requires asked { IsAsked strata.now }
    requires case { IsCaseOf strata.now case.now }
    requires count { strata.now.count ≡ strata.now.terms + length strata.now.lower.now + 1 }
    requires numbers { length numbers.now ≡ strata.now.count }
    requires few { strata.now.count < 2 ^ 61 }
    requires calm { IsCalmRelation strata.now numbers.now }
    requires candidate { IsCandidate strata.now.columns.now strata.now.cases.now
        strata.now.lower.now numbers.now }
    ensures half { IfOk result (HalfAt strata.now numbers.now case.now up) }
    ensures small { IfOk result (HasSmallHalf strata.now) }
    ensures refusal { IfErr result (IsRefusalOf strata.now) }
{
    let objective = difference_in(alloc, strata, case, numbers, up)?;
    let last = endings.take(place);
    let goal = GoalOver {
        columns: strata.columns,
        rows: case.rows.as_slice(),
        objective: &objective,
    };
    let (found, ending) = supremum_from(alloc, goal, strata.budget, last)?;
    endings.note(place, ending)?;
    half_at(alloc, strata, case, numbers, up, &objective, found)
}

/// The same from the supremum of the difference, or of minus the difference.
fn half_at(
    alloc: Global,
    strata: &StrataQuestion<'_>,
    case: &Change,
    numbers: &[i128],
    up: bool,
    objective: &Poly,
    found: Supremum,
) -> Result<DifferenceHalf, SearchStop>
    requires asked { IsAsked strata.now }
    requires case { IsCaseOf strata.now case.now }
    requires calm { IsCalmRelation strata.now numbers.now }
    requires candidate { IsCandidate strata.now.columns.now strata.now.cases.now
        strata.now.lower.now numbers.now }
    requires difference { IsDifferenceOf case.now.terms strata.now.lower.now numbers.now up
        objective.now }
    requires came { IsSupremumOver strata.now.columns.now case.now.rows objective.now
        strata.now.budget found }
    ensures half { IfOk result (HalfAt strata.now numbers.now case.now up) }
    ensures small { IfOk result (HasSmallHalf strata.now) }
    ensures refusal { IfErr result (IsRefusalOf strata.now) }
{
    let (_case, _numbers, _up) = (case, numbers, up);
    match found {
        Supremum::Empty => Ok(DifferenceHalf::Pivots),
        Supremum::Pivots => Ok(DifferenceHalf::Pivots),
        Supremum::Bound(cert, point) => Ok(half_below(cert, point)),
        Supremum::Unbounded(point, ray) => {
            let at = point_apart(alloc, strata.columns, objective, point, ray)?;
            Ok(DifferenceHalf::Apart(at))
        }
    }
}

/// A bound of 0 ties; else the point that reaches the bound is one at which the objective is not 0.
fn half_below(cert: Cert, point: Items<Ratio>) -> DifferenceHalf
    ensures small { (strata : StrataQuestion) → HasSmallMultipliers strata cert
        → HasSmallHalf strata result }
    ensures half { (strata : StrataQuestion) (numbers : List ℤ) (case : Change) (up : Bool)
        → IsPointOf strata.columns.now case.rows point
        → ((cert.sum ≡ pos 0 → ⊥)
        → IsApart strata.columns.now case.terms strata.lower.now (length numbers) numbers point)
        → (cert.sum ≡ pos 0 → IsHonestHalf strata.columns.now strata.lower.now numbers case up cert)
        → HalfAt strata numbers case up result }
{
    if cert.sum == 0 {
        DifferenceHalf::Tied(cert)
    } else {
        DifferenceHalf::Apart(point)
    }
}

/// How a relation stands in a case.
pub(crate) fn bond_of(
    alloc: Global,
    strata: &StrataQuestion<'_>,
    case: &Change,
    numbers: &[i128],
    endings: &mut Endings,
    place: usize,
) -> Result<Bond, SearchStop>
    requires asked { IsAsked strata.now }
    requires case { IsCaseOf strata.now case.now }
    requires count { strata.now.count ≡ strata.now.terms + length strata.now.lower.now + 1 }
    requires numbers { length numbers.now ≡ strata.now.count }
    requires few { strata.now.count < 2 ^ 61 }
    requires calm { IsCalmRelation strata.now numbers.now }
    requires candidate { IsCandidate strata.now.columns.now strata.now.cases.now
        strata.now.lower.now numbers.now }
    ensures bond { IfOk result (BondAt strata.now numbers.now case.now) }
    ensures small { IfOk result (HasSmallBond strata.now) }
    ensures refusal { IfErr result (IsRefusalOf strata.now) }
{
    match half_of(alloc, strata, case, numbers, true, endings, place)? {
        DifferenceHalf::Tied(up) => bond_with(alloc, strata, case, numbers, up, endings, place),
        DifferenceHalf::Apart(at) => Ok(Bond::Apart(at)),
        DifferenceHalf::Pivots => Ok(Bond::Pivots),
    }
}

fn bond_with(
    alloc: Global,
    strata: &StrataQuestion<'_>,
    case: &Change,
    numbers: &[i128],
    up: Cert,
    endings: &mut Endings,
    place: usize,
) -> Result<Bond, SearchStop>
    requires asked { IsAsked strata.now }
    requires case { IsCaseOf strata.now case.now }
    requires count { strata.now.count ≡ strata.now.terms + length strata.now.lower.now + 1 }
    requires numbers { length numbers.now ≡ strata.now.count }
    requires few { strata.now.count < 2 ^ 61 }
    requires calm { IsCalmRelation strata.now numbers.now }
    requires candidate { IsCandidate strata.now.columns.now strata.now.cases.now
        strata.now.lower.now numbers.now }
    requires up { IsHonestHalf strata.now.columns.now strata.now.lower.now numbers.now case.now true
        up }
    requires small { HasSmallMultipliers strata.now up }
    ensures bond { IfOk result (BondAt strata.now numbers.now case.now) }
    ensures small { IfOk result (HasSmallBond strata.now) }
    ensures refusal { IfErr result (IsRefusalOf strata.now) }
{
    match half_of(alloc, strata, case, numbers, false, endings, place)? {
        DifferenceHalf::Tied(down) => Ok(Bond::Tied(tie_of(up, down))),
        DifferenceHalf::Apart(at) => Ok(Bond::Apart(at)),
        DifferenceHalf::Pivots => Ok(Bond::Pivots),
    }
}

fn tie_of(up: Cert, down: Cert) -> Tie
    ensures up_scale { result.up_scale ≡ up.scale }
    ensures up { result.up ≡ up.by }
    ensures down_scale { result.down_scale ≡ down.scale }
    ensures down { result.down ≡ down.by }
{
    Tie {
        up_scale: up.scale,
        up: up.by,
        down_scale: down.scale,
        down: down.by,
    }
}
