ghost use Rattle.std.specs.Prelude.{◌≡◌, ◌+◌, ◌*ℤ◌, ◌^◌, ◌<◌, ◌≤◌, length, map, unsigned_abs, true, Ok, All, IfOk};
ghost use Rattle.std.specs.List.{AllByRecursion};
ghost use Rattle.farkas_check.specs.Kept.{IsCanonicalStratum};
ghost use Rattle.farkas_check.specs.Meaning.{IsLimit};
ghost use Rattle.farkas_check.specs.Ratios.{lowest_terms};
ghost use Rattle.farkas_check.specs.Relations.{entry, term_count, unknown_count, stratum_columns};
ghost use Rattle.farkas_check.specs.Tested.{Passes, outcome};
ghost use Rattle.farkas_check.specs.declared.question.Question.TheVariants as question;
ghost use Rattle.simplex.specs.Relations.{IsRelationWith};
ghost use Rattle.elimination.specs.BasisParts.{AreInners, IsBasisAsked, no_multipliers, zero_tie, AreTied, AreGroups, IsGroupAt, IsSmallDual, AreSmallWeights, AreWeightsAt, dual_multiples};
ghost use Rattle.elimination.specs.Narrow.{IsSmallChange, IsSmallStratum};
ghost use Rattle.elimination.specs.Probes.{IsKernel};

use crate::around::{spots_around, weights};
use crate::inner::Inner;
use crate::kernel::Kernel;
use crate::probes::Probe;
use farkas_check::{
    Answer, Change, Ratio, Relation, Spot, Stratum, Tie, entry, positivity, term_count,
};
use items::Items;
use linear_terms::{Mono, Poly, Row};
use std::alloc::{AllocError, Global};

/// The basis of a kernel, with the spots around inner points of the cases of its probes.
pub(crate) fn basis(
    alloc: Global,
    asked: &Stratum,
    columns: &[Mono],
    kernel: &Kernel,
    inners: &[Inner],
) -> Result<Answer, AllocError>
    requires canonical { IsCanonicalStratum asked.now.cases asked.now.lower }
    requires columns { columns.now ≡ stratum_columns asked.now.cases asked.now.lower }
    requires stratum { IsSmallStratum asked.now.cases asked.now.lower }
    requires small { All IsSmallChange asked.now.cases }
    requires kernel { IsKernel columns.now asked.now.cases asked.now.lower kernel.now }
    requires inners { AreInners columns.now asked.now.cases kernel.now.probes inners.now }
    ensures passes { IfOk result (Passes (question.Stratum asked.now)) }
    ensures basis { IfOk result (λ found. IsLimit found → ⊥) }
{
    let found = basis_with(alloc, asked, columns, kernel, inners)?;
    positivity(&found);
    Ok(found)
}

fn basis_with(
    alloc: Global,
    asked: &Stratum,
    columns: &[Mono],
    kernel: &Kernel,
    inners: &[Inner],
) -> Result<Answer, AllocError>
    requires asked { IsBasisAsked columns.now asked.now.cases asked.now.lower kernel.now.probes
        inners.now }
    requires kernel { IsKernel columns.now asked.now.cases asked.now.lower kernel.now }
    ensures passes { IfOk result (λ found. outcome (question.Stratum asked.now) found ≡ Ok true) }
    ensures basis { IfOk result (λ found. IsLimit found → ⊥) }
{
    let lines = kernel.relations.as_slice();
    let probes = kernel.probes.as_slice();
    let duals = kernel.duals.as_slice();
    unknown_count(asked.cases(), asked.lower());
    let relations = tied_relations(alloc, asked.cases(), asked.lower(), lines)?;
    let spots = grouped_spots(alloc, asked, columns, probes, inners)?;
    let free = free_lists(alloc, asked, columns, probes, inners, duals)?;
    Ok(Answer::Basis {
        relations,
        spots,
        free,
    })
}

/// How many unknowns there are. Memory holds fewer than 2 ^ 61 polynomials.
fn unknown_count(cases: &[Change], lower: &[Poly]) -> usize
    ensures count { result ≡ unknown_count cases.now lower.now }
    ensures few { result < 2 ^ 61 }
{
    match cases {
        [case, ..] => count_with(case.terms.as_slice(), lower),
        [] => count_with(&[], lower),
    }
}

fn count_with(terms: &[Poly], lower: &[Poly]) -> usize
    ensures count { result ≡ length terms.now + length lower.now + 1 }
    ensures few { result < 2 ^ 61 }
{
    terms.len() + lower.len() + 1
}

/// A relation for each line of numbers, which zeros tie in each case.
fn tied_relations(
    alloc: Global,
    cases: &[Change],
    lower: &[Poly],
    lines: &[Items<i128>],
) -> Result<Items<Relation>, AllocError>
    requires { AllByRecursion (λ line. length line ≡ unknown_count cases.now lower.now) lines.now }
    ensures { IfOk result (AreTied cases.now lower.now lines.now) }
{
    let mut made = Items::new(alloc);
    for place in 0..lines.len() {
        made.push(tied_relation(alloc, cases, lower, lines[place].as_slice())?)?;
    }
    Ok(made)
}

/// The relation of numbers: first those of the terms, then those of the lower terms, and last that
/// of 1.
fn tied_relation(
    alloc: Global,
    cases: &[Change],
    lower: &[Poly],
    numbers: &[i128],
) -> Result<Relation, AllocError>
    requires { length numbers.now ≡ unknown_count cases.now lower.now }
    ensures { IfOk result
        (IsRelationWith (term_count cases.now) (length lower.now) numbers.now
        (map zero_tie cases.now)) }
{
    let ties = zero_ties(alloc, cases)?;
    let terms = term_count(cases);
    let (first, rest) = numbers.split_at(terms);
    let (second, _last) = rest.split_at(lower.len());
    let a = Items::from_slice(alloc, first)?;
    let b = Items::from_slice(alloc, second)?;
    Ok(Relation {
        a,
        b,
        c: entry(numbers, terms + lower.len()),
        ties,
    })
}

fn zero_ties(alloc: Global, cases: &[Change]) -> Result<Items<Tie>, AllocError>
    ensures { IfOk result (λ made. made ≡ map zero_tie cases.now) }
{
    let mut made = Items::new(alloc);
    for case in cases {
        made.push(zero_tie(alloc, case)?)?;
    }
    Ok(made)
}

/// What ties a relation whose difference is the polynomial 0.
fn zero_tie(alloc: Global, case: &Change) -> Result<Tie, AllocError>
    ensures { IfOk result (λ made. made ≡ zero_tie case.now) }
{
    let up = no_multipliers(alloc, case.rows.as_slice())?;
    let down = no_multipliers(alloc, case.rows.as_slice())?;
    Ok(Tie {
        up_scale: 1,
        up,
        down_scale: 1,
        down,
    })
}

fn no_multipliers(alloc: Global, rows: &[Row]) -> Result<Items<i128>, AllocError>
    ensures { IfOk result (λ made. made ≡ no_multipliers rows.now) }
{
    let mut made = Items::new(alloc);
    for _row in rows {
        made.push(0)?;
    }
    Ok(made)
}

/// The spots around the inner point of each probe, one group behind the other.
fn grouped_spots(
    alloc: Global,
    asked: &Stratum,
    columns: &[Mono],
    probes: &[Probe],
    inners: &[Inner],
) -> Result<Items<Spot>, AllocError>
    requires { IsBasisAsked columns.now asked.now.cases asked.now.lower probes.now inners.now }
    ensures { IfOk result (AreGroups columns.now asked.now.cases probes.now inners.now) }
{
    let mut made = Items::new(alloc);
    for place in 0..probes.len() {
        made.append(group_at(alloc, asked, columns, probes, inners, place)?)?;
    }
    Ok(made)
}

/// The spots around the inner point at a place, in the case of the probe there.
fn group_at(
    alloc: Global,
    asked: &Stratum,
    columns: &[Mono],
    probes: &[Probe],
    inners: &[Inner],
    place: usize,
) -> Result<Items<Spot>, AllocError>
    requires asked { IsBasisAsked columns.now asked.now.cases asked.now.lower probes.now
        inners.now }
    requires place { place < length probes.now }
    ensures { IfOk result (IsGroupAt columns.now asked.now.cases probes.now inners.now place) }
{
    let probe = probes[place];
    let inner = &inners[place];
    let group = spots_around(alloc, columns, asked.cases(), probe.case as u32, inner)?;
    Ok(group)
}

/// The multiples that each dual gives for the spots.
fn free_lists(
    alloc: Global,
    asked: &Stratum,
    columns: &[Mono],
    probes: &[Probe],
    inners: &[Inner],
    duals: &[Items<i128>],
) -> Result<Items<Items<Ratio>>, AllocError>
    requires asked { IsBasisAsked columns.now asked.now.cases asked.now.lower probes.now
        inners.now }
    requires duals { All (IsSmallDual probes.now) duals.now }
    ensures { IfOk result
        (λ made. made ≡ map (dual_multiples (length columns.now) probes.now inners.now) duals.now) }
{
    let mut made = Items::new(alloc);
    for dual in duals {
        let numbers = dual.as_slice();
        made.push(dual_multiples(alloc, asked, columns, probes, inners, numbers)?)?;
    }
    Ok(made)
}

/// The multiples that one dual gives for the spots, one group behind the other.
fn dual_multiples(
    alloc: Global,
    asked: &Stratum,
    columns: &[Mono],
    probes: &[Probe],
    inners: &[Inner],
    dual: &[i128],
) -> Result<Items<Ratio>, AllocError>
    requires asked { IsBasisAsked columns.now asked.now.cases asked.now.lower probes.now
        inners.now }
    requires dual { IsSmallDual probes.now dual.now }
    ensures { IfOk result
        (λ made. made ≡ dual_multiples (length columns.now) probes.now inners.now dual.now) }
{
    let mut made = Items::new(alloc);
    for place in 0..probes.len() {
        let taken = weights_at(alloc, asked, columns, probes, inners, place)?;
        made.append(multiples(alloc, probes, dual, place, taken.as_slice())?)?;
    }
    Ok(made)
}

/// The multiples of the spots around the inner point at a place that the place of the probe there
/// takes.
fn weights_at(
    alloc: Global,
    asked: &Stratum,
    columns: &[Mono],
    probes: &[Probe],
    inners: &[Inner],
    place: usize,
) -> Result<Items<i128>, AllocError>
    requires asked { IsBasisAsked columns.now asked.now.cases asked.now.lower probes.now
        inners.now }
    requires place { place < length probes.now }
    ensures are { IfOk result (AreWeightsAt (length columns.now) probes.now inners.now place) }
    ensures small { IfOk result AreSmallWeights }
{
    let _asked = asked;
    let probe = probes[place];
    let inner = &inners[place];
    let made = weights(alloc, columns.len(), inner, probe.place)?;
    Ok(made)
}

/// The number of a dual at a place times each of others, over its last number.
fn multiples(
    alloc: Global,
    probes: &[Probe],
    dual: &[i128],
    place: usize,
    taken: &[i128],
) -> Result<Items<Ratio>, AllocError>
    requires dual { IsSmallDual probes.now dual.now }
    requires place { place < length probes.now }
    requires taken { AreSmallWeights taken.now }
    ensures { IfOk result
        (λ made. made
        ≡ map (λ w. lowest_terms (entry dual.now place *ℤ w) (entry dual.now (length probes.now)))
        taken.now) }
{
    let mut made = Items::new(alloc);
    for weight in taken {
        made.push(multiple(probes, dual, place, weight))?;
    }
    Ok(made)
}

fn multiple(probes: &[Probe], dual: &[i128], place: usize, weight: &i128) -> Ratio
    requires dual { IsSmallDual probes.now dual.now }
    requires place { place < length probes.now }
    requires weight { unsigned_abs weight.now ≤ 67108864 }
    ensures { result ≡ lowest_terms (entry dual.now place *ℤ weight.now)
        (entry dual.now (length probes.now)) }
{
    let number = product(&dual[place], weight);
    Ratio::lowest(number, dual[probes.len()])
}

/// The product of two numbers that are small enough for it.
fn product(left: &i128, right: &i128) -> i128
    requires left { unsigned_abs left.now ≤ 28 ^ 6 }
    requires right { unsigned_abs right.now ≤ 67108864 }
    ensures { result ≡ left.now *ℤ right.now }
{
    *left * *right
}
