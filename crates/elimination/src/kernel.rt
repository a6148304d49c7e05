ghost use Rattle.std.specs.Prelude.{◌≡◌, ◌≤◌, ◌<◌, ◌+◌, ◌^◌, ◌+ℤ◌, ◌*ℤ◌, [], ◌∷◌, ◌++◌, map, length, unsigned_abs, IfOk, MatchOption};
ghost use Rattle.std.specs.List.{AllByRecursion};
ghost use Rattle.farkas_check.specs.Calm.{at_chosen};
ghost use Rattle.farkas_check.specs.Relations.{entry, term_count, unknown_count};
ghost use Rattle.elimination.specs.Probes.{probe_at, IsProbe, IsDual, IsKernel};
ghost use Rattle.elimination.specs.Stages.{HasSmallTerms, IsSmallKernel, AreLines, probe_line, unit_line, spread, chosen_value, VanishesIn, VanishesAtAll, IsApart, AreChosenNumbers, IsOwnRelation, IsStage, AreDuals};

use crate::null_vectors::null_vector;
use crate::probes::{Probe, probe_value};
use farkas_check::{Change, Stratum, unknown_count};
use items::Items;
use linear_terms::{Mono, Poly};
use std::alloc::{AllocError, Global};

/// The reduced relations whose differences are the polynomial 0 in each case, and probes that show
/// that there are no others: for each unknown that is no pivot, multiples of the probes, and the
/// number over which they stand.
#[derive(Drop)]
pub(crate) struct Kernel {
    pub(crate) relations: Items<Items<i128>>,
    pub(crate) probes: Items<Probe>,
    pub(crate) duals: Items<Items<i128>>,
}

/// Where the search for relations stands: what it found, the unknowns that are no pivot so far, and
/// as many probes.
#[derive(Drop)]
pub(crate) struct ProbeStage {
    relations: Items<Items<i128>>,
    free: Items<usize>,
    probes: Items<Probe>,
}

/// The reduced relations that are the polynomial 0 in each case, with the probes and their duals.
/// The one error is want of memory.
pub(crate) fn kernel_of(
    alloc: Global,
    columns: &[Mono],
    asked: &Stratum,
) -> Result<Kernel, AllocError>
    requires few { length columns.now ≤ 3 }
    requires terms { term_count asked.now.cases ≤ 2 }
    requires small { HasSmallTerms asked.now.cases asked.now.lower }
    ensures { IfOk result (λ kernel. IsKernel columns.now asked.now.cases asked.now.lower kernel) }
{
    kernel_of_cases(alloc, columns, asked.cases(), asked.lower())
}

fn kernel_of_cases(
    alloc: Global,
    columns: &[Mono],
    cases: &[Change],
    lower: &[Poly],
) -> Result<Kernel, AllocError>
    requires { IsSmallKernel columns.now cases.now lower.now }
    ensures { IfOk result (λ kernel. IsKernel columns.now cases.now lower.now kernel) }
{
    let stage = last_stage(alloc, columns, cases, lower)?;
    let duals = duals(alloc, columns, cases, lower, &stage)?;
    Ok(kernel_with(stage, duals))
}

fn kernel_with(stage: ProbeStage, duals: Items<Items<i128>>) -> Kernel
    ensures { result
        ≡ record { relations = stage.relations; probes = stage.probes; duals = duals } }
{
    Kernel {
        relations: stage.relations,
        probes: stage.probes,
        duals,
    }
}

/// The stage with all unknowns taken.
fn last_stage(
    alloc: Global,
    columns: &[Mono],
    cases: &[Change],
    lower: &[Poly],
) -> Result<ProbeStage, AllocError>
    requires { IsSmallKernel columns.now cases.now lower.now }
    ensures { IfOk result (λ stage. IsStage columns.now cases.now lower.now 0 stage) }
{
    let count = unknown_count(cases, lower);
    let mut stage = ProbeStage {
        relations: Items::new(alloc),
        free: Items::new(alloc),
        probes: Items::new(alloc),
    };
    for taken in 0..count {
        stage = with_unknown(alloc, columns, cases, lower, count - 1 - taken, stage)?;
    }
    Ok(stage)
}

/// The unknown before those of a stage: where its own relation is one in each case, it is kept, and
/// else a probe where it is not 0.
fn with_unknown(
    alloc: Global,
    columns: &[Mono],
    cases: &[Change],
    lower: &[Poly],
    unknown: usize,
    stage: ProbeStage,
) -> Result<ProbeStage, AllocError>
    requires small { IsSmallKernel columns.now cases.now lower.now }
    requires here { unknown < unknown_count cases.now lower.now }
    requires stage { IsStage columns.now cases.now lower.now (unknown + 1) stage }
    ensures { IfOk result (λ next. IsStage columns.now cases.now lower.now unknown next) }
{
    let chosen = with_last(alloc, stage.free.as_slice(), unknown)?;
    let numbers = own_relation(
        alloc,
        columns,
        cases,
        lower,
        &stage,
        unknown,
        chosen.as_slice(),
    )?;
    match probe_apart(columns, cases, lower, chosen.as_slice(), numbers.as_slice()) {
        None => with_numbers(
            alloc,
            cases,
            lower,
            stage,
            chosen.as_slice(),
            numbers.as_slice(),
        ),
        Some(probe) => with_probe(alloc, stage, unknown, probe),
    }
}

/// A stage with the relation that has numbers at chosen unknowns.
fn with_numbers(
    alloc: Global,
    cases: &[Change],
    lower: &[Poly],
    stage: ProbeStage,
    chosen: &[usize],
    numbers: &[i128],
) -> Result<ProbeStage, AllocError>
    requires { AreChosenNumbers chosen.now numbers.now }
    ensures { IfOk result
        (λ next. next
        ≡ record {
          relations = spread chosen.now (entry numbers.now)
              (unknown_count cases.now lower.now) ∷ stage.relations;
          free = stage.free;
          probes = stage.probes;
        }) }
{
    let count = unknown_count(cases, lower);
    let line = spread(alloc, chosen, numbers, count)?;
    with_relation(alloc, stage, line)
}

fn with_relation(
    alloc: Global,
    stage: ProbeStage,
    line: Items<i128>,
) -> Result<ProbeStage, AllocError>
    ensures { IfOk result
        (λ next. next
        ≡ record { relations = line ∷ stage.relations; free = stage.free; probes = stage.probes }) }
{
    let relations = with_first(alloc, line, stage.relations)?;
    Ok(ProbeStage {
        relations,
        free: stage.free,
        probes: stage.probes,
    })
}

fn with_probe(
    alloc: Global,
    stage: ProbeStage,
    unknown: usize,
    probe: Probe,
) -> Result<ProbeStage, AllocError>
    ensures { IfOk result
        (λ next. next
        ≡ record {
          relations = stage.relations;
          free = unknown ∷ stage.free;
          probes = probe
              ∷ stage.probes;
        }) }
{
    let free = with_first(alloc, unknown, stage.free)?;
    let probes = with_first(alloc, probe, stage.probes)?;
    Ok(ProbeStage {
        relations: stage.relations,
        free,
        probes,
    })
}

/// A list with one more element in front.
fn with_first<T: Drop>(alloc: Global, own: T, others: Items<T>) -> Result<Items<T>, AllocError>
    ensures { IfOk result (λ all. all ≡ own ∷ others) }
{
    let mut all = Items::new(alloc);
    all.push(own)?;
    all.append(others)?;
    Ok(all)
}

/// Unknowns with one more behind them.
fn with_last(alloc: Global, others: &[usize], own: usize) -> Result<Items<usize>, AllocError>
    ensures { IfOk result (λ all. all ≡ others.now ++ own ∷ []) }
{
    let mut all = Items::from_slice(alloc, others)?;
    all.push(own)?;
    Ok(all)
}

/// The one relation over the unknowns that are no pivot and one more, which is 0 at the probes of a
/// stage.
fn own_relation(
    alloc: Global,
    columns: &[Mono],
    cases: &[Change],
    lower: &[Poly],
    stage: &ProbeStage,
    unknown: usize,
    chosen: &[usize],
) -> Result<Items<i128>, AllocError>
    requires small { HasSmallTerms cases.now lower.now }
    requires stage { IsStage columns.now cases.now lower.now (unknown + 1) stage.now }
    requires chosen { chosen.now ≡ stage.now.free ++ unknown ∷ [] }
    ensures { IfOk result
        (λ numbers. IsOwnRelation columns.now cases.now lower.now stage.now.probes stage.now.free
        unknown numbers) }
{
    let lines = lines(
        alloc,
        columns,
        cases,
        lower,
        stage.probes.as_slice(),
        chosen,
    )?;
    null_vector(alloc, lines.as_slice())
}

/// What stands at chosen unknowns: a line for each probe.
fn lines(
    alloc: Global,
    columns: &[Mono],
    cases: &[Change],
    lower: &[Poly],
    probes: &[Probe],
    chosen: &[usize],
) -> Result<Items<Items<i128>>, AllocError>
    requires small { HasSmallTerms cases.now lower.now }
    requires probes { AllByRecursion (IsProbe columns.now cases.now) probes.now }
    ensures { IfOk result
        (λ lines. AreLines (length probes.now)
        (probe_line columns.now cases.now lower.now probes.now chosen.now) lines) }
{
    let mut lines = Items::new(alloc);
    for place in 0..probes.len() {
        lines.push(line(alloc, columns, cases, lower, &probes[place], chosen)?)?;
    }
    Ok(lines)
}

/// What stands at chosen unknowns, at a probe.
fn line(
    alloc: Global,
    columns: &[Mono],
    cases: &[Change],
    lower: &[Poly],
    probe: &Probe,
    chosen: &[usize],
) -> Result<Items<i128>, AllocError>
    requires small { HasSmallTerms cases.now lower.now }
    requires probe { IsProbe columns.now cases.now probe.now }
    ensures { IfOk result
        (λ line. line ≡ map (probe_at columns.now cases.now lower.now probe.now) chosen.now) }
{
    let mut line = Items::new(alloc);
    for unknown in chosen {
        line.push(probe_value(columns, cases, lower, probe, *unknown))?;
    }
    Ok(line)
}

/// The numbers at all unknowns, where those of the chosen ones are listed.
fn spread(
    alloc: Global,
    chosen: &[usize],
    numbers: &[i128],
    count: usize,
) -> Result<Items<i128>, AllocError>
    requires { AreChosenNumbers chosen.now numbers.now }
    ensures { IfOk result (λ line. line ≡ spread chosen.now (entry numbers.now) count) }
{
    let mut line = Items::new(alloc);
    for unknown in 0..count {
        line.push(number_of(chosen, numbers, unknown))?;
    }
    Ok(line)
}

/// The number of a chosen unknown; 0 at each other.
fn number_of(chosen: &[usize], numbers: &[i128], unknown: usize) -> i128
    requires { AreChosenNumbers chosen.now numbers.now }
    ensures value { result ≡ at_chosen chosen.now (entry numbers.now) unknown }
    ensures small { unsigned_abs result ≤ 28 ^ 6 }
{
    for place in 0..chosen.len() {
        if chosen[place] == unknown {
            return numbers[place];
        }
    }
    0
}

/// A probe at which the difference by numbers at chosen unknowns is not 0, if there is one.
fn probe_apart(
    columns: &[Mono],
    cases: &[Change],
    lower: &[Poly],
    chosen: &[usize],
    numbers: &[i128],
) -> Option<Probe>
    requires small { HasSmallTerms cases.now lower.now }
    requires numbers { AreChosenNumbers chosen.now numbers.now }
    ensures { MatchOption result
        (VanishesAtAll columns.now cases.now lower.now chosen.now numbers.now)
        (λ probe. IsApart columns.now cases.now lower.now chosen.now numbers.now probe) }
{
    for case in 0..cases.len() {
        if let Some(probe) = probe_apart_in(columns, cases, lower, chosen, numbers, case) {
            return Some(probe);
        }
    }
    None
}

/// The same in one case.
fn probe_apart_in(
    columns: &[Mono],
    cases: &[Change],
    lower: &[Poly],
    chosen: &[usize],
    numbers: &[i128],
    case: usize,
) -> Option<Probe>
    requires small { HasSmallTerms cases.now lower.now }
    requires numbers { AreChosenNumbers chosen.now numbers.now }
    requires case { case < length cases.now }
    ensures { MatchOption result
        (VanishesIn columns.now cases.now lower.now chosen.now numbers.now case)
        (λ probe. IsApart columns.now cases.now lower.now chosen.now numbers.now probe) }
{
    for place in 0..columns.len() + 1 {
        let probe = Probe { case, place };
        if value(columns, cases, lower, chosen, numbers, &probe) != 0 {
            return Some(probe);
        }
    }
    None
}

/// The difference by numbers at chosen unknowns, at a probe.
fn value(
    columns: &[Mono],
    cases: &[Change],
    lower: &[Poly],
    chosen: &[usize],
    numbers: &[i128],
    probe: &Probe,
) -> i128
    requires small { HasSmallTerms cases.now lower.now }
    requires numbers { AreChosenNumbers chosen.now numbers.now }
    requires probe { IsProbe columns.now cases.now probe.now }
    ensures { result ≡ chosen_value columns.now cases.now lower.now chosen.now numbers.now probe.now
        (length chosen.now) }
{
    let mut sum = 0;
    for place in 0..chosen.len() {
        let part = probe_value(columns, cases, lower, probe, chosen[place]);
        sum = with_part(&sum, &numbers[place], &part);
    }
    sum
}

fn with_part(sum: &i128, number: &i128, value: &i128) -> i128
    requires sum { unsigned_abs sum.now ≤ 2 ^ 40 }
    requires number { unsigned_abs number.now ≤ 28 ^ 6 }
    requires value { unsigned_abs value.now ≤ 4 }
    ensures value { result ≡ sum.now +ℤ number.now *ℤ value.now }
    ensures small { unsigned_abs result ≤ 2 ^ 41 }
{
    *sum + *number * *value
}

/// The duals of the probes, one for each unknown that is no pivot.
fn duals(
    alloc: Global,
    columns: &[Mono],
    cases: &[Change],
    lower: &[Poly],
    stage: &ProbeStage,
) -> Result<Items<Items<i128>>, AllocError>
    requires small { HasSmallTerms cases.now lower.now }
    requires stage { IsStage columns.now cases.now lower.now 0 stage.now }
    ensures { IfOk result
        (λ duals. AreDuals columns.now cases.now lower.now stage.now.probes stage.now.free
        (length stage.now.free) duals) }
{
    let mut duals = Items::new(alloc);
    for own in 0..stage.free.len() {
        duals.push(dual(alloc, columns, cases, lower, stage, own)?)?;
    }
    Ok(duals)
}

fn dual(
    alloc: Global,
    columns: &[Mono],
    cases: &[Change],
    lower: &[Poly],
    stage: &ProbeStage,
    own: usize,
) -> Result<Items<i128>, AllocError>
    requires small { HasSmallTerms cases.now lower.now }
    requires stage { IsStage columns.now cases.now lower.now 0 stage.now }
    ensures { IfOk result
        (λ dual. IsDual columns.now cases.now lower.now stage.now.probes stage.now.free own dual) }
{
    let (free, probes) = (stage.free.as_slice(), stage.probes.as_slice());
    let lines = unit_lines(alloc, columns, cases, lower, free, probes, own)?;
    null_vector(alloc, lines.as_slice())
}

/// What stands at each unknown that is no pivot: a line of its numbers at the probes, and -1 where
/// it is the own one.
fn unit_lines(
    alloc: Global,
    columns: &[Mono],
    cases: &[Change],
    lower: &[Poly],
    free: &[usize],
    probes: &[Probe],
    own: usize,
) -> Result<Items<Items<i128>>, AllocError>
    requires small { HasSmallTerms cases.now lower.now }
    requires probes { AllByRecursion (IsProbe columns.now cases.now) probes.now }
    ensures { IfOk result
        (λ lines. AreLines (length free.now)
        (unit_line columns.now cases.now lower.now probes.now free.now own) lines) }
{
    let mut lines = Items::new(alloc);
    for place in 0..free.len() {
        let mut line = column(alloc, columns, cases, lower, probes, free[place])?;
        line.push(if place == own { -1 } else { 0 })?;
        lines.push(line)?;
    }
    Ok(lines)
}

/// What stands at an unknown, at each probe.
fn column(
    alloc: Global,
    columns: &[Mono],
    cases: &[Change],
    lower: &[Poly],
    probes: &[Probe],
    unknown: usize,
) -> Result<Items<i128>, AllocError>
    requires small { HasSmallTerms cases.now lower.now }
    requires probes { AllByRecursion (IsProbe columns.now cases.now) probes.now }
    ensures { IfOk result
        (λ column. column ≡ map (λ probe. probe_at columns.now cases.now lower.now probe unknown)
        probes.now) }
{
    let mut column = Items::new(alloc);
    for probe in probes {
        column.push(probe_value(columns, cases, lower, probe, unknown))?;
    }
    Ok(column)
}
