ghost use Rattle.std.specs.Prelude.{◌≡◌, ◌-◌, ◌^◌, All, None, IfOk, IsTrue, MatchOption, ◌↔◌, ⊤};
ghost use Rattle.farkas_check.specs.Calm.{IsCalm, IsLiveAndCalm};
ghost use Rattle.farkas_check.specs.Kept.{IsCanonicalStratum};
ghost use Rattle.farkas_check.specs.Meaning.{IsLimit, IsTight};
ghost use Rattle.farkas_check.specs.Relations.{stratum_columns};
ghost use Rattle.farkas_check.specs.Sizes.{IsDead, IsNarrow, IsSlim};
ghost use Rattle.farkas_check.specs.Tested.{Passes};
ghost use Rattle.farkas_check.specs.declared.question.Question.TheVariants as question;
ghost use Rattle.simplex.specs.Answers.{IsWide};
ghost use Rattle.simplex.specs.Strata.{PivotsOver};
ghost use Rattle.elimination.specs.Answers.{IsPivots};
ghost use Rattle.elimination.specs.BasisParts.{AreInners};
ghost use Rattle.elimination.specs.Narrow.{IsSmallChange, IsSmallStratum};
ghost use Rattle.elimination.specs.Probes.{IsProbe, IsKernel};
ghost use Rattle.elimination.specs.SmallStrata.{IsPassingBasis, LacksRoom, AreProbes};

use crate::basis::basis;
use crate::inner::{Inner, inner_point};
use crate::kernel::{Kernel, kernel_of};
use crate::probes::Probe;
use crate::sizes::{is_small_change, is_small_stratum};
use farkas_check::{Answer, Change, Stratum, canonical_stratum, stratum_columns, truth_of_passing};
use items::Items;
use linear_terms::Mono;
use std::alloc::{AllocError, Global};

/// Answers which relations between the terms and the lower terms are true at each point of each
/// case. The answer passes the test of its question. On a narrow question, and on a live and calm
/// one, it is no limit; on a slim one it is `Pivots` only where a case has no points. It names a
/// product or sum that leaves 128 bits only where the question is not calm.
#[tactic(auto, using(crate::proofs::SmallStrata::small_strata))]
pub fn stratum(alloc: Global, asked: &Stratum) -> Result<Answer, AllocError>
    ensures passes { IfOk result (λ a. Passes (question.Stratum asked.now) a) }
    ensures tight { IfOk result (λ a. (IsLimit a → ⊥) → IsTight (question.Stratum asked.now) a) }
    ensures narrow { IsNarrow (question.Stratum asked.now) → IfOk result (λ a. IsLimit a → ⊥) }
    ensures calm { IsLiveAndCalm (question.Stratum asked.now) → IfOk result (λ a. IsLimit a → ⊥) }
    ensures wide { IsCalm (question.Stratum asked.now) → IfOk result (λ a. IsWide a → ⊥) }
    ensures pivots { IfOk result (λ a. PivotsOver (2 ^ 127 - 1) asked.now a) }
    ensures slim { IsSlim (question.Stratum asked.now)
        → IfOk result (λ a. IsPivots a → IsDead (question.Stratum asked.now)) }
{
    truth_of_passing();
    match small_basis(alloc, asked)? {
        Some(found) => Ok(found),
        None => simplex::stratum(alloc, asked),
    }
}

/// The basis of a question of small numbers, or none where the question is not narrow.
#[tactic(auto, using(crate::proofs::SmallStrata::small_strata))]
fn small_basis(alloc: Global, asked: &Stratum) -> Result<Option<Answer>, AllocError>
    ensures basis { IfOk result (λ found. MatchOption found ⊤ (IsPassingBasis asked.now)) }
    ensures none { IfOk result (λ found. found ≡ None → IsNarrow (question.Stratum asked.now) → ⊥) }
{
    if !is_small_stratum(alloc, asked)? || !are_small_changes(alloc, asked.cases())? {
        return Ok(None);
    }
    basis_with_room(alloc, asked)
}

/// Whether each case has few columns, few rows and small numbers.
fn are_small_changes(alloc: Global, cases: &[Change]) -> Result<bool, AllocError>
    ensures { IfOk result (λ b. IsTrue b ↔ All IsSmallChange cases.now) }
{
    for case in cases {
        if !is_small_change(alloc, case)? {
            return Ok(false);
        }
    }
    Ok(true)
}

/// The basis of a question of small numbers, or none where a case leaves no room in some direction.
fn basis_with_room(alloc: Global, asked: &Stratum) -> Result<Option<Answer>, AllocError>
    requires stratum { IsSmallStratum asked.now.cases asked.now.lower }
    requires small { All IsSmallChange asked.now.cases }
    ensures basis { IfOk result (λ found. MatchOption found ⊤ (IsPassingBasis asked.now)) }
    ensures none { IfOk result (λ found. found ≡ None → LacksRoom asked.now.cases) }
{
    canonical_stratum(asked);
    let columns = stratum_columns(alloc, asked)?;
    let kernel = kernel_of(alloc, columns.as_slice(), asked)?;
    basis_over(alloc, asked, columns.as_slice(), &kernel)
}

/// The basis of a kernel, or none where a case of its probes leaves no room.
fn basis_over(
    alloc: Global,
    asked: &Stratum,
    columns: &[Mono],
    kernel: &Kernel,
) -> Result<Option<Answer>, AllocError>
    requires canonical { IsCanonicalStratum asked.now.cases asked.now.lower }
    requires columns { columns.now ≡ stratum_columns asked.now.cases asked.now.lower }
    requires stratum { IsSmallStratum asked.now.cases asked.now.lower }
    requires small { All IsSmallChange asked.now.cases }
    requires kernel { IsKernel columns.now asked.now.cases asked.now.lower kernel.now }
    ensures basis { IfOk result (λ found. MatchOption found ⊤ (IsPassingBasis asked.now)) }
    ensures none { IfOk result (λ found. found ≡ None → LacksRoom asked.now.cases) }
{
    let probes = kernel.probes.as_slice();
    match inner_points(alloc, columns, asked.cases(), probes)? {
        Some(inners) => {
            let found = basis(alloc, asked, columns, kernel, inners.as_slice())?;
            Ok(Some(found))
        }
        None => Ok(None),
    }
}

/// An inner point of the case of each probe, or none where such a case leaves no room in some
/// direction.
fn inner_points(
    alloc: Global,
    columns: &[Mono],
    cases: &[Change],
    probes: &[Probe],
) -> Result<Option<Items<Inner>>, AllocError>
    requires probes { AreProbes columns.now cases.now probes.now }
    ensures inners { IfOk result
        (λ found. MatchOption found ⊤ (AreInners columns.now cases.now probes.now)) }
    ensures none { IfOk result (λ found. found ≡ None → LacksRoom cases.now) }
{
    let mut made = Items::new(alloc);
    for probe in probes {
        match inner_point(alloc, columns, cases[probe.case].rows.as_slice())? {
            Some(inner) => made.push(inner)?,
            None => return Ok(None),
        }
    }
    Ok(Some(made))
}
