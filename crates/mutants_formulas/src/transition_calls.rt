ghost use Rattle.std.specs.Prelude.{◌≡◌, ◌⊎◌, ◌↔◌, ◌+◌, ◌<◌, ◌^◌, ◌++◌, ℕ, ℤ, List, length, IfOk, OnOk, IsTrue};
ghost use Rattle.linear_terms.specs.Auxiliaries.{is_numbered};
ghost use Rattle.transition_formula.specs.Composition.{union_of, losses_in_sequence, sequence_of};
ghost use Rattle.transition_formula.specs.Meaning.{Holds, HoldsCase, HoldsSolved};
ghost use Rattle.transition_formula.specs.Rounds.{in_order, solved_answer, Stays};
ghost use Rattle.transition_formula.specs.Transition.{every_column_of, fits, AreFew};

use items::Items;
use linear_terms::Case;
use std::alloc::Global;
use transition_formula::{Formula, FormulaError, Loss, Solved};

/// The choice of two formulas between the same columns.
pub fn join(alloc: Global, a: &Formula, b: &Formula) -> Result<Formula, FormulaError>
    requires from { a.now.from ≡ b.now.from }
    requires to { a.now.to ≡ b.now.to }
    ensures exact { IfOk result (λ f. f ≡ union_of a.now b.now) }
    ensures holds { (before after : List ℤ)
        → IfOk result
        (λ f. Holds f before after ↔ (Holds a.now before after ⊎ Holds b.now before after)) }
{
    transition_formula::join(alloc, a, b)
}

/// One formula and then another.
pub fn seq(
    alloc: Global,
    a: &Formula,
    b: &Formula,
    losses: &mut Items<Loss>,
) -> Result<Formula, FormulaError>
    requires between { a.now.to ≡ b.now.from }
    requires few { AreFew a.now b.now }
    ensures exact { IfOk result (λ f. f ≡ sequence_of a.now b.now) }
    ensures noted { OnOk result (losses.new ≡ losses.old ++ losses_in_sequence a.now b.now) }
    ensures at_least { (before middle after : List ℤ)
        → IfOk result (λ f. Holds a.now before middle → Holds b.now middle after
        → Holds f before after) }
    ensures at_most { (before after : List ℤ) → losses.new ≡ losses.old
        → IfOk result (λ f. Holds f before after
        → ((middle : List ℤ) × (Holds a.now before middle × Holds b.now middle after))) }
{
    transition_formula::seq(alloc, a, b, losses)
}

/// A case put in order.
pub fn solve(alloc: Global, case: &Case, losses: &mut Items<Loss>) -> Result<Solved, FormulaError>
    requires numbered { IsTrue (every_column_of (is_numbered case.now.aux) case.now) }
    requires few { case.now.aux + length case.now.post < 2 ^ 32 }
    ensures exact { IfOk result (λ made. made ≡ solved_answer (in_order case.now).left) }
    ensures noted { OnOk result (losses.new ≡ losses.old ++ (in_order case.now).losses) }
    ensures at_least { (before after : List ℤ)
        → IfOk result (λ made. HoldsCase case.now before after → HoldsSolved made before after) }
    ensures at_most { (before after : List ℤ) → losses.new ≡ losses.old
        → IfOk result (λ made. HoldsSolved made before after → HoldsCase case.now before after) }
    ensures fits { (from to : ℕ) → IsTrue (fits from to case.now)
        → IfOk result (Stays (λ c. IsTrue (fits from to c))) }
{
    transition_formula::solve(alloc, case, losses)
}
