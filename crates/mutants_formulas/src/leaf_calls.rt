ghost use Rattle.std.specs.Prelude.{◌≡◌, ◌+◌, ◌≤◌, ◌<◌, ◌^◌, ◌++◌, ℤ, List, length, All, IfOk, OnOk, OnErr, IsTrue};
ghost use Rattle.execution.specs.Step.{IsTrueIn};
ghost use Rattle.flow_graph.specs.Plain.{statement_of_act};
ghost use Rattle.flow_graph.specs.Walks.{EdgeRelates};
ghost use Rattle.leaf_cases.specs.Conditions.{columns_at, AreKnown, IsActOf, KnownCalls};
ghost use Rattle.leaf_cases.specs.Edges.{leaf_of, losses_in_leaf};
ghost use Rattle.leaf_cases.specs.Expression.{lists_of};
ghost use Rattle.leaf_cases.specs.Guard.{guard_of};
ghost use Rattle.syntax_tree.specs.Term.{term_of};
ghost use Rattle.syntax_tree.specs.WellFormed.{columns_below, operators_of, IsWellFormed};
ghost use Rattle.syntax_tree.specs.declared.limits.TheConstants.{MOST_OPERATORS};
ghost use Rattle.transition_formula.specs.Meaning.{Holds};

use flow_graph::Act;
use items::Items;
use std::alloc::Global;
use syntax_tree::{Core, Program};
use transition_formula::{Formula, FormulaError, Loss};

/// The formula of an edge of a procedure's graph.
pub fn leaf(
    alloc: Global,
    program: &Program,
    proc: u32,
    act: &Act,
    known: &[Option<Formula>],
    losses: &mut Items<Loss>,
) -> Result<Formula, FormulaError>
    requires formed { IsWellFormed program.now }
    requires procedure { proc < length program.now.procs }
    requires edge { IsActOf program.now proc (statement_of_act act.now) }
    requires known { AreKnown program.now known.now }
    ensures exact { IfOk result
        (λ f. f ≡ leaf_of (columns_at program.now proc) (length program.now.globals) known.now
        (statement_of_act act.now)) }
    ensures noted { OnOk result
        (losses.new ≡ losses.old ++ losses_in_leaf (columns_at program.now proc)
        (length program.now.globals) known.now (statement_of_act act.now)) }
    ensures kept { OnErr result (losses.new ≡ losses.old) }
    ensures cases { IfOk result (λ f. length f.cases ≤ 4096) }
    ensures few { IfOk result (λ f. All (λ case. case.aux < 2 ^ 31) f.cases) }
    ensures at_least { (before after : List ℤ)
        → IfOk result (λ f. length before ≡ columns_at program.now proc
        → EdgeRelates (KnownCalls known.now) (length program.now.globals) (statement_of_act act.now)
        before after → Holds f before after) }
    ensures at_most { (before after : List ℤ) → losses.new ≡ losses.old
        → IfOk result (λ f. Holds f before after
        → EdgeRelates (KnownCalls known.now) (length program.now.globals) (statement_of_act act.now)
        before after) }
{
    leaf_cases::leaf(alloc, program, proc, act, known, losses)
}

/// Says that an expression is true, and that nothing changes.
pub fn truth(
    alloc: Global,
    e: &Core,
    columns: u32,
    losses: &mut Items<Loss>,
) -> Result<Formula, FormulaError>
    requires below { IsTrue (columns_below columns (term_of e.now)) }
    requires operators { operators_of (term_of e.now) ≤ MOST_OPERATORS + 1 }
    ensures exact { IfOk result (λ f. f ≡ guard_of columns (lists_of (term_of e.now)).truth.cases) }
    ensures noted { OnOk result (losses.new ≡ losses.old ++ (lists_of (term_of e.now)).truth.lost) }
    ensures kept { OnErr result (losses.new ≡ losses.old) }
    ensures few { IfOk result (λ f. All (λ case. case.aux < 2 ^ 31) f.cases) }
    ensures at_least { (state : List ℤ)
        → IfOk result (λ f. length state ≡ columns → IsTrueIn (term_of e.now) state
        → Holds f state state) }
    ensures at_most { (before after : List ℤ) → losses.new ≡ losses.old
        → IfOk result (λ f. Holds f before after
        → ((after ≡ before) × IsTrueIn (term_of e.now) before)) }
{
    leaf_cases::truth(alloc, e, columns, losses)
}
