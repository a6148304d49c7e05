ghost use Rattle.std.specs.Prelude.{IfOk};
ghost use Rattle.polyhedra.specs.Laws.{IsBetween, IsSmall, IsWider};
ghost use Rattle.polyhedra.specs.Settle.{settled_formula};
ghost use Rattle.polyhedra.specs.Squash.{fitted_formula};
ghost use Rattle.polyhedra.specs.Thin.{thinned_case};
ghost use Rattle.posing.specs.Follows.{Asks};
ghost use Rattle.transition_formula.specs.Meaning.{Covers};
ghost use Rattle.transition_formula.specs.Transition.{AreSolvable};

use farkas_check::Oracle;
use linear_terms::Case;
use polyhedra::{Log, Vocabulary, WorkError};
use std::alloc::Global;
use transition_formula::Formula;

/// Each case of a formula in order, without those that the answers call infeasible.
pub fn settle<O: Oracle>(
    alloc: Global,
    f: &Formula,
    oracle: &mut O,
    log: &mut Log,
) -> Result<Formula, WorkError>
    requires { AreSolvable f.now.cases }
    ensures follows { Asks O.asking oracle log result (settled_formula f.now) }
    ensures covers { IfOk result (λ g. Covers g f.now) }
{
    polyhedra::settle(alloc, f, oracle, log)
}

/// A case without the inequalities that its other rows entail.
pub fn thin<O: Oracle>(
    alloc: Global,
    case: &Case,
    oracle: &mut O,
    log: &mut Log,
) -> Result<Case, WorkError>
    ensures follows { Asks O.asking oracle log result (thinned_case case.now) }
    ensures covers { IfOk result (IsWider case.now) }
{
    polyhedra::thin(alloc, case, oracle, log)
}

/// A formula of at most 16 cases, each of at most 64 rows and 64 auxiliaries.
pub fn fit<O: Oracle>(
    alloc: Global,
    f: &Formula,
    from: &Vocabulary,
    to: &Vocabulary,
    oracle: &mut O,
    log: &mut Log,
) -> Result<Formula, WorkError>
    requires { IsBetween f.now from.now to.now }
    ensures follows { Asks O.asking oracle log result (fitted_formula f.now from.now to.now) }
    ensures covers { IfOk result (λ g. Covers g f.now) }
    ensures small { IfOk result (IsSmall f.now) }
{
    polyhedra::fit(alloc, f, from, to, oracle, log)
}
