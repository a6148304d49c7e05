ghost use Rattle.std.specs.Prelude.{◌≡◌, IfOk};
ghost use Rattle.transition_formula.specs.Meaning.{Covers};
ghost use Rattle.transition_formula.specs.Transition.{AreSolvable};
ghost use Rattle.posing.specs.Follows.{Asks};
ghost use Rattle.checked_tree.specs.Evaluation.{settled_and_fitted, leaf_formula, sequence_formula, join_formula};
ghost use Rattle.checked_tree.specs.Law.{IsFrom, IsEnd, IsBetweenEnds};
ghost use Rattle.checked_tree.specs.Operands.{AreInSequence, AreEither};

use farkas_check::Oracle;
use items::Items;
use polyhedra::{Log, Vocabulary, WorkError, fit, settle};
use std::alloc::Global;
use transition_formula::{Formula, join, seq};

/// The formula settled, then fitted between two vocabularies, the ends of a walk. It holds of all
/// that the formula holds of.
///
/// # Errors
///
/// A question that the oracle refused, or want of memory.
#[tactic(auto, using(posing::proofs::Following::following), unfolding(crate::specs::Evaluation::settled_and_fitted))]
pub fn settled_and_fitted<O: Oracle>(
    alloc: Global,
    f: &Formula,
    from: &Vocabulary,
    to: &Vocabulary,
    oracle: &mut O,
    log: &mut Log,
) -> Result<Formula, WorkError>
    requires between { IsFrom from.now to.now f.now }
    requires start { IsEnd from.now }
    requires end { IsEnd to.now }
    requires solvable { AreSolvable f.now.cases }
    ensures follows { Asks O.asking oracle log result (settled_and_fitted f.now from.now to.now) }
    ensures fits { IfOk result (IsBetweenEnds from.now to.now) }
    ensures covers { IfOk result (λ g. Covers g f.now) }
{
    let settled = settle(alloc, f, oracle, log)?;
    fit(alloc, &settled, from, to, oracle, log)
}

/// The formula of a link, from the one that it was given: settled, then fitted between the
/// vocabularies of the link's ends.
#[tactic(auto, using(posing::proofs::Following::following), unfolding(crate::specs::Evaluation::leaf_formula))]
pub fn leaf<O: Oracle>(
    alloc: Global,
    f: &Formula,
    from: &Vocabulary,
    to: &Vocabulary,
    oracle: &mut O,
    log: &mut Log,
) -> Result<Formula, WorkError>
    requires between { IsFrom from.now to.now f.now }
    requires start { IsEnd from.now }
    requires end { IsEnd to.now }
    requires solvable { AreSolvable f.now.cases }
    ensures { Asks O.asking oracle log result (leaf_formula f.now from.now to.now) }
{
    settled_and_fitted(alloc, f, from, to, oracle, log)
}

/// The formula of one path and then another: the sequence of both, whose losses are noted before
/// the first question, settled and fitted between the vocabularies of its ends. The first goes to a
/// vocabulary that the second goes on from.
#[tactic(auto, using(posing::proofs::Following::following), unfolding(crate::specs::Evaluation::sequence_formula))]
pub fn sequence<O: Oracle>(
    alloc: Global,
    first: &Formula,
    second: &Formula,
    from: &Vocabulary,
    to: &Vocabulary,
    oracle: &mut O,
    log: &mut Log,
) -> Result<Formula, WorkError>
    requires { AreInSequence from.now to.now first.now second.now }
    ensures { Asks O.asking oracle log result
        (sequence_formula first.now second.now from.now to.now) }
{
    let mut losses = Items::new(alloc);
    let f = seq(alloc, first, second, &mut losses)?;
    log.add_losses(alloc, losses.as_slice())?;
    settled_and_fitted(alloc, &f, from, to, oracle, log)
}

/// The formula of either of two paths between the same nodes: the cases of both, fitted between the
/// vocabularies of these nodes.
#[tactic(auto, using(posing::proofs::Following::following), unfolding(crate::specs::Evaluation::join_formula))]
pub fn either<O: Oracle>(
    alloc: Global,
    left: &Formula,
    right: &Formula,
    from: &Vocabulary,
    to: &Vocabulary,
    oracle: &mut O,
    log: &mut Log,
) -> Result<Formula, WorkError>
    requires { AreEither from.now to.now left.now right.now }
    ensures { Asks O.asking oracle log result (join_formula left.now right.now from.now to.now) }
{
    let f = join(alloc, left, right)?;
    fit(alloc, &f, from, to, oracle, log)
}
