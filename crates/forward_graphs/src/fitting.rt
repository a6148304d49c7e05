ghost use Rattle.std.specs.Prelude.{◌≡◌, ◌&&◌, nat_le, length, IfOk};
ghost use Rattle.std.specs.List.{list_all};
ghost use Rattle.transition_formula.specs.Transition.{most_auxiliaries, most_rows, AreSolvable};
ghost use Rattle.posing.specs.Follows.{Asks};
ghost use Rattle.polyhedra.specs.Laws.{IsBetween};
ghost use Rattle.forward_graphs.specs.Evaluation.{either_formula, sequence_formula};
ghost use Rattle.forward_graphs.specs.Law.{IsWalkFormula};
ghost use Rattle.forward_graphs.specs.UnderWay.{AreInSequence};
ghost use Rattle.forward_graphs.specs.Within.{fitted_formula_within, is_within, most_walk_cases, settled_formula_within};

use farkas_check::Oracle;
use items::Items;
use linear_terms::Case;
use polyhedra::{Log, Vocabulary, WorkError, fit, settle};
use std::alloc::Global;
use transition_formula::{Formula, join, seq};

/// How many cases the formula of walks may have, and how many rows and auxiliaries each of them,
/// where the evaluation goes on with it as it is.
const MOST_CASES: usize = 64;

const MOST_ROWS: usize = 64;

const MOST_AUXILIARIES: u32 = 64;

/// The vocabularies that a formula goes between.
#[derive(Clone, Copy)]
pub(crate) struct Ends<'a> {
    pub from: &'a Vocabulary,
    pub to: &'a Vocabulary,
}

/// The formula settled, then fitted within 64 cases.
#[tactic(auto, using(posing::proofs::Following::following), unfolding(crate::specs::Within::settled_formula_within))]
pub(crate) fn settled_formula_within<O: Oracle>(
    alloc: Global,
    f: &Formula,
    ends: Ends,
    oracle: &mut O,
    log: &mut Log,
) -> Result<Formula, WorkError>
    requires between { IsBetween f.now ends.from.now ends.to.now }
    requires solvable { AreSolvable f.now.cases }
    ensures { Asks O.asking oracle log result
        (settled_formula_within most_walk_cases f.now ends.entry.from.now ends.entry.to.now) }
{
    let settled = settle(alloc, f, oracle, log)?;
    fitted_formula_within(alloc, &settled, ends, oracle, log)
}

/// The formula itself if it has at most 64 cases, each of at most 64 rows and 64 auxiliaries, else
/// squashed.
#[tactic(auto, using(posing::proofs::Following::stops))]
fn fitted_formula_within<O: Oracle>(
    alloc: Global,
    f: &Formula,
    ends: Ends,
    oracle: &mut O,
    log: &mut Log,
) -> Result<Formula, WorkError>
    requires { IsBetween f.now ends.from.now ends.to.now }
    ensures { Asks O.asking oracle log result
        (fitted_formula_within most_walk_cases f.now ends.entry.from.now ends.entry.to.now) }
{
    if is_within(f.cases()) {
        let copy = f.clone()?;
        return Ok(copy);
    }
    fit(alloc, f, ends.from, ends.to, oracle, log)
}

fn is_within(cases: &[Case]) -> bool
    ensures { result ≡ is_within most_walk_cases cases.now }
{
    cases.len() <= MOST_CASES && have_few_parts(cases)
}

fn have_few_parts(cases: &[Case]) -> bool
    ensures { result
        ≡ list_all (λ case. nat_le (length case.rows) most_rows
        && nat_le case.aux most_auxiliaries) cases.now }
{
    cases.iter().all(|case| case.rows.len() <= MOST_ROWS && case.aux <= MOST_AUXILIARIES)
}

/// The formula of one walk and then another, whose losses are noted before the first question.
#[tactic(auto, using(posing::proofs::Following::following), unfolding(crate::specs::Evaluation::sequence_formula))]
pub(crate) fn sequence<O: Oracle>(
    alloc: Global,
    first: &Formula,
    second: &Formula,
    ends: Ends,
    oracle: &mut O,
    log: &mut Log,
) -> Result<Formula, WorkError>
    requires { AreInSequence ends.from.now ends.to.now first.now second.now }
    ensures { Asks O.asking oracle log result
        (sequence_formula first.now second.now ends.entry.from.now ends.entry.to.now) }
{
    let mut losses = Items::new(alloc);
    let f = seq(alloc, first, second, &mut losses)?;
    log.add_losses(alloc, losses.as_slice())?;
    settled_formula_within(alloc, &f, ends, oracle, log)
}

/// Either of two formulas.
#[tactic(auto, using(posing::proofs::Following::following), unfolding(crate::specs::Evaluation::either_formula))]
pub(crate) fn either<O: Oracle>(
    alloc: Global,
    left: &Formula,
    right: &Formula,
    ends: Ends,
    oracle: &mut O,
    log: &mut Log,
) -> Result<Formula, WorkError>
    requires left { IsWalkFormula ends.from.now ends.to.now left.now }
    requires right { IsWalkFormula ends.from.now ends.to.now right.now }
    ensures { Asks O.asking oracle log result
        (either_formula left.now right.now ends.entry.from.now ends.entry.to.now) }
{
    let f = join(alloc, left, right)?;
    fitted_formula_within(alloc, &f, ends, oracle, log)
}
