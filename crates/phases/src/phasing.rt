ghost use Rattle.std.specs.Prelude.{◌≡◌, IfOk};
ghost use Rattle.transition_formula.specs.Meaning.{HoldsOfChains};
ghost use Rattle.posing.specs.Follows.{Asks};
ghost use Rattle.polyhedra.specs.Laws.{HaveCanonicalRows};
ghost use Rattle.phases.specs.Law.{IsPhasable, IsPhased};
ghost use Rattle.phases.specs.Phases.{in_turn, phased_star, phases_of};
ghost use Rattle.phases.specs.Words.{AreInTurn, IsRoomy};

use crate::halving::split;
use farkas_check::Oracle;
use items::Items;
use linear_terms::{Case, see_rows};
use polyhedra::{Vocabulary, fit, settle};
use posing::{Log, WorkError};
use std::alloc::Global;
use transition_formula::{Formula, seq};

/// How deep phases split.
const MOST_DEPTH: u32 = 4;

/// What any number of turns of the body do, phase by phase: where an inequality of a row splits the
/// body's turns into some that begin where it is false and some that begin where it is true, and
/// none of these ends where it is false, it is what the first do and then what the second do, each
/// so again. It holds of the first and the last of every list of states of which the body links
/// each to the next.
///
/// The questions are those of `phases_of`; what is lost is noted, but for what lets a split fall
/// without a step. Source: Sharma, Dillig, Dillig and Aiken, Simplifying Loop Invariant Generation
/// Using Splitter Predicates, CAV 2011.
pub fn star<O: Oracle>(
    alloc: Global,
    body: &Formula,
    voc: &Vocabulary,
    oracle: &mut O,
    log: &mut Log,
) -> Result<Formula, WorkError>
    requires { IsPhasable body.now voc.now }
    ensures follows { Asks O.asking oracle log result (phases_of body.now voc.now) }
    ensures holds { IfOk result (HoldsOfChains body.now) }
    ensures fits { IfOk result (IsPhased body.now.to) }
{
    see_cases(body.cases());
    phased_star(alloc, body, voc, MOST_DEPTH, oracle, log)
}

/// Each case's rows have their monomials in print order, each once, with numbers that are not zero.
/// It goes over the cases and has no part in an answer.
pub(crate) fn see_cases(cases: &[Case])
    ensures { HaveCanonicalRows cases.now }
{
    for case in cases {
        see_rows(case.rows.as_slice());
    }
}

/// Phases that split no deeper than that.
fn phased_star<O: Oracle>(
    alloc: Global,
    body: &Formula,
    voc: &Vocabulary,
    depth: u32,
    oracle: &mut O,
    log: &mut Log,
) -> Result<Formula, WorkError>
    requires { IsRoomy depth body.now voc.now }
    ensures { Asks O.asking oracle log result (phased_star depth voc.now body.now) }
{
    if depth == 0 {
        return recurrence::star(alloc, body, voc, oracle, log);
    }
    match split(alloc, body, oracle, log)? {
        None => recurrence::star(alloc, body, voc, oracle, log),
        Some(found) => {
            let first = phased_star(alloc, &found.first, voc, depth - 1, oracle, log)?;
            let second = phased_star(alloc, &found.second, voc, depth - 1, oracle, log)?;
            in_turn(alloc, &first, &second, voc, oracle, log)
        }
    }
}

/// One formula and then another, settled and fitted.
#[tactic(auto, using(posing::proofs::Following::following), unfolding(crate::specs::Phases::in_turn))]
fn in_turn<O: Oracle>(
    alloc: Global,
    first: &Formula,
    second: &Formula,
    voc: &Vocabulary,
    oracle: &mut O,
    log: &mut Log,
) -> Result<Formula, WorkError>
    requires { AreInTurn voc.now first.now second.now }
    ensures { Asks O.asking oracle log result (in_turn voc.now first.now second.now) }
{
    let mut losses = Items::new(alloc);
    let both = seq(alloc, first, second, &mut losses)?;
    log.add_losses(alloc, losses.as_slice())?;
    let left = settle(alloc, &both, oracle, log)?;
    fit(alloc, &left, voc, voc, oracle, log)
}
