ghost use Rattle.std.specs.Prelude.{IfOk};
ghost use Rattle.posing.specs.Follows.{Asks};
ghost use Rattle.recurrence.specs.Law.{IsStar, IsStarred};
ghost use Rattle.recurrence.specs.Star.{star_of};
ghost use Rattle.transition_formula.specs.Meaning.{HoldsOfChains};

use farkas_check::Oracle;
use polyhedra::{Log, Vocabulary, WorkError};
use std::alloc::Global;
use transition_formula::Formula;

/// What any number of turns of the body do.
pub fn star<O: Oracle>(
    alloc: Global,
    body: &Formula,
    voc: &Vocabulary,
    oracle: &mut O,
    log: &mut Log,
) -> Result<Formula, WorkError>
    requires { IsStarred body.now voc.now }
    ensures follows { Asks O.asking oracle log result (star_of body.now voc.now) }
    ensures holds { IfOk result (HoldsOfChains body.now) }
    ensures fits { IfOk result (IsStar body.now.to) }
{
    recurrence::star(alloc, body, voc, oracle, log)
}
