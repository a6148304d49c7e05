ghost use Rattle.std.specs.Prelude.{IfOk};
ghost use Rattle.transition_formula.specs.Meaning.{HoldsOfChains};
ghost use Rattle.posing.specs.Follows.{Asks};
ghost use Rattle.phases.specs.Law.{IsPhasable, IsPhased};
ghost use Rattle.phases.specs.Repetition.{repetition};

use crate::facet_star::facet_star;
use crate::phasing::{see_cases, star};
use crate::rules::{has_facets, has_phases};
use farkas_check::Oracle;
use polyhedra::Vocabulary;
use posing::{Log, WorkError};
use std::alloc::Global;
use transition_formula::Formula;

/// What any number of turns of the body do, by the rule of the vocabulary: phase by phase where the
/// rule has phases; else at once, along the facets of the exact hull of the body's changes too where
/// the rule has facets. It holds of the first and the last of every list of states of which the body
/// links each to the next.
pub fn repetition<O: Oracle>(
    alloc: Global,
    body: &Formula,
    voc: &Vocabulary,
    oracle: &mut O,
    log: &mut Log,
) -> Result<Formula, WorkError>
    requires { IsPhasable body.now voc.now }
    ensures follows { Asks O.asking oracle log result (repetition body.now voc.now) }
    ensures holds { IfOk result (HoldsOfChains body.now) }
    ensures fits { IfOk result (IsPhased body.now.to) }
{
    see_cases(body.cases());
    repeated_body(alloc, body, voc, oracle, log)
}

fn repeated_body<O: Oracle>(
    alloc: Global,
    body: &Formula,
    voc: &Vocabulary,
    oracle: &mut O,
    log: &mut Log,
) -> Result<Formula, WorkError>
    requires { IsPhasable body.now voc.now }
    ensures { Asks O.asking oracle log result (repetition body.now voc.now) }
{
    if has_phases(voc.rule()) {
        return star(alloc, body, voc, oracle, log);
    }
    if has_facets(voc.rule()) {
        return facet_star(alloc, body, voc, oracle, log);
    }
    recurrence::star(alloc, body, voc, oracle, log)
}
