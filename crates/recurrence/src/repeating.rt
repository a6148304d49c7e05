ghost use Rattle.std.specs.Prelude.{◌≡◌, IfOk, option_to_list};
ghost use Rattle.transition_formula.specs.Composition.{identity_of, union_of};
ghost use Rattle.transition_formula.specs.Meaning.{HoldsOfChains};
ghost use Rattle.transition_formula.specs.Transition.{IsTransition};
ghost use Rattle.posing.specs.Follows.{Asks};
ghost use Rattle.recurrence.specs.Law.{IsStarred, IsStar};
ghost use Rattle.recurrence.specs.Star.{star_of};

use crate::turning::turns;
use farkas_check::Oracle;
use items::Items;
use linear_terms::Case;
use polyhedra::{Log, Vocabulary, WorkError, finish};
use std::alloc::{AllocError, Global};
use transition_formula::{Formula, FormulaError, identity, join};

/// What any number of turns of the body do: the identity, and a case of one and more turns, from
/// recurrences and bounds that the answers give. It holds of the first and the last of every list
/// of states of which the body links each to the next.
///
/// The questions are those of `star_of`; what is lost is noted. Source: Farzan and Kincaid,
/// Compositional Recurrence Analysis, FMCAD 2015.
pub fn star<O: Oracle>(
    alloc: Global,
    body: &Formula,
    voc: &Vocabulary,
    oracle: &mut O,
    log: &mut Log,
) -> Result<Formula, WorkError>
    requires { IsStarred body.now voc.now }
    ensures follows { Asks O.asking oracle log result (star_of body.now voc.now) }
    ensures holds { IfOk result (HoldsOfChains body.now) }
    ensures fits { IfOk result (IsStar body.now.to) }
{
    repeated_body(alloc, body, voc, oracle, log)
}

/// The identity where the body has no case; else the identity, and what is left of the second case
/// in order, thinned and cut.
#[tactic(auto, using(posing::proofs::Following::following), unfolding(crate::specs::Star::star_of))]
fn repeated_body<O: Oracle>(
    alloc: Global,
    body: &Formula,
    voc: &Vocabulary,
    oracle: &mut O,
    log: &mut Log,
) -> Result<Formula, WorkError>
    requires { IsStarred body.now voc.now }
    ensures { Asks O.asking oracle log result (star_of body.now voc.now) }
{
    if body.cases().is_empty() {
        return Ok(identity(alloc, body.from())?);
    }
    let case = turns(alloc, body, voc, oracle, log)?;
    let left = finish(alloc, &case, oracle, log)?;
    let made = with_identity(alloc, body, left)?;
    Ok(made)
}

/// The identity, and a case if any is left.
fn with_identity(alloc: Global, body: &Formula, left: Option<Case>) -> Result<Formula, FormulaError>
    requires ends { body.now.from ≡ body.now.to }
    requires fits { IsTransition body.now.from body.now.to (option_to_list left) }
    ensures { IfOk result
        (λ g. g ≡ union_of (identity_of body.now.from)
        (record { from = body.now.from; to = body.now.to; cases = option_to_list left })) }
{
    let none = identity(alloc, body.from())?;
    let some = Formula::from_cases(body.from(), body.to(), cases_of(alloc, left)?);
    join(alloc, &none, &some)
}

fn cases_of(alloc: Global, left: Option<Case>) -> Result<Items<Case>, AllocError>
    ensures { IfOk result (λ cases. cases ≡ option_to_list left) }
{
    let mut cases = Items::new(alloc);
    if let Some(case) = left {
        cases.push(case)?;
    }
    Ok(cases)
}
