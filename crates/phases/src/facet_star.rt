ghost use Rattle.std.specs.Prelude.{◌≡◌, ◌∷◌, [], IfOk};
ghost use Rattle.std.specs.List.{AllByRecursion};
ghost use Rattle.posing.specs.Follows.{Asks};
ghost use Rattle.posing.specs.Posing.{Noted};
ghost use Rattle.polyhedra.specs.Vocabulary.{IsDirectionOver};
ghost use Rattle.recurrence.specs.Law.{IsStarred};
ghost use Rattle.recurrence.specs.Star.{star_of};
ghost use Rattle.phases.specs.FacetStar.{along, facet_star};

use facet_hull::{Facets, facets};
use farkas_check::Oracle;
use items::Items;
use linear_terms::Poly;
use polyhedra::Vocabulary;
use posing::{Log, Note, WorkError};
use recurrence::star;
use std::alloc::{AllocError, Global};
use transition_formula::Formula;

/// Star with the normals of the exact hull of the body's changes as further directions. Where the
/// body is beyond the counts of the hull, or a step of its search leaves 128 bits, it is star, and
/// that is noted first.
#[tactic(auto, using(posing::proofs::Following::stops))]
pub(crate) fn facet_star<O: Oracle>(
    alloc: Global,
    body: &Formula,
    voc: &Vocabulary,
    oracle: &mut O,
    log: &mut Log,
) -> Result<Formula, WorkError>
    requires { IsStarred body.now voc.now }
    ensures { Asks O.asking oracle log result (facet_star body.now voc.now) }
{
    match facets(alloc, body)? {
        Facets::Normals(normals) => {
            let directed = along(alloc, voc, normals)?;
            star(alloc, body, &directed, oracle, log)
        }
        Facets::Beyond => noted_star(alloc, body, voc, Note::Facets, oracle, log),
        Facets::Limit(limit) => noted_star(alloc, body, voc, Note::Limit(limit), oracle, log),
    }
}

/// The vocabulary with further directions behind its own.
fn along(alloc: Global, voc: &Vocabulary, directions: Items<Poly>) -> Result<Vocabulary, AllocError>
    requires { AllByRecursion (IsDirectionOver voc.now.columns) directions }
    ensures { IfOk result (λ made. made ≡ along directions voc.now) }
{
    let columns = voc.columns();
    let named = Items::from_slice(alloc, voc.named_columns())?;
    let harvested = copies(alloc, voc.harvested_terms())?;
    let mut extra = copies(alloc, voc.extra())?;
    extra.append(directions)?;
    Ok(Vocabulary::from_parts(columns, named, harvested, voc.rule(), extra))
}

fn copies(alloc: Global, polys: &[Poly]) -> Result<Items<Poly>, AllocError>
    ensures { IfOk result (λ made. made ≡ polys.now) }
{
    let mut made = Items::new(alloc);
    for poly in polys {
        made.push(poly.clone()?)?;
    }
    Ok(made)
}

/// Star, and before all else a note.
#[tactic(auto, using(posing::proofs::Following::following))]
fn noted_star<O: Oracle>(
    alloc: Global,
    body: &Formula,
    voc: &Vocabulary,
    note: Note,
    oracle: &mut O,
    log: &mut Log,
) -> Result<Formula, WorkError>
    requires { IsStarred body.now voc.now }
    ensures { Asks O.asking oracle log result (Noted (note ∷ []) (star_of body.now voc.now)) }
{
    let mut notes = Items::new(alloc);
    notes.push(note)?;
    log.add_notes(notes)?;
    star(alloc, body, voc, oracle, log)
}
