ghost use Rattle.std.specs.Prelude.{◌≡◌, ◌++◌, List, Result, length, IfOk, OnOk, option_to_list};
ghost use Rattle.std.specs.List.{filter};
ghost use Rattle.items.specs.Gives.{Gives};
ghost use Rattle.farkas_check.specs.Relations.{term_count};
ghost use Rattle.farkas_check.specs.Stratum.{has_unknowns};
ghost use Rattle.farkas_check.specs.declared.stratum.Change.{Change};
ghost use Rattle.farkas_check.specs.declared.stratum.Relation.{Relation};
ghost use Rattle.linear_terms.specs.Expressions.{◌⊟◌, weighted_sum};
ghost use Rattle.linear_terms.specs.Polynomial.{Polynomial};
ghost use Rattle.linear_terms.specs.TermError.{cause};
ghost use Rattle.linear_terms.specs.declared.error.TermError.{TermError};
ghost use Rattle.linear_terms.specs.declared.row.Row.{Row};
ghost use Rattle.transition_formula.specs.Loss.{answer_of, losses_of};
ghost use Rattle.posing.specs.Logs.{Adds, loss_notes};
ghost use Rattle.posing.specs.Follows.{Asks};
ghost use Rattle.polyhedra.specs.Relations.{relations_of, relations_in};
ghost use Rattle.polyhedra.specs.Squash.{relation_row, relation_rows, relation_losses};

use crate::infeasible::answer_once;
use crate::losses::loss_of;
use crate::{Log, WorkError};
use farkas_check::{Answer, Change, Oracle, Question, Relation, Stratum, term_count};
use items::Items;
use linear_terms::{Kind, Poly, Row, TermError, combination, difference};
use std::alloc::{AllocError, Global};
use transition_formula::Loss;

/// The relations between the terms of cases and lower terms that are true in each case, if they are
/// known. A limit is noted.
#[tactic(auto, using(posing::proofs::Following::following), unfolding(crate::specs::Relations::relations_of))]
pub fn relations_of<O: Oracle>(
    alloc: Global,
    stratum: Stratum,
    oracle: &mut O,
    log: &mut Log,
) -> Result<Option<Items<Relation>>, WorkError>
    ensures { Asks O.asking oracle log result (relations_of stratum.cases stratum.lower) }
{
    let terms = term_count(stratum.cases());
    let lower = stratum.lower().len();
    let answer = answer_once(alloc, Question::Stratum(stratum), oracle, log)?;
    Ok(relations_in(alloc, answer, terms, lower)?)
}

/// The relations of a basis that have so many numbers for terms and so many for lower terms.
fn relations_in(
    alloc: Global,
    answer: Answer,
    terms: usize,
    lower: usize,
) -> Result<Option<Items<Relation>>, AllocError>
    ensures { (cases : List Change) (lowers : List Polynomial) → terms ≡ term_count cases
        → lower ≡ length lowers → IfOk result (λ found. found ≡ relations_in cases lowers answer) }
{
    match answer {
        Answer::Basis { relations, .. } => Ok(Some(with_unknowns(alloc, relations, terms, lower)?)),
        _ => Ok(None),
    }
}

fn with_unknowns(
    alloc: Global,
    relations: Items<Relation>,
    terms: usize,
    lower: usize,
) -> Result<Items<Relation>, AllocError>
    ensures { (cases : List Change) (lowers : List Polynomial) → terms ≡ term_count cases
        → lower ≡ length lowers
        → IfOk result (λ kept. kept ≡ filter (has_unknowns cases lowers) relations) }
{
    let mut kept = Items::new(alloc);
    for relation in relations {
        if relation.a.len() == terms && relation.b.len() == lower {
            kept.push(relation)?;
        }
    }
    Ok(kept)
}

/// The rows that say what relations say of the terms and the lower terms. A row that is lost is
/// noted.
pub fn relation_rows(
    alloc: Global,
    terms: &[Poly],
    lower: &[Poly],
    relations: &[Relation],
    log: &mut Log,
) -> Result<Items<Row>, AllocError>
    ensures noted { Adds (loss_notes (relation_losses terms.now lower.now relations.now)) log.old
        log.new result }
    ensures exact { IfOk result (λ rows. rows ≡ relation_rows terms.now lower.now relations.now) }
{
    let mut rows = Items::new(alloc);
    let mut losses = Items::new(alloc);
    for relation in relations {
        let row = relation_row(alloc, terms, lower, relation);
        add_row(&mut rows, &mut losses, row)?;
    }
    log.add_losses(alloc, losses.as_slice())?;
    Ok(rows)
}

/// Multiples of the terms less those of the lower terms less the constant are 0.
fn relation_row(
    alloc: Global,
    terms: &[Poly],
    lower: &[Poly],
    relation: &Relation,
) -> Result<Row, TermError>
    ensures { Gives cause (λ r. r) result (relation_row terms.now lower.now relation.now) }
{
    let left = less_lower(alloc, terms, lower, relation)?;
    let constant = Poly::constant(alloc, relation.c);
    let poly = difference(alloc, &left, &constant)?;
    Ok(Row {
        poly,
        kind: Kind::Equal,
    })
}

/// Multiples of the terms less those of the lower terms.
fn less_lower(
    alloc: Global,
    terms: &[Poly],
    lower: &[Poly],
    relation: &Relation,
) -> Result<Poly, TermError>
    ensures { Gives cause (λ p. p) result
        (weighted_sum relation.now.a terms.now ⊟ weighted_sum relation.now.b lower.now) }
{
    let of_terms = combination(alloc, relation.a.as_slice(), terms)?;
    let of_lower = combination(alloc, relation.b.as_slice(), lower)?;
    difference(alloc, &of_terms, &of_lower)
}

/// Adds a row that could be made, or else its loss.
pub fn add_row(
    rows: &mut Items<Row>,
    losses: &mut Items<Loss>,
    made: Result<Row, TermError>,
) -> Result<(), AllocError>
    ensures rows { (stated : Result Row TermError) → Gives cause (λ r. r) made stated
        → OnOk result (rows.new ≡ rows.old ++ option_to_list (answer_of stated)) }
    ensures losses { (stated : Result Row TermError) → Gives cause (λ r. r) made stated
        → OnOk result (losses.new ≡ losses.old ++ losses_of stated) }
{
    match made {
        Ok(row) => rows.push(row)?,
        Err(error) => losses.push(loss_of(error)?)?,
    }
    Ok(())
}
