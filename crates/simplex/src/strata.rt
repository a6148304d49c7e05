ghost use Rattle.std.specs.Prelude.{◌≡◌, ◌++◌, ◌∷◌, [], ◌+◌, ◌-◌, ◌^◌, ◌<◌, ◌≤◌, ℕ, pos, length, map, slice_get, false, All, IfOk, IfErr, IsTrue};
ghost use Rattle.farkas_check.specs.Calm.{IsCalm, IsCalmStratum, IsLiveAndCalm};
ghost use Rattle.farkas_check.specs.Kept.{IsCanonicalStratum};
ghost use Rattle.farkas_check.specs.Meaning.{IsLimit, IsTight};
ghost use Rattle.farkas_check.specs.Relations.{term_count, have_equally_many, numbers_of, stratum_columns};
ghost use Rattle.farkas_check.specs.Stratum.{terms_of};
ghost use Rattle.farkas_check.specs.Tested.{Passes};
ghost use Rattle.farkas_check.specs.declared.question.Question.TheVariants as question;
ghost use Rattle.simplex.specs.Answers.{IsWide, NamesStep};
ghost use Rattle.simplex.specs.Calm.{IsMemory};
ghost use Rattle.simplex.specs.CalmStrata.{IsRefusalOf, IsRefusalUnder, IsLinesStep, IsCalmRelation};
ghost use Rattle.simplex.specs.Refusal.{IsRefusal};
ghost use Rattle.simplex.specs.Relations.{IsRelationWith};
ghost use Rattle.simplex.specs.SearchSteps.{StopsBy};
ghost use Rattle.simplex.specs.StrataSteps.{IsCandidate, IsSearchStep};
ghost use Rattle.simplex.specs.Points.{IsPointAt};
ghost use Rattle.simplex.specs.SmallBasis.{HasFewRows, HasSmallEnd, HasSmallTies, HasSmallVerdict, IsRefusalOver, IsSmallIn, IsSmallOver, IsSmallWhereCalm};
ghost use Rattle.simplex.specs.Spots.{AreSpots, AreRelations, IsNewPoint, IsRelationOf, IsUnchosen};
ghost use Rattle.simplex.specs.Strata.{IsAsked, AreKnown, VerdictAt, CourseAt, IsFoundOver, IsFoundIn, PivotsOver, IsStratumStep, IsStratumAnswer};
ghost use Rattle.simplex.specs.Ties.{AreTies};
ghost use Rattle.simplex.specs.declared.stop.SearchStop.TheVariants as stop;

use crate::answering::limit_of;
use crate::corner::line_choosing;
use crate::differences::{Bond, StrataQuestion, bond_of};
use crate::goals::case_number;
use crate::spots::{Spots, no_spots, relation_of, relations_of, unit_lists, with_spot};
use crate::{Endings, SearchStop};
use farkas_check::{
    Answer, Change, Limit, Ratio, Relation, Spot, Stratum, Tie, canonical_stratum, entry,
    positivity, stratum_columns, stratum_outcome, truth_of_passing,
};
use items::Items;
use linear_terms::{Mono, Poly};
use std::alloc::{AllocError, Global};
use whole_numbers::Wide;

/// Spots, and the relations of the unknowns before `next` that no spot refutes, each tied in all
/// cases. There were `start` spots when the unknowns began to have their turns.
#[derive(Drop)]
pub(crate) struct KnownRelations {
    pub(crate) next: usize,
    pub(crate) start: usize,
    pub(crate) relations: Items<Relation>,
    pub(crate) spots: Spots,
}

/// What a relation's test in all cases comes to: it is tied in each, or its difference is not 0 at
/// a point of one.
#[derive(Drop)]
pub(crate) enum RelationVerdict {
    Tied(Items<Tie>),
    Apart(usize, Items<Ratio>),
    Pivots,
}

/// What a turn leads to.
#[derive(Drop)]
pub(crate) enum Course {
    On(KnownRelations),
    End(Answer),
}

/// Answers which relations between the terms and the lower terms are true at each point of each
/// case: the reduced basis, with what ties each of its relations to 0 in each case, and spots that
/// show that there are no others. The answer passes the test of its question; it is `Pivots` only
/// where a case has no points, or more choices of columns than turns, and names a product or sum
/// that leaves 128 bits only where the question is not calm.
pub fn stratum(alloc: Global, asked: &Stratum) -> Result<Answer, AllocError>
    ensures passes { IfOk result (λ a. Passes (question.Stratum asked.now) a) }
    ensures tight { IfOk result (λ a. (IsLimit a → ⊥) → IsTight (question.Stratum asked.now) a) }
    ensures wide { IsCalm (question.Stratum asked.now) → IfOk result (λ a. IsWide a → ⊥) }
    ensures pivots { IfOk result (λ a. PivotsOver (2 ^ 127 - 1) asked.now a) }
    ensures calm { IsLiveAndCalm (question.Stratum asked.now) → IfOk result (λ a. IsLimit a → ⊥) }
    ensures step { IfOk result (NamesStep (IsStratumStep asked.now)) }
{
    truth_of_passing();
    let found = answer_of_strata(alloc, asked)?;
    Ok(found)
}

fn answer_of_strata(alloc: Global, asked: &Stratum) -> Result<Answer, AllocError>
    ensures { IfOk result (λ a. IsStratumAnswer asked.now a) }
{
    canonical_stratum(asked);
    match searched_strata(alloc, asked, i128::MAX as u128) {
        Ok(found) => Ok(tested_basis(asked, found)),
        Err(SearchStop::Wide(step)) => Ok(step_of_strata(asked, &step)),
        Err(SearchStop::Memory) => Err(AllocError),
    }
}

/// The answer where a step of the search leaves 128 bits.
fn step_of_strata(asked: &Stratum, step: &Wide) -> Answer
    requires canonical { IsCanonicalStratum asked.now.cases asked.now.lower }
    requires step { IsRefusalOver asked.now (stop.Wide step.now) }
    ensures { IsStratumAnswer asked.now result }
{
    let _asked = asked;
    limit_of(step)
}

/// The answer where it passes its test, and else the first step of the test that leaves 128 bits.
fn tested_basis(asked: &Stratum, found: Answer) -> Answer
    requires canonical { IsCanonicalStratum asked.now.cases asked.now.lower }
    requires found { IsFoundOver (stratum_columns asked.now.cases asked.now.lower) (2 ^ 127 - 1)
        asked.now.cases asked.now.lower found }
    requires small { IsSmallWhereCalm asked.now found }
    ensures { IsStratumAnswer asked.now result }
{
    positivity(&found);
    row_counts(asked.cases());
    match stratum_outcome(asked, &found) {
        Ok(_holds) => found,
        Err(step) => limit_of(&step),
    }
}

/// Goes over cases. Afterwards it is known that none has more rows than memory holds.
fn row_counts(cases: &[Change])
    ensures { All HasFewRows cases.now }
{
    for case in cases {
        row_count(case);
    }
}

fn row_count(case: &Change)
    ensures { HasFewRows case.now }
{
    let _count = case.rows.as_slice().len();
}

fn searched_strata(alloc: Global, asked: &Stratum, budget: u128) -> Result<Answer, SearchStop>
    requires turns { 2 ^ 124 ≤ budget }
    requires canonical { IsCanonicalStratum asked.now.cases asked.now.lower }
    ensures found { IfOk result
        (λ a. IsFoundOver (stratum_columns asked.now.cases asked.now.lower) budget asked.now.cases
        asked.now.lower a) }
    ensures small { IfOk result (IsSmallWhereCalm asked.now) }
    ensures refusal { IfErr result IsRefusal }
    ensures calm { IsCalm (question.Stratum asked.now) → IfErr result IsMemory }
    ensures step { IfErr result
        (StopsBy (IsSearchStep (stratum_columns asked.now.cases asked.now.lower) asked.now.cases
        asked.now.lower)) }
{
    let columns = stratum_columns(alloc, asked)?;
    let cases = asked.cases();
    match cases {
        [case, ..] => {
            let terms = case.terms.as_slice();
            basis_over(
                alloc,
                columns.as_slice(),
                cases,
                terms,
                asked.lower(),
                budget,
            )
        }
        [] => basis_over(alloc, columns.as_slice(), cases, &[], asked.lower(), budget),
    }
}

/// The basis of a question whose first case has these terms.
fn basis_over(
    alloc: Global,
    columns: &[Mono],
    cases: &[Change],
    terms: &[Poly],
    lower: &[Poly],
    budget: u128,
) -> Result<Answer, SearchStop>
    requires turns { 2 ^ 124 ≤ budget }
    requires columns { columns.now ≡ stratum_columns cases.now lower.now }
    requires canonical { IsCanonicalStratum cases.now lower.now }
    requires even { IsTrue (have_equally_many cases.now) }
    requires terms { length terms.now ≡ term_count cases.now }
    ensures found { IfOk result (IsFoundOver columns.now budget cases.now lower.now) }
    ensures small { IfOk result (IsSmallOver columns.now cases.now lower.now) }
    ensures refusal { IfErr result IsRefusal }
    ensures calm { length cases.now ≤ 4294967296 → IsCalmStratum columns.now cases.now lower.now
        → IfErr result IsMemory }
    ensures step { IfErr result (StopsBy (IsSearchStep columns.now cases.now lower.now)) }
{
    let strata = StrataQuestion {
        cases,
        lower,
        columns,
        terms: terms.len(),
        count: terms.len() + lower.len() + 1,
        budget,
    };
    basis_of(alloc, &strata)
}

/// The basis that the search comes to. There are no more spots than unknowns, and the unknowns have
/// their turns anew only after a spot more, so the search ends before its turns are used up.
fn basis_of(alloc: Global, strata: &StrataQuestion<'_>) -> Result<Answer, SearchStop>
    requires count { strata.now.count ≡ strata.now.terms + length strata.now.lower.now + 1 }
    requires few { strata.now.count < 2 ^ 61 }
    requires turns { 2 ^ 124 ≤ strata.now.budget }
    requires asked { IsAsked strata.now }
    ensures found { IfOk result (IsFoundIn strata.now) }
    ensures small { IfOk result (IsSmallIn strata.now) }
    ensures refusal { IfErr result (IsRefusalOf strata.now) }
{
    let mut known = KnownRelations {
        next: 0,
        start: 0,
        relations: Items::new(alloc),
        spots: no_spots(alloc),
    };
    let mut endings = Endings::new(alloc);
    for _turn in 0..strata.budget {
        match course_of(alloc, strata, known, &mut endings)? {
            Course::On(more) => known = more,
            Course::End(answer) => return Ok(answer),
        }
    }
    unreachable!()
}

/// The basis of the relations that are known.
fn basis_with(
    alloc: Global,
    strata: &StrataQuestion<'_>,
    known: KnownRelations,
) -> Result<Answer, SearchStop>
    requires asked { IsAsked strata.now }
    requires count { strata.now.count ≡ strata.now.terms + length strata.now.lower.now + 1 }
    requires few { strata.now.count < 2 ^ 61 }
    requires all { AreRelations strata.now.count known.spots.tableau strata.now.count
        (map numbers_of known.relations) }
    requires known { AreKnown strata.now known }
    ensures found { IfOk result (IsFoundIn strata.now) }
    ensures small { IfOk result (IsSmallIn strata.now) }
    ensures refusal { IfErr result (IsRefusalOf strata.now) }
{
    let free = unit_lists(alloc, strata.count, &known.spots)?;
    let KnownRelations {
        next: _,
        start: _,
        relations,
        spots,
    } = known;
    Ok(Answer::Basis {
        relations,
        spots: spots.spots,
        free,
    })
}

/// What the next unknown leads to, or the end where all have had their turn.
fn course_of(
    alloc: Global,
    strata: &StrataQuestion<'_>,
    known: KnownRelations,
    endings: &mut Endings,
) -> Result<Course, SearchStop>
    requires count { strata.now.count ≡ strata.now.terms + length strata.now.lower.now + 1 }
    requires few { strata.now.count < 2 ^ 61 }
    requires asked { IsAsked strata.now }
    requires known { AreKnown strata.now known }
    ensures course { IfOk result (CourseAt strata.now known) }
    ensures small { IfOk result (HasSmallEnd strata.now) }
    ensures refusal { IfErr result (IsRefusalOf strata.now) }
{
    if strata.count <= known.next {
        return end_of(alloc, strata, known);
    }
    match line_choosing(known.spots.tableau.chosen.as_slice(), known.next) {
        Some(_line) => Ok(Course::On(with_next(known))),
        None => tested_unknown(alloc, strata, known, endings),
    }
}

/// What the test of the next unknown's relation leads to.
fn tested_unknown(
    alloc: Global,
    strata: &StrataQuestion<'_>,
    known: KnownRelations,
    endings: &mut Endings,
) -> Result<Course, SearchStop>
    requires count { strata.now.count ≡ strata.now.terms + length strata.now.lower.now + 1 }
    requires few { strata.now.count < 2 ^ 61 }
    requires asked { IsAsked strata.now }
    requires known { AreKnown strata.now known }
    requires next { known.next < strata.now.count }
    requires free { IsUnchosen known.spots.tableau known.next }
    ensures course { IfOk result (CourseAt strata.now known) }
    ensures small { IfOk result (HasSmallEnd strata.now) }
    ensures refusal { IfErr result (IsRefusalOf strata.now) }
{
    let numbers = relation_of(alloc, strata.count, &known.spots, known.next)?;
    let line = numbers.as_slice();
    let verdict = verdict_of(alloc, strata, line, endings)?;
    course_after(alloc, strata, known, line, verdict)
}

/// What a verdict on the next unknown's relation leads to.
fn course_after(
    alloc: Global,
    strata: &StrataQuestion<'_>,
    known: KnownRelations,
    numbers: &[i128],
    verdict: RelationVerdict,
) -> Result<Course, SearchStop>
    requires count { strata.now.count ≡ strata.now.terms + length strata.now.lower.now + 1 }
    requires few { strata.now.count < 2 ^ 61 }
    requires asked { IsAsked strata.now }
    requires known { AreKnown strata.now known }
    requires next { known.next < strata.now.count }
    requires free { IsUnchosen known.spots.tableau known.next }
    requires numbers { length numbers.now ≡ strata.now.count }
    requires relation { IsRelationOf strata.now.count known.spots.tableau known.next numbers.now }
    requires verdict { VerdictAt strata.now numbers.now verdict }
    requires small { HasSmallVerdict strata.now verdict }
    ensures course { IfOk result (CourseAt strata.now known) }
    ensures small { IfOk result (HasSmallEnd strata.now) }
    ensures refusal { IfErr result (IsRefusalOf strata.now) }
{
    match verdict {
        RelationVerdict::Tied(ties) => Ok(relation_added(alloc, strata, known, numbers, ties)?),
        RelationVerdict::Apart(place, at) => spot_added(alloc, strata, known, place, at),
        RelationVerdict::Pivots => Ok(Course::End(Answer::Limit(Limit::Pivots))),
    }
}

/// The next unknown's relation more, which is tied in all cases.
fn relation_added(
    alloc: Global,
    strata: &StrataQuestion<'_>,
    known: KnownRelations,
    numbers: &[i128],
    ties: Items<Tie>,
) -> Result<Course, AllocError>
    requires count { strata.now.count ≡ strata.now.terms + length strata.now.lower.now + 1 }
    requires few { strata.now.count < 2 ^ 61 }
    requires known { AreKnown strata.now known }
    requires next { known.next < strata.now.count }
    requires free { IsUnchosen known.spots.tableau known.next }
    requires numbers { length numbers.now ≡ strata.now.count }
    requires relation { IsRelationOf strata.now.count known.spots.tableau known.next numbers.now }
    requires tied { AreTies strata.now.columns.now strata.now.lower.now numbers.now
        strata.now.cases.now (length strata.now.cases.now) ties }
    requires small { HasSmallTies strata.now ties }
    ensures course { IfOk result (CourseAt strata.now known) }
    ensures small { IfOk result (HasSmallEnd strata.now) }
{
    let relation = relation_with(alloc, strata, numbers, ties)?;
    let more = with_relation(known, relation)?;
    Ok(Course::On(more))
}

/// The basis, where the relations are those of all spots; else the unknowns have their turns once
/// more.
fn end_of(
    alloc: Global,
    strata: &StrataQuestion<'_>,
    known: KnownRelations,
) -> Result<Course, SearchStop>
    requires next { strata.now.count ≤ known.next }
    requires asked { IsAsked strata.now }
    requires count { strata.now.count ≡ strata.now.terms + length strata.now.lower.now + 1 }
    requires few { strata.now.count < 2 ^ 61 }
    requires known { AreKnown strata.now known }
    ensures course { IfOk result (CourseAt strata.now known) }
    ensures small { IfOk result (HasSmallEnd strata.now) }
    ensures refusal { IfErr result (IsRefusalOf strata.now) }
{
    if is_settled(alloc, strata, &known)? {
        let answer = basis_with(alloc, strata, known)?;
        return Ok(Course::End(answer));
    }
    let start = known.spots.lines.len();
    Ok(Course::On(KnownRelations {
        next: 0,
        start,
        relations: Items::new(alloc),
        spots: known.spots,
    }))
}

/// Whether the relations are those of all spots. They are where no spot came while the unknowns had
/// their turns.
fn is_settled(
    alloc: Global,
    strata: &StrataQuestion<'_>,
    known: &KnownRelations,
) -> Result<bool, SearchStop>
    requires asked { IsAsked strata.now }
    requires count { strata.now.count ≡ strata.now.terms + length strata.now.lower.now + 1 }
    requires known { AreKnown strata.now known.now }
    requires next { strata.now.count ≤ known.now.next }
    ensures all { IfOk result (λ settled. IsTrue settled
        → AreRelations strata.now.count known.now.spots.tableau strata.now.count
        (map numbers_of known.now.relations)) }
    ensures more { IfOk result (λ settled. settled ≡ false
        → known.now.start ≡ length known.now.spots.lines → ⊥) }
    ensures refusal { IfErr result (IsRefusalOf strata.now) }
{
    if known.start == known.spots.lines.len() {
        return Ok(true);
    }
    has_last_relations(alloc, strata.count, known)
}

/// Whether the relations are those of all spots.
fn has_last_relations(
    alloc: Global,
    count: usize,
    known: &KnownRelations,
) -> Result<bool, SearchStop>
    requires known { AreSpots count known.now.spots }
    ensures all { IfOk result (λ same. IsTrue same
        → AreRelations count known.now.spots.tableau count (map numbers_of known.now.relations)) }
    ensures refusal { IfErr result (IsRefusalUnder count known.now.spots.lines) }
    ensures step { IfErr result (StopsBy (IsLinesStep count known.now.spots.lines)) }
{
    let last = relations_of(alloc, count, &known.spots)?;
    let own = number_lists(alloc, known.relations.as_slice())?;
    Ok(own == last)
}

/// The numbers of relations.
fn number_lists(alloc: Global, relations: &[Relation]) -> Result<Items<Items<i128>>, AllocError>
    ensures { IfOk result (λ made. made ≡ map numbers_of relations.now) }
{
    let mut made = Items::new(alloc);
    for relation in relations {
        made.push(numbers_of(alloc, relation)?)?;
    }
    Ok(made)
}

/// The numbers of a relation.
fn numbers_of(alloc: Global, relation: &Relation) -> Result<Items<i128>, AllocError>
    ensures { IfOk result (λ made. made ≡ numbers_of relation.now) }
{
    let first = Items::from_slice(alloc, relation.a.as_slice())?;
    let mut made = joined_numbers(first, relation.b.as_slice())?;
    made.push(relation.c)?;
    Ok(made)
}

/// Numbers, and others behind them.
fn joined_numbers(first: Items<i128>, others: &[i128]) -> Result<Items<i128>, AllocError>
    ensures { IfOk result (λ made. made ≡ first ++ others.now) }
{
    let mut made = first;
    for number in others {
        made.push(*number)?;
    }
    Ok(made)
}

fn with_next(known: KnownRelations) -> KnownRelations
    requires { known.next < 2 ^ 61 }
    ensures next { result.next ≡ known.next + 1 }
    ensures start { result.start ≡ known.start }
    ensures spots { result.spots ≡ known.spots }
    ensures relations { result.relations ≡ known.relations }
{
    let KnownRelations {
        next,
        start,
        relations,
        spots,
    } = known;
    KnownRelations {
        next: next + 1,
        start,
        relations,
        spots,
    }
}

fn with_relation(known: KnownRelations, relation: Relation) -> Result<KnownRelations, AllocError>
    requires { known.next < 2 ^ 61 }
    ensures next { IfOk result (λ made. made.next ≡ known.next + 1) }
    ensures start { IfOk result (λ made. made.start ≡ known.start) }
    ensures spots { IfOk result (λ made. made.spots ≡ known.spots) }
    ensures relations { IfOk result (λ made. made.relations ≡ known.relations ++ relation ∷ []) }
{
    let KnownRelations {
        next,
        start,
        mut relations,
        spots,
    } = known;
    relations.push(relation)?;
    Ok(KnownRelations {
        next: next + 1,
        start,
        relations,
        spots,
    })
}

/// A spot more, a point of the case at a place.
fn spot_added(
    alloc: Global,
    strata: &StrataQuestion<'_>,
    known: KnownRelations,
    place: usize,
    at: Items<Ratio>,
) -> Result<Course, SearchStop>
    requires few { strata.now.count < 2 ^ 61 }
    requires count { strata.now.count ≡ strata.now.terms + length strata.now.lower.now + 1 }
    requires asked { IsAsked strata.now }
    requires known { AreKnown strata.now known }
    requires next { known.next < strata.now.count }
    requires free { IsUnchosen known.spots.tableau known.next }
    requires point { IsPointAt strata.now.columns.now strata.now.cases.now place at }
    requires apart { IsNewPoint strata.now.columns.now at (terms_of strata.now.cases.now place)
        strata.now.lower.now strata.now.count known.spots.lines }
    ensures course { IfOk result (CourseAt strata.now known) }
    ensures small { IfOk result (HasSmallEnd strata.now) }
    ensures refusal { IfErr result (IsRefusalOf strata.now) }
{
    let case = case_number(place)?;
    let KnownRelations {
        next,
        start,
        relations,
        spots,
    } = known;
    let terms = strata.cases[place].terms.as_slice();
    let spots = with_spot(alloc, strata, spots, terms, Spot { case, at })?;
    Ok(Course::On(KnownRelations {
        next,
        start,
        relations,
        spots,
    }))
}

/// Tests a relation case by case.
fn verdict_of(
    alloc: Global,
    strata: &StrataQuestion<'_>,
    numbers: &[i128],
    endings: &mut Endings,
) -> Result<RelationVerdict, SearchStop>
    requires asked { IsAsked strata.now }
    requires count { strata.now.count ≡ strata.now.terms + length strata.now.lower.now + 1 }
    requires numbers { length numbers.now ≡ strata.now.count }
    requires few { strata.now.count < 2 ^ 61 }
    requires calm { IsCalmRelation strata.now numbers.now }
    requires candidate { IsCandidate strata.now.columns.now strata.now.cases.now
        strata.now.lower.now numbers.now }
    ensures verdict { IfOk result (VerdictAt strata.now numbers.now) }
    ensures small { IfOk result (HasSmallVerdict strata.now) }
    ensures refusal { IfErr result (IsRefusalOf strata.now) }
{
    let mut ties = Items::new(alloc);
    for place in 0..strata.cases.len() {
        match bond_of(alloc, strata, &strata.cases[place], numbers, endings, place)? {
            Bond::Tied(tie) => ties.push(tie)?,
            Bond::Apart(at) => return Ok(RelationVerdict::Apart(place, at)),
            Bond::Pivots => return Ok(RelationVerdict::Pivots),
        }
    }
    Ok(RelationVerdict::Tied(ties))
}

/// The relation of numbers: first those of the terms, then those of the lower terms, and last that
/// of 1.
fn relation_with(
    alloc: Global,
    strata: &StrataQuestion<'_>,
    numbers: &[i128],
    ties: Items<Tie>,
) -> Result<Relation, AllocError>
    requires { length numbers.now ≡ strata.now.terms + length strata.now.lower.now + 1 }
    ensures { IfOk result
        (λ made. IsRelationWith strata.now.terms (length strata.now.lower.now) numbers.now ties
        made) }
{
    let (first, rest) = numbers.split_at(strata.terms);
    let (second, _last) = rest.split_at(strata.lower.len());
    let a = Items::from_slice(alloc, first)?;
    let b = Items::from_slice(alloc, second)?;
    Ok(Relation {
        a,
        b,
        c: entry(numbers, strata.terms + strata.lower.len()),
        ties,
    })
}
