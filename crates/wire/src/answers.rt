ghost use Rattle.std.specs.Prelude.{◌≡◌, [], ◌∷◌, Ok, Some, IfOk, find};
ghost use Rattle.farkas_check.specs.declared.answer.Answer.TheVariants.{Basis, Bound, Unbounded};
ghost use Rattle.items.specs.Gives.{Gives};
ghost use Rattle.serde_json.specs.View.{view};
ghost use Rattle.wire.specs.Answers.{answer, basis, bound, has_kind, kind_key, kinds, limit, of_kind, of_sole, sole_kind, unbounded_answer, wide};
ghost use Rattle.wire.specs.Errors.{wrong_path};
ghost use Rattle.wire.specs.Written.{alone, basis_data, bound_data, limit_data, unbounded_data};
ghost use Rattle.farkas_check.specs.declared.answer.Limit.TheVariants.{Wide};

use crate::error::Wrong;
use crate::shape::{Shape, Written, field, member, put_part, under_key};
use farkas_check::{Answer, Cert, Limit, Ratio, Relation, Spot, Tie};
use items::Items;
use serde_json::{Map, Value, put};
use std::alloc::{AllocError, Global};

/// The kinds of answers, each by the key that it has in a file.
#[derive(Clone, Copy, PartialEq, Eq)]
pub(crate) enum AnswerKind {
    Infeasible,
    Point,
    Bound,
    Unbounded,
    Basis,
    Limit,
}

const KINDS: [AnswerKind; 6] = [
    AnswerKind::Infeasible,
    AnswerKind::Point,
    AnswerKind::Bound,
    AnswerKind::Unbounded,
    AnswerKind::Basis,
    AnswerKind::Limit,
];

impl AnswerKind {
    fn key(self) -> &'static str
        ensures { result.now ≡ kind_key self }
    {
        match self {
            AnswerKind::Infeasible => "infeasible",
            AnswerKind::Point => "point",
            AnswerKind::Bound => "bound",
            AnswerKind::Unbounded => "unbounded",
            AnswerKind::Basis => "basis",
            AnswerKind::Limit => "limit",
        }
    }
}

impl Shape for Cert {
    ghost use Rattle.wire.specs.Answers.{cert};

    ghost reads = { cert };

    fn read(alloc: Global, part: &Value) -> Result<Cert, Wrong> {
        let by = field(alloc, part, "by")?;
        let scale = field(alloc, part, "scale")?;
        let sum = field(alloc, part, "sum")?;
        Ok(Cert { scale, sum, by })
    }
}

impl Written for Cert {
    ghost use Rattle.wire.specs.Written.{cert_data};

    ghost writes = { cert_data };

    fn write(&self, alloc: Global) -> Result<Value, AllocError> {
        let mut members = Map::new(alloc);
        put_part(&mut members, alloc, "by", &self.by)?;
        put_part(&mut members, alloc, "scale", &self.scale)?;
        put_part(&mut members, alloc, "sum", &self.sum)?;
        Ok(Value::Object(members))
    }
}

impl Shape for Tie {
    ghost use Rattle.wire.specs.Answers.{tie};

    ghost reads = { tie };

    fn read(alloc: Global, part: &Value) -> Result<Tie, Wrong> {
        let down = field(alloc, part, "down")?;
        let down_scale = field(alloc, part, "down_scale")?;
        let up = field(alloc, part, "up")?;
        let up_scale = field(alloc, part, "up_scale")?;
        Ok(Tie {
            up_scale,
            up,
            down_scale,
            down,
        })
    }
}

impl Written for Tie {
    ghost use Rattle.wire.specs.Written.{tie_data};

    ghost writes = { tie_data };

    fn write(&self, alloc: Global) -> Result<Value, AllocError> {
        let mut members = Map::new(alloc);
        put_part(&mut members, alloc, "down", &self.down)?;
        put_part(&mut members, alloc, "down_scale", &self.down_scale)?;
        put_part(&mut members, alloc, "up", &self.up)?;
        put_part(&mut members, alloc, "up_scale", &self.up_scale)?;
        Ok(Value::Object(members))
    }
}

impl Shape for Relation {
    ghost use Rattle.wire.specs.Answers.{relation};

    ghost reads = { relation };

    fn read(alloc: Global, part: &Value) -> Result<Relation, Wrong> {
        let a = field(alloc, part, "a")?;
        let b = field(alloc, part, "b")?;
        let c = field(alloc, part, "c")?;
        let ties = field(alloc, part, "ties")?;
        Ok(Relation { a, b, c, ties })
    }
}

impl Written for Relation {
    ghost use Rattle.wire.specs.Written.{relation_data};

    ghost writes = { relation_data };

    fn write(&self, alloc: Global) -> Result<Value, AllocError> {
        let mut members = Map::new(alloc);
        put_part(&mut members, alloc, "a", &self.a)?;
        put_part(&mut members, alloc, "b", &self.b)?;
        put_part(&mut members, alloc, "c", &self.c)?;
        put_part(&mut members, alloc, "ties", &self.ties)?;
        Ok(Value::Object(members))
    }
}

impl Shape for Spot {
    ghost use Rattle.wire.specs.Answers.{spot};

    ghost reads = { spot };

    fn read(alloc: Global, part: &Value) -> Result<Spot, Wrong> {
        let at = field(alloc, part, "at")?;
        let case = field(alloc, part, "case")?;
        Ok(Spot { case, at })
    }
}

impl Written for Spot {
    ghost use Rattle.wire.specs.Written.{spot_data};

    ghost writes = { spot_data };

    fn write(&self, alloc: Global) -> Result<Value, AllocError> {
        let mut members = Map::new(alloc);
        put_part(&mut members, alloc, "at", &self.at)?;
        put_part(&mut members, alloc, "case", &self.case)?;
        Ok(Value::Object(members))
    }
}

fn wide_part(alloc: Global, left: &i128, right: &i128, times: &bool) -> Result<Value, AllocError>
    ensures written { IfOk result
        (λ part. view part ≡ limit_data (Wide left.now right.now times.now)) }
    ensures back { IfOk result
        (λ part. limit (view part) ≡ Ok (Wide left.now right.now times.now)) }
{
    let mut members = Map::new(alloc);
    put_part(&mut members, alloc, "left", left)?;
    put_part(&mut members, alloc, "right", right)?;
    put_part(&mut members, alloc, "times", times)?;
    Ok(Value::Object(members))
}

/// Two numbers whose product or sum leaves 128 bits.
fn wide(alloc: Global, part: &Value) -> Result<Limit, Wrong>
    ensures { Gives wrong_path (λ x. x) result (wide (view part.now)) }
{
    let left = field(alloc, part, "left")?;
    let right = field(alloc, part, "right")?;
    let times = field(alloc, part, "times")?;
    Ok(Limit::Wide { left, right, times })
}

impl Shape for Limit {
    ghost use Rattle.wire.specs.Answers.{limit};

    ghost reads = { limit };

    fn read(alloc: Global, part: &Value) -> Result<Limit, Wrong> {
        match part.as_str() {
            Some("pivots") => Ok(Limit::Pivots),
            _ => wide(alloc, part),
        }
    }
}

impl Written for Limit {
    ghost use Rattle.wire.specs.Written.{limit_data};

    ghost writes = { limit_data };

    fn write(&self, alloc: Global) -> Result<Value, AllocError> {
        match self {
            Limit::Wide { left, right, times } => wide_part(alloc, left, right, times),
            Limit::Pivots => Value::try_from_str(alloc, "pivots"),
        }
    }
}

fn bound(alloc: Global, part: &Value) -> Result<Answer, Wrong>
    ensures { Gives wrong_path (λ x. x) result (bound (view part.now)) }
{
    let at = field(alloc, part, "at")?;
    let case = field(alloc, part, "case")?;
    let certs = field(alloc, part, "certs")?;
    let point = field(alloc, part, "point")?;
    Ok(Answer::Bound {
        at,
        certs,
        case,
        point,
    })
}

fn unbounded_answer(alloc: Global, part: &Value) -> Result<Answer, Wrong>
    ensures { Gives wrong_path (λ x. x) result (unbounded_answer (view part.now)) }
{
    let case = field(alloc, part, "case")?;
    let point = field(alloc, part, "point")?;
    let ray = field(alloc, part, "ray")?;
    Ok(Answer::Unbounded { case, point, ray })
}

fn basis(alloc: Global, part: &Value) -> Result<Answer, Wrong>
    ensures { Gives wrong_path (λ x. x) result (basis (view part.now)) }
{
    let free = field(alloc, part, "free")?;
    let relations = field(alloc, part, "relations")?;
    let spots = field(alloc, part, "spots")?;
    Ok(Answer::Basis {
        relations,
        spots,
        free,
    })
}

/// An answer of a kind.
fn of_kind(alloc: Global, kind: AnswerKind, part: &Value) -> Result<Answer, Wrong>
    ensures { Gives wrong_path (λ x. x) result (of_kind kind (view part.now)) }
{
    match kind {
        AnswerKind::Infeasible => Ok(Answer::Yes(Items::read(alloc, part)?)),
        AnswerKind::Point => Ok(Answer::No(Items::read(alloc, part)?)),
        AnswerKind::Bound => bound(alloc, part),
        AnswerKind::Unbounded => unbounded_answer(alloc, part),
        AnswerKind::Basis => basis(alloc, part),
        AnswerKind::Limit => Ok(Answer::Limit(Limit::read(alloc, part)?)),
    }
}

fn has_kind(part: &Value, kind: AnswerKind) -> bool
    ensures { result ≡ has_kind (view part.now) kind }
{
    part.get(kind.key()).is_some()
}

/// The first of these kinds whose key an object has.
fn first_kind(part: &Value, among: &[AnswerKind]) -> Option<AnswerKind>
    ensures { result ≡ find (has_kind (view part.now)) among.now }
{
    among.iter().copied().find(|kind| has_kind(part, *kind))
}

/// Of these kinds the one whose key an object has; none where it has none of the keys or several.
fn sole_kind(part: &Value, among: &[AnswerKind]) -> Option<AnswerKind>
    ensures { result ≡ sole_kind among.now (view part.now) }
{
    if among.iter().filter(|kind| has_kind(part, **kind)).count() == 1 {
        first_kind(part, among)
    } else {
        None
    }
}

impl Shape for Answer {
    ghost use Rattle.wire.specs.Answers.{answer};

    ghost reads = { answer };

    fn read(alloc: Global, part: &Value) -> Result<Answer, Wrong> {
        match sole_kind(part, &KINDS) {
            Some(kind) => of_sole_kind(alloc, kind, part),
            None => Err(Wrong::At(Items::new(alloc))),
        }
    }
}

impl Written for Answer {
    ghost use Rattle.wire.specs.Written.{answer_data};

    ghost writes = { answer_data };

    fn write(&self, alloc: Global) -> Result<Value, AllocError> {
        match self {
            Answer::Yes(by) => alone(alloc, AnswerKind::Infeasible, by.write(alloc)?),
            Answer::No(point) => alone(alloc, AnswerKind::Point, point.write(alloc)?),
            Answer::Bound {
                at,
                certs,
                case,
                point,
            } => {
                alone(
                    alloc,
                    AnswerKind::Bound,
                    bound_part(alloc, at, certs, case, point)?,
                )
            }
            Answer::Unbounded { case, point, ray } => {
                alone(
                    alloc,
                    AnswerKind::Unbounded,
                    unbounded_part(alloc, case, point, ray)?,
                )
            }
            Answer::Basis {
                relations,
                spots,
                free,
            } => {
                alone(
                    alloc,
                    AnswerKind::Basis,
                    basis_part(alloc, relations, spots, free)?,
                )
            }
            Answer::Limit(limit) => alone(alloc, AnswerKind::Limit, limit.write(alloc)?),
        }
    }
}

fn of_sole_kind(alloc: Global, kind: AnswerKind, part: &Value) -> Result<Answer, Wrong>
    ensures { Gives wrong_path (λ x. x) result (of_sole (Some kind) (view part.now)) }
{
    let key = kind.key();
    let value = member(alloc, part, key)?;
    under_key(alloc, key, of_kind(alloc, kind, value))
}

/// An object of one member.
fn alone(alloc: Global, kind: AnswerKind, part: Value) -> Result<Value, AllocError>
    ensures { IfOk result (λ object. view object ≡ alone (kind_key kind) (view part)) }
{
    let mut members = Map::new(alloc);
    put(&mut members, alloc, kind.key(), part)?;
    Ok(Value::Object(members))
}

fn bound_part(
    alloc: Global,
    at: &i128,
    certs: &Items<Cert>,
    case: &u32,
    point: &Items<Ratio>,
) -> Result<Value, AllocError>
    ensures written { IfOk result
        (λ part. view part ≡ bound_data at.now certs.now case.now point.now) }
    ensures back { IfOk result
        (λ part. bound (view part) ≡ Ok (Bound at.now certs.now case.now point.now)) }
{
    let mut members = Map::new(alloc);
    put_part(&mut members, alloc, "at", at)?;
    put_part(&mut members, alloc, "case", case)?;
    put_part(&mut members, alloc, "certs", certs)?;
    put_part(&mut members, alloc, "point", point)?;
    Ok(Value::Object(members))
}

fn unbounded_part(
    alloc: Global,
    case: &u32,
    point: &Items<Ratio>,
    ray: &Items<Ratio>,
) -> Result<Value, AllocError>
    ensures written { IfOk result (λ part. view part ≡ unbounded_data case.now point.now ray.now) }
    ensures back { IfOk result
        (λ part. unbounded_answer (view part) ≡ Ok (Unbounded case.now point.now ray.now)) }
{
    let mut members = Map::new(alloc);
    put_part(&mut members, alloc, "case", case)?;
    put_part(&mut members, alloc, "point", point)?;
    put_part(&mut members, alloc, "ray", ray)?;
    Ok(Value::Object(members))
}

fn basis_part(
    alloc: Global,
    relations: &Items<Relation>,
    spots: &Items<Spot>,
    free: &Items<Items<Ratio>>,
) -> Result<Value, AllocError>
    ensures written { IfOk result
        (λ part. view part ≡ basis_data relations.now spots.now free.now) }
    ensures back { IfOk result
        (λ part. basis (view part) ≡ Ok (Basis relations.now spots.now free.now)) }
{
    let mut members = Map::new(alloc);
    put_part(&mut members, alloc, "free", free)?;
    put_part(&mut members, alloc, "relations", relations)?;
    put_part(&mut members, alloc, "spots", spots)?;
    Ok(Value::Object(members))
}
