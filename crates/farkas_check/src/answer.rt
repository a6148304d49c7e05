ghost use Rattle.std.specs.Prelude.{◌≡◌, ◌↔◌, IsTrue, IfOk};
ghost use Rattle.farkas_check.specs.declared.answer.Answer.TheVariants.{Bound, Unbounded, Basis};

use crate::{Ratio, Relation, Spot};
use items::Items;
use std::alloc::AllocError;

/// Multipliers for the rows of a case, whose sum is `scale` times the objective less `sum`.
#[derive(Debug, PartialEq, Eq, Hash, Drop)]
pub struct Cert {
    pub scale: i128,
    pub sum: i128,
    pub by: Items<i128>,
}

/// Why a question has no other answer.
#[derive(Clone, Copy, Debug, PartialEq, Eq, Hash)]
pub enum Limit {
    /// The product, where `times` holds, or else the sum of these two numbers is no number of 128
    /// bits.
    Wide {
        left: i128,
        right: i128,
        times: bool,
    },
    /// The search has no further step.
    Pivots,
}

/// An answer, with what shows that it is true. Points and rays have one number for each column of
/// their case, in print order.
#[derive(Debug, PartialEq, Eq, Hash, Drop)]
pub enum Answer {
    /// No point makes the rows true: one multiplier for each row.
    Yes(Items<i128>),
    /// This point makes the rows true.
    No(Items<Ratio>),
    /// The greatest whole number that is not above the supremum: a certificate for each case, and a
    /// point of the case at that place, which reaches it.
    Bound {
        at: i128,
        certs: Items<Cert>,
        case: u32,
        point: Items<Ratio>,
    },
    /// There is no supremum: a point of a case, and a ray along which the objective grows.
    Unbounded {
        case: u32,
        point: Items<Ratio>,
        ray: Items<Ratio>,
    },
    /// The reduced basis of all relations, each tied to 0 in each case. For each unknown that is no
    /// pivot there is one number for each spot; that sum of the spots' differences is 1 there, and
    /// 0 at the others.
    Basis {
        relations: Items<Relation>,
        spots: Items<Spot>,
        free: Items<Items<Ratio>>,
    },
    Limit(Limit),
}

impl Answer {
    /// Whether two answers are equal.
    pub fn same(&self, other: &Answer) -> bool
        ensures { IsTrue result ↔ (self.now ≡ other.now) }
    {
        self == other
    }
}

impl Clone for Cert {
    ghost is_clone = { λ a b. b ≡ a };

    fn clone(&self) -> Result<Cert, AllocError> {
        let by = self.by.clone()?;
        Ok(Cert {
            scale: self.scale,
            sum: self.sum,
            by,
        })
    }
}

impl Clone for Answer {
    ghost use Rattle.farkas_check.specs.Meaning.{IsLimit};

    ghost is_clone = { λ a b. b ≡ a };

    /// A limit is copied without memory.
    fn clone(&self) -> Result<Answer, AllocError>
        ensures copy { IfOk result (λ copy. copy ≡ self.now) }
        ensures limit { IsLimit self.now → result ≡ Ok self.now }
    {
        match self {
            Answer::Yes(by) => Ok(Answer::Yes(by.clone()?)),
            Answer::No(point) => Ok(Answer::No(point.clone()?)),
            Answer::Bound {
                at,
                certs,
                case,
                point,
            } => bound_copy(at, certs, case, point),
            Answer::Unbounded { case, point, ray } => unbounded_copy(case, point, ray),
            Answer::Basis {
                relations,
                spots,
                free,
            } => basis_copy(relations, spots, free),
            Answer::Limit(limit) => Ok(Answer::Limit(*limit)),
        }
    }
}

fn bound_copy(
    at: &i128,
    certs: &Items<Cert>,
    case: &u32,
    point: &Items<Ratio>,
) -> Result<Answer, AllocError>
    ensures { IfOk result (λ copy. copy ≡ Bound at.now certs.now case.now point.now) }
{
    let certs = certs.clone()?;
    let point = point.clone()?;
    Ok(Answer::Bound {
        at: *at,
        certs,
        case: *case,
        point,
    })
}

fn unbounded_copy(
    case: &u32,
    point: &Items<Ratio>,
    ray: &Items<Ratio>,
) -> Result<Answer, AllocError>
    ensures { IfOk result (λ copy. copy ≡ Unbounded case.now point.now ray.now) }
{
    let point = point.clone()?;
    let ray = ray.clone()?;
    Ok(Answer::Unbounded {
        case: *case,
        point,
        ray,
    })
}

fn basis_copy(
    relations: &Items<Relation>,
    spots: &Items<Spot>,
    free: &Items<Items<Ratio>>,
) -> Result<Answer, AllocError>
    ensures { IfOk result (λ copy. copy ≡ Basis relations.now spots.now free.now) }
{
    let relations = relations.clone()?;
    let spots = spots.clone()?;
    let free = free.clone()?;
    Ok(Answer::Basis {
        relations,
        spots,
        free,
    })
}
