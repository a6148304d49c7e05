ghost use Rattle.std.specs.Prelude.{◌≡◌, ◌^◌};
ghost use Rattle.elimination.specs.Spaces.{IsUpTo, IsSome, IsProper, Extends};
ghost use Rattle.elimination.specs.declared.spaces.Space.TheVariants.{Origin, Line, Plane};

use crate::vectors::Vector;

/// What rows of at most three numbers span: 0 alone, the multiples of a vector, all that is
/// orthogonal to one, or all.
#[derive(Clone, Copy)]
pub(crate) enum Space {
    Origin,
    Line(Vector),
    Plane(Vector),
    Whole,
}

impl Space {
    /// What this and one more vector span.
    pub(crate) fn with(&self, v: &Vector) -> Space
        requires proper { IsProper self.now }
        requires small { IsUpTo (2 ^ 18) v.now }
        ensures { Extends self.now v.now result }
    {
        match self {
            Space::Origin => origin_with(v),
            Space::Line(p) => line_with(p, v),
            Space::Plane(n) => plane_with(n, v),
            Space::Whole => Space::Whole,
        }
    }
}

/// What 0 and a vector span.
fn origin_with(v: &Vector) -> Space
    requires { IsUpTo (2 ^ 18) v.now }
    ensures { Extends Origin v.now result }
{
    if v.is_zero() {
        return Space::Origin;
    }
    Space::Line(*v)
}

/// What the multiples of a vector and one more vector span.
fn line_with(p: &Vector, v: &Vector) -> Space
    requires proper { IsSome (2 ^ 18) p.now }
    requires small { IsUpTo (2 ^ 18) v.now }
    ensures { Extends (Line p.now) v.now result }
{
    let n = p.cross(v);
    if n.is_zero() {
        return Space::Line(*p);
    }
    Space::Plane(n)
}

/// What the vectors that are orthogonal to one, and one more vector, span.
fn plane_with(n: &Vector, v: &Vector) -> Space
    requires proper { IsSome (2 ^ 37) n.now }
    requires small { IsUpTo (2 ^ 18) v.now }
    ensures { Extends (Plane n.now) v.now result }
{
    if n.dot(v) == 0 {
        return Space::Plane(*n);
    }
    Space::Whole
}
