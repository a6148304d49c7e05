ghost use Rattle.std.specs.Prelude.{◌≡◌, IfOk};

use items::Boxed;
use std::alloc::{AllocError, Global};

/// A path expression: a regular expression over the numbers of a graph's links.
#[derive(PartialEq, Eq, Drop)]
pub enum Path {
    /// No path.
    Zero,
    /// The empty path alone.
    One,
    /// One link.
    Edge(u32),
    /// One path and then another.
    Seq(Boxed<Path>, Boxed<Path>),
    /// Either of two paths.
    Join(Boxed<Path>, Boxed<Path>),
    /// Any number of turns of one path.
    Star(Boxed<Path>),
}

impl Path {
    /// A copy of the whole expression.
    pub fn copy(&self, alloc: Global) -> Result<Path, AllocError>
        ensures { IfOk result (λ c. c ≡ self.now) }
    {
        match self {
            Path::Zero => Ok(Path::Zero),
            Path::One => Ok(Path::One),
            Path::Edge(number) => Ok(Path::Edge(*number)),
            Path::Seq(first, second) => {
                let first = first.copy(alloc)?;
                let second = second.copy(alloc)?;
                sequence(alloc, first, second)
            }
            Path::Join(left, right) => {
                let left = left.copy(alloc)?;
                let right = right.copy(alloc)?;
                either(alloc, left, right)
            }
            Path::Star(turn) => {
                let turn = turn.copy(alloc)?;
                turns(alloc, turn)
            }
        }
    }
}

/// The first path and then the second.
pub(crate) fn sequence(alloc: Global, first: Path, second: Path) -> Result<Path, AllocError>
    ensures { IfOk result (λ path. path ≡ Path.Seq first second) }
{
    let first = Boxed::new(alloc, first)?;
    let second = Boxed::new(alloc, second)?;
    Ok(Path::Seq(first, second))
}

/// Either of two paths.
pub(crate) fn either(alloc: Global, left: Path, right: Path) -> Result<Path, AllocError>
    ensures { IfOk result (λ path. path ≡ Path.Join left right) }
{
    let left = Boxed::new(alloc, left)?;
    let right = Boxed::new(alloc, right)?;
    Ok(Path::Join(left, right))
}

/// Any number of turns of a path.
pub(crate) fn turns(alloc: Global, turn: Path) -> Result<Path, AllocError>
    ensures { IfOk result (λ path. path ≡ Path.Star turn) }
{
    let turn = Boxed::new(alloc, turn)?;
    Ok(Path::Star(turn))
}
