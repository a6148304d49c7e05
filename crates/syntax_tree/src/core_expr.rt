ghost use Rattle.std.specs.Prelude.{◌≡◌, IfOk};

use crate::op::{Op, Sign};
use items::{Boxed, Items};
use std::alloc::{AllocError, Global};

/// An expression of the core program. It has no calls: its operands are columns of the state.
#[derive(PartialEq, Eq, Drop)]
pub enum Core {
    Lit(i128),
    Col(u32),
    Unary(Sign, Boxed<Core>),
    Binary(Op, Boxed<Core>, Boxed<Core>),
}

impl Core {
    /// A copy of the expression.
    pub fn copy(&self, alloc: Global) -> Result<Core, AllocError>
        ensures { IfOk result (λ c. c ≡ self.now) }
    {
        match self {
            Core::Lit(value) => Ok(Core::Lit(*value)),
            Core::Col(col) => Ok(Core::Col(*col)),
            Core::Unary(sign, inner) => {
                let inner = inner.copy(alloc)?;
                unary(alloc, *sign, inner)
            }
            Core::Binary(op, left, right) => {
                let left = left.copy(alloc)?;
                let right = right.copy(alloc)?;
                binary(alloc, *op, left, right)
            }
        }
    }
}

fn unary(alloc: Global, sign: Sign, inner: Core) -> Result<Core, AllocError>
    ensures { IfOk result (λ c. c ≡ Core.Unary sign inner) }
{
    let inner = Boxed::new(alloc, inner)?;
    Ok(Core::Unary(sign, inner))
}

fn binary(alloc: Global, op: Op, left: Core, right: Core) -> Result<Core, AllocError>
    ensures { IfOk result (λ c. c ≡ Core.Binary op left right) }
{
    let left = Boxed::new(alloc, left)?;
    let right = Boxed::new(alloc, right)?;
    Ok(Core::Binary(op, left, right))
}

/// A copy of a list of expressions.
pub fn copy_cores(alloc: Global, cores: &Items<Core>) -> Result<Items<Core>, AllocError>
    ensures { IfOk result (λ c. c ≡ cores.now) }
{
    let mut copies = Items::new(alloc);
    for part in cores.as_slice() {
        copies.push(part.copy(alloc)?)?;
    }
    Ok(copies)
}
