ghost use Rattle.std.specs.Prelude.{◌≡◌, IfOk};

use crate::name::Name;
use crate::op::{Op, Sign};
use items::{Boxed, Items};
use std::alloc::{AllocError, Global};

/// An expression of a text. Each part has its place, a byte offset: that of its first token.
#[derive(PartialEq, Eq, Drop)]
pub enum Expr {
    Lit(u32, i128),
    Var(u32, Name),
    Call(u32, Name, Items<Expr>),
    Unary(u32, Sign, Boxed<Expr>),
    Binary(u32, Op, Boxed<Expr>, Boxed<Expr>),
}

impl Expr {
    /// A copy of the expression.
    #[cycle(copy)]
    pub fn copy(&self, alloc: Global) -> Result<Expr, AllocError>
        ensures { IfOk result (λ c. c ≡ self.now) }
    {
        match self {
            Expr::Lit(at, value) => Ok(Expr::Lit(*at, *value)),
            Expr::Var(at, name) => copy_var(*at, name),
            Expr::Call(at, name, args) => {
                let args = copy_exprs(alloc, args)?;
                copy_call(*at, name, args)
            }
            Expr::Unary(at, sign, inner) => {
                let inner = inner.copy(alloc)?;
                unary(alloc, *at, *sign, inner)
            }
            Expr::Binary(at, op, left, right) => {
                let left = left.copy(alloc)?;
                let right = right.copy(alloc)?;
                binary(alloc, *at, *op, left, right)
            }
        }
    }
}

fn copy_var(at: u32, name: &Name) -> Result<Expr, AllocError>
    ensures { IfOk result (λ c. c ≡ Expr.Var at name.now) }
{
    Ok(Expr::Var(at, name.clone()?))
}

fn copy_call(at: u32, name: &Name, args: Items<Expr>) -> Result<Expr, AllocError>
    ensures { IfOk result (λ c. c ≡ Expr.Call at name.now args) }
{
    let name = name.clone()?;
    Ok(Expr::Call(at, name, args))
}

fn unary(alloc: Global, at: u32, sign: Sign, inner: Expr) -> Result<Expr, AllocError>
    ensures { IfOk result (λ c. c ≡ Expr.Unary at sign inner) }
{
    let inner = Boxed::new(alloc, inner)?;
    Ok(Expr::Unary(at, sign, inner))
}

fn binary(alloc: Global, at: u32, op: Op, left: Expr, right: Expr) -> Result<Expr, AllocError>
    ensures { IfOk result (λ c. c ≡ Expr.Binary at op left right) }
{
    let left = Boxed::new(alloc, left)?;
    let right = Boxed::new(alloc, right)?;
    Ok(Expr::Binary(at, op, left, right))
}

/// A copy of a list of expressions.
#[cycle(copy)]
pub fn copy_exprs(alloc: Global, exprs: &Items<Expr>) -> Result<Items<Expr>, AllocError>
    ensures { IfOk result (λ c. c ≡ exprs.now) }
{
    let mut copies = Items::new(alloc);
    for part in exprs.as_slice() {
        copies.push(part.copy(alloc)?)?;
    }
    Ok(copies)
}
