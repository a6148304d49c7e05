ghost use Rattle.std.specs.Prelude.{◌≡◌, IfOk};

use crate::core_expr::{Core, copy_cores};
use items::Items;
use std::alloc::{AllocError, Global};

/// A statement of the core program.
#[derive(PartialEq, Eq, Drop)]
pub enum Stmt {
    Set {
        col: u32,
        value: Core,
    },
    Any {
        col: u32,
    },
    Call {
        proc: u32,
        args: Items<Core>,
        into: Option<u32>,
    },
    Guard {
        cond: Core,
    },
    Check {
        number: u32,
        cond: Core,
    },
    If {
        cond: Core,
        yes: Items<Stmt>,
        no: Items<Stmt>,
    },
    Loop {
        pre: Items<Stmt>,
        cond: Core,
        body: Items<Stmt>,
        step: Items<Stmt>,
        first: bool,
    },
    Break,
    Continue,
    Return,
}

impl Stmt {
    /// A copy of the statement.
    #[cycle(copy)]
    pub fn copy(&self, alloc: Global) -> Result<Stmt, AllocError>
        ensures { IfOk result (λ c. c ≡ self.now) }
    {
        match self {
            Stmt::Set { col, value } => copy_set(alloc, *col, value),
            Stmt::Any { col } => Ok(Stmt::Any { col: *col }),
            Stmt::Call { proc, args, into } => copy_call(alloc, *proc, args, *into),
            Stmt::Guard { cond } => copy_guard(alloc, cond),
            Stmt::Check { number, cond } => copy_check(alloc, *number, cond),
            Stmt::If { cond, yes, no } => {
                let yes = copy_stmts(alloc, yes)?;
                let no = copy_stmts(alloc, no)?;
                copy_if(alloc, cond, yes, no)
            }
            Stmt::Loop {
                pre,
                cond,
                body,
                step,
                first,
            } => {
                let pre = copy_stmts(alloc, pre)?;
                let body = copy_stmts(alloc, body)?;
                let step = copy_stmts(alloc, step)?;
                copy_loop(alloc, pre, cond, body, step, *first)
            }
            Stmt::Break => Ok(Stmt::Break),
            Stmt::Continue => Ok(Stmt::Continue),
            Stmt::Return => Ok(Stmt::Return),
        }
    }
}

fn copy_set(alloc: Global, col: u32, value: &Core) -> Result<Stmt, AllocError>
    ensures { IfOk result (λ c. c ≡ Stmt.Set col value.now) }
{
    let value = value.copy(alloc)?;
    Ok(Stmt::Set { col, value })
}

fn copy_call(
    alloc: Global,
    proc: u32,
    args: &Items<Core>,
    into: Option<u32>,
) -> Result<Stmt, AllocError>
    ensures { IfOk result (λ c. c ≡ Stmt.Call proc args.now into) }
{
    let args = copy_cores(alloc, args)?;
    Ok(Stmt::Call { proc, args, into })
}

fn copy_guard(alloc: Global, cond: &Core) -> Result<Stmt, AllocError>
    ensures { IfOk result (λ c. c ≡ Stmt.Guard cond.now) }
{
    let cond = cond.copy(alloc)?;
    Ok(Stmt::Guard { cond })
}

fn copy_check(alloc: Global, number: u32, cond: &Core) -> Result<Stmt, AllocError>
    ensures { IfOk result (λ c. c ≡ Stmt.Check number cond.now) }
{
    let cond = cond.copy(alloc)?;
    Ok(Stmt::Check { number, cond })
}

fn copy_if(
    alloc: Global,
    cond: &Core,
    yes: Items<Stmt>,
    no: Items<Stmt>,
) -> Result<Stmt, AllocError>
    ensures { IfOk result (λ c. c ≡ Stmt.If cond.now yes no) }
{
    let cond = cond.copy(alloc)?;
    Ok(Stmt::If { cond, yes, no })
}

fn copy_loop(
    alloc: Global,
    pre: Items<Stmt>,
    cond: &Core,
    body: Items<Stmt>,
    step: Items<Stmt>,
    first: bool,
) -> Result<Stmt, AllocError>
    ensures { IfOk result (λ c. c ≡ Stmt.Loop pre cond.now body step first) }
{
    let cond = cond.copy(alloc)?;
    Ok(Stmt::Loop {
        pre,
        cond,
        body,
        step,
        first,
    })
}

/// A copy of a list of statements.
#[cycle(copy)]
pub fn copy_stmts(alloc: Global, stmts: &Items<Stmt>) -> Result<Items<Stmt>, AllocError>
    ensures { IfOk result (λ c. c ≡ stmts.now) }
{
    let mut copies = Items::new(alloc);
    for part in stmts.as_slice() {
        copies.push(part.copy(alloc)?)?;
    }
    Ok(copies)
}
