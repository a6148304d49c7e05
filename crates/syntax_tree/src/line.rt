ghost use Rattle.std.specs.Prelude.{◌≡◌, IfOk};

use crate::expr::Expr;
use crate::name::Name;
use items::Items;
use std::alloc::{AllocError, Global};

/// A line of a body: a block, the declaration of a local, or a statement. A place is a byte offset.
#[derive(PartialEq, Eq, Drop)]
pub enum Line {
    Block(Items<Line>),
    Local {
        name: Name,
        at: u32,
        init: Option<Expr>,
    },
    Assign {
        name: Name,
        at: u32,
        value: Expr,
    },
    Act(Expr),
    If {
        cond: Expr,
        yes: Items<Line>,
        no: Items<Line>,
    },
    /// `while`, `for`, and with `first` the loop `do .. while`, whose body comes before its
    /// condition.
    Loop {
        init: Items<Line>,
        cond: Expr,
        step: Items<Line>,
        body: Items<Line>,
        first: bool,
    },
    Break(u32),
    Continue(u32),
    Return {
        at: u32,
        value: Option<Expr>,
    },
}

impl Line {
    /// A copy of the line.
    #[cycle(copy)]
    pub fn copy(&self, alloc: Global) -> Result<Line, AllocError>
        ensures { IfOk result (λ c. c ≡ self.now) }
    {
        match self {
            Line::Block(lines) => Ok(Line::Block(copy_lines(alloc, lines)?)),
            Line::Local { name, at, init } => copy_local(alloc, name, *at, init),
            Line::Assign { name, at, value } => copy_assign(alloc, name, *at, value),
            Line::Act(call) => copy_act(alloc, call),
            Line::If { cond, yes, no } => {
                let yes = copy_lines(alloc, yes)?;
                let no = copy_lines(alloc, no)?;
                copy_if(alloc, cond, yes, no)
            }
            Line::Loop {
                init,
                cond,
                step,
                body,
                first,
            } => {
                let init = copy_lines(alloc, init)?;
                let step = copy_lines(alloc, step)?;
                let body = copy_lines(alloc, body)?;
                copy_loop(alloc, init, cond, step, body, *first)
            }
            Line::Break(at) => Ok(Line::Break(*at)),
            Line::Continue(at) => Ok(Line::Continue(*at)),
            Line::Return { at, value } => copy_return(alloc, *at, value),
        }
    }
}

fn copy_local(alloc: Global, name: &Name, at: u32, init: &Option<Expr>) -> Result<Line, AllocError>
    ensures { IfOk result (λ c. c ≡ Line.Local name.now at init.now) }
{
    let name = name.clone()?;
    let init = copy_value(alloc, init)?;
    Ok(Line::Local { name, at, init })
}

fn copy_assign(alloc: Global, name: &Name, at: u32, value: &Expr) -> Result<Line, AllocError>
    ensures { IfOk result (λ c. c ≡ Line.Assign name.now at value.now) }
{
    let name = name.clone()?;
    let value = value.copy(alloc)?;
    Ok(Line::Assign { name, at, value })
}

fn copy_act(alloc: Global, call: &Expr) -> Result<Line, AllocError>
    ensures { IfOk result (λ c. c ≡ Line.Act call.now) }
{
    Ok(Line::Act(call.copy(alloc)?))
}

fn copy_if(
    alloc: Global,
    cond: &Expr,
    yes: Items<Line>,
    no: Items<Line>,
) -> Result<Line, AllocError>
    ensures { IfOk result (λ c. c ≡ Line.If cond.now yes no) }
{
    let cond = cond.copy(alloc)?;
    Ok(Line::If { cond, yes, no })
}

fn copy_loop(
    alloc: Global,
    init: Items<Line>,
    cond: &Expr,
    step: Items<Line>,
    body: Items<Line>,
    first: bool,
) -> Result<Line, AllocError>
    ensures { IfOk result (λ c. c ≡ Line.Loop init cond.now step body first) }
{
    let cond = cond.copy(alloc)?;
    Ok(Line::Loop {
        init,
        cond,
        step,
        body,
        first,
    })
}

fn copy_return(alloc: Global, at: u32, value: &Option<Expr>) -> Result<Line, AllocError>
    ensures { IfOk result (λ c. c ≡ Line.Return at value.now) }
{
    let value = copy_value(alloc, value)?;
    Ok(Line::Return { at, value })
}

fn copy_value(alloc: Global, value: &Option<Expr>) -> Result<Option<Expr>, AllocError>
    ensures { IfOk result (λ c. c ≡ value.now) }
{
    match value {
        Some(value) => Ok(Some(value.copy(alloc)?)),
        None => Ok(None),
    }
}

/// A copy of a list of lines.
#[cycle(copy)]
pub fn copy_lines(alloc: Global, lines: &Items<Line>) -> Result<Items<Line>, AllocError>
    ensures { IfOk result (λ c. c ≡ lines.now) }
{
    let mut copies = Items::new(alloc);
    for part in lines.as_slice() {
        copies.push(part.copy(alloc)?)?;
    }
    Ok(copies)
}
