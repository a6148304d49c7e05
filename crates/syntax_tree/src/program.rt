ghost use Rattle.std.specs.Prelude.{◌≡◌, IfOk};

use crate::name::Name;
use crate::stmt::{Stmt, copy_stmts};
use items::Items;
use std::alloc::{AllocError, Global};

/// A column between the globals and the returned value. A temporary has no name.
#[derive(Clone, PartialEq, Eq, Drop)]
pub struct Column {
    pub name: Option<Name>,
}

/// A global and its value where `main` begins.
#[derive(Clone, PartialEq, Eq, Drop)]
pub struct GlobalVar {
    pub name: Name,
    pub init: i128,
}

/// A procedure. Its columns are the globals, then `columns`, of which the first `params` are the
/// parameters, and last the returned value.
#[derive(PartialEq, Eq, Drop)]
pub struct Proc {
    pub name: Name,
    pub returns: bool,
    pub params: u32,
    pub columns: Items<Column>,
    pub body: Items<Stmt>,
}

/// A program. A call names a procedure by its place in `procs`, and `main` is the place of `main`.
/// `checks` has the places of the assertions in the text, the first of which has the number 1.
/// `rule` is the rule by which the iterations of a loop are summed up: 1 bounds differences, 2
/// progressions too, 3 also takes the facets of the loop's body as directions, and 4 is as 2, phase
/// by phase.
#[derive(PartialEq, Eq, Drop)]
pub struct Program {
    pub globals: Items<GlobalVar>,
    pub procs: Items<Proc>,
    pub main: u32,
    pub checks: Items<u32>,
    pub rule: u32,
}

impl Proc {
    /// A copy of the procedure.
    pub fn copy(&self, alloc: Global) -> Result<Proc, AllocError>
        ensures { IfOk result (λ c. c ≡ self.now) }
    {
        Ok(Proc {
            name: self.name.clone()?,
            returns: self.returns,
            params: self.params,
            columns: self.columns.clone()?,
            body: copy_stmts(alloc, &self.body)?,
        })
    }
}

impl Program {
    /// A copy of the program.
    pub fn copy(&self, alloc: Global) -> Result<Program, AllocError>
        ensures { IfOk result (λ c. c ≡ self.now) }
    {
        let mut procs = Items::new(alloc);
        for proc in self.procs.as_slice() {
            procs.push(proc.copy(alloc)?)?;
        }
        Ok(Program {
            globals: self.globals.clone()?,
            procs,
            main: self.main,
            checks: self.checks.clone()?,
            rule: self.rule,
        })
    }
}
