ghost use Rattle.std.specs.Prelude.{◌≡◌, ◌≤◌, ◌+◌, ◌↔◌, ℕ, All, IsSomeAnd, IsTrue, length, min, slice_get};
ghost use Rattle.std.specs.List.{list_all};
ghost use Rattle.syntax_tree.specs.Code.{code_of, statement_of};
ghost use Rattle.syntax_tree.specs.WellFormed.{body_place, callee_fits, code_checks, code_fits, into_fits, may_leave, has_name, IsProcFit, IsWellFormed, procs_checks, statement_checks, statement_fits, width_of};
ghost use Rattle.syntax_tree.specs.Limits.{most_globals};

use crate::limits::{
    MOST_CHECKS, MOST_GLOBALS, MOST_NODES, MOST_PARAMETERS, MOST_PROCEDURES, MOST_SLOTS,
};
use crate::measure::{args_fit, cond_fits, value_fits};
use crate::nodes::count_nodes;
use crate::program::{Column, Proc, Program};
use crate::stmt::Stmt;

// Where a statement stands: in no loop, in the body of one, or in what a loop does around its test.
#[derive(Debug, Clone, Copy, PartialEq, Eq)]
enum Place {
    Outside,
    InBody,
    InTest,
}

impl Place {
    fn may_leave(self) -> bool
        ensures { result ≡ may_leave self }
    {
        match self {
            Place::Outside => false,
            Place::InBody => true,
            Place::InTest => false,
        }
    }

    fn body(self) -> Place
        ensures { result ≡ body_place self }
    {
        match self {
            Place::Outside => Place::InBody,
            Place::InBody => Place::InBody,
            Place::InTest => Place::InTest,
        }
    }
}

#[cycle(fits)]
#[tactic(auto, using(crate::proofs::Codes::statements))]
fn code_fits(stmts: &[Stmt], program: &Program, width: usize, place: Place) -> bool
    ensures { result ≡ code_fits program.now width place (code_of stmts.now) }
{
    for stmt in stmts {
        if !stmt_fits(stmt, program, width, place) {
            return false;
        }
    }
    true
}

#[cycle(fits)]
#[tactic(auto, using(crate::proofs::Codes::statements))]
fn stmt_fits(stmt: &Stmt, program: &Program, width: usize, place: Place) -> bool
    ensures { result ≡ statement_fits program.now width place (statement_of stmt.now) }
{
    match stmt {
        Stmt::Set { col, value } => (*col as usize) < width && value_fits(value, width),
        Stmt::Any { col } => (*col as usize) < width,
        Stmt::Call { proc, args, into } => {
            callee_fits(program, *proc, args.len(), into.is_some())
                && args_fit(args.as_slice(), width)
                && into_fits(*into, width)
        }
        Stmt::Guard { cond } => cond_fits(cond, width),
        Stmt::Check { number, cond } => {
            1 <= *number && (*number as usize) <= program.checks.len() && cond_fits(cond, width)
        }
        Stmt::If { cond, yes, no } => {
            cond_fits(cond, width)
                && code_fits(yes.as_slice(), program, width, place)
                && code_fits(no.as_slice(), program, width, place)
        }
        Stmt::Loop {
            pre,
            cond,
            body,
            step,
            ..
        } => {
            cond_fits(cond, width)
                && code_fits(pre.as_slice(), program, width, Place::InTest)
                && code_fits(body.as_slice(), program, width, place.body())
                && code_fits(step.as_slice(), program, width, Place::InTest)
        }
        Stmt::Break => place.may_leave(),
        Stmt::Continue => place.may_leave(),
        Stmt::Return => true,
    }
}

fn callee_fits(program: &Program, proc: u32, args: usize, awaits: bool) -> bool
    ensures { result ≡ callee_fits (slice_get program.now.procs proc) args awaits }
{
    match program.procs.as_slice().get(proc as usize) {
        Some(callee) => callee.params as usize == args && (callee.returns || !awaits),
        None => false,
    }
}

fn into_fits(into: Option<u32>, width: usize) -> bool
    ensures { result ≡ into_fits width into }
{
    match into {
        Some(col) => (col as usize) < width,
        None => true,
    }
}

// How often the assertion stands in the statements. A number past 2 counts as 2.
#[cycle(checks)]
#[tactic(auto, using(crate::proofs::Codes::statements))]
fn checks_in(stmts: &[Stmt], number: usize) -> usize
    ensures { result ≡ min (code_checks number (code_of stmts.now)) 2 }
{
    let mut total = 0;
    for stmt in stmts {
        total = (total + stmt_checks(stmt, number)).min(2);
    }
    total
}

#[cycle(checks)]
#[tactic(auto, using(crate::proofs::Codes::statements))]
fn stmt_checks(stmt: &Stmt, k: usize) -> usize
    ensures { result ≡ min (statement_checks k (statement_of stmt.now)) 2 }
{
    match stmt {
        Stmt::Check { number, .. } => if k == *number as usize { 1 } else { 0 },
        Stmt::If { yes, no, .. } => {
            (checks_in(yes.as_slice(), k) + checks_in(no.as_slice(), k)).min(2)
        }
        Stmt::Loop {
            pre,
            body,
            step,
            ..
        } => {
            (checks_in(pre.as_slice(), k)
                + checks_in(body.as_slice(), k)
                + checks_in(step.as_slice(), k)).min(2)
        }
        Stmt::Set { .. } => 0,
        Stmt::Any { .. } => 0,
        Stmt::Call { .. } => 0,
        Stmt::Guard { .. } => 0,
        Stmt::Break => 0,
        Stmt::Continue => 0,
        Stmt::Return => 0,
    }
}

fn procs_checks(procs: &[Proc], number: usize) -> usize
    ensures { result ≡ min (procs_checks number procs.now) 2 }
{
    let mut total = 0;
    for proc in procs {
        total = (total + checks_in(proc.body.as_slice(), number)).min(2);
    }
    total
}

fn has_each_check(program: &Program) -> bool
    ensures { IsTrue result ↔ ((k : ℕ) → 1 ≤ k → k ≤ length program.now.checks
        → procs_checks k program.now.procs ≡ 1) }
{
    for number in 1..=program.checks.len() {
        if procs_checks(program.procs.as_slice(), number) != 1 {
            return false;
        }
    }
    true
}

fn have_names(columns: &[Column]) -> bool
    ensures { result ≡ list_all has_name columns.now }
{
    columns.iter().all(|column| column.name.is_some())
}

fn is_proc_fit(proc: &Proc, program: &Program) -> bool
    requires { length program.now.globals ≤ most_globals }
    ensures { IsTrue result ↔ IsProcFit program.now proc.now }
{
    if proc.columns.len() > MOST_SLOTS {
        return false;
    }
    let width = program.globals.len() + proc.columns.len() + 1;
    let params = proc.params as usize;
    proc.params <= MOST_PARAMETERS
        && params <= proc.columns.len()
        && have_names(&proc.columns.as_slice()[..params])
        && code_fits(proc.body.as_slice(), program, width, Place::Outside)
        && count_nodes(proc.body.as_slice()) <= MOST_NODES
}

fn procs_fit(procs: &[Proc], program: &Program) -> bool
    requires { length program.now.globals ≤ most_globals }
    ensures { IsTrue result ↔ All (IsProcFit program.now) procs.now }
{
    for proc in procs {
        if !is_proc_fit(proc, program) {
            return false;
        }
    }
    true
}

fn has_main(program: &Program) -> bool
    ensures { IsTrue result ↔ IsSomeAnd (slice_get program.now.procs program.now.main)
        (λ p. p.params ≡ 0) }
{
    match program.procs.as_slice().get(program.main as usize) {
        Some(main) => main.params == 0,
        None => false,
    }
}

impl Program {
    /// Whether the program is well formed. It takes no memory, and looks for each assertion in the
    /// whole program.
    pub fn is_well_formed(&self) -> bool
        ensures { IsTrue result ↔ IsWellFormed self.now }
    {
        (1..=4).contains(&self.rule)
            && self.procs.len() <= MOST_PROCEDURES
            && self.globals.len() <= MOST_GLOBALS
            && self.checks.len() <= MOST_CHECKS
            && has_main(self)
            && procs_fit(self.procs.as_slice(), self)
            && has_each_check(self)
    }
}
