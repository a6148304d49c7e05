//! Programs and their faults, printed.
use crate::words::{op_text, sign_text};
use items::Items;
use row_texts::Told;
use syntax_tree::{Column, Core, GlobalVar, Proc, Program, Stmt};
use typing::{Limited, TypeError};

fn show_core(out: &mut Told, e: &Core) {
    match e {
        Core::Lit(value) => out.number(*value),
        Core::Col(col) => out.place("c", *col),
        Core::Unary(sign, inner) => {
            show_operator(out, sign_text(*sign));
            show_core(out, inner);
            out.word(")");
        }
        Core::Binary(op, left, right) => {
            show_operator(out, op_text(*op));
            show_core(out, left);
            out.word(" ");
            show_core(out, right);
            out.word(")");
        }
    }
}

fn show_operator(out: &mut Told, mark: &str) {
    out.word("(");
    out.word(mark);
    out.word(" ");
}

fn show_call(out: &mut Told, proc: u32, args: &[Core], into: Option<u32>) {
    out.place("call ", proc);
    out.word("(");
    for arg in args {
        show_core(out, arg);
        out.word(" ");
    }
    out.word(")");
    show_target(out, into);
}

/// The column that a value goes into, if there is one.
fn show_target(out: &mut Told, into: Option<u32>) {
    match into {
        Some(col) => out.place(" ", col),
        None => (),
    }
    out.word(";");
}

/// A word, and an expression behind it.
fn show_worded(out: &mut Told, word: &str, e: &Core) {
    out.word(word);
    show_core(out, e);
}

/// A word, and a number and an expression behind it.
fn show_numbered(out: &mut Told, word: &str, number: u32, e: &Core) {
    out.place(word, number);
    show_worded(out, " ", e);
    out.word(";");
}

#[cycle(show)]
fn show_stmt(out: &mut Told, stmt: &Stmt) {
    match stmt {
        Stmt::Set { col, value } => show_numbered(out, "set ", *col, value),
        Stmt::Any { col } => {
            out.place("any ", *col);
            out.word(";");
        }
        Stmt::Call { proc, args, into } => show_call(out, *proc, args.as_slice(), *into),
        Stmt::Guard { cond } => {
            show_worded(out, "guard ", cond);
            out.word(";");
        }
        Stmt::Check { number, cond } => show_numbered(out, "check ", *number, cond),
        Stmt::If { cond, yes, no } => {
            show_worded(out, "if ", cond);
            show_stmts(out, yes);
            show_stmts(out, no);
        }
        Stmt::Loop {
            pre,
            cond,
            body,
            step,
            first,
        } => {
            out.word(if *first { "do" } else { "loop" });
            show_stmts(out, pre);
            show_worded(out, " ", cond);
            show_stmts(out, body);
            show_stmts(out, step);
        }
        Stmt::Break => out.word("break;"),
        Stmt::Continue => out.word("continue;"),
        Stmt::Return => out.word("return;"),
    }
}

#[cycle(show)]
fn show_stmts(out: &mut Told, stmts: &Items<Stmt>) {
    out.word(" { ");
    for stmt in stmts.as_slice() {
        show_stmt(out, stmt);
        out.word(" ");
    }
    out.word("}");
}

fn show_column(out: &mut Told, column: &Column) {
    match &column.name {
        Some(name) => out.letters(name.as_slice()),
        None => out.word("_"),
    }
    out.word(" ");
}

fn show_proc(out: &mut Told, proc: &Proc) {
    out.letters(proc.name.as_slice());
    out.place(if proc.returns { " int " } else { " void " }, proc.params);
    out.word(" [ ");
    for column in proc.columns.as_slice() {
        show_column(out, column);
    }
    out.word("]");
    show_stmts(out, &proc.body);
    out.word(" ");
}

fn show_global(out: &mut Told, global: &GlobalVar) {
    out.letters(global.name.as_slice());
    out.word("=");
    out.number(global.init);
    out.word(" ");
}

/// Which procedure is `main`, and where the assertions stand.
fn show_ends(out: &mut Told, main: u32, checks: &[u32]) {
    out.place("main ", main);
    for at in checks {
        out.place(" ", *at);
    }
}

fn show_globals(out: &mut Told, globals: &[GlobalVar]) {
    for global in globals {
        show_global(out, global);
    }
}

fn show_procs(out: &mut Told, procs: &[Proc]) {
    for proc in procs {
        show_proc(out, proc);
    }
}

pub(crate) fn show_program(out: &mut Told, program: &Program) {
    show_globals(out, program.globals.as_slice());
    show_procs(out, program.procs.as_slice());
    show_ends(out, program.main, program.checks.as_slice());
}

fn limit_text(limit: Limited) -> &'static str {
    match limit {
        Limited::Procedures => "many procedures ",
        Limited::Parameters => "many parameters ",
        Limited::Globals => "many globals ",
        Limited::Slots => "many slots ",
        Limited::Nodes => "many nodes ",
        Limited::Assertions => "many assertions ",
        Limited::Cases => "many cases ",
    }
}

pub(crate) fn show_fault(out: &mut Told, fault: TypeError) {
    match fault {
        TypeError::Unknown(at) => out.place("unknown ", at),
        TypeError::Twice(at) => out.place("twice ", at),
        TypeError::Arity(at) => out.place("arity ", at),
        TypeError::VoidValue(at) => out.place("void ", at),
        TypeError::CallPlace(at) => out.place("place ", at),
        TypeError::Many(limit, at) => out.place(limit_text(limit), at),
        TypeError::NoMain(at) => out.place("main ", at),
        TypeError::Memory => out.lose(),
    }
}
