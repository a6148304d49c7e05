//! Trees, printed: an expression as an operator and its operands, each with the place of its token.
use crate::words::{op_text, show_named, sign_text};
use items::Items;
use row_texts::Told;
use syntax_tree::{Expr, Item, Line, Name, Param};

fn show_operator(out: &mut Told, mark: &str, at: u32) {
    out.word(" (");
    out.word(mark);
    out.place("@", at);
}

#[cycle(show_expr)]
fn show_expr(out: &mut Told, e: &Expr) {
    match e {
        Expr::Lit(at, value) => {
            out.word(" ");
            out.number(*value);
            out.place("@", *at);
        }
        Expr::Var(at, name) => show_named(out, " ", name, *at),
        Expr::Call(at, name, args) => {
            show_named(out, " ", name, *at);
            show_exprs(out, args);
        }
        Expr::Unary(at, sign, inner) => {
            show_operator(out, sign_text(*sign), *at);
            show_expr(out, inner);
            out.word(")");
        }
        Expr::Binary(at, op, left, right) => {
            show_operator(out, op_text(*op), *at);
            show_expr(out, left);
            show_expr(out, right);
            out.word(")");
        }
    }
}

#[cycle(show_expr)]
fn show_exprs(out: &mut Told, exprs: &Items<Expr>) {
    out.word("[");
    for e in exprs.as_slice() {
        show_expr(out, e);
    }
    out.word(" ]");
}

/// The value, if there is one.
fn show_value(out: &mut Told, value: &Option<Expr>) {
    match value {
        Some(e) => show_expr(out, e),
        None => (),
    }
    out.word(";");
}

fn show_jump(out: &mut Told, word: &str, at: u32) {
    out.place(word, at);
    out.word(";");
}

#[cycle(show_line)]
fn show_line(out: &mut Told, line: &Line) {
    match line {
        Line::Block(lines) => show_lines(out, lines),
        Line::Local { name, at, init } => {
            show_named(out, " int ", name, *at);
            show_value(out, init);
        }
        Line::Assign { name, at, value } => {
            show_named(out, " ", name, *at);
            out.word(" =");
            show_expr(out, value);
            out.word(";");
        }
        Line::Act(call) => {
            show_expr(out, call);
            out.word(";");
        }
        Line::If { cond, yes, no } => {
            out.word(" if");
            show_expr(out, cond);
            show_lines(out, yes);
            show_lines(out, no);
        }
        Line::Loop {
            init,
            cond,
            step,
            body,
            first,
        } => {
            out.word(if *first { " do" } else { " loop" });
            show_lines(out, init);
            show_expr(out, cond);
            show_lines(out, step);
            show_lines(out, body);
        }
        Line::Break(at) => show_jump(out, " break@", *at),
        Line::Continue(at) => show_jump(out, " continue@", *at),
        Line::Return { at, value } => {
            out.place(" return@", *at);
            show_value(out, value);
        }
    }
}

#[cycle(show_line)]
fn show_lines(out: &mut Told, lines: &Items<Line>) {
    out.word(" {");
    for line in lines.as_slice() {
        show_line(out, line);
    }
    out.word(" }");
}

/// How many parameters a prototype has, if it says so.
fn show_count(out: &mut Told, count: Option<u32>) {
    match count {
        Some(count) => out.place(" ", count),
        None => out.word(" any"),
    }
    out.word(";");
}

fn show_params(out: &mut Told, params: &[Param]) {
    for param in params {
        show_named(out, " ", &param.name, param.at);
    }
}

/// The kind of a procedure's item, its name and place, and whether it returns a value.
fn show_head(out: &mut Told, kind: &str, name: &Name, at: u32, returns: bool) {
    show_named(out, kind, name, at);
    out.word(if returns { " true" } else { " false" });
}

pub(crate) fn show_item(out: &mut Told, item: &Item) {
    match item {
        Item::Global { name, at, init } => {
            show_named(out, " global ", name, *at);
            out.word(" ");
            out.number(*init);
            out.word(";");
        }
        Item::Proto {
            name,
            at,
            returns,
            params,
        } => {
            show_head(out, " proto ", name, *at, *returns);
            show_count(out, *params);
        }
        Item::Body {
            name,
            at,
            returns,
            params,
            lines,
            end,
        } => {
            show_head(out, " body ", name, *at, *returns);
            show_params(out, params.as_slice());
            show_lines(out, lines);
            out.place("@", *end);
        }
    }
}
