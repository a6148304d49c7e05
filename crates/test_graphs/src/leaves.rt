//! The formulas of edges.
ghost use Rattle.std.specs.Prelude.{◌≡◌, ◌<◌, ◌≤◌, ◌↔◌, Some, length, All, IsTrue};
ghost use Rattle.transition_formula.specs.Transition.{Transition};
ghost use Rattle.flow_graph.specs.Plain.{statement_of_act};
ghost use Rattle.syntax_tree.specs.WellFormed.{IsWellFormed};
ghost use Rattle.leaf_cases.specs.Conditions.{AreKnown, IsActOf, IsKnown};

use flow_graph::{Act, graph};
use items::Items;
use leaf_cases::{falsity, leaf, met_calls_are_known, truth};
use linear_terms::{Case, Poly};
use polynomial_texts::case;
use row_texts::Told;
use syntax_tree::{Core, Proc, Program};
use transition_formula::{Formula, FormulaError, Loss};

/// A post, unless it is the column.
fn show_post(out: &mut Told, column: usize, post: &Poly) {
    let mut own = Told::new(out.alloc());
    own.count("x", column);
    let mut text = Told::new(out.alloc());
    text.value(post);
    if text.text() != own.text() {
        show_equation(out, own.text(), text.text());
    }
}

fn show_equation(out: &mut Told, left: &str, right: &str) {
    out.word(" ; ");
    out.word(left);
    out.word(" = ");
    out.word(right);
}

/// How many auxiliaries a case has, its rows, and its posts but for those that are their column.
fn show_case(out: &mut Told, case: &Case) {
    out.place("", case.aux);
    for row in case.rows.as_slice() {
        out.word(" | ");
        out.value(row);
    }
    for column in 0..case.post.len() {
        show_post(out, column, &case.post[column]);
    }
}

fn show_loss(out: &mut Told, loss: Loss) {
    match loss {
        Loss::Wide { left, right, times } => {
            out.word(" ! ");
            out.number(left);
            out.word(if times { " * " } else { " + " });
            out.number(right);
        }
        Loss::Degree => out.word(" ! degree"),
    }
}

fn show_cases(out: &mut Told, cases: &[Case]) {
    if cases.is_empty() {
        out.word("nothing");
    }
    let mut mark = "";
    for case in cases {
        out.word(mark);
        show_case(out, case);
        mark = " or ";
    }
}

/// A formula and what was lost.
fn show_formula(out: &mut Told, formula: &Formula, losses: &[Loss]) {
    show_cases(out, formula.cases());
    for loss in losses {
        show_loss(out, *loss);
    }
}

/// What a call made of a formula, and what was lost.
fn show_made(out: &mut Told, made: Result<Formula, FormulaError>, losses: &[Loss]) {
    match made {
        Ok(formula) => show_formula(out, &formula, losses),
        Err(_) => out.lose(),
    }
}

fn have_few(cases: &[Case]) -> bool
    ensures { IsTrue result ↔ All (λ case. case.aux ≤ 64) cases.now }
{
    cases.iter().all(|case| case.aux <= 64)
}

/// Whether a formula is one that may be known of a procedure.
fn is_known(program: &Program, proc: &Proc, formula: &Formula) -> bool
    requires { IsWellFormed program.now }
    ensures { IsTrue result → IsKnown program.now proc.now formula.now }
{
    let cases = formula.cases();
    let globals = program.globals.len() as u64;
    let exits = if proc.returns { globals + 1 } else { globals };
    u64::from(formula.from()) == globals + u64::from(proc.params)
        && u64::from(formula.to()) == exits
        && cases.len() <= 16
        && have_few(cases)
}

/// Whether a formula, if there is one, may be known of a procedure.
fn may_be_known(program: &Program, proc: &Proc, formula: &Option<Formula>) -> bool
    requires { IsWellFormed program.now }
    ensures { (f : Transition) → IsTrue result → formula.now ≡ Some f
        → IsKnown program.now proc.now f }
{
    match formula {
        Some(formula) => is_known(program, proc, formula),
        None => true,
    }
}

/// Whether formulas may be those that are known of the procedures.
pub(crate) fn are_known(program: &Program, known: &[Option<Formula>]) -> bool
    requires { IsWellFormed program.now }
    ensures { IsTrue result → AreKnown program.now known.now }
{
    let procs = program.procs.as_slice();
    if known.len() != procs.len() {
        return false;
    }
    for n in 0..procs.len() {
        if !may_be_known(program, &procs[n], &known[n]) {
            return false;
        }
    }
    true
}

/// The formula of an edge of the first procedure.
fn show_edge(out: &mut Told, program: &Program, act: &Act, known: &[Option<Formula>])
    requires formed { IsWellFormed program.now }
    requires procedure { 0 < length program.now.procs }
    requires edge { IsActOf program.now 0 (statement_of_act act.now) }
    requires known { AreKnown program.now known.now }
{
    let mut losses = Items::new(out.alloc());
    let made = leaf(out.alloc(), program, 0, act, known, &mut losses);
    show_made(out, made, losses.as_slice());
}

fn is_skip(act: &Act) -> bool {
    matches!(act, Act::Guard(Core::Lit(_)))
}

/// The formulas of the edges of the first procedure, but for those that do nothing.
fn show_edges(out: &mut Told, program: &Program, known: &[Option<Formula>])
    requires { IsWellFormed program.now }
{
    if program.procs.is_empty() || !are_known(program, known) {
        return out.lose();
    }
    let Ok(graph) = graph(out.alloc(), program, 0) else {
        return out.lose();
    };
    let mut is_first = true;
    for edge_of in graph.edges.as_slice() {
        if !is_skip(&edge_of.act) {
            out.word(if is_first { "" } else { " / " });
            show_edge(out, program, &edge_of.act, known);
            is_first = false;
        }
    }
}

/// What is known of the procedures: of the second, this case.
fn formulas_of(out: &mut Told, program: &Program, text: &str) -> Items<Option<Formula>> {
    let mut known = Items::new(out.alloc());
    for n in 0..program.procs.len() {
        let formula = if n == 1 && text != "-" {
            formula_of(out, program, &program.procs[n], text)
        } else {
            None
        };
        out.lose_unless(known.push(formula).is_ok());
    }
    known
}

/// How many columns a procedure has at its entry and at its return.
fn columns_of(program: &Program, proc: &Proc) -> Option<(u32, u32)> {
    let globals = u32::try_from(program.globals.len()).ok()?;
    let from = globals.checked_add(proc.params)?;
    let to = globals.checked_add(if proc.returns { 1 } else { 0 })?;
    Some((from, to))
}

/// The one case that a text is.
fn cases_of(out: &mut Told, text: &str) -> Items<Case> {
    let mut cases = Items::new(out.alloc());
    match case(out.alloc(), text) {
        Ok(case) => out.lose_unless(cases.push(case).is_ok()),
        Err(_) => out.lose(),
    }
    cases
}

fn formula_of(out: &mut Told, program: &Program, proc: &Proc, text: &str) -> Option<Formula> {
    let (from, to) = columns_of(program, proc).unwrap_or((0, 0));
    let formula = Formula::new(from, to, cases_of(out, text));
    out.lose_unless(formula.is_some());
    formula
}

/// The formulas of edges; the one case of the known formula of the second procedure, if there is
/// one.
pub(crate) fn show(out: &mut Told, program: &Program, known: &str)
    requires { IsWellFormed program.now }
{
    let known = formulas_of(out, program, known);
    show_edges(out, program, known.as_slice());
}

/// Where a number is true.
fn show_truth(out: &mut Told, number: i128) {
    let mut losses = Items::new(out.alloc());
    let made = truth(out.alloc(), &Core::Lit(number), 0, &mut losses);
    show_made(out, made, losses.as_slice());
}

/// Where a number is false.
fn show_falsity(out: &mut Told, number: i128) {
    let mut losses = Items::new(out.alloc());
    let made = falsity(out.alloc(), &Core::Lit(number), 0, &mut losses);
    show_made(out, made, losses.as_slice());
}

/// Where a number is true, and where it is false.
pub(crate) fn show_literal(out: &mut Told, given: &str) {
    let number = out.number_of(given);
    show_truth(out, number);
    out.word(" / ");
    show_falsity(out, number);
}

pub(crate) fn laws() {
    met_calls_are_known();
}
