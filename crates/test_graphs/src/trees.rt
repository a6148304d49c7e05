//! Trees of procedures: what each step is made of, and how many answers it keeps.
ghost use Rattle.std.specs.Prelude.{◌≡◌, ◌<◌, length, IsTrue};
ghost use Rattle.syntax_tree.specs.WellFormed.{IsWellFormed};
ghost use Rattle.syntax_tree.specs.declared.program.Proc.{Proc as Procedure};
ghost use Rattle.vocabularies.specs.Procs.{IsProcOf};
ghost use Rattle.proc_summary.specs.Subject.{own_graph};

use crate::leaves::are_known;
use checked_tree::{Checked, Node, TreeStep, trees_cover_runs};
use finder::Finder;
use flow_graph::graph;
use items::Items;
use path_expr::Cell;
use posing::Log;
use proc_summary::trees;
use row_texts::Told;
use std::alloc::Global;
use syntax_tree::Program;
use transition_formula::Formula;

/// The operation of a step with its operands, and behind a colon how many answers it keeps.
fn show_step(out: &mut Told, step: &TreeStep) {
    match &step.node {
        Node::Leaf(link, _) => out.place("e", *link),
        Node::Seq(first, second) => {
            out.word("s(");
            show_step(out, first);
            out.word(" ");
            show_step(out, second);
            out.word(")");
        }
        Node::Join(left, right) => {
            out.word("j(");
            show_step(out, left);
            out.word(" ");
            show_step(out, right);
            out.word(")");
        }
        Node::Star(turn) => {
            out.word("t(");
            show_step(out, turn);
            out.word(")");
        }
    }
    out.count(":", step.log.answers.len());
}

/// Whether paths lead to a node: none, the empty one alone, or those of a tree.
fn mark(cell: &Cell<Checked>) -> &'static str {
    match cell {
        Cell::Zero => "none ",
        Cell::One => "stay ",
        Cell::Item(_) => "tree ",
    }
}

fn show_last(out: &mut Told, cells: &[Cell<Checked>]) {
    if let [.., Cell::Item(tree)] = cells {
        show_step(out, tree.root());
    }
}

/// What stands at each node, the tree of the last, and how many answers the log has.
fn show_cells(out: &mut Told, cells: &[Cell<Checked>], log: &Log) {
    for cell in cells {
        out.word(mark(cell));
    }
    out.word("; ");
    show_last(out, cells);
    out.count(" ; ", log.answers.len());
}

/// Whether a node is one of a procedure's graph.
fn has_node(alloc: Global, program: &Program, proc: u32, node: u32) -> bool
    requires formed { IsWellFormed program.now }
    requires procedure { proc < length program.now.procs }
    ensures { (p : Procedure) → IsProcOf program.now proc p → IsTrue result
        → node < (own_graph p).nodes }
{
    match graph(alloc, program, proc) {
        Ok(made) => node < made.nodes,
        Err(_) => false,
    }
}

/// No formula for any procedure.
fn none_of(out: &mut Told, program: &Program) -> Items<Option<Formula>> {
    let mut known = Items::new(out.alloc());
    for _proc in program.procs.as_slice() {
        out.lose_unless(known.push(None).is_ok());
    }
    known
}

/// The trees of a procedure from a node.
fn show_trees(out: &mut Told, program: &Program, proc: u32, known: &[Option<Formula>], source: u32)
    requires { IsWellFormed program.now }
{
    if proc as usize >= program.procs.len()
        || !are_known(program, known)
        || !has_node(out.alloc(), program, proc, source)
    {
        return out.lose();
    }
    let mut log = Log::new(out.alloc());
    let mut finder = Finder::new(out.alloc());
    match trees(
        out.alloc(),
        program,
        proc,
        known,
        source,
        &mut finder,
        &mut log,
    ) {
        Ok(cells) => show_cells(out, cells.as_slice(), &log),
        Err(_) => out.lose(),
    }
}

/// The trees of a procedure without callees from a node: the procedure's number and the node's.
pub(crate) fn show(out: &mut Told, program: &Program, with: &str)
    requires { IsWellFormed program.now }
{
    let (proc, source) = out.halves(with, " ");
    let proc = out.small_number_of(proc);
    let source = out.small_number_of(source);
    let known = none_of(out, program);
    show_trees(out, program, proc, known.as_slice(), source);
}

pub(crate) fn laws() {
    trees_cover_runs();
}
