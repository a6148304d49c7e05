//! Plans of graphs: the key of each path, the numbers of the paths in the order of making, and the
//! cells.

use crate::links::{is_graph, links_of};
use checked_tree::{
    EliminationPlan, Key, elimination_plan, evaluation_covers_walks, plans_evaluate_graphs,
};
use path_expr::{Cell, Link};
use row_texts::Told;

/// A letter and two numbers.
fn show_pair(out: &mut Told, letter: &str, left: usize, right: usize) {
    out.count(letter, left);
    out.count(",", right);
}

fn show_key(out: &mut Told, key: &Key) {
    match key {
        Key::Edge(link) => out.place("e", *link),
        Key::Seq(first, second) => show_pair(out, "s", *first, *second),
        Key::Join(left, right) => show_pair(out, "j", *left, *right),
        Key::Star(turn) => out.count("t", *turn),
    }
    out.word(" ");
}

fn show_cell(out: &mut Told, cell: &Cell<usize>) {
    match cell {
        Cell::Zero => out.word("none"),
        Cell::One => out.word("stay"),
        Cell::Item(number) => out.count("", *number),
    }
    out.word(" ");
}

fn show_order(out: &mut Told, order: &[usize]) {
    out.word("; ");
    for number in order {
        out.count("", *number);
        out.word(" ");
    }
}

fn show_cells(out: &mut Told, cells: &[Cell<usize>]) {
    out.word("; ");
    for cell in cells {
        show_cell(out, cell);
    }
}

fn show_plan(out: &mut Told, plan: &EliminationPlan) {
    for key in plan.keys.iter() {
        show_key(out, key);
    }
    show_order(out, plan.order.as_slice());
}

/// The plan of a graph and its cells.
fn show_made(out: &mut Told, nodes: u32, links: &[Link], source: u32) {
    if !is_graph(nodes, links) || source >= nodes || links.len() > 9 {
        return out.lose();
    }
    match elimination_plan(out.alloc(), nodes, links, source) {
        Ok((plan, cells)) => {
            show_plan(out, &plan);
            show_cells(out, cells.as_slice());
        }
        Err(_) => out.lose(),
    }
}

/// A number of nodes, a source and links.
pub(crate) fn show(out: &mut Told, given: &str) {
    let (counts, links) = out.halves(given, ": ");
    let (nodes, source) = out.halves(counts, " ");
    let nodes = out.small_number_of(nodes);
    let source = out.small_number_of(source);
    let links = links_of(out, links);
    show_made(out, nodes, links.as_slice(), source);
}

pub(crate) fn laws() {
    evaluation_covers_walks();
    plans_evaluate_graphs();
}
