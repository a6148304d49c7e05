//! Flow graphs and groups of procedures.
ghost use Rattle.syntax_tree.specs.WellFormed.{IsWellFormed};

use flow_graph::{
    Act, Edge, Graph, Group, calls_are_walks, checks_are_walks, graph, groups,
    groups_are_determined, returns_are_walks, returns_have_heights, stacks_are_chains,
};
use row_texts::Told;
use syntax_tree::{Core, Program, Sign};

fn kind_of(act: &Act) -> &'static str {
    match act {
        Act::Guard(Core::Lit(_)) => "skip",
        Act::Guard(Core::Unary(Sign::Not, _)) => "false",
        Act::Guard(_) => "true",
        Act::Set(_, _) => "set",
        Act::Any(_) => "any",
        Act::Call { .. } => "call",
    }
}

fn show_edge(out: &mut Told, edge: &Edge) {
    out.place("", edge.from);
    out.place("-", edge.to);
    out.word(" ");
    out.word(kind_of(&edge.act));
}

/// How many nodes, the edges, and where the assertions stand.
fn show_parts(out: &mut Told, graph: &Graph) {
    out.place("", graph.nodes);
    out.word(":");
    let mut mark = " ";
    for edge in graph.edges.as_slice() {
        out.word(mark);
        show_edge(out, edge);
        mark = ", ";
    }
    for check in graph.checks.as_slice() {
        out.place(", assertion ", check.number);
        out.place(" at ", check.node);
    }
}

/// The graph of the first procedure.
pub(crate) fn show_graph(out: &mut Told, program: &Program)
    requires { IsWellFormed program.now }
{
    if program.procs.is_empty() {
        return out.lose();
    }
    match graph(out.alloc(), program, 0) {
        Ok(made) => show_parts(out, &made),
        Err(_) => out.lose(),
    }
}

fn show_group(out: &mut Told, group: &Group) {
    let mut mark = "";
    for proc in group.procs.as_slice() {
        out.place(mark, *proc);
        mark = " ";
    }
    if group.recursive {
        out.word(" recursive");
    }
}

fn show_each(out: &mut Told, groups: &[Group]) {
    let mut comma = "";
    for group in groups {
        out.word(comma);
        show_group(out, group);
        comma = ", ";
    }
}

/// The groups of procedures in order: a procedure stands by its place in the text.
pub(crate) fn show_groups(out: &mut Told, program: &Program) {
    match groups(out.alloc(), program) {
        Ok(groups) => show_each(out, groups.as_slice()),
        Err(_) => out.lose(),
    }
}

pub(crate) fn laws() {
    returns_are_walks();
    returns_have_heights();
    calls_are_walks();
    checks_are_walks();
    groups_are_determined();
    stacks_are_chains();
}
