use items::Items;
use syntax_tree::Core;

/// What an edge does.
#[derive(Drop)]
pub enum Act {
    /// Passes where the condition has a value that is not 0.
    Guard(Core),
    /// Sets a column to a value.
    Set(u32, Core),
    /// Sets a column to any number.
    Any(u32),
    /// Calls a procedure by its place, and puts what it returns into a column.
    Call {
        proc: u32,
        args: Items<Core>,
        into: Option<u32>,
    },
}

/// An edge from a node to a node.
#[derive(Drop)]
pub struct Edge {
    pub from: u32,
    pub to: u32,
    pub act: Act,
}

/// The node at which an assertion stands: it is the next thing to do there.
#[derive(Drop)]
pub struct CheckNode {
    pub node: u32,
    pub number: u32,
    pub cond: Core,
}

/// The flow graph of a procedure. Nodes are numbered from 0, the entry, to the exit, which is the
/// last; nodes and edges are in the order in which the statements make them.
#[derive(Drop)]
pub struct Graph {
    pub nodes: u32,
    pub edges: Items<Edge>,
    pub checks: Items<CheckNode>,
}
