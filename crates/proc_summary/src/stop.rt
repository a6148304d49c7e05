use items::Items;
use transition_formula::Formula;

/// A node of a procedure's graph, and what holds between the entry and there: nothing where no way
/// leads to it.
#[derive(Debug, Drop)]
pub struct NodeFormula {
    pub node: u32,
    pub formula: Option<Formula>,
}

/// What a procedure comes to: its exit, its assertions in their order, the nodes that its calls lead
/// from, in the order of the edges, and its points, the entry and then the heads of its loops.
#[derive(Debug, Drop)]
pub struct Flow {
    pub exit: NodeFormula,
    pub checks: Items<NodeFormula>,
    pub calls: Items<NodeFormula>,
    pub points: Items<NodeFormula>,
}
