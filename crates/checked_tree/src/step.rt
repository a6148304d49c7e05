use polyhedra::{Log, Vocabulary};
use std::rc::Rc;
use transition_formula::Formula;

/// A step of an evaluation: by which operation on which steps it came, what holds between the
/// states at its two ends, and what this operation alone noted and was answered.
#[cycle(step)]
#[derive(Debug, Drop)]
pub struct TreeStep {
    pub from: Rc<Vocabulary>,
    pub to: Rc<Vocabulary>,
    pub node: Node,
    pub formula: Formula,
    pub log: Log,
}

/// The operation of a step. A leaf has its link's number and the formula that it was given.
#[cycle(step)]
#[derive(Debug, Drop)]
pub enum Node {
    Leaf(u32, Formula),
    Seq(Rc<TreeStep>, Rc<TreeStep>),
    Join(Rc<TreeStep>, Rc<TreeStep>),
    Star(Rc<TreeStep>),
}
