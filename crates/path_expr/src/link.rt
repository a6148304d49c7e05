/// A link of a graph, from one node to another. Links go by their numbers in a list, from 0.
#[derive(Clone, Copy, Debug, PartialEq, Eq)]
pub struct Link {
    pub from: u32,
    pub to: u32,
}
