/// An operation: a link's number, or the numbers of the paths that are its operands.
#[derive(Clone, Copy, Debug, PartialEq, Eq, Hash)]
pub enum Key {
    Edge(u32),
    Seq(usize, usize),
    Join(usize, usize),
    Star(usize),
}
