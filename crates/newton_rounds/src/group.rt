use crate::ends::PairEnds;
use syntax_tree::Program;
use transition_formula::Formula;

/// A group of procedures of a program, by their numbers, the ends of each, and the formula that is
/// known of each procedure of the program.
#[derive(Clone, Copy)]
pub(crate) struct GroupInRounds<'a> {
    pub(crate) program: &'a Program,
    pub(crate) procs: &'a [u32],
    pub(crate) members: &'a [PairEnds],
    pub(crate) known: &'a [Option<Formula>],
}
