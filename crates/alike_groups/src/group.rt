use syntax_tree::Program;
use transition_formula::Formula;

/// A group of procedures of a program, by their numbers, and the formula that is known of each
/// procedure of the program.
#[derive(Clone, Copy)]
pub struct KnownGroup<'p> {
    pub program: &'p Program,
    pub procs: &'p [u32],
    pub known: &'p [Option<Formula>],
}
