use crate::Verdict;
use items::Items;
use posing::Note;
use syntax_tree::Name;
use transition_formula::Formula;

/// The summary of a procedure: `before` names its columns at entry, the globals and then the
/// parameters, and `after` those at exit, the globals; an exit column past these is the returned
/// value. The notes are those of the procedure's group, where it is the group's first procedure in
/// the text.
#[derive(Debug, Drop)]
pub struct ProcBlock {
    pub name: Name,
    pub before: Items<Name>,
    pub after: Items<Name>,
    pub formula: Formula,
    pub notes: Items<Note>,
}

/// An assertion, at a byte offset, and the line and column of that, from 1; the named columns of
/// its procedure with their numbers, one for each post of a case that refutes it; its verdict, and
/// the notes of finding that.
#[derive(Debug, Drop)]
pub struct Judged {
    pub at: u32,
    pub line: u32,
    pub column: u32,
    pub named: Items<Name>,
    pub shown: Items<u32>,
    pub verdict: Verdict,
    pub notes: Items<Note>,
}

/// What is printed of a text: its procedures in the order of the text, the notes of their entries,
/// and its assertions in the order of the text.
#[derive(Debug, Drop)]
pub struct Report {
    pub procs: Items<ProcBlock>,
    pub notes: Items<Note>,
    pub judged: Items<Judged>,
}
