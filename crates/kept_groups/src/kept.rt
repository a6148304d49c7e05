use analysis::{GroupSummaries, Planned};
use items::Items;
use posing::{Note, SharedAnswer};
use syntax_tree::Program;

/// What is kept of a group: a summary and a flow for each of its procedures, in their order, the
/// notes of finding these, in which a procedure is told by its place in the group, and the answers
/// that led to them, in the order of their questions.
#[derive(Debug, Drop)]
pub struct KeptPart {
    pub summaries: GroupSummaries,
    pub notes: Items<Note>,
    pub answers: Items<SharedAnswer>,
}

/// What is kept of a program: its plan, and a part for each group of the plan.
#[derive(Drop)]
pub struct KeptGroups {
    pub program: Program,
    pub plan: Items<Planned>,
    pub parts: Items<KeptPart>,
}
