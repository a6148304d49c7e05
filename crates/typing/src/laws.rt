//! Laws of the definitions. Each is the contract of a function that does nothing.
ghost use Rattle.typing.specs.Elaborates.{ElaborationAnswers, ElaborationIsUnique};

/// A tree has one program at most, and it has one exactly where it has no fault.
pub fn elaborations_are_unique()
    ensures { ElaborationIsUnique }
{}

/// What `elaborate` is stated to come to is a tree's program exactly where the tree has that
/// program.
pub fn elaborations_are_answered()
    ensures { ElaborationAnswers }
{}
