//! Each law is the contract of a function that does nothing.
ghost use Rattle.context.specs.Laws.{AssertionsHold};

/// An assertion whose condition is false in no state that leads to it never fails.
pub fn assertions_hold()
    ensures { AssertionsHold }
{}
