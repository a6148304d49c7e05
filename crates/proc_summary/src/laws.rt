//! Each law is the contract of a function that does nothing.
ghost use Rattle.proc_summary.specs.Alike.{AlikeProcsAreOne};

/// Procedures that are alike have one subject and the same ends, so one flow and one summary.
pub fn alike_procedures_are_one()
    ensures { AlikeProcsAreOne }
{}
