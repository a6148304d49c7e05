//! Each law is the contract of a function that does nothing.
ghost use Rattle.point_rounds.specs.Chains.{CalledStandOnChains, MainStandsOnChain};
ghost use Rattle.point_rounds.specs.Laws.{ClosedTablesAreTrue, LastRoundsKeep};

/// As `main` begins it is on top of a stack from `main`; and where an activation on top of such a
/// stack comes to a call, whatever the called procedure begins with is on top of one.
pub fn called_stand_on_chains()
    ensures called { CalledStandOnChains }
    ensures main { MainStandsOnChain }
{}

/// The rows of a table that the steps from all points keep are true in every execution from `main`.
pub fn closed_tables_are_true()
    ensures { ClosedTablesAreTrue }
{}

/// What the last round leaves of a table is one, which its steps keep.
pub fn last_rounds_keep()
    ensures { LastRoundsKeep }
{}
