//! What rows that are read say. Each law is the contract of a function that does nothing.
ghost use Rattle.point_rows.specs.Laws.{ContrariesDecide, ContrariesExclude, ContrariesHold, GivenRowsAreCanonical, GivenRowsFit, GivenRowsHold};
ghost use Rattle.point_rows.specs.ExitLaws.{CalleesStayKnown, ExitCallsAreKnown, ExitFormulasAreKnown, ExitRowsAreMet};

/// Where the posts have the numbers of a state, rows that are true of the state are true as they
/// are read, and one of the contraries of a row is true exactly where the row is not.
pub fn read_rows_hold()
    ensures given { GivenRowsHold }
    ensures decide { ContrariesDecide }
    ensures contrary { ContrariesHold }
    ensures exclude { ContrariesExclude }
{}

/// Rows that are given have no columns but those of the posts and of the own rows, and their
/// monomials stand in print order.
pub fn given_rows_fit()
    ensures columns { GivenRowsFit }
    ensures canonical { GivenRowsAreCanonical }
{}

/// Calls by the known formulas are calls by those with rows at exits, where these rows are true of
/// them, and such calls are known ones; the formulas stay known.
pub fn exit_rows_are_met()
    ensures met { ExitRowsAreMet }
    ensures calls { ExitCallsAreKnown }
    ensures formulas { ExitFormulasAreKnown }
    ensures callees { CalleesStayKnown }
{}
