ghost use Rattle.std.specs.Prelude.{◌≡◌, ◌+◌, ◌↔◌, length, IfOk, IsTrue};
ghost use Rattle.syntax_tree.specs.Cases.{at_most, cases_of};
ghost use Rattle.syntax_tree.specs.Limits.{most_cases};
ghost use Rattle.syntax_tree.specs.Term.{term_of};
ghost use Rattle.syntax_tree.specs.Value.{evaluation_result, value_of};
ghost use Rattle.syntax_tree.specs.WellFormed.{columns_below, IsWellFormed};

use syntax_tree::{Cases, Core, EvalWide, Program};

/// The value of an expression in a state.
pub fn eval(e: &Core, state: &[i128]) -> Result<Option<i128>, EvalWide>
    requires { IsTrue (columns_below (length state.now) (term_of e.now)) }
    ensures exact { result ≡ evaluation_result (term_of e.now) state.now }
    ensures value { IfOk result (λ v. v ≡ value_of (term_of e.now) state.now) }
{
    syntax_tree::eval(e, state)
}

/// The cases of an expression.
pub fn count_cases(e: &Core) -> Cases
    ensures { result ≡ at_most (most_cases + 1) (cases_of (term_of e.now)) }
{
    syntax_tree::count_cases(e)
}

/// Whether a program is well formed.
pub fn is_well_formed(program: &Program) -> bool
    ensures { IsTrue result ↔ IsWellFormed program.now }
{
    program.is_well_formed()
}
