#![tactic(auto, using(syntax_tree::proofs::SourceExprs::source_exprs, crate::proofs::Steps::steps))]

ghost use Rattle.std.specs.Prelude.{◌≡◌, ◌+◌, [], ◌∷◌, ◌++◌, IfOk, OnOk, false, length};
ghost use Rattle.syntax_tree.specs.SourceExpr.{source_expr_of, source_exprs_of};
ghost use Rattle.syntax_tree.specs.Term.{term_of};
ghost use Rattle.typing.specs.CallFaults.{all_expression_faults, condition_faults, expression_faults, has_many_ways, joint_faults, put_faults, truth_faults, value_call_faults, value_faults};
ghost use Rattle.typing.specs.Calls.{all_calls_in, call_statement, calls_in, put_in, put_temporaries};
ghost use Rattle.typing.specs.Env.{with_columns_taken};
ghost use Rattle.typing.specs.Faults.{least_of};
ghost use Rattle.typing.specs.Scopes.{callee_of};
ghost use Rattle.typing.specs.Terms.{all_temporaries, temporaries, term_in, terms_in};

use crate::elaborator::Elaborator;
use crate::error::{Limited, TypeError};
use crate::expression::{call_statement, place_of};
use crate::least::note_if;
use items::Items;
use std::alloc::AllocError;
use syntax_tree::{Core, Expr, MOST_CASES, Name, Stmt, count_cases};

impl Elaborator {
    /// Puts the value of a whole right side into a column.
    pub(crate) fn put(
        &mut self,
        col: u32,
        e: &Expr,
        out: &mut Items<Stmt>,
    ) -> Result<(), AllocError>
        ensures statements { OnOk result
            (out.new ≡ out.old ++ put_in self.old.env col (source_expr_of e.now)) }
        ensures env { OnOk result
            (self.new.env ≡ with_columns_taken (put_temporaries (source_expr_of e.now))
            self.old.env) }
        ensures least { OnOk result
            (self.new.least
            ≡ least_of self.old.least (put_faults self.old.env (source_expr_of e.now))) }
    {
        match e {
            Expr::Call(at, name, args) => self.put_call(col, *at, name, args.as_slice(), out),
            Expr::Lit(_, _) => self.set(col, e, out),
            Expr::Var(_, _) => self.set(col, e, out),
            Expr::Unary(_, _, _) => self.set(col, e, out),
            Expr::Binary(_, _, _, _) => self.set(col, e, out),
        }
    }

    // a call goes into the column itself
    fn put_call(
        &mut self,
        col: u32,
        at: u32,
        name: &Name,
        args: &[Expr],
        out: &mut Items<Stmt>,
    ) -> Result<(), AllocError>
        ensures statements { OnOk result
            (out.new ≡ out.old
            ++ (all_calls_in self.old.env (source_exprs_of args.now) ++ call_statement
            (callee_of self.old.env.scopes name.now)
            (terms_in self.old.env (source_exprs_of args.now)) col ∷ [])) }
        ensures env { OnOk result
            (self.new.env ≡ with_columns_taken (all_temporaries (source_exprs_of args.now))
            self.old.env) }
        ensures least { OnOk result
            (self.new.least
            ≡ least_of self.old.least
            (value_call_faults (callee_of self.old.env.scopes name.now) false at name.now
            (length args.now) ++ all_expression_faults self.old.env false (source_exprs_of args.now)
            ++ joint_faults self.old.env (source_exprs_of args.now))) }
    {
        let callee = self.value_callee(at, name, args.len(), false);
        let terms = self.arguments(args, false, out)?;
        out.push(call_statement(callee, terms, col))?;
        Ok(())
    }

    fn set(&mut self, col: u32, e: &Expr, out: &mut Items<Stmt>) -> Result<(), AllocError>
        ensures statements { OnOk result
            (out.new ≡ out.old
            ++ (calls_in self.old.env (source_expr_of e.now)
            ++ Stmt.Set col (term_in self.old.env (source_expr_of e.now)) ∷ [])) }
        ensures env { OnOk result
            (self.new.env ≡ with_columns_taken (temporaries (source_expr_of e.now)) self.old.env) }
        ensures least { OnOk result
            (self.new.least
            ≡ least_of self.old.least
            (expression_faults self.old.env false (source_expr_of e.now)
            ++ value_faults self.old.env (source_expr_of e.now))) }
    {
        let value = self.expression(e, false, out)?;
        let many = count_cases(&value).value > MOST_CASES;
        let fault = TypeError::Many(Limited::Cases, place_of(e));
        note_if(&mut self.least, many, fault);
        out.push(Stmt::Set { col, value })?;
        Ok(())
    }

    /// A condition, whose truth or falsity may have too many cases.
    pub(crate) fn condition(&mut self, e: &Expr, out: &mut Items<Stmt>) -> Result<Core, AllocError>
        ensures term { IfOk result (λ term. term ≡ term_in self.old.env (source_expr_of e.now)) }
        ensures calls { OnOk result
            (out.new ≡ out.old ++ calls_in self.old.env (source_expr_of e.now)) }
        ensures env { OnOk result
            (self.new.env ≡ with_columns_taken (temporaries (source_expr_of e.now)) self.old.env) }
        ensures least { OnOk result
            (self.new.least
            ≡ least_of self.old.least (condition_faults self.old.env (source_expr_of e.now))) }
    {
        let cond = self.expression(e, false, out)?;
        let many = has_many_ways(&cond);
        let fault = TypeError::Many(Limited::Cases, place_of(e));
        note_if(&mut self.least, many, fault);
        Ok(cond)
    }
}

/// Whether a condition has too many cases of its truth or of its falsity.
pub(crate) fn has_many_ways(cond: &Core) -> bool
    ensures { result ≡ has_many_ways (term_of cond.now) }
{
    let cases = count_cases(cond);
    cases.truth > MOST_CASES || cases.falsity > MOST_CASES
}
