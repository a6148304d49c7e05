#![tactic(auto, using(syntax_tree::proofs::SourceExprs::source_exprs, crate::proofs::Steps::steps))]

ghost use Rattle.std.specs.Prelude.{◌≡◌, ◌+◌, [], ◌∷◌, ◌++◌, IfOk, OnOk, false, length, pos};
ghost use Rattle.syntax_tree.specs.SourceExpr.{source_expr_of, source_exprs_of};
ghost use Rattle.syntax_tree.specs.Term.{term_of};
ghost use Rattle.typing.specs.CallFaults.{act_faults, all_expression_faults, argument_faults, expression_faults, first_truth_faults, number_faults, special_faults, statement_call_faults};
ghost use Rattle.typing.specs.Calls.{act_checks, callee_asserts, act_in, all_calls_in, calls_in, condition_of, if_assertion, listed_if, put_temporaries, special_statements, act_statements};
ghost use Rattle.typing.specs.Env.{with_assertions, with_columns_taken};
ghost use Rattle.typing.specs.Faults.{least_of};
ghost use Rattle.typing.specs.Scopes.{callee_of};
ghost use Rattle.typing.specs.Specials.{is_assertion, special_of};
ghost use Rattle.typing.specs.Terms.{all_temporaries, temporaries, terms_in};

use crate::callee::{Callee, may_call};
use crate::elaborator::Elaborator;
use crate::error::{Limited, TypeError};
use crate::expression::{note_joint, place_of};
use crate::least::note_if;
use crate::put::has_many_ways;
use crate::special::Special;
use items::Items;
use std::alloc::AllocError;
use syntax_tree::{Core, Expr, MOST_CHECKS, Name, Stmt};

/// The condition of an assertion or assumption: its first argument.
fn condition_of(terms: Items<Core>) -> Core
    ensures { result ≡ condition_of terms }
{
    match terms.into_iter().next() {
        Some(term) => term,
        None => Core::Lit(0),
    }
}

// The condition may have too many cases of its truth or of its falsity.
fn note_condition(least: &mut Option<TypeError>, args: &[Expr], cond: &Core)
    ensures { least.new
        ≡ least_of least.old (first_truth_faults (cond.now ∷ []) (source_exprs_of args.now)) }
{
    match args {
        [] => {}
        [first, ..] => {
            let many = has_many_ways(cond);
            let fault = TypeError::Many(Limited::Cases, place_of(first));
            note_if(least, many, fault);
        }
    }
}

impl Elaborator {
    /// A call that is a statement by itself.
    pub(crate) fn act(&mut self, e: &Expr, out: &mut Items<Stmt>) -> Result<(), AllocError>
        ensures statements { OnOk result
            (out.new ≡ out.old ++ act_in self.old.env (source_expr_of e.now)) }
        ensures env { OnOk result
            (self.new.env ≡ with_assertions (length (act_checks (source_expr_of e.now)))
            (with_columns_taken (put_temporaries (source_expr_of e.now)) self.old.env)) }
        ensures least { OnOk result
            (self.new.least
            ≡ least_of self.old.least (act_faults self.old.env (source_expr_of e.now))) }
    {
        match e {
            Expr::Call(at, name, args) => self.act_call(*at, name, args.as_slice(), out),
            Expr::Lit(_, _) => self.calls_alone(e, out),
            Expr::Var(_, _) => self.calls_alone(e, out),
            Expr::Unary(_, _, _) => self.calls_alone(e, out),
            Expr::Binary(_, _, _, _) => self.calls_alone(e, out),
        }
    }

    // What the name of a call means that is a statement by itself.
    fn statement_callee(&mut self, at: u32, name: &Name, count: usize) -> Callee
        ensures callee { result ≡ callee_of self.old.env.scopes name.now }
        ensures env { self.new.env ≡ self.old.env }
        ensures least { self.new.least
            ≡ least_of self.old.least
            (statement_call_faults (callee_of self.old.env.scopes name.now) at name.now count) }
    {
        let callee = self.env.callee_of(name);
        match callee {
            Callee::Special(special) => {
                let wrong = special.arguments() != count;
                note_if(&mut self.least, wrong, TypeError::Arity(at));
            }
            Callee::Own(signature) => {
                let wrong = !may_call(signature, name, count);
                note_if(&mut self.least, wrong, TypeError::Arity(at));
            }
            Callee::Nobody => note_if(&mut self.least, true, TypeError::Unknown(at)),
        }
        callee
    }

    fn act_call(
        &mut self,
        at: u32,
        name: &Name,
        args: &[Expr],
        out: &mut Items<Stmt>,
    ) -> Result<(), AllocError>
        ensures statements { OnOk result
            (out.new ≡ out.old
            ++ (all_calls_in self.old.env (source_exprs_of args.now) ++ act_statements
            (self.old.env.number + 1) (callee_of self.old.env.scopes name.now)
            (terms_in self.old.env (source_exprs_of args.now)))) }
        ensures env { OnOk result
            (self.new.env
            ≡ with_assertions (length (listed_if (if_assertion (special_of name.now)) at))
            (with_columns_taken (all_temporaries (source_exprs_of args.now)) self.old.env)) }
        ensures least { OnOk result
            (self.new.least
            ≡ least_of self.old.least
            (statement_call_faults (callee_of self.old.env.scopes name.now) at name.now
            (length args.now) ++ all_expression_faults self.old.env false (source_exprs_of args.now)
            ++ argument_faults self.old.env.number
            (terms_in self.old.env (source_exprs_of args.now))
            (callee_of self.old.env.scopes name.now) at (source_exprs_of args.now))) }
    {
        let callee = self.statement_callee(at, name, args.len());
        let terms = self.expressions(args, false, out)?;
        self.push_call(callee, at, args, terms, out)
    }

    // The statement itself, once its arguments are made.
    fn push_call(
        &mut self,
        callee: Callee,
        at: u32,
        args: &[Expr],
        terms: Items<Core>,
        out: &mut Items<Stmt>,
    ) -> Result<(), AllocError>
        ensures statements { OnOk result
            (out.new ≡ out.old ++ act_statements (self.old.env.number + 1) callee terms) }
        ensures env { OnOk result
            (self.new.env ≡ with_assertions (length (listed_if (callee_asserts callee) at))
            self.old.env) }
        ensures least { OnOk result
            (self.new.least
            ≡ least_of self.old.least
            (argument_faults self.old.env.number terms callee at (source_exprs_of args.now))) }
    {
        match callee {
            Callee::Special(special) => self.special(special, at, args, terms, out),
            Callee::Own(signature) => {
                note_joint(&mut self.least, args, terms.as_slice());
                out.push(Stmt::Call {
                    proc: signature.number,
                    args: terms,
                    into: None,
                })?;
                Ok(())
            }
            Callee::Nobody => {
                note_joint(&mut self.least, args, terms.as_slice());
                out.push(Stmt::Call {
                    proc: 0,
                    args: terms,
                    into: None,
                })?;
                Ok(())
            }
        }
    }

    fn special(
        &mut self,
        special: Special,
        at: u32,
        args: &[Expr],
        terms: Items<Core>,
        out: &mut Items<Stmt>,
    ) -> Result<(), AllocError>
        ensures statements { OnOk result
            (out.new ≡ out.old ++ special_statements (self.old.env.number + 1) special terms) }
        ensures env { OnOk result
            (self.new.env ≡ with_assertions (length (listed_if (is_assertion special) at))
            self.old.env) }
        ensures least { OnOk result
            (self.new.least
            ≡ least_of self.old.least
            (special_faults self.old.env.number terms special at (source_exprs_of args.now))) }
    {
        match special {
            Special::Assert => self.check(at, args, condition_of(terms), out),
            Special::Assume => self.guard(args, condition_of(terms), out),
            Special::Nondet => Ok(()),
            Special::Error => self.failure(at, out),
            Special::Abort | Special::Exit => {
                out.push(Stmt::Guard { cond: Core::Lit(0) })?;
                Ok(())
            }
        }
    }

    fn check(
        &mut self,
        at: u32,
        args: &[Expr],
        cond: Core,
        out: &mut Items<Stmt>,
    ) -> Result<(), AllocError>
        ensures statements { OnOk result
            (out.new ≡ out.old ++ Stmt.Check (self.old.env.number + 1) cond ∷ []) }
        ensures env { OnOk result (self.new.env ≡ with_assertions 1 self.old.env) }
        ensures least { OnOk result
            (self.new.least
            ≡ least_of self.old.least
            (number_faults self.old.env.number at ++ first_truth_faults (cond ∷ [])
            (source_exprs_of args.now))) }
    {
        let number = self.assertion(at)?;
        note_condition(&mut self.least, args, &cond);
        out.push(Stmt::Check { number, cond })?;
        Ok(())
    }

    fn guard(&mut self, args: &[Expr], cond: Core, out: &mut Items<Stmt>) -> Result<(), AllocError>
        ensures statements { OnOk result (out.new ≡ out.old ++ Stmt.Guard cond ∷ []) }
        ensures env { self.new.env ≡ self.old.env }
        ensures least { self.new.least
            ≡ least_of self.old.least (first_truth_faults (cond ∷ []) (source_exprs_of args.now)) }
    {
        note_condition(&mut self.least, args, &cond);
        out.push(Stmt::Guard { cond })?;
        Ok(())
    }

    // An assertion that nothing meets.
    fn failure(&mut self, at: u32, out: &mut Items<Stmt>) -> Result<(), AllocError>
        ensures statements { OnOk result
            (out.new ≡ out.old ++ Stmt.Check (self.old.env.number + 1) (Core.Lit (pos 0)) ∷ []) }
        ensures env { OnOk result (self.new.env ≡ with_assertions 1 self.old.env) }
        ensures least { OnOk result
            (self.new.least ≡ least_of self.old.least (number_faults self.old.env.number at)) }
    {
        let number = self.assertion(at)?;
        let cond = Core::Lit(0);
        out.push(Stmt::Check { number, cond })?;
        Ok(())
    }

    // The next assertion may be one too many.
    fn assertion(&mut self, at: u32) -> Result<u32, AllocError>
        ensures number { IfOk result (λ number. number ≡ self.old.env.number + 1) }
        ensures env { OnOk result (self.new.env ≡ with_assertions 1 self.old.env) }
        ensures least { OnOk result
            (self.new.least ≡ least_of self.old.least (number_faults self.old.env.number at)) }
    {
        let is_full = self.env.number as usize == MOST_CHECKS;
        note_if(
            &mut self.least,
            is_full,
            TypeError::Many(Limited::Assertions, at),
        );
        self.env.number_next()
    }

    // No grammar has another expression than a call here.
    fn calls_alone(&mut self, e: &Expr, out: &mut Items<Stmt>) -> Result<(), AllocError>
        ensures statements { OnOk result
            (out.new ≡ out.old ++ calls_in self.old.env (source_expr_of e.now)) }
        ensures env { OnOk result
            (self.new.env
            ≡ with_assertions 0
            (with_columns_taken (temporaries (source_expr_of e.now)) self.old.env)) }
        ensures least { OnOk result
            (self.new.least
            ≡ least_of self.old.least
            (expression_faults self.old.env false (source_expr_of e.now))) }
    {
        let _ = self.expression(e, false, out)?;
        Ok(())
    }
}
