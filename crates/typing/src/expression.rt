#![tactic(auto, using(syntax_tree::proofs::SourceExprs::source_exprs, crate::proofs::Steps::steps))]

ghost use Rattle.std.specs.Prelude.{◌≡◌, ◌+◌, [], ◌∷◌, ◌++◌, ◌||◌, IfOk, OnOk, length, map};
ghost use Rattle.syntax_tree.specs.SourceExpr.{source_expr_of, source_exprs_of};
ghost use Rattle.typing.specs.CallFaults.{all_expression_faults, expression_faults, is_logical, joint_faults, many_together, slot_faults, value_call_faults, variable_faults};
ghost use Rattle.typing.specs.Calls.{all_calls_in, call_statement, calls_in};
ghost use Rattle.typing.specs.Env.{with_columns_taken};
ghost use Rattle.typing.specs.Faults.{least_of};
ghost use Rattle.typing.specs.Scopes.{callee_of, column_of};
ghost use Rattle.typing.specs.Terms.{all_temporaries, place_of, temporaries, term_in, terms_in};

use crate::callee::{Callee, may_call};
use crate::elaborator::Elaborator;
use crate::error::{Limited, TypeError};
use crate::least::note_if;
use items::{Boxed, Items};
use std::alloc::{AllocError, Global};
use syntax_tree::{Core, Expr, MOST_CASES, Name, Op, Sign, Stmt, joint_cases};

/// The place of an expression.
pub(crate) fn place_of(e: &Expr) -> u32
    ensures { result ≡ place_of (source_expr_of e.now) }
{
    match e {
        Expr::Lit(at, _) => *at,
        Expr::Var(at, _) => *at,
        Expr::Call(at, _, _) => *at,
        Expr::Unary(at, _, _) => *at,
        Expr::Binary(at, _, _, _) => *at,
    }
}

fn is_logical(op: Op) -> bool
    ensures { result ≡ is_logical op }
{
    match op {
        Op::And | Op::Or => true,
        Op::Add | Op::Sub | Op::Mul | Op::Div | Op::Rem => false,
        Op::Lt | Op::Le | Op::Gt | Op::Ge | Op::Eq | Op::Ne => false,
    }
}

/// Whether the right operand of an operator stands in one of `&&` or `||`; `right` is of the left.
fn is_right(right: bool, op: Op) -> bool
    ensures { result ≡ (right || is_logical op) }
{
    right || is_logical(op)
}

/// The statement of a call whose value goes into a column.
pub(crate) fn call_statement(callee: Callee, args: Items<Core>, col: u32) -> Stmt
    ensures { result ≡ call_statement callee args col }
{
    match callee {
        Callee::Special(_) => Stmt::Any { col },
        Callee::Own(signature) => Stmt::Call {
            proc: signature.number,
            args,
            into: Some(col),
        },
        Callee::Nobody => Stmt::Call {
            proc: 0,
            args,
            into: Some(col),
        },
    }
}

fn unary(alloc: Global, sign: Sign, inner: Core) -> Result<Core, AllocError>
    ensures { IfOk result (λ term. term ≡ Core.Unary sign inner) }
{
    let inner = Boxed::new(alloc, inner)?;
    Ok(Core::Unary(sign, inner))
}

fn binary(alloc: Global, op: Op, left: Core, right: Core) -> Result<Core, AllocError>
    ensures { IfOk result (λ term. term ≡ Core.Binary op left right) }
{
    let left = Boxed::new(alloc, left)?;
    let right = Boxed::new(alloc, right)?;
    Ok(Core::Binary(op, left, right))
}

/// Arguments may have too many cases together, which is told at the first of them.
pub(crate) fn note_joint(least: &mut Option<TypeError>, args: &[Expr], terms: &[Core])
    ensures { least.new ≡ least_of least.old (many_together terms.now (source_exprs_of args.now)) }
{
    match args {
        [] => {}
        [first, ..] => {
            let many = joint_cases(terms) > MOST_CASES;
            let fault = TypeError::Many(Limited::Cases, place_of(first));
            note_if(least, many, fault);
        }
    }
}

impl Elaborator {
    /// The column of a variable; a name that means none is noted.
    pub(crate) fn variable(&mut self, at: u32, name: &Name) -> u32
        ensures col { result ≡ column_of self.old.env.scopes name.now }
        ensures env { self.new.env ≡ self.old.env }
        ensures least { self.new.least
            ≡ least_of self.old.least (variable_faults self.old.env at name.now) }
    {
        let variable = self.env.variable_of(name);
        note_if(&mut self.least, variable.is_none(), TypeError::Unknown(at));
        variable.unwrap_or(0)
    }

    /// What the name of a call means whose value is wanted.
    pub(crate) fn value_callee(&mut self, at: u32, name: &Name, count: usize, right: bool) -> Callee
        ensures callee { result ≡ callee_of self.old.env.scopes name.now }
        ensures env { self.new.env ≡ self.old.env }
        ensures least { self.new.least
            ≡ least_of self.old.least
            (value_call_faults (callee_of self.old.env.scopes name.now) right at name.now count) }
    {
        let callee = self.env.callee_of(name);
        match callee {
            Callee::Special(special) => {
                let wrong = special.arguments() != count;
                note_if(&mut self.least, wrong, TypeError::Arity(at));
                note_if(
                    &mut self.least,
                    !special.has_value(),
                    TypeError::VoidValue(at),
                );
            }
            Callee::Own(signature) => {
                let wrong = !may_call(signature, name, count);
                note_if(&mut self.least, wrong, TypeError::Arity(at));
                note_if(
                    &mut self.least,
                    !signature.returns,
                    TypeError::VoidValue(at),
                );
                note_if(&mut self.least, right, TypeError::CallPlace(at));
            }
            Callee::Nobody => note_if(&mut self.least, true, TypeError::Unknown(at)),
        }
        callee
    }

    /// A new temporary, which may be one too many.
    fn temporary(&mut self, at: u32) -> Result<u32, AllocError>
        ensures col { IfOk result (λ col. col ≡ self.old.env.next) }
        ensures env { OnOk result (self.new.env ≡ with_columns_taken 1 self.old.env) }
        ensures least { OnOk result
            (self.new.least ≡ least_of self.old.least (slot_faults self.old.env at)) }
    {
        let is_full = self.env.next == self.env.full;
        note_if(
            &mut self.least,
            is_full,
            TypeError::Many(Limited::Slots, at),
        );
        self.env.take()
    }

    // The column into which a call puts its value: a new temporary.
    fn column_of_call(
        &mut self,
        at: u32,
        callee: Callee,
        args: Items<Core>,
        out: &mut Items<Stmt>,
    ) -> Result<u32, AllocError>
        ensures col { IfOk result (λ col. col ≡ self.old.env.next) }
        ensures calls { OnOk result
            (out.new ≡ out.old ++ call_statement callee args self.old.env.next ∷ []) }
        ensures env { OnOk result (self.new.env ≡ with_columns_taken 1 self.old.env) }
        ensures least { OnOk result
            (self.new.least ≡ least_of self.old.least (slot_faults self.old.env at)) }
    {
        let col = self.temporary(at)?;
        out.push(call_statement(callee, args, col))?;
        Ok(col)
    }

    /// The expression of the core; the statements of its calls are added. `right` says whether it
    /// stands in the right operand of `&&` or `||`.
    #[cycle(expression)]
    pub(crate) fn expression(
        &mut self,
        e: &Expr,
        right: bool,
        out: &mut Items<Stmt>,
    ) -> Result<Core, AllocError>
        ensures term { IfOk result (λ term. term ≡ term_in self.old.env (source_expr_of e.now)) }
        ensures calls { OnOk result
            (out.new ≡ out.old ++ calls_in self.old.env (source_expr_of e.now)) }
        ensures env { OnOk result
            (self.new.env ≡ with_columns_taken (temporaries (source_expr_of e.now)) self.old.env) }
        ensures least { OnOk result
            (self.new.least
            ≡ least_of self.old.least
            (expression_faults self.old.env right (source_expr_of e.now))) }
    {
        match e {
            Expr::Lit(_, value) => Ok(Core::Lit(*value)),
            Expr::Var(at, name) => Ok(Core::Col(self.variable(*at, name))),
            Expr::Call(at, name, args) => {
                let callee = self.value_callee(*at, name, args.len(), right);
                let terms = self.arguments(args.as_slice(), right, out)?;
                let col = self.column_of_call(*at, callee, terms, out)?;
                Ok(Core::Col(col))
            }
            Expr::Unary(_, sign, inner) => {
                let inner = self.expression(inner, right, out)?;
                unary(self.alloc, *sign, inner)
            }
            Expr::Binary(_, op, left, rest) => {
                let left = self.expression(left, right, out)?;
                let rest = self.expression(rest, is_right(right, *op), out)?;
                binary(self.alloc, *op, left, rest)
            }
        }
    }

    /// The arguments of a call, which may have too many cases together.
    #[cycle(expression)]
    pub(crate) fn arguments(
        &mut self,
        args: &[Expr],
        right: bool,
        out: &mut Items<Stmt>,
    ) -> Result<Items<Core>, AllocError>
        ensures terms { IfOk result
            (λ terms. terms ≡ terms_in self.old.env (source_exprs_of args.now)) }
        ensures calls { OnOk result
            (out.new ≡ out.old ++ all_calls_in self.old.env (source_exprs_of args.now)) }
        ensures env { OnOk result
            (self.new.env ≡ with_columns_taken (all_temporaries (source_exprs_of args.now))
            self.old.env) }
        ensures least { OnOk result
            (self.new.least
            ≡ least_of self.old.least
            (all_expression_faults self.old.env right (source_exprs_of args.now)
            ++ joint_faults self.old.env (source_exprs_of args.now))) }
    {
        let terms = self.expressions(args, right, out)?;
        note_joint(&mut self.least, args, terms.as_slice());
        Ok(terms)
    }

    /// Several expressions, in their order.
    #[cycle(expression)]
    pub(crate) fn expressions(
        &mut self,
        args: &[Expr],
        right: bool,
        out: &mut Items<Stmt>,
    ) -> Result<Items<Core>, AllocError>
        ensures terms { IfOk result
            (λ terms. terms ≡ terms_in self.old.env (source_exprs_of args.now)) }
        ensures calls { OnOk result
            (out.new ≡ out.old ++ all_calls_in self.old.env (source_exprs_of args.now)) }
        ensures env { OnOk result
            (self.new.env ≡ with_columns_taken (all_temporaries (source_exprs_of args.now))
            self.old.env) }
        ensures least { OnOk result
            (self.new.least
            ≡ least_of self.old.least
            (all_expression_faults self.old.env right (source_exprs_of args.now))) }
    {
        let mut terms = Items::new(self.alloc);
        for arg in args {
            let term = self.expression(arg, right, out)?;
            terms.push(term)?;
        }
        Ok(terms)
    }
}
