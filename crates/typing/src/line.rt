#![tactic(auto, using(syntax_tree::proofs::SourceLines::source_lines, crate::proofs::Steps::steps))]

ghost use Rattle.std.specs.Prelude.{◌≡◌, ◌+◌, [], ◌∷◌, ◌++◌, IfOk, OnOk, true, false, length};
ghost use Rattle.std.specs.Option.{option_map};
ghost use Rattle.syntax_tree.specs.SourceExpr.{source_expr_of};
ghost use Rattle.syntax_tree.specs.SourceLine.{If, Loop, source_line_of, source_lines_of};
ghost use Rattle.typing.specs.CallFaults.{condition_faults, put_faults, variable_faults};
ghost use Rattle.typing.specs.Calls.{calls_in, put_in, put_temporaries};
ghost use Rattle.typing.specs.Env.{without_scope, with_variable, with_scope, with_place, with_columns_taken};
ghost use Rattle.typing.specs.Faults.{least_of};
ghost use Rattle.typing.specs.LineFaults.{all_faults_in, declare_faults, faults_in, init_faults, leave_faults, return_faults};
ghost use Rattle.typing.specs.Scopes.{column_of};
ghost use Rattle.typing.specs.Terms.{temporaries, term_in};
ghost use Rattle.typing.specs.Lines.{after, after_all, all_statements_of, behind_body, in_body, in_step, local_statements, statements_of, value_statements, with_value};

use crate::elaborator::Elaborator;
use crate::env::LoopPlace;
use crate::error::{Limited, TypeError};
use crate::least::note_if;
use crate::special::special_of;
use items::Items;
use std::alloc::AllocError;
use syntax_tree::{Core, Expr, Line, Name, Stmt};

fn loop_statement(
    pre: Items<Stmt>,
    cond: Core,
    body: Items<Stmt>,
    step: Items<Stmt>,
    first: bool,
) -> Stmt
    ensures { result ≡ Stmt.Loop pre cond body step first }
{
    Stmt::Loop {
        pre,
        cond,
        body,
        step,
        first,
    }
}

impl Elaborator {
    /// The statements of lines in their order.
    #[cycle(line)]
    pub(crate) fn lines(&mut self, lines: &[Line], out: &mut Items<Stmt>) -> Result<(), AllocError>
        ensures statements { OnOk result
            (out.new ≡ out.old ++ all_statements_of self.old.env (source_lines_of lines.now)) }
        ensures env { OnOk result
            (self.new.env ≡ after_all self.old.env (source_lines_of lines.now)) }
        ensures least { OnOk result
            (self.new.least
            ≡ least_of self.old.least (all_faults_in self.old.env (source_lines_of lines.now))) }
    {
        for line in lines {
            self.line(line, out)?;
        }
        Ok(())
    }

    #[cycle(line)]
    fn line(&mut self, line: &Line, out: &mut Items<Stmt>) -> Result<(), AllocError>
        ensures statements { OnOk result
            (out.new ≡ out.old ++ statements_of self.old.env (source_line_of line.now)) }
        ensures env { OnOk result (self.new.env ≡ after self.old.env (source_line_of line.now)) }
        ensures least { OnOk result
            (self.new.least
            ≡ least_of self.old.least (faults_in self.old.env (source_line_of line.now))) }
    {
        match line {
            Line::Block(lines) => self.block(lines.as_slice(), out),
            Line::Local { name, at, init } => self.local(name, *at, init, out),
            Line::Assign { name, at, value } => self.assign(name, *at, value, out),
            Line::Act(call) => self.act(call, out),
            Line::If { cond, yes, no } => self.branch(cond, yes.as_slice(), no.as_slice(), out),
            Line::Loop {
                init,
                cond,
                step,
                body,
                first,
            } => {
                let (init, step, body) = (init.as_slice(), step.as_slice(), body.as_slice());
                if *first {
                    self.do_loop(init, cond, step, body, out)
                } else {
                    self.while_loop(init, cond, step, body, out)
                }
            }
            Line::Break(at) => self.leave(*at, Stmt::Break, out),
            Line::Continue(at) => self.leave(*at, Stmt::Continue, out),
            Line::Return { at, value } => self.give_back(*at, value, out),
        }
    }

    #[cycle(line)]
    fn branch(
        &mut self,
        cond: &Expr,
        yes: &[Line],
        no: &[Line],
        out: &mut Items<Stmt>,
    ) -> Result<(), AllocError>
        ensures statements { OnOk result
            (out.new ≡ out.old ++ statements_of self.old.env
            (If (source_expr_of cond.now) (source_lines_of yes.now) (source_lines_of no.now))) }
        ensures env { OnOk result
            (self.new.env
            ≡ after self.old.env
            (If (source_expr_of cond.now) (source_lines_of yes.now) (source_lines_of no.now))) }
        ensures least { OnOk result
            (self.new.least
            ≡ least_of self.old.least
            (faults_in self.old.env
            (If (source_expr_of cond.now) (source_lines_of yes.now) (source_lines_of no.now)))) }
    {
        let cond = self.condition(cond, out)?;
        let yes = self.scope_statements(yes)?;
        let no = self.scope_statements(no)?;
        out.push(Stmt::If { cond, yes, no })?;
        Ok(())
    }

    // A loop that tests first.
    #[cycle(line)]
    fn while_loop(
        &mut self,
        init: &[Line],
        cond: &Expr,
        step: &[Line],
        body: &[Line],
        out: &mut Items<Stmt>,
    ) -> Result<(), AllocError>
        ensures statements { OnOk result
            (out.new ≡ out.old ++ statements_of self.old.env
            (Loop (source_lines_of init.now) (source_expr_of cond.now) (source_lines_of step.now)
            (source_lines_of body.now) false)) }
        ensures env { OnOk result
            (self.new.env
            ≡ after self.old.env
            (Loop (source_lines_of init.now) (source_expr_of cond.now) (source_lines_of step.now)
            (source_lines_of body.now) false)) }
        ensures least { OnOk result
            (self.new.least
            ≡ least_of self.old.least
            (faults_in self.old.env
            (Loop (source_lines_of init.now) (source_expr_of cond.now) (source_lines_of step.now)
            (source_lines_of body.now) false))) }
    {
        let place = self.env.place;
        self.begin_loop(init, out)?;
        let (pre, cond) = self.test(cond)?;
        let step = self.step(step, place)?;
        let body = self.body(body, place)?;
        self.end_loop(loop_statement(pre, cond, body, step, false), out)
    }

    // A loop whose body comes first.
    #[cycle(line)]
    fn do_loop(
        &mut self,
        init: &[Line],
        cond: &Expr,
        step: &[Line],
        body: &[Line],
        out: &mut Items<Stmt>,
    ) -> Result<(), AllocError>
        ensures statements { OnOk result
            (out.new ≡ out.old ++ statements_of self.old.env
            (Loop (source_lines_of init.now) (source_expr_of cond.now) (source_lines_of step.now)
            (source_lines_of body.now) true)) }
        ensures env { OnOk result
            (self.new.env
            ≡ after self.old.env
            (Loop (source_lines_of init.now) (source_expr_of cond.now) (source_lines_of step.now)
            (source_lines_of body.now) true)) }
        ensures least { OnOk result
            (self.new.least
            ≡ least_of self.old.least
            (faults_in self.old.env
            (Loop (source_lines_of init.now) (source_expr_of cond.now) (source_lines_of step.now)
            (source_lines_of body.now) true))) }
    {
        let place = self.env.place;
        self.begin_loop(init, out)?;
        let body = self.body(body, place)?;
        let (pre, cond) = self.test(cond)?;
        let step = self.step(step, place)?;
        self.end_loop(loop_statement(pre, cond, body, step, true), out)
    }

    #[cycle(line)]
    fn block(&mut self, lines: &[Line], out: &mut Items<Stmt>) -> Result<(), AllocError>
        ensures statements { OnOk result
            (out.new ≡ out.old ++ all_statements_of (with_scope self.old.env)
            (source_lines_of lines.now)) }
        ensures env { OnOk result
            (self.new.env
            ≡ without_scope (after_all (with_scope self.old.env) (source_lines_of lines.now))) }
        ensures least { OnOk result
            (self.new.least
            ≡ least_of self.old.least
            (all_faults_in (with_scope self.old.env) (source_lines_of lines.now))) }
    {
        self.env.open(self.alloc)?;
        self.lines(lines, out)?;
        self.env.close();
        Ok(())
    }

    /// The statements of lines in a scope of their own.
    #[cycle(line)]
    fn scope_statements(&mut self, lines: &[Line]) -> Result<Items<Stmt>, AllocError>
        ensures statements { IfOk result
            (λ made. made ≡ all_statements_of (with_scope self.old.env)
            (source_lines_of lines.now)) }
        ensures env { OnOk result
            (self.new.env
            ≡ without_scope (after_all (with_scope self.old.env) (source_lines_of lines.now))) }
        ensures least { OnOk result
            (self.new.least
            ≡ least_of self.old.least
            (all_faults_in (with_scope self.old.env) (source_lines_of lines.now))) }
    {
        let mut out = Items::new(self.alloc);
        self.env.open(self.alloc)?;
        self.lines(lines, &mut out)?;
        self.env.close();
        Ok(out)
    }

    // The statements of a loop's body, behind which a place is taken again.
    #[cycle(line)]
    fn body(&mut self, lines: &[Line], behind: LoopPlace) -> Result<Items<Stmt>, AllocError>
        ensures statements { IfOk result
            (λ made. made ≡ all_statements_of (in_body self.old.env) (source_lines_of lines.now)) }
        ensures env { OnOk result
            (self.new.env
            ≡ behind_body behind (after_all (in_body self.old.env) (source_lines_of lines.now))) }
        ensures least { OnOk result
            (self.new.least
            ≡ least_of self.old.least
            (all_faults_in (in_body self.old.env) (source_lines_of lines.now))) }
    {
        let place = self.env.place.body();
        self.env.set_place(place);
        let made = self.scope_statements(lines)?;
        self.env.set_place(behind);
        Ok(made)
    }

    // The statements of a loop's step, behind which a place is taken again.
    #[cycle(line)]
    fn step(&mut self, lines: &[Line], behind: LoopPlace) -> Result<Items<Stmt>, AllocError>
        ensures statements { IfOk result
            (λ made. made ≡ all_statements_of (in_step self.old.env) (source_lines_of lines.now)) }
        ensures env { OnOk result
            (self.new.env
            ≡ with_place behind (after_all (in_step self.old.env) (source_lines_of lines.now))) }
        ensures least { OnOk result
            (self.new.least
            ≡ least_of self.old.least
            (all_faults_in (in_step self.old.env) (source_lines_of lines.now))) }
    {
        let mut made = Items::new(self.alloc);
        self.env.set_place(LoopPlace::InStep);
        self.lines(lines, &mut made)?;
        self.env.set_place(behind);
        Ok(made)
    }

    // A loop with its initialiser is a scope.
    #[cycle(line)]
    fn begin_loop(&mut self, init: &[Line], out: &mut Items<Stmt>) -> Result<(), AllocError>
        ensures statements { OnOk result
            (out.new ≡ out.old ++ all_statements_of (with_scope self.old.env)
            (source_lines_of init.now)) }
        ensures env { OnOk result
            (self.new.env ≡ after_all (with_scope self.old.env) (source_lines_of init.now)) }
        ensures least { OnOk result
            (self.new.least
            ≡ least_of self.old.least
            (all_faults_in (with_scope self.old.env) (source_lines_of init.now))) }
    {
        self.env.open(self.alloc)?;
        self.lines(init, out)
    }

    fn end_loop(&mut self, made: Stmt, out: &mut Items<Stmt>) -> Result<(), AllocError>
        ensures statements { OnOk result (out.new ≡ out.old ++ made ∷ []) }
        ensures env { self.new.env ≡ without_scope self.old.env }
        ensures least { self.new.least ≡ self.old.least }
    {
        self.env.close();
        out.push(made)?;
        Ok(())
    }

    // The condition of a loop, and the statements of its calls.
    fn test(&mut self, cond: &Expr) -> Result<(Items<Stmt>, Core), AllocError>
        ensures calls { IfOk result
            (λ test. test.0 ≡ calls_in self.old.env (source_expr_of cond.now)) }
        ensures term { IfOk result
            (λ test. test.1 ≡ term_in self.old.env (source_expr_of cond.now)) }
        ensures env { OnOk result
            (self.new.env ≡ with_columns_taken (temporaries (source_expr_of cond.now))
            self.old.env) }
        ensures least { OnOk result
            (self.new.least
            ≡ least_of self.old.least (condition_faults self.old.env (source_expr_of cond.now))) }
    {
        let mut pre = Items::new(self.alloc);
        let cond = self.condition(cond, &mut pre)?;
        Ok((pre, cond))
    }

    fn assign(
        &mut self,
        name: &Name,
        at: u32,
        value: &Expr,
        out: &mut Items<Stmt>,
    ) -> Result<(), AllocError>
        ensures statements { OnOk result
            (out.new ≡ out.old ++ put_in self.old.env (column_of self.old.env.scopes name.now)
            (source_expr_of value.now)) }
        ensures env { OnOk result
            (self.new.env ≡ with_columns_taken (put_temporaries (source_expr_of value.now))
            self.old.env) }
        ensures least { OnOk result
            (self.new.least
            ≡ least_of self.old.least
            (variable_faults self.old.env at name.now ++ put_faults self.old.env
            (source_expr_of value.now))) }
    {
        let col = self.variable(at, name);
        self.put(col, value, out)
    }

    fn local(
        &mut self,
        name: &Name,
        at: u32,
        init: &Option<Expr>,
        out: &mut Items<Stmt>,
    ) -> Result<(), AllocError>
        ensures statements { OnOk result
            (out.new ≡ out.old ++ local_statements (with_variable name.now self.old.env)
            self.old.env.next (option_map source_expr_of init.now)) }
        ensures env { OnOk result
            (self.new.env ≡ with_value (option_map source_expr_of init.now)
            (with_variable name.now self.old.env)) }
        ensures least { OnOk result
            (self.new.least
            ≡ least_of self.old.least
            (declare_faults self.old.env at name.now
            ++ init_faults (with_variable name.now self.old.env)
            (option_map source_expr_of init.now))) }
    {
        let col = self.declare(at, name)?;
        match init {
            Some(value) => self.put(col, value, out),
            None => {
                out.push(Stmt::Any { col })?;
                Ok(())
            }
        }
    }

    /// Declares a parameter or local, which may be declared already or be one too many.
    pub(crate) fn declare(&mut self, at: u32, name: &Name) -> Result<u32, AllocError>
        ensures col { IfOk result (λ col. col ≡ self.old.env.next) }
        ensures env { OnOk result (self.new.env ≡ with_variable name.now self.old.env) }
        ensures least { OnOk result
            (self.new.least ≡ least_of self.old.least (declare_faults self.old.env at name.now)) }
    {
        let is_twice = special_of(name.as_slice()).is_some()
            || self.env.scopes.is_declared_here(name);
        note_if(&mut self.least, is_twice, TypeError::Twice(at));
        let is_full = self.env.next == self.env.full;
        note_if(
            &mut self.least,
            is_full,
            TypeError::Many(Limited::Slots, at),
        );
        self.env.declare(self.alloc, name)
    }

    // `break` and `continue`
    fn leave(&mut self, at: u32, made: Stmt, out: &mut Items<Stmt>) -> Result<(), AllocError>
        ensures statements { OnOk result (out.new ≡ out.old ++ made ∷ []) }
        ensures env { self.new.env ≡ self.old.env }
        ensures least { self.new.least ≡ least_of self.old.least (leave_faults self.old.env at) }
    {
        let stays = !self.env.place.may_leave();
        note_if(&mut self.least, stays, TypeError::Unknown(at));
        out.push(made)?;
        Ok(())
    }

    fn give_back(
        &mut self,
        at: u32,
        value: &Option<Expr>,
        out: &mut Items<Stmt>,
    ) -> Result<(), AllocError>
        ensures statements { OnOk result
            (out.new ≡ out.old
            ++ (value_statements self.old.env self.old.env.ret (option_map source_expr_of value.now)
            ++ Stmt.Return ∷ [])) }
        ensures env { OnOk result
            (self.new.env ≡ with_value (option_map source_expr_of value.now) self.old.env) }
        ensures least { OnOk result
            (self.new.least
            ≡ least_of self.old.least
            (return_faults self.old.env at (option_map source_expr_of value.now))) }
    {
        if let Some(value) = value {
            let is_void = !self.env.returns;
            note_if(&mut self.least, is_void, TypeError::Arity(at));
            self.put(self.env.ret, value, out)?;
        }
        out.push(Stmt::Return)?;
        Ok(())
    }
}
