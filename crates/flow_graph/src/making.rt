//! Walks once over the statements of a procedure, and puts their edges and assertions behind those
//! that stand.
ghost use Rattle.std.specs.Prelude.{◌≡◌, ◌≤◌, ◌<◌, ◌+◌, ◌∷◌, [], ◌++◌, All, IfOk, OnOk, true, false, map, slice_get, length};
ghost use Rattle.syntax_tree.specs.Code.{code_of, statement_of};
ghost use Rattle.syntax_tree.specs.Nodes.{code_nodes, graph_nodes, statement_nodes};
ghost use Rattle.syntax_tree.specs.Term.{term_of};
ghost use Rattle.syntax_tree.specs.WellFormed.{IsWellFormed};
ghost use Rattle.flow_graph.specs.FlowGraph.{arc, body_of, checks_at, code_arcs, code_checks_at, flow_of, graph_of, inside, skip, statement_arcs, unless};
ghost use Rattle.syntax_tree.specs.Code.{End, Guard, If, Loop};
ghost use Rattle.flow_graph.specs.Plain.{arc_of, check_of, plain, statement_of_act};

use crate::error::GraphError;
use crate::parts::{Act, CheckNode, Edge, Graph};
use items::{Boxed, Items};
use std::alloc::{AllocError, Global};
use syntax_tree::{Core, MOST_NODES, Program, Sign, Stmt, copy_cores, count_nodes};

// Where `break`, `continue` and `return` lead.
#[derive(Debug, Clone, Copy)]
struct Targets {
    break_to: u32,
    continue_to: u32,
    exit: u32,
}

impl Targets {
    // The targets inside the body of a loop.
    fn inside(self, break_to: u32, continue_to: u32) -> Targets
        ensures { result ≡ inside self break_to continue_to }
    {
        Targets {
            break_to,
            continue_to,
            exit: self.exit,
        }
    }
}

// What is made so far.
#[derive(Drop)]
struct Made {
    alloc: Global,
    edges: Items<Edge>,
    checks: Items<CheckNode>,
}

#[tactic(auto, using(syntax_tree::proofs::Terms::terms))]
fn skip() -> Act
    ensures { statement_of_act result ≡ skip }
{
    Act::Guard(Core::Lit(1))
}

#[tactic(auto, using(syntax_tree::proofs::Terms::terms))]
fn unless(alloc: Global, cond: &Core) -> Result<Act, GraphError>
    ensures { IfOk result (λ act. statement_of_act act ≡ unless (term_of cond.now)) }
{
    let cond = cond.copy(alloc)?;
    Ok(Act::Guard(Core::Unary(Sign::Not, Boxed::new(alloc, cond)?)))
}

fn guard(alloc: Global, cond: &Core) -> Result<Act, GraphError>
    ensures { IfOk result (λ act. statement_of_act act ≡ Guard (term_of cond.now)) }
{
    Ok(Act::Guard(cond.copy(alloc)?))
}

// The nodes that the statements make.
fn nodes_of(stmts: &[Stmt]) -> u32
    requires { code_nodes (code_of stmts.now) < MOST_NODES }
    ensures { result ≡ code_nodes (code_of stmts.now) }
{
    (count_nodes(stmts) - 2) as u32
}

impl Made {
    fn edge(&mut self, from: u32, to: u32, act: Act) -> Result<(), GraphError>
        ensures edges { OnOk result (map arc_of self.new.edges
            ≡ map arc_of self.old.edges ++ arc from to (statement_of_act act) ∷ []) }
        ensures checks { OnOk result (self.new.checks ≡ self.old.checks) }
    {
        self.edges.push(Edge { from, to, act })?;
        Ok(())
    }

    // Puts the edges of the statements from node `at` on, and answers the node at their end.
    #[cycle(making)]
    #[tactic(auto, using(syntax_tree::proofs::Codes::statements))]
    fn code(&mut self, stmts: &[Stmt], at: u32, targets: Targets) -> Result<u32, GraphError>
        requires { at + code_nodes (code_of stmts.now) < MOST_NODES }
        ensures edges { OnOk result (map arc_of self.new.edges
            ≡ map arc_of self.old.edges ++ code_arcs targets at (code_of stmts.now)) }
        ensures checks { OnOk result (map check_of self.new.checks
            ≡ map check_of self.old.checks ++ code_checks_at at (code_of stmts.now)) }
        ensures node { IfOk result (λ n. n ≡ at + code_nodes (code_of stmts.now)) }
    {
        let mut node = at;
        for stmt in stmts {
            node = self.statement(stmt, node, targets)?;
        }
        Ok(node)
    }

    #[cycle(making)]
    #[tactic(auto, using(syntax_tree::proofs::Codes::statements))]
    fn statement(&mut self, stmt: &Stmt, at: u32, targets: Targets) -> Result<u32, GraphError>
        requires { at + statement_nodes (statement_of stmt.now) < MOST_NODES }
        ensures edges { OnOk result (map arc_of self.new.edges
            ≡ map arc_of self.old.edges ++ statement_arcs targets at (statement_of stmt.now)) }
        ensures checks { OnOk result (map check_of self.new.checks
            ≡ map check_of self.old.checks ++ checks_at at (statement_of stmt.now)) }
        ensures node { IfOk result (λ n. n ≡ at + statement_nodes (statement_of stmt.now)) }
    {
        match stmt {
            Stmt::If { cond, yes, no } => {
                self.branch(cond, yes.as_slice(), no.as_slice(), at, targets)
            }
            Stmt::Loop {
                pre,
                cond,
                body,
                step,
                first,
            } => {
                if *first {
                    self.do_loop(pre.as_slice(), cond, body.as_slice(), at, targets)
                } else {
                    self.while_loop(
                        pre.as_slice(),
                        cond,
                        body.as_slice(),
                        step.as_slice(),
                        at,
                        targets,
                    )
                }
            }
            Stmt::Break => self.leave(at, targets.break_to),
            Stmt::Continue => self.leave(at, targets.continue_to),
            Stmt::Return => self.leave(at, targets.exit),
            Stmt::Check { number, cond } => self.check(*number, cond, at),
            Stmt::Set { col, value } => {
                let value = value.copy(self.alloc)?;
                self.onward(at, Act::Set(*col, value))
            }
            Stmt::Any { col } => self.onward(at, Act::Any(*col)),
            Stmt::Call { proc, args, into } => {
                let args = copy_cores(self.alloc, args)?;
                let (proc, into) = (*proc, *into);
                self.onward(at, Act::Call { proc, args, into })
            }
            Stmt::Guard { cond } => {
                let act = guard(self.alloc, cond)?;
                self.onward(at, act)
            }
        }
    }

    // An edge to the next node.
    fn onward(&mut self, at: u32, act: Act) -> Result<u32, GraphError>
        requires { at < MOST_NODES }
        ensures edges { OnOk result (map arc_of self.new.edges
            ≡ map arc_of self.old.edges ++ arc at (at + 1) (statement_of_act act) ∷ []) }
        ensures checks { OnOk result (self.new.checks ≡ self.old.checks) }
        ensures node { IfOk result (λ n. n ≡ at + 1) }
    {
        self.edge(at, at + 1, act)?;
        Ok(at + 1)
    }

    // An edge to somewhere else. The next node has none.
    fn leave(&mut self, at: u32, to: u32) -> Result<u32, GraphError>
        requires { at < MOST_NODES }
        ensures edges { OnOk result (map arc_of self.new.edges
            ≡ map arc_of self.old.edges ++ arc at to skip ∷ []) }
        ensures checks { OnOk result (self.new.checks ≡ self.old.checks) }
        ensures node { IfOk result (λ n. n ≡ at + 1) }
    {
        self.edge(at, to, skip())?;
        Ok(at + 1)
    }

    fn check(&mut self, number: u32, cond: &Core, at: u32) -> Result<u32, GraphError>
        requires { at < MOST_NODES }
        ensures edges { OnOk result (map arc_of self.new.edges
            ≡ map arc_of self.old.edges ++ arc at (at + 1) (Guard (term_of cond.now)) ∷ []) }
        ensures checks { OnOk result (map check_of self.new.checks ≡ map check_of self.old.checks
            ++ record { node = at; number = number; cond = term_of cond.now } ∷ []) }
        ensures node { IfOk result (λ n. n ≡ at + 1) }
    {
        let held = cond.copy(self.alloc)?;
        self.checks.push(CheckNode {
            node: at,
            number,
            cond: held,
        })?;
        let passes = guard(self.alloc, cond)?;
        self.onward(at, passes)
    }

    #[cycle(making)]
    fn branch(
        &mut self,
        cond: &Core,
        yes: &[Stmt],
        no: &[Stmt],
        at: u32,
        targets: Targets,
    ) -> Result<u32, GraphError>
        requires { at + (3 + code_nodes (code_of yes.now) + code_nodes (code_of no.now))
            < MOST_NODES }
        ensures edges { OnOk result (map arc_of self.new.edges ≡ map arc_of self.old.edges
            ++ statement_arcs targets at
            (If (term_of cond.now) (code_of yes.now) (code_of no.now))) }
        ensures checks { OnOk result (map check_of self.new.checks ≡ map check_of self.old.checks
            ++ checks_at at (If (term_of cond.now) (code_of yes.now) (code_of no.now))) }
        ensures node { IfOk result
            (λ n. n ≡ at + (3 + code_nodes (code_of yes.now) + code_nodes (code_of no.now))) }
    {
        let act = guard(self.alloc, cond)?;
        self.edge(at, at + 1, act)?;
        let end_yes = self.code(yes, at + 1, targets)?;
        let act = unless(self.alloc, cond)?;
        self.edge(at, end_yes + 1, act)?;
        let end_no = self.code(no, end_yes + 1, targets)?;
        self.edge(end_yes, end_no + 1, skip())?;
        self.edge(end_no, end_no + 1, skip())?;
        Ok(end_no + 1)
    }

    #[cycle(making)]
    fn while_loop(
        &mut self,
        pre: &[Stmt],
        cond: &Core,
        body: &[Stmt],
        step: &[Stmt],
        at: u32,
        targets: Targets,
    ) -> Result<u32, GraphError>
        requires { at + (4 + code_nodes (code_of pre.now) + code_nodes
            (code_of body.now) + code_nodes (code_of step.now)) < MOST_NODES }
        ensures edges { OnOk result (map arc_of self.new.edges ≡ map arc_of self.old.edges
            ++ statement_arcs targets at
            (Loop (code_of pre.now) (term_of cond.now) (code_of body.now) (code_of step.now)
            false)) }
        ensures checks { OnOk result (map check_of self.new.checks ≡ map check_of self.old.checks
            ++ checks_at at
            (Loop (code_of pre.now) (term_of cond.now) (code_of body.now) (code_of step.now)
            false)) }
        ensures node { IfOk result
            (λ n. n ≡ at + (4 + code_nodes (code_of pre.now) + code_nodes
            (code_of body.now) + code_nodes (code_of step.now))) }
    {
        self.edge(at, at + 1, skip())?;
        let test = self.code(pre, at + 1, targets)?;
        let act = guard(self.alloc, cond)?;
        self.edge(test, test + 1, act)?;
        let turn = test + 1 + nodes_of(body) + 1;
        let after = turn + nodes_of(step) + 1;
        let end_body = self.code(body, test + 1, targets.inside(after, turn))?;
        self.edge(end_body, turn, skip())?;
        let end_step = self.code(step, turn, targets)?;
        self.edge(end_step, at + 1, skip())?;
        let act = unless(self.alloc, cond)?;
        self.edge(test, after, act)?;
        Ok(after)
    }

    // A loop whose body comes first has no step.
    #[cycle(making)]
    fn do_loop(
        &mut self,
        pre: &[Stmt],
        cond: &Core,
        body: &[Stmt],
        at: u32,
        targets: Targets,
    ) -> Result<u32, GraphError>
        requires { at + (3 + code_nodes (code_of pre.now) + code_nodes (code_of body.now))
            < MOST_NODES }
        ensures edges { OnOk result (map arc_of self.new.edges ≡ map arc_of self.old.edges
            ++ statement_arcs targets at
            (Loop (code_of pre.now) (term_of cond.now) (code_of body.now) End true)) }
        ensures checks { OnOk result (map check_of self.new.checks ≡ map check_of self.old.checks
            ++ checks_at at
            (Loop (code_of pre.now) (term_of cond.now) (code_of body.now) End true)) }
        ensures node { IfOk result
            (λ n. n ≡ at + (3 + code_nodes (code_of pre.now) + code_nodes (code_of body.now))) }
    {
        let turn = at + 1 + nodes_of(body) + 1;
        let after = turn + nodes_of(pre) + 1;
        self.edge(at, at + 1, skip())?;
        let end_body = self.code(body, at + 1, targets.inside(after, turn))?;
        self.edge(end_body, turn, skip())?;
        let test = self.code(pre, turn, targets)?;
        let act = guard(self.alloc, cond)?;
        self.edge(test, at + 1, act)?;
        let act = unless(self.alloc, cond)?;
        self.edge(test, after, act)?;
        Ok(after)
    }
}

/// The flow graph of the procedure at this place of a program. Its edges lead between its nodes,
/// and its assertions stand at them.
pub fn graph(alloc: Global, program: &Program, proc: u32) -> Result<Graph, AllocError>
    requires fit { IsWellFormed program.now }
    requires there { proc < length program.now.procs }
    ensures exact { IfOk result (λ g. plain g ≡ graph_of program.now proc) }
    ensures edges { IfOk result
        (λ g. All (λ edge. (edge.from < g.nodes) × (edge.to < g.nodes)) g.edges) }
    ensures checks { IfOk result (λ g. All (λ check. check.node < g.nodes) g.checks) }
{
    whole(alloc, program, proc)
}

fn whole(alloc: Global, program: &Program, proc: u32) -> Result<Graph, AllocError>
    requires fit { IsWellFormed program.now }
    requires there { proc < length program.now.procs }
    ensures { IfOk result (λ g. plain g ≡ graph_of program.now proc) }
{
    match made_graph(alloc, program, proc) {
        Ok(made) => Ok(made),
        Err(_) => Err(AllocError),
    }
}

fn made_graph(alloc: Global, program: &Program, proc: u32) -> Result<Graph, GraphError>
    requires fit { IsWellFormed program.now }
    requires there { proc < length program.now.procs }
    ensures { IfOk result (λ g. plain g ≡ graph_of program.now proc) }
{
    let body = program.procs.as_slice()[proc as usize].body.as_slice();
    let exit = nodes_of(body) + 1;
    let mut made = Made {
        alloc,
        edges: Items::new(alloc),
        checks: Items::new(alloc),
    };
    let targets = Targets {
        break_to: exit,
        continue_to: exit,
        exit,
    };
    let last = made.code(body, 0, targets)?;
    made.edge(last, exit, skip())?;
    let Made {
        alloc: _,
        edges,
        checks,
    } = made;
    Ok(Graph {
        nodes: exit + 1,
        edges,
        checks,
    })
}
