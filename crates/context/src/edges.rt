ghost use Rattle.std.specs.Prelude.{◌≡◌, ◌≤◌, ◌∷◌, [], map, IfOk};
ghost use Rattle.linear_terms.specs.Polynomial.{constant_of};
ghost use Rattle.syntax_tree.specs.WellFormed.{IsWellFormed};
ghost use Rattle.context.specs.Claims.{AreFlows};
ghost use Rattle.context.specs.Entries.{node_of, start_leaf, start_way, ways_of};
ghost use Rattle.context.specs.Made.{edges_by};

use crate::callings::with_calls;
use items::Items;
use linear_terms::{Case, Poly};
use path_expr::Link;
use proc_summary::Flow;
use std::alloc::Global;
use syntax_tree::{GlobalVar, Program};
use transition_formula::{Formula, FormulaError, Loss};

/// The links of the entry graph, the formula of each, and what was lost in making these.
#[derive(Debug, Drop)]
pub(crate) struct Edges {
    pub(crate) links: Items<Link>,
    pub(crate) leaves: Items<Formula>,
    pub(crate) losses: Items<Loss>,
}

/// The node of a procedure's entry.
pub(crate) fn node_of(main: u32, proc: u32) -> u32
    requires { proc ≤ 256 }
    ensures { result ≡ node_of main proc }
{
    if proc == main {
        1
    } else if proc < main {
        proc + 2
    } else {
        proc + 1
    }
}

/// The link of the start and those of all calls, procedure by procedure in the order of the text.
pub(crate) fn edges_of(
    alloc: Global,
    program: &Program,
    flows: &[Flow],
) -> Result<Edges, FormulaError>
    requires formed { IsWellFormed program.now }
    requires flows { AreFlows program.now flows.now }
    ensures { IfOk result (λ edges. edges ≡ edges_by (ways_of program.now flows.now)) }
{
    let mut made = start_edges(alloc, program)?;
    for number in 0..flows.len() {
        made = with_calls(alloc, program, number as u32, &flows[number], made)?;
    }
    Ok(made)
}

/// The link of the start alone, which sets the globals.
fn start_edges(alloc: Global, program: &Program) -> Result<Edges, FormulaError>
    requires { IsWellFormed program.now }
    ensures { IfOk result (λ edges. edges ≡ edges_by (start_way program.now ∷ [])) }
{
    let mut links = Items::new(alloc);
    links.push(Link { from: 0, to: 1 })?;
    let mut leaves = Items::new(alloc);
    leaves.push(start_leaf(alloc, program)?)?;
    Ok(Edges {
        links,
        leaves,
        losses: Items::new(alloc),
    })
}

/// Each global has its first value.
fn start_leaf(alloc: Global, program: &Program) -> Result<Formula, FormulaError>
    requires { IsWellFormed program.now }
    ensures { IfOk result (λ f. f ≡ start_leaf program.now) }
{
    let post = first_values(alloc, program.globals.as_slice())?;
    let mut cases = Items::new(alloc);
    cases.push(Case {
        aux: 0,
        rows: Items::new(alloc),
        post,
    })?;
    let count = program.globals.len() as u32;
    Ok(Formula::from_cases(0, count, cases))
}

fn first_values(alloc: Global, globals: &[GlobalVar]) -> Result<Items<Poly>, FormulaError>
    ensures { IfOk result (λ post. post ≡ map (λ g. constant_of g.init) globals.now) }
{
    let mut post = Items::new(alloc);
    for global in globals {
        post.push(Poly::constant(alloc, global.init))?;
    }
    Ok(post)
}
