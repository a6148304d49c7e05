ghost use Rattle.std.specs.Prelude.{◌≡◌, ◌<◌, [], ◌∷◌, Some, length, map, option_to_list, IfOk, OnOk};
ghost use Rattle.std.specs.List.{list_any};
ghost use Rattle.linear_terms.specs.Equality.{poly_eq};
ghost use Rattle.syntax_tree.specs.Code.{code_of, statement_of};
ghost use Rattle.syntax_tree.specs.Term.{term_of};
ghost use Rattle.syntax_tree.specs.declared.program.Proc.{Proc};
ghost use Rattle.vocabularies.specs.Harvest.{compared_terms, compared_each, compared_by, compared_in, compared_term, most_terms, harvest_of};
ghost use Rattle.vocabularies.specs.Room.{with_terms};
ghost use Rattle.vocabularies.specs.Procs.{IsProcOf};

use crate::terms::compared_term;
use items::Items;
use linear_terms::Poly;
use std::alloc::{AllocError, Global};
use syntax_tree::{Core, Op, Program, Stmt};

/// How many terms are kept.
const MOST_TERMS: usize = 32;

/// The first 32 different linear terms that the procedure at this place compares: of each
/// comparison of two polynomials their difference, if it is linear, without its constant and
/// without a common divisor, its first number positive. A comparison at which a step leaves 128
/// bits or passes degree 4 has none.
pub fn harvest(alloc: Global, program: &Program, proc: u32) -> Result<Items<Poly>, AllocError>
    requires { proc < length program.now.procs }
    ensures { (p : Proc) → IsProcOf program.now proc p
        → IfOk result (λ terms. terms ≡ harvest_of p.body) }
{
    body_harvest(
        alloc,
        program.procs.as_slice()[proc as usize].body.as_slice(),
    )
}

#[tactic(auto, using(crate::proofs::Rooms::harvests))]
pub(crate) fn body_harvest(alloc: Global, body: &[Stmt]) -> Result<Items<Poly>, AllocError>
    ensures { IfOk result (λ terms. terms ≡ harvest_of body.now) }
{
    let mut terms = Items::new(alloc);
    add_compared_in(alloc, body, &mut terms)?;
    Ok(terms)
}

/// Adds what statements compare, as long as there is room.
#[cycle(compared)]
#[tactic(auto, using(crate::proofs::Rooms::rooms, syntax_tree::proofs::Codes::statements))]
fn add_compared_in(alloc: Global, stmts: &[Stmt], terms: &mut Items<Poly>) -> Result<(), AllocError>
    ensures { OnOk result (terms.new ≡ with_terms terms.old (compared_in (code_of stmts.now))) }
{
    for stmt in stmts {
        add_compared_by(alloc, stmt, terms)?;
    }
    Ok(())
}

#[cycle(compared)]
#[tactic(auto, using(crate::proofs::Rooms::rooms, syntax_tree::proofs::Codes::statements))]
fn add_compared_by(alloc: Global, stmt: &Stmt, terms: &mut Items<Poly>) -> Result<(), AllocError>
    ensures { OnOk result (terms.new ≡ with_terms terms.old (compared_by (statement_of stmt.now))) }
{
    match stmt {
        Stmt::Set { value, .. } => add_compared(alloc, value, terms),
        Stmt::Call { args, .. } => add_compared_each(alloc, args.as_slice(), terms),
        Stmt::Guard { cond } => add_compared(alloc, cond, terms),
        Stmt::Check { cond, .. } => add_compared(alloc, cond, terms),
        Stmt::If { cond, yes, no } => {
            add_compared(alloc, cond, terms)?;
            add_compared_in(alloc, yes.as_slice(), terms)?;
            add_compared_in(alloc, no.as_slice(), terms)
        }
        Stmt::Loop {
            pre,
            cond,
            body,
            step,
            ..
        } => {
            add_compared_in(alloc, pre.as_slice(), terms)?;
            add_compared(alloc, cond, terms)?;
            add_compared_in(alloc, body.as_slice(), terms)?;
            add_compared_in(alloc, step.as_slice(), terms)
        }
        Stmt::Any { .. } => Ok(()),
        Stmt::Break => Ok(()),
        Stmt::Continue => Ok(()),
        Stmt::Return => Ok(()),
    }
}

#[tactic(auto, using(crate::proofs::Rooms::rooms))]
fn add_compared_each(
    alloc: Global,
    exprs: &[Core],
    terms: &mut Items<Poly>,
) -> Result<(), AllocError>
    ensures { OnOk result
        (terms.new ≡ with_terms terms.old (compared_each (map term_of exprs.now))) }
{
    for e in exprs {
        add_compared(alloc, e, terms)?;
    }
    Ok(())
}

/// Adds what an expression compares: its own term before those of its operands.
#[tactic(auto, using(crate::proofs::Rooms::rooms, syntax_tree::proofs::Terms::terms))]
fn add_compared(alloc: Global, e: &Core, terms: &mut Items<Poly>) -> Result<(), AllocError>
    ensures { OnOk result (terms.new ≡ with_terms terms.old (compared_terms (term_of e.now))) }
{
    match e {
        Core::Lit(_) => Ok(()),
        Core::Col(_) => Ok(()),
        Core::Unary(_, inner) => add_compared(alloc, inner, terms),
        Core::Binary(op, left, right) => {
            add_comparison(alloc, *op, left, right, terms)?;
            add_compared(alloc, left, terms)?;
            add_compared(alloc, right, terms)
        }
    }
}

/// Adds the term of a comparison, where there is one, it is new and there is room.
fn add_comparison(
    alloc: Global,
    op: Op,
    left: &Core,
    right: &Core,
    terms: &mut Items<Poly>,
) -> Result<(), AllocError>
    ensures { OnOk result
        (terms.new ≡ with_terms terms.old
        (option_to_list (compared_term op (term_of left.now) (term_of right.now)))) }
{
    if MOST_TERMS <= terms.len() {
        return Ok(());
    }
    match compared_term(alloc, op, left, right)? {
        Some(term) => add_term(terms, term),
        None => Ok(()),
    }
}

/// Adds a term, unless it is there already.
fn add_term(terms: &mut Items<Poly>, term: Poly) -> Result<(), AllocError>
    requires { length terms.old < most_terms }
    ensures { OnOk result (terms.new ≡ with_terms terms.old (term ∷ [])) }
{
    if !is_known(terms.as_slice(), &term) {
        terms.push(term)?;
    }
    Ok(())
}

fn is_known(terms: &[Poly], term: &Poly) -> bool
    ensures { result ≡ list_any (poly_eq term.now) terms.now }
{
    terms.iter().any(|known| *term == *known)
}
