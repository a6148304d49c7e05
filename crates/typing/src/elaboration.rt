#![tactic(auto, using(crate::proofs::Items::items), unfolding(crate::specs::Faults::elaboration_of))]

ghost use Rattle.std.specs.Prelude.{◌≡◌, ◌≤◌, ◌^◌, ◌+◌, [], ◌∷◌, ◌++◌, IfErr, IfOk, IsTrue, OnOk, None, length};
ghost use Rattle.items.specs.Gives.{Gives};
ghost use Rattle.typing.specs.Elaborated.{checks_in, globals_of, main_from, procs_of};
ghost use Rattle.syntax_tree.specs.WellFormed.{IsWellFormed};
ghost use Rattle.typing.specs.Faults.{cause, elaboration_of, least_of, declaration_faults, procs_faults, prototype_faults};
ghost use Rattle.typing.specs.Operators.{items_have_few};
ghost use Rattle.typing.specs.Texts.{bodies, count_globals, declarations, top};

use crate::declarations::{Declarations, note_prototypes};
use crate::elaborator::Elaborator;
use crate::env::{Env, LoopPlace};
use crate::error::TypeError;
use crate::least::note_if;
use crate::scopes::Scopes;
use crate::special::is_main;
use crate::sums::sum;
use items::Items;
use std::alloc::{AllocError, Global};
use syntax_tree::{GlobalVar, Item, Proc, Program, Tree};

/// The core program of the tree of a text with `length` bytes.
///
/// Of all causes of refusal the one with the least place is told, and of several at one place the
/// first in the order of `TypeError`; where there is none, the tree has a program. The program is
/// well formed if each expression of the tree has few enough operators, as in every tree that the
/// parser reads. Each part of the tree is visited a fixed number of times, and a name is found by
/// one look into a map of the declarations in force.
pub fn elaborate(alloc: Global, tree: &Tree, length: u32) -> Result<Program, TypeError>
    ensures exact { Gives cause (λ p. p) result (elaboration_of tree.now.items length) }
    ensures well_formed { IsTrue (items_have_few tree.now.items) → IfOk result IsWellFormed }
{
    program_of(alloc, tree, length)
}

// The same, of which it is not yet said that the program is well formed.
fn program_of(alloc: Global, tree: &Tree, length: u32) -> Result<Program, TypeError>
    ensures { Gives cause (λ p. p) result (elaboration_of tree.now.items length) }
{
    let items = tree.items.as_slice();
    let Procedures {
        procs,
        checks,
        mut least,
    } = procedures_of(alloc, items)?;
    let main = main_of(items)?;
    note_if(&mut least, main.is_none(), TypeError::NoMain(length));
    match least {
        Some(fault) => Err(fault),
        None => Ok(Program {
            globals: globals_of(alloc, items)?,
            procs,
            main: main.unwrap_or(0),
            checks,
            rule: 2,
        }),
    }
}

// The procedures of a text, the places of its assertions, and the least fault.
struct Procedures {
    procs: Items<Proc>,
    checks: Items<u32>,
    least: Option<TypeError>,
}

// What comes of all items, but for `main`.
fn procedures_of(alloc: Global, items: &[Item]) -> Result<Procedures, AllocError>
    ensures procs { IfOk result
        (λ made. made.procs ≡ procs_of (declarations 0 0 items.now) (count_globals items.now) 0
        items.now) }
    ensures checks { IfOk result (λ made. made.checks ≡ checks_in items.now) }
    ensures least { IfOk result
        (λ made. made.least ≡ least_of None (declaration_faults [] 0 0 items.now
        ++ prototype_faults (bodies 0 items.now) items.now
        ++ procs_faults (declarations 0 0 items.now) (count_globals items.now) 0 items.now)) }
{
    let text = Declarations::read(alloc, items)?;
    let globals = text.globals;
    let mut elaborator = elaborator_of(text, items);
    let mut checks = Items::new(alloc);
    let procs = elaborator.procedures(globals, items, &mut checks)?;
    let least = elaborator.least;
    Ok(Procedures {
        procs,
        checks,
        least,
    })
}

// What elaborates the procedures of a text whose names are declared, behind the faults of its
// prototypes.
fn elaborator_of(text: Declarations, items: &[Item]) -> Elaborator
    requires { text.bodies ≡ top text.bodies ∷ [] }
    ensures scopes { result.env.scopes ≡ text.scopes }
    ensures least { result.least
        ≡ least_of text.least (prototype_faults (top text.bodies) items.now) }
{
    let Declarations {
        alloc,
        scopes,
        bodies,
        mut least,
        ..
    } = text;
    note_prototypes(&mut least, &bodies, items);
    let env = outside(scopes);
    Elaborator { alloc, env, least }
}

// What stands around all procedures.
fn outside(scopes: Scopes) -> Env
    ensures { result.scopes ≡ scopes }
{
    Env {
        scopes,
        next: 0,
        number: 0,
        place: LoopPlace::Outside,
        returns: false,
        ret: 0,
        full: 0,
    }
}

fn globals_of(alloc: Global, items: &[Item]) -> Result<Items<GlobalVar>, AllocError>
    ensures { IfOk result (λ globals. globals ≡ globals_of items.now) }
{
    let mut globals = Items::new(alloc);
    for item in items {
        push_global(&mut globals, item)?;
    }
    Ok(globals)
}

fn push_global(globals: &mut Items<GlobalVar>, item: &Item) -> Result<(), AllocError>
    ensures { OnOk result (globals.new ≡ globals.old ++ globals_of (item.now ∷ [])) }
{
    match item {
        Item::Global { name, init, .. } => {
            let name = name.clone()?;
            globals.push(GlobalVar { name, init: *init })?;
            Ok(())
        }
        Item::Proto { .. } => Ok(()),
        Item::Body { .. } => Ok(()),
    }
}

// The number of the first procedure `main`.
fn main_of(items: &[Item]) -> Result<Option<u32>, AllocError>
    ensures place { IfOk result (λ main. main ≡ main_from 0 items.now) }
    ensures past { IfErr result (λ _. 2 ^ 32 ≤ length items.now) }
{
    let mut procs = 0u32;
    for item in items {
        if let Item::Body { name, .. } = item {
            if is_main(name.as_slice()) {
                return Ok(Some(procs));
            }
            procs = sum(procs, 1)?;
        }
    }
    Ok(None)
}
