#![tactic(auto, using(crate::proofs::Items::items))]

ghost use Rattle.std.specs.Prelude.{◌≡◌, ◌+◌, [], ◌∷◌, ◌++◌, IfOk, OnOk, None, Some, ◌==◌};
ghost use Rattle.syntax_tree.specs.Limits.{most_globals, most_procedures};
ghost use Rattle.typing.specs.CallFaults.{when};
ghost use Rattle.typing.specs.Faults.{agrees, agrees_in_number, agrees_in_value, declaration_faults, least_of, main_faults, parameter_faults, prototype_faults};
ghost use Rattle.typing.specs.LineFaults.{twice_faults};
ghost use Rattle.typing.specs.Texts.{bodies, count_bodies, count_globals, declarations, procedure, top};

use crate::error::{Limited, TypeError};
use crate::least::note_if;
use crate::meaning::{CallSignature, Meaning};
use crate::scopes::Scopes;
use crate::special::{is_main, special_of};
use crate::sums::sum;
use std::alloc::{AllocError, Global};
use syntax_tree::{Item, MOST_GLOBALS, MOST_PARAMETERS, MOST_PROCEDURES, Name, Param};

/// The declarations of a text on their way.
#[derive(Drop)]
pub(crate) struct Declarations {
    pub(crate) alloc: Global,
    // the scope of the text
    pub(crate) scopes: Scopes,
    // its procedures alone
    pub(crate) bodies: Scopes,
    pub(crate) globals: u32,
    pub(crate) procs: u32,
    pub(crate) least: Option<TypeError>,
}

/// Scopes of which one is open, without declarations.
fn one_scope(alloc: Global) -> Result<Scopes, AllocError>
    ensures { IfOk result (λ scopes. scopes ≡ [] ∷ []) }
{
    let mut scopes = Scopes::new(alloc);
    scopes.open(alloc)?;
    Ok(scopes)
}

impl Declarations {
    /// All declarations of a text.
    pub(crate) fn read(alloc: Global, items: &[Item]) -> Result<Declarations, AllocError>
        ensures scopes { IfOk result (λ made. made.scopes ≡ declarations 0 0 items.now ∷ []) }
        ensures bodies { IfOk result (λ made. made.bodies ≡ bodies 0 items.now ∷ []) }
        ensures globals { IfOk result (λ made. made.globals ≡ count_globals items.now) }
        ensures least { IfOk result
            (λ made. made.least ≡ least_of None (declaration_faults [] 0 0 items.now)) }
    {
        let mut made = Declarations::empty(alloc)?;
        for item in items {
            made.item(item)?;
        }
        Ok(made)
    }

    fn empty(alloc: Global) -> Result<Declarations, AllocError>
        ensures scopes { IfOk result (λ made. made.scopes ≡ [] ∷ []) }
        ensures bodies { IfOk result (λ made. made.bodies ≡ [] ∷ []) }
        ensures globals { IfOk result (λ made. made.globals ≡ 0) }
        ensures procs { IfOk result (λ made. made.procs ≡ 0) }
        ensures least { IfOk result (λ made. made.least ≡ None) }
    {
        let scopes = one_scope(alloc)?;
        let bodies = one_scope(alloc)?;
        Ok(Declarations {
            alloc,
            scopes,
            bodies,
            globals: 0,
            procs: 0,
            least: None,
        })
    }

    fn item(&mut self, item: &Item) -> Result<(), AllocError>
        requires one { self.old.scopes ≡ top self.old.scopes ∷ [] }
        requires one_of_bodies { self.old.bodies ≡ top self.old.bodies ∷ [] }
        ensures scopes { OnOk result
            (self.new.scopes
            ≡ (top self.old.scopes ++ declarations self.old.globals self.old.procs (item.now ∷ []))
            ∷ []) }
        ensures bodies { OnOk result
            (self.new.bodies ≡ (top self.old.bodies ++ bodies self.old.procs (item.now ∷ []))
            ∷ []) }
        ensures globals { OnOk result
            (self.new.globals ≡ self.old.globals + count_globals (item.now ∷ [])) }
        ensures procs { OnOk result
            (self.new.procs ≡ self.old.procs + count_bodies (item.now ∷ [])) }
        ensures least { OnOk result
            (self.new.least
            ≡ least_of self.old.least
            (declaration_faults (top self.old.scopes) self.old.globals self.old.procs
            (item.now ∷ []))) }
    {
        match item {
            Item::Global { name, at, .. } => self.global(name, *at),
            Item::Proto { .. } => Ok(()),
            Item::Body {
                name,
                at,
                returns,
                params,
                ..
            } => self.body(name, *at, *returns, params.as_slice()),
        }
    }

    fn global(&mut self, name: &Name, at: u32) -> Result<(), AllocError>
        requires { self.old.scopes ≡ top self.old.scopes ∷ [] }
        ensures scopes { OnOk result
            (self.new.scopes
            ≡ (top self.old.scopes ++ (name.now, Meaning.Variable self.old.globals) ∷ []) ∷ []) }
        ensures bodies { OnOk result (self.new.bodies ≡ self.old.bodies) }
        ensures globals { OnOk result (self.new.globals ≡ self.old.globals + 1) }
        ensures procs { OnOk result (self.new.procs ≡ self.old.procs) }
        ensures least { OnOk result
            (self.new.least
            ≡ least_of self.old.least
            (twice_faults (top self.old.scopes ∷ []) at name.now
            ++ when (self.old.globals == most_globals) (TypeError.Many Limited.Globals at))) }
    {
        self.note_twice(name, at);
        let is_full = self.globals as usize == MOST_GLOBALS;
        note_if(
            &mut self.least,
            is_full,
            TypeError::Many(Limited::Globals, at),
        );
        let meaning = Meaning::Variable(self.globals);
        self.scopes.declare(self.alloc, name.clone()?, meaning)?;
        self.globals = sum(self.globals, 1)?;
        Ok(())
    }

    fn body(
        &mut self,
        name: &Name,
        at: u32,
        returns: bool,
        params: &[Param],
    ) -> Result<(), AllocError>
        requires one { self.old.scopes ≡ top self.old.scopes ∷ [] }
        requires one_of_bodies { self.old.bodies ≡ top self.old.bodies ∷ [] }
        ensures scopes { OnOk result
            (self.new.scopes
            ≡ (top self.old.scopes ++ (name.now, procedure self.old.procs returns params.now) ∷ [])
            ∷ []) }
        ensures bodies { OnOk result
            (self.new.bodies
            ≡ (top self.old.bodies ++ (name.now, procedure self.old.procs returns params.now) ∷ [])
            ∷ []) }
        ensures globals { OnOk result (self.new.globals ≡ self.old.globals) }
        ensures procs { OnOk result (self.new.procs ≡ self.old.procs + 1) }
        ensures least { OnOk result
            (self.new.least
            ≡ least_of self.old.least
            (twice_faults (top self.old.scopes ∷ []) at name.now
            ++ when (self.old.procs == most_procedures) (TypeError.Many Limited.Procedures at)
            ++ main_faults at name.now params.now ++ parameter_faults 0 params.now)) }
    {
        self.note_body(name, at, params);
        let meaning = Meaning::Procedure(CallSignature {
            number: self.procs,
            params: params.len(),
            returns,
        });
        self.scopes.declare(self.alloc, name.clone()?, meaning)?;
        self.bodies.declare(self.alloc, name.clone()?, meaning)?;
        self.procs = sum(self.procs, 1)?;
        Ok(())
    }

    // What is wrong with the declaration of a procedure.
    fn note_body(&mut self, name: &Name, at: u32, params: &[Param])
        ensures scopes { self.new.scopes ≡ self.old.scopes }
        ensures bodies { self.new.bodies ≡ self.old.bodies }
        ensures globals { self.new.globals ≡ self.old.globals }
        ensures procs { self.new.procs ≡ self.old.procs }
        ensures least { self.new.least
            ≡ least_of self.old.least
            (twice_faults self.old.scopes at name.now ++ when (self.old.procs == most_procedures)
            (TypeError.Many Limited.Procedures at) ++ main_faults at name.now params.now
            ++ parameter_faults 0 params.now) }
    {
        self.note_twice(name, at);
        let is_full = self.procs as usize == MOST_PROCEDURES;
        note_if(
            &mut self.least,
            is_full,
            TypeError::Many(Limited::Procedures, at),
        );
        note_main(&mut self.least, name, at, params);
        note_parameters(&mut self.least, params);
    }

    fn note_twice(&mut self, name: &Name, at: u32)
        ensures scopes { self.new.scopes ≡ self.old.scopes }
        ensures bodies { self.new.bodies ≡ self.old.bodies }
        ensures globals { self.new.globals ≡ self.old.globals }
        ensures procs { self.new.procs ≡ self.old.procs }
        ensures least { self.new.least
            ≡ least_of self.old.least (twice_faults self.old.scopes at name.now) }
    {
        let is_twice = special_of(name.as_slice()).is_some() || self.scopes.is_declared_here(name);
        note_if(&mut self.least, is_twice, TypeError::Twice(at));
    }
}

// A procedure `main` has no parameters.
fn note_main(least: &mut Option<TypeError>, name: &Name, at: u32, params: &[Param])
    ensures { least.new ≡ least_of least.old (main_faults at name.now params.now) }
{
    let has_parameters = is_main(name.as_slice()) && params.len() != 0;
    note_if(least, has_parameters, TypeError::Arity(at));
}

// The first parameter past the most that there may be is told.
fn note_parameters(least: &mut Option<TypeError>, params: &[Param])
    ensures { least.new ≡ least_of least.old (parameter_faults 0 params.now) }
{
    for (above, param) in params.iter().enumerate() {
        let is_full = above == MOST_PARAMETERS as usize;
        let fault = TypeError::Many(Limited::Parameters, param.at);
        note_if(least, is_full, fault);
    }
}

/// Prototypes that do not agree with the procedure of their name.
pub(crate) fn note_prototypes(least: &mut Option<TypeError>, bodies: &Scopes, items: &[Item])
    requires { bodies.now ≡ top bodies.now ∷ [] }
    ensures { least.new ≡ least_of least.old (prototype_faults (top bodies.now) items.now) }
{
    for item in items {
        note_prototype(least, bodies, item);
    }
}

fn note_prototype(least: &mut Option<TypeError>, bodies: &Scopes, item: &Item)
    requires { bodies.now ≡ top bodies.now ∷ [] }
    ensures { least.new ≡ least_of least.old (prototype_faults (top bodies.now) (item.now ∷ [])) }
{
    match item {
        Item::Global { .. } => {}
        Item::Proto {
            name,
            at,
            returns,
            params,
        } => {
            let agrees = agrees(*returns, *params, bodies.meaning_of(name));
            note_if(least, !agrees, TypeError::Arity(*at));
        }
        Item::Body { .. } => {}
    }
}

fn agrees(returns: bool, params: Option<u32>, meaning: Option<Meaning>) -> bool
    ensures { result ≡ agrees returns params meaning }
{
    match meaning {
        Some(Meaning::Procedure(signature)) => {
            agrees_in_value(returns, signature.returns)
                && agrees_in_number(params, signature.params)
        }
        Some(Meaning::Variable(_)) => true,
        None => true,
    }
}

fn agrees_in_value(returns: bool, other: bool) -> bool
    ensures { result ≡ agrees_in_value returns other }
{
    if returns { other } else { !other }
}

fn agrees_in_number(params: Option<u32>, count: usize) -> bool
    ensures { result ≡ agrees_in_number params count }
{
    match params {
        Some(params) => params as usize == count,
        None => true,
    }
}
