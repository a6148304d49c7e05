ghost use Rattle.std.specs.Prelude.{◌≡◌, ℕ, None, if◌then◌else◌, List, [], ◌∷◌, ◌++◌, map, length, IfOk, OnOk};
ghost use Rattle.std.specs.Map.{lookup};
ghost use Rattle.std.specs.Str.{bytes_eq};
ghost use Rattle.typing.specs.InForce.{after_declaration, entry_of, entry_for, in_force, is_at, IsInForce, IsInnermost, Restores, scopes_of};
ghost use Rattle.typing.specs.Scopes.{with_declaration, is_declared_here, meaning_of, outer_of, Scope};

use crate::meaning::Meaning;
use indexmap::IndexMap;
use items::Items;
use std::alloc::{AllocError, Global};
use std::marker::Model;
use std::mem::replace;
use syntax_tree::Name;

/// The declaration that is in force for a name: how many scopes stand around its own, and what the
/// name means.
#[derive(Clone, Copy)]
pub(crate) struct Held {
    depth: usize,
    meaning: Meaning,
}

/// A declaration, and the one that was in force before it.
#[derive(Drop)]
pub(crate) struct Declaration {
    name: Name,
    meaning: Meaning,
    hidden: Option<Held>,
}

/// For each name the declaration in force.
type Index = IndexMap<Name, Option<Held>>;

/// Scopes within scopes, with the declarations of each. A name is found by one look into a map,
/// whatever the number of scopes; a scope that ends puts back what its declarations hid.
#[derive(Drop)]
pub(crate) struct Scopes {
    // the outermost first
    stack: Items<Items<Declaration>>,
    index: Index,
}

impl Model for Scopes {
    ghost use Rattle.std.specs.Prelude.{List, ℕ};
    ghost use Rattle.typing.specs.declared.meaning.Meaning.{Meaning};
    ghost use Rattle.typing.specs.InForce.{scopes_of, IsInForce, RestoresAll};

    ghost Value = { List (List (List ℕ × Meaning)) };

    ghost view = { λ a. scopes_of a.stack };

    ghost invariant = { λ a. IsInForce a.index.entries (scopes_of a.stack) × RestoresAll a.stack };
}

/// The declaration in force for a name.
fn look_up(index: &Index, name: &Name) -> Option<Held>
    ensures { result ≡ entry_for index.now.entries name.now }
{
    match index.get(name) {
        Some(held) => *held,
        None => None,
    }
}

/// Whether the declaration in force stands in a scope with so many around it.
fn is_at(held: Option<Held>, depth: usize) -> bool
    ensures { result ≡ is_at held depth }
{
    match held {
        Some(held) => held.depth == depth,
        None => false,
    }
}

/// Puts a declaration in force, unless its scope has declared the name already.
fn declare_in(
    index: &mut Index,
    name: &Name,
    held: Held,
    hidden: Option<Held>,
) -> Result<(), AllocError>
    ensures { OnOk result
        ((other : List ℕ) → entry_for index.new.entries other ≡ after_declaration name.now held hidden
        (entry_for index.old.entries other) other) }
{
    if !is_at(hidden, held.depth) {
        index.insert(name.clone()?, Some(held))?;
    }
    Ok(())
}

/// Takes the innermost scope, or an empty one where there is none.
fn take_innermost(alloc: Global, stack: &mut Items<Items<Declaration>>) -> Items<Declaration>
    ensures { IsInnermost stack.old stack.new result }
{
    match stack.pop() {
        Some(scope) => scope,
        None => Items::new(alloc),
    }
}

/// Puts a scope with one more declaration behind the scopes around it.
fn push_scope(
    stack: &mut Items<Items<Declaration>>,
    mut scope: Items<Declaration>,
    last: Declaration,
) -> Result<(), AllocError>
    ensures { OnOk result (stack.new ≡ stack.old ++ (scope ++ last ∷ []) ∷ []) }
{
    scope.push(last)?;
    stack.push(scope)?;
    Ok(())
}

/// Puts back what a declaration hid. This takes no memory, since the name has a place in the map.
fn put_back(declaration: Declaration, index: &mut Index)
    ensures { (lookup (bytes_eq declaration.name) index.old.entries ≡ None → ⊥) → (other : List ℕ) →
        entry_for index.new.entries other
        ≡ (if bytes_eq declaration.name other then declaration.hidden
        else entry_for index.old.entries other) }
{
    let _ = index.insert(declaration.name, declaration.hidden);
}

/// Puts back what the declarations of a scope hid.
fn restore(mut scope: Items<Declaration>, index: &mut Index)
    ensures { (outer : List Scope) → Restores scope outer
        → IsInForce index.old.entries (map entry_of scope ∷ outer)
        → IsInForce index.new.entries outer }
{
    while let Some(declaration) = scope.pop() {
        put_back(declaration, index);
    }
}

impl Scopes {
    pub(crate) fn new(alloc: Global) -> Scopes
        ensures { result ≡ [] }
    {
        Scopes {
            stack: Items::new(alloc),
            index: IndexMap::new(alloc),
        }
    }

    /// Opens a scope without declarations.
    pub(crate) fn open(&mut self, alloc: Global) -> Result<(), AllocError>
        ensures { OnOk result (self.new ≡ [] ∷ self.old) }
    {
        self.stack.push(Items::new(alloc))?;
        Ok(())
    }

    /// Leaves the innermost scope.
    pub(crate) fn close(&mut self)
        ensures { self.new ≡ outer_of self.old }
    {
        if let Some(scope) = self.stack.pop() {
            restore(scope, &mut self.index);
        }
    }

    /// Declares a name in the innermost scope. Where it is declared there already, that declaration
    /// stays. After an error no scope is left.
    pub(crate) fn declare(
        &mut self,
        alloc: Global,
        name: Name,
        meaning: Meaning,
    ) -> Result<(), AllocError>
        ensures { OnOk result (self.new ≡ with_declaration name meaning self.old) }
    {
        let scopes = replace(self, Scopes::new(alloc));
        *self = scopes.with(alloc, name, meaning)?;
        Ok(())
    }

    fn with(self, alloc: Global, name: Name, meaning: Meaning) -> Result<Scopes, AllocError>
        ensures { IfOk result (λ scopes. scopes ≡ with_declaration name meaning self) }
    {
        let Scopes {
            mut stack,
            mut index,
        } = self;
        let scope = take_innermost(alloc, &mut stack);
        let depth = stack.len();
        let hidden = look_up(&index, &name);
        declare_in(&mut index, &name, Held { depth, meaning }, hidden)?;
        let last = Declaration {
            name,
            meaning,
            hidden,
        };
        push_scope(&mut stack, scope, last)?;
        Ok(Scopes { stack, index })
    }

    /// The declaration in force for a name.
    fn in_force(&self, name: &Name) -> Option<Held>
        ensures { result ≡ in_force self.now name.now }
    {
        look_up(&self.index, name)
    }

    /// What a name means.
    pub(crate) fn meaning_of(&self, name: &Name) -> Option<Meaning>
        ensures { result ≡ meaning_of self.now name.now }
    {
        match self.in_force(name) {
            Some(held) => Some(held.meaning),
            None => None,
        }
    }

    /// How many scopes there are.
    fn depth(&self) -> usize
        ensures { result ≡ length self.now }
    {
        self.stack.len()
    }

    /// Whether the innermost scope has a name.
    pub(crate) fn is_declared_here(&self, name: &Name) -> bool
        ensures { result ≡ is_declared_here self.now name.now }
    {
        match self.depth().checked_sub(1) {
            Some(depth) => is_at(self.in_force(name), depth),
            None => false,
        }
    }
}
