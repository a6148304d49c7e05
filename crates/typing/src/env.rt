#![tactic(auto, unfolding(crate::specs::Env::with_columns_taken, crate::specs::Env::with_variable, crate::specs::Env::with_assertions, crate::specs::Env::with_scope, crate::specs::Env::without_scope, crate::specs::Env::with_place, crate::specs::Scopes::variable_of, crate::specs::Scopes::callee_of))]

ghost use Rattle.std.specs.Prelude.{◌≡◌, ◌≤◌, ◌^◌, ◌+◌, IfOk, OnErr, OnOk};
ghost use Rattle.typing.specs.Env.{body_place, without_scope, with_variable, with_assertions, with_scope, with_place, with_columns_taken};
ghost use Rattle.typing.specs.LineFaults.{may_leave};
ghost use Rattle.typing.specs.Scopes.{callee_of, variable_of};

use crate::callee::Callee;
use crate::meaning::Meaning;
use crate::scopes::Scopes;
use crate::special::special_of;
use crate::sums::sum;
use std::alloc::{AllocError, Global};
use syntax_tree::Name;

/// Where a line stands: in no loop, in the body of one, or in the step of one, which nothing
/// leaves.
#[derive(Clone, Copy)]
pub(crate) enum LoopPlace {
    Outside,
    InBody,
    InStep,
}

impl LoopPlace {
    pub(crate) fn body(self) -> LoopPlace
        ensures { result ≡ body_place self }
    {
        match self {
            LoopPlace::Outside => LoopPlace::InBody,
            LoopPlace::InBody => LoopPlace::InBody,
            LoopPlace::InStep => LoopPlace::InStep,
        }
    }

    pub(crate) fn may_leave(self) -> bool
        ensures { result ≡ may_leave self }
    {
        match self {
            LoopPlace::Outside => false,
            LoopPlace::InBody => true,
            LoopPlace::InStep => false,
        }
    }
}

/// What a line of a procedure depends on.
#[derive(Drop)]
pub(crate) struct Env {
    pub(crate) scopes: Scopes,
    // the first column that is not taken yet
    pub(crate) next: u32,
    // the assertions above
    pub(crate) number: u32,
    pub(crate) place: LoopPlace,
    pub(crate) returns: bool,
    // the column of the returned value
    pub(crate) ret: u32,
    // the column behind the last one that a procedure may have
    pub(crate) full: u32,
}

impl Env {
    /// Takes the next column.
    pub(crate) fn take(&mut self) -> Result<u32, AllocError>
        ensures col { IfOk result (λ col. col ≡ self.old.next) }
        ensures env { OnOk result (self.new ≡ with_columns_taken 1 self.old) }
        ensures past { OnErr result (2 ^ 32 ≤ self.old.next + 1) }
    {
        let col = self.next;
        self.next = sum(col, 1)?;
        Ok(col)
    }

    /// Declares a variable, which takes the next column.
    pub(crate) fn declare(&mut self, alloc: Global, name: &Name) -> Result<u32, AllocError>
        ensures col { IfOk result (λ col. col ≡ self.old.next) }
        ensures env { OnOk result (self.new ≡ with_variable name.now self.old) }
    {
        let col = self.next;
        self.scopes
            .declare(alloc, name.clone()?, Meaning::Variable(col))?;
        self.next = sum(col, 1)?;
        Ok(col)
    }

    /// Takes the next number of an assertion.
    pub(crate) fn number_next(&mut self) -> Result<u32, AllocError>
        ensures number { IfOk result (λ number. number ≡ self.old.number + 1) }
        ensures env { OnOk result (self.new ≡ with_assertions 1 self.old) }
        ensures past { OnErr result (2 ^ 32 ≤ self.old.number + 1) }
    {
        let number = sum(self.number, 1)?;
        self.number = number;
        Ok(number)
    }

    pub(crate) fn open(&mut self, alloc: Global) -> Result<(), AllocError>
        ensures { OnOk result (self.new ≡ with_scope self.old) }
    {
        self.scopes.open(alloc)
    }

    pub(crate) fn close(&mut self)
        ensures { self.new ≡ without_scope self.old }
    {
        self.scopes.close();
    }

    pub(crate) fn set_place(&mut self, place: LoopPlace)
        ensures { self.new ≡ with_place place self.old }
    {
        self.place = place;
    }

    /// The column of the variable that a name means.
    pub(crate) fn variable_of(&self, name: &Name) -> Option<u32>
        ensures { result ≡ variable_of self.now.scopes name.now }
    {
        if special_of(name.as_slice()).is_some() {
            return None;
        }
        match self.scopes.meaning_of(name) {
            Some(Meaning::Variable(col)) => Some(col),
            Some(Meaning::Procedure(_)) => None,
            None => None,
        }
    }

    /// What the name of a call means.
    pub(crate) fn callee_of(&self, name: &Name) -> Callee
        ensures { result ≡ callee_of self.now.scopes name.now }
    {
        match special_of(name.as_slice()) {
            Some(special) => Callee::Special(special),
            None => match self.scopes.meaning_of(name) {
                Some(Meaning::Procedure(signature)) => Callee::Own(signature),
                Some(Meaning::Variable(_)) => Callee::Nobody,
                None => Callee::Nobody,
            },
        }
    }
}
