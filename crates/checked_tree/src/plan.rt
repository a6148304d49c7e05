ghost use Rattle.std.specs.Prelude.{◌≡◌, ◌<◌, ◌^◌, length, IfOk, OnErr};
ghost use Rattle.path_expr.specs.Walks.{IsGraph};
ghost use Rattle.checked_tree.specs.Plan.{HasNoted, IsPlanned};

use crate::key::Key;
use indexmap::IndexSet;
use items::Items;
use path_expr::{Algebra, Cell, Link, reach};
use std::alloc::{AllocError, Global};

/// The operations that evaluate a graph: the key of each path once, and the numbers of the paths in
/// the order of making.
#[derive(Drop)]
pub struct EliminationPlan {
    pub keys: IndexSet<Key>,
    pub order: Items<usize>,
}

impl EliminationPlan {
    /// Notes an operation and gives its path's number. Where memory is wanting, nothing changes.
    fn note(&mut self, key: Key) -> Result<usize, AllocError>
        ensures noted { IfOk result
            (λ n. HasNoted self.old.keys.keys self.new.keys.keys self.old.order self.new.order key
            n) }
        ensures keys { OnErr result (self.new.keys.keys ≡ self.old.keys.keys) }
        ensures order { OnErr result (self.new.order ≡ self.old.order) }
    {
        let count = self.keys.len();
        let (number, _) = self.keys.insert_full(key)?;
        match self.order.push(number) {
            Ok(()) => Ok(number),
            Err(_) => {
                self.keys.truncate(count);
                Err(AllocError)
            }
        }
    }
}

impl Algebra for EliminationPlan {
    ghost use Rattle.std.specs.Prelude.{◌≡◌, true};
    ghost use Rattle.checked_tree.specs.Plan.{IsPathOf, ArePathsOf};

    type Item = usize;

    type Fault = AllocError;

    ghost fits = { λ plan path n. IsPathOf plan.keys.keys path n };

    ghost spans = { λ _ _ _ _. Unit {0} };

    ghost ends = { λ _ _ _ _. Unit {0} };

    ghost is_memory = { λ _. true };

    ghost faults = { λ _. 0 };

    ghost made = { λ plan done. ArePathsOf plan.keys.keys done plan.order };

    ghost stopped = { λ _ _. Unit {0} };

    fn edge(&mut self, _alloc: Global, number: u32) -> Result<usize, AllocError> {
        self.note(Key::Edge(number))
    }

    fn seq(&mut self, _alloc: Global, first: &usize, second: &usize) -> Result<usize, AllocError> {
        self.note(Key::Seq(*first, *second))
    }

    fn join(&mut self, _alloc: Global, left: &usize, right: &usize) -> Result<usize, AllocError> {
        self.note(Key::Join(*left, *right))
    }

    fn star(&mut self, _alloc: Global, turn: &usize) -> Result<usize, AllocError> {
        self.note(Key::Star(*turn))
    }

    fn copy(&mut self, _alloc: Global, item: &usize) -> Result<usize, AllocError> {
        Ok(*item)
    }
}

/// The operations of the stated elimination, and at each node's place its cell.
pub fn elimination_plan(
    alloc: Global,
    nodes: u32,
    links: &[Link],
    source: u32,
) -> Result<(EliminationPlan, Vec<Cell<usize>>), AllocError>
    requires count { length links.now < 2 ^ 32 }
    requires graph { IsGraph nodes links.now }
    requires source { source < nodes }
    ensures { IfOk result
        (λ made. IsPlanned nodes links.now source made.0.keys.keys made.0.order made.1.items) }
{
    let mut plan = EliminationPlan {
        keys: IndexSet::new(alloc),
        order: Items::new(alloc),
    };
    match reach(alloc, &mut plan, nodes, links, source) {
        Ok(cells) => Ok((plan, cells)),
        Err(_) => Err(AllocError),
    }
}
