ghost use Rattle.std.specs.Prelude.{◌≡◌, ◌<◌, ◌≤◌, ◌==◌, ◌&&◌, ℕ, None, Some, IfOk, OnOk, if◌then◌else◌};
ghost use Rattle.std.specs.Option.{option_copied};

use crate::rows::Rows;
use std::alloc::{AllocError, Global};

/// A cell for each two places, of which few hold something. It goes over the cells that lead into a
/// place from those up to it, and over the cells that lead out of it to those below it, without a
/// look at any other.
#[derive(Drop)]
pub(crate) struct Table<T> {
    // The cell for i and j where i is not above j, in row j.
    into: Rows<T>,
    // The cell for i and j where i is above j, in row i.
    out: Rows<T>,
}

impl<T> Table<T> {
    ghost use Rattle.path_expr.specs.Table.{cell, place_count, IsNext};

    /// A table for so many places, of which no cell holds anything.
    pub(crate) fn new(alloc: Global, count: u32) -> Result<Table<T>, AllocError>
    where
        T: Drop,
        ensures places { IfOk result (λ t. place_count t ≡ count) }
        ensures empty { IfOk result (λ t. (i j : ℕ) → cell t i j ≡ None) }
    {
        let into = Rows::new(alloc, count)?;
        let out = Rows::new(alloc, count)?;
        Ok(Table { into, out })
    }

    /// What the cell for i and j holds.
    pub(crate) fn get(&self, i: u32, j: u32) -> Option<&T>
        ensures value { option_copied result ≡ cell self.now i j }
    {
        if i <= j {
            self.into.get(j, i)
        } else {
            self.out.get(i, j)
        }
    }

    /// The first place below n, at or after `from`, from which a cell leads into n.
    pub(crate) fn next_into(&self, n: u32, from: u32) -> Option<u32>
        requires { from ≤ n }
        ensures next { IsNext (λ i. cell self.now i n) from n result }
    {
        self.into.next(n, from, n)
    }

    /// The first place below n, at or after `from`, to which a cell leads out of n.
    pub(crate) fn next_out(&self, n: u32, from: u32) -> Option<u32>
        requires { from ≤ n }
        ensures next { IsNext (cell self.now n) from n result }
    {
        self.out.next(n, from, n)
    }

    /// Takes away what the cell for i and j holds.
    pub(crate) fn take(&mut self, i: u32, j: u32) -> Option<T>
        ensures value { result ≡ cell self.old i j }
        ensures places { place_count self.new ≡ place_count self.old }
        ensures others { (a b : ℕ)
            → cell self.new a b ≡ (if a == i && b == j then None else cell self.old a b) }
    {
        if i <= j {
            self.into.take(j, i)
        } else {
            self.out.take(i, j)
        }
    }

    /// Puts something into the cell for i and j.
    pub(crate) fn put(&mut self, i: u32, j: u32, item: T) -> Result<(), AllocError>
    where
        T: Drop,
        requires from { i < place_count self.old }
        requires to { j < place_count self.old }
        ensures places { place_count self.new ≡ place_count self.old }
        ensures others { OnOk result
            ((a b : ℕ) → cell self.new a b
            ≡ (if a == i && b == j then Some item else cell self.old a b)) }
    {
        if i <= j {
            self.into.put(j, i, item)
        } else {
            self.out.put(i, j, item)
        }
    }
}
