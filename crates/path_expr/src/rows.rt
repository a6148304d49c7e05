ghost use Rattle.std.specs.Prelude.{◌≡◌, ◌<◌, ◌≤◌, ◌==◌, ◌&&◌, ℕ, None, Some, slice_get, IfOk, OnOk, if◌then◌else◌};
ghost use Rattle.std.specs.Option.{option_copied};

use std::alloc::{AllocError, Global};
use std::collections::BTreeMap;

/// Rows of which few places hold something: for each row an ordered map of these.
#[derive(Drop)]
pub(crate) struct Rows<T> {
    maps: Vec<BTreeMap<u32, T>>,
}

impl<T> Rows<T> {
    ghost use Rattle.path_expr.specs.Table.{entry, row_count, IsNext};

    /// So many empty rows.
    pub(crate) fn new(alloc: Global, count: u32) -> Result<Rows<T>, AllocError>
    where
        T: Drop,
        ensures rows { IfOk result (λ r. row_count r ≡ count) }
        ensures empty { IfOk result (λ r. (i j : ℕ) → entry r i j ≡ None) }
    {
        let mut maps = Vec::new(alloc);
        for _ in 0..count {
            maps.push(BTreeMap::new(alloc))?;
        }
        Ok(Rows { maps })
    }

    fn map(&self, row: u32) -> Option<&BTreeMap<u32, T>>
        ensures value { option_copied result ≡ slice_get self.now.maps.items row }
    {
        self.maps.get(row as usize)
    }

    /// What stands at a row and a column.
    pub(crate) fn get(&self, row: u32, column: u32) -> Option<&T>
        ensures value { option_copied result ≡ entry self.now row column }
    {
        self.map(row)?.get(&column)
    }

    /// The first column of a row, at or after `from` and below `end`, that holds something.
    pub(crate) fn next(&self, row: u32, from: u32, end: u32) -> Option<u32>
        requires { from ≤ end }
        ensures next { IsNext (entry self.now row) from end result }
    {
        let map = self.map(row)?;
        let (column, _) = map.range(from..end).next()?;
        Some(*column)
    }

    /// Takes away what stands at a row and a column.
    pub(crate) fn take(&mut self, row: u32, column: u32) -> Option<T>
        ensures value { result ≡ entry self.old row column }
        ensures rows { row_count self.new ≡ row_count self.old }
        ensures others { (i j : ℕ)
            → entry self.new i j ≡ (if i == row && j == column then None else entry self.old i j) }
    {
        self.maps.get_mut(row as usize)?.remove(&column)
    }

    /// Puts something at a row and a column.
    pub(crate) fn put(&mut self, row: u32, column: u32, item: T) -> Result<(), AllocError>
    where
        T: Drop,
        requires { row < row_count self.old }
        ensures rows { row_count self.new ≡ row_count self.old }
        ensures others { OnOk result
            ((i j : ℕ) → entry self.new i j
            ≡ (if i == row && j == column then Some item else entry self.old i j)) }
    {
        self.maps[row as usize].insert(column, item)?;
        Ok(())
    }
}
