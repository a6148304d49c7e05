ghost use Rattle.std.specs.Prelude.{◌≡◌, ◌+◌, ◌-◌, ◌<◌, ◌≤◌, [], ◌∷◌, ◌++◌, length, take, drop, fold, map, slice_index, All, ◌↔◌, IsTrue, Some, refl};
ghost use Rattle.std.specs.List.{list_all, list_any};
ghost use Rattle.std.specs.Option.{SomeIff};
ghost use Rattle.std.specs.Ordering.{eq_by_cmp, is_lt};
ghost use Rattle.linear_terms.specs.Col.{col_cmp};
ghost use Rattle.std.specs.Cmp.{partial_order_from_agreeing_total, partial_equiv_from_equiv, eq_by_cmp_equiv};
ghost use Rattle.linear_terms.specs.Mono.{mono_cmp, in_order, is_in_order, with_column};
ghost use Rattle.linear_terms.specs.Auxiliaries.{has_auxiliary, is_entry, is_numbered, renumbered_column, KeepsOrder};
ghost use Rattle.linear_terms.specs.Replacement.{IsBelow};
ghost use Rattle.linear_terms.specs.MonoOrder.{mono_cmp_total};

use crate::Col;
use std::cmp::Ordering;
use std::marker::Model;

/// The most columns of a monomial.
pub(crate) const DEGREE: usize = 4;

/// A product of one to four columns, which stand in order and may repeat.
#[derive(Clone, Copy, Debug)]
pub struct Mono {
    cells: [Col; DEGREE],
    len: usize,
}

impl Model for Mono {
    ghost use Rattle.std.specs.Prelude.{List, ◌++◌, ◌-◌, length, replicate};
    ghost use Rattle.linear_terms.specs.declared.col.Col.{Col};
    ghost use Rattle.linear_terms.specs.declared.col.Col.TheVariants.{At};

    ghost Value = { List Col };

    ghost use Rattle.linear_terms.specs.MonoFields.{columns_of, IsMono};

    ghost view = { columns_of };

    ghost invariant = { IsMono };

    ghost inverse = { λ m.
        record { cells = m ++ replicate (4 - length m) (At 0); len = length m } };
}

impl Mono {
    /// Puts one to four columns in order; none where there are no columns, or more.
    pub fn new(columns: &[Col]) -> Option<Mono>
        ensures { SomeIff result ((1 ≤ length columns.now) × (length columns.now ≤ 4))
            (in_order columns.now) }
    {
        if columns.is_empty() || DEGREE < columns.len() {
            return None;
        }
        Some(Mono::product(columns, &[]))
    }

    /// One column.
    pub(crate) fn of(col: Col) -> Mono
        ensures { result ≡ col ∷ [] }
    {
        Mono {
            cells: [col, Col::At(0), Col::At(0), Col::At(0)],
            len: 1,
        }
    }

    /// The columns of two lists together, in order.
    pub(crate) fn product(left: &[Col], right: &[Col]) -> Mono
        requires some { 1 ≤ length left.now + length right.now }
        requires few { length left.now + length right.now ≤ 4 }
        ensures { result ≡ in_order (left.now ++ right.now) }
    {
        let mut cells = [Col::At(0); DEGREE];
        place_each(&mut cells, 0, left);
        place_each(&mut cells, left.len(), right);
        Mono {
            cells,
            len: left.len() + right.len(),
        }
    }

    /// Whether each column's number is below that of the entry columns, or of the auxiliaries.
    pub(crate) fn is_below(&self, at: usize, aux: usize) -> bool
        ensures { IsTrue result ↔ All (IsBelow at aux) self.now }
    {
        self.columns().iter().all(|col| col.is_below(at, aux))
    }

    /// The auxiliaries' numbers replaced by those at their places, which keep the columns in order.
    pub(crate) fn with_numbers(&self, numbers: &[u32]) -> Mono
        requires numbered { IsTrue (list_all (is_numbered (length numbers.now)) self.now) }
        requires order { KeepsOrder (slice_index numbers.now) (λ n. has_auxiliary n self.now) }
        ensures { result ≡ map (renumbered_column (slice_index numbers.now)) self.now }
    {
        let columns = self.columns();
        let mut cells = [Col::At(0); DEGREE];
        renumber_each(&mut cells, columns, numbers);
        Mono {
            cells,
            len: columns.len(),
        }
    }

    /// Whether the auxiliary is one of the columns.
    pub fn has_auxiliary(&self, aux: u32) -> bool
        ensures { result ≡ has_auxiliary aux self.now }
    {
        self.columns().iter().any(|col| col.is_auxiliary(aux))
    }

    /// Whether the entry column is one of the columns.
    pub(crate) fn has_entry(&self, at: u32) -> bool
        ensures { result ≡ list_any (is_entry at) self.now }
    {
        self.columns().iter().any(|col| col.is_entry(at))
    }

    /// The columns, in order.
    pub fn columns(&self) -> &[Col]
        ensures columns { result.now ≡ self.now }
        ensures in_order { IsTrue (is_in_order result.now) }
        ensures some { 1 ≤ length result.now }
        ensures few { length result.now ≤ 4 }
    {
        &self.cells[..self.len]
    }
}

/// Writes the renumbered columns into the first cells.
fn renumber_each(cells: &mut [Col; DEGREE], columns: &[Col], numbers: &[u32])
    requires few { length columns.now ≤ 4 }
    requires numbered { IsTrue (list_all (is_numbered (length numbers.now)) columns.now) }
    ensures written { take (length columns.now) cells.new
        ≡ map (renumbered_column (slice_index numbers.now)) columns.now }
    ensures after { drop (length columns.now) cells.new ≡ drop (length columns.now) cells.old }
{
    for (i, col) in columns.iter().enumerate() {
        cells[i] = col.with_numbers(numbers);
    }
}

/// Puts each of the columns at its place among the first `len` cells and those put before.
fn place_each(cells: &mut [Col; DEGREE], len: usize, columns: &[Col])
    requires { len + length columns.now ≤ 4 }
    ensures placed { take (len + length columns.now) cells.new ≡ fold with_column (take len cells.old)
        columns.now }
    ensures after { drop (len + length columns.now) cells.new ≡ drop (len + length columns.now)
        cells.old }
{
    for (i, col) in columns.iter().enumerate() {
        place(cells, len + i, *col);
    }
}

/// Puts a column at its place among the first `len` cells, which make room.
fn place(cells: &mut [Col; DEGREE], len: usize, col: Col)
    requires { len < 4 }
    ensures placed { take (len + 1) cells.new ≡ with_column (take len cells.old) col }
    ensures after { drop (len + 1) cells.new ≡ drop (len + 1) cells.old }
{
    let mut carried = col;
    for i in 0..len {
        let cell = cells[i];
        if is_before(carried, cell) {
            cells[i] = carried;
            carried = cell;
        }
    }
    cells[len] = carried;
}

fn is_before(left: Col, right: Col) -> bool
    ensures { result ≡ is_lt (col_cmp left right) }
{
    left < right
}

impl PartialEq for Mono {
    ghost eq = { eq_by_cmp mono_cmp };

    ghost laws = { partial_equiv_from_equiv (eq_by_cmp_equiv mono_cmp_total) };

    fn eq(&self, other: &Self) -> bool {
        let columns = self.columns();
        let others = other.columns();
        if columns.len() != others.len() {
            return false;
        }
        if columns.len() == 1 {
            return columns[0] == others[0];
        }
        self.cmp(other) == Ordering::Equal
    }
}

impl Eq for Mono {
    ghost laws = { eq_by_cmp_equiv mono_cmp_total };
}

impl PartialOrd for Mono {
    ghost partial_cmp = { λ m n. Some (mono_cmp m n) };

    ghost laws = { partial_order_from_agreeing_total mono_cmp mono_cmp_total (λ m n. refl)
        (λ m n. refl) };

    fn partial_cmp(&self, other: &Self) -> Option<Ordering> {
        Some(self.cmp(other))
    }
}

/// Print order: the greater degree first, and of one degree by the columns, the smaller first.
impl Ord for Mono {
    ghost cmp = { mono_cmp };

    ghost total = { mono_cmp_total };

    ghost matches_partial_cmp = { λ m n. refl };

    ghost matches_eq = { λ m n. refl };

    fn cmp(&self, other: &Self) -> Ordering {
        let columns = self.columns();
        let others = other.columns();
        if columns.len() == 1 && others.len() == 1 {
            return columns[0].cmp(&others[0]);
        }
        match others.len().cmp(&columns.len()) {
            Ordering::Equal => columns.cmp(others),
            by_degree => by_degree,
        }
    }
}
