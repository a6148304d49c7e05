ghost use Rattle.std.specs.Prelude.{◌≡◌, ◌↔◌, length, slice_index, IsTrue};

/// A column of a polynomial: one of the numbers at entry, or an auxiliary number.
#[derive(Clone, Copy, Debug, PartialEq, Eq, PartialOrd, Ord, Hash)]
pub enum Col {
    At(u32),
    Aux(u32),
}

impl Col {
    ghost use Rattle.linear_terms.specs.Auxiliaries.{is_auxiliary, is_entry, is_numbered, renumbered_column};
    ghost use Rattle.linear_terms.specs.Replacement.{IsBelow};

    /// Whether this is the auxiliary of that number.
    pub(crate) fn is_auxiliary(self, aux: u32) -> bool
        ensures { result ≡ is_auxiliary aux self }
    {
        match self {
            Col::At(_) => false,
            Col::Aux(number) => number == aux,
        }
    }

    /// Whether this is the entry column of that number.
    pub(crate) fn is_entry(self, at: u32) -> bool
        ensures { result ≡ is_entry at self }
    {
        match self {
            Col::At(number) => number == at,
            Col::Aux(_) => false,
        }
    }

    /// An auxiliary's number replaced by the one at its place.
    pub(crate) fn with_numbers(self, numbers: &[u32]) -> Col
        requires { IsTrue (is_numbered (length numbers.now) self) }
        ensures { result ≡ renumbered_column (slice_index numbers.now) self }
    {
        match self {
            Col::At(number) => Col::At(number),
            Col::Aux(number) => Col::Aux(numbers[number as usize]),
        }
    }

    /// Whether the number is below that of the entry columns, or of the auxiliaries.
    pub(crate) fn is_below(self, at: usize, aux: usize) -> bool
        ensures { IsTrue result ↔ IsBelow at aux self }
    {
        match self {
            Col::At(number) => (number as usize) < at,
            Col::Aux(number) => (number as usize) < aux,
        }
    }
}
