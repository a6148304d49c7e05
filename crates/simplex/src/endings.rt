use crate::gauss::Stage;
use items::Items;
use linear_terms::{Mono, Row};
use std::alloc::{AllocFailed, Global};
use std::marker::Model;

/// Where the raise of an objective over the rows of a case ended: a corner of the rows, over their
/// own columns.
#[derive(Drop)]
pub(crate) struct Ending {
    pub(crate) columns: Items<Mono>,
    pub(crate) rows: Items<Row>,
    /// Whether the numbers of the rows are short.
    pub(crate) short: bool,
    pub(crate) stage: Stage,
}

// Clauses see nothing of an ending.
impl Model for Ending {
    ghost use Rattle.std.specs.Prelude.{⊤};
    ghost use Rattle.simplex.specs.Endings.{IsLeftAt};

    ghost Value = { ⊤ };

    ghost view = { λ _. tt };

    ghost invariant = { λ e. IsLeftAt e.columns e.rows e.short e.stage.enters e.stage.tableau };
}

/// Where the last suprema of cases ended, a place for each case, as far as it is known. A supremum
/// over the same rows begins there. What an answer may be does not depend on it.
#[derive(Drop)]
pub struct Endings {
    cases: Vec<Option<Ending>>,
}

impl Endings {
    /// Nothing is known, which takes no memory.
    pub fn new(alloc: Global) -> Endings {
        Endings {
            cases: Vec::new(alloc),
        }
    }

    /// Takes out what is known of the case at a place.
    pub(crate) fn take(&mut self, place: usize) -> Option<Ending> {
        if place < self.cases.len() {
            self.cases[place].take()
        } else {
            None
        }
    }

    /// Notes what is known of the case at a place. All cases before it have places.
    pub(crate) fn note(
        &mut self,
        place: usize,
        ending: Option<Ending>,
    ) -> Result<(), AllocFailed<Option<Ending>>> {
        if place < self.cases.len() {
            self.cases[place] = ending;
            Ok(())
        } else {
            self.cases.push(ending)
        }
    }
}
