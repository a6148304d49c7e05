ghost use Rattle.std.specs.Prelude.{◌++◌, codes, decimal};
ghost use Rattle.std.specs.List.{flat_map};
ghost use Rattle.report.specs.Text.{dropped_text, limit_text, loss_text, note_line, note_text, witness_text};
ghost use Rattle.report.specs.Appends.{Appends};

use crate::ProcBlock;
use crate::names::names_of;
use crate::text::ReportText;
use farkas_check::Limit;
use linear_terms::Row;
use posing::{Note, Witness};
use std::alloc::{AllocError, Global};
use transition_formula::Loss;

impl ReportText {
    pub(crate) fn put_limit(&mut self, limit: &Limit) -> Result<(), AllocError>
        ensures { Appends self.old self.new result (limit_text limit.now) }
    {
        match limit {
            Limit::Wide { left, right, times } => {
                self.put("limit ")?;
                self.put_wide(*left, *right, *times)
            }
            Limit::Pivots => self.put("limit pivots"),
        }
    }

    fn put_loss(&mut self, loss: &Loss) -> Result<(), AllocError>
        ensures { Appends self.old self.new result (loss_text loss.now) }
    {
        match loss {
            Loss::Wide { left, right, times } => self.put_wide(*left, *right, *times),
            Loss::Degree => self.put("degree"),
        }
    }

    fn put_witness(&mut self, names: &[ReportText], by: &Witness) -> Result<(), AllocError>
        ensures { Appends self.old self.new result (witness_text names.now by.now) }
    {
        match by {
            Witness::Point { of, at } => self.put_point(names, of, at),
            Witness::Limit(limit) => self.put_limit(limit),
        }
    }

    #[tactic(auto, unfolding(crate::specs::Text::dropped_text))]
    fn put_dropped(
        &mut self,
        names: &[ReportText],
        row: &Row,
        by: &Witness,
    ) -> Result<(), AllocError>
        ensures { Appends self.old self.new result (dropped_text names.now row.now by.now) }
    {
        self.put("dropped ")?;
        self.put_row(names, row)?;
        self.put(" ")?;
        self.put_witness(names, by)
    }

    fn put_counted(&mut self, what: &str, n: u32, of: &str) -> Result<(), AllocError>
        ensures { Appends self.old self.new result (what.now ++ decimal n ++ of.now) }
    {
        self.put(what)?;
        self.put_count(n as u128)?;
        self.put(of)
    }

    fn put_note(
        &mut self,
        alloc: Global,
        blocks: &[ProcBlock],
        note: &Note,
    ) -> Result<(), AllocError>
        ensures { Appends self.old self.new result (note_text blocks.now note.now) }
    {
        match note {
            Note::Loss(loss) => self.put_loss(loss),
            Note::Squash(n) => self.put_counted("squash ", *n, " cases"),
            Note::Cut(n) => self.put_counted("cut ", *n, " rows"),
            Note::Limit(limit) => self.put_limit(limit),
            Note::Dropped { proc, row, by } => {
                let names = names_of(alloc, blocks, *proc)?;
                self.put_dropped(&names, row, by)
            }
            Note::Facets => self.put("facets beyond"),
        }
    }

    /// A line for each note.
    pub(crate) fn put_notes(
        &mut self,
        alloc: Global,
        blocks: &[ProcBlock],
        notes: &[Note],
    ) -> Result<(), AllocError>
        ensures { Appends self.old self.new result (flat_map (note_line blocks.now) notes.now) }
    {
        for note in notes {
            self.put("note ")?;
            self.put_note(alloc, blocks, note)?;
            self.put("\n")?;
        }
        Ok(())
    }
}
