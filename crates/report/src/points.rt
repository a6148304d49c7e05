ghost use Rattle.std.specs.Prelude.{◌++◌, codes, decimal};
ghost use Rattle.std.specs.List.{flat_map};
ghost use Rattle.report.specs.Points.{place_text, point_rows_text, search_text};
ghost use Rattle.report.specs.Appends.{Appends};

use crate::names::{letters, row_names};
use crate::text::ReportText;
use items::Items;
use linear_terms::Row;
use std::alloc::{AllocError, Global};
use syntax_tree::Name;

/// Where rows hold: at the entry of a procedure, at the head of its loop of this number, from 1 in
/// the order of the heads, or where it returns.
#[derive(Clone, Copy)]
pub enum RowsAt {
    Entry,
    Loop(u32),
    Return,
}

/// Rows that hold in every execution from `main` wherever an activation of the procedure is at a
/// point, or where it returns. `proc` is the procedure's number, and `name` its name. `columns`
/// names the first columns of the rows: the globals, then the parameters, and at the head of a loop
/// all variables of the procedure; one without a name in the text has no letter. `after` names
/// those behind these: the globals where it returns, and none at a point. A column past all of them
/// is the returned value.
#[derive(Drop)]
pub struct PointRows {
    pub proc: u32,
    pub name: Name,
    pub at: RowsAt,
    pub columns: Items<Name>,
    pub after: Items<Name>,
    pub rows: Items<Row>,
}

/// What is told of points: the rows there, in order, and whether some may be missing, because the
/// search for them ended at its counts.
#[derive(Drop)]
pub struct PointsTold {
    pub is_cut: bool,
    pub rows: Items<PointRows>,
}

impl ReportText {
    /// A line that says that rows may be missing, where the search for them was cut.
    pub(crate) fn put_search(&mut self, is_cut: bool) -> Result<(), AllocError>
        ensures { Appends self.old self.new result (search_text is_cut) }
    {
        self.put(if is_cut { "note search beyond\n" } else { "" })
    }

    /// Where rows hold, without an end of the line.
    #[tactic(auto, unfolding(crate::specs::Points::place_text))]
    fn put_place(&mut self, at: RowsAt, name: &Name) -> Result<(), AllocError>
        ensures { Appends self.old self.new result (place_text at name.now) }
    {
        match at {
            RowsAt::Entry => self.put_titled("reached ", name),
            RowsAt::Loop(number) => {
                self.put_titled("reached ", name)?;
                self.put(" loop ")?;
                self.put_count(number as u128)
            }
            RowsAt::Return => self.put_titled("returned ", name),
        }
    }

    /// A name behind a word.
    fn put_titled(&mut self, word: &str, name: &Name) -> Result<(), AllocError>
        ensures { Appends self.old self.new result (word.now ++ name.now) }
    {
        self.put(word)?;
        self.put(letters(name))
    }

    /// A line that says where the rows hold, and below it a line for each.
    fn put_point_rows(&mut self, alloc: Global, point: &PointRows) -> Result<(), AllocError>
        ensures { Appends self.old self.new result (point_rows_text point.now) }
    {
        let names = row_names(alloc, point)?;
        self.put_place(point.at, &point.name)?;
        self.put("\n")?;
        self.put_rows(&names, &point.rows)
    }

    /// The rows at points, one after another.
    pub(crate) fn put_points(
        &mut self,
        alloc: Global,
        points: &[PointRows],
    ) -> Result<(), AllocError>
        ensures { Appends self.old self.new result (flat_map point_rows_text points.now) }
    {
        for point in points {
            self.put_point_rows(alloc, point)?;
        }
        Ok(())
    }
}
