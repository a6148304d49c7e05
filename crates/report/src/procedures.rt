ghost use Rattle.std.specs.Prelude.{◌++◌, ◌+◌, [], codes, decimal};
ghost use Rattle.std.specs.List.{flat_map};
ghost use Rattle.linear_terms.specs.Texts.{poly_text};
ghost use Rattle.report.specs.Text.{case_text, cases_from, cases_text, column_text, exit_name, post_lines, proc_text, row_line};
ghost use Rattle.report.specs.Appends.{Appends};

use crate::ProcBlock;
use crate::names::{column_names, letters};
use crate::text::ReportText;
use linear_terms::{Case, Poly, Row};
use std::alloc::{AllocError, Global};
use syntax_tree::Name;

impl ReportText {
    /// A line for each row.
    pub(crate) fn put_rows(&mut self, names: &[ReportText], rows: &[Row]) -> Result<(), AllocError>
        ensures { Appends self.old self.new result (flat_map (row_line names.now) rows.now) }
    {
        for row in rows {
            self.put("  ")?;
            self.put_row(names, row)?;
            self.put("\n")?;
        }
        Ok(())
    }

    /// The end of a post's line, behind its name.
    pub(crate) fn put_post(&mut self, names: &[ReportText], poly: &Poly) -> Result<(), AllocError>
        ensures { Appends self.old self.new result
            (codes " = " ++ poly_text (column_text names.now) poly.now ++ codes "\n") }
    {
        self.put(" = ")?;
        self.put_poly(names, poly)?;
        self.put("\n")
    }

    fn put_exits(
        &mut self,
        names: &[ReportText],
        after: &[Name],
        posts: &[Poly],
    ) -> Result<(), AllocError>
        ensures { Appends self.old self.new result
            (post_lines names.now (exit_name after.now) 0 posts.now) }
    {
        for (i, post) in posts.iter().enumerate() {
            self.put("  ")?;
            self.put_exit_name(after, i)?;
            self.put_post(names, post)?;
        }
        Ok(())
    }

    fn put_case(
        &mut self,
        names: &[ReportText],
        after: &[Name],
        number: usize,
        case: &Case,
    ) -> Result<(), AllocError>
        ensures { Appends self.old self.new result (case_text names.now after.now number case.now) }
    {
        self.put("case ")?;
        self.put_count(number as u128)?;
        self.put("\n")?;
        self.put_rows(names, &case.rows)?;
        self.put_exits(names, after, &case.post)
    }

    fn put_cases(
        &mut self,
        names: &[ReportText],
        after: &[Name],
        cases: &[Case],
    ) -> Result<(), AllocError>
        ensures { Appends self.old self.new result (cases_text names.now after.now cases.now) }
    {
        if cases.is_empty() {
            return self.put("none\n");
        }
        for (i, case) in cases.iter().enumerate() {
            self.put_case(names, after, i + 1, case)?;
        }
        Ok(())
    }

    /// A procedure with its summary, and the notes of its group.
    pub(crate) fn put_proc(
        &mut self,
        alloc: Global,
        blocks: &[ProcBlock],
        block: &ProcBlock,
    ) -> Result<(), AllocError>
        ensures { Appends self.old self.new result (proc_text blocks.now block.now) }
    {
        let names = column_names(alloc, block)?;
        self.put("procedure ")?;
        self.put(letters(&block.name))?;
        self.put("\n")?;
        self.put_cases(&names, &block.after, block.formula.cases())?;
        self.put_notes(alloc, blocks, &block.notes)
    }
}
