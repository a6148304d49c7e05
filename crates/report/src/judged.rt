ghost use Rattle.std.specs.Prelude.{◌++◌, [], codes, decimal};
ghost use Rattle.report.specs.Text.{judged_text, point_text, post_lines, refuting_text, shown_name_at, verdict_text};
ghost use Rattle.report.specs.Appends.{Appends};
ghost use Rattle.farkas_check.specs.Columns.{columns};

use crate::text::ReportText;
use crate::{Judged, ProcBlock, Verdict};
use farkas_check::{Ratio, case_columns};
use linear_terms::{Case, Poly, Row};
use std::alloc::{AllocError, Global};
use syntax_tree::Name;

impl ReportText {
    fn put_shown_posts(
        &mut self,
        named: &[Name],
        shown: &[u32],
        posts: &[Poly],
    ) -> Result<(), AllocError>
        ensures { Appends self.old self.new result
            (post_lines [] (shown_name_at named.now shown.now) 0 posts.now) }
    {
        for (i, post) in posts.iter().enumerate() {
            self.put("  ")?;
            self.put_shown_at(named, shown, i)?;
            self.put_post(&[], post)?;
        }
        Ok(())
    }

    fn put_refuting(&mut self, named: &[Name], shown: &[u32], case: &Case) -> Result<(), AllocError>
        ensures { Appends self.old self.new result (refuting_text named.now shown.now case.now) }
    {
        self.put_rows(&[], &case.rows)?;
        self.put_shown_posts(named, shown, &case.post)
    }

    /// The point of a case: a number for each monomial of its rows.
    fn put_case_point(
        &mut self,
        alloc: Global,
        rows: &[Row],
        point: &[Ratio],
    ) -> Result<(), AllocError>
        ensures { Appends self.old self.new result (point_text [] (columns rows.now []) point.now) }
    {
        let of = case_columns(alloc, rows, &[])?;
        self.put_point(&[], &of, point)
    }

    fn put_verdict(
        &mut self,
        alloc: Global,
        named: &[Name],
        shown: &[u32],
        verdict: &Verdict,
    ) -> Result<(), AllocError>
        ensures { Appends self.old self.new result (verdict_text named.now shown.now verdict.now) }
    {
        match verdict {
            Verdict::Proved => self.put(" proved\n"),
            Verdict::Unproved { case, point } => {
                self.put(" unproved\n")?;
                self.put_refuting(named, shown, case)?;
                self.put("  ")?;
                self.put_case_point(alloc, &case.rows, point)?;
                self.put("\n")
            }
            Verdict::UnprovedLimit { case, limit } => {
                self.put(" unproved\n")?;
                self.put_refuting(named, shown, case)?;
                self.put("  ")?;
                self.put_limit(limit)?;
                self.put("\n")
            }
        }
    }

    /// An assertion by its number, with its verdict and notes.
    pub(crate) fn put_judged(
        &mut self,
        alloc: Global,
        blocks: &[ProcBlock],
        number: usize,
        judged: &Judged,
    ) -> Result<(), AllocError>
        ensures { Appends self.old self.new result (judged_text blocks.now number judged.now) }
    {
        self.put("assertion ")?;
        self.put_count(number as u128)?;
        self.put(" at ")?;
        self.put_count(judged.line as u128)?;
        self.put(":")?;
        self.put_count(judged.column as u128)?;
        self.put_verdict(alloc, &judged.named, &judged.shown, &judged.verdict)?;
        self.put_notes(alloc, blocks, &judged.notes)
    }
}
