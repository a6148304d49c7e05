ghost use Rattle.std.specs.Prelude.{◌≡◌, [], ◌-◌, ◌++◌, ◌+◌, false, IfOk, IsUtf8, length};
ghost use Rattle.std.specs.List.{count_by, flat_map};
ghost use Rattle.report.specs.Text.{is_proof, is_proved, assertions_text_from, proc_text, proved_count, text_of, total_text};
ghost use Rattle.report.specs.Points.{text_with_points};
ghost use Rattle.report.specs.Appends.{Appends};

use crate::text::ReportText;
use crate::{Judged, PointsTold, ProcBlock, Report, Verdict};
use std::alloc::{AllocError, Global};

impl ReportText {
    fn put_procs(&mut self, alloc: Global, blocks: &[ProcBlock]) -> Result<(), AllocError>
        ensures { Appends self.old self.new result (flat_map (proc_text blocks.now) blocks.now) }
    {
        for block in blocks {
            self.put_proc(alloc, blocks, block)?;
        }
        Ok(())
    }

    fn put_assertions(
        &mut self,
        alloc: Global,
        blocks: &[ProcBlock],
        judged: &[Judged],
    ) -> Result<(), AllocError>
        ensures { Appends self.old self.new result (assertions_text_from blocks.now 1 judged.now) }
    {
        for (i, judged) in judged.iter().enumerate() {
            self.put_judged(alloc, blocks, i + 1, judged)?;
        }
        Ok(())
    }

    fn put_total(&mut self, judged: &[Judged]) -> Result<(), AllocError>
        ensures { Appends self.old self.new result (total_text judged.now) }
    {
        let proved = proved_count(judged);
        self.put("total ")?;
        self.put_count(proved as u128)?;
        self.put(" proved, ")?;
        self.put_count((judged.len() - proved) as u128)?;
        self.put(" unproved\n")
    }
}

fn is_proof(verdict: &Verdict) -> bool
    ensures { result ≡ is_proof verdict.now }
{
    match verdict {
        Verdict::Proved => true,
        Verdict::Unproved { .. } | Verdict::UnprovedLimit { .. } => false,
    }
}

fn proved_count(judged: &[Judged]) -> usize
    ensures { result ≡ proved_count judged.now }
{
    let mut count = 0;
    for judged in judged {
        if is_proof(&judged.verdict) {
            count += 1;
        }
    }
    count
}

/// How many assertions are proved.
pub fn proved_assertions(report: &Report) -> usize
    ensures { result ≡ proved_count report.now.judged }
{
    proved_count(&report.judged)
}

/// How many are not.
pub fn unproved_assertions(report: &Report) -> usize
    ensures { result ≡ length report.now.judged - proved_count report.now.judged }
{
    report.judged.len() - proved_count(&report.judged)
}

/// The text of a report. It takes time in proportion to the text.
pub fn print(alloc: Global, report: &Report) -> Result<Vec<u8>, AllocError>
    ensures bytes { IfOk result (λ text. text.items ≡ text_of report.now) }
    ensures utf8 { IfOk result (λ text. IsUtf8 text.items) }
{
    let mut text = ReportText::new(alloc);
    text.put_procs(alloc, &report.procs)?;
    text.put_notes(alloc, &report.procs, &report.notes)?;
    text.put_assertions(alloc, &report.procs, &report.judged)?;
    text.put_total(&report.judged)?;
    Ok(text.into_bytes())
}

/// The text of a report with rows at points, which stand in their order before the assertions; where
/// the search for them was cut, a note says so. It takes time in proportion to the text. Without rows,
/// and where nothing was cut, it is that of the report alone.
pub fn print_with_points(
    alloc: Global,
    report: &Report,
    told: &PointsTold,
) -> Result<Vec<u8>, AllocError>
    ensures bytes { IfOk result (λ text. text.items ≡ text_with_points report.now told.now) }
    ensures utf8 { IfOk result (λ text. IsUtf8 text.items) }
    ensures without { text_with_points report.now (record { is_cut = false; rows = [] })
        ≡ text_of report.now }
{
    let mut text = ReportText::new(alloc);
    text.put_procs(alloc, &report.procs)?;
    text.put_notes(alloc, &report.procs, &report.notes)?;
    text.put_search(told.is_cut)?;
    text.put_points(alloc, told.rows.as_slice())?;
    text.put_assertions(alloc, &report.procs, &report.judged)?;
    text.put_total(&report.judged)?;
    Ok(text.into_bytes())
}
