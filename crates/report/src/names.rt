ghost use Rattle.std.specs.Prelude.{◌≡◌, ◌++◌, IfOk, codes, slice_index_or};
ghost use Rattle.std.specs.List.{list_any};
ghost use Rattle.std.specs.Str.{bytes_eq};
ghost use Rattle.report.specs.Text.{column_names, entry_names, exit_name, exit_names, names_of, shown_name_at, shown_name, stands_before};
ghost use Rattle.report.specs.Points.{row_names};
ghost use Rattle.report.specs.Appends.{Appends};

use crate::text::ReportText;
use crate::{PointRows, ProcBlock};
use items::Items;
use std::alloc::{AllocError, Global};
use std::str;
use syntax_tree::Name;

/// The letters of a name, which are ASCII.
#[tactic(auto, using(crate::proofs::Letters::letters))]
pub(crate) fn letters(name: &Name) -> &str
    ensures { result.now ≡ name.now }
{
    match str::from_utf8(name.as_slice()) {
        Ok(text) => text,
        Err(_) => unreachable!(),
    }
}

impl ReportText {
    /// A column's name, with its number where an earlier column has the same name.
    pub(crate) fn put_shown(
        &mut self,
        names: &[Name],
        number: usize,
        i: usize,
    ) -> Result<(), AllocError>
        ensures { Appends self.old self.new result (shown_name names.now number i) }
    {
        if let Some(name) = names.get(i) {
            self.put(letters(name))?;
        }
        if stands_before(names, i) {
            self.put("#")?;
            self.put_count(number as u128)?;
        }
        Ok(())
    }

    pub(crate) fn put_exit_name(&mut self, after: &[Name], i: usize) -> Result<(), AllocError>
        ensures { Appends self.old self.new result (exit_name after.now i) }
    {
        match after.get(i) {
            Some(name) => {
                self.put(letters(name))?;
                self.put("'")
            }
            None => self.put("$ret"),
        }
    }

    /// The name of the shown column at a place.
    pub(crate) fn put_shown_at(
        &mut self,
        named: &[Name],
        shown: &[u32],
        i: usize,
    ) -> Result<(), AllocError>
        ensures { Appends self.old self.new result (shown_name_at named.now shown.now i) }
    {
        self.put_shown(named, number_at(shown, i) as usize, i)
    }
}

fn number_at(shown: &[u32], i: usize) -> u32
    ensures { result ≡ slice_index_or shown.now i 0 }
{
    match shown.get(i) {
        Some(number) => *number,
        None => 0,
    }
}

/// Whether one of the names is this one.
fn is_among(names: &[Name], name: &Name) -> bool
    ensures { result ≡ list_any (bytes_eq name.now) names.now }
{
    names
        .iter()
        .any(|other| name.as_slice() == other.as_slice())
}

/// Whether an earlier name is the same as the one at a place.
fn stands_before(names: &[Name], i: usize) -> bool
    ensures { result ≡ stands_before names.now i }
{
    if i >= names.len() {
        return false;
    }
    is_among(&names[..i], &names[i])
}

fn shown_name(
    alloc: Global,
    names: &[Name],
    number: usize,
    i: usize,
) -> Result<ReportText, AllocError>
    ensures { IfOk result (λ name. name ≡ shown_name names.now number i) }
{
    let mut text = ReportText::new(alloc);
    text.put_shown(names, number, i)?;
    Ok(text)
}

fn entry_names(alloc: Global, before: &[Name]) -> Result<Items<ReportText>, AllocError>
    ensures { IfOk result (λ names. names ≡ entry_names before.now) }
{
    let mut names = Items::new(alloc);
    for i in 0..before.len() {
        names.push(shown_name(alloc, before, i, i)?)?;
    }
    Ok(names)
}

/// A global's name at the exit.
fn primed_name(alloc: Global, name: &Name) -> Result<ReportText, AllocError>
    ensures { IfOk result (λ primed. primed ≡ name.now ++ codes "'") }
{
    let mut primed = ReportText::new(alloc);
    primed.put(letters(name))?;
    primed.put("'")?;
    Ok(primed)
}

/// The name of the returned value.
fn returned_name(alloc: Global) -> Result<ReportText, AllocError>
    ensures { IfOk result (λ name. name ≡ codes "$ret") }
{
    let mut name = ReportText::new(alloc);
    name.put("$ret")?;
    Ok(name)
}

/// The names, and behind them those of the columns at the exit.
fn with_exit_names(
    alloc: Global,
    names: Items<ReportText>,
    after: &[Name],
) -> Result<Items<ReportText>, AllocError>
    ensures { IfOk result (λ all. all ≡ names ++ exit_names after.now) }
{
    let mut all = names;
    for name in after {
        all.push(primed_name(alloc, name)?)?;
    }
    all.push(returned_name(alloc)?)?;
    Ok(all)
}

/// The names that a procedure's rows have: its columns at the entry, and behind these those at the
/// exit.
pub(crate) fn column_names(
    alloc: Global,
    block: &ProcBlock,
) -> Result<Items<ReportText>, AllocError>
    ensures { IfOk result (λ names. names ≡ column_names block.now) }
{
    let names = entry_names(alloc, &block.before)?;
    with_exit_names(alloc, names, &block.after)
}

/// Those of rows at a point, or where a procedure returns.
pub(crate) fn row_names(alloc: Global, point: &PointRows) -> Result<Items<ReportText>, AllocError>
    ensures { IfOk result (λ names. names ≡ row_names point.now) }
{
    let names = entry_names(alloc, &point.columns)?;
    with_exit_names(alloc, names, &point.after)
}

/// Those of the procedure of a number.
pub(crate) fn names_of(
    alloc: Global,
    blocks: &[ProcBlock],
    proc: u32,
) -> Result<Items<ReportText>, AllocError>
    ensures { IfOk result (λ names. names ≡ names_of blocks.now proc) }
{
    match blocks.get(proc as usize) {
        Some(block) => column_names(alloc, block),
        None => Ok(Items::new(alloc)),
    }
}
