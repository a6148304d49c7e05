ghost use Rattle.std.specs.Prelude.{◌<◌, length};
ghost use Rattle.point_rounds.specs.Source.{IsRoundSource};

use crate::tables::proc_count;
use items::Items;
use linear_terms::Row;
use point_candidates::{
    CallerRows, CallerTexts, ExitTexts, by_callers, exit_rows, shared_rows, text_rows,
};
use point_rounds::RoundSource;
use std::alloc::{AllocError, Global};

/// The rows of a program's text, by the numbers of the procedures.
#[derive(Drop)]
pub(crate) struct ProgramTexts {
    own: Items<Items<Row>>,
    callers: Items<CallerRows>,
    pub(crate) shared: Items<Row>,
}

impl ProgramTexts {
    /// The rows of a procedure's text.
    pub(crate) fn own_rows(&self, proc: u32) -> &[Row] {
        match self.own.as_slice().get(proc as usize) {
            Some(rows) => rows.as_slice(),
            None => &[],
        }
    }

    /// The rows of its callers at its entry.
    pub(crate) fn at_entry(&self, proc: u32) -> &[Row] {
        match self.callers.as_slice().get(proc as usize) {
            Some(rows) => rows.at_entry.as_slice(),
            None => &[],
        }
    }

    /// The rows of its callers at its exit.
    fn at_exit(&self, proc: u32) -> &[Row] {
        match self.callers.as_slice().get(proc as usize) {
            Some(rows) => rows.at_exit.as_slice(),
            None => &[],
        }
    }
}

/// The rows of the program's text.
pub(crate) fn program_texts(alloc: Global, source: RoundSource) -> Result<ProgramTexts, AllocError>
    requires { IsRoundSource source }
{
    let own = own_texts(alloc, source)?;
    let callers = caller_texts(alloc, source, own.as_slice())?;
    let shared = shared_rows(alloc, source.program, own.as_slice())?;
    Ok(ProgramTexts {
        own,
        callers,
        shared,
    })
}

fn own_texts(alloc: Global, source: RoundSource) -> Result<Items<Items<Row>>, AllocError>
    requires { IsRoundSource source }
{
    let mut own = Items::new(alloc);
    let procs = proc_count(source);
    for proc in 0..procs {
        own.push(text_rows(alloc, source.program, proc)?)?;
    }
    Ok(own)
}

fn caller_texts(
    alloc: Global,
    source: RoundSource,
    own: &[Items<Row>],
) -> Result<Items<CallerRows>, AllocError>
    requires { IsRoundSource source }
{
    let texts = CallerTexts {
        program: source.program,
        graphs: source.graphs,
        texts: own,
    };
    let mut callers = Items::new(alloc);
    let procs = proc_count(source);
    for proc in 0..procs {
        callers.push(by_callers(alloc, texts, proc)?)?;
    }
    Ok(callers)
}

/// The rows that are tried at the exit of a procedure.
pub(crate) fn rows_tried_at_exit(
    alloc: Global,
    source: RoundSource,
    texts: &ProgramTexts,
    proc: u32,
) -> Result<Items<Row>, AllocError>
    requires source { IsRoundSource source }
    requires there { proc < length source.program.now.procs }
{
    let of_exit = ExitTexts {
        own: texts.own_rows(proc),
        shared: texts.shared.as_slice(),
        callers: texts.at_exit(proc),
    };
    exit_rows(alloc, source.program, proc, of_exit)
}
