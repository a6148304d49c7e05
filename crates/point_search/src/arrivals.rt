use crate::places::PlaceNumbers;
use crate::steps::OwnSteps;
use linear_terms::{Case, Poly};
use point_rounds::{RoundSource, RowPlace, StepFrom};
use point_steps::Target;
use std::alloc::{AllocError, Global};

/// A case of a step, by the numbers of the places from which and to which it leads.
#[derive(Clone, Copy)]
pub(crate) struct PointArrival<'a> {
    pub(crate) from: usize,
    pub(crate) to: usize,
    pub(crate) case: &'a Case,
    /// How many columns there are at the place from which it leads.
    pub(crate) columns: usize,
}

/// The cases of the steps of each procedure that lead to places, in the order of the steps.
pub(crate) fn all_arrivals<'a>(
    alloc: Global,
    source: RoundSource,
    numbers: PlaceNumbers,
    steps: &'a [OwnSteps],
) -> Result<Vec<Vec<PointArrival<'a>>>, AllocError> {
    let mut all = Vec::new(alloc);
    for own in steps {
        all.push(arrivals(alloc, source, numbers, own.made.as_slice())?)?;
    }
    Ok(all)
}

/// The cases of steps that lead to places, in the order of the steps.
fn arrivals<'a>(
    alloc: Global,
    source: RoundSource,
    numbers: PlaceNumbers,
    steps: &'a [StepFrom],
) -> Result<Vec<PointArrival<'a>>, AllocError> {
    let mut made = Vec::new(alloc);
    for from in steps {
        add_arrivals(source, numbers, from, &mut made)?;
    }
    Ok(made)
}

fn add_arrivals<'a>(
    source: RoundSource,
    numbers: PlaceNumbers,
    from: &'a StepFrom,
    made: &mut Vec<PointArrival<'a>>,
) -> Result<(), AllocError> {
    match place_of(from.proc, from.step.target) {
        Some(place) => {
            let start = RowPlace::AtPoint {
                proc: from.proc,
                node: from.node,
            };
            let to = numbers.of(place);
            let columns = columns_of(source, from.proc);
            add_cases(
                numbers.of(start),
                to,
                columns,
                from.step.formula.cases(),
                made,
            )
        }
        None => Ok(()),
    }
}

fn add_cases<'a>(
    from: usize,
    to: usize,
    columns: usize,
    cases: &'a [Case],
    made: &mut Vec<PointArrival<'a>>,
) -> Result<(), AllocError> {
    for case in cases {
        made.push(PointArrival {
            from,
            to,
            case,
            columns,
        })?;
    }
    Ok(())
}

/// The place to which a step of a procedure leads; none where it leads to an assertion.
fn place_of(proc: u32, target: Target) -> Option<RowPlace> {
    match target {
        Target::Head(node) => Some(RowPlace::AtPoint { proc, node }),
        Target::Entry(callee) => Some(RowPlace::AtPoint {
            proc: callee,
            node: 0,
        }),
        Target::Exit => Some(RowPlace::AtExit { proc }),
        Target::Check(_) => None,
    }
}

/// How many columns the states of a procedure have; none of one that is not there.
fn columns_of(source: RoundSource, proc: u32) -> usize {
    match source.program.procs.as_slice().get(proc as usize) {
        Some(p) => {
            let globals = source.program.globals.len();
            globals.saturating_add(p.columns.len()).saturating_add(1)
        }
        None => 0,
    }
}

/// The posts of the arrival at the place to which it leads.
pub(crate) fn posts_at_end<'a>(arrival: PointArrival<'a>) -> &'a [Poly] {
    let posts = arrival.case.post.as_slice();
    if arrival.columns <= posts.len() {
        &posts[arrival.columns..]
    } else {
        &[]
    }
}
