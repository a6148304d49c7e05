ghost use Rattle.std.specs.Prelude.{◌≡◌, ◌+◌, ◌<◌, ◌≤◌, ℕ, pos, length, slice_set, true, MatchOption, IfOk, IfErr};
ghost use Rattle.linear_terms.specs.declared.row.Kind.TheVariants.{AtMost, Equal};
ghost use Rattle.farkas_check.specs.Relations.{entry};
ghost use Rattle.simplex.specs.Raise.{Framed};
ghost use Rattle.simplex.specs.Refusal.{IsRefusalIn};
ghost use Rattle.simplex.specs.Search.{IsQuestionColumn, IsSolving, EquationAt, EquationsAt, IsFreeing};

use crate::{SearchStop, Tableau};
use items::Items;
use linear_terms::Kind;
use std::alloc::Global;

/// The first column of the question at which a line is not 0.
pub(crate) fn question_column(line: &[i128], constants: usize) -> Option<usize>
    requires { constants < length line.now }
    ensures { IsQuestionColumn line.now constants result }
{
    for j in 0..constants {
        if line[j] != 0 {
            return Some(j);
        }
    }
    None
}

/// Solves the equations in order, or finds one that refutes the rows.
pub(crate) fn equations(
    alloc: Global,
    t: Tableau,
    constants: usize,
    kinds: &[Kind],
) -> Result<(Tableau, Option<usize>), SearchStop>
    ghost over: { Framed }
    requires { IsSolving over constants kinds.now 0 t }
    ensures found { IfOk result (λ r. EquationsAt over constants kinds.now r.0 r.1) }
    ensures refusal { IfErr result (IsRefusalIn over (length kinds.now)) }
{
    let mut now = t;
    for i in 0..kinds.len() {
        let (next, refutes) = equation(alloc, now, constants, kinds, i)?;
        now = next;
        if refutes {
            return Ok((now, Some(i)));
        }
    }
    Ok((now, None))
}

/// Solves one equation, or finds that it refutes the rows.
fn equation(
    alloc: Global,
    t: Tableau,
    constants: usize,
    kinds: &[Kind],
    i: usize,
) -> Result<(Tableau, bool), SearchStop>
    ghost over: { Framed }
    requires solving { IsSolving over constants kinds.now i t }
    requires here { i < length kinds.now }
    ensures found { IfOk result (λ r. EquationAt over constants kinds.now i r.0 r.1) }
    ensures refusal { IfErr result (IsRefusalIn over (length kinds.now)) }
{
    if kinds[i] != Kind::Equal {
        return Ok((t, false));
    }
    match question_column(t.lines[i].as_slice(), constants) {
        Some(column) => {
            let next = t.exchange(alloc, i, column)?;
            Ok((next, false))
        }
        None => {
            if t.lines[i][constants] != 0 {
                return Ok((t, true));
            }
            Ok((t, false))
        }
    }
}

/// A tableau, and which columns may enter.
#[derive(Drop)]
pub(crate) struct Stage {
    pub(crate) tableau: Tableau,
    pub(crate) enters: Items<bool>,
}

/// Solves the inequalities among the first so many lines in order, as far as a column of the
/// question is left in them.
pub(crate) fn inequalities(
    alloc: Global,
    stage: Stage,
    constants: usize,
    kinds: &[Kind],
    count: usize,
) -> Result<Stage, SearchStop>
    ghost over: { Framed }
    requires freeing { IsFreeing over constants kinds.now 0 stage.enters stage.tableau }
    requires within { count ≤ length kinds.now }
    ensures freed { IfOk result (λ s. IsFreeing over constants kinds.now count s.enters s.tableau) }
    ensures refusal { IfErr result (IsRefusalIn over (length kinds.now)) }
{
    let mut now = stage;
    for i in 0..count {
        now = inequality(alloc, now, constants, kinds, i)?;
    }
    Ok(now)
}

fn inequality(
    alloc: Global,
    stage: Stage,
    constants: usize,
    kinds: &[Kind],
    i: usize,
) -> Result<Stage, SearchStop>
    ghost over: { Framed }
    requires freeing { IsFreeing over constants kinds.now i stage.enters stage.tableau }
    requires here { i < length kinds.now }
    ensures freed { IfOk result
        (λ s. IsFreeing over constants kinds.now (i + 1) s.enters s.tableau) }
    ensures refusal { IfErr result (IsRefusalIn over (length kinds.now)) }
{
    if kinds[i] != Kind::AtMost {
        return Ok(stage);
    }
    let Stage { tableau, enters } = stage;
    match question_column(tableau.lines[i].as_slice(), constants) {
        Some(column) => {
            let next = tableau.exchange(alloc, i, column)?;
            Ok(Stage {
                tableau: next,
                enters: with_entry(enters, constants + 1 + i),
            })
        }
        None => Ok(Stage { tableau, enters }),
    }
}

/// One more column may enter.
pub(crate) fn with_entry(enters: Items<bool>, column: usize) -> Items<bool>
    requires { column < length enters }
    ensures { result ≡ slice_set enters column true }
{
    let mut made = enters.into_vec();
    made[column] = true;
    Items::from_vec(made)
}
