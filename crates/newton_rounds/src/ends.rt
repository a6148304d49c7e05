ghost use Rattle.std.specs.Prelude.{◌≡◌, ◌<◌, ◌+◌, ◌^◌, All, length, IfOk};
ghost use Rattle.std.specs.List.{range_with_len};
ghost use Rattle.syntax_tree.specs.WellFormed.{IsWellFormed};
ghost use Rattle.syntax_tree.specs.declared.program.Proc.{Proc as Procedure};
ghost use Rattle.vocabularies.specs.Procs.{IsProcOf};
ghost use Rattle.proc_summary.specs.Summary.{exit_places};
ghost use Rattle.newton_rounds.specs.Closure.{ends_of_members, pair_ends};
ghost use Rattle.newton_rounds.specs.Shapes.{AreEnds};

use items::Items;
use polyhedra::Vocabulary;
use std::alloc::{AllocError, Global};
use std::marker::Model;
use syntax_tree::Program;
use vocabularies::{entry, full, pair};

/// How many of a procedure's columns are globals, whether it returns a value, and the vocabularies
/// of its states, of its entry, of its exit, and of pairs of both.
#[derive(Drop)]
pub(crate) struct PairEnds {
    pub(crate) globals: u32,
    pub(crate) returns: bool,
    pub(crate) full: Vocabulary,
    pub(crate) entry: Vocabulary,
    pub(crate) exit: Vocabulary,
    pub(crate) pair: Vocabulary,
}

impl Model for PairEnds {
    ghost use Rattle.newton_rounds.specs.Pairs as plain;

    ghost Value = { plain.PairEnds };

    ghost view = { λ m.
        record {
          ends = record {
            globals = m.globals;
            returns = m.returns;
            full = m.full;
            entry = m.entry;
            exit = m.exit;
          };
          pair = m.pair;
        } };
}

impl PairEnds {
    /// The columns that are told at the exit: the globals, and the returned value if there is one.
    pub(crate) fn exit_places(&self, alloc: Global) -> Result<Items<u32>, AllocError>
        requires { AreEnds self.now }
        ensures { IfOk result (λ places. places ≡ exit_places self.now.ends) }
    {
        let mut places = numbers_from(alloc, 0, self.globals)?;
        if self.returns {
            places.push(self.full.columns() - 1)?;
        }
        Ok(places)
    }
}

/// So many numbers from one on.
pub(crate) fn numbers_from(alloc: Global, first: u32, count: u32) -> Result<Items<u32>, AllocError>
    requires { first + count < 2 ^ 32 }
    ensures { IfOk result (λ numbers. numbers ≡ range_with_len first count) }
{
    let mut numbers = Items::new(alloc);
    for number in first..first + count {
        numbers.push(number)?;
    }
    Ok(numbers)
}

/// The ends of a procedure.
pub(crate) fn pair_ends(alloc: Global, program: &Program, proc: u32) -> Result<PairEnds, AllocError>
    requires formed { IsWellFormed program.now }
    requires procedure { proc < length program.now.procs }
    ensures { (p : Procedure) → IsProcOf program.now proc p
        → IfOk result (λ ends. ends ≡ pair_ends program.now p) }
{
    let full = full(alloc, program, proc)?;
    let entry = entry(alloc, program, proc)?;
    let exit = vocabularies::exit(alloc, program, proc)?;
    let pair = pair(alloc, program, proc)?;
    Ok(PairEnds {
        globals: program.globals.len() as u32,
        returns: program.procs.as_slice()[proc as usize].returns,
        full,
        entry,
        exit,
        pair,
    })
}

/// The ends of these procedures, in their order.
pub(crate) fn ends_of_members(
    alloc: Global,
    program: &Program,
    procs: &[u32],
) -> Result<Items<PairEnds>, AllocError>
    requires formed { IsWellFormed program.now }
    requires there { All (λ proc. proc < length program.now.procs) procs.now }
    ensures { IfOk result (λ all. all ≡ ends_of_members program.now procs.now) }
{
    let mut all = Items::new(alloc);
    for proc in procs {
        all.push(pair_ends(alloc, program, *proc)?)?;
    }
    Ok(all)
}
