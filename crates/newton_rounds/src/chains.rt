ghost use Rattle.std.specs.Prelude.{◌≡◌, ◌<◌, ◌^◌, ◌++◌, [], ◌∷◌, length, IfOk, OnOk};
ghost use Rattle.std.specs.List.{flat_map};
ghost use Rattle.posing.specs.Follows.{Asks};
ghost use Rattle.newton_rounds.specs.Closure.{chains_of, closure_at, exits_told, losses_in_chains, losses_in_exits, others_in, pair_cell};
ghost use Rattle.newton_rounds.specs.Between.{GoesBetween, width_at};
ghost use Rattle.newton_rounds.specs.Groups.{AreReadyParts, chain_by, losses_in_chain_by};
ghost use Rattle.newton_rounds.specs.Shapes.{AreEnds};

use crate::ends::{PairEnds, numbers_from};
use checked_tree::leaf;
use farkas_check::Oracle;
use items::Items;
use linear_terms::Case;
use path_expr::Cell;
use posing::{Log, WorkError};
use std::alloc::{AllocError, Global};
use transition_formula::{Formula, FormulaError, Loss, hidden, identity, seq, with_entries};

/// What the chains of calls from the procedure at a place are made of: the ends of each procedure of
/// the group, its base, and what leads to its pairs from those of the procedure at the place.
#[derive(Clone, Copy)]
pub(crate) struct ChainParts<'a> {
    pub(crate) members: &'a [PairEnds],
    pub(crate) bases: &'a [Formula],
    pub(crate) place: u32,
    pub(crate) cells: &'a [Cell<Formula>],
}

/// The formula of the procedure at a place: the chains of calls from it to each procedure of the
/// group, each with the base of its end.
#[tactic(auto, using(posing::proofs::Following::following), unfolding(crate::specs::Closure::closure_at))]
pub(crate) fn closure_at<O: Oracle>(
    alloc: Global,
    parts: ChainParts<'_>,
    oracle: &mut O,
    log: &mut Log,
) -> Result<Formula, WorkError>
    requires { AreReadyParts parts }
    ensures { Asks O.asking oracle log result
        (closure_at parts.entry.members.now parts.entry.bases.now parts.entry.place
        parts.entry.cells.now) }
{
    let ChainParts { members, place, .. } = parts;
    let member = &members[place as usize];
    let mut lost = Items::new(alloc);
    let chains = chains_of(alloc, parts, &mut lost)?;
    let told = exits_told(alloc, member, &chains, &mut lost)?;
    log.add_losses(alloc, lost.as_slice())?;
    leaf(alloc, &told, &member.entry, &member.exit, oracle, log)
}

/// All chains from a procedure, over its pair: first those that end with itself, then those that
/// end with the others, in their order.
fn chains_of(
    alloc: Global,
    parts: ChainParts<'_>,
    lost: &mut Items<Loss>,
) -> Result<Formula, FormulaError>
    requires { AreReadyParts parts }
    ensures made { IfOk result
        (λ f. f ≡ chains_of parts.entry.members.now parts.entry.bases.now parts.entry.cells.now
        parts.entry.place) }
    ensures noted { OnOk result
        (lost.new ≡ lost.old ++ losses_in_chains parts.entry.members.now parts.entry.bases.now
        parts.entry.cells.now parts.entry.place) }
{
    let ChainParts { members, place, .. } = parts;
    let mut cases = Items::new(alloc);
    add_chains(alloc, parts, place, &mut cases, lost)?;
    for n in 0..members.len() as u32 {
        add_others(alloc, parts, n, &mut cases, lost)?;
    }
    Ok(Formula::from_cases(width_at(members, place), 0, cases))
}

/// The chains that end with a procedure, where it is another.
fn add_others(
    alloc: Global,
    parts: ChainParts<'_>,
    n: u32,
    cases: &mut Items<Case>,
    lost: &mut Items<Loss>,
) -> Result<(), FormulaError>
    requires chained { AreReadyParts parts }
    requires there { n < length parts.members.now }
    ensures made { OnOk result
        (cases.new ≡ cases.old ++ flat_map (λ n. (chain_by parts.entry n).cases)
        (others_in parts.entry.place (n ∷ []))) }
    ensures noted { OnOk result
        (lost.new ≡ lost.old ++ flat_map (losses_in_chain_by parts.entry)
        (others_in parts.entry.place (n ∷ []))) }
{
    if n == parts.place {
        return Ok(());
    }
    add_chains(alloc, parts, n, cases, lost)
}

/// Adds the cases of the chains that end with a procedure.
fn add_chains(
    alloc: Global,
    parts: ChainParts<'_>,
    n: u32,
    cases: &mut Items<Case>,
    lost: &mut Items<Loss>,
) -> Result<(), FormulaError>
    requires chained { AreReadyParts parts }
    requires there { n < length parts.members.now }
    ensures made { OnOk result (cases.new ≡ cases.old ++ (chain_by parts.entry n).cases) }
    ensures noted { OnOk result (lost.new ≡ lost.old ++ losses_in_chain_by parts.entry n) }
{
    let chains = chain_end(alloc, parts, n, lost)?;
    Ok(add_cases(chains.cases(), cases)?)
}

/// The chains that end with a procedure, whose last activation calls no other of the group.
fn chain_end(
    alloc: Global,
    parts: ChainParts<'_>,
    n: u32,
    lost: &mut Items<Loss>,
) -> Result<Formula, FormulaError>
    requires chained { AreReadyParts parts }
    requires there { n < length parts.members.now }
    ensures made { IfOk result (λ f. f ≡ chain_by parts.entry n) }
    ensures noted { OnOk result (lost.new ≡ lost.old ++ losses_in_chain_by parts.entry n) }
{
    let ChainParts {
        members,
        bases,
        place,
        cells,
    } = parts;
    let from = width_at(members, place);
    let to = width_at(members, n);
    let first = pair_cell(alloc, from, to, &cells[n as usize])?;
    seq(alloc, &first, &bases[n as usize], lost)
}

/// How many columns the pairs of the procedure at a place have.
fn width_at(members: &[PairEnds], place: u32) -> u32
    requires { place < length members.now }
    ensures { result ≡ width_at members.now place }
{
    let member = &members[place as usize];
    member.pair.columns()
}

/// Copies of cases behind others.
fn add_cases(cases: &[Case], made: &mut Items<Case>) -> Result<(), AllocError>
    ensures { OnOk result (made.new ≡ made.old ++ cases.now) }
{
    for case in cases {
        made.push(case.clone()?)?;
    }
    Ok(())
}

/// From one pair to another: no case where no chain of calls leads, and the identity where none was
/// made.
fn pair_cell(
    alloc: Global,
    from: u32,
    to: u32,
    cell: &Cell<Formula>,
) -> Result<Formula, FormulaError>
    ensures { IfOk result (λ f. f ≡ pair_cell from to cell.now) }
{
    match cell {
        Cell::Zero => Ok(Formula::from_cases(from, to, Items::new(alloc))),
        Cell::One => identity(alloc, from),
        Cell::Item(f) => Ok(f.clone()?),
    }
}

/// The exit's columns become auxiliaries after the case's own, and these are the posts.
pub(crate) fn exits_told(
    alloc: Global,
    member: &PairEnds,
    f: &Formula,
    lost: &mut Items<Loss>,
) -> Result<Formula, FormulaError>
    requires ends { AreEnds member.now }
    requires over { GoesBetween 2000 member.now.pair.columns 0 f.now }
    ensures made { IfOk result (λ told. told ≡ exits_told member.now f.now) }
    ensures noted { OnOk result (lost.new ≡ lost.old ++ losses_in_exits member.now f.now) }
{
    let entry = member.entry.columns();
    let places = numbers_from(alloc, entry, member.exit.columns())?;
    let told = with_entries(alloc, f, places.as_slice())?;
    hidden(alloc, &told, entry, lost)
}
