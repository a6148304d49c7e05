ghost use Rattle.std.specs.Prelude.{◌≡◌, ◌<◌, ◌≤◌, ◌++◌, length, position, IfOk, IfSome, OnOk};
ghost use Rattle.std.specs.Str.{bytes_eq};
ghost use Rattle.syntax_tree.specs.declared.program.GlobalVar.{GlobalVar as Variable};
ghost use Rattle.syntax_tree.specs.Limits.{most_globals};
ghost use Rattle.report.specs.Costs.{proc_costs_text};
ghost use Rattle.summary_cache.specs.Accepted.{Accepts};
ghost use Rattle.summary_cache.specs.Limits.{most_bytes};
ghost use Rattle.commands.specs.Cost.{AreCosts, AreCostsOf, IsCostOf, IsReplyToCost, TellsCosts, costs_reply, costs_text, no_global_reply};
ghost use Rattle.commands.specs.Posts.{HavePost, HavePosts, IsFoundAs, IsNumberIn, TellsCostsOf};
ghost use Rattle.commands.specs.Status.{IsAnswer};
ghost use Rattle.commands.specs.Within.{OrRefused};

use crate::reply::{Reply, refused_reply, too_long};
use crate::status::Status;
use crate::submitting::analysis_by_finder;
use crate::text::{ReplyText, between};
use cost_bounds::{Cost, bound};
use finder::Finder;
use items::Items;
use linear_terms::Case;
use posing::{Log, WorkError};
use report::{ProcBlock, print_costs};
use std::alloc::{AllocError, Global};
use summary_cache::{MOST_BYTES, TextError, accepted_is_well_formed, read};
use syntax_tree::{GlobalVar, Program};

/// By how much a case changes a global, where the finder answers, which refuses no question.
fn case_cost(
    alloc: Global,
    case: &Case,
    number: u32,
    finder: &mut Finder,
) -> Result<Cost, AllocError>
    requires { number < length case.now.post }
    ensures { IfOk result (IsCostOf number case.now) }
{
    let mut log = Log::new(alloc);
    match bound(alloc, case, number, finder, &mut log) {
        Ok(cost) => Ok(cost),
        Err(WorkError::Refused) => unreachable!(),
        Err(WorkError::Memory) => Err(AllocError),
    }
}

/// By how much each case of a summary does.
fn case_costs(
    alloc: Global,
    cases: &[Case],
    number: u32,
    finder: &mut Finder,
) -> Result<Items<Cost>, AllocError>
    requires { HavePost number cases.now }
    ensures { IfOk result (AreCostsOf number cases.now) }
{
    let mut costs = Items::new(alloc);
    for case in cases {
        let cost = case_cost(alloc, case, number, finder)?;
        costs.push(cost)?;
    }
    Ok(costs)
}

/// By how much each case of each summary does.
fn proc_costs(
    alloc: Global,
    blocks: &[ProcBlock],
    number: u32,
) -> Result<Items<Items<Cost>>, AllocError>
    requires { HavePosts number blocks.now }
    ensures { IfOk result (AreCosts number blocks.now) }
{
    let mut finder = Finder::new(alloc);
    let mut costs = Items::new(alloc);
    for block in blocks {
        let made = case_costs(alloc, block.formula.cases(), number, &mut finder)?;
        costs.push(made)?;
    }
    Ok(costs)
}

/// A procedure and its costs, behind a text.
fn put_proc_costs(
    alloc: Global,
    text: &mut ReplyText,
    block: &ProcBlock,
    costs: &[Cost],
) -> Result<(), AllocError>
    ensures { OnOk result (text.new.bytes.items
        ≡ text.old.bytes.items ++ proc_costs_text block.now costs.now) }
{
    let printed = print_costs(alloc, block, costs)?;
    text.put(&printed)
}

/// The text of the costs of all procedures.
fn costs_text(
    alloc: Global,
    blocks: &[ProcBlock],
    costs: &[Items<Cost>],
) -> Result<Vec<u8>, AllocError>
    ensures { IfOk result (λ text. text.items ≡ costs_text blocks.now costs.now) }
{
    let mut text = ReplyText {
        bytes: Vec::new(alloc),
    };
    for (block, made) in blocks.iter().zip(costs) {
        put_proc_costs(alloc, &mut text, block, made.as_slice())?;
    }
    let ReplyText { bytes } = text;
    Ok(bytes)
}

/// The answer that tells the costs of a report's cases.
fn costs_reply(
    alloc: Global,
    blocks: &[ProcBlock],
    costs: &[Items<Cost>],
) -> Result<Reply, AllocError>
    ensures reply { IfOk result (λ reply. reply ≡ costs_reply blocks.now costs.now) }
    ensures status { IfOk result (λ reply. IsAnswer reply.status) }
{
    Ok(Reply {
        status: Status::CostsTold,
        text: Items::from_vec(costs_text(alloc, blocks, costs)?),
    })
}

/// The answer where no global has the name.
fn no_global_reply(alloc: Global, name: &[u8]) -> Result<Reply, AllocError>
    ensures reply { IfOk result (λ reply. reply ≡ no_global_reply name.now) }
    ensures status { IfOk result (λ reply. IsAnswer reply.status) }
{
    Ok(Reply {
        status: Status::NoGlobal,
        text: Items::from_vec(between(alloc, b"no global ", name, b"\n")?),
    })
}

/// The place of the global of a name.
fn place_of(globals: &[GlobalVar], name: &[u8]) -> Option<usize>
    ensures at { result ≡ position (λ (g : Variable). bytes_eq g.name name.now) globals.now }
    ensures few { IfSome result (λ place. place < length globals.now) }
{
    globals
        .iter()
        .position(|global| global.name.as_slice() == name)
}

/// The number of the global of a name.
fn number_of(globals: &[GlobalVar], name: &[u8]) -> Option<u32>
    requires { length globals.now ≤ most_globals }
    ensures { result ≡ position (λ (g : Variable). bytes_eq g.name name.now) globals.now }
{
    match place_of(globals, name) {
        Some(place) => Some(place as u32),
        None => None,
    }
}

/// The number of the global of a program that has the name.
#[tactic(auto, using(crate::proofs::Globals::found))]
fn global_of(program: &Program, name: &[u8]) -> Option<u32>
    requires { length program.now.globals ≤ most_globals }
    ensures { IsFoundAs program.now name.now result }
{
    number_of(program.globals.as_slice(), name)
}

/// The answer that tells the costs of a report.
fn report_reply(alloc: Global, blocks: &[ProcBlock], number: u32) -> Result<Reply, AllocError>
    requires { HavePosts number blocks.now }
    ensures reply { IfOk result (TellsCostsOf number blocks.now) }
    ensures status { IfOk result (λ reply. IsAnswer reply.status) }
{
    let costs = proc_costs(alloc, blocks, number)?;
    costs_reply(alloc, blocks, costs.as_slice())
}

/// The answer to an accepted text that has the global.
fn global_reply(alloc: Global, name: &[u8], text: &[u8], number: u32) -> Result<Reply, AllocError>
    requires short { length text.now ≤ most_bytes }
    requires global { IsNumberIn text.now name.now number }
    ensures reply { IfOk result (OrRefused text.now (TellsCosts name.now text.now)) }
    ensures status { IfOk result (λ reply. IsAnswer reply.status) }
{
    match analysis_by_finder(alloc, text, 2) {
        Ok(last) => report_reply(alloc, last.report.procs.as_slice(), number),
        Err(TextError::Refused(refusal)) => refused_reply(alloc, text, refusal),
        Err(TextError::Memory) => Err(AllocError),
    }
}

/// The answer to an accepted text, by its globals.
fn accepted_reply(
    alloc: Global,
    name: &[u8],
    text: &[u8],
    program: &Program,
) -> Result<Reply, AllocError>
    requires short { length text.now ≤ most_bytes }
    requires accepted { Accepts text.now program.now }
    ensures reply { IfOk result (OrRefused text.now (TellsCosts name.now text.now)) }
    ensures status { IfOk result (λ reply. IsAnswer reply.status) }
{
    accepted_is_well_formed();
    match global_of(program, name) {
        Some(number) => global_reply(alloc, name, text, number),
        None => no_global_reply(alloc, name),
    }
}

/// The answer to a text.
fn text_reply(alloc: Global, name: &[u8], text: &[u8]) -> Result<Reply, AllocError>
    requires { length text.now ≤ most_bytes }
    ensures reply { IfOk result (OrRefused text.now (TellsCosts name.now text.now)) }
    ensures status { IfOk result (λ reply. IsAnswer reply.status) }
{
    match read(alloc, text) {
        Ok(program) => accepted_reply(alloc, name, text, &program),
        Err(TextError::Refused(refusal)) => refused_reply(alloc, text, refusal),
        Err(TextError::Memory) => Err(AllocError),
    }
}

/// The answer to an input of which the bounds on a global's change are asked for.
pub fn cost_reply(alloc: Global, name: &[u8], input: &[u8]) -> Result<Reply, AllocError>
    ensures reply { IfOk result (IsReplyToCost name.now input.now) }
    ensures status { IfOk result (λ reply. IsAnswer reply.status) }
{
    if input.len() > MOST_BYTES {
        return too_long(alloc);
    }
    text_reply(alloc, name, input)
}
