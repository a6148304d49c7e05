ghost use Rattle.std.specs.Prelude.{◌≡◌, ◌≢◌, ◌≤◌, length, Err, IfOk};
ghost use Rattle.summary_cache.specs.Accepted.{Accepts};
ghost use Rattle.summary_cache.specs.Limits.{most_bytes};
ghost use Rattle.commands.specs.Prove.{IsProofOf, IsProved, IsReplyToProve, TellsProof, proof_reply};
ghost use Rattle.commands.specs.Status.{IsAnswer};
ghost use Rattle.commands.specs.Within.{OrRefused};

use crate::reply::{Reply, refused_reply, too_long};
use crate::status::Status;
use analysis::plan;
use finder::Finder;
use items::Items;
use point_reports::{PointReport, prove};
use posing::{Log, WorkError};
use report::{print_with_points, unproved_assertions};
use std::alloc::{AllocError, Global};
use summary_cache::{
    MOST_BYTES, TextError, accepted_is_well_formed, assertions_ascend, places_of, read,
    rules_are_free, with_rule,
};
use syntax_tree::Program;

/// The report with points of the program of a text, where the finder answers, which refuses no
/// question.
fn program_proof(
    alloc: Global,
    text: &[u8],
    program: Program,
    finder: &mut Finder,
) -> Result<PointReport, WorkError>
    requires short { length text.now ≤ most_bytes }
    requires accepted { Accepts text.now program }
    ensures made { IfOk result (IsProved text.now) }
    ensures answered { result ≢ Err WorkError.Refused }
{
    accepted_is_well_formed();
    assertions_ascend();
    rules_are_free();
    let program = with_rule(program, 4);
    let plan = plan(alloc, &program)?;
    let places = places_of(alloc, text, program.checks.as_slice())?;
    let searcher = finder.beside(alloc)?;
    let mut log = Log::new(alloc);
    prove(
        alloc,
        &program,
        places.as_slice(),
        plan.as_slice(),
        finder,
        searcher,
        &mut log,
    )
}

/// What comes of a text that is to be proved.
fn text_proof(alloc: Global, text: &[u8]) -> Result<PointReport, TextError>
    requires { length text.now ≤ most_bytes }
    ensures { IsProofOf text.now result }
{
    let program = read(alloc, text)?;
    let Ok(mut finder) = Finder::keeping(alloc) else {
        return Err(TextError::Memory);
    };
    match program_proof(alloc, text, program, &mut finder) {
        Ok(made) => Ok(made),
        Err(WorkError::Refused) => unreachable!(),
        Err(WorkError::Memory) => Err(TextError::Memory),
    }
}

/// The answer that tells a report with points.
fn proof_reply(alloc: Global, made: &PointReport) -> Result<Reply, AllocError>
    ensures reply { IfOk result (λ reply. reply ≡ proof_reply made.now) }
    ensures status { IfOk result (λ reply. IsAnswer reply.status) }
{
    let text = print_with_points(alloc, &made.report, &made.points)?;
    let all_proved = unproved_assertions(&made.report) == 0;
    Ok(Reply {
        status: if all_proved {
            Status::AllProved
        } else {
            Status::SomeUnproved
        },
        text: Items::from_vec(text),
    })
}

/// The answer to a text that is to be proved.
fn text_reply(alloc: Global, text: &[u8]) -> Result<Reply, AllocError>
    requires { length text.now ≤ most_bytes }
    ensures reply { IfOk result (OrRefused text.now (TellsProof text.now)) }
    ensures status { IfOk result (λ reply. IsAnswer reply.status) }
{
    match text_proof(alloc, text) {
        Ok(made) => proof_reply(alloc, &made),
        Err(TextError::Refused(refusal)) => refused_reply(alloc, text, refusal),
        Err(TextError::Memory) => Err(AllocError),
    }
}

/// The answer to an input of which as much as can be is to be proved.
pub fn prove_reply(alloc: Global, input: &[u8]) -> Result<Reply, AllocError>
    ensures reply { IfOk result (IsReplyToProve input.now) }
    ensures status { IfOk result (λ reply. IsAnswer reply.status) }
{
    if input.len() > MOST_BYTES {
        return too_long(alloc);
    }
    text_reply(alloc, input)
}
