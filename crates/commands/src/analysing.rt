ghost use Rattle.std.specs.Prelude.{◌≡◌, ◌≤◌, length, IfOk};
ghost use Rattle.summary_cache.specs.Limits.{most_bytes};
ghost use Rattle.summary_cache.specs.Rules.{IsRule};
ghost use Rattle.commands.specs.Analyse.{IsReplyToAnalyse, IsReplyToFacets, IsReplyUnder, TellsReport, report_reply};
ghost use Rattle.commands.specs.Status.{IsAnswer};
ghost use Rattle.commands.specs.Within.{OrRefused};

use crate::reply::{Reply, refused_reply, too_long};
use crate::status::Status;
use crate::submitting::analysis_by_finder;
use items::Items;
use report::{Report, print, unproved_assertions};
use std::alloc::{AllocError, Global};
use summary_cache::{MOST_BYTES, TextError};

/// The answer that tells a report.
pub(crate) fn report_reply(alloc: Global, report: &Report) -> Result<Reply, AllocError>
    ensures reply { IfOk result (λ reply. reply ≡ report_reply report.now) }
    ensures status { IfOk result (λ reply. IsAnswer reply.status) }
{
    let text = print(alloc, report)?;
    let all_proved = unproved_assertions(report) == 0;
    Ok(Reply {
        status: if all_proved {
            Status::AllProved
        } else {
            Status::SomeUnproved
        },
        text: Items::from_vec(text),
    })
}

/// The answer to a text, whose analysis is under a rule.
fn text_reply(alloc: Global, text: &[u8], rule: u32) -> Result<Reply, AllocError>
    requires short { length text.now ≤ most_bytes }
    requires rule { IsRule rule }
    ensures reply { IfOk result (OrRefused text.now (TellsReport rule text.now)) }
    ensures status { IfOk result (λ reply. IsAnswer reply.status) }
{
    match analysis_by_finder(alloc, text, rule) {
        Ok(last) => report_reply(alloc, &last.report),
        Err(TextError::Refused(refusal)) => refused_reply(alloc, text, refusal),
        Err(TextError::Memory) => Err(AllocError),
    }
}

/// The answer to an input that is to be analysed under a rule.
fn input_reply(alloc: Global, input: &[u8], rule: u32) -> Result<Reply, AllocError>
    requires { IsRule rule }
    ensures reply { IfOk result (IsReplyUnder rule input.now) }
    ensures status { IfOk result (λ reply. IsAnswer reply.status) }
{
    if input.len() > MOST_BYTES {
        return too_long(alloc);
    }
    text_reply(alloc, input, rule)
}

/// The answer to an input that is to be analysed.
pub fn analyse_reply(alloc: Global, input: &[u8]) -> Result<Reply, AllocError>
    ensures reply { IfOk result (IsReplyToAnalyse input.now) }
    ensures status { IfOk result (λ reply. IsAnswer reply.status) }
{
    input_reply(alloc, input, 2)
}

/// The answer to an input whose loops are to be bounded along the facets of the hull of their changes.
pub fn facets_reply(alloc: Global, input: &[u8]) -> Result<Reply, AllocError>
    ensures reply { IfOk result (IsReplyToFacets input.now) }
    ensures status { IfOk result (λ reply. IsAnswer reply.status) }
{
    input_reply(alloc, input, 3)
}
