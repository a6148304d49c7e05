ghost use Rattle.std.specs.Prelude.{◌≡◌, ◌≤◌, ◌++◌, [], None, length, IfOk, OnOk};
ghost use Rattle.std.specs.Option.{option_copied};
ghost use Rattle.items.specs.Gives.{Gives};
ghost use Rattle.wire.specs.Errors.{fault};
ghost use Rattle.summary_cache.specs.Limits.{most_bytes};
ghost use Rattle.commands.specs.Edit.{IsReplyToEdit, IsSubmission, TellsVersions, lines_reply, report_behind, version_line, versions_in, versions_reply};
ghost use Rattle.commands.specs.Editing.{AreShort, AreTold, HoldsFound};
ghost use Rattle.commands.specs.Status.{IsAnswer};

use crate::analysing::report_reply;
use crate::limits::MOST_INPUT;
use crate::refusal::refusal_text;
use crate::replaying::wrong_input;
use crate::reply::{Reply, too_long};
use crate::status::Status;
use crate::submitting::submit;
use crate::text::{ReplyText, put_between};
use finder::Finder;
use items::Items;
use report::Report;
use std::alloc::{AllocError, Global};
use summary_cache::{Counts, Refusal, Session, SubmitError};
use wire::{WireError, read_script, texts};

/// What comes of a text: it is accepted, with these counts, or refused.
#[derive(Clone, Copy)]
pub enum Submission {
    Accepted(Counts),
    Refused(Refusal),
}

/// The texts of a script, the first and the text after each edit.
fn versions_in(alloc: Global, input: &[u8]) -> Result<Items<wire::FileText>, WireError>
    ensures exact { Gives fault (λ x. x) result (versions_in input.now) }
    ensures short { IfOk result AreShort }
{
    let script = read_script(alloc, input)?;
    texts(alloc, &script)
}

/// What comes of a text, where the finder answers, which refuses no question.
fn submission_of(
    alloc: Global,
    session: &mut Session,
    finder: &mut Finder,
    text: &[u8],
) -> Result<Submission, AllocError>
    requires short { length text.now ≤ most_bytes }
    requires held { HoldsFound session.old }
    ensures made { IfOk result
        (λ made. IsSubmission session.old.last text.now made session.new.last) }
    ensures held { HoldsFound session.new }
{
    match submit(alloc, session, text, finder) {
        Ok(counts) => Ok(Submission::Accepted(counts)),
        Err(SubmitError::Text(refusal)) => Ok(Submission::Refused(refusal)),
        Err(SubmitError::Refused) => unreachable!(),
        Err(SubmitError::Memory) => Err(AllocError),
    }
}

/// The line of a version that is accepted, behind other lines.
fn put_counts(lines: &mut ReplyText, number: usize, counts: Counts) -> Result<(), AllocError>
    ensures { OnOk result (lines.new.bytes.items
        ≡ lines.old.bytes.items ++ version_line number [] (Submission.Accepted counts)) }
{
    put_between(lines, b"version ", number as u128, b" work ")?;
    put_between(lines, b"", counts.work as u128, b" of ")?;
    put_between(lines, b"", counts.groups as u128, b" proved ")?;
    put_between(lines, b"", counts.proved as u128, b" unproved ")?;
    put_between(lines, b"", counts.unproved as u128, b"\n")
}

/// The line of a version that is refused, behind other lines.
fn put_refusal(
    alloc: Global,
    lines: &mut ReplyText,
    number: usize,
    text: &[u8],
    refusal: Refusal,
) -> Result<(), AllocError>
    requires { length text.now ≤ most_bytes }
    ensures { OnOk result (lines.new.bytes.items
        ≡ lines.old.bytes.items ++ version_line number text.now (Submission.Refused refusal)) }
{
    let line = refusal_text(alloc, text, refusal)?;
    put_between(lines, b"version ", number as u128, b" ")?;
    lines.put(&line)
}

/// The line of a version, behind other lines.
fn put_line(
    alloc: Global,
    lines: &mut ReplyText,
    number: usize,
    text: &[u8],
    made: Submission,
) -> Result<(), AllocError>
    requires { length text.now ≤ most_bytes }
    ensures { OnOk result (lines.new.bytes.items
        ≡ lines.old.bytes.items ++ version_line number text.now made) }
{
    match made {
        Submission::Accepted(counts) => put_counts(lines, number, counts),
        Submission::Refused(refusal) => put_refusal(alloc, lines, number, text, refusal),
    }
}

/// The lines of texts that are submitted one after the other, and what comes of the last of them.
fn versions_told(
    alloc: Global,
    session: &mut Session,
    texts: &[wire::FileText],
) -> Result<(ReplyText, Option<Submission>), AllocError>
    requires short { AreShort texts.now }
    requires fresh { session.old ≡ record { rule = 2; last = None } }
    ensures { IfOk result
        (λ told. AreTold texts.now told.0.bytes.items told.1 session.new.last) }
{
    let mut finder = Finder::keeping(alloc)?;
    let mut lines = ReplyText {
        bytes: Vec::new(alloc),
    };
    let mut last = None;
    for (number, text) in texts.iter().enumerate() {
        let text = text.as_str().as_bytes();
        let made = submission_of(alloc, session, &mut finder, text)?;
        put_line(alloc, &mut lines, number, text, made)?;
        last = Some(made);
    }
    Ok((lines, last))
}

/// The answer that tells lines of versions, and the report of the last of them.
fn report_behind(alloc: Global, lines: ReplyText, report: &Report) -> Result<Reply, AllocError>
    ensures reply { IfOk result (λ reply. reply ≡ report_behind lines.bytes.items report.now) }
    ensures status { IfOk result (λ reply. IsAnswer reply.status) }
{
    let mut lines = lines;
    let told = report_reply(alloc, report)?;
    lines.put(&told.text)?;
    let ReplyText { bytes } = lines;
    Ok(Reply {
        status: told.status,
        text: Items::from_vec(bytes),
    })
}

/// The answer that tells lines of versions, the last of which is refused.
fn lines_reply(lines: ReplyText) -> Reply
    ensures reply { result ≡ lines_reply lines.bytes.items }
    ensures status { IsAnswer result.status }
{
    let ReplyText { bytes } = lines;
    Reply {
        status: Status::Refused,
        text: Items::from_vec(bytes),
    }
}

/// The answer that tells lines of versions, by what comes of the last of them.
fn versions_reply(
    alloc: Global,
    lines: ReplyText,
    last: Option<Submission>,
    report: Option<&Report>,
) -> Result<Reply, AllocError>
    ensures reply { IfOk result
        (λ reply. reply ≡ versions_reply lines.bytes.items last (option_copied report.entry)) }
    ensures status { IfOk result (λ reply. IsAnswer reply.status) }
{
    match (last, report) {
        (Some(Submission::Accepted(_counts)), Some(report)) => report_behind(alloc, lines, report),
        _ => Ok(lines_reply(lines)),
    }
}

/// The answer to the texts of a script.
fn reply_to_versions(alloc: Global, texts: &[wire::FileText]) -> Result<Reply, AllocError>
    requires { AreShort texts.now }
    ensures reply { IfOk result (TellsVersions texts.now) }
    ensures status { IfOk result (λ reply. IsAnswer reply.status) }
{
    let mut session = Session::new();
    let (lines, last) = versions_told(alloc, &mut session, texts)?;
    versions_reply(alloc, lines, last, session.report())
}

/// The answer to bytes that are to be edited as a script says.
pub fn edit_reply(alloc: Global, bytes: &[u8]) -> Result<Reply, AllocError>
    ensures reply { IfOk result (IsReplyToEdit bytes.now) }
    ensures status { IfOk result (λ reply. IsAnswer reply.status) }
{
    if bytes.len() > MOST_INPUT {
        return too_long(alloc);
    }
    match versions_in(alloc, bytes) {
        Ok(texts) => reply_to_versions(alloc, texts.as_slice()),
        Err(WireError::Memory) => Err(AllocError),
        Err(error) => wrong_input(alloc, &error),
    }
}
