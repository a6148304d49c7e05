ghost use Rattle.std.specs.Prelude.{◌≡◌, ◌<◌, ◌≤◌, ◌+◌, ◌-◌, true, false, [], drop, IfOk, codes, length, nat_eq};
ghost use Rattle.std.specs.List.{common_prefix_len};
ghost use Rattle.report.specs.Text.{text_of};
ghost use Rattle.wire.specs.Written.{IsOrder, IsWritable};
ghost use Rattle.summary_cache.specs.Limits.{most_bytes};
ghost use Rattle.summary_cache.specs.Rules.{IsRule};
ghost use Rattle.commands.specs.Check.{IsCheckOf, IsCheckUnder, IsReplyToCheck, answers_in, compared_reply, failed_reply, finished_reply, rule_of};
ghost use Rattle.commands.specs.Status.{IsAnswer};

use crate::limits::MOST_FILE;
use crate::replaying::wrong_input;
use crate::reply::{Reply, line, refused_reply, too_long};
use crate::status::Status;
use crate::submitting::analysis_by_oracle;
use crate::text::ReplyText;
use farkas_check::Answer;
use items::Items;
use report::{Report, print};
use std::alloc::{AllocError, Global};
use summary_cache::SubmitError;
use wire::{Certificate, ListedAnswers, Version, WireError, read_certificate};

/// The answer to a file that does not pass.
fn failed_reply(
    alloc: Global,
    before: &[u8],
    number: u128,
    after: &[u8],
) -> Result<Reply, AllocError>
    ensures reply { IfOk result (λ reply. reply ≡ failed_reply before.now number after.now) }
    ensures status { IfOk result (λ reply. IsAnswer reply.status) }
{
    let mut text = ReplyText {
        bytes: Vec::new(alloc),
    };
    text.put(b"check failed: ")?;
    text.put(before)?;
    text.put_count(number)?;
    text.put(after)?;
    text.put(b"\n")?;
    let ReplyText { bytes } = text;
    Ok(Reply {
        status: Status::CheckFailed,
        text: Items::from_vec(bytes),
    })
}

/// Whether both have the same byte at a place.
fn same_at(one: &[u8], other: &[u8], at: usize) -> bool
    ensures more { result ≡ true → at < length one.now }
    ensures next { result ≡ true → common_prefix_len nat_eq (drop at one.now) (drop at other.now)
        ≡ 1 + common_prefix_len nat_eq (drop (at + 1) one.now) (drop (at + 1) other.now) }
    ensures end { result ≡ false → common_prefix_len nat_eq (drop at one.now) (drop at other.now)
        ≡ 0 }
{
    match (one.get(at), other.get(at)) {
        (Some(byte), Some(beside)) => *byte == *beside,
        _ => false,
    }
}

/// How many bytes two texts have in common from the front on.
fn common_len(one: &[u8], other: &[u8]) -> usize
    ensures { result ≡ common_prefix_len nat_eq one.now other.now }
{
    let mut len = 0;
    while same_at(one, other, len) {
        len += 1;
    }
    len
}

/// The answer by a report that was made and the one that is told.
fn compared_reply(alloc: Global, made: &[u8], told: &[u8]) -> Result<Reply, AllocError>
    ensures reply { IfOk result (λ reply. reply ≡ compared_reply made.now told.now) }
    ensures status { IfOk result (λ reply. IsAnswer reply.status) }
{
    if made == told {
        return line(alloc, Status::CheckPassed, b"check passed\n");
    }
    failed_reply(
        alloc,
        b"report differs at byte ",
        common_len(made, told) as u128,
        b"",
    )
}

/// The answer by a report that was made, where so many answers are left.
fn finished_reply(
    alloc: Global,
    made: &Report,
    told: &[u8],
    left: usize,
) -> Result<Reply, AllocError>
    ensures reply { IfOk result (λ reply. reply ≡ finished_reply (text_of made.now) told.now left) }
    ensures status { IfOk result (λ reply. IsAnswer reply.status) }
{
    if left == 0 {
        let made = print(alloc, made)?;
        return compared_reply(alloc, &made, told);
    }
    failed_reply(alloc, b"", left as u128, b" answers left")
}

/// The answer where the analysis came to a question without an answer that passes: so many are left
/// of all.
fn stuck_reply(alloc: Global, all: usize, left: usize) -> Result<Reply, AllocError>
    ensures reply { IfOk result (λ reply. reply ≡ failed_reply (codes "answer ") (all - left + 1) []) }
    ensures status { IfOk result (λ reply. IsAnswer reply.status) }
{
    let number = all.saturating_sub(left) as u128 + 1;
    failed_reply(alloc, b"answer ", number, b"")
}

/// The answer by what the analysis of a text comes to under a rule and the answers of a replay.
fn shown_reply(
    alloc: Global,
    text: &[u8],
    rule: u32,
    replay: ListedAnswers,
    told: &[u8],
) -> Result<Reply, AllocError>
    requires short { length text.now ≤ most_bytes }
    requires rule { IsRule rule }
    ensures reply { IfOk result (IsCheckUnder rule text.now replay.left told.now) }
    ensures status { IfOk result (λ reply. IsAnswer reply.status) }
{
    let mut replay = replay;
    let all = replay.left_count();
    match analysis_by_oracle(alloc, text, rule, &mut replay) {
        Ok(last) => finished_reply(alloc, &last.report, told, replay.left_count()),
        Err(SubmitError::Text(refusal)) => refused_reply(alloc, text, refusal),
        Err(SubmitError::Refused) => stuck_reply(alloc, all, replay.left_count()),
        Err(SubmitError::Memory) => Err(AllocError),
    }
}

/// The rule of a file of a version.
fn rule_of(version: Version) -> u32
    ensures rule { result ≡ rule_of version }
    ensures is { IsRule result }
{
    match version {
        Version::First => 1,
        Version::Second => 2,
    }
}

/// The replay of the answers of a file of a version, in the order of the questions that they are
/// for.
fn replay_of(version: Version, answers: Items<Answer>, order: Items<usize>) -> ListedAnswers
    requires { IsOrder version (length answers) order }
    ensures { result.left ≡ answers_in version answers order }
{
    match version {
        Version::First => ListedAnswers::new(answers),
        Version::Second => ListedAnswers::with_order(answers, order),
    }
}

/// The answer to a file.
pub fn reply_to_checked(alloc: Global, file: Certificate) -> Result<Reply, AllocError>
    requires { IsWritable file }
    ensures reply { IfOk result (IsCheckOf file) }
    ensures status { IfOk result (λ reply. IsAnswer reply.status) }
{
    let Certificate {
        version,
        text,
        report,
        answers,
        order,
    } = file;
    let replay = replay_of(version, answers, order);
    let text = text.as_str().as_bytes();
    shown_reply(
        alloc,
        text,
        rule_of(version),
        replay,
        report.as_str().as_bytes(),
    )
}

/// The answer to bytes that are to be checked as a certificate file.
pub fn check_reply(alloc: Global, bytes: &[u8]) -> Result<Reply, AllocError>
    ensures reply { IfOk result (IsReplyToCheck bytes.now) }
    ensures status { IfOk result (λ reply. IsAnswer reply.status) }
{
    if bytes.len() > MOST_FILE {
        return too_long(alloc);
    }
    match read_certificate(alloc, bytes) {
        Ok(file) => reply_to_checked(alloc, file),
        Err(WireError::Memory) => Err(AllocError),
        Err(error) => wrong_input(alloc, &error),
    }
}
