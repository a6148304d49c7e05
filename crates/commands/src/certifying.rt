ghost use Rattle.std.specs.Prelude.{◌≡◌, ◌≤◌, length, IfOk, IsUtf8};
ghost use Rattle.wire.specs.Written.{IsWritable};
ghost use Rattle.summary_cache.specs.Limits.{most_bytes};
ghost use Rattle.commands.specs.Certify.{IsFileOf, IsReplyToCertify, TellsFile, file_reply_within};
ghost use Rattle.commands.specs.Within.{OrRefused};
ghost use Rattle.commands.specs.Stated.{IsAnalysed};
ghost use Rattle.commands.specs.Status.{IsAnswer};

use crate::limits::MOST_FILE;
use crate::reply::{Reply, line, refused_reply, too_long};
use crate::status::Status;
use crate::submitting::analysis_by_finder;
use crate::text::between;
use farkas_check::Answer;
use items::Items;
use report::{Report, print};
use std::alloc::{AllocError, Global};
use std::str;
use summary_cache::{Analysed, MOST_BYTES, TextError};
use wire::{Certificate, FileText, Version, share, write_certificate};

/// Bytes that are UTF-8 as a text.
fn text_of(alloc: Global, bytes: &[u8]) -> Result<FileText, AllocError>
    requires { IsUtf8 bytes.now }
    ensures { IfOk result (λ text. text ≡ bytes.now) }
{
    match str::from_utf8(bytes) {
        Ok(text) => Ok(FileText::from_string(String::from_str(alloc, text)?)),
        Err(_) => unreachable!(),
    }
}

/// The certificate file of a text, with its report and the answers under which it was made.
fn file_of(
    alloc: Global,
    text: &[u8],
    answers: Items<Answer>,
    report: &Report,
) -> Result<Certificate, AllocError>
    requires short { length text.now ≤ most_bytes }
    requires utf8 { IsUtf8 text.now }
    ensures is { IfOk result (IsFileOf text.now answers report.now) }
    ensures writable { IfOk result IsWritable }
{
    let text = text_of(alloc, text)?;
    let report = text_of(alloc, &print(alloc, report)?)?;
    let (answers, order) = share(alloc, answers)?;
    Ok(Certificate {
        version: Version::Second,
        text,
        report,
        answers,
        order,
    })
}

/// The answer that tells a certificate file, with a newline behind it, where both are at most
/// `most` bytes; else `output is too long`. The one error is want of memory.
pub fn file_reply(alloc: Global, file: &[u8], most: usize) -> Result<Reply, AllocError>
    ensures reply { IfOk result (λ reply. reply ≡ file_reply_within most file.now) }
    ensures status { IfOk result (λ reply. IsAnswer reply.status) }
{
    if file.len() >= most {
        return line(alloc, Status::TooLong, b"output is too long\n");
    }
    Ok(Reply {
        status: Status::Certified,
        text: Items::from_vec(between(alloc, file, b"\n", b"")?),
    })
}

/// The answer to a text that is analysed.
fn reply_to_analysed(alloc: Global, text: &[u8], last: Analysed) -> Result<Reply, AllocError>
    requires short { length text.now ≤ most_bytes }
    requires analysed { IsAnalysed text.now last.answers last.report }
    ensures reply { IfOk result (OrRefused text.now (TellsFile text.now)) }
    ensures status { IfOk result (λ reply. IsAnswer reply.status) }
{
    let Analysed { report, answers } = last;
    let file = file_of(alloc, text, answers, &report)?;
    let written = write_certificate(alloc, &file)?;
    file_reply(alloc, written.as_str().as_bytes(), MOST_FILE)
}

/// The answer to a text.
pub fn certificate_reply(alloc: Global, text: &[u8]) -> Result<Reply, AllocError>
    requires { length text.now ≤ most_bytes }
    ensures reply { IfOk result (OrRefused text.now (TellsFile text.now)) }
    ensures status { IfOk result (λ reply. IsAnswer reply.status) }
{
    match analysis_by_finder(alloc, text, 2) {
        Ok(last) => reply_to_analysed(alloc, text, last),
        Err(TextError::Refused(refusal)) => refused_reply(alloc, text, refusal),
        Err(TextError::Memory) => Err(AllocError),
    }
}

/// The answer to an input of which the certificate file is asked for.
pub fn certify_reply(alloc: Global, input: &[u8]) -> Result<Reply, AllocError>
    ensures reply { IfOk result (IsReplyToCertify input.now) }
    ensures status { IfOk result (λ reply. IsAnswer reply.status) }
{
    if input.len() > MOST_BYTES {
        return too_long(alloc);
    }
    certificate_reply(alloc, input)
}
