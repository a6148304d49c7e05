ghost use Rattle.std.specs.Prelude.{◌≡◌, ◌≤◌, ◌++◌, length, IfOk, OnOk};
ghost use Rattle.std.specs.List.{flat_map, range_with_len};
ghost use Rattle.summary_cache.specs.Limits.{most_bytes};
ghost use Rattle.commands.specs.Sample.{IsCountsOf, IsReplyToSample, TellsCounts, call_text, counts_line, counts_reply, procedure_text, sample_text};
ghost use Rattle.commands.specs.Within.{OrRefused};
ghost use Rattle.commands.specs.Status.{IsAnswer};

use crate::reply::{Reply, refused_reply, too_long};
use crate::status::Status;
use crate::submitting::submit;
use crate::text::{ReplyText, put_between};
use finder::Finder;
use items::Items;
use std::alloc::{AllocError, Global};
use summary_cache::{Counts, MOST_BYTES, Session, SubmitError, TextError};

/// A procedure that counts up to its argument.
fn put_procedure(text: &mut ReplyText, number: u32) -> Result<(), AllocError>
    ensures { OnOk result (text.new.bytes.items ≡ text.old.bytes.items ++ procedure_text number) }
{
    put_between(
        text,
        b"int p",
        number as u128,
        b"(int n) {\n  int i = 0;\n  while (i < n) i++;\n  assert(i >= n);\n  return i;\n}\n",
    )
}

/// A call of such a procedure.
fn put_call(text: &mut ReplyText, number: u32) -> Result<(), AllocError>
    ensures { OnOk result (text.new.bytes.items ≡ text.old.bytes.items ++ call_text number) }
{
    put_between(text, b"  p", number as u128, b"(")?;
    put_between(text, b"", number as u128, b");\n")
}

/// The procedures of a made text.
fn put_procedures(text: &mut ReplyText, count: u32) -> Result<(), AllocError>
    ensures { OnOk result
        (text.new.bytes.items ≡ text.old.bytes.items ++ flat_map procedure_text
        (range_with_len 1 count)) }
{
    for number in 0..count {
        put_procedure(text, number + 1)?;
    }
    Ok(())
}

/// The calls of a made text.
fn put_calls(text: &mut ReplyText, count: u32) -> Result<(), AllocError>
    ensures { OnOk result
        (text.new.bytes.items ≡ text.old.bytes.items ++ flat_map call_text
        (range_with_len 1 count)) }
{
    for number in 0..count {
        put_call(text, number + 1)?;
    }
    Ok(())
}

/// A text of so many procedures and `main`, which calls each of them.
fn sample_text(alloc: Global, count: u32) -> Result<Vec<u8>, AllocError>
    ensures { IfOk result (λ text. text.items ≡ sample_text count) }
{
    let mut text = ReplyText {
        bytes: Vec::new(alloc),
    };
    put_procedures(&mut text, count)?;
    text.put(b"int main(void) {\n")?;
    put_calls(&mut text, count)?;
    text.put(b"}\n")?;
    let ReplyText { bytes } = text;
    Ok(bytes)
}

/// The line that tells the counts of a made text.
fn counts_line(
    alloc: Global,
    count: u32,
    bytes: usize,
    counts: Counts,
) -> Result<Vec<u8>, AllocError>
    ensures { IfOk result (λ line. line.items ≡ counts_line count bytes counts) }
{
    let mut text = ReplyText {
        bytes: Vec::new(alloc),
    };
    put_between(&mut text, b"sample ", count as u128, b": ")?;
    put_between(&mut text, b"", bytes as u128, b" bytes, ")?;
    put_between(&mut text, b"", counts.groups as u128, b" groups, ")?;
    put_between(&mut text, b"", counts.proved as u128, b" proved, ")?;
    put_between(&mut text, b"", counts.unproved as u128, b" unproved\n")?;
    let ReplyText { bytes } = text;
    Ok(bytes)
}

/// The answer that tells the counts of a made text.
fn counts_reply(
    alloc: Global,
    count: u32,
    bytes: usize,
    counts: Counts,
) -> Result<Reply, AllocError>
    ensures reply { IfOk result (λ reply. reply ≡ counts_reply count bytes counts) }
    ensures status { IfOk result (λ reply. IsAnswer reply.status) }
{
    let line = counts_line(alloc, count, bytes, counts)?;
    Ok(Reply {
        status: if counts.unproved == 0 {
            Status::AllProved
        } else {
            Status::SomeUnproved
        },
        text: Items::from_vec(line),
    })
}

/// The counts of a text, where the finder answers, which refuses no question.
fn counts_of(alloc: Global, text: &[u8]) -> Result<Counts, TextError>
    requires { length text.now ≤ most_bytes }
    ensures { IsCountsOf text.now result }
{
    let mut session = Session::new();
    let mut finder = Finder::new(alloc);
    match submit(alloc, &mut session, text, &mut finder) {
        Ok(counts) => Ok(counts),
        Err(SubmitError::Text(refusal)) => Err(TextError::Refused(refusal)),
        Err(SubmitError::Refused) => unreachable!(),
        Err(SubmitError::Memory) => Err(TextError::Memory),
    }
}

/// The answer to a made text.
fn reply_to_made(alloc: Global, count: u32, text: &[u8]) -> Result<Reply, AllocError>
    requires { length text.now ≤ most_bytes }
    ensures reply { IfOk result (OrRefused text.now (TellsCounts count text.now)) }
    ensures status { IfOk result (λ reply. IsAnswer reply.status) }
{
    match counts_of(alloc, text) {
        Ok(counts) => counts_reply(alloc, count, text.len(), counts),
        Err(TextError::Refused(refusal)) => refused_reply(alloc, text, refusal),
        Err(TextError::Memory) => Err(AllocError),
    }
}

/// The answer to a made text of so many procedures.
pub fn sample_reply(alloc: Global, count: u32) -> Result<Reply, AllocError>
    ensures reply { IfOk result (IsReplyToSample count) }
    ensures status { IfOk result (λ reply. IsAnswer reply.status) }
{
    let text = sample_text(alloc, count)?;
    if text.len() > MOST_BYTES {
        return too_long(alloc);
    }
    reply_to_made(alloc, count, &text)
}
