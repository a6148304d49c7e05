ghost use Rattle.std.specs.Prelude.{◌≡◌, ◌≤◌, length, IfOk};
ghost use Rattle.summary_cache.specs.Limits.{most_bytes};
ghost use Rattle.commands.specs.Status.{IsAnswer};
ghost use Rattle.commands.specs.Within.{refused_reply, too_long};

use crate::refusal::refusal_text;
use crate::status::Status;
use items::Items;
use std::alloc::{AllocError, Global};
use summary_cache::Refusal;

/// What a run answers: its status, and the text that it writes.
#[derive(Debug, Drop)]
pub struct Reply {
    pub status: Status,
    pub text: Items<u8>,
}

/// An answer that is known beforehand.
pub fn line(alloc: Global, status: Status, text: &[u8]) -> Result<Reply, AllocError>
    ensures { IfOk result (λ reply. reply ≡ record { status = status; text = text.now }) }
{
    let text = Items::from_slice(alloc, text)?;
    Ok(Reply { status, text })
}

/// The answer to an input past its limit.
pub fn too_long(alloc: Global) -> Result<Reply, AllocError>
    ensures reply { IfOk result (λ reply. reply ≡ too_long) }
    ensures status { IfOk result (λ reply. IsAnswer reply.status) }
{
    line(alloc, Status::TooLong, b"input is too long\n")
}

/// The answer that tells why a text is refused.
pub fn refused_reply(alloc: Global, text: &[u8], refusal: Refusal) -> Result<Reply, AllocError>
    requires { length text.now ≤ most_bytes }
    ensures reply { IfOk result (λ reply. reply ≡ refused_reply text.now refusal) }
    ensures status { IfOk result (λ reply. IsAnswer reply.status) }
{
    let line = refusal_text(alloc, text, refusal)?;
    Ok(Reply {
        status: Status::Refused,
        text: Items::from_vec(line),
    })
}
