ghost use Rattle.std.specs.Prelude.{◌≡◌, ◌≤◌, length, IfOk};
ghost use Rattle.wire.specs.Written.{IsWritable};
ghost use Rattle.summary_cache.specs.Limits.{most_bytes};
ghost use Rattle.commands.specs.Renew.{IsRenewed, IsRenewedBy, IsReplyToRenew};
ghost use Rattle.commands.specs.Status.{IsAnswer};

use crate::certifying::certificate_reply;
use crate::checking::reply_to_checked;
use crate::limits::MOST_FILE;
use crate::replaying::wrong_input;
use crate::reply::{Reply, too_long};
use crate::status::Status;
use std::alloc::{AllocError, Global};
use wire::{Certificate, WireError, read_certificate};

/// The answer by that of the check.
fn renewed_reply(alloc: Global, text: &[u8], checked: Reply) -> Result<Reply, AllocError>
    requires short { length text.now ≤ most_bytes }
    requires answer { IsAnswer checked.status }
    ensures reply { IfOk result (IsRenewedBy text.now checked) }
    ensures status { IfOk result (λ reply. IsAnswer reply.status) }
{
    match checked.status {
        Status::CheckPassed => certificate_reply(alloc, text),
        _ => Ok(checked),
    }
}

/// The answer to a file that is to be made anew.
fn reply_to_old(alloc: Global, file: Certificate) -> Result<Reply, AllocError>
    requires { IsWritable file }
    ensures reply { IfOk result (IsRenewed file) }
    ensures status { IfOk result (λ reply. IsAnswer reply.status) }
{
    let text = file.text.clone()?;
    let checked = reply_to_checked(alloc, file)?;
    renewed_reply(alloc, text.as_str().as_bytes(), checked)
}

/// The answer to bytes of which, as a certificate file, one that is made anew is asked for.
pub fn renew_reply(alloc: Global, bytes: &[u8]) -> Result<Reply, AllocError>
    ensures reply { IfOk result (IsReplyToRenew bytes.now) }
    ensures status { IfOk result (λ reply. IsAnswer reply.status) }
{
    if bytes.len() > MOST_FILE {
        return too_long(alloc);
    }
    match read_certificate(alloc, bytes) {
        Ok(file) => reply_to_old(alloc, file),
        Err(WireError::Memory) => Err(AllocError),
        Err(error) => wrong_input(alloc, &error),
    }
}
