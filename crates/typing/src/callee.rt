ghost use Rattle.std.specs.Prelude.{◌≡◌};
ghost use Rattle.typing.specs.CallFaults.{may_call};

use crate::meaning::CallSignature;
use crate::special::{Special, is_main};
use syntax_tree::Name;

/// What the name of a call means.
#[derive(Clone, Copy)]
pub(crate) enum Callee {
    Special(Special),
    Own(CallSignature),
    Nobody,
}

/// Whether a procedure may be called by this name with so many arguments.
pub(crate) fn may_call(signature: CallSignature, name: &Name, count: usize) -> bool
    ensures { result ≡ may_call signature name.now count }
{
    !is_main(name.as_slice()) && signature.params == count
}
