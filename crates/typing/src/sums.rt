ghost use Rattle.std.specs.Prelude.{◌≡◌, ◌≤◌, ◌^◌, ◌+◌, IfErr, IfOk};

use std::alloc::AllocError;

/// The number, where it has 32 bits. No text has so many of anything, so a larger one is told as
/// want of memory.
pub(crate) fn small(number: usize) -> Result<u32, AllocError>
    ensures same { IfOk result (λ small. small ≡ number) }
    ensures past { IfErr result (λ _. 2 ^ 32 ≤ number) }
{
    if number <= u32::MAX as usize {
        Ok(number as u32)
    } else {
        Err(AllocError)
    }
}

/// The sum, where it has 32 bits.
pub(crate) fn sum(number: u32, more: u32) -> Result<u32, AllocError>
    ensures same { IfOk result (λ sum. sum ≡ number + more) }
    ensures past { IfErr result (λ _. 2 ^ 32 ≤ number + more) }
{
    number.checked_add(more).ok_or(AllocError)
}
