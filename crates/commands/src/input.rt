ghost use Rattle.std.specs.Prelude.{◌≡◌, ◌≢◌, ◌+◌, ◌<◌, ◌≤◌, ◌^◌, ℕ, List, Option, true, false, Err, IfOk, length, vec_len};
ghost use Rattle.std.specs.Io.KnownBytes.{Consumes, IsAtEnd};
ghost use Rattle.whole_numbers.specs.Counters.{Rose};
ghost use Rattle.commands.specs.Input.{IsInput};

use cra_io::{Failed, Source};
use std::alloc::{AllocError, Global};

/// Why an input was not read.
#[derive(Clone, Copy, Debug, PartialEq, Eq)]
pub enum InputError {
    Failed,
    Memory,
}

impl From<Failed> for InputError {
    ghost use Rattle.std.specs.Prelude.{◌≡◌};
    ghost use Rattle.commands.specs.declared.input.InputError.TheVariants.{Failed};

    ghost from_gives = { λ _ e. e ≡ Failed };

    fn from(_: Failed) -> InputError {
        InputError::Failed
    }
}

impl From<AllocError> for InputError {
    ghost use Rattle.std.specs.Prelude.{◌≡◌};
    ghost use Rattle.commands.specs.declared.input.InputError.TheVariants.{Memory};

    ghost from_gives = { λ _ e. e ≡ Memory };

    fn from(_: AllocError) -> InputError {
        InputError::Memory
    }
}

/// Room for one read.
fn room(alloc: Global, len: usize) -> Result<Vec<u8>, AllocError>
    ensures { IfOk result (λ piece. vec_len piece ≡ len) }
{
    vec![in alloc; 0u8; len]
}

/// Reads one piece, and puts what came at the end of the bytes. Whether anything came.
#[tactic(auto, using(crate::proofs::Inputs::one_piece_more))]
fn read_piece<S: Source>(
    source: &mut S,
    piece: &mut [u8],
    bytes: &mut Vec<u8>,
) -> Result<bool, InputError>
    requires { 0 < length piece.old }
    ensures told { IfOk result (λ _. (all : Option (List ℕ))
        → Consumes all (S.left source.old) bytes.old.items
        → Consumes all (S.left source.new) bytes.new.items) }
    ensures within { IfOk result (λ _. vec_len bytes.new ≤ vec_len bytes.old + length piece.old) }
    ensures more { IfOk result (λ came. came ≡ true → vec_len bytes.old < vec_len bytes.new) }
    ensures end { IfOk result (λ came. came ≡ false → IsAtEnd (S.left source.new)) }
    ensures failed { result ≡ Err InputError.Failed
        → Rose (S.faults source.old) (S.faults source.new) }
    ensures counted { result ≢ Err InputError.Failed → S.faults source.new ≡ S.faults source.old }
{
    let count = source.read(piece)?;
    bytes.extend_from_slice(&piece[..count])?;
    Ok(count > 0)
}

/// Reads to the end of the source, or to one byte past the limit, in pieces of some length.
pub fn read_input<S: Source>(
    alloc: Global,
    source: &mut S,
    limit: usize,
    len: usize,
) -> Result<Vec<u8>, InputError>
    requires limit { limit < 2 ^ 63 }
    requires piece { 0 < len }
    ensures input { IfOk result (λ bytes. IsInput limit (S.left source.old) bytes.items) }
    ensures rest { IfOk result
        (λ bytes. Consumes (S.left source.old) (S.left source.new) bytes.items) }
    ensures failed { result ≡ Err InputError.Failed
        → Rose (S.faults source.old) (S.faults source.new) }
    ensures counted { result ≢ Err InputError.Failed → S.faults source.new ≡ S.faults source.old }
{
    let mut bytes = Vec::new(alloc);
    let mut piece = room(alloc, len)?;
    while bytes.len() <= limit {
        let asked = len.min(limit + 1 - bytes.len());
        if !read_piece(source, &mut piece[..asked], &mut bytes)? {
            break;
        }
    }
    Ok(bytes)
}
