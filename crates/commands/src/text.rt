ghost use Rattle.std.specs.Prelude.{◌≡◌, ◌++◌, IfOk, OnOk, decimal};

use itoa::Buffer;
use std::alloc::{AllocError, Global};

/// A text that is being made.
#[derive(Debug, Drop)]
pub(crate) struct ReplyText {
    pub(crate) bytes: Vec<u8>,
}

impl ReplyText {
    pub(crate) fn put(&mut self, bytes: &[u8]) -> Result<(), AllocError>
        ensures { OnOk result (self.new.bytes.items ≡ self.old.bytes.items ++ bytes.now) }
    {
        self.bytes.extend_from_slice(bytes)
    }

    pub(crate) fn put_count(&mut self, n: u128) -> Result<(), AllocError>
        ensures { OnOk result (self.new.bytes.items ≡ self.old.bytes.items ++ decimal n) }
    {
        self.put(Buffer::new().format(n).as_bytes())
    }
}

/// A number between two texts.
pub(crate) fn put_between(
    text: &mut ReplyText,
    before: &[u8],
    number: u128,
    after: &[u8],
) -> Result<(), AllocError>
    ensures { OnOk result
        (text.new.bytes.items ≡ text.old.bytes.items
        ++ (before.now ++ decimal number ++ after.now)) }
{
    text.put(before)?;
    text.put_count(number)?;
    text.put(after)
}

/// A text between two others.
pub(crate) fn between(
    alloc: Global,
    before: &[u8],
    text: &[u8],
    after: &[u8],
) -> Result<Vec<u8>, AllocError>
    ensures { IfOk result (λ whole. whole.items ≡ before.now ++ text.now ++ after.now) }
{
    let mut whole = ReplyText {
        bytes: Vec::new(alloc),
    };
    whole.put(before)?;
    whole.put(text)?;
    whole.put(after)?;
    let ReplyText { bytes } = whole;
    Ok(bytes)
}
