ghost use Rattle.std.specs.Prelude.{◌≡◌, ◌≤◌, IfOk, IsUtf8, codes, length, string_bytes};
ghost use Rattle.items.specs.Gives.{Gives};
ghost use Rattle.serde_json.specs.View.{view};
ghost use Rattle.wire.specs.Errors.{wrong_path};
ghost use Rattle.wire.specs.Files.{most_text, source};
ghost use Rattle.wire.specs.Shapes.{field};

use crate::error::Wrong;
use crate::shape::{Shape, Written, member, under_key};
use items::Items;
use serde_json::Value;
use std::alloc::{AllocError, Global};
use std::marker::Model;

/// A UTF-8 text, which contracts see as its bytes.
#[derive(Debug, Drop)]
pub struct FileText {
    inner: String,
}

impl Model for FileText {
    ghost use Rattle.std.specs.Prelude.{List, ℕ, string_bytes};

    ghost Value = { List ℕ };

    ghost view = { λ t. string_bytes t.inner };
}

impl FileText {
    /// The text of a string.
    pub fn from_string(inner: String) -> FileText
        ensures bytes { result ≡ string_bytes inner }
        ensures utf8 { IsUtf8 result }
    {
        let _ = inner.as_str();
        FileText { inner }
    }

    /// The text.
    pub fn as_str(&self) -> &str
        ensures { result.now ≡ self.now }
    {
        self.inner.as_str()
    }
}

impl Clone for FileText {
    ghost is_clone = { λ a b. b ≡ a };

    fn clone(&self) -> Result<FileText, AllocError> {
        Ok(FileText::from_string(self.inner.clone()?))
    }
}

impl Shape for FileText {
    ghost use Rattle.wire.specs.Shapes.{text};

    ghost reads = { text };

    fn read(alloc: Global, part: &Value) -> Result<FileText, Wrong> {
        match part.as_str() {
            Some(text) => Ok(FileText::from_string(String::from_str(alloc, text)?)),
            None => Err(Wrong::At(Items::new(alloc))),
        }
    }
}

impl Written for FileText {
    ghost use Rattle.serde_json.specs.Data.{string};

    ghost writes = { string };

    fn write(&self, alloc: Global) -> Result<Value, AllocError> {
        Value::try_from_str(alloc, self.as_str())
    }
}

/// The most bytes of a program's text.
pub const MOST_TEXT: usize = 1_048_576;

/// A text of at most 1,048,576 bytes.
fn short_text(alloc: Global, part: &Value) -> Result<FileText, Wrong>
    ensures exact { Gives wrong_path (λ x. x) result (source (view part.now)) }
    ensures short { IfOk result (λ text. length text ≤ most_text) }
{
    let text = FileText::read(alloc, part)?;
    if text.as_str().len() <= MOST_TEXT {
        Ok(text)
    } else {
        Err(Wrong::At(Items::new(alloc)))
    }
}

/// The text of the program in a file.
pub(crate) fn source(alloc: Global, file: &Value) -> Result<FileText, Wrong>
    ensures exact { Gives wrong_path (λ x. x) result (field (codes "text") source (view file.now)) }
    ensures short { IfOk result (λ text. length text ≤ most_text) }
{
    let part = member(alloc, file, "text")?;
    under_key(alloc, "text", short_text(alloc, part))
}
