ghost use Rattle.std.specs.Prelude.{◌≡◌, IsTrue};
ghost use Rattle.std.specs.List.{list_all};
ghost use Rattle.std.specs.Option.{SomeIff};
ghost use Rattle.syntax_tree.specs.Name.{is_name_byte};

use items::Items;
use std::marker::Model;

/// A name of a text: its bytes, each a letter, a digit or `_`.
#[derive(Debug, Clone, PartialEq, Eq, PartialOrd, Ord, Hash, Drop)]
pub struct Name {
    letters: Items<u8>,
}

impl Model for Name {
    ghost use Rattle.std.specs.Prelude.{List, ℕ, IsTrue};
    ghost use Rattle.std.specs.List.{list_all};
    ghost use Rattle.syntax_tree.specs.Name.{is_name_byte};

    ghost Value = { List ℕ };

    ghost view = { λ a. a.letters };

    ghost invariant = { λ a. IsTrue (list_all is_name_byte a.letters) };

    ghost inverse = { λ bytes. record { letters = bytes } };
}

impl Name {
    /// The name with these bytes, or none where one of them is no letter, digit or `_`.
    pub fn new(letters: Items<u8>) -> Option<Name>
        ensures { SomeIff result (IsTrue (list_all is_name_byte letters)) letters }
    {
        if are_name_bytes(letters.as_slice()) {
            Some(Name { letters })
        } else {
            None
        }
    }

    /// The bytes.
    pub fn as_slice(&self) -> &[u8]
        ensures bytes { result.now ≡ self.now }
        ensures valid { IsTrue (list_all is_name_byte self.now) }
    {
        self.letters.as_slice()
    }
}

fn are_name_bytes(bytes: &[u8]) -> bool
    ensures { result ≡ list_all is_name_byte bytes.now }
{
    bytes
        .iter()
        .all(|byte| byte.is_ascii_alphanumeric() || *byte == b'_')
}
