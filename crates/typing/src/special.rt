ghost use Rattle.std.specs.Prelude.{◌≡◌};
ghost use Rattle.std.specs.Str.{bytes_eq};
ghost use Rattle.typing.specs.Specials.{arguments_of, has_value, is_assertion, is_main, special_of};

/// What a special name stands for. A text calls these without declaring them.
#[derive(Clone, Copy)]
pub(crate) enum Special {
    Assert,
    Assume,
    Nondet,
    Error,
    Abort,
    Exit,
}

fn is(name: &[u8], text: &[u8]) -> bool
    ensures { result ≡ bytes_eq name.now text.now }
{
    name == text
}

/// What a name stands for, where it is special.
#[tactic(auto, unfolding(crate::specs::Specials::special_of))]
pub(crate) fn special_of(name: &[u8]) -> Option<Special>
    ensures { result ≡ special_of name.now }
{
    if is(name, b"assert") || is(name, b"__VERIFIER_assert") {
        Some(Special::Assert)
    } else if is(name, b"assume") || is(name, b"__VERIFIER_assume") {
        Some(Special::Assume)
    } else if is(name, b"__VERIFIER_nondet_int") {
        Some(Special::Nondet)
    } else if is(name, b"__VERIFIER_error") {
        Some(Special::Error)
    } else if is(name, b"abort") {
        Some(Special::Abort)
    } else if is(name, b"exit") {
        Some(Special::Exit)
    } else {
        None
    }
}

#[tactic(auto, unfolding(crate::specs::Specials::is_main))]
pub(crate) fn is_main(name: &[u8]) -> bool
    ensures { result ≡ is_main name.now }
{
    is(name, b"main")
}

impl Special {
    /// How many arguments it takes.
    pub(crate) fn arguments(self) -> usize
        ensures { result ≡ arguments_of self }
    {
        match self {
            Special::Assert => 1,
            Special::Assume => 1,
            Special::Nondet => 0,
            Special::Error => 0,
            Special::Abort => 0,
            Special::Exit => 1,
        }
    }

    pub(crate) fn has_value(self) -> bool
        ensures { result ≡ has_value self }
    {
        match self {
            Special::Assert => false,
            Special::Assume => false,
            Special::Nondet => true,
            Special::Error => false,
            Special::Abort => false,
            Special::Exit => false,
        }
    }

    pub(crate) fn is_assertion(self) -> bool
        ensures { result ≡ is_assertion self }
    {
        match self {
            Special::Assert => true,
            Special::Assume => false,
            Special::Nondet => false,
            Special::Error => true,
            Special::Abort => false,
            Special::Exit => false,
        }
    }
}
