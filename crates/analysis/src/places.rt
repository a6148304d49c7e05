ghost use Rattle.std.specs.Prelude.{◌≡◌, ◌≤◌};
ghost use Rattle.analysis.specs.Judging.{place_in};

/// A place in a text: a byte offset, and the line and column of that, from 1.
#[derive(Clone, Copy, Debug, PartialEq, Eq)]
pub struct TextPlace {
    pub at: u32,
    pub line: u32,
    pub column: u32,
}

/// The place of an assertion, which are numbered from 1.
pub(crate) fn place_in(places: &[TextPlace], number: u32) -> TextPlace
    requires { 1 ≤ number }
    ensures { result ≡ place_in places.now number }
{
    match places.get(number as usize - 1) {
        Some(place) => *place,
        None => TextPlace {
            at: 0,
            line: 0,
            column: 0,
        },
    }
}
