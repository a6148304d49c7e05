ghost use Rattle.c_parser.specs.Laws.{LexedEndsOnce, ReadingIsNotRefused, ReadingIsOne, ReadingsAreShort, RefusalIsOne, TokensAreReadOrRefused};

/// A list of tokens reads as one tree at most.
pub fn reading_is_one()
    ensures { ReadingIsOne }
{}

/// Tokens are refused for one reason at most.
pub fn refusal_is_one()
    ensures { RefusalIsOne }
{}

/// Tokens that read as a tree within the limits are not refused.
pub fn reading_is_not_refused()
    ensures { ReadingIsNotRefused }
{}

/// Tokens that end once read as a tree within the limits, or are refused.
pub fn tokens_are_read_or_refused()
    ensures { TokensAreReadOrRefused }
{}

/// The tokens of a text are in the form that `parse` asks for.
pub fn lexed_ends_once()
    ensures { LexedEndsOnce }
{}

/// Each whole expression of a tree has fewer operators than there are tokens: signs, calls'
/// arguments and the operators of `+=` and `++` are counted.
pub fn readings_are_short()
    ensures { ReadingsAreShort }
{}
