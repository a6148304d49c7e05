ghost use Rattle.c_lexer.specs.Laws.{RefusalIsOne, TokensAreNotRefused, TokensAreOne, TokensAscend};

/// A text has one list of tokens at most.
pub fn tokens_are_one()
    ensures { TokensAreOne }
{}

/// A text that has tokens is not refused.
pub fn tokens_are_not_refused()
    ensures { TokensAreNotRefused }
{}

/// A text is refused for one reason at most.
pub fn refusal_is_one()
    ensures { RefusalIsOne }
{}

/// Each token of a text stands behind those before it.
pub fn tokens_ascend()
    ensures { TokensAscend }
{}
