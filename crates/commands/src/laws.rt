//! Each law is the contract of a function that does nothing.
ghost use Rattle.commands.specs.Tame.{TameTextsHaveNoLimit};

/// Where every question posed is tame, the report of a text has no limit.
pub fn tame_texts_have_no_limit()
    ensures { TameTextsHaveNoLimit }
{}
