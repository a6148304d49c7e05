ghost use Rattle.summary_cache.specs.Calls.{CallsAreStatements};
ghost use Rattle.summary_cache.specs.Laws.{AcceptedHasRuleTwo, AcceptedIsNotRefused, AcceptedIsWellFormed, AcceptedOnce, AssertionsAscend, RefusalIsOne};
ghost use Rattle.summary_cache.specs.Rules.{ClaimsKnowNoRule, RulesAreFree};

/// A text is accepted as one program at most.
pub fn text_is_accepted_once()
    ensures { AcceptedOnce }
{}

/// A text that is accepted is not refused.
pub fn accepted_is_not_refused()
    ensures { AcceptedIsNotRefused }
{}

/// A text is refused for one reason at most.
pub fn refusal_is_one()
    ensures { RefusalIsOne }
{}

/// The program of a text is well formed.
pub fn accepted_is_well_formed()
    ensures { AcceptedIsWellFormed }
{}

/// The assertions of a program are numbered in the order of their places.
pub fn assertions_ascend()
    ensures { AssertionsAscend }
{}

/// Each call of one of the text's own procedures is a call of the program, and there are no others.
pub fn calls_are_statements()
    ensures { CallsAreStatements }
{}

/// A program is well formed under each rule.
pub fn rules_are_free()
    ensures { RulesAreFree }
{}

/// Claims that are met under a rule are met.
pub fn claims_know_no_rule()
    ensures { ClaimsKnowNoRule }
{}

/// The program of a text has rule 2.
pub fn accepted_has_rule_two()
    ensures { AcceptedHasRuleTwo }
{}
