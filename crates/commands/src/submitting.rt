ghost use Rattle.std.specs.Prelude.{◌≡◌, ◌≢◌, ◌<◌, ◌≤◌, length, None, Some, IfOk};
ghost use Rattle.std.specs.Option.{option_map};
ghost use Rattle.summary_cache.specs.First.{ComesFirst};
ghost use Rattle.summary_cache.specs.Kept.{last_analysis};
ghost use Rattle.summary_cache.specs.Limits.{most_bytes};
ghost use Rattle.summary_cache.specs.Rules.{IsRule};
ghost use Rattle.summary_cache.specs.Submitted.{Submits};
ghost use Rattle.commands.specs.Stated.{IsFoundUnder};
ghost use Rattle.commands.specs.Submitted.{IsSubmitted};

use farkas_check::Oracle;
use finder::Finder;
use kept_groups::Steps;
use std::alloc::{AllocError, Global};
use std::marker::Brand;
use std::sync::ledger::{Blank, Ledger};
use summary_cache::{Analysed, Counts, Session, SubmitError, TextError};

/// What comes of a text that is submitted to a session, whose steps a new ledger counts.
fn submit_counting<O: Oracle, L: Ledger>(
    alloc: Global,
    session: &mut Session,
    text: &[u8],
    oracle: &mut O,
    blank: Blank,
) -> Result<Counts, SubmitError>
    requires short { length text.now ≤ most_bytes }
    requires name { blank.name ≡ L.name }
    requires parts { blank.parts ≡ L.parts }
    requires some { 0 < blank.parts }
    ensures submits { Submits O.asking oracle.old oracle.new text.now session.old session.new
        result }
    ensures first { session.old.last ≡ None
        → ComesFirst O.asking session.old.rule oracle.old oracle.new text.now session.new.last
        result }
{
    let mut steps = Steps::<L>::new(blank);
    session.submit(alloc, text, oracle, &mut steps)
}

/// What comes of a text that is submitted to a session. What a ledger counts is not read.
pub fn submit<O: Oracle>(
    alloc: Global,
    session: &mut Session,
    text: &[u8],
    oracle: &mut O,
) -> Result<Counts, SubmitError>
    requires short { length text.now ≤ most_bytes }
    ensures submits { Submits O.asking oracle.old oracle.new text.now session.old session.new
        result }
    ensures first { session.old.last ≡ None
        → ComesFirst O.asking session.old.rule oracle.old oracle.new text.now session.new.last
        result }
{
    submit_counting::<O, Brand>(alloc, session, text, oracle, Blank::new(1))
}

/// What a session keeps of the text that it accepted: its report and its answers.
fn last_analysis(alloc: Global, session: Session) -> Result<Analysed, AllocError>
    requires { session.last ≢ None }
    ensures { IfOk result (λ made. Some made ≡ option_map last_analysis session.last) }
{
    match session.into_analysed(alloc)? {
        Some(made) => Ok(made),
        None => unreachable!(),
    }
}

/// What comes of a text under a rule, where an oracle answers.
pub fn analysis_by_oracle<O: Oracle>(
    alloc: Global,
    text: &[u8],
    rule: u32,
    oracle: &mut O,
) -> Result<Analysed, SubmitError>
    requires short { length text.now ≤ most_bytes }
    requires rule { IsRule rule }
    ensures { IsSubmitted O.asking rule oracle.old oracle.new text.now result }
{
    let mut session = Session::with_rule(rule);
    match submit(alloc, &mut session, text, oracle) {
        Ok(_counts) => match last_analysis(alloc, session) {
            Ok(made) => Ok(made),
            Err(_error) => Err(SubmitError::Memory),
        },
        Err(error) => Err(error),
    }
}

/// What comes of a text under a rule where the finder answers, which refuses no question.
pub fn analysis_by_finder(alloc: Global, text: &[u8], rule: u32) -> Result<Analysed, TextError>
    requires short { length text.now ≤ most_bytes }
    requires rule { IsRule rule }
    ensures { IsFoundUnder rule text.now result }
{
    let Ok(mut finder) = Finder::keeping(alloc) else {
        return Err(TextError::Memory);
    };
    match analysis_by_oracle(alloc, text, rule, &mut finder) {
        Ok(last) => Ok(last),
        Err(SubmitError::Text(refusal)) => Err(TextError::Refused(refusal)),
        Err(SubmitError::Refused) => unreachable!(),
        Err(SubmitError::Memory) => Err(TextError::Memory),
    }
}
