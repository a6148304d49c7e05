ghost use Rattle.std.specs.Prelude.{◌≡◌, ◌≤◌, ◌+◌, None, length, IfOk};
ghost use Rattle.std.specs.Option.{option_copied, option_map};
ghost use Rattle.kept_groups.specs.Kept.{Anything};
ghost use Rattle.summary_cache.specs.First.{ComesFirst};
ghost use Rattle.summary_cache.specs.Kept.{AreAllowed, last_analysis};
ghost use Rattle.summary_cache.specs.Limits.{most_bytes};
ghost use Rattle.summary_cache.specs.Rules.{IsRule};
ghost use Rattle.summary_cache.specs.Submitted.{Comes, Submits, answers_in_session, report_in};

use crate::error::SubmitError;
use crate::last::{Analysed, Last};
use crate::reading::read;
use crate::refusal::TextError;
use crate::working::{Counts, submitted_program};
use farkas_check::{Answer, Oracle};
use items::Items;
use kept_groups::Steps;
use posing::WorkError;
use report::Report;
use std::alloc::{AllocError, Global};
use std::marker::Model;
use std::sync::ledger::Ledger;

/// The rule by which the iterations of loops are summed up, and what is kept of the text that was
/// accepted last.
#[derive(Drop)]
pub struct Session {
    rule: u32,
    last: Option<Last>,
}

impl Model for Session {
    ghost use Rattle.std.specs.Coded.{codes};
    ghost use Rattle.kept_groups.specs.Kept.{Anything};
    ghost use Rattle.syntax_tree.specs.contracts.core_expr.Core as expression;
    ghost use Rattle.syntax_tree.specs.contracts.stmt.Stmt as statement;
    ghost use Rattle.summary_cache.specs.Kept.{AreAllowed, Kept};
    ghost use Rattle.summary_cache.specs.Rules.{IsRule};

    ghost Value = { Kept };

    ghost coded = { Prim.hlevel (codes, expression.the_row.coded, statement.the_row.coded) };

    ghost view = { λ s. record { rule = s.rule; last = s.last } };

    ghost invariant = { λ s. IsRule s.rule × AreAllowed Anything s.last };
}

impl Session {
    /// A session that has accepted no text.
    pub fn new() -> Session
        ensures { result ≡ record { rule = 2; last = None } }
    {
        Session {
            rule: 2,
            last: None,
        }
    }

    /// A session of a rule.
    pub fn with_rule(rule: u32) -> Session
        requires { IsRule rule }
        ensures { result ≡ record { rule = rule; last = None } }
    {
        Session { rule, last: None }
    }

    /// Reads a text and analyses its program. A group that nothing tells apart from one of the text
    /// that was accepted last takes over what is kept of that, and asks nothing; each other one is
    /// one step. After an error the session is as it was.
    pub fn submit<O: Oracle, L: Ledger>(
        &mut self,
        alloc: Global,
        text: &[u8],
        oracle: &mut O,
        steps: &mut Steps<L>,
    ) -> Result<Counts, SubmitError>
        requires { length text.now ≤ most_bytes }
        ensures submits { Submits O.asking oracle.old oracle.new text.now self.old self.new result }
        ensures ticked { IfOk result (λ counts. steps.new ≡ steps.old + counts.work) }
        ensures first { self.old.last ≡ None
            → ComesFirst O.asking self.old.rule oracle.old oracle.new text.now self.new.last result }
    {
        match submitted_text(alloc, text, self.rule, &self.last, oracle, steps) {
            Ok((last, counts)) => {
                self.last = Some(last);
                Ok(counts)
            }
            Err(error) => Err(error),
        }
    }

    /// The report of the last text, if one was accepted.
    pub fn report(&self) -> Option<&Report>
        ensures { option_copied result ≡ report_in self.now }
    {
        match &self.last {
            Some(last) => Some(&last.report),
            None => None,
        }
    }

    /// The answers for the last text, in the order of their questions, and none where no text was
    /// accepted.
    pub fn answers(&self, alloc: Global) -> Result<Items<Answer>, AllocError>
        ensures { IfOk result (λ answers. answers ≡ answers_in_session self.now) }
    {
        match &self.last {
            Some(last) => last.answers(alloc),
            None => Ok(Items::new(alloc)),
        }
    }

    /// The report and the answers of the last text, if one was accepted.
    pub fn into_analysed(self, alloc: Global) -> Result<Option<Analysed>, AllocError>
        ensures { IfOk result (λ made. made ≡ option_map last_analysis self.last) }
    {
        match self.last {
            Some(last) => Ok(Some(last.into_analysed(alloc)?)),
            None => Ok(None),
        }
    }
}

/// What comes of a text, where this is kept of the one before.
fn submitted_text<O: Oracle, L: Ledger>(
    alloc: Global,
    text: &[u8],
    rule: u32,
    before: &Option<Last>,
    oracle: &mut O,
    steps: &mut Steps<L>,
) -> Result<(Last, Counts), SubmitError>
    requires short { length text.now ≤ most_bytes }
    requires rule { IsRule rule }
    requires kept { AreAllowed Anything before.now }
    ensures comes { Comes O.asking rule before.now oracle.old oracle.new text.now result }
    ensures ticked { IfOk result (λ made. steps.new ≡ steps.old + made.1.work) }
{
    let program = match read(alloc, text) {
        Ok(program) => program,
        Err(TextError::Refused(refusal)) => return Err(SubmitError::Text(refusal)),
        Err(TextError::Memory) => return Err(SubmitError::Memory),
    };
    match submitted_program(alloc, text, rule, program, before, oracle, steps) {
        Ok(made) => Ok(made),
        Err(WorkError::Refused) => Err(SubmitError::Refused),
        Err(WorkError::Memory) => Err(SubmitError::Memory),
    }
}
