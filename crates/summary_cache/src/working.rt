ghost use Rattle.std.specs.Prelude.{◌≡◌, ◌≤◌, ◌+◌, length, IfOk};
ghost use Rattle.std.specs.Option.{option_copied};
ghost use Rattle.kept_groups.specs.Kept.{Anything};
ghost use Rattle.summary_cache.specs.Accepted.{Accepts};
ghost use Rattle.summary_cache.specs.Counted.{counts_of};
ghost use Rattle.summary_cache.specs.Kept.{AreAllowed, groups_of};
ghost use Rattle.summary_cache.specs.Limits.{most_bytes};
ghost use Rattle.summary_cache.specs.Rules.{IsRule, with_rule};
ghost use Rattle.summary_cache.specs.Submitted.{Works};

use crate::last::Last;
use crate::laws::{
    accepted_is_well_formed, assertions_ascend, claims_know_no_rule, rules_are_free,
};
use crate::place::places_of;
use analysis::{plan, report_by_findings};
use farkas_check::Oracle;
use kept_groups::{FoundParts, KeptGroups, Steps, findings_over};
use posing::{Log, WorkError};
use report::{Report, proved_assertions, unproved_assertions};
use std::alloc::Global;
use std::sync::ledger::Ledger;
use syntax_tree::Program;

/// How many groups were summed up and how many there are, and how many assertions are proved and
/// how many are not.
#[derive(Clone, Copy, Debug, PartialEq, Eq)]
pub struct Counts {
    pub work: usize,
    pub groups: usize,
    pub proved: usize,
    pub unproved: usize,
}

fn counts_of(work: usize, groups: usize, report: &Report) -> Counts
    ensures { result ≡ counts_of work groups report.now }
{
    Counts {
        work,
        groups,
        proved: proved_assertions(report),
        unproved: unproved_assertions(report),
    }
}

/// A program with another rule.
pub fn with_rule(program: Program, rule: u32) -> Program
    ensures { result ≡ with_rule rule program }
{
    let mut program = program;
    program.rule = rule;
    program
}

/// The groups that are kept, if a text was accepted.
fn groups_of(last: &Option<Last>) -> Option<&KeptGroups>
    ensures { option_copied result ≡ groups_of last.now }
{
    match last {
        Some(last) => Some(&last.groups),
        None => None,
    }
}

/// What is kept of a text that spells a program, which is analysed under a rule, and its counts.
pub(crate) fn submitted_program<O: Oracle, L: Ledger>(
    alloc: Global,
    text: &[u8],
    rule: u32,
    program: Program,
    before: &Option<Last>,
    oracle: &mut O,
    steps: &mut Steps<L>,
) -> Result<(Last, Counts), WorkError>
    requires short { length text.now ≤ most_bytes }
    requires rule { IsRule rule }
    requires accepted { Accepts text.now program }
    requires kept { AreAllowed Anything before.now }
    ensures works { Works O.asking rule before.now oracle.old oracle.new text.now result }
    ensures ticked { IfOk result (λ made. steps.new ≡ steps.old + made.1.work) }
{
    accepted_is_well_formed();
    assertions_ascend();
    rules_are_free();
    claims_know_no_rule();
    let program = with_rule(program, rule);
    let plan = plan(alloc, &program)?;
    let places = places_of(alloc, text, program.checks.as_slice())?;
    let kept = groups_of(before);
    let FoundParts { found, parts, work } = findings_over(
        alloc,
        &program,
        plan.as_slice(),
        kept,
        oracle,
        steps,
    )?;
    let mut log = Log::new(alloc);
    let report = report_by_findings(alloc, &program, places.as_slice(), found, oracle, &mut log)?;
    let counts = counts_of(work, plan.len(), &report);
    let groups = KeptGroups {
        program,
        plan,
        parts,
    };
    let Log { answers, .. } = log;
    let last = Last {
        groups,
        report,
        rest: answers,
    };
    Ok((last, counts))
}
