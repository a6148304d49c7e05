ghost use Rattle.std.specs.Prelude.{◌≡◌, ◌≤◌, ◌+◌, None, length, IfOk};
ghost use Rattle.summary_cache.specs.First.{ComesFirst};
ghost use Rattle.summary_cache.specs.Limits.{most_bytes};
ghost use Rattle.summary_cache.specs.Submitted.{Submits, answers_in_session};

use farkas_check::{Answer, Oracle};
use items::Items;
use kept_groups::Steps;
use std::alloc::{AllocError, Global};
use std::sync::ledger::Ledger;
use summary_cache::{Counts, Session, SubmitError};

/// What comes of a text that is submitted to a session.
pub fn submit<O: Oracle, L: Ledger>(
    session: &mut Session,
    alloc: Global,
    text: &[u8],
    oracle: &mut O,
    steps: &mut Steps<L>,
) -> Result<Counts, SubmitError>
    requires { length text.now ≤ most_bytes }
    ensures submits { Submits O.asking oracle.old oracle.new text.now session.old session.new
        result }
    ensures ticked { IfOk result (λ counts. steps.new ≡ steps.old + counts.work) }
    ensures first { session.old.last ≡ None
        → ComesFirst O.asking session.old.rule oracle.old oracle.new text.now session.new.last
        result }
{
    session.submit(alloc, text, oracle, steps)
}

/// The answers of the text that was accepted last.
pub fn answers(session: &Session, alloc: Global) -> Result<Items<Answer>, AllocError>
    ensures { IfOk result (λ answers. answers ≡ answers_in_session session.now) }
{
    session.answers(alloc)
}
