ghost use Rattle.std.specs.Prelude.{◌≡◌, ◌≢◌, ◌⊎◌, false, Err, IfOk, map, string_bytes};
ghost use Rattle.std.specs.Io.KnownBytes.{Appends};
ghost use Rattle.whole_numbers.specs.Counters.{Rose};
ghost use Rattle.commands.specs.Output.{TookPart};
ghost use Rattle.commands.specs.declared.reply.Reply.{Reply as Answer};
ghost use Rattle.commands.specs.Analyse.{IsToAnalyse, IsToFacets, IsToProve};
ghost use Rattle.commands.specs.Bounded.{TellsTrueBounds};
ghost use Rattle.commands.specs.Certify.{IsToCertify};
ghost use Rattle.commands.specs.Check.{IsToCheck, IsToCheckCertified};
ghost use Rattle.commands.specs.Cost.{HasGlobal, HasNoGlobal, IsToCost};
ghost use Rattle.commands.specs.Edit.{IsToEdit};
ghost use Rattle.commands.specs.Prove.{TellsTrueProof};
ghost use Rattle.commands.specs.Renew.{IsToRenew, IsToRenewCertified};
ghost use Rattle.commands.specs.Replay.{IsToReplay};
ghost use Rattle.commands.specs.Replies.{IsReply, IsReplyToWork};
ghost use Rattle.commands.specs.Sentences.{AnAssertionFails, EndsWithTrueText, IsTrueFile, NoAssertionFails, TellsTrueText};
ghost use Rattle.commands.specs.Status.{IsAnswer};
ghost use Rattle.commands.specs.Tame.{TameTextsHaveNoLimit};
ghost use Rattle.commands.specs.Words.{reads_source, work_of};

use crate::analysing::{analyse_reply, facets_reply};
use crate::certifying::certify_reply;
use crate::checking::check_reply;
use crate::costing::cost_reply;
use crate::editing::edit_reply;
use crate::help::{help_reply, usage_reply, version_reply};
use crate::input::{InputError, read_input};
use crate::laws::tame_texts_have_no_limit;
use crate::limits::{MOST_FILE, MOST_INPUT, PIECE};
use crate::output::write_all;
use crate::proving::prove_reply;
use crate::renewing::renew_reply;
use crate::replaying::replay_reply;
use crate::reply::Reply;
use crate::sampling::sample_reply;
use crate::status::Status;
use crate::words::{Work, work_of};
use cra_io::{Sink, Source};
use std::alloc::Global;
use summary_cache::MOST_BYTES;
use wire::newline_is_read_over;

/// Reads what is asked for, and makes the whole answer.
fn answer_to<R: Source>(
    alloc: Global,
    work: Option<Work>,
    source: &mut R,
) -> Result<Reply, InputError>
    ensures answer { IfOk result (IsReplyToWork work (R.left source.old) (R.left source.new)) }
    ensures status { IfOk result (λ reply. IsAnswer reply.status) }
    ensures unread { reads_source work ≡ false → source.new ≡ source.old }
    ensures failed { result ≡ Err InputError.Failed
        → Rose (R.faults source.old) (R.faults source.new) }
    ensures counted { result ≢ Err InputError.Failed → R.faults source.new ≡ R.faults source.old }
{
    match work {
        None => Ok(usage_reply(alloc)?),
        Some(Work::Analyse) => {
            let input = read_input(alloc, source, MOST_BYTES, PIECE)?;
            Ok(analyse_reply(alloc, &input)?)
        }
        Some(Work::Prove) => {
            let input = read_input(alloc, source, MOST_BYTES, PIECE)?;
            Ok(prove_reply(alloc, &input)?)
        }
        Some(Work::Facets) => {
            let input = read_input(alloc, source, MOST_BYTES, PIECE)?;
            Ok(facets_reply(alloc, &input)?)
        }
        Some(Work::Certify) => {
            let input = read_input(alloc, source, MOST_BYTES, PIECE)?;
            Ok(certify_reply(alloc, &input)?)
        }
        Some(Work::Check) => {
            let input = read_input(alloc, source, MOST_FILE, PIECE)?;
            Ok(check_reply(alloc, &input)?)
        }
        Some(Work::Edit) => {
            let input = read_input(alloc, source, MOST_INPUT, PIECE)?;
            Ok(edit_reply(alloc, &input)?)
        }
        Some(Work::Sample(count)) => Ok(sample_reply(alloc, count)?),
        Some(Work::Renew) => {
            let input = read_input(alloc, source, MOST_FILE, PIECE)?;
            Ok(renew_reply(alloc, &input)?)
        }
        Some(Work::Replay) => {
            let input = read_input(alloc, source, MOST_INPUT, PIECE)?;
            Ok(replay_reply(alloc, &input)?)
        }
        Some(Work::Cost(name)) => {
            let input = read_input(alloc, source, MOST_BYTES, PIECE)?;
            Ok(cost_reply(alloc, name.as_slice(), &input)?)
        }
        Some(Work::Help) => Ok(help_reply(alloc)?),
        Some(Work::Version) => Ok(version_reply(alloc)?),
    }
}

/// Reads what the words ask for, and makes the whole answer.
fn compose<R: Source>(alloc: Global, words: &[String], source: &mut R) -> Result<Reply, InputError>
    ensures answer { IfOk result
        (IsReply (map string_bytes words.now) (R.left source.old) (R.left source.new)) }
    ensures status { IfOk result (λ reply. IsAnswer reply.status) }
    ensures unread { reads_source (work_of (map string_bytes words.now)) ≡ false
        → source.new ≡ source.old }
    ensures failed { result ≡ Err InputError.Failed
        → Rose (R.faults source.old) (R.faults source.new) }
    ensures counted { result ≢ Err InputError.Failed → R.faults source.new ≡ R.faults source.old }
{
    let work = work_of(alloc, words)?;
    answer_to(alloc, work, source)
}

/// Runs the program: reads what its words ask for, makes the whole answer in memory, and only then
/// writes it.
///
/// The answer is the status with whose number the process ends.
pub fn run<R: Source, W: Sink>(
    alloc: Global,
    words: &[String],
    source: &mut R,
    sink: &mut W,
) -> Status
    // Asked to analyse an accepted text, `AllProved` says that no execution of its program from
    // `main` fails an assertion.
    ensures sound { (asked : IsToAnalyse (map string_bytes words.now) (R.left source.old))
        → result ≡ Status.AllProved → NoAssertionFails asked.program }
    // So asked, it writes a report that covers the program, whose claims are met, and each point of
    // which makes the rows of its case true.
    ensures told { (asked : IsToAnalyse (map string_bytes words.now) (R.left source.old))
        → IsAnswer result
        → TellsTrueText asked.program (W.taken sink.old) (W.taken sink.new) }
    // Asked to prove, it says the same, and writes a report with what holds at points, the claims of
    // which are met too.
    ensures sound_prove { (asked : IsToProve (map string_bytes words.now) (R.left source.old))
        → result ≡ Status.AllProved → NoAssertionFails asked.program }
    ensures told_prove { (asked : IsToProve (map string_bytes words.now) (R.left source.old))
        → IsAnswer result
        → TellsTrueProof asked.program (W.taken sink.old) (W.taken sink.new) }
    // Asked for the report along facets, it says and writes what it does asked to analyse.
    ensures sound_facets { (asked : IsToFacets (map string_bytes words.now) (R.left source.old))
        → result ≡ Status.AllProved → NoAssertionFails asked.program }
    ensures told_facets { (asked : IsToFacets (map string_bytes words.now) (R.left source.old))
        → IsAnswer result
        → TellsTrueText asked.program (W.taken sink.old) (W.taken sink.new) }
    // Asked for the versions of a text the last of which is accepted, `AllProved` says so of the
    // program of the last one, and the report of that is written behind the lines of the versions.
    ensures sound_edit { (asked : IsToEdit (map string_bytes words.now) (R.left source.old))
        → result ≡ Status.AllProved → NoAssertionFails asked.program }
    ensures told_edit { (asked : IsToEdit (map string_bytes words.now) (R.left source.old))
        → IsAnswer result
        → EndsWithTrueText asked.program (W.taken sink.old) (W.taken sink.new) }
    // `CheckPassed` says that all that the file's report tells is true, whoever made the file.
    ensures sound_check { (asked : IsToCheck (map string_bytes words.now) (R.left source.old))
        → result ≡ Status.CheckPassed → IsTrueFile asked.file.file asked.file.program }
    // Asked to replay, `SomeFailed` says that an execution from `main` fails an assertion.
    ensures failing { (asked : IsToReplay (map string_bytes words.now) (R.left source.old))
        → result ≡ Status.SomeFailed → AnAssertionFails asked.program }

    // Asked what an accepted text costs, `CostsTold` says that each execution of a procedure that
    // returns is held by some case of its summary, that the global changes as is printed of that
    // case, and that the multipliers of each bound show it.
    ensures sound_cost { (asked : IsToCost (map string_bytes words.now) (R.left source.old))
        → result ≡ Status.CostsTold
        → TellsTrueBounds asked.program asked.name (W.taken sink.old) (W.taken sink.new) }
    // The report of an accepted text, which `analyse`, `certify`, `edit` and `sample` tell, has no
    // limit where every question that its analysis posed is tame.
    ensures tame { TameTextsHaveNoLimit }

    // Every status but those of the source, the sink and memory is the answer to the words and to
    // the input.
    ensures answered { IsAnswer result → (reply : Answer)
        × IsReply (map string_bytes words.now) (R.left source.old) (R.left source.new) reply
        × (result ≡ reply.status)
        × Appends (W.taken sink.old) (W.taken sink.new) reply.text }
    ensures unread { reads_source (work_of (map string_bytes words.now)) ≡ false
        → source.new ≡ source.old }

    // A text that is accepted has its report, where memory is not wanting and no count of faults
    // rose.
    ensures complete { IsToAnalyse (map string_bytes words.now) (R.left source.old)
        → ¬ Rose (R.faults source.old) (R.faults source.new)
        → ¬ Rose (W.faults sink.old) (W.faults sink.new)
        → (result ≡ Status.AllProved) ⊎ (result ≡ Status.SomeUnproved)
        ⊎ (result ≡ Status.WantOfMemory) }

    // So has one of which as much as can be is to be proved.
    ensures complete_prove { IsToProve (map string_bytes words.now) (R.left source.old)
        → ¬ Rose (R.faults source.old) (R.faults source.new)
        → ¬ Rose (W.faults sink.old) (W.faults sink.new)
        → (result ≡ Status.AllProved) ⊎ (result ≡ Status.SomeUnproved)
        ⊎ (result ≡ Status.WantOfMemory) }

    // So has one whose report along facets is asked for.
    ensures complete_facets { IsToFacets (map string_bytes words.now) (R.left source.old)
        → ¬ Rose (R.faults source.old) (R.faults source.new)
        → ¬ Rose (W.faults sink.old) (W.faults sink.new)
        → (result ≡ Status.AllProved) ⊎ (result ≡ Status.SomeUnproved)
        ⊎ (result ≡ Status.WantOfMemory) }

    // So has the last version of a text.
    ensures complete_edit { IsToEdit (map string_bytes words.now) (R.left source.old)
        → ¬ Rose (R.faults source.old) (R.faults source.new)
        → ¬ Rose (W.faults sink.old) (W.faults sink.new)
        → (result ≡ Status.AllProved) ⊎ (result ≡ Status.SomeUnproved)
        ⊎ (result ≡ Status.WantOfMemory) }

    // A text that is accepted has its certificate file, which is written where it is within the
    // limit.
    ensures complete_certify { IsToCertify (map string_bytes words.now) (R.left source.old)
        → ¬ Rose (R.faults source.old) (R.faults source.new)
        → ¬ Rose (W.faults sink.old) (W.faults sink.new)
        → (result ≡ Status.Certified) ⊎ (result ≡ Status.TooLong)
        ⊎ (result ≡ Status.WantOfMemory) }

    // A certificate file whose text is accepted passes or does not, and where it passes it is made
    // anew.
    ensures complete_check { IsToCheck (map string_bytes words.now) (R.left source.old)
        → ¬ Rose (R.faults source.old) (R.faults source.new)
        → ¬ Rose (W.faults sink.old) (W.faults sink.new)
        → (result ≡ Status.CheckPassed) ⊎ (result ≡ Status.CheckFailed)
        ⊎ (result ≡ Status.WantOfMemory) }
    ensures complete_renew { IsToRenew (map string_bytes words.now) (R.left source.old)
        → ¬ Rose (R.faults source.old) (R.faults source.new)
        → ¬ Rose (W.faults sink.old) (W.faults sink.new)
        → (result ≡ Status.Certified) ⊎ (result ≡ Status.TooLong)
        ⊎ (result ≡ Status.CheckFailed) ⊎ (result ≡ Status.WantOfMemory) }

    // What `certify` printed passes.
    ensures passes { IsToCheckCertified (map string_bytes words.now) (R.left source.old)
        → ¬ Rose (R.faults source.old) (R.faults source.new)
        → ¬ Rose (W.faults sink.old) (W.faults sink.new)
        → (result ≡ Status.CheckPassed) ⊎ (result ≡ Status.WantOfMemory) }

    // And it is renewed, where what comes of it is within the limit.
    ensures passes_renew { IsToRenewCertified (map string_bytes words.now) (R.left source.old)
        → ¬ Rose (R.faults source.old) (R.faults source.new)
        → ¬ Rose (W.faults sink.old) (W.faults sink.new)
        → (result ≡ Status.Certified) ⊎ (result ≡ Status.TooLong)
        ⊎ (result ≡ Status.WantOfMemory) }

    // An input whose text is accepted has its trace, where memory is not wanting and no count of
    // faults rose.
    ensures complete_replay { IsToReplay (map string_bytes words.now) (R.left source.old)
        → ¬ Rose (R.faults source.old) (R.faults source.new)
        → ¬ Rose (W.faults sink.old) (W.faults sink.new)
        → (result ≡ Status.NoneFailed) ⊎ (result ≡ Status.SomeFailed)
        ⊎ (result ≡ Status.WantOfMemory) }

    // A text that is accepted has its costs where it has the global, and else is told to have none.
    ensures complete_cost { (asked : IsToCost (map string_bytes words.now) (R.left source.old))
        → ¬ Rose (R.faults source.old) (R.faults source.new)
        → ¬ Rose (W.faults sink.old) (W.faults sink.new)
        → ((result ≡ Status.CostsTold) × HasGlobal asked.program asked.name)
        ⊎ ((result ≡ Status.NoGlobal) × HasNoGlobal asked.program asked.name)
        ⊎ (result ≡ Status.WantOfMemory) }

    // The source failed: exactly where its count of faults rose, and then nothing is written.
    ensures source_failed { result ≡ Status.SourceFailed
        → Rose (R.faults source.old) (R.faults source.new) × (sink.new ≡ sink.old) }
    ensures source_counted { result ≢ Status.SourceFailed
        → R.faults source.new ≡ R.faults source.old }

    // The sink failed: exactly where its count of faults rose, and then a part of the answer is
    // written.
    ensures sink_failed { result ≡ Status.SinkFailed
        → Rose (W.faults sink.old) (W.faults sink.new) }
    ensures sink_counted { result ≢ Status.SinkFailed → W.faults sink.new ≡ W.faults sink.old }
    ensures part { result ≡ Status.SinkFailed → (reply : Answer)
        × IsReply (map string_bytes words.now) (R.left source.old) (R.left source.new) reply
        × TookPart (W.taken sink.old) (W.taken sink.new) reply.text }

    // Want of memory comes before anything is written.
    ensures memory_untouched { result ≡ Status.WantOfMemory → sink.new ≡ sink.old }
{
    newline_is_read_over();
    tame_texts_have_no_limit();
    let reply = match compose(alloc, words, source) {
        Ok(reply) => reply,
        Err(InputError::Failed) => return Status::SourceFailed,
        Err(InputError::Memory) => return Status::WantOfMemory,
    };
    match write_all(sink, &reply.text) {
        Ok(()) => reply.status,
        Err(_) => Status::SinkFailed,
    }
}
