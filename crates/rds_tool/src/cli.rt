//! From a command line to the job or stream that it asks for.
ghost use Rattle.std.specs.Prelude.{◌≡◌, ◌≢◌, ◌⊎◌, [], IfErr, IfOk, IsErrAnd, None, Ok, OnOk, Some, map, string_bytes};
ghost use Rattle.std.specs.Result.{result_ok};
ghost use Rattle.clap.specs.{Kinds.FailsBy, Values.kind_of, Words.subcommand_rows_of};
ghost use Rattle.rds_tool.specs.CommandLine.{HasBadGaps, IsFault, MayAnswer, SaysBadGaps, asked_by, entries_of, faults_of, job_by, job_in as the_job_in};

use crate::commands::rds_command;
use crate::entries::asked_in;
use crate::fault::{CliFault, FaultKind, NoJob};
use crate::{Asked, Job, Request};
use clap::ArgMatches;
use clap::error::ErrorKind;
use std::alloc::Global;

/// Answers the request of a command line: a job, or to follow a stream, and the option that is ignored, if there
/// is one: `--loss` beside `--share`, or `--of` without it. The words begin with the program's name.
///
/// Else the answer is help or the version if that was asked for, or a fault. A fault comes if `clap` finds
/// one in the words, or neither a job nor a stream has their entries. If `clap` finds no fault but `--gaps`
/// cannot be parsed, the text is `bad --gaps` and a line feed. If memory is refused, the fault says so instead.
#[tactic(auto, using(crate::proofs::Refusing::answer_steps))]
pub fn asked_of(alloc: Global, words: &[&str]) -> Result<Asked, CliFault>
    ensures entries { IfOk result (λ asked. asked_by (entries_of (map (λ word. word.now) words.now))
        ≡ Ok asked) }
    ensures faultless { OnOk result (faults_of (map (λ word. word.now) words.now) ≡ []) }
    ensures refused { IfErr result (λ fault. MayAnswer (faults_of (map (λ word. word.now) words.now))
        (result_ok (asked_by (entries_of (map (λ word. word.now) words.now)))) fault.kind) }
    ensures gaps { faults_of (map (λ word. word.now) words.now) ≡ []
        → HasBadGaps (entries_of (map (λ word. word.now) words.now)) → IsErrAnd result SaysBadGaps }
    ensures memory { IfErr result (λ fault. fault.kind ≡ FaultKind.Memory → string_bytes fault.text ≡ []) }
{
    let matches = match matches_of(alloc, words) {
        Ok(matches) => matches,
        Err(error) => return Err(fault_of(alloc, &error)),
    };
    match asked_in(alloc, &matches) {
        Ok(asked) => Ok(asked),
        Err(why) => Err(no_job(alloc, why)),
    }
}

/// Answers the job of a command line, as [`asked_of`] does, with no word of progress or of an option that is
/// ignored. A stream is no job: words that ask to follow one are a fault.
#[tactic(auto, using(crate::proofs::Refusing::answer_steps))]
pub fn job_of(alloc: Global, words: &[&str]) -> Result<Job, CliFault>
    ensures entries { IfOk result (λ job. job_by (entries_of (map (λ word. word.now) words.now)) ≡ Some job) }
    ensures faultless { OnOk result (faults_of (map (λ word. word.now) words.now) ≡ []) }
    ensures refused { IfErr result (λ fault. MayAnswer (faults_of (map (λ word. word.now) words.now))
        (job_by (entries_of (map (λ word. word.now) words.now))) fault.kind) }
    ensures gaps { faults_of (map (λ word. word.now) words.now) ≡ []
        → HasBadGaps (entries_of (map (λ word. word.now) words.now)) → IsErrAnd result SaysBadGaps }
    ensures memory { IfErr result (λ fault. fault.kind ≡ FaultKind.Memory → string_bytes fault.text ≡ []) }
{
    match asked_of(alloc, words) {
        Ok(asked) => job_in(alloc, asked.request),
        Err(fault) => Err(fault),
    }
}

/// The job that is asked for.
fn job_in(alloc: Global, request: Request) -> Result<Job, CliFault>
    ensures job { IfOk result (λ job. the_job_in request ≡ Some job) }
    ensures stream { IfErr result (λ fault. (the_job_in request ≡ None)
        × ((fault.kind ≡ FaultKind.Memory) ⊎ (fault.kind ≡ FaultKind.Words))) }
    ensures memory { IfErr result (λ fault. fault.kind ≡ FaultKind.Memory → string_bytes fault.text ≡ []) }
{
    match request {
        Request::Job { job, progress: _ } => Ok(job),
        Request::Follow(_, _, _) | Request::FollowSoft { .. } => {
            Err(words_fault(alloc, "error: a stream is no job\n"))
        }
    }
}

/// The entries that `clap` reads from the words.
fn matches_of<'a>(alloc: Global, words: &'a [&'a str]) -> Result<ArgMatches<'a>, clap::Error>
    ensures entries { IfOk result (λ matches. subcommand_rows_of matches
        ≡ entries_of (map (λ word. word.now) words.entry.now)) }
    ensures faults { FailsBy (faults_of (map (λ word. word.now) words.entry.now)) result }
{
    rds_command(alloc)?.try_get_matches_from(words)
}

/// The text that is shown for an error of `clap`.
fn fault_of(alloc: Global, error: &clap::Error) -> CliFault
    ensures help { result.kind ≡ FaultKind.Help → kind_of error.now ≡ ErrorKind.DisplayHelp }
    ensures version { result.kind ≡ FaultKind.Version → kind_of error.now ≡ ErrorKind.DisplayVersion }
    ensures words { result.kind ≡ FaultKind.Words → IsFault (kind_of error.now) }
    ensures memory { result.kind ≡ FaultKind.Memory → string_bytes result.text ≡ [] }
{
    let kind = match error.kind() {
        ErrorKind::OutOfMemory => return out_of_memory(alloc),
        ErrorKind::DisplayHelp => FaultKind::Help,
        ErrorKind::DisplayVersion => FaultKind::Version,
        _ => FaultKind::Words,
    };
    match error.to_string(alloc) {
        Ok(text) => CliFault { kind, text },
        Err(_) => out_of_memory(alloc),
    }
}

/// The text that is shown if the words are parsed and yet ask for nothing.
fn no_job(alloc: Global, why: NoJob) -> CliFault
    ensures kind { (result.kind ≡ FaultKind.Memory) ⊎ ((result.kind ≡ FaultKind.Words)
        × (why ≢ NoJob.Memory)) }
    ensures gaps { why ≡ NoJob.Gaps → SaysBadGaps result }
    ensures memory { result.kind ≡ FaultKind.Memory → string_bytes result.text ≡ [] }
{
    match why {
        NoJob::Gaps => words_fault(alloc, "bad --gaps\n"),
        NoJob::SoftHex => words_fault(alloc, "error: --hex cannot be used with --soft\n"),
        NoJob::SoftBurst => words_fault(alloc, "error: --burst cannot be used with --soft\n"),
        NoJob::HardMargin => words_fault(alloc, "error: --margin needs --soft\n"),
        NoJob::Entries => words_fault(alloc, "error: these words ask for nothing\n"),
        NoJob::Memory => out_of_memory(alloc),
    }
}

/// A fault of the words, with the text that is shown.
fn words_fault(alloc: Global, text: &str) -> CliFault
    ensures kind { (result.kind ≡ FaultKind.Memory) ⊎ ((result.kind ≡ FaultKind.Words)
        × (string_bytes result.text ≡ text.now)) }
    ensures memory { result.kind ≡ FaultKind.Memory → string_bytes result.text ≡ [] }
{
    match text.to_string(alloc) {
        Ok(text) => CliFault {
            kind: FaultKind::Words,
            text,
        },
        Err(_) => out_of_memory(alloc),
    }
}

fn out_of_memory(alloc: Global) -> CliFault
    ensures kind { result.kind ≡ FaultKind.Memory }
    ensures text { string_bytes result.text ≡ [] }
{
    CliFault {
        kind: FaultKind::Memory,
        text: String::new(alloc),
    }
}
