//! Facts that a user of `rds_tool` relies on: the text that is written, the devices that stay as they were, and each refusal by its cause.
ghost use Rattle.std.specs.Prelude.{◌≡◌, ◌≢◌, ℕ, ◌*◌, ◌<◌, ◌≤◌, ◌^◌, ◌++◌, ◌⊎◌, ◌↔◌, List, Err, IfErr, IfSome, IsErrOf, None, Ok, OnOk, length, [], true, false};
ghost use Rattle.std.specs.Io.KnownBytes.{Consumes, IsAtEnd, Appends};
ghost use Rattle.rds_sync.specs.{Report.report_items, Totals.totals_of};
ghost use Rattle.rds_tool.specs.{Listing.report_text, Outcome.IsOutside, Outcome.result_of_job, Outcome.Writes, Outcome.WritesPrefix, Tasks.task_of, Ends.given_by, Ends.has_ended, Ends.is_flushed, Ends.taken_by, SoftFollowing.soft_listed, SoftFollowing.soft_rows_so_far, Following.BreaksOff, Following.IsFlushedAfter, Following.IsHeardOut, Following.bit_stream, Following.listed, Following.rows_so_far, History.Gave, Input.recording_of, Laws.stream_input, Plans.PlanOf, Plans.plan_of, WellFormed.DifferInGaps, WellFormed.IsWellFormed, declared.job.Input.Input as AnInput, declared.job.Settings.Settings as SomeSettings};
ghost use Rattle.rds_code.specs.declared.error.RdsError.TheVariants.{BadGaps, BitsPastBytes, NoWorker, Read, TooManyTurns, Write};
ghost use Rattle.rds_uses.specs.Jobs.{IsListBy, all_bits};
ghost use Rattle.rds_stream.specs.Recording.{AreGaps, Signal, length_of};

use rds_code::RdsError;
use rds_crew::Gate;
use rds_soft::Margin;
use rds_sync::Rules;
use rds_tool::{
    FromRead, Job, Sink, Source, ToWrite, follow, follow_soft, laws, transcribe, transcribe_gated,
};
use std::alloc::Global;
use std::rt::{Stdin, Stdout};
use std::thread::Threads;

/// The listing of a recording's bytes: the rows of the items of its locks and of their totals, whatever the workers and the cutting.
pub fn listing<R: Threads + Sync>(
    rt: &R,
    alloc: Global,
    bytes: &[u8],
    rules: &Rules,
    job: &Job,
) -> Option<Vec<u8>>
    requires few { 8 * length bytes.now ≤ 2 ^ 36 }
    requires job { IsListBy job.now rules.now }
    ensures { IfSome result (λ text. let items = report_items (all_bits bytes.now) rules.now in
        text.items ≡ report_text items (totals_of items)) }
{
    written(rt, alloc, bytes, job)
}

/// The text that a job writes for bytes, if nothing is refused: its outcome.
pub(crate) fn written<R: Threads + Sync>(
    rt: &R,
    alloc: Global,
    bytes: &[u8],
    job: &Job,
) -> Option<Vec<u8>>
    ensures { IfSome result (λ text. result_of_job job.now bytes.now ≡ Ok text.items) }
{
    match append_listing(rt, alloc, bytes, Vec::new(alloc), job) {
        (Ok(()), text) => Some(text),
        _ => None,
    }
}

/// At any devices and gate: on success the text is the outcome of the bytes that were read to their end, and it was flushed. Each refusal
/// has its cause, and only that of the writer leaves a beginning of the text.
pub fn gated_causes<R: Threads + Sync, S: Source, K: Sink, G: Gate + Sync>(
    job: &Job,
    reader: &mut S,
    writer: &mut K,
    gate: &G,
    rt: &R,
    alloc: Global,
) -> Result<(), RdsError>
    requires reads { S.failed reader.old < 2 ^ 63 }
    requires writes { K.failed writer.old < 2 ^ 63 }
    ensures text { OnOk result (Gave (S.given reader.old) (S.given reader.new)
        (λ bytes. Writes (K.contents writer.old) (K.contents writer.new) (result_of_job job.now bytes))) }
    ensures ended { OnOk result (S.has_ended reader.new ≡ true) }
    ensures flushed { OnOk result (K.is_flushed writer.new ≡ true) }
    ensures refused_by { IfErr result (λ error. IsOutside error ⊎ Gave (S.given reader.old) (S.given reader.new)
        (λ bytes. (result_of_job job.now bytes ≡ Err error)
        × ((task_of job.now ≡ Err error) ⊎ (S.has_ended reader.new ≡ true)))) }
    ensures end { OnOk result (IsAtEnd (S.remaining reader.new)) }
    ensures read { IsErrOf result Read ↔ (S.failed reader.old < S.failed reader.new) }
    ensures write { IsErrOf result Write ↔ (K.failed writer.old < K.failed writer.new) }
    ensures turns { IsErrOf result TooManyTurns → (more : List ℕ)
        × Consumes (S.remaining reader.old) (S.remaining reader.new) more × (16777216 ≤ length more) }
    ensures no_worker { IsErrOf result NoWorker → ⊥ }
    ensures refused { IfErr result (λ error. IsOutside error
        ⊎ IfSome (S.remaining reader.old) (λ held. result_of_job job.now held ≡ Err error)) }
    ensures settings { IfErr (task_of job.now) (λ error. (result ≡ Err error) × (reader.new ≡ reader.old)) }
    ensures untouched { IfErr result (λ error. error ≢ Write → writer.new ≡ writer.old) }
    ensures prefix { IsErrOf result Write → IfSome (S.remaining reader.old)
        (λ held. WritesPrefix (K.contents writer.old) (K.contents writer.new) (result_of_job job.now held)) }
{
    transcribe_gated(rt, alloc, reader, writer, job, gate)
}

/// A text that grows: by the whole outcome, by a prefix of it if the writer fails, and else not at all.
pub fn append_listing<R: Threads + Sync>(
    rt: &R,
    alloc: Global,
    bytes: &[u8],
    text: Vec<u8>,
    job: &Job,
) -> (Result<(), RdsError>, Vec<u8>)
    ensures whole { OnOk result.0 ((more : List ℕ) × (result_of_job job.now bytes.now ≡ Ok more) × (result.1.items ≡ text.items ++ more)) }
    ensures part { IsErrOf result.0 Write → (more rest : List ℕ)
        × (result_of_job job.now bytes.now ≡ Ok (more ++ rest)) × (result.1.items ≡ text.items ++ more) }
    ensures none { IfErr result.0 (λ error. error ≢ Write → result.1.items ≡ text.items) }
{
    let mut writer = ToWrite::new(text);
    let done = transcribe(rt, alloc, &mut FromRead::new(bytes), &mut writer, job);
    (done, writer.into_inner())
}

/// From standard input to standard output: all that was given, to its end, makes all that was taken and flushed.
pub fn input_to_output<R: Threads + Sync>(
    rt: &HostRuntime,
    crew: &R,
    job: &Job,
) -> (FromRead<Stdin>, ToWrite<Stdout>, Result<(), RdsError>)
    ensures text { OnOk result.2 (result_of_job job.now (given_by result.0) ≡ Ok (taken_by result.1)) }
    ensures end { OnOk result.2 (has_ended result.0 ≡ true) }
    ensures flushed { OnOk result.2 (is_flushed result.1 ≡ true) }
{
    let mut reader = FromRead::new(rt.stdin());
    let mut writer = ToWrite::new(rt.stdout());
    let answer = transcribe(crew, rt.alloc(), &mut reader, &mut writer, job);
    (reader, writer, answer)
}

/// A stream at any devices gives the listing of the bytes that were read, or breaks off with the rows of all reads but the last. The
/// bytes of each statement are those that a reader of known contents has lost.
pub fn heard_live<R: Threads + Sync, S: Source, K: Sink>(
    reader: &mut S,
    writer: &mut K,
    rt: &R,
    alloc: Global,
    rules: &Rules,
    gaps: &[(u64, u64)],
    bits: Option<u64>,
    workers: u32,
) -> Result<(), RdsError>
    requires reads { S.failed reader.old < 2 ^ 63 }
    requires writes { K.failed writer.old < 2 ^ 63 }
    ensures text { OnOk result (Gave (S.given reader.old) (S.given reader.new) (λ bytes.
        IsHeardOut bits (S.has_ended reader.new) bytes × Writes (K.contents writer.old) (K.contents writer.new)
        (listed (record { rules = rules.now; gaps = gaps.now }) bits bytes))) }
    ensures flushed { OnOk result (K.is_flushed writer.new ≡ true) }
    ensures end { OnOk result (Gave (S.given reader.old) (S.given reader.new) (λ bytes.
        Consumes (S.remaining reader.old) (S.remaining reader.new) bytes
        × IsHeardOut bits (S.has_ended reader.new) bytes × (bits ≡ None → IsAtEnd (S.remaining reader.new)))) }
    ensures broke { IfErr result (λ error. (broke : BreaksOff (bit_stream (record { rules = rules.now; gaps = gaps.now }) workers bits)
        (S.given reader.old) (S.given reader.new) (S.has_ended reader.new) (K.contents writer.old) (K.contents writer.new)
        (K.is_flushed writer.new) error) × Consumes (S.remaining reader.old) (S.remaining reader.new) (broke.heard ++ broke.last)) }
    ensures past { IsErrOf result BitsPastBytes → IsAtEnd (S.remaining reader.new) }
    ensures bad_gaps { IsErrOf result BadGaps
        → (AreGaps (2 ^ 36) gaps.now → ⊥) ⊎ (bits ≡ None → IsAtEnd (S.remaining reader.new)) }
{
    follow(rt, alloc, reader, writer, rules, bits, gaps, workers)
}

/// The same of a stream of symbols, and its soft listing.
pub fn symbols_heard_live<R: Threads + Sync, S: Source, K: Sink>(
    reader: &mut S,
    writer: &mut K,
    rt: &R,
    alloc: Global,
    margin: Margin,
    rules: &Rules,
    bits: Option<u64>,
    workers: u32,
) -> Result<(), RdsError>
    requires reads { S.failed reader.old < 2 ^ 63 }
    requires writes { K.failed writer.old < 2 ^ 63 }
    ensures text { OnOk result
        (Gave (S.given reader.old) (S.given reader.new)
        (λ symbols. Writes (K.contents writer.old) (K.contents writer.new)
        (soft_listed (record { rules = rules.now; gaps = []; margin = margin }) bits symbols))) }
    ensures prompt { IsErrOf result Read → Gave (S.given reader.old) (S.given reader.new) (λ symbols.
        Appends (K.contents writer.old) (K.contents writer.new)
        (soft_rows_so_far (record { rules = rules.now; gaps = []; margin = margin }) symbols)
        × IsFlushedAfter symbols (K.is_flushed writer.new)) }
{
    follow_soft(rt, alloc, reader, writer, rules, margin, bits, &[], workers)
}

/// A list is well-formed, begins with the rows that following any beginning of its bytes writes, and ends with their totals. Two receptions
/// that differ only in gaps have one list.
pub fn well_formed<R: Threads + Sync>(
    rt: &R,
    alloc: Global,
    held: &[u8],
    other: &[u8],
    list: &Job,
    totals: &Job,
) -> Option<(Vec<u8>, Vec<u8>, Vec<u8>)>
    ensures rows { IfSome result (λ texts. (input : AnInput) (settings : SomeSettings) → list.now ≡ Job.List input settings
        → (recording : Signal) × (recording_of input held.now ≡ Ok recording)
        × IsWellFormed (length_of recording) texts.0.items) }
    ensures begun { IfSome result (λ texts. (settings : SomeSettings) (plan : PlanOf) (gaps : List (ℕ × ℕ)) (heard more : List ℕ)
        → list.now ≡ Job.List (stream_input None gaps) settings → plan_of settings ≡ Ok plan → held.now ≡ heard ++ more
        → (rest : List ℕ)
        × (texts.0.items ≡ rows_so_far (record { rules = plan.rules; gaps = gaps }) heard ++ rest)) }
    ensures alike { IfSome result (λ texts. (input : AnInput) (settings : SomeSettings) → list.now ≡ Job.List input settings
        → input.hex ≡ false → DifferInGaps input.gaps held.now other.now → texts.0.items ≡ texts.1.items) }
    ensures counted { IfSome result (λ texts. (input : AnInput) (settings : SomeSettings) → list.now ≡ Job.List input settings
        → totals.now ≡ Job.Totals input settings → (rows : List ℕ) × (texts.0.items ≡ rows ++ texts.2.items)) }
{
    laws::lists_are_well_formed();
    laws::rows_begin_lists();
    laws::gaps_hide_bits();
    laws::lists_end_with_totals();
    let text = written(rt, alloc, held, list)?;
    let same = written(rt, alloc, other, list)?;
    let counts = written(rt, alloc, held, totals)?;
    Some((text, same, counts))
}
