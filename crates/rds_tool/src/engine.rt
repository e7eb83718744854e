//! From a reader to a writer.
ghost use Rattle.std.specs.Prelude.{◌+◌, ◌++◌, ◌<◌, ◌^◌, ◌≡◌, ◌≤◌, ◌⊎◌, ◌↔◌, IfErr, IfOk, IfSome, IsErrOf, List, [], Ok, OnOk, false, length, true, ℕ};
ghost use Rattle.std.specs.Io.KnownBytes.{Consumes, IsAtEnd};
ghost use Rattle.rds_tool.specs.declared.task.Task.TheVariants as a_task;
ghost use Rattle.rds_tool.specs.{History.Gave, Outcome.text_of_task, Tasks.task_of, Transcribed.IsTranscribed};

use crate::counting::InputCounter;
use crate::group_lines::HeldLines;
use crate::held_symbols::HeldSymbols;
use crate::taker::Taker;
use crate::task::{Plan, Task};
use crate::{Failed, Input, Job, Sink, Source};
use rds_code::RdsError;
use rds_crew::{Gate, OpenGate};
use rds_live::may_have_gaps;
use rds_soft::Margin;
use std::alloc::{AllocError, Global};
use std::thread::Threads;

/// How many reads may give bytes before the end comes.
const MOST_READS: u64 = 16_777_216;

/// How many bytes a read asks for.
const CHUNK: usize = 65_536;

/// Reads all bytes of the reader, does the job, writes the whole text and flushes.
///
/// If a list is asked for and the answer is `Ok`, the bytes written are the listing of the report of one
/// decoder. That decoder reads bit by bit from the first. This holds for every recording, all rules, every
/// cutting and 1 to 256 workers, in whatever order their threads ended. The bytes are those that the reader
/// gave and that the writer took, at every device. The listing and the report are defined over whole locks,
/// with no word of pieces or workers.
///
/// Refusals come in this order: those of the settings (`BurstRange`, `ReachRange`, `LossRange` or by the
/// share `ShareRange`, `CrewRange`, and `BadCutting` for no piece), before anything is read; those of the
/// reader (`Read`, `TooManyTurns`); those of the job and the bytes (`HexText`, `TooLong`, `BitsPastBytes`,
/// `BadGaps`, `BadCutting`, or `GroupText`); and those of the writer (`Write`). `OutOfMemory` may come
/// wherever memory is taken. The rows of a list are made by as many threads as well, part by part while they
/// are written. A thread that the system refuses is done without. The items are decoded again when their
/// rows are made, or by one worker only then, so that the recording is held until then. Symbols are decoded
/// while they come, and only the items are held. All room that can be refused is taken before the first byte is
/// written. No thread outlives the call, which returns if those of reader and writer do. They have counted fewer
/// than 2^63 failures before. Each promise is a field of `IsTranscribed` (`specs/Transcribed.antt`).
pub fn transcribe<R: Threads + Sync, S: Source, K: Sink>(
    rt: &R,
    alloc: Global,
    reader: &mut S,
    writer: &mut K,
    job: &Job,
) -> Result<(), RdsError>
    requires reads { S.failed reader.old < 2 ^ 63 }
    requires writes { K.failed writer.old < 2 ^ 63 }
    ensures { IsTranscribed S.Source K.Sink job.now reader.old reader.new writer.old writer.new result }
{
    transcribe_gated(rt, alloc, reader, writer, job, &OpenGate)
}

/// [`transcribe`] with a gate, which the crew of a list or of totals calls round each piece and each join, also
/// if there is one worker. If the gate wants no calls, a small recording has work for fewer workers than are
/// asked for. If no cut is asked for by its place either, totals are counted while the bytes come, of which at
/// most 2 MiB are held. A list for which one worker is enough has no crew then: its rows are written while it is
/// decoded.
pub fn transcribe_gated<R: Threads + Sync, S: Source, K: Sink, G: Gate + Sync>(
    rt: &R,
    alloc: Global,
    reader: &mut S,
    writer: &mut K,
    job: &Job,
    gate: &G,
) -> Result<(), RdsError>
    requires reads { S.failed reader.old < 2 ^ 63 }
    requires writes { K.failed writer.old < 2 ^ 63 }
    ensures { IsTranscribed S.Source K.Sink job.now reader.old reader.new writer.old writer.new result }
{
    let task = Task::of(alloc, job)?;
    transcribe_task(rt, alloc, reader, writer, task, gate)
}

/// The same of a job whose settings were looked at.
fn transcribe_task<R: Threads + Sync, S: Source, K: Sink, G: Gate + Sync>(
    rt: &R,
    alloc: Global,
    reader: &mut S,
    writer: &mut K,
    task: Task<'_>,
    gate: &G,
) -> Result<(), RdsError>
    requires reads { S.failed reader.old < 2 ^ 63 }
    requires writes { K.failed writer.old < 2 ^ 63 }
    ensures { (job : Job) → task_of job ≡ Ok task.entry
        → IsTranscribed S.Source K.Sink job reader.old reader.new writer.old writer.new result }
{
    match task {
        Task::Totals(input, plan) => {
            transcribe_totals(rt, alloc, reader, writer, input, plan, gate)
        }
        Task::Soft(input, plan, margin, has_rows) => {
            transcribe_soft(
                rt, alloc, reader, writer, input, plan, margin, has_rows, gate,
            )
        }
        Task::Encode { hex } => {
            transcribe_by(rt, alloc, reader, writer, HeldLines::new(alloc, hex))
        }
        task => transcribe_held(rt, alloc, reader, writer, task, gate),
    }
}

/// Totals are counted while the bytes come, if there is neither a cut at a place nor a gate that wants calls.
fn transcribe_totals<R: Threads + Sync, S: Source, K: Sink, G: Gate + Sync>(
    rt: &R,
    alloc: Global,
    reader: &mut S,
    writer: &mut K,
    input: Input,
    plan: Plan<'_>,
    gate: &G,
) -> Result<(), RdsError>
    requires reads { S.failed reader.old < 2 ^ 63 }
    requires writes { K.failed writer.old < 2 ^ 63 }
    ensures { (job : Job) → task_of job ≡ Ok (a_task.Totals input plan.entry)
        → IsTranscribed S.Source K.Sink job reader.old reader.new writer.old writer.new result }
{
    if plan.is_cut_evenly() && !gate.wants_calls() && may_have_gaps(input.gaps.as_slice()) {
        let counter = InputCounter::new(alloc, &input, plan.rules(), plan.workers())?;
        return transcribe_by(rt, alloc, reader, writer, counter);
    }
    transcribe_held(rt, alloc, reader, writer, Task::Totals(input, plan), gate)
}

/// Symbols are decoded while they come.
fn transcribe_soft<R: Threads + Sync, S: Source, K: Sink, G: Gate + Sync>(
    rt: &R,
    alloc: Global,
    reader: &mut S,
    writer: &mut K,
    input: Input,
    plan: Plan<'_>,
    margin: Margin,
    has_rows: bool,
    gate: &G,
) -> Result<(), RdsError>
    requires reads { S.failed reader.old < 2 ^ 63 }
    requires writes { K.failed writer.old < 2 ^ 63 }
    ensures { (job : Job) → task_of job ≡ Ok (a_task.Soft input plan.entry margin has_rows)
        → IsTranscribed S.Source K.Sink job reader.old reader.new writer.old writer.new result }
{
    if may_have_gaps(input.gaps.as_slice()) {
        let symbols = HeldSymbols::new(alloc, &input, &plan, margin, has_rows)?;
        return transcribe_by(rt, alloc, reader, writer, symbols);
    }
    let soft = Task::Soft(input, plan, margin, has_rows);
    transcribe_held(rt, alloc, reader, writer, soft, gate)
}

/// Has all bytes of the reader taken, and writes the text that is made of them.
fn transcribe_by<'t, R: Threads + Sync, S: Source, K: Sink, T: Taker<'t>>(
    rt: &R,
    alloc: Global,
    reader: &mut S,
    writer: &mut K,
    taker: T,
) -> Result<(), RdsError>
    requires reads { S.failed reader.old < 2 ^ 63 }
    requires writes { K.failed writer.old < 2 ^ 63 }
    requires empty { T.taken taker ≡ [] }
    ensures { (job : Job) (task : Task) → task_of job ≡ Ok task → ((bytes : List ℕ) → T.text taker bytes ≡ text_of_task task bytes)
        → IsTranscribed S.Source K.Sink job reader.old reader.new writer.old writer.new result }
{
    let mut taker = taker;
    read_all(rt, alloc, reader, &mut taker)?;
    let text = taker.finish(rt, alloc)?;
    text.write_to(rt, alloc, writer)
}

/// Holds all bytes of the reader, and writes the text of the task.
fn transcribe_held<R: Threads + Sync, S: Source, K: Sink, G: Gate + Sync>(
    rt: &R,
    alloc: Global,
    reader: &mut S,
    writer: &mut K,
    task: Task<'_>,
    gate: &G,
) -> Result<(), RdsError>
    requires reads { S.failed reader.old < 2 ^ 63 }
    requires writes { K.failed writer.old < 2 ^ 63 }
    ensures { (job : Job) → task_of job ≡ Ok task.entry
        → IsTranscribed S.Source K.Sink job reader.old reader.new writer.old writer.new result }
{
    let mut held = Vec::new(alloc);
    read_all(rt, alloc, reader, &mut held)?;
    let text = task.text(rt, alloc, held, gate)?;
    text.write_to(rt, alloc, writer)
}

/// Has all bytes of the reader taken, to its end.
#[tactic(auto, using(crate::proofs::Reading::read_steps))]
fn read_all<'t, R: Threads + Sync, S: Source, T: Taker<'t>>(
    rt: &R,
    alloc: Global,
    reader: &mut S,
    taker: &mut T,
) -> Result<(), RdsError>
    requires failed { S.failed reader.old < 2 ^ 63 }
    requires empty { T.taken taker.old ≡ [] }
    ensures text { OnOk result (T.text taker.new ≡ T.text taker.old) }
    ensures ok { OnOk result (IfSome (S.remaining reader.old) (λ held. T.taken taker.new ≡ held)) }
    ensures end { OnOk result (IsAtEnd (S.remaining reader.new)) }
    ensures given { OnOk result (S.given reader.new ≡ S.given reader.old ++ T.taken taker.new) }
    ensures ended { OnOk result (S.has_ended reader.new ≡ true) }
    ensures read { IsErrOf result RdsError.Read ↔ (S.failed reader.old < S.failed reader.new) }
    ensures kinds { IfErr result (λ error. (error ≡ RdsError.OutOfMemory)
        ⊎ ((error ≡ RdsError.Read) ⊎ (error ≡ RdsError.TooManyTurns))) }
    ensures turns { IsErrOf result RdsError.TooManyTurns → (more : List ℕ)
        × Consumes (S.remaining reader.old) (S.remaining reader.new) more × (16777216 ≤ length more) }
    ensures turned { IsErrOf result RdsError.TooManyTurns
        → Gave (S.given reader.old) (S.given reader.new) (λ bytes. 16777216 ≤ length bytes) }
{
    let mut buf = zeros(alloc, CHUNK)?;
    'turns: for _ in 0..MOST_READS {
        let is_at_end = read_some(rt, alloc, reader, buf.as_mut_slice(), taker)?;
        if is_at_end {
            return Ok(());
        }
    }
    Err(RdsError::TooManyTurns)
}

/// One read, whose bytes are taken. Answers whether the reader was at its end.
fn read_some<'t, R: Threads + Sync, S: Source, T: Taker<'t>>(
    rt: &R,
    alloc: Global,
    reader: &mut S,
    buf: &mut [u8],
    taker: &mut T,
) -> Result<bool, RdsError>
    requires count { S.failed reader.old < 2 ^ 63 }
    requires room { 0 < length buf.old }
    ensures text { OnOk result (T.text taker.new ≡ T.text taker.old) }
    ensures taken { OnOk result ((more : List ℕ)
        × Consumes (S.remaining reader.old) (S.remaining reader.new) more
        × (T.taken taker.new ≡ T.taken taker.old ++ more)) }
    ensures given { OnOk result (Gave (S.given reader.old) (S.given reader.new) (λ more. T.taken taker.new
        ≡ T.taken taker.old ++ more)) }
    ensures end { IfOk result (λ is_at_end. is_at_end ≡ true → IsAtEnd (S.remaining reader.new)) }
    ensures ended { IfOk result (λ is_at_end. is_at_end ≡ true → S.has_ended reader.new ≡ true) }
    ensures grows { IfOk result (λ is_at_end. is_at_end ≡ false
        → length (T.taken taker.old) < length (T.taken taker.new)) }
    ensures count { OnOk result (S.failed reader.new ≡ S.failed reader.old) }
    ensures refused { IfErr result (λ error. ((error ≡ RdsError.OutOfMemory)
        × (S.failed reader.new ≡ S.failed reader.old))
        ⊎ ((error ≡ RdsError.Read) × (S.failed reader.old < S.failed reader.new))) }
{
    match reader.read(buf) {
        Ok(0) => Ok(true),
        Ok(count) => {
            taker.take(rt, alloc, &mut buf[..count])?;
            Ok(false)
        }
        Err(Failed) => Err(RdsError::Read),
    }
}

/// Zero bytes, as many as asked for.
pub fn zeros(alloc: Global, len: usize) -> Result<Vec<u8>, AllocError>
    ensures { IfOk result (λ v. length v.items ≡ len) }
{
    vec![in alloc; 0u8; len]
}
