//! From a job to its task, and on to the text that it makes of the bytes that a reader held.
ghost use Rattle.std.specs.Prelude.{◌≡◌, Err, IfErr, IfOk, Ok};
ghost use Rattle.rds_tool.specs.{Outcome.text_of_task, Plans.plan_of, Inside.Texts.bytes_of};
ghost use Rattle.rds_code.specs.Refusals.{IsMemoryOrErrOf};
ghost use Rattle.rds_tool.specs.declared.task.Task.TheVariants as task;

use crate::group_lines::GroupLines;
use crate::held_symbols::{HeldSymbols, check_symbols};
use crate::input::recording_of;
use crate::listing::totals_rows;
use crate::plan::report_by;
use crate::taker::Taker;
use crate::task::{Listing, Plan, Task, Text, Workers};
use crate::{Input, Job, Settings};
use rds_code::RdsError;
use rds_crew::Gate;
use rds_soft::Margin;
use rds_sync::Spans;
use std::alloc::Global;
use std::thread::Threads;

impl<'a> Task<'a> {
    ghost use Rattle.rds_tool.specs.Tasks.{task_of};

    /// The task of a job. A setting out of its range is refused as such, whether or not there is memory.
    pub fn of(alloc: Global, job: &'a Job) -> Result<Task<'a>, RdsError>
        ensures ok { IfOk result (λ task. task_of job.now ≡ Ok task) }
        ensures refused { IfErr result (IsMemoryOrErrOf (task_of job.now)) }
        ensures settings { IfErr (task_of job.now) (λ error. result ≡ Err error) }
    {
        match job {
            Job::Scan(input, workers) => {
                let workers = Workers::of(*workers)?;
                Ok(Task::Scan(input.clone_in(alloc)?, workers))
            }
            Job::List(input, settings) => {
                let (input, plan) = input_and_plan(alloc, input, settings)?;
                Ok(Task::List(input, plan))
            }
            Job::Totals(input, settings) => {
                let (input, plan) = input_and_plan(alloc, input, settings)?;
                Ok(Task::Totals(input, plan))
            }
            Job::Encode { hex } => Ok(Task::Encode { hex: *hex }),
            Job::Soft {
                input,
                settings,
                margin,
                rows,
            } => {
                let (input, plan) = input_and_plan(alloc, input, settings)?;
                Ok(Task::Soft(input, plan, *margin, *rows))
            }
        }
    }

    /// The text that the task writes for the bytes that a reader held. A crew calls the gate.
    pub fn text<R: Threads + Sync, G: Gate + Sync>(
        self,
        rt: &R,
        alloc: Global,
        held: Vec<u8>,
        gate: &G,
    ) -> Result<Text<'a>, RdsError>
        ensures ok { IfOk result (λ text. text_of_task self.entry held.items ≡ Ok (bytes_of text)) }
        ensures refused { IfErr result (IsMemoryOrErrOf (text_of_task self.entry held.items)) }
    {
        match self {
            Task::Scan(input, workers) => windows_of(input, workers, held),
            Task::List(input, plan) => list_of(rt, alloc, input, plan, held, gate),
            Task::Totals(input, plan) => totals_of(rt, alloc, input, &plan, held, gate),
            Task::Encode { hex } => groups_of(alloc, hex, held),
            Task::Soft(input, plan, margin, has_rows) => {
                soft_text_of(rt, alloc, &input, &plan, margin, has_rows, held)
            }
        }
    }
}

/// The input and the plan of a job over a recording. A setting out of its range is refused first.
fn input_and_plan<'a>(
    alloc: Global,
    input: &Input,
    settings: &'a Settings,
) -> Result<(Input, Plan<'a>), RdsError>
    ensures ok { IfOk result (λ planned. (planned.0 ≡ input.now)
        × (plan_of settings.entry.now ≡ Ok planned.1)) }
    ensures refused { IfErr result (IsMemoryOrErrOf (plan_of settings.entry.now)) }
    ensures settings { IfErr (plan_of settings.entry.now) (λ error. result ≡ Err error) }
{
    let plan = Plan::of(alloc, settings)?;
    let input = input.clone_in(alloc)?;
    Ok((input, plan))
}

/// The windows of the recording that the bytes give.
fn windows_of<'a>(input: Input, workers: Workers, held: Vec<u8>) -> Result<Text<'a>, RdsError>
    ensures ok { IfOk result (λ text. text_of_task (task.Scan input workers) held.items ≡ Ok (bytes_of text)) }
    ensures refused { IfErr result (IsMemoryOrErrOf (text_of_task (task.Scan input workers) held.items)) }
{
    let recording = recording_of(input, held)?;
    Ok(Text::Windows(recording, workers))
}

/// The groups that the lines spell.
fn groups_of<'a>(alloc: Global, hex: bool, lines: Vec<u8>) -> Result<Text<'a>, RdsError>
    ensures ok { IfOk result (λ text. text_of_task (task.Encode hex) lines.items ≡ Ok (bytes_of text)) }
    ensures refused { IfErr result (IsMemoryOrErrOf (text_of_task (task.Encode hex) lines.items)) }
{
    let mut groups = GroupLines::new(alloc);
    groups.push(lines.as_slice())?;
    Ok(Text::Groups(groups.finish()?, hex))
}

/// The listing of the recording that the bytes give. One worker decodes it while it is written, unless the gate wants calls.
fn list_of<'a, R: Threads + Sync, G: Gate + Sync>(
    rt: &R,
    alloc: Global,
    input: Input,
    plan: Plan<'a>,
    held: Vec<u8>,
    gate: &G,
) -> Result<Text<'a>, RdsError>
    ensures ok { IfOk result (λ text. text_of_task (task.List input plan.entry) held.items
        ≡ Ok (bytes_of text)) }
    ensures refused { IfErr result (IsMemoryOrErrOf (text_of_task (task.List input plan.entry) held.items)) }
{
    let recording = recording_of(input, held)?;
    if plan.is_for_one(recording.len()) && !gate.wants_calls() {
        return Ok(Text::OnePass(recording, plan));
    }
    let report = report_by(rt, alloc, &plan, &recording, Spans::Short, gate)?;
    Ok(Text::Listing(Listing {
        recording,
        plan,
        report,
    }))
}

/// The totals of the recording that the bytes give.
fn totals_of<'a, R: Threads + Sync, G: Gate + Sync>(
    rt: &R,
    alloc: Global,
    input: Input,
    plan: &Plan<'_>,
    held: Vec<u8>,
    gate: &G,
) -> Result<Text<'a>, RdsError>
    ensures ok { IfOk result (λ text. text_of_task (task.Totals input plan.now) held.items ≡ Ok (bytes_of text)) }
    ensures refused { IfErr result (IsMemoryOrErrOf (text_of_task (task.Totals input plan.now) held.items)) }
{
    let recording = recording_of(input, held)?;
    let report = report_by(rt, alloc, plan, &recording, Spans::Whole, gate)?;
    Ok(Text::Whole(totals_rows(alloc, &report.totals)?))
}

/// The listing of the symbols that the bytes are, or only its totals.
fn soft_text_of<'a, R: Threads + Sync>(
    rt: &R,
    alloc: Global,
    input: &Input,
    plan: &Plan<'_>,
    margin: Margin,
    has_rows: bool,
    held: Vec<u8>,
) -> Result<Text<'a>, RdsError>
    ensures ok { IfOk result (λ text. text_of_task (task.Soft input.now plan.now margin has_rows) held.items
        ≡ Ok (bytes_of text)) }
    ensures refused { IfErr result (IsMemoryOrErrOf (text_of_task (task.Soft input.now plan.now margin has_rows) held.items)) }
{
    check_symbols(input.bits, held.len() as u64)?;
    let mut bytes = held;
    let mut symbols = HeldSymbols::new(alloc, input, plan, margin, has_rows)?;
    symbols.take(rt, alloc, bytes.as_mut_slice())?;
    symbols.finish(rt, alloc)
}
