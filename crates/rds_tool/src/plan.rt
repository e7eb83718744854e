//! By which rules, by how many workers and in which pieces a recording is decoded.
ghost use Rattle.std.specs.Prelude.{◌<◌, ◌==◌, ◌≡◌, ◌≤◌, ◌⊎◌, Err, IfErr, IfOk, Ok, OnOk, false, true};
ghost use Rattle.rds_pieces.specs.Cutting.{IsCutting};
ghost use Rattle.rds_sync.specs.{Decoding.listed, Report.report_items, Totals.totals_of};
ghost use Rattle.rds_tool.specs.{Cuts.are_inner, Cuts.cuts_any, Cuts.cuts_bits, Cuts.has_pieces, Cuts.places_at, Cuts.places_by, Plans.crew_of, Plans.cut_by, Rules.rules_of as the_rules_of};
ghost use Rattle.rds_code.specs.Refusals.{IsMemoryOrErrOf};

use crate::task::{Plan, Workers};
use crate::{Cuts, Settings};
use rds_code::RdsError;
use rds_crew::{Gate, MOST_WORKERS, decode_crew};
use rds_pieces::{Cutting, RecordingWork};
use rds_stream::Recording;
use rds_sync::{Report, RuleNumbers, Rules, Spans};
use std::alloc::{AllocError, Global};
use std::thread::Threads;

/// How many bits of a recording keep a worker busy: a thread for fewer costs more than it saves.
const WORK: u64 = 1 << 20;

impl Workers {
    ghost use Rattle.rds_tool.specs.Plans.{workers_of};

    /// This number of workers, or `CrewRange` if it is not 1 to 256.
    pub fn of(workers: u32) -> Result<Workers, RdsError>
        ensures { result ≡ workers_of workers }
    {
        if workers < 1 || workers > MOST_WORKERS {
            return Err(RdsError::CrewRange);
        }
        Ok(Workers(workers))
    }

    /// How many there are.
    pub fn count(&self) -> u32
        ensures value { result ≡ self.now }
        ensures some { 0 < result }
        ensures few { result ≤ 256 }
    {
        self.0
    }
}

impl<'a> Plan<'a> {
    ghost use Rattle.rds_tool.specs.Plans.{plan_of};

    /// The plan of these settings. One out of its range is refused as such, whether or not memory is.
    pub fn of(alloc: Global, settings: &'a Settings) -> Result<Plan<'a>, RdsError>
        ensures ok { IfOk result (λ plan. plan_of settings.now ≡ Ok plan) }
        ensures refused { IfErr result (IsMemoryOrErrOf (plan_of settings.now)) }
        ensures settings { IfErr (plan_of settings.now) (λ error. result ≡ Err error) }
    {
        match rules_of(alloc, settings) {
            Ok(rules) => {
                check_crew(settings)?;
                Ok(Plan {
                    rules,
                    workers: settings.workers,
                    cuts: &settings.cuts,
                })
            }
            Err(RdsError::OutOfMemory) => {
                check_crew(settings)?;
                Err(RdsError::OutOfMemory)
            }
            Err(error) => Err(error),
        }
    }

    /// The rules that the settings give.
    pub fn rules(&self) -> &Rules
        ensures { result.now ≡ self.now.rules }
    {
        &self.rules
    }

    /// By how many threads at most the work is done.
    pub fn workers(&self) -> u32
        ensures value { result ≡ self.now.workers }
        ensures some { 0 < result }
        ensures few { result ≤ 256 }
    {
        self.workers
    }

    /// How many of them decode `len` bits: all if the gate wants calls.
    fn crew<G: Gate>(&self, len: u64, gate: &G) -> u32
        ensures some { 0 < result }
        ensures few { result ≤ 256 }
    {
        if gate.wants_calls() {
            self.workers()
        } else {
            busy_workers(self.workers(), len)
        }
    }

    /// Whether no cut is asked for by its place.
    pub fn is_cut_evenly(&self) -> bool
        ensures { result ≡ true → cuts_any self.now.cuts ≡ true }
    {
        matches!(self.cuts, Cuts::Even(_))
    }

    /// Whether one worker goes over a whole recording of `len` bits by itself: there is no work for more, and no cut is
    /// asked for by its place.
    pub fn is_for_one(&self, len: u64) -> bool
        ensures { result ≡ true → cuts_any self.now.cuts ≡ true }
    {
        match self.cuts {
            Cuts::Even(_) => busy_workers(self.workers(), len) == 1,
            Cuts::At(_) => false,
        }
    }
}

/// For how many of the workers there is work in `len` bits.
pub fn busy_workers(workers: u32, len: u64) -> u32
    requires { 0 < workers }
    ensures some { 0 < result }
    ensures few { result ≤ workers }
{
    (len / WORK).min(u64::from(workers)).max(1) as u32
}

/// The report of the recording, made by the crew piece by piece.
pub fn report_by<R: Threads + Sync, G: Gate + Sync>(
    rt: &R,
    alloc: Global,
    plan: &Plan<'_>,
    recording: &Recording,
    spans: Spans,
    gate: &G,
) -> Result<Report, RdsError>
    ensures items { IfOk result (λ report. report.items
        ≡ listed recording.now plan.now.rules (report_items recording.now plan.now.rules)) }
    ensures totals { IfOk result (λ report. report.totals
        ≡ totals_of (report_items recording.now plan.now.rules)) }
    ensures fits { OnOk result (cut_by plan.now.cuts recording.now ≡ Ok recording.now) }
    ensures refused { IfErr result (IsMemoryOrErrOf (cut_by plan.now.cuts recording.now)) }
{
    let cutting = cutting_of(alloc, plan.cuts, recording.len())?;
    let work = RecordingWork::new(recording, &plan.rules, &cutting).cut_into(spans);
    let workers = plan.crew(recording.len(), gate);
    Ok(decode_crew(rt, alloc, &work, workers, gate)?)
}

/// The rules of these settings.
fn rules_of(alloc: Global, settings: &Settings) -> Result<Rules, RdsError>
    ensures ok { IfOk result (λ rules. the_rules_of settings.now ≡ Ok rules) }
    ensures refused { IfErr result (IsMemoryOrErrOf (the_rules_of settings.now)) }
    ensures settings { IfErr (the_rules_of settings.now) (λ error. result ≡ Err error) }
{
    let numbers = RuleNumbers {
        burst: settings.burst,
        reach: settings.reach,
        loss: settings.loss,
    };
    Rules::of(alloc, numbers)
}

/// Refuses a number of workers out of its range, and then a cutting into no piece.
fn check_crew(settings: &Settings) -> Result<(), RdsError>
    ensures { result ≡ crew_of settings.now }
{
    Workers::of(settings.workers)?;
    match settings.cuts {
        Cuts::Even(0) => Err(RdsError::BadCutting),
        _ => Ok(()),
    }
}

/// The cutting of `len` bits.
fn cutting_of(alloc: Global, cuts: &Cuts, len: u64) -> Result<Cutting, RdsError>
    requires { has_pieces cuts.now ≡ true }
    ensures places { IfOk result (λ cutting. cutting ≡ places_by cuts.now len) }
    ensures cutting { IfOk result (λ cutting. IsCutting len cutting) }
    ensures fits { OnOk result (cuts_bits cuts.now len ≡ true) }
    ensures refused { IfErr result (λ error. (error ≡ RdsError.OutOfMemory)
        ⊎ ((error ≡ RdsError.BadCutting) × (cuts_bits cuts.now len ≡ false))) }
{
    match cuts {
        Cuts::Even(pieces) => Cutting::even(alloc, len, *pieces),
        Cuts::At(cuts) => cutting_at(alloc, cuts.as_slice(), len),
    }
}

/// The cutting of `len` bits at these inner cuts.
#[tactic(auto, using(crate::proofs::Steps::cut_steps))]
fn cutting_at(alloc: Global, cuts: &[u64], len: u64) -> Result<Cutting, RdsError>
    ensures places { IfOk result (λ cutting. cutting ≡ places_at len cuts.now) }
    ensures cutting { IfOk result (λ cutting. IsCutting len cutting) }
    ensures fits { OnOk result (are_inner len cuts.now ≡ true) }
    ensures refused { IfErr result (λ error. (error ≡ RdsError.OutOfMemory)
        ⊎ ((error ≡ RdsError.BadCutting) × (are_inner len cuts.now ≡ false))) }
{
    let places = places_of(alloc, cuts, len)?;
    match Cutting::new(places, len) {
        Ok(cutting) => Ok(cutting),
        Err((error, _places)) => Err(error),
    }
}

/// The cuts with the two ends of the recording.
fn places_of(alloc: Global, cuts: &[u64], len: u64) -> Result<Vec<u64>, AllocError>
    ensures { IfOk result (λ places. places.items ≡ places_at len cuts.now) }
{
    let mut places = Vec::new(alloc);
    places.push(0)?;
    places.extend_from_slice(cuts)?;
    if len > 0 {
        places.push(len)?;
    }
    Ok(places)
}
