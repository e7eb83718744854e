//! From the entries of a parsed command line to the job or stream that they ask for.
ghost use Rattle.std.specs.Prelude.{◌≡◌, ◌⊎◌, IfErr, IfOk, None, Some, codes};
ghost use Rattle.clap.specs.Words.{found_of, one_of, rows_of, subcommand_rows_of};
ghost use Rattle.rds_tool.specs.CommandLine.{Gives, asked_by as the_asked_by, flag_of, gaps_asked_for, if_given, ignored_by, is_given as the_words_give, job_with as the_job_with, loss_of, margin_of, misuse_by, number_of, report_job_of, request_of as the_request_of, request_with as the_request_with, rules_of, settings_of, stream_of, stream_with as the_stream_with};

use crate::fault::NoJob;
use crate::gap_text::gaps_of;
use crate::{Asked, Cuts, Ignored, Input, Job, Request, Settings};
use clap::ArgMatches;
use clap::parser::ValueSource;
use rds_soft::Margin;
use rds_sync::{Loss, RuleNumbers};
use std::alloc::Global;

/// The job or stream that a parsed command line asks for, or why there is none.
pub fn asked_in(alloc: Global, matches: &ArgMatches<'_>) -> Result<Asked, NoJob>
    ensures { Gives (the_asked_by (subcommand_rows_of matches.now)) result }
{
    match matches.subcommand() {
        Some((name, entries)) => asked_by(alloc, name, entries),
        None => Err(NoJob::Entries),
    }
}

/// The gaps are looked at first: a fault of them is named.
fn asked_by(alloc: Global, name: &str, entries: &ArgMatches<'_>) -> Result<Asked, NoJob>
    ensures { Gives (the_asked_by (Some (name.now, rows_of (found_of entries.now)))) result }
{
    let gaps = gaps_in(alloc, entries)?;
    if let Some(misuse) = misuse_in(entries) {
        return Err(misuse);
    }
    match request_with(name, entries, gaps) {
        Some(request) => Ok(Asked {
            request,
            ignored: ignored_in(entries),
        }),
        None => Err(NoJob::Entries),
    }
}

fn request_with(name: &str, entries: &ArgMatches<'_>, gaps: Vec<(u64, u64)>) -> Option<Request>
    ensures { result ≡ the_request_with name.now (rows_of (found_of entries.now)) gaps.items }
{
    let bits = bits_in(entries)?;
    let hex = flag_in(entries, "hex");
    request_of(name, entries, Input { hex, bits, gaps })
}

#[tactic(auto, using(crate::proofs::Requests::request_steps))]
fn request_of(name: &str, entries: &ArgMatches<'_>, input: Input) -> Option<Request>
    ensures { result ≡ the_request_of name.now (rows_of (found_of entries.now)) input }
{
    let job = match name {
        "scan" => {
            let workers = number_in(entries, "workers")?;
            Job::Scan(input, workers)
        }
        "list" => report_job_in(entries, true, input)?,
        "totals" => report_job_in(entries, false, input)?,
        "follow" => return stream_in(entries, input),
        "encode" => Job::Encode { hex: input.hex },
        _ => return None,
    };
    Some(Request::Job {
        job,
        progress: flag_in(entries, "progress"),
    })
}

/// The job of a list, or of only its totals.
fn report_job_in(entries: &ArgMatches<'_>, rows: bool, input: Input) -> Option<Job>
    ensures { result ≡ report_job_of (rows_of (found_of entries.now)) rows input }
{
    let settings = settings_in(entries)?;
    let margin = soft_in(entries)?;
    Some(job_with(rows, input, settings, margin))
}

fn job_with(rows: bool, input: Input, settings: Settings, margin: Option<Margin>) -> Job
    ensures { result ≡ the_job_with rows input settings margin }
{
    match margin {
        Some(margin) => Job::Soft {
            input,
            settings,
            margin,
            rows,
        },
        None if rows => Job::List(input, settings),
        None => Job::Totals(input, settings),
    }
}

/// The margin, if the input is symbols.
fn soft_in(entries: &ArgMatches<'_>) -> Option<Option<Margin>>
    ensures { result ≡ margin_of (rows_of (found_of entries.now)) }
{
    if !flag_in(entries, "soft") {
        return Some(None);
    }
    let margin = number_in(entries, "margin")?;
    match margin {
        1..=127 => Some(Margin::new(margin as u8)),
        _ => None,
    }
}

/// The fault of options that don't go together.
fn misuse_in(entries: &ArgMatches<'_>) -> Option<NoJob>
    ensures { result ≡ misuse_by (rows_of (found_of entries.now)) }
{
    if flag_in(entries, "soft") {
        if flag_in(entries, "hex") {
            return Some(NoJob::SoftHex);
        }
        is_given(entries, "burst").then_some(NoJob::SoftBurst)
    } else {
        is_given(entries, "margin").then_some(NoJob::HardMargin)
    }
}

fn stream_in(entries: &ArgMatches<'_>, input: Input) -> Option<Request>
    ensures { result ≡ stream_of input (rows_of (found_of entries.now)) }
{
    let rules = rules_in(entries)?;
    let workers = number_in(entries, "workers")?;
    let margin = soft_in(entries)?;
    Some(stream_with(input, rules, workers, margin))
}

fn stream_with(input: Input, rules: RuleNumbers, workers: u32, margin: Option<Margin>) -> Request
    ensures { result ≡ the_stream_with input rules workers margin }
{
    match margin {
        Some(margin) => Request::FollowSoft {
            input,
            rules,
            margin,
            workers,
        },
        None => Request::Follow(input, rules, workers),
    }
}

fn gaps_in(alloc: Global, entries: &ArgMatches<'_>) -> Result<Vec<(u64, u64)>, NoJob>
    ensures gaps { IfOk result (λ gaps. gaps_asked_for (rows_of (found_of entries.now)) ≡ Some gaps.items) }
    ensures none { IfErr result (λ why. (why ≡ NoJob.Memory)
        ⊎ ((why ≡ NoJob.Gaps) × (gaps_asked_for (rows_of (found_of entries.now)) ≡ None))) }
{
    match entries.get_str("gaps") {
        None => Ok(Vec::new(alloc)),
        Some(text) => gaps_of(alloc, text)?.ok_or(NoJob::Gaps),
    }
}

fn settings_in(entries: &ArgMatches<'_>) -> Option<Settings>
    ensures { result ≡ settings_of (rows_of (found_of entries.now)) }
{
    let RuleNumbers { burst, reach, loss } = rules_in(entries)?;
    let workers = number_in(entries, "workers")?;
    let pieces = number_in(entries, "pieces")?;
    Some(Settings {
        burst,
        reach,
        loss,
        workers,
        cuts: Cuts::Even(u64::from(pieces)),
    })
}

fn rules_in(entries: &ArgMatches<'_>) -> Option<RuleNumbers>
    ensures { result ≡ rules_of (rows_of (found_of entries.now)) }
{
    Some(RuleNumbers {
        burst: number_in(entries, "burst")?,
        reach: number_in(entries, "reach")?,
        loss: loss_in(entries)?,
    })
}

/// The option that the rule of loss leaves out, if the words give it.
fn ignored_in(entries: &ArgMatches<'_>) -> Option<Ignored>
    ensures { result ≡ ignored_by (rows_of (found_of entries.now)) }
{
    if is_given(entries, "share") {
        is_given(entries, "loss").then_some(Ignored::Loss)
    } else {
        is_given(entries, "of").then_some(Ignored::Of)
    }
}

/// Whether the words give the option: a default doesn't count.
#[tactic(auto, using(crate::proofs::Getters::getter_steps))]
fn is_given(entries: &ArgMatches<'_>, name: &str) -> bool
    ensures { result ≡ the_words_give name.now (rows_of (found_of entries.now)) }
{
    match entries.value_source(name) {
        Some(ValueSource::CommandLine) => true,
        Some(ValueSource::DefaultValue) => false,
        None => false,
    }
}

/// The rule of loss: by the share, if there is one, or else by the number in a row.
fn loss_in(entries: &ArgMatches<'_>) -> Option<Loss>
    ensures { result ≡ loss_of (rows_of (found_of entries.now)) }
{
    match share_in(entries)? {
        None => Some(Loss::Run(number_in(entries, "loss")?)),
        Some(bad) => Some(Loss::Share {
            bad,
            of: number_in(entries, "of")?,
        }),
    }
}

#[tactic(auto, using(crate::proofs::Getters::getter_steps))]
fn share_in(entries: &ArgMatches<'_>) -> Option<Option<u32>>
    ensures { result ≡ if_given 4294967295 (one_of (codes "share") (rows_of (found_of entries.now))) }
{
    entries.try_get_one::<u32>("share").ok()
}

#[tactic(auto, using(crate::proofs::Getters::getter_steps))]
fn bits_in(entries: &ArgMatches<'_>) -> Option<Option<u64>>
    ensures { result ≡ if_given 18446744073709551615 (one_of (codes "bits")
        (rows_of (found_of entries.now))) }
{
    entries.try_get_one::<u64>("bits").ok()
}

fn number_in(entries: &ArgMatches<'_>, name: &str) -> Option<u32>
    ensures { result ≡ number_of name.now (rows_of (found_of entries.now)) }
{
    entries.get_one::<u32>(name)
}

fn flag_in(entries: &ArgMatches<'_>, name: &str) -> bool
    ensures { result ≡ flag_of name.now (rows_of (found_of entries.now)) }
{
    match entries.get_str(name) {
        Some(text) => text == "true",
        None => false,
    }
}
