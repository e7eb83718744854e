//! Jobs and streams from standard input to standard output.
//!
//! No contract can name the bytes that the system will give or keep. So a session returns both devices with their
//! histories: the bytes that reads gave, and the bytes that writes took.
ghost use Rattle.std.specs.Prelude.{◌<◌, ◌^◌, ◌≡◌, IfErr, IfOk};
ghost use Rattle.rds_tool.specs.Following.{Follows};
ghost use Rattle.rds.specs.{Fresh.IsUnread, Fresh.IsUnwritten, Session.DoesAsked, Session.HasDone, Session.HasFollowed, Session.RefusesTerms, Session.stream_of};

use crate::progress::{Console, Progress, Reporting, Teller};
use crate::sealed::Sealed;
use rds_code::RdsError;
use rds_crew::MOST_WORKERS;
use rds_soft::Margin;
use rds_sync::Rules;
use rds_tool::{
    FromRead, Input, Job, Request, RuleNumbers, Sink, Source, ToWrite, follow, follow_soft,
    transcribe, transcribe_gated,
};
use std::alloc::Global;
use std::rt::{Stdin, Stdout};
use std::thread::Threads;

/// Both devices as the work left them, and the answer of the work.
#[derive(Drop)]
pub struct Session {
    pub reader: Sealed<FromRead<Stdin>>,
    pub writer: Sealed<ToWrite<Stdout>>,
    pub answer: Result<(), RdsError>,
}

/// Does a job with the threads of the crew, or follows a stream. The progress of a job is shown if the request asks
/// for that and there is a clock.
pub fn do_request<C: Threads + Sync, T: Console>(
    alloc: Global,
    crew: &C,
    teller: &Teller<T>,
    reader: Sealed<FromRead<Stdin>>,
    writer: Sealed<ToWrite<Stdout>>,
    request: &Request,
) -> Session
    requires reader { IsUnread reader }
    requires writer { IsUnwritten writer }
    ensures { DoesAsked request.now result }
{
    match request {
        Request::Job { job, .. } => match Progress::start(teller, request) {
            Some(progress) => {
                let session = run_told(alloc, crew, reader, writer, job, &progress);
                progress.end();
                session
            }
            None => run_untold(alloc, crew, reader, writer, job),
        },
        Request::Follow(input, rules, workers) => run_stream(
            alloc, crew, reader, writer, input, *rules, None, *workers,
        ),
        Request::FollowSoft {
            input,
            rules,
            margin,
            workers,
        } => run_stream(
            alloc,
            crew,
            reader,
            writer,
            input,
            *rules,
            Some(*margin),
            *workers,
        ),
    }
}

fn run_told<C: Threads + Sync, T: Console>(
    alloc: Global,
    crew: &C,
    reader: Sealed<FromRead<Stdin>>,
    writer: Sealed<ToWrite<Stdout>>,
    job: &Job,
    progress: &Progress<'_, T>,
) -> Session
    requires reader { IsUnread reader }
    requires writer { IsUnwritten writer }
    ensures { HasDone job.now result }
{
    let mut reader = Reporting::new(reader, progress);
    let mut writer = Reporting::new(writer, progress);
    let answer = transcribe_gated(crew, alloc, &mut reader, &mut writer, job, progress);
    Session {
        reader: reader.into_inner(),
        writer: writer.into_inner(),
        answer,
    }
}

fn run_untold<C: Threads + Sync>(
    alloc: Global,
    crew: &C,
    mut reader: Sealed<FromRead<Stdin>>,
    mut writer: Sealed<ToWrite<Stdout>>,
    job: &Job,
) -> Session
    requires reader { IsUnread reader }
    requires writer { IsUnwritten writer }
    ensures { HasDone job.now result }
{
    let answer = transcribe(crew, alloc, &mut reader, &mut writer, job);
    Session {
        reader,
        writer,
        answer,
    }
}

/// Lists a stream as it comes, of symbols if there is a margin, if its rules and the number of workers are within their ranges.
fn run_stream<C: Threads + Sync>(
    alloc: Global,
    crew: &C,
    reader: Sealed<FromRead<Stdin>>,
    writer: Sealed<ToWrite<Stdout>>,
    input: &Input,
    numbers: RuleNumbers,
    margin: Option<Margin>,
    workers: u32,
) -> Session
    requires reader { IsUnread reader }
    requires writer { IsUnwritten writer }
    ensures { HasFollowed (stream_of numbers input.now.gaps input.now.bits margin workers) numbers workers result }
{
    match rules_for(alloc, numbers, workers) {
        Ok(rules) => {
            let (mut reader, mut writer) = (reader, writer);
            let answer = follow_asked(
                alloc,
                crew,
                &mut reader,
                &mut writer,
                input,
                &rules,
                margin,
                workers,
            );
            Session {
                reader,
                writer,
                answer,
            }
        }
        Err(error) => Session {
            reader,
            writer,
            answer: Err(error),
        },
    }
}

/// The rules of these numbers, unless they or the number of workers are out of range.
fn rules_for(alloc: Global, asked: RuleNumbers, workers: u32) -> Result<Rules, RdsError>
    ensures numbers { IfOk result (λ rules. rules ≡ asked) }
    ensures refused { IfErr result (RefusesTerms asked workers) }
{
    match Rules::of(alloc, asked) {
        Ok(rules) => {
            if workers < 1 || workers > MOST_WORKERS {
                return Err(RdsError::CrewRange);
            }
            Ok(rules)
        }
        Err(error) => Err(error),
    }
}

/// Follows a stream by these rules.
fn follow_asked<C: Threads + Sync, S: Source, K: Sink>(
    alloc: Global,
    crew: &C,
    reader: &mut S,
    writer: &mut K,
    input: &Input,
    rules: &Rules,
    margin: Option<Margin>,
    workers: u32,
) -> Result<(), RdsError>
    requires reads { S.failed reader.old < 2 ^ 63 }
    requires writes { K.failed writer.old < 2 ^ 63 }
    ensures { Follows S.Source K.Sink (stream_of rules.now input.now.gaps input.now.bits margin workers)
        reader.old reader.new writer.old writer.new result }
{
    let bits = input.bits;
    let gaps = input.gaps.as_slice();
    match margin {
        None => follow(crew, alloc, reader, writer, rules, bits, gaps, workers),
        Some(margin) => follow_soft(
            crew, alloc, reader, writer, rules, margin, bits, gaps, workers,
        ),
    }
}
