//! What the program leaves when it ends, and its exit status.
ghost use Rattle.std.specs.{Prelude.◌≡◌, Prelude.string_bytes, Process.exit_status};
ghost use Rattle.rds_tool.specs.Ends.{taken_by, write_failures};
ghost use Rattle.rds.specs.{CommandLine.IsGiven, CommandLine.texts_of, Ended.Answers, Ended.IsEnded, Ended.status_by, Ended.status_of, Fresh.IsUnread, Fresh.IsUnwritten};

use crate::command_line::{asked_for, given_words};
use crate::messages::{name_refusal, tell, warn};
use crate::progress::{Console, Teller};
use crate::sealed::Sealed;
use crate::session::{Session, do_request};
use rds_code::RdsError;
use rds_tool::{Asked, CliFault, FaultKind, FromRead, ToWrite};
use std::alloc::Global;
use std::env::Args;
use std::io;
use std::process::{ExitCode, Termination};
use std::rt::{Stderr, Stdin, Stdout};
use std::thread::Threads;

/// The words that were given, their request, and what was done for it. Where there are no words or no request,
/// the error says why.
#[derive(Drop)]
pub struct Ended {
    given: Result<Vec<String>, FaultKind>,
    asked: Result<Asked, CliFault>,
    done: Done,
    ghost answered: { ∥ Answers (texts_of string_bytes given) asked done.session
        (taken_by done.errors.device) (write_failures done.errors.device) ∥₁ },
}

/// A session, and standard error after it.
#[derive(Drop)]
struct Done {
    session: Session,
    errors: Sealed<ToWrite<Stderr>>,
}

impl Termination for Ended {
    fn report<R: Eprint>(self, _rt: &R) -> ExitCode
        ensures { exit_status result ≡ status_by self.asked self.done.session.answer }
    {
        ExitCode::from(status(&self.asked, &self.done.session.answer))
    }
}

/// The exit status of a request and its answer.
fn status(asked: &Result<Asked, CliFault>, answer: &Result<(), RdsError>) -> u8
    ensures { result ≡ status_by asked.now answer.now }
{
    match asked {
        Ok(_) => answer_status(answer),
        Err(fault) => match fault.kind {
            FaultKind::Words => 2,
            FaultKind::Help | FaultKind::Version | FaultKind::Memory => answer_status(answer),
        },
    }
}

fn answer_status(answer: &Result<(), RdsError>) -> u8
    ensures { result ≡ status_of answer.now }
{
    match answer {
        Ok(()) => 0,
        Err(_) => 1,
    }
}

/// Does what these words ask for. Standard error names the ignored option and the error.
pub fn do_as_asked<C: Threads + Sync, T: Console>(
    args: io::Result<Args>,
    alloc: Global,
    crew: &C,
    teller: &Teller<T>,
    reader: Sealed<FromRead<Stdin>>,
    writer: Sealed<ToWrite<Stdout>>,
    errors: Sealed<ToWrite<Stderr>>,
) -> Ended
    requires reader { IsUnread reader }
    requires writer { IsUnwritten writer }
    requires errors { IsUnwritten errors }
    ensures given { IsGiven args result.given }
    ensures answers { Answers (texts_of string_bytes result.given) result.asked result.done.session
        (taken_by result.done.errors.device) (write_failures result.done.errors.device) }
{
    let given = given_words(alloc, args);
    let asked = asked_for(alloc, &given);
    let done = done_for(alloc, crew, teller, reader, writer, errors, &asked);
    Ended { given, asked, done }
}

/// Does a request, or shows why there is none.
fn done_for<C: Threads + Sync, T: Console>(
    alloc: Global,
    crew: &C,
    teller: &Teller<T>,
    reader: Sealed<FromRead<Stdin>>,
    mut writer: Sealed<ToWrite<Stdout>>,
    mut errors: Sealed<ToWrite<Stderr>>,
    asked: &Result<Asked, CliFault>,
) -> Done
    requires reader { IsUnread reader }
    requires writer { IsUnwritten writer }
    requires errors { IsUnwritten errors }
    ensures { IsEnded asked.now result.session (taken_by result.errors.device)
        (write_failures result.errors.device) }
{
    let session = match asked {
        Ok(asked) => {
            warn(&mut errors, asked.ignored);
            let session = do_request(alloc, crew, teller, reader, writer, &asked.request);
            name_refusal(&mut errors, &session.answer);
            session
        }
        Err(fault) => {
            let answer = tell(&mut writer, &mut errors, fault);
            Session {
                reader,
                writer,
                answer,
            }
        }
    };
    Done { session, errors }
}
