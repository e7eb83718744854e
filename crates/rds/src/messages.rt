//! Lines on standard error, and the text of help or the version on standard output.
ghost use Rattle.std.specs.Prelude.{◌≡◌, string_bytes};
ghost use Rattle.rds_tool.specs.Ends.{is_flushed, taken_by, write_failures};
ghost use Rattle.rds.specs.{Fresh.IsUnwritten, Messages.IsShown, Messages.IsTold, Messages.Says, Messages.refusal_line_of, Messages.refusal_said, Messages.warning_line_of, Messages.warning_said};

use crate::sealed::Sealed;
use rds_code::RdsError;
use rds_tool::{CliFault, FaultKind, Ignored, Sink, ToWrite, write_all};
use std::rt::{Stderr, Stdout};

/// Past this many failures nothing more is written, since a writer counts its failures in 64 bits.
const MOST_FAILURES: u64 = 0x8000_0000_0000_0000;

/// Warns of an option that is ignored.
pub fn warn(errors: &mut Sealed<ToWrite<Stderr>>, ignored: Option<Ignored>)
    ensures { Says (warning_said ignored) (taken_by errors.old.device) (write_failures errors.old.device)
        (taken_by errors.new.device) (write_failures errors.new.device) }
{
    match ignored {
        Some(option) => say(errors, warning_line(option)),
        None => say(errors, ""),
    }
}

/// Names the refusal, if the answer is one, by its number and name.
pub fn name_refusal(errors: &mut Sealed<ToWrite<Stderr>>, answer: &Result<(), RdsError>)
    ensures { Says (refusal_said answer.now) (taken_by errors.old.device) (write_failures errors.old.device)
        (taken_by errors.new.device) (write_failures errors.new.device) }
{
    match answer {
        Ok(()) => say(errors, ""),
        Err(error) => say(errors, refusal_line(*error)),
    }
}

/// Shows why there is no request: help and the version on standard output, and a usage error or the refusal on
/// standard error.
pub fn tell(
    writer: &mut Sealed<ToWrite<Stdout>>,
    errors: &mut Sealed<ToWrite<Stderr>>,
    fault: &CliFault,
) -> Result<(), RdsError>
    requires { IsUnwritten writer.old }
    ensures { IsTold fault.now.kind (string_bytes fault.now.text)
        (taken_by writer.new.device) (is_flushed writer.new.device) (write_failures writer.new.device)
        (taken_by errors.old.device) (write_failures errors.old.device)
        (taken_by errors.new.device) (write_failures errors.new.device) result }
{
    match fault.kind {
        FaultKind::Help | FaultKind::Version => {
            let answer = show(writer, fault.text.as_str());
            name_refusal(errors, &answer);
            answer
        }
        FaultKind::Words => {
            say(errors, fault.text.as_str());
            Ok(())
        }
        FaultKind::Memory => {
            let answer = Err(RdsError::OutOfMemory);
            name_refusal(errors, &answer);
            answer
        }
    }
}

/// Writes help or the version to standard output.
fn show(writer: &mut Sealed<ToWrite<Stdout>>, text: &str) -> Result<(), RdsError>
    requires { IsUnwritten writer.old }
    ensures { IsShown text.now (taken_by writer.new.device) (is_flushed writer.new.device)
        (write_failures writer.new.device) result }
{
    match write_all(writer, text.as_bytes()) {
        Ok(()) => match writer.flush() {
            Ok(()) => Ok(()),
            Err(_) => Err(RdsError::Write),
        },
        Err(_) => Err(RdsError::Write),
    }
}

/// Writes this text to standard error, or a beginning of it if a write fails. A failure has no answer, since there is
/// no other place to report it.
fn say(errors: &mut Sealed<ToWrite<Stderr>>, text: &str)
    ensures { Says text.now (taken_by errors.old.device) (write_failures errors.old.device)
        (taken_by errors.new.device) (write_failures errors.new.device) }
{
    if errors.failures() < MOST_FAILURES {
        let _ = write_all(errors, text.as_bytes());
    }
}

fn warning_line(option: Ignored) -> &'static str
    ensures { result.now ≡ warning_line_of option }
{
    match option {
        Ignored::Loss => "rds: --loss is ignored with --share\n",
        Ignored::Of => "rds: --of is ignored without --share\n",
    }
}

/// The line that names a refusal.
fn refusal_line(error: RdsError) -> &'static str
    ensures { result.now ≡ refusal_line_of error }
{
    match error {
        RdsError::BurstRange => "refused 1 BurstRange\n",
        RdsError::ReachRange => "refused 2 ReachRange\n",
        RdsError::LossRange => "refused 3 LossRange\n",
        RdsError::BitsPastBytes => "refused 4 BitsPastBytes\n",
        RdsError::TooLong => "refused 5 TooLong\n",
        RdsError::BadCutting => "refused 6 BadCutting\n",
        RdsError::CrewRange => "refused 7 CrewRange\n",
        RdsError::OutOfMemory => "refused 8 OutOfMemory\n",
        RdsError::Read => "refused 9 Read\n",
        RdsError::Write => "refused 10 Write\n",
        RdsError::HexText => "refused 11 HexText\n",
        RdsError::GroupText => "refused 12 GroupText\n",
        RdsError::TooManyTurns => "refused 13 TooManyTurns\n",
        RdsError::NoWorker => "refused 14 NoWorker\n",
        RdsError::ShareRange => "refused 15 ShareRange\n",
        RdsError::BadGaps => "refused 16 BadGaps\n",
    }
}
