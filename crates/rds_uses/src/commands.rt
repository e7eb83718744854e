//! Facts that the program relies on when it reads its command line.
ghost use Rattle.std.specs.Prelude.{◌≡◌, ◌⊎◌, ◌++◌, ◌∷◌, [], IfErr, IfOk, IsErrAnd, None, OnOk, Some, codes, false, string_bytes, true};
ghost use Rattle.rds_sync.specs.declared.loss.Loss.TheVariants.{Share};
ghost use Rattle.rds_tool.specs.declared.job.Job.TheVariants as AJob;

use rds_tool::{Asked, CliFault, FaultKind, Ignored, Job, Request, asked_of, job_of};
use std::alloc::Global;

static SCAN_WITH_BAD_GAPS: [&str; 4] = ["rds", "scan", "--gaps", "5"];

static FOLLOW_WITH_A_GAP: [&str; 10] = [
    "rds", "follow", "--of", "3", "--share", "2", "--loss", "10", "--gaps", "104-105",
];

static HELP_OF_LIST: [&str; 3] = ["rds", "list", "--help"];

/// `rds scan --gaps 5` asks for nothing: it is told that the gaps are bad, or memory was refused.
pub fn scan_with_bad_gaps(alloc: Global) -> Result<Asked, CliFault>
    ensures { IsErrAnd result (λ fault. (fault.kind ≡ FaultKind.Memory)
        ⊎ ((fault.kind ≡ FaultKind.Words) × (string_bytes fault.text ≡ codes "bad --gaps" ++ 10 ∷ []))) }
{
    asked_of(alloc, SCAN_WITH_BAD_GAPS.as_slice())
}

/// `rds follow --of 3 --share 2 --loss 10 --gaps 104-105` follows a stream to its end, with this gap and this share, by one worker, and warns
/// of the loss, though 10 is the default. That is no job, and no words were wrong but for that.
pub fn follow_with_a_gap(alloc: Global) -> (Result<Asked, CliFault>, Result<Job, CliFault>)
    ensures asked { IfOk result.0 (λ asked. (asked.ignored ≡ Some Ignored.Loss) × (asked.request
        ≡ Request.Follow (record { hex = false; bits = None; gaps = (104, 105) ∷ [] })
        (record { burst = 2; reach = 3; loss = Share 2 3 }) 1)) }
    ensures no_job { OnOk result.1 ⊥ }
    ensures fault { IfErr result.1 (λ fault. (fault.kind ≡ FaultKind.Words) ⊎ (fault.kind ≡ FaultKind.Memory)) }
{
    let words = FOLLOW_WITH_A_GAP.as_slice();
    (asked_of(alloc, words), job_of(alloc, words))
}

/// `rds list --help` asks for nothing else: help is shown, or memory was refused.
pub fn help_of_list(alloc: Global) -> Result<Asked, CliFault>
    ensures no_job { OnOk result ⊥ }
    ensures help { IfErr result (λ fault. (fault.kind ≡ FaultKind.Help) ⊎ (fault.kind ≡ FaultKind.Memory)) }
{
    asked_of(alloc, HELP_OF_LIST.as_slice())
}

/// If memory was refused there is nothing to be shown but that.
pub fn nothing_to_show(alloc: Global, words: &[&str]) -> Result<Asked, CliFault>
    ensures { IfErr result (λ fault. fault.kind ≡ FaultKind.Memory → string_bytes fault.text ≡ []) }
{
    asked_of(alloc, words)
}
