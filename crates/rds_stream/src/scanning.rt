//! All valid windows of a range.
ghost use Rattle.std.specs.Prelude.{◌≡◌, ◌≤◌, IfOk, IsOkUnless};
ghost use Rattle.rds_stream.specs.Recording.{length_of, valid_windows};
ghost use Rattle.rds_code.specs.declared.error.RdsError.TheVariants.{OutOfMemory};

use crate::recording::Recording;
use crate::valid_windows::ValidWindows;
use rds_code::{Offset, RdsError};
use std::alloc::Global;

/// All valid windows at the places from `from` to before `to`, each with its offset, by rising place.
///
/// `from` is at most `to`, and `to` at most the length. Windows may begin before `from`, and none before the recording.
/// Those that touch a gap are left out: this project's rule. It fails only if memory is refused.
pub fn scan(
    alloc: Global,
    recording: &Recording,
    from: u64,
    to: u64,
) -> Result<Vec<(u64, Offset)>, RdsError>
    requires order { from ≤ to }
    requires end { to ≤ length_of recording.now }
    ensures found { IfOk result (λ found. found.items ≡ valid_windows recording.now from to) }
    ensures memory { IsOkUnless result OutOfMemory }
{
    let mut found = Vec::new(alloc);
    for window in ValidWindows::new(recording, from, to) {
        found.push(window)?;
    }
    Ok(found)
}
