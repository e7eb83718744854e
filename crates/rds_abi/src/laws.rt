//! A law of the refusals, over only the definitions: its function does nothing.

ghost use Rattle.rds_abi.specs.Exclusion.{ReasonsExclude};

/// No two reasons of a refusal hold at once, except lack of memory. So a refused call whose memory was not refused can answer
/// only one number.
pub fn reasons_exclude_each_other()
    ensures { ReasonsExclude }
{}
