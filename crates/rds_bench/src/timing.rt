//! The time of a form over the recording on standard input.
use crate::forms::Form;
use anyhow::{Context, Result};
use rds_stream::Recording;
use rds_sync::Rules;
use std::io::Read;
use std::time::Instant;

/// How often a form is timed: the least time counts.
const TURNS: u32 = 3;

/// Prints the least time of a form in nanoseconds, and the number that it found.
pub fn show(rt: &HostRuntime, form: Form, loss: u32) -> Result<()> {
    let rules = Rules::new(rt.alloc(), 2, 3, loss)?;
    let recording = read_recording(rt)?;
    let (nanos, found) = least_time(rt, form, &recording, &rules)?;
    println!(rt; "{nanos} {found}")?;
    Ok(())
}

fn read_recording(rt: &HostRuntime) -> Result<Recording> {
    let mut bytes = Vec::new(rt.alloc());
    rt.stdin().read_to_end(&mut bytes)?;
    let bits = (bytes.len() as u64).saturating_mul(8);
    Ok(Recording::from_bytes(bytes, bits).map_err(|(error, _)| error)?)
}

fn least_time(
    rt: &HostRuntime,
    form: Form,
    recording: &Recording,
    rules: &Rules,
) -> Result<(u64, u64)> {
    let mut least = u64::MAX;
    let mut found = 0u64;
    for _ in 0..TURNS {
        let start = Instant::now(rt)?;
        found = form
            .find(rt.alloc(), recording, rules)
            .context("out of memory")?;
        least = least.min(nanos_since(rt, start)?);
    }
    Ok((least.max(1), found))
}

fn nanos_since(rt: &HostRuntime, start: Instant) -> Result<u64> {
    Ok(u64::try_from(start.elapsed(rt)?.as_nanos()).unwrap_or(u64::MAX))
}
