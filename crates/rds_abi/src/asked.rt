//! A caller's arguments, and the recording and rules made of them.

ghost use Rattle.std.specs.{Prelude.◌≡◌, Prelude.◌<◌, Prelude.◌≤◌, Prelude.◌↔◌, Prelude.IfErr, Prelude.IfOk, Prelude.OnOk, Prelude.length, Prelude.true, List.All, List.AllAdjacentBelow};
ghost use Rattle.rds_stream.specs.Recording.{AreGaps, length_of};
ghost use Rattle.rds_abi.specs.{Asked.IsLawful, Asked.AreGiven, Asked.IsRecording, Asked.Refuses, Asked.RefusesGiven, Asked.RefusesRecording, Asked.asked, Asked.gaps_of, Asked.recording_of as the_recording_of, Asked.rules_of as the_rules_of, declared.refusal.Refusal.TheVariants.BadGaps};

use crate::layout::{RdsGap, RdsRules};
use crate::refusal::Refusal;
use rds_code::RdsError;
use rds_stream::{MOST_BITS, Recording};
use rds_sync::{Loss, RuleNumbers, Rules};
use std::alloc::{AllocError, Global};

/// The numbers of rules, as the decoder has them.
fn numbers_of(asked: RdsRules) -> RuleNumbers
    ensures { result ≡ the_rules_of asked }
{
    let loss = if asked.of == 0 {
        Loss::Run(asked.loss)
    } else {
        Loss::Share {
            bad: asked.loss,
            of: asked.of,
        }
    };
    RuleNumbers {
        burst: asked.burst,
        reach: asked.reach,
        loss,
    }
}

/// The rules of these numbers.
pub(crate) fn rules_of(alloc: Global, asked: RdsRules) -> Result<Rules, Refusal>
    ensures rules { IfOk result (λ rules. rules ≡ the_rules_of asked) }
    ensures given { IfOk result (λ _. AreGiven asked) }
    ensures refused { IfErr result (RefusesGiven asked) }
{
    if asked.reserved != [0; 4] {
        return Err(Refusal::ReservedField);
    }
    match Rules::of(alloc, numbers_of(asked)) {
        Ok(rules) => {
            let _numbers = rules.numbers();
            Ok(rules)
        }
        Err(RdsError::BurstRange) => Err(Refusal::BurstRange),
        Err(RdsError::ReachRange) => Err(Refusal::ReachRange),
        Err(RdsError::LossRange) => Err(Refusal::LossRange),
        Err(RdsError::ShareRange) => Err(Refusal::ShareRange),
        Err(_) => Err(Refusal::OutOfMemory),
    }
}

/// The gaps as a recording takes them.
pub(crate) fn gaps_in(alloc: Global, gaps: &[RdsGap]) -> Result<Vec<(u64, u64)>, AllocError>
    ensures { IfOk result (λ copy. copy.items ≡ gaps_of gaps.now) }
{
    gaps.iter().map(|gap| (gap.begin, gap.end)).collect(alloc)
}

/// The recording of these bits. Only the bytes that hold them are copied.
fn recording_of(
    alloc: Global,
    bytes: &[u8],
    bits: u64,
    gaps: &[RdsGap],
) -> Result<Recording, Refusal>
    ensures held { IfOk result (λ recording. recording ≡ the_recording_of bytes.now bits gaps.now) }
    ensures len { IfOk result (λ recording. length_of recording ≡ bits) }
    ensures lawful { IfOk result (λ _. IsRecording bytes.now bits gaps.now) }
    ensures refused { IfErr result (RefusesRecording bytes.now bits gaps.now) }
{
    refuse_recording(bytes, bits, gaps)?;
    let copy = Vec::from_slice(alloc, &bytes[..bits.div_ceil(8) as usize])?;
    let places = gaps_in(alloc, gaps)?;
    match Recording::with_gaps(copy, bits, places) {
        Ok(recording) => Ok(recording),
        Err(_) => unreachable!(),
    }
}

/// Whether a recording of `bits` bits may have these gaps: each has a place and is within the bits, and each
/// begins at or after the end of the one before it.
fn are_gaps(gaps: &[RdsGap], bits: u64) -> bool
    ensures { (result ≡ true) ↔ AreGaps bits (gaps_of gaps.now) }
{
    are_within(gaps, bits) && are_apart(gaps)
}

/// Whether each has a place and is within the first `bits` bits.
fn are_within(gaps: &[RdsGap], bits: u64) -> bool
    ensures { (result ≡ true) ↔ All (λ gap. (gap.begin < gap.end) × (gap.end ≤ bits)) gaps.now }
{
    gaps.iter()
        .all(|gap| gap.begin < gap.end && gap.end <= bits)
}

/// Whether each begins at or after the end of the one before it.
fn are_apart(gaps: &[RdsGap]) -> bool
    ensures { (result ≡ true) ↔ AllAdjacentBelow (λ gap next. gap.end ≤ next.begin) gaps.now (length gaps.now) }
{
    gaps.is_sorted_by(|gap, next| gap.end <= next.begin)
}

/// Refuses bits and gaps that are no recording of these bytes. Takes no memory.
pub(crate) fn refuse_recording(bytes: &[u8], bits: u64, gaps: &[RdsGap]) -> Result<(), Refusal>
    ensures lawful { OnOk result (IsRecording bytes.now bits gaps.now) }
    ensures refused { IfErr result (RefusesRecording bytes.now bits gaps.now) }
{
    if bits > MOST_BITS {
        return Err(Refusal::TooLong);
    }
    if bits.div_ceil(8) > bytes.len() as u64 {
        return Err(Refusal::BitsPastBytes);
    }
    refuse_gaps(gaps, bits)
}

/// Refuses gaps that a recording of `bits` bits may not have.
pub(crate) fn refuse_gaps(gaps: &[RdsGap], bits: u64) -> Result<(), Refusal>
    ensures lawful { OnOk result (AreGaps bits (gaps_of gaps.now)) }
    ensures refused { IfErr result (λ refusal. (refusal ≡ BadGaps) × (AreGaps bits (gaps_of gaps.now) → ⊥)) }
{
    if !are_gaps(gaps, bits) {
        return Err(Refusal::BadGaps);
    }
    Ok(())
}

/// A recording, and the rules that it is decoded by.
#[derive(Drop)]
pub(crate) struct Input {
    pub(crate) recording: Recording,
    pub(crate) rules: Rules,
}

/// The recording of the first `bits` bits of these bytes, with these gaps, and these rules, which are looked at first.
pub(crate) fn input_of(
    alloc: Global,
    bytes: &[u8],
    bits: u64,
    gaps: &[RdsGap],
    rules: RdsRules,
) -> Result<Input, Refusal>
    ensures recording { IfOk result (λ input. input.recording ≡ the_recording_of bytes.now bits gaps.now) }
    ensures len { IfOk result (λ input. length_of input.recording ≡ bits) }
    ensures rules { IfOk result (λ input. input.rules ≡ the_rules_of rules) }
    ensures lawful { IfOk result (λ _. IsLawful (asked bytes.now bits gaps.now rules)) }
    ensures refused { IfErr result (Refuses (asked bytes.now bits gaps.now rules)) }
{
    let rules = rules_of(alloc, rules)?;
    let recording = recording_of(alloc, bytes, bits, gaps)?;
    Ok(Input { recording, rules })
}
