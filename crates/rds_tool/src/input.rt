//! From the bytes that a reader held to the recording that they denote.
ghost use Rattle.std.specs.Prelude.{◌<◌, ◌≡◌, ◌≤◌, Err, IfErr, IfOk, IfSome, Ok, length, take};
ghost use Rattle.hex.specs.Hex.{hex_digit_value};
ghost use Rattle.rds_tool.specs.{Input.decoded, Input.first_bits as the_first_bits, Input.is_blank as blank, Input.recording_of as the_recording_of, Inside.HexText.IsDecodedBy, Inside.HexText.IsStrangeAfter};

use crate::Input;
use rds_code::RdsError;
use rds_stream::Recording;
use std::alloc::{AllocError, Global};

impl Input {
    /// The same, with gaps of its own.
    pub(crate) fn clone_in(&self, alloc: Global) -> Result<Input, AllocError>
        ensures { IfOk result (λ copy. copy ≡ self.now) }
    {
        Ok(Input {
            hex: self.hex,
            bits: self.bits,
            gaps: Vec::from_slice(alloc, self.gaps.as_slice())?,
        })
    }
}

/// The recording of an input.
pub fn recording_of(input: Input, held: Vec<u8>) -> Result<Recording, RdsError>
    ensures ok { IfOk result (λ recording. the_recording_of input held.items ≡ Ok recording) }
    ensures refused { IfErr result (λ error. the_recording_of input held.items ≡ Err error) }
{
    let Input { hex, bits, gaps } = input;
    let bytes = if hex { hex_bytes(held)? } else { held };
    let all = (bytes.len() as u64).saturating_mul(8);
    first_bits(bytes, bits.unwrap_or(all), gaps)
}

/// The first `bits` bits, with these gaps.
pub fn first_bits(bytes: Vec<u8>, bits: u64, gaps: Vec<(u64, u64)>) -> Result<Recording, RdsError>
    ensures { result ≡ the_first_bits bits gaps.items bytes.items }
{
    match Recording::with_gaps(bytes, bits, gaps) {
        Ok(recording) => Ok(recording),
        Err((error, _bytes, _gaps)) => Err(error),
    }
}

/// Space, tab, carriage return and line feed.
fn is_blank(byte: u8) -> bool
    ensures { result ≡ blank byte }
{
    matches!(byte, b' ' | b'\t' | b'\r' | b'\n')
}

/// The value of a hexadecimal digit.
fn digit_value(byte: u8) -> Option<u8>
    ensures value { result ≡ hex_digit_value byte }
    ensures small { IfSome result (λ value. value < 16) }
{
    match byte {
        b'A'..=b'F' => Some(byte - 55),
        b'a'..=b'f' => Some(byte - 87),
        b'0'..=b'9' => Some(byte - 48),
        _ => None,
    }
}

/// The bytes of hexadecimal text, in which blanks don't count, in the memory of the text.
fn hex_bytes(text: Vec<u8>) -> Result<Vec<u8>, RdsError>
    ensures ok { IfOk result (λ bytes. decoded text.items ≡ Ok bytes.items) }
    ensures refused { IfErr result (λ error. decoded text.items ≡ Err error) }
{
    let mut bytes = text;
    let count = decode_in_place(bytes.as_mut_slice())?;
    bytes.truncate(count);
    Ok(bytes)
}

/// Writes the bytes of hexadecimal text over its front. Answers how many bytes these are.
fn decode_in_place(text: &mut [u8]) -> Result<usize, RdsError>
    ensures ok { IfOk result (λ count. decoded text.old ≡ Ok (take count text.new)) }
    ensures refused { IfErr result (λ error. decoded text.old ≡ Err error) }
{
    let (count, half) = decode_digits(text, None)?;
    if half.is_some() {
        return Err(RdsError::HexText);
    }
    Ok(count)
}

/// Writes the bytes of a part of hexadecimal text over its front, given the first digit of a byte that the text before it began.
/// Answers how many bytes these are, and the digit of a byte that the part begins and does not end.
pub fn decode_digits(text: &mut [u8], half: Option<u8>) -> Result<(usize, Option<u8>), RdsError>
    requires { IfSome half (λ digit. digit < 16) }
    ensures ok { IfOk result (λ done. (done.0 ≤ length text.new)
        × IfSome done.1 (λ digit. digit < 16)
        × IsDecodedBy half text.old (take done.0 text.new) done.1) }
    ensures refused { IfErr result (λ error. (error ≡ RdsError.HexText) × IsStrangeAfter half text.old) }
{
    let mut high = half;
    let mut count = 0;
    for at in 0..text.len() {
        let byte = text[at];
        if is_blank(byte) {
            continue;
        }
        let Some(digit) = digit_value(byte) else {
            return Err(RdsError::HexText);
        };
        match high {
            None => high = Some(digit),
            Some(first) => {
                text[count] = 16 * first + digit;
                count += 1;
                high = None;
            }
        }
    }
    Ok((count, high))
}
