//! Groups of lines of digits, whose text comes chunk by chunk.
ghost use Rattle.std.specs.Prelude.{◌*◌, ◌+◌, ◌++◌, ◌≡◌, ◌∷◌, Bool, Err, IfErr, IfOk, None, Ok, OnErr, OnOk, [], false, true};
ghost use Rattle.rds_tool.specs.{GroupText.encoded_text, GroupText.line_text, GroupText.words_of as the_words_of, Inside.GroupLines.AddsLine, Inside.GroupLines.text_of_groups};
ghost use Rattle.rds_code.specs.{Refusals.IsMemoryOrErrOf, declared.error.RdsError.TheVariants.GroupText};

use crate::taker::Taker;
use crate::task::Text;
use rds_code::RdsError;
use rds_stream::Trace;
use std::alloc::{AllocError, Global};
use std::marker::Model;
use std::thread::Threads;

/// How many digits a line has: those of four words.
const DIGITS: usize = 16;

/// The groups that lines of digits spell. Each is kept as four words, in 8 bytes.
#[derive(Drop)]
pub struct GroupLines {
    groups: Vec<[u16; 4]>,
    /// The digits of the line that has not ended.
    line: [u8; 16],
    len: usize,
    /// Whether a line is faulty.
    is_faulty: bool,
    text: Trace,
}

impl Model for GroupLines {
    ghost use Rattle.std.specs.Prelude.{List, take, ℕ};
    ghost use Rattle.rds_tool.specs.Inside.GroupLines.{IsGroupLines};

    ghost Value = { List ℕ };

    ghost view = { λ g. g.text.bytes };

    ghost invariant = { λ g. IsGroupLines g.groups.items g.line g.len g.is_faulty g.text.bytes };
}

impl GroupLines {
    /// No text yet.
    pub fn new(alloc: Global) -> GroupLines
        ensures { result ≡ [] }
    {
        GroupLines {
            groups: Vec::new(alloc),
            line: [0; DIGITS],
            len: 0,
            is_faulty: false,
            text: Trace::new(),
        }
    }

    /// The text goes on.
    pub fn push(&mut self, bytes: &[u8]) -> Result<(), AllocError>
        ensures { OnOk result (self.new ≡ self.old ++ bytes.now) }
    {
        for byte in bytes {
            self.push_byte(*byte)?;
        }
        Ok(())
    }

    /// One byte more. Blanks do not count.
    fn push_byte(&mut self, byte: u8) -> Result<(), AllocError>
        ensures { OnOk result (self.new ≡ self.old ++ byte ∷ []) }
    {
        match byte {
            b' ' | b'\t' | b'\r' => {}
            b'\n' => {
                let is_group = push_line(&mut self.groups, &self.line[..self.len])?;
                self.is_faulty |= !is_group;
                self.len = 0;
            }
            digit if self.len < DIGITS => {
                self.line[self.len] = digit;
                self.len += 1;
            }
            _ => self.is_faulty = true,
        }
        self.text.note(&[byte]);
        Ok(())
    }

    /// The groups of the whole text, or the refusal of a faulty line.
    pub fn finish(self) -> Result<Vec<[u16; 4]>, RdsError>
        ensures ok { IfOk result (λ groups. (hex : Bool) → encoded_text hex self ≡ Ok (text_of_groups hex groups.items)) }
        ensures refused { IfErr result (λ error. (hex : Bool) → IsMemoryOrErrOf (encoded_text hex self) error) }
    {
        let GroupLines {
            mut groups,
            line,
            len,
            is_faulty,
            ..
        } = self;
        if push_line(&mut groups, &line[..len])? && !is_faulty {
            Ok(groups)
        } else {
            Err(RdsError::GroupText)
        }
    }
}

/// Adds the group that a line spells, if it has digits. Answers whether it is not faulty.
fn push_line(groups: &mut Vec<[u16; 4]>, line: &[u8]) -> Result<bool, AllocError>
    ensures fine { IfOk result (λ is_fine. is_fine ≡ true → AddsLine line.now groups.old.items groups.new.items) }
    ensures unchanged { OnErr result (groups.new.items ≡ groups.old.items) }
    ensures faulty { IfOk result (λ is_fine. is_fine ≡ false → (hex : Bool) → line_text hex line.now ≡ Err GroupText) }
{
    if line.is_empty() {
        return Ok(true);
    }
    match words_of(line) {
        Ok(words) => {
            groups.push(words)?;
            Ok(true)
        }
        Err(_) => Ok(false),
    }
}

/// The words of sixteen digits.
fn words_of(digits: &[u8]) -> Result<[u16; 4], RdsError>
    ensures { result ≡ the_words_of digits.now }
{
    let mut bytes = [0; 8];
    match hex::decode_to_slice(digits, &mut bytes) {
        Ok(()) => Ok([
            word(bytes[0], bytes[1]),
            word(bytes[2], bytes[3]),
            word(bytes[4], bytes[5]),
            word(bytes[6], bytes[7]),
        ]),
        Err(_) => Err(RdsError::GroupText),
    }
}

fn word(high: u8, low: u8) -> u16
    ensures { result ≡ 256 * high + low }
{
    256 * u16::from(high) + u16::from(low)
}

/// Lines whose groups are encoded, with `hex` as lines of digits.
#[derive(Drop)]
pub struct HeldLines {
    lines: GroupLines,
    hex: bool,
}

impl HeldLines {
    /// No text yet.
    pub fn new(alloc: Global, hex: bool) -> HeldLines
        ensures lines { result.lines ≡ [] }
        ensures hex { result.hex ≡ hex }
    {
        HeldLines {
            lines: GroupLines::new(alloc),
            hex,
        }
    }
}

impl<'t> Taker<'t> for HeldLines {
    ghost taken = { λ held. held.lines };

    ghost text = { λ held. encoded_text held.hex };

    fn take<R: Threads + Sync>(
        &mut self,
        _rt: &R,
        _alloc: Global,
        bytes: &mut [u8],
    ) -> Result<(), AllocError> {
        self.lines.push(bytes)
    }

    fn finish<R: Threads + Sync>(self, _rt: &R, _alloc: Global) -> Result<Text<'t>, RdsError> {
        Ok(Text::Groups(self.lines.finish()?, self.hex))
    }
}
