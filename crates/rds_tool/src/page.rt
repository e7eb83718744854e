//! Room for rows, on the stack.
ghost use Rattle.std.specs.{Prelude.◌+◌, Prelude.◌++◌, Prelude.◌≡◌, Prelude.◌≤◌, Prelude.◌<◌, Prelude.◌∷◌, Prelude.Some, Prelude.[], Prelude.decimal, Prelude.length, Prelude.map, Prelude.take, List.AllByRecursion};
ghost use Rattle.rds_tool.specs.{Inside.RowWriter.IsShort, Listing.row};

use crate::digits::{decimal_digits, left_aligned};
use std::io;
use std::io::Write;
use std::marker::Model;

/// How many bytes a page has.
const PAGE: usize = 8192;

/// How many bytes the longest row has: eight fields of at most 20 bytes, each with one byte after it.
pub const LONGEST_ROW: usize = 168;

/// One more than the greatest number of eight digits.
const EIGHT_DIGITS: u64 = 100_000_000;

/// Rows on the stack, up to 8192 bytes of them. Clauses see the bytes written so far.
#[derive(Drop)]
pub struct Page {
    bytes: [u8; 8192],
    len: usize,
}

impl Model for Page {
    ghost use Rattle.std.specs.Prelude.{◌≡◌, ◌≤◌, List, length, take, ℕ};

    ghost Value = { List ℕ };

    ghost view = { λ page. take page.len page.bytes };

    ghost invariant = { λ page. (page.len ≤ 8192) × (length page.bytes ≡ 8192) };
}

impl Page {
    /// Nothing written yet.
    pub fn blank() -> Page
        ensures { result ≡ [] }
    {
        Page {
            bytes: [0; 8192],
            len: 0,
        }
    }

    /// The bytes written so far.
    pub fn as_bytes(&self) -> &[u8]
        ensures value { result.now ≡ self.now }
        ensures short { length result.now ≤ 8192 }
    {
        &self.bytes[..self.len]
    }

    /// For how many bytes there is room.
    #[inline(always)]
    pub fn room(&self) -> usize
        ensures { result + length self.now ≡ 8192 }
    {
        PAGE - self.len
    }

    /// Forgets what was written.
    pub fn clear(&mut self)
        ensures { self.new ≡ [] }
    {
        self.len = 0;
    }

    /// Appends the first `len` of eight bytes, which are stored at once: bytes that are stored one by one take
    /// eight times as long.
    #[inline(always)]
    pub fn put(&mut self, bytes: [u8; 8], len: usize)
        requires room { length self.old + 8 ≤ 8192 }
        requires few { len ≤ 8 }
        ensures { self.new ≡ self.old ++ take len bytes }
    {
        let stored = in_a_register(bytes);
        self.bytes[self.len..self.len + 8].copy_from_slice(stored.as_slice());
        self.len += len;
    }

    /// Appends one byte.
    #[inline(always)]
    pub fn put_byte(&mut self, byte: u8)
        requires { length self.old < 8192 }
        ensures { self.new ≡ self.old ++ byte ∷ [] }
    {
        self.bytes[self.len] = byte;
        self.len += 1;
    }

    /// Appends any bytes.
    pub fn put_all(&mut self, bytes: &[u8])
        requires { length self.old + length bytes.now ≤ 8192 }
        ensures { self.new ≡ self.old ++ bytes.now }
    {
        let to = self.len + bytes.len();
        self.bytes[self.len..to].copy_from_slice(bytes);
        self.len = to;
    }

    /// Appends a row of two to eight short fields, joined by commas.
    #[tactic(auto, using(crate::proofs::Spelled::field_steps))]
    pub fn put_row(&mut self, fields: &[&[u8]])
        requires room { length self.old + 168 ≤ 8192 }
        requires several { 2 ≤ length fields.now }
        requires few { length fields.now ≤ 8 }
        requires short { AllByRecursion IsShort (map (λ field. field.now) fields.now) }
        ensures text { self.new ≡ self.old ++ row (map (λ field. field.now) fields.now) }
        ensures short { length self.new ≤ length self.old + 168 }
    {
        let last = fields.len() - 1;
        for i in 0..last {
            self.put_all(fields[i]);
            self.put_byte(b',');
        }
        self.put_all(fields[last]);
        self.put_byte(b'\n');
    }

    /// Appends a number in decimal.
    #[inline(always)]
    pub fn put_number(&mut self, n: u64)
        requires { length self.old + 24 ≤ 8192 }
        ensures value { self.new ≡ self.old ++ decimal n }
        ensures short { length self.new ≤ length self.old + 24 }
    {
        if n < EIGHT_DIGITS {
            return self.put_short(n);
        }
        self.put_front(n / EIGHT_DIGITS);
        self.put(decimal_digits(n % EIGHT_DIGITS), 8);
    }

    /// The same of at most sixteen digits.
    fn put_front(&mut self, n: u64)
        requires room { length self.old + 16 ≤ 8192 }
        requires short { n < 10000000000000000 }
        ensures value { self.new ≡ self.old ++ decimal n }
        ensures short { length self.new ≤ length self.old + 16 }
    {
        if n < EIGHT_DIGITS {
            return self.put_short(n);
        }
        self.put_short(n / EIGHT_DIGITS);
        self.put(decimal_digits(n % EIGHT_DIGITS), 8);
    }

    /// The same of at most eight digits.
    #[inline(always)]
    fn put_short(&mut self, n: u64)
        requires room { length self.old + 8 ≤ 8192 }
        requires short { n < 100000000 }
        ensures value { self.new ≡ self.old ++ decimal n }
        ensures short { length self.new ≤ length self.old + 8 }
    {
        let (scaled, len) = left_aligned(n);
        self.put(decimal_digits(scaled), len);
    }
}

/// The same bytes, put together in a register.
#[inline(always)]
fn in_a_register(bytes: [u8; 8]) -> [u8; 8]
    ensures { result ≡ bytes }
{
    u64::from_le_bytes(bytes).to_le_bytes()
}

/// Takes as many bytes as it has room for.
impl Write for Page {
    ghost contents = { λ page. Some page };

    fn write(&mut self, buf: &[u8]) -> io::Result<usize> {
        let count = self.room().min(buf.len());
        self.put_all(&buf[..count]);
        Ok(count)
    }

    fn flush(&mut self) -> io::Result<()> {
        Ok(())
    }
}
