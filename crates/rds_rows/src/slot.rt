//! A sheet for one part, which makers and writer exchange for their own.
ghost use Rattle.std.specs.Prelude.{◌≡◌, ℕ, [], List, true};
ghost use Rattle.rds_rows.specs.{Parts.IsNamed, Sheets.size_of, Sheets.text_of};

use crate::rows::{Rows, fill_part};
use crate::sheet::Sheet;
use std::alloc::{AllocError, Global};
use std::marker::{Brand, PhantomData};
use std::mem;

/// Which bytes each part is, and for how many rows of which length the sheets are. Nothing is known of a
/// value under a lock but its type, so the type names them, and each call of the rounds picks them.
pub(crate) trait PartSpec {
    ghost part: { ℕ → List ℕ };

    ghost size: { ℕ × ℕ };
}

impl PartSpec for Brand {
    ghost part = { λ k. [] };

    ghost size = { (0, 0) };
}

/// A sheet for the part of this number, which is on it if it is full.
#[derive(Drop)]
pub(crate) struct Slot<J: PartSpec> {
    sheet: Sheet,
    number: usize,
    is_full: bool,
    of: PhantomData<J>,
    ghost size: { size_of sheet ≡ J.size },
    ghost part: { is_full ≡ true → text_of sheet ≡ J.part number },
}

impl<J: PartSpec> Slot<J> {
    /// A slot with a blank sheet.
    pub(crate) fn new(alloc: Global, most: usize, longest: usize) -> Result<Slot<J>, AllocError>
        requires { J.size ≡ (most, longest) }
    {
        Ok(Slot {
            sheet: Sheet::new(alloc, most, longest)?,
            number: 0,
            is_full: false,
            of: PhantomData,
        })
    }

    /// Makes part `k` on the sheet.
    pub(crate) fn make<T: Rows>(&mut self, rows: &T, k: usize)
        requires { IsNamed (T.rows rows.now) (T.longest rows.now) J.size J.part }
        ensures { text_of self.new.sheet ≡ J.part k }
    {
        fill_part(rows, k, &mut self.sheet);
        self.number = k;
        self.is_full = true;
    }

    /// The text on the sheet.
    pub(crate) fn as_slice(&self) -> &[u8]
        ensures { result.now ≡ text_of self.now.sheet }
    {
        self.sheet.as_slice()
    }

    /// Takes a made part in exchange for what is here, if the slot is for that part and not full. If the slot is
    /// for a later part, that one is no longer wanted. Else the answer is false.
    pub(crate) fn put(&mut self, made: &mut Slot<J>) -> bool {
        if self.number > made.number {
            return true;
        }
        if self.is_full || self.number != made.number {
            return false;
        }
        mem::swap(self, made);
        true
    }

    /// Gives part `k` for another slot, if it is here, and is for part `next` then.
    pub(crate) fn take(&mut self, k: usize, next: usize, spare: &mut Slot<J>) -> bool
        ensures { result ≡ true → text_of spare.new.sheet ≡ J.part k }
    {
        if !self.is_full || self.number != k {
            return false;
        }
        mem::swap(self, spare);
        self.go_on_with(next);
        true
    }

    /// Is for this part from now on, which is not here yet.
    pub(crate) fn go_on_with(&mut self, number: usize) {
        self.is_full = false;
        self.number = number;
    }
}
