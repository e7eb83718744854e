//! Where the makers of parts and their writer meet.
ghost use Rattle.std.specs.Prelude.{◌≡◌, true};
ghost use Rattle.rds_rows.specs.Sheets.{text_of};

use crate::slot::{PartSpec, Slot};
use std::sync::Mutex;
use std::thread::yield_now;

/// Where parts change hands. Of n seats, seat i hands over the parts k with k mod n = i. Nobody waits here:
/// a call looks some times, lets other threads run in between, and then goes on without.
#[derive(Drop)]
pub(crate) struct Handoff<J: PartSpec> {
    slot: Mutex<Slot<J>>,
}

impl<J: PartSpec> Handoff<J> {
    /// A seat with this slot.
    pub(crate) fn new(slot: Slot<J>) -> Handoff<J> {
        Handoff {
            slot: Mutex::new(slot),
        }
    }

    /// Hands over a made part in exchange for a blank sheet. Answers whether there was one in time.
    pub(crate) fn put(&self, made: &mut Slot<J>, looks: usize) -> bool {
        for _ in 0..looks {
            let is_put = match self.slot.try_lock() {
                Some(mut slot) => slot.put(made),
                None => false,
            };
            if is_put {
                return true;
            }
            yield_now();
        }
        false
    }

    /// Takes over part `k` in exchange for a blank sheet. Answers whether it was there in time.
    pub(crate) fn take(&self, k: usize, next: usize, spare: &mut Slot<J>, looks: usize) -> bool
        ensures { result ≡ true → text_of spare.new.sheet ≡ J.part k }
    {
        for _ in 0..looks {
            let is_taken = match self.slot.try_lock() {
                Some(mut slot) => slot.take(k, next, spare),
                None => false,
            };
            if is_taken {
                return true;
            }
            yield_now();
        }
        false
    }

    /// The next part here has this number.
    pub(crate) fn go_on_with(&self, number: usize) {
        if let Some(mut slot) = self.slot.try_lock() {
            slot.go_on_with(number);
        }
    }
}
