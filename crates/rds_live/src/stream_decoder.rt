//! The decoder of a stream.

ghost use Rattle.std.specs.Prelude.{◌≡◌, ◌≤◌, ◌<◌, ◌↔◌, ◌-◌, ◌+◌, ◌*◌, ◌/◌, ◌^◌, ◌++◌, ◌⊎◌, min, All, List, ℕ, [], length, take, vec_capacity, IfOk, IfErr, IsErrOf, IsOk, IsOkUnless, OnErr, OnOk, true};
ghost use Rattle.rds_stream.specs.Recording.{AreGaps, length_of};
ghost use Rattle.rds_sync.specs.{Advance.group_item, Counting.IsAtMost, Counting.plus, Lawful.IsLawful, Ranges.IsInRange, Step.run, Totals.totals_of};
ghost use Rattle.rds_live.specs.StreamDecoder.{HasHeard, IsStreamDecoder, Terms, by_rules, complete, last_bytes, live_of, live_with, most_counted, most_kept, report_at, report_of, signal_of};
ghost use Rattle.rds_live.specs.{Next.IsStart, Next.IsWithin, Next.completed, Next.group_next, Next.guessed, Next.items_next, Next.live_next, Places.place_of, Room.slots_of, Keeping.IsKept, Keeping.live_kept};

use crate::error::ResumeError;
use crate::gaps::may_have_gaps;
use crate::kept::{Kept, MOST_KEPT, Start, can_be_live};
use crate::laws::{ends_are_reports, next_is_heard, pieces_join, runs_move};
use crate::moved::{move_on, moved_back, moved_on};
use crate::part::moved_end;
use crate::room::{AT_ONCE, Room};
use rds_code::RdsError;
use rds_stream::{MOST_BITS, Recording, are_gaps};
use rds_sync::{Decoder, Group, Item, Rules, State, Totals, laws, run_totals};
use std::alloc::{AllocError, Global};
use std::marker::Model;

/// How many items a byte may complete: two per bit.
const ITEMS_A_BYTE: usize = 16;

/// Room for as many items as [`StreamDecoder::take`] completes at once, whatever it is handed.
pub const MOST_ITEMS: usize = AT_ONCE * ITEMS_A_BYTE;

/// A decoder of a stream of bits, which takes them as they come: this project's rule.
///
/// Contracts see its knowledge of the stream: its rules and gaps, the last bytes, how many bits there were,
/// and the state after them.
#[derive(Drop)]
pub struct StreamDecoder<'r> {
    rules: &'r Rules,
    gaps: &'r [(u64, u64)],
    /// The last bytes, and room for those that come next.
    room: Room,
    place: u64,
    state: State,
    totals: Totals,
}

impl<'r> Model for StreamDecoder<'r> {
    ghost use Rattle.std.specs.Prelude.{◌≤◌, length, min};
    ghost use Rattle.rds_live.specs.{StreamDecoder.LiveOf, StreamDecoder.IsStreamDecoder, Room.slots_of};

    ghost Value = { LiveOf };

    ghost view = { λ l. record {
      terms = record { rules = l.rules.now; gaps = l.gaps.now };
      tail = l.room.bytes;
      place = l.place;
      state = l.state;
      totals = l.totals;
    } };

    ghost invariant = { λ l. IsStreamDecoder (record {
      terms = record { rules = l.rules.now; gaps = l.gaps.now };
      tail = l.room.bytes;
      place = l.place;
      state = l.state;
      totals = l.totals;
    })
        × (min (length l.gaps.now) 7920 ≤ slots_of l.room) };
}

/// The result of the end of a stream.
#[derive(Clone, Copy)]
pub struct StreamEnd {
    /// The group in progress, as far as it was read.
    pub group: Option<Group>,
    /// The totals of the report: of all items, and of this group.
    pub totals: Totals,
}

impl<'r> StreamDecoder<'r> {
    /// A decoder that has heard nothing yet, of a stream without gaps.
    ///
    /// Fails only if memory is refused: it takes all that it will need.
    pub fn new(alloc: Global, rules: &'r Rules) -> Result<StreamDecoder<'r>, RdsError>
        ensures live { IfOk result (λ live. live ≡ live_of (by_rules rules.now) []) }
        ensures only_memory { IsOkUnless result RdsError.OutOfMemory }
    {
        StreamDecoder::with_gaps(alloc, rules, &[])
    }

    /// A decoder that has heard nothing yet, of a stream with these gaps: each is the places from its first number to before
    /// its second, by which the bits that will come there mean nothing.
    ///
    /// Refuses gaps that no recording may have: one that has no place or ends after 2^36 bits, or begins
    /// before the end of the one before it. Then it fails only if memory is refused, of which it takes all
    /// that it will need. A gap past the end of the stream, once that is known, means nothing.
    pub fn with_gaps(
        alloc: Global,
        rules: &'r Rules,
        gaps: &'r [(u64, u64)],
    ) -> Result<StreamDecoder<'r>, RdsError>
        ensures live { IfOk result (λ live. live ≡ live_of (record { rules = rules.now; gaps = gaps.now }) []) }
        ensures taken { IsOk result → AreGaps (2 ^ 36) gaps.now }
        ensures bad_gaps { IsErrOf result RdsError.BadGaps ↔ (AreGaps (2 ^ 36) gaps.now → ⊥) }
        ensures only { IfErr result (λ e. (e ≡ RdsError.BadGaps) ⊎ (e ≡ RdsError.OutOfMemory)) }
    {
        if !may_have_gaps(gaps) {
            return Err(RdsError::BadGaps);
        }
        let (search, none) = (State::Searching, Totals::NONE);
        Ok(StreamDecoder::of(alloc, rules, gaps, &[], 0, search, none)?)
    }

    /// The decoder that has these gaps, and of the bits before `place` this [`tail`](StreamDecoder::tail), [`state`](StreamDecoder::state)
    /// and these [`totals`](StreamDecoder::totals), as they were asked of one that stopped there: it goes on as that one would. So a
    /// decoder can be kept as numbers between two chunks.
    ///
    /// `tail` is the last 30 bytes of the stream, or all of them if there are fewer; `place` is how many bits
    /// there were.
    ///
    /// Refuses gaps as [`with_gaps`](StreamDecoder::with_gaps) does, then numbers that no decoder by these rules has:
    /// a place inside a byte or past 2^36, a tail of another length, a state that is not lawful at the place,
    /// or a count of the totals above 2^11 per bit. Then it fails only if memory is refused. Numbers that
    /// pass may still be of no stream: such a decoder continues from them all the same. It takes memory for a
    /// copy of the tail and of the gaps in it.
    pub fn resume(
        alloc: Global,
        rules: &'r Rules,
        gaps: &'r [(u64, u64)],
        tail: &[u8],
        place: u64,
        state: State,
        totals: Totals,
    ) -> Result<StreamDecoder<'r>, ResumeError>
        ensures live { IfOk result (λ live. live ≡ live_with rules.now gaps.now tail.now place state totals) }
        ensures taken { IfOk result (λ live. IsStreamDecoder live) }
        ensures bad_gaps { IsErrOf result ResumeError.BadGaps ↔ (AreGaps (2 ^ 36) gaps.now → ⊥) }
        ensures unlawful { IsErrOf result ResumeError.UnlawfulState ↔ (AreGaps (2 ^ 36) gaps.now
            × (IsStreamDecoder (live_with rules.now gaps.now tail.now place state totals) → ⊥)) }
        ensures memory_last { IsErrOf result ResumeError.OutOfMemory
            → IsStreamDecoder (live_with rules.now gaps.now tail.now place state totals) }
    {
        if !may_have_gaps(gaps) {
            return Err(ResumeError::BadGaps);
        }
        if !can_be_live(rules, tail, place, state, &totals) {
            return Err(ResumeError::UnlawfulState);
        }
        match StreamDecoder::of(alloc, rules, gaps, tail, place, state, totals) {
            Ok(live) => Ok(live),
            Err(_) => Err(ResumeError::OutOfMemory),
        }
    }

    /// The decoder that has these numbers.
    fn of(
        alloc: Global,
        rules: &'r Rules,
        gaps: &'r [(u64, u64)],
        tail: &[u8],
        place: u64,
        state: State,
        totals: Totals,
    ) -> Result<StreamDecoder<'r>, AllocError>
        requires { IsStreamDecoder (live_with rules.now gaps.now tail.now place state totals) }
        ensures { IfOk result (λ live. live ≡ live_with rules.now gaps.now tail.now place state totals) }
    {
        let mut room = Room::new(alloc, gaps.len())?;
        room.push(tail);
        Ok(StreamDecoder {
            rules,
            gaps,
            room,
            place,
            state,
            totals,
        })
    }

    /// The last bytes that were heard: 30, or all of them if there are fewer. With the place, the state and
    /// the totals this is all that a decoder knows of a stream, from which [`resume`](StreamDecoder::resume) goes on.
    pub fn tail(&self) -> &[u8]
        ensures value { result.now ≡ self.now.tail }
        ensures count { length result.now ≡ min most_kept (self.now.place / 8) }
        ensures live { IsStreamDecoder self.now }
    {
        self.room.bytes()
    }

    /// How many bits were heard, which is the place of the next.
    pub fn place(&self) -> u64
        ensures value { result ≡ self.now.place }
        ensures limit { result ≤ 2 ^ 36 }
    {
        self.place
    }

    /// The state after all that was heard.
    pub fn state(&self) -> State
        ensures value { result ≡ self.now.state }
        ensures lawful { IsLawful self.now.terms.rules self.now.place result }
    {
        self.state
    }

    /// The totals of the items that are complete.
    pub fn totals(&self) -> Totals
        ensures { result ≡ self.now.totals }
    {
        self.totals
    }

    /// Whether the stream may end `bits` bits later, that is, whether no gap ends after that.
    pub fn may_end_after(&self, bits: u64) -> bool
        requires { self.now.place + bits ≤ 2 ^ 36 }
        ensures { (result ≡ true) ↔ AreGaps (self.now.place + bits) self.now.terms.gaps }
    {
        are_gaps(self.gaps, self.place + bits)
    }

    /// Takes the next bytes of the stream, the highest bit of a byte first, as many as it can at once, and gives the items that
    /// they complete in place of those of `items`. Answers how many bytes it took: the others are to be offered again.
    ///
    /// At once it takes 960 bytes at most, and only as many as `items` has room for by the most that these may complete, 16 a
    /// byte: [`MOST_ITEMS`] is room enough for all.
    ///
    /// Refuses more than 2^36 bits in all, with those that it would not take at once; refused, it has heard nothing.
    ///
    /// Its cost: the bytes are read once, as by [`Decoder`], after a copy of those that are kept. It takes no
    /// memory.
    pub fn take(&mut self, bytes: &[u8], items: &mut Vec<Item>) -> Result<usize, RdsError>
        ensures heard { IfOk result (λ count. (before : List ℕ) → HasHeard self.old before
            → HasHeard self.new (before ++ take count bytes.now)) }
        ensures terms { OnOk result (self.new.terms ≡ self.old.terms) }
        ensures place { IfOk result (λ count. self.new.place ≡ self.old.place + 8 * count) }
        ensures items { IfOk result (λ count. (before : List ℕ) → HasHeard self.old before
            → complete self.old.terms (before ++ take count bytes.now)
            ≡ complete self.old.terms before ++ items.new.items) }
        ensures count { IfOk result (λ count. count
            ≡ min (length bytes.now) (min 960 (vec_capacity items.old / 16))) }
        ensures room { vec_capacity items.new ≡ vec_capacity items.old }
        ensures refused { OnErr result ((self.new ≡ self.old) × (items.new ≡ items.old)) }
        ensures too_long { IsErrOf result RdsError.TooLong ↔ (2 ^ 36 < self.old.place + 8 * length bytes.now) }

        // The same of numbers that are lawful and of no stream.
        ensures next { IfOk result (λ count. self.new ≡ live_next self.old (take count bytes.now)) }
        ensures completed { IfOk result (λ count. items.new.items ≡ completed self.old (take count bytes.now)) }
        ensures small { IfOk result (λ count. IsWithin (8 * count) self.old.totals self.new.totals) }
        ensures only { IsOkUnless result RdsError.TooLong }
    {
        if bytes.len() as u64 > (MOST_BITS - self.place) / 8 {
            return Err(RdsError::TooLong);
        }
        self.is_known();
        next_is_heard();
        let count = bytes
            .len()
            .min(AT_ONCE.min(items.capacity() / ITEMS_A_BYTE));
        self.take_part(&bytes[..count], items);
        Ok(count)
    }

    /// Takes all of these bytes, and gives the items that they complete in a list of its own.
    ///
    /// Fails for more than 2^36 bits in all, and if memory is refused; it has then heard nothing.
    ///
    /// Its cost: that of [`take`](StreamDecoder::take) over and over, and memory for the list and for the items of 960 bytes.
    pub fn take_all(&mut self, alloc: Global, bytes: &[u8]) -> Result<Vec<Item>, RdsError>
        ensures heard { OnOk result ((before : List ℕ) → HasHeard self.old before
            → HasHeard self.new (before ++ bytes.now)) }
        ensures terms { self.new.terms ≡ self.old.terms }
        ensures items { IfOk result (λ items. (before : List ℕ) → HasHeard self.old before
            → complete self.old.terms (before ++ bytes.now) ≡ complete self.old.terms before ++ items.items) }
        ensures fits { OnOk result (self.old.place + 8 * length bytes.now ≤ 2 ^ 36) }
        ensures refused { OnErr result (self.new ≡ self.old) }
        ensures too_long { IsErrOf result RdsError.TooLong ↔ (2 ^ 36 < self.old.place + 8 * length bytes.now) }

        // The same of numbers that are lawful and of no stream.
        ensures next { OnOk result (self.new ≡ live_next self.old bytes.now) }
        ensures completed { IfOk result (λ items. items.items ≡ completed self.old bytes.now) }
        ensures only { IfErr result (λ e. (e ≡ RdsError.TooLong) ⊎ (e ≡ RdsError.OutOfMemory)) }
    {
        if bytes.len() as u64 > (MOST_BITS - self.place) / 8 {
            return Err(RdsError::TooLong);
        }
        self.is_known();
        next_is_heard();
        let before = self.kept_numbers();
        match decode_bytes(alloc, self, bytes) {
            Ok(items) => Ok(items),
            Err(_) => {
                self.go_back(&before);
                Err(RdsError::OutOfMemory)
            }
        }
    }

    /// Takes all of these bytes and only counts the items that they complete. Takes no memory.
    pub(crate) fn count(&mut self, bytes: &[u8])
        requires fits { self.old.place + 8 * length bytes.now ≤ 2 ^ 36 }
        ensures next { self.new ≡ live_next self.old bytes.now }
        ensures small { IsWithin (8 * length bytes.now) self.old.totals self.new.totals }
    {
        pieces_join();
        let mut rest = bytes;
        while !rest.is_empty() {
            let (part, others) = rest.split_at(rest.len().min(AT_ONCE));
            self.is_known();
            self.count_part(part);
            rest = others;
        }
        self.is_still();
    }

    /// Takes as many of these bytes as are decoded at once, and gives the items that they complete in place of those of `items`.
    pub(crate) fn take_part(&mut self, bytes: &[u8], items: &mut Vec<Item>)
        requires few { length bytes.now ≤ 960 }
        requires room { 16 * length bytes.now ≤ vec_capacity items.old }
        requires fits { self.old.place + 8 * length bytes.now ≤ 2 ^ 36 }
        ensures next { self.new ≡ live_next self.old bytes.now }
        ensures completed { items.new.items ≡ completed self.old bytes.now }
        ensures small { IsWithin (8 * length bytes.now) self.old.totals self.new.totals }
        ensures room { vec_capacity items.new ≡ vec_capacity items.old }
    {
        laws::totals_join();
        runs_move();
        let start = self.next_start();
        let to = start.from + 8 * bytes.len() as u64;
        self.room.push(bytes);
        self.room.listen(self.gaps, start.before);
        let part = self.room.recording();
        let end = fill_from(part, self.rules, start.state, start.from, to, items);
        self.totals = self.totals.plus(Totals::of(items));
        move_on(items.as_mut_slice(), start.before);
        self.room.keep_last();
        self.place = start.before + to;
        self.state = moved_on(end, start.before);
    }

    /// The same, but only counts the items.
    fn count_part(&mut self, bytes: &[u8])
        requires few { length bytes.now ≤ 960 }
        requires fits { self.old.place + 8 * length bytes.now ≤ 2 ^ 36 }
        ensures next { self.new ≡ live_next self.old bytes.now }
        ensures small { IsWithin (8 * length bytes.now) self.old.totals self.new.totals }
    {
        laws::totals_join();
        runs_move();
        let start = self.next_start();
        let to = start.from + 8 * bytes.len() as u64;
        self.room.push(bytes);
        self.room.listen(self.gaps, start.before);
        let part = self.room.recording();
        let (end, totals) = run_totals(part, self.rules, start.state, start.from, to);
        self.totals = self.totals.plus(totals);
        self.room.keep_last();
        self.place = start.before + to;
        self.state = moved_on(end, start.before);
    }

    /// Where the run over the next bytes begins, by the places of the bytes that are kept.
    #[tactic(auto, using(std::proofs::lemmas::Grind::common_steps, crate::proofs::Following::state_in_part))]
    fn next_start(&self) -> Start
        ensures { IsStart self.now result }
    {
        prove!(1 <= self.rules.reach());
        let from = 8 * self.room.bytes().len() as u64;
        let before = self.place - from;
        Start {
            before,
            from,
            state: moved_back(self.state, before),
        }
    }

    /// A decoder that searched after the bytes of `front`, and then heard the seam, in which it has counted nothing: its state is a
    /// guess. Takes memory for its room.
    #[tactic(auto, using(std::proofs::lemmas::Grind::common_steps, crate::proofs::Sewing::end_kept, crate::proofs::Sewing::guess_is))]
    pub(crate) fn guess_after(
        &self,
        alloc: Global,
        front: &[u8],
        seam: &[u8],
    ) -> Result<StreamDecoder<'r>, AllocError>
        requires long { 30 ≤ length front.now }
        requires fits { self.now.place + 8 * length front.now + 8 * length seam.now ≤ 2 ^ 36 }
        ensures { IfOk result (λ guess. guess
            ≡ guessed (live_next (live_next self.now front.now) seam.now) guess.state) }
    {
        let tail = &front[front.len() - MOST_KEPT..];
        let place = self.place + 8 * front.len() as u64;
        let (search, none) = (State::Searching, Totals::NONE);
        let mut guess = StreamDecoder::of(alloc, self.rules, self.gaps, tail, place, search, none)?;
        guess.count(seam);
        guess.totals = Totals::NONE;
        Ok(guess)
    }

    /// Goes over the seam, and takes over the count of the rest from a guess, if that had this state after the seam. Else goes over
    /// the rest itself.
    pub(crate) fn sew(&mut self, seam: &[u8], rest: &[u8], mark: State, guess: StreamDecoder<'r>)
        requires fits { self.old.place + 8 * length seam.now + 8 * length rest.now ≤ 2 ^ 36 }
        requires guess { guess ≡ live_next (guessed (live_next self.old seam.now) mark) rest.now }
        requires few { IsAtMost (most_counted (8 * length rest.now)) guess.totals }
        ensures next { self.new ≡ live_next (live_next self.old seam.now) rest.now }
        ensures small { IsWithin (8 * length seam.now + 8 * length rest.now) self.old.totals self.new.totals }
    {
        self.count(seam);
        if self.is_in(mark) {
            self.take_over(rest, guess);
        } else {
            self.count(rest);
        }
    }

    /// Whether it is in this state.
    pub(crate) fn is_in(&self, mark: State) -> bool
        ensures { result ≡ true → mark ≡ self.now.state }
    {
        self.state == mark
    }

    /// Takes over the count of these bytes from a guess that began in the same state.
    #[tactic(auto, using(std::proofs::lemmas::Grind::common_steps, crate::proofs::Sewing::sewn))]
    pub(crate) fn take_over(&mut self, bytes: &[u8], guess: StreamDecoder<'r>)
        requires guess { guess ≡ live_next (guessed self.old self.old.state) bytes.now }
        requires few { IsAtMost (most_counted (8 * length bytes.now)) guess.totals }
        ensures next { self.new ≡ live_next self.old bytes.now }
        ensures small { IsWithin (8 * length bytes.now) self.old.totals self.new.totals }
    {
        let _ = bytes;
        self.totals = self.totals.plus(guess.totals);
        self.room = guess.room;
        self.place = guess.place;
        self.state = guess.state;
    }

    /// Its numbers are lawful, and its rules in their range.
    pub(crate) fn is_known(&self)
        ensures live { IsStreamDecoder self.now }
        ensures range { IsInRange self.now.terms.rules }
    {
        prove!(1 <= self.rules.reach());
    }

    /// No byte changes nothing.
    #[tactic(auto, using(std::proofs::lemmas::Grind::common_steps, crate::proofs::Pieces::none_next))]
    pub(crate) fn is_still(&self)
        ensures known { live_next self.now [] ≡ self.now }
        ensures none { completed self.now [] ≡ [] }
    {
        let bursts: &[u64] = &self.totals.bursts;
        prove!(bursts.len() == 5);
    }

    /// Its numbers, without its terms.
    fn kept_numbers(&self) -> Kept
        ensures { IsKept result self.now }
    {
        let tail = self.room.bytes();
        let mut bytes = [0; MOST_KEPT];
        bytes[..tail.len()].copy_from_slice(tail);
        Kept {
            tail: bytes,
            count: tail.len(),
            place: self.place,
            state: self.state,
            totals: self.totals,
        }
    }

    /// Restores these numbers.
    fn go_back(&mut self, kept: &Kept)
        requires lawful { IsStreamDecoder (live_kept self.old.terms kept.now) }
        requires within { kept.now.count ≤ 30 }
        ensures { self.new ≡ live_kept self.old.terms kept.now }
    {
        self.room.clear();
        self.room.push(&kept.tail[..kept.count]);
        self.place = kept.place;
        self.state = kept.state;
        self.totals = kept.totals;
    }

    /// Ends the stream here: closes the group in progress, as far as it was read. Takes no memory.
    pub fn finish(self) -> StreamEnd
        ensures group { (bytes : List ℕ) → HasHeard self.entry bytes
            → complete self.entry.terms bytes ++ group_item result.group ≡ report_of self.entry.terms bytes }
        ensures totals { (bytes : List ℕ) → HasHeard self.entry bytes
            → result.totals ≡ totals_of (report_of self.entry.terms bytes) }

        // The same of numbers that are lawful and of no stream.
        ensures closed { group_item result.group ≡ group_next self.entry [] 0 }
        ensures counted { result.totals ≡ plus self.entry.totals (totals_of (group_next self.entry [] 0)) }
    {
        laws::totals_join();
        ends_are_reports();
        let start = self.next_start();
        let StreamDecoder {
            rules,
            gaps,
            room,
            place: _,
            state: _,
            totals,
        } = self;
        let part = room.into_recording(gaps, start.before, start.from);
        let group = moved_end(&part, rules, start.state, start.before);
        stream_end_of(totals, group)
    }

    /// Ends the stream with the first `bits` bits of these bytes, at most 7,680: gives the items that they complete in place of
    /// those of `items`, which has room for two a bit, and then closes the group in progress. So a stream may end inside a byte.
    ///
    /// Refuses more than 2^36 bits in all, and takes no memory.
    pub fn finish_with(
        self,
        bytes: &[u8],
        bits: u64,
        items: &mut Vec<Item>,
    ) -> Result<StreamEnd, RdsError>
        requires held { bits ≤ 8 * length bytes.now }
        requires few { bits ≤ 7680 }
        requires room { 2 * bits ≤ vec_capacity items.old }
        ensures items { IfOk result (λ end. (before : List ℕ) → HasHeard self.entry before
            → complete self.entry.terms before ++ items.new.items ++ group_item end.group
            ≡ report_at self.entry.terms (before ++ bytes.now) (8 * length before + bits)) }
        ensures totals { IfOk result (λ end. (before : List ℕ) → HasHeard self.entry before
            → end.totals ≡ totals_of (report_at self.entry.terms (before ++ bytes.now)
            (8 * length before + bits))) }
        ensures room { vec_capacity items.new ≡ vec_capacity items.old }
        ensures refused { OnErr result (items.new ≡ items.old) }
        ensures too_long { IsErrOf result RdsError.TooLong ↔ (2 ^ 36 < self.entry.place + bits) }
        ensures only { IsOkUnless result RdsError.TooLong }

        // The same of numbers that are lawful and of no stream.
        ensures completed { OnOk result (items.new.items ≡ items_next self.entry bytes.now bits) }
        ensures closed { IfOk result (λ end. group_item end.group ≡ group_next self.entry bytes.now bits) }
        ensures counted { IfOk result (λ end. end.totals
            ≡ plus (plus self.entry.totals (totals_of (items_next self.entry bytes.now bits)))
            (totals_of (group_next self.entry bytes.now bits))) }
    {
        if bits > MOST_BITS - self.place {
            return Err(RdsError::TooLong);
        }
        laws::totals_join();
        ends_are_reports();
        let start = self.next_start();
        let StreamDecoder {
            rules,
            gaps,
            room,
            place: _,
            state: _,
            totals,
        } = self;
        let mut room = room;
        let to = start.from + bits;
        room.push(&bytes[..bits.div_ceil(8) as usize]);
        let part = room.into_recording(gaps, start.before, to);
        let end = fill_from(&part, rules, start.state, start.from, to, items);
        let totals = totals.plus(Totals::of(items));
        move_on(items.as_mut_slice(), start.before);
        let group = moved_end(&part, rules, end, start.before);
        Ok(stream_end_of(totals, group))
    }
}

/// Has the decoder take all of these bytes, and gives the items that they complete.
fn decode_bytes(
    alloc: Global,
    live: &mut StreamDecoder<'_>,
    bytes: &[u8],
) -> Result<Vec<Item>, AllocError>
    requires fits { live.old.place + 8 * length bytes.now ≤ 2 ^ 36 }
    ensures terms { live.new.terms ≡ live.old.terms }
    ensures next { OnOk result (live.new ≡ live_next live.old bytes.now) }
    ensures completed { IfOk result (λ items. items.items ≡ completed live.old bytes.now) }
{
    let mut some = Vec::with_capacity(alloc, ITEMS_A_BYTE * bytes.len().min(AT_ONCE))?;
    let mut items = Vec::new(alloc);
    pieces_join();
    let mut rest = bytes;
    while !rest.is_empty() {
        let (part, others) = rest.split_at(rest.len().min(AT_ONCE));
        live.is_known();
        live.take_part(part, &mut some);
        items.extend_from_slice(&some)?;
        rest = others;
    }
    live.is_still();
    Ok(items)
}

/// Gives the items of the run from `state` over the bits at `from` to `to` - 1, in place of those of `items`, which has room
/// for two a bit. Answers the state at its end.
pub(crate) fn fill_from(
    part: &Recording,
    rules: &Rules,
    state: State,
    from: u64,
    to: u64,
    items: &mut Vec<Item>,
) -> State
    requires lawful { IsLawful rules.now from state }
    requires order { from ≤ to }
    requires within { to ≤ length_of part.now }
    requires room { 2 * (to - from) ≤ vec_capacity items.old }
    ensures state { result ≡ (run part.now rules.now state from (to - from)).0 }
    ensures items { items.new.items ≡ (run part.now rules.now state from (to - from)).1 }
    ensures lawful { IsLawful rules.now to result }
    ensures early { All (λ item. place_of item < 2 ^ 36) items.new.items }
    ensures few { length items.new.items ≤ 2 * (to - from) }
    ensures room { vec_capacity items.new ≡ vec_capacity items.old }
{
    prove!(1 <= rules.reach());
    prove!(to <= part.len());
    laws::runs_are_lawful();
    laws::runs_give_few_items();
    let mut decoder = Decoder::new(part, rules, state, from, to);
    decoder.fill(items);
    decoder.end_state()
}

/// The result of the end of a stream, whose complete items have these totals.
fn stream_end_of(totals: Totals, group: Option<Group>) -> StreamEnd
    requires { IsAtMost (2 ^ 47) totals }
    ensures group { result.group ≡ group }
    ensures totals { result.totals ≡ plus totals (totals_of (group_item group)) }
{
    let closed = &group;
    let totals = totals.plus(Totals::of_end(*closed));
    StreamEnd { group, totals }
}
