//! The items of a run over a recording, one after the other.

ghost use Rattle.std.specs.{Prelude.◌≡◌, Prelude.◌≤◌, Prelude.◌<◌, Prelude.◌+◌, Prelude.◌-◌, Prelude.◌++◌, Prelude.◌⊎◌, Prelude.[], Prelude.◌∷◌, Prelude.false, Prelude.length, Prelude.true, Prelude.vec_capacity, Iterator.item_count};
ghost use Rattle.rds_stream.specs.Recording.{length_of};
ghost use Rattle.rds_sync.specs.{Decoding.decoder_of, Decoding.GivesNext, Lawful.IsLawful};

use crate::item::Item;
use crate::push::push_one;
use crate::report::run_totals;
use crate::rules::Rules;
use crate::state::State;
use crate::stretches::stretch;
use crate::whole_groups::push_whole_groups;
use rds_stream::{FIRST_WINDOW, Reader, Recording};
use std::iter::FusedIterator;
use std::marker::Model;

/// The items of a run over a range of a recording, in order, and the state at its end. Runs are this project's
/// rule, after EN 50067:1998, annex C.
///
/// It reads no further than it is asked for, and takes no memory. Contracts see the items that are still to
/// come, and the state that the run ends in.
///
/// Its cost: a search covers 64 places at once, and looks up to `reach` windows back from each valid one. A
/// lock reads a window every 26 bits, and those of a group again if the run continues inside it or it loses
/// the lock.
#[derive(Drop)]
pub struct Decoder<'a> {
    reader: Reader<'a>,
    rules: &'a Rules,
    place: u64,
    state: State,
    to: u64,
    ready: Option<Item>,
}

impl<'a> Model for Decoder<'a> {
    ghost use Rattle.std.specs.Prelude.{◌≤◌, ◌-◌, ◌∷◌, ◌++◌, []};
    ghost use Rattle.rds_stream.specs.Recording.{length_of};
    ghost use Rattle.rds_sync.specs.{Advance.items_in, Decoding.DecoderOf, Lawful.IsLawful, Step.run};

    ghost Value = { DecoderOf };

    ghost view = { λ d. record {
      items = items_in (d.ready ∷ []) ++ (run d.reader d.rules.now d.state d.place (d.to - d.place)).1;
      end = (run d.reader d.rules.now d.state d.place (d.to - d.place)).0;
    } };

    ghost invariant = { λ d. IsLawful d.rules.now d.place d.state × (d.place ≤ d.to)
        × (d.to ≤ length_of d.reader) };
}

impl<'a> Decoder<'a> {
    /// The items of the run from `state` over the bits at `from` to `to` - 1. Windows may begin before `from`. The item
    /// of the recording's end is not among them: see [`finish`](crate::finish).
    pub fn new(
        rec: &'a Recording,
        rules: &'a Rules,
        state: State,
        from: u64,
        to: u64,
    ) -> Decoder<'a>
        requires lawful { IsLawful rules.now from state }
        requires order { from ≤ to }
        requires within { to ≤ length_of rec.now }
        ensures { result ≡ decoder_of rec.now rules.now state from to }
    {
        Decoder {
            reader: Reader::new(rec),
            rules,
            place: from,
            state,
            to,
            ready: None,
        }
    }

    /// Only this item.
    pub(crate) fn only(rec: &'a Recording, rules: &'a Rules, item: Item) -> Decoder<'a>
        ensures { result.items ≡ item ∷ [] }
    {
        Decoder {
            ready: Some(item),
            ..Decoder::new(rec, rules, State::Searching, 0, 0)
        }
    }

    /// Takes the items that come next in place of those of `part`: as many as there is room for in it, or all that are
    /// left. It takes no memory.
    pub fn fill(&mut self, part: &mut Vec<Item>)
        ensures items { self.old.items ≡ part.new.items ++ self.new.items }
        ensures full { (self.new.items ≡ []) ⊎ (length part.new.items ≡ vec_capacity part.new) }
        ensures room { vec_capacity part.new ≡ vec_capacity part.old }
        ensures end { self.new.end ≡ self.old.end }
    {
        part.clear();
        self.push_until(part, part.capacity());
    }

    /// Appends the items that come next, until there are `most` or none is left.
    pub(crate) fn push_until(&mut self, part: &mut Vec<Item>, most: usize)
        requires order { length part.old.items ≤ most }
        requires room { most ≤ vec_capacity part.old }
        ensures items { part.old.items ++ self.old.items ≡ part.new.items ++ self.new.items }
        ensures full { (self.new.items ≡ []) ⊎ (length part.new.items ≡ most) }
        ensures most { length part.new.items ≤ most }
        ensures room { vec_capacity part.new ≡ vec_capacity part.old }
        ensures end { self.new.end ≡ self.old.end }
    {
        while part.len() < most {
            if self.push_groups(part, most) {
                continue;
            }
            if !self.push_next(part) {
                return;
            }
        }
    }

    /// Appends the whole groups that come next, until there are `most` items, and tells whether there were any.
    #[inline(always)]
    #[tactic(auto, using(crate::proofs::Lemmas::push_groups))]
    fn push_groups(&mut self, part: &mut Vec<Item>, most: usize) -> bool
        requires order { length part.old.items ≤ most }
        requires room { most ≤ vec_capacity part.old }
        ensures items { part.old.items ++ self.old.items ≡ part.new.items ++ self.new.items }
        ensures more { result ≡ true → length part.old.items < length part.new.items }
        ensures none { result ≡ false → part.new.items ≡ part.old.items }
        ensures most { length part.new.items ≤ most }
        ensures room { vec_capacity part.new ≡ vec_capacity part.old }
        ensures end { self.new.end ≡ self.old.end }
    {
        prove!(self.to <= self.reader.recording().len());
        match (self.ready, self.state) {
            (None, State::Locked(lock)) if lock.begins_group_at(self.place) => {
                let next = push_whole_groups(
                    &mut self.reader,
                    self.rules,
                    lock,
                    self.to,
                    part,
                    most,
                );
                if next.due == lock.due {
                    return false;
                }
                self.place = next.due - FIRST_WINDOW;
                self.state = State::Locked(next);
                true
            }
            _ => false,
        }
    }

    /// Appends the next item, and tells whether there was one.
    fn push_next(&mut self, part: &mut Vec<Item>) -> bool
        requires room { length part.old.items < vec_capacity part.old }
        ensures items { part.old.items ++ self.old.items ≡ part.new.items ++ self.new.items }
        ensures one { length part.new.items ≤ length part.old.items + 1 }
        ensures more { result ≡ true → length part.old.items < length part.new.items }
        ensures done { result ≡ false → self.new.items ≡ [] }
        ensures room { vec_capacity part.new ≡ vec_capacity part.old }
        ensures end { self.new.end ≡ self.old.end }
    {
        match self.next() {
            Some(item) => {
                push_one(part, &item);
                true
            }
            None => false,
        }
    }

    /// The state after the last bit of the range. Items that were not asked for are passed over.
    pub fn end_state(self) -> State
        ensures { result ≡ self.entry.end }
    {
        let rec = self.reader.recording();
        let (end, _totals) = run_totals(rec, self.rules, self.state, self.place, self.to);
        end
    }
}

impl<'a> Iterator for Decoder<'a> {
    type Item = Item;

    ghost next_gives = { GivesNext };

    ghost remaining = { item_count (λ d. d.items) };

    fn next(&mut self) -> Option<Item> {
        if let Some(item) = self.ready {
            self.ready = None;
            return Some(item);
        }
        if self.place == self.to {
            return None;
        }
        let step = stretch(
            &mut self.reader,
            self.rules,
            self.state,
            self.place,
            self.to,
        );
        self.place = step.place;
        self.state = step.state;
        let [first, second] = step.items;
        match first {
            Some(item) => {
                self.ready = second;
                Some(item)
            }
            None => second,
        }
    }
}

impl<'a> FusedIterator for Decoder<'a> {}
