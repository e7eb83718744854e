//! A run that goes on, and keeps the totals and the spans of its items.

ghost use Rattle.std.specs.Prelude.{◌≡◌, ◌≤◌, ◌<◌, ◌+◌, ◌-◌, ◌*◌, ◌^◌, IfOk};
ghost use Rattle.rds_stream.specs.Recording.{length_of};
ghost use Rattle.rds_sync.specs.{Counting.IsAtMost, Decoding.listed, Hop.IsHop, Inside.Counts.joined, Lawful.IsLawful, Tally.gone_on, Tally.tally_at, Totals.totals_of, declared.state.State.TheVariants.Searching};

use crate::count_run::count_stretch;
use crate::counts::Counts;
use crate::items::{Items, SPAN_ITEMS, SPAN_PLACES, Spans};
use crate::report::Report;
use crate::rules::Rules;
use crate::state::State;
use crate::tape_run::hop;
use crate::totals::Totals;
use rds_stream::{Reader, Recording, Tape};
use std::alloc::{AllocError, Global};
use std::marker::Model;
use std::snapshot::Snapshot;

/// How many items are counted at most before they are added to the totals.
pub(crate) const MOST_COUNTED: u64 = 3000;

/// A run over a recording that continues part by part: where it is, and its items. It makes none of its
/// items: it counts them, and keeps the spans that give them, of some hundred items each unless it was told
/// otherwise.
#[derive(Drop)]
pub struct Tally {
    items: Items,
    start_place: u64,
    start_state: State,
    place: u64,
    state: State,
    totals: Totals,
    added: u64,
    counts: Counts,
}

impl Model for Tally {
    ghost use Rattle.std.specs.Prelude.{◌-◌, ◌++◌};
    ghost use Rattle.rds_sync.specs.{Step.run, Tally.TallyOf, Inside.Counts.IsTally};

    ghost Value = { TallyOf };

    ghost view = { λ t. record {
      source = t.items.source;
      rules = t.items.rules;
      place = t.place;
      state = t.state;
      list = t.items.list
          ++ (run t.items.source t.items.rules t.start_state t.start_place (t.place - t.start_place)).1;
    } };

    ghost invariant = { λ t. IsTally t.items.source t.items.rules t.items.list
        t.start_place t.start_state t.place t.state
        (record { totals = t.totals; items = t.added }) t.counts };
}

impl Tally {
    /// The run from `state` at `place` on, of which nothing was given yet.
    pub fn new(
        alloc: Global,
        source: Snapshot<Recording>,
        rules: &Rules,
        state: State,
        place: u64,
        cut: Spans,
    ) -> Tally
        requires lawful { IsLawful rules.now place state }
        requires within { place ≤ length_of source.value }
        requires near { place ≤ 2 ^ 36 }
        ensures { result ≡ tally_at source.value rules.now place state }
    {
        Tally {
            items: Items::none(alloc, source, rules).cut_into(cut),
            start_place: place,
            start_state: state,
            place,
            state,
            totals: Totals::NONE,
            added: 0,
            counts: Counts::none(),
        }
    }

    /// The place of the next bit.
    pub fn place(&self) -> u64
        ensures { result ≡ self.now.place }
    {
        self.place
    }

    /// The state before that bit.
    pub fn state(&self) -> State
        ensures value { result ≡ self.now.state }
        ensures lawful { IsLawful self.now.rules self.now.place result }
    {
        self.state
    }

    /// Moves on to a later place, up to before `to`, by a reader of its recording and by its rules. If memory
    /// for a span is refused, it has moved on all the same.
    pub(crate) fn go_on(
        &mut self,
        reader: &mut Reader<'_>,
        rules: &Rules,
        to: u64,
    ) -> Result<(), AllocError>
        requires source { self.old.source ≡ reader.old }
        requires rules { self.old.rules ≡ rules.now }
        requires order { self.old.place < to }
        requires within { to ≤ length_of reader.old }
        ensures forward { (self.old.place < self.new.place) × (self.new.place ≤ to) }
        ensures state { self.new ≡ gone_on self.old self.new.place }
        ensures same { reader.new ≡ reader.old }
    {
        prove!(to <= reader.recording().len());
        let most = self.most();
        let (place, state) = count_stretch(
            reader,
            rules,
            self.state,
            self.place,
            to,
            most,
            &mut self.counts,
        );
        self.place = place;
        self.state = state;
        settle(&mut self.totals, &mut self.added, &mut self.counts, most);
        self.end_long_span()
    }

    /// Hops: a search moves on up to and including the first place that acquires, or up to `near`; a lock up
    /// to and including the block that closes its group, or up to `to`. The tape is of its recording, the
    /// rules are its own. If memory for a span is refused, it has moved on all the same.
    pub fn hop<T: Tape>(
        &mut self,
        tape: &mut T,
        rules: &Rules,
        near: u64,
        to: u64,
    ) -> Result<(), AllocError>
        requires source { self.old.source ≡ T.signal tape.old }
        requires rules { self.old.rules ≡ rules.now }
        requires ahead { self.old.place < to }
        requires near { near ≤ to }
        requires behind { (self.old.state ≡ Searching) → self.old.place < near }
        requires within { to ≤ length_of (T.signal tape.old) }
        requires counted { T.reads_made tape.old ≤ 2 ^ 62 + 2 ^ 60 }
        ensures state { self.new ≡ gone_on self.old self.new.place }
        ensures hop { IsHop (T.signal tape.old) rules.now self.old.state self.old.place near to
            self.new.place self.new.state (T.reads_made tape.new - T.reads_made tape.old) }
        ensures same { T.signal tape.new ≡ T.signal tape.old }
    {
        prove!(to <= tape.len());
        let most = self.most();
        let (place, state) = hop(
            tape,
            rules,
            self.state,
            self.place,
            near,
            to,
            &mut self.counts,
        );
        self.place = place;
        self.state = state;
        settle(&mut self.totals, &mut self.added, &mut self.counts, most);
        self.end_long_span()
    }

    /// How many items may have been counted before they are added to the totals: as many as the span in
    /// progress lacks, or once it has them, but covers too few places, as many again.
    fn most(&self) -> u64
        ensures { result ≤ 3000 }
    {
        let open = self.added.saturating_sub(self.items.len() as u64);
        let lacks = self.items.most_in_one().saturating_sub(open);
        if lacks == 0 {
            SPAN_ITEMS
        } else {
            lacks.min(MOST_COUNTED)
        }
    }

    /// Ends the span in progress if it is long enough.
    fn end_long_span(&mut self) -> Result<(), AllocError>
        ensures same { self.new ≡ self.old }
    {
        let items = (self.added + self.counts.items()) as usize - self.items.len();
        let is_long = self.place - self.start_place >= SPAN_PLACES;
        if is_long && items as u64 >= self.items.most_in_one() {
            self.items
                .push_span(self.start_state, self.start_place, self.place, items)?;
            self.start_place = self.place;
            self.start_state = self.state;
        }
        Ok(())
    }

    /// The report of the run.
    #[tactic(auto, using(crate::proofs::Lemmas::tally_report))]
    pub fn report(self) -> Result<Report, AllocError>
        ensures items { IfOk result (λ report. report.items ≡ listed self.source self.rules self.list) }
        ensures totals { IfOk result (λ report. report.totals ≡ totals_of self.list) }
        ensures small { IfOk result (λ report. IsAtMost (2 ^ 47) report.totals) }
    {
        let Tally {
            mut items,
            start_place,
            start_state,
            place,
            totals,
            added,
            counts,
            ..
        } = self;
        let left = (added + counts.items()) as usize - items.len();
        items.push_span(start_state, start_place, place, left)?;
        Ok(Report {
            items,
            totals: totals.plus(counts.totals()),
        })
    }
}

/// Adds the counts to totals of `added` items, if they count `most` items or more.
pub(crate) fn settle(totals: &mut Totals, added: &mut u64, counts: &mut Counts, most: u64)
    requires small { IsAtMost (2 ^ 10 * added.old) totals.old }
    requires few { added.old ≤ 2 ^ 40 }
    requires most { most ≤ 3000 }
    ensures same { joined (record { totals = totals.new; items = added.new }) counts.new
        ≡ joined (record { totals = totals.old; items = added.old }) counts.old }
    ensures small { IsAtMost (2 ^ 10 * added.new) totals.new }
    ensures few { counts.new.items ≤ 3000 }
{
    if counts.items() < most {
        return;
    }
    *totals = totals.plus(counts.totals());
    *added += counts.items();
    *counts = Counts::none();
}
