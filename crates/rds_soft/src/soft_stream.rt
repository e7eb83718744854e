//! A stream of symbols, heard as it comes.

ghost use Rattle.std.specs.Prelude.{◌≡◌, ◌↔◌, ◌++◌, ◌+◌, ◌-◌, ◌*◌, ◌^◌, ◌<◌, ◌≤◌, ◌⊎◌, ℕ, List, [], IfErr, IfOk, IsErrOf, IsOkUnless, OnErr, OnOk, length, true};
ghost use Rattle.rds_stream.specs.Recording.{AreGaps};
ghost use Rattle.rds_soft.specs.{SoftStream.complete, SoftStream.group_item, SoftStream.report_of, SoftTotals.AreAtMost, SoftTotals.soft_totals_of, declared.soft_item.SoftItem.SoftItem as AnItem};

use crate::laws::soft_totals_join;
use crate::margin::Margin;
use crate::near::{end_near, last_of, near_of, read_all_again, run_near};
use crate::nearest::Search;
use crate::soft_item::{SoftGroup, SoftItem};
use crate::soft_list::{Listed, SoftList};
use crate::soft_totals::SoftTotals;
use rds_code::RdsError;
use rds_live::laws::{ends_move, runs_move};
use rds_live::may_have_gaps;
use rds_stream::{MOST_BITS, Trace, are_gaps};
use rds_sync::{Rules, State, laws};
use std::alloc::{AllocError, Global};
use std::marker::Model;
use std::thread::Threads;

/// How many other threads are busy with the symbols of a read at most.
const MOST_OTHERS: u32 = 39;

/// A decoder of a stream of symbols, which takes them as they come: this project's rule. Its items are those of the bits between the
/// symbols, each group read again from its symbols. An item is given with the symbol that completes it.
///
/// Contracts see the terms of the stream, and the symbols that were heard. It keeps only the last 240 of them.
#[derive(Drop)]
pub struct SoftStream<'r> {
    rules: &'r Rules,
    gaps: &'r [(u64, u64)],
    margin: Margin,
    search: Search,
    /// The searches of other threads.
    others: Vec<Search>,
    /// The last symbols.
    kept: Vec<u8>,
    /// How many symbols were heard.
    count: u64,
    /// The state after the bits between them.
    state: State,
    /// The totals of the items that are complete.
    totals: SoftTotals,
    history: Trace,
}

impl<'r> Model for SoftStream<'r> {
    ghost use Rattle.rds_soft.specs.{SoftStream.SoftHeard, Inside.Streams.Knows};

    ghost Value = { SoftHeard };

    ghost view = { λ s. record {
      terms = record { rules = s.rules.now; gaps = s.gaps.now; margin = s.margin };
      symbols = s.history.bytes;
    } };

    ghost invariant = { λ s. Knows (record { rules = s.rules.now; gaps = s.gaps.now; margin = s.margin })
        s.history.bytes s.kept.items s.count s.state s.totals };
}

/// The result of the end of a stream of symbols.
#[derive(Clone, Copy)]
pub struct SoftEnd {
    /// The group in progress, as far as it was read.
    pub group: Option<SoftGroup>,
    /// The totals of the report: of all items, and of this group.
    pub totals: SoftTotals,
}

impl<'r> SoftStream<'r> {
    /// A decoder that has heard nothing yet, of a stream with these gaps: ranges of the places of its bits, as those of
    /// [`StreamDecoder::with_gaps`](rds_live::StreamDecoder::with_gaps). Blocks are corrected by this margin, by up to this number of
    /// workers, each of which takes memory for a search.
    ///
    /// Refuses gaps that no recording may have. Then it fails only if memory is refused.
    pub fn new(
        alloc: Global,
        rules: &'r Rules,
        gaps: &'r [(u64, u64)],
        margin: Margin,
        workers: u32,
    ) -> Result<SoftStream<'r>, RdsError>
        ensures stream { IfOk result (λ stream. stream ≡ record {
          terms = record { rules = rules.now; gaps = gaps.now; margin = margin };
          symbols = [];
        }) }
        ensures bad_gaps { IsErrOf result RdsError.BadGaps ↔ (AreGaps (2 ^ 36) gaps.now → ⊥) }
        ensures only { IfErr result (λ e. (e ≡ RdsError.BadGaps) ⊎ (e ≡ RdsError.OutOfMemory)) }
    {
        if !may_have_gaps(gaps) {
            return Err(RdsError::BadGaps);
        }
        Ok(SoftStream {
            rules,
            gaps,
            margin,
            search: Search::new(alloc)?,
            others: searches(alloc, workers.saturating_sub(1).min(MOST_OTHERS))?,
            kept: Vec::new(alloc),
            count: 0,
            state: State::Searching,
            totals: SoftTotals::NONE,
            history: Trace::new(),
        })
    }

    /// How many symbols were heard.
    pub fn count(&self) -> u64
        ensures value { result ≡ length self.now.symbols }
        ensures limit { result ≤ 2 ^ 36 + 1 }
    {
        self.count
    }

    /// Whether the stream may end here, that is, whether no gap ends after its last bit.
    pub fn may_end(&self) -> bool
        ensures { (result ≡ true) ↔ AreGaps (length self.now.symbols - 1) self.now.terms.gaps }
    {
        are_gaps(self.gaps, self.count.saturating_sub(1))
    }

    /// Takes the next symbols, signed bytes, and gives the items that they complete, each group read again from its symbols.
    ///
    /// Refuses more than 2^36 + 1 symbols in all, and fails if memory is refused; it has then heard nothing.
    ///
    /// Its cost: the bits are read once, after those of 240 symbols, and each block that is not valid is searched, by several threads if
    /// 128 or more are. It takes memory for the symbols and for two items for each.
    pub fn take<R: Threads + Sync>(
        &mut self,
        rt: &R,
        alloc: Global,
        symbols: &[u8],
    ) -> Result<SoftList, RdsError>
        ensures heard { OnOk result (self.new.symbols ≡ self.old.symbols ++ symbols.now) }
        ensures terms { self.new.terms ≡ self.old.terms }
        ensures items { IfOk result (λ items. complete self.old.terms (self.old.symbols ++ symbols.now)
            ≡ complete self.old.terms self.old.symbols ++ items) }
        ensures refused { OnErr result (self.new ≡ self.old) }
        ensures too_long { IsErrOf result RdsError.TooLong
            ↔ (2 ^ 36 + 1 < length self.old.symbols + length symbols.now) }
        ensures only { IfErr result (λ e. (e ≡ RdsError.TooLong) ⊎ (e ≡ RdsError.OutOfMemory)) }
    {
        if symbols.len() as u64 > MOST_BITS + 1 - self.count {
            return Err(RdsError::TooLong);
        }
        match self.take_all(rt, alloc, symbols) {
            Ok(items) => Ok(items),
            Err(_) => Err(RdsError::OutOfMemory),
        }
    }

    /// The same of symbols that are not too many.
    fn take_all<R: Threads + Sync>(
        &mut self,
        rt: &R,
        alloc: Global,
        symbols: &[u8],
    ) -> Result<SoftList, AllocError>
        requires { length self.old.symbols + length symbols.now ≤ 2 ^ 36 + 1 }
        ensures heard { OnOk result (self.new.symbols ≡ self.old.symbols ++ symbols.now) }
        ensures terms { self.new.terms ≡ self.old.terms }
        ensures items { IfOk result (λ items. complete self.old.terms (self.old.symbols ++ symbols.now)
            ≡ complete self.old.terms self.old.symbols ++ items) }
        ensures refused { OnErr result (self.new ≡ self.old) }
    {
        prove!(1 <= self.rules.reach());
        laws::runs_are_lawful();
        laws::runs_give_few_items();
        laws::runs_join();
        laws::steps_are_lawful();
        laws::acquisitions_are_late();
        runs_move();
        let from = (self.kept.len() as u64).saturating_sub(1);
        let before = self.count - self.kept.len() as u64;
        let near = near_of(alloc, self.gaps, self.margin, before, &self.kept, symbols)?;
        let (items, state) = run_near(alloc, &near, self.rules, self.state, from)?;
        let kept = last_of(alloc, &near.symbols)?;
        let others = self.others.as_mut_slice();
        let found = read_all_again(rt, alloc, &mut self.search, others, &near, &items)?;
        self.totals = counted(self.totals, &found);
        self.kept = kept;
        self.count += symbols.len() as u64;
        self.state = state;
        self.history.note(symbols);
        Ok(found)
    }

    /// Ends the stream here: closes the group in progress, as far as it was read. Fails only if memory is refused.
    pub fn finish(self, alloc: Global) -> Result<SoftEnd, AllocError>
        ensures group { IfOk result (λ end. complete self.entry.terms self.entry.symbols ++ group_item end.group
            ≡ report_of self.entry.terms self.entry.symbols) }
        ensures totals { IfOk result (λ end. end.totals ≡ soft_totals_of (report_of self.entry.terms self.entry.symbols)) }
    {
        prove!(1 <= self.rules.reach());
        laws::runs_are_reports();
        laws::runs_are_lawful();
        laws::steps_are_lawful();
        laws::acquisitions_are_late();
        ends_move();
        let SoftStream {
            rules,
            gaps,
            margin,
            mut search,
            others: _,
            kept,
            count,
            state,
            totals,
            history: _,
        } = self;
        let before = count - kept.len() as u64;
        let near = near_of(alloc, gaps, margin, before, &kept, &[])?;
        let group = end_near(&mut search, &near, rules, state);
        Ok(soft_end_of(totals, group))
    }
}

/// Room for this number of searches.
fn searches(alloc: Global, count: u32) -> Result<Vec<Search>, RdsError>
    ensures { IsOkUnless result RdsError.OutOfMemory }
{
    let mut searches = Vec::new(alloc);
    for _ in 0..count {
        searches.push(Search::new(alloc)?)?;
    }
    Ok(searches)
}

/// The totals of these items too.
fn counted(totals: SoftTotals, items: &SoftList) -> SoftTotals
    requires { (most : ℕ) × AreAtMost most totals × (most + 2 ^ 10 * length items.now < 2 ^ 64) }
    ensures value { (before : List AnItem) → totals ≡ soft_totals_of before → result ≡ soft_totals_of (before ++ items.now) }
    ensures small { (most : ℕ) → AreAtMost most totals → AreAtMost (most + 2 ^ 10 * length items.now) result }
{
    soft_totals_join();
    let mut others = totals;
    // Most items are groups of four valid blocks: the loop only counts them.
    let mut valid = 0;
    for i in 0..items.len() {
        match items.get(i) {
            Listed::Valid(_) => valid += 1,
            Listed::Other(item) => others = others.plus(SoftTotals::of_item(&item)),
        }
    }
    others.plus(SoftTotals::of_clean(valid))
}

/// The end of a stream whose complete items have these totals.
fn soft_end_of(totals: SoftTotals, group: Option<SoftGroup>) -> SoftEnd
    requires { AreAtMost (2 ^ 48) totals }
    ensures group { result.group ≡ group }
    ensures totals { (before : List AnItem) → totals ≡ soft_totals_of before
        → result.totals ≡ soft_totals_of (before ++ group_item group) }
{
    soft_totals_join();
    let totals = match group {
        Some(group) => totals.plus(SoftTotals::of_item(&SoftItem::Group(group))),
        None => totals,
    };
    SoftEnd { group, totals }
}
