//! The items of a report.

ghost use Rattle.std.specs.Prelude.{◌≡◌, ◌==◌, ◌+◌, ◌-◌, ◌<◌, ◌≤◌, ◌++◌, [], All, drop, length, slice_get, slice_range, IfOk, OnOk, OnErr};
ghost use Rattle.rds_stream.specs.Recording.{length_of, Signal};
ghost use Rattle.rds_sync.specs.{Decoding.listed, Inside.Spans.AreBehind, Inside.Spans.IsAt, Inside.Spans.IsInFirst, Inside.Spans.IsSpan, Inside.Spans.items_in, Lawful.IsLawful, Rules.RuleNumbers, Step.run, Step.items_of_end};

use crate::indexed_items::{IndexedItems, starts_of};
use crate::item::Item;
use crate::item_iter::ItemIter;
use crate::rules::{RuleNumbers, Rules};
use crate::span::Span;
use crate::state::State;
use rds_stream::Recording;
use std::alloc::{AllocError, Global};
use std::marker::Model;
use std::snapshot::Snapshot;

/// How many items a short span of a run has at least: to reach one of them, those before it in the span are
/// decoded.
pub(crate) const SPAN_ITEMS: u64 = 256;

/// How many places a span covers at least, unless its run ends: so spans take few bytes per byte of the
/// recording, however close its items are.
pub(crate) const SPAN_PLACES: u64 = 4096;

/// Into how many spans a list cuts the run that it is given.
#[derive(Clone, Copy)]
pub enum Spans {
    /// Some hundred items each, over some thousand places: any item is near.
    Short,
    /// One for the whole run, which costs nothing: for a list that is read from its first item on, or not at
    /// all.
    Whole,
}

impl Spans {
    /// With how many items a run may end a span.
    fn most_in_one(self) -> u64 {
        match self {
            Spans::Short => SPAN_ITEMS,
            Spans::Whole => u64::MAX,
        }
    }
}

/// A list of items of a recording by rules, which it names. Contracts see these, and the list.
///
/// It holds none of its items, but the spans of the runs that give them, of some hundred items each unless it
/// was told otherwise. They are decoded again when the recording and the rules are lent. It borrows nothing,
/// may move from thread to thread, and be read by several.
#[derive(Drop)]
pub struct Items {
    source: Snapshot<Recording>,
    rules: RuleNumbers,
    spans: Vec<Span>,
    len: usize,
    cut: Spans,
}

impl Model for Items {
    ghost use Rattle.rds_sync.specs.Decoding.{ItemsOf, listed};

    ghost Value = { ItemsOf };

    ghost use Rattle.rds_sync.specs.Inside.Spans.{items_in, AreSpans};

    ghost view = { λ s. listed s.source.value s.rules (items_in s.source.value s.rules s.spans.items) };

    ghost invariant = { λ s. AreSpans s.source.value s.rules s.spans.items s.len };
}

impl Items {
    /// No items of this recording by these rules. Takes no memory.
    pub fn none(alloc: Global, source: Snapshot<Recording>, rules: &Rules) -> Items
        ensures { result ≡ listed source.value rules.now [] }
    {
        Items {
            source,
            rules: rules.numbers(),
            spans: Vec::new(alloc),
            len: 0,
            cut: Spans::Short,
        }
    }

    /// The same items; the runs that are appended from here on are cut into such spans.
    pub fn cut_into(self, cut: Spans) -> Items
        ensures { result ≡ self }
    {
        Items { cut, ..self }
    }

    /// With how many items a run that is appended may end a span.
    pub(crate) fn most_in_one(&self) -> u64 {
        self.cut.most_in_one()
    }

    /// How many items there are.
    pub fn len(&self) -> usize
        ensures { result ≡ length self.now.list }
    {
        self.len
    }

    /// Whether there is none.
    pub fn is_empty(&self) -> bool
        ensures { result ≡ (length self.now.list == 0) }
    {
        self.len == 0
    }

    /// Item number `i`, the first of which is 0, or none if there are too few. To read many, take
    /// [`range`](Items::range).
    #[tactic(auto, using(crate::proofs::Lemmas::item_got))]
    pub fn get(&self, rec: &Recording, rules: &Rules, i: usize) -> Option<Item>
        requires source { self.now.source ≡ rec.now }
        requires rules { self.now.rules ≡ rules.now }
        ensures { result ≡ slice_get self.now.list i }
    {
        if i < self.len {
            self.range(rec, rules, i, i + 1).next()
        } else {
            None
        }
    }

    /// The items in order, of the recording and by the rules that they are of.
    pub fn iter<'a>(&'a self, rec: &'a Recording, rules: &'a Rules) -> ItemIter<'a>
        requires source { self.now.source ≡ rec.now }
        requires rules { self.now.rules ≡ rules.now }
        ensures { result ≡ self.now.list }
    {
        self.range(rec, rules, 0, self.len)
    }

    /// The same items, collected. They take 64 bytes each and more: most callers need only the iterator.
    pub fn to_vec(
        &self,
        alloc: Global,
        rec: &Recording,
        rules: &Rules,
    ) -> Result<Vec<Item>, AllocError>
        requires source { self.now.source ≡ rec.now }
        requires rules { self.now.rules ≡ rules.now }
        ensures { IfOk result (λ items. items.items ≡ self.now.list) }
    {
        let mut items = Vec::with_capacity(alloc, self.len)?;
        self.iter(rec, rules).fill(&mut items);
        Ok(items)
    }

    /// The items number `from` to `to` - 1 in order, of the recording and by the rules that they are of. The
    /// spans before them are passed over, and the items before them in their first span are decoded too. To
    /// read many parts of a long list, take those of [`indexed`](Items::indexed).
    pub fn range<'a>(
        &'a self,
        rec: &'a Recording,
        rules: &'a Rules,
        from: usize,
        to: usize,
    ) -> ItemIter<'a>
        requires source { self.now.source ≡ rec.now }
        requires rules { self.now.rules ≡ rules.now }
        requires order { from ≤ to }
        requires within { to ≤ length self.now.list }
        ensures { result ≡ slice_range self.now.list from to }
    {
        let (spans, left) = spans_from(&self.spans, from);
        ItemIter::over(rec, rules, spans, left, to - from)
    }

    /// The same items with an index of their spans, to read many parts of a long list.
    pub fn indexed(&self, alloc: Global) -> Result<IndexedItems<'_>, AllocError>
        ensures { IfOk result (λ indexed. indexed ≡ self.now) }
    {
        let len = self.len();
        let starts = starts_of(alloc, &self.spans)?;
        Ok(IndexedItems {
            source: &self.source,
            rules: self.rules,
            spans: &self.spans,
            len,
            starts,
        })
    }

    /// Appends the `items` items of the run from `state` over the places from `from` to before `to`, in one span: to
    /// come to one of them, those before it are decoded. Refused memory, it leaves the list as it was.
    #[tactic(auto, using(crate::proofs::Lemmas::span_pushed))]
    pub fn push_span(
        &mut self,
        state: State,
        from: u64,
        to: u64,
        items: usize,
    ) -> Result<(), AllocError>
        requires lawful { IsLawful self.old.rules from state }
        requires order { from ≤ to }
        requires within { to ≤ length_of self.old.source }
        requires count { items ≡ length (run self.old.source self.old.rules state from (to - from)).1 }
        ensures ok { OnOk result (self.new ≡ listed self.old.source self.old.rules
            (self.old.list ++ (run self.old.source self.old.rules state from (to - from)).1)) }
        ensures refused { OnErr result (self.new ≡ self.old) }
    {
        let Some(len) = self.len.checked_add(items) else {
            return Err(AllocError);
        };
        self.spans.push(Span::Run {
            place: from,
            state,
            to,
            passed: 0,
            items,
        })?;
        self.len = len;
        Ok(())
    }

    /// Appends the item of the recording's end, if the run over it ended in `state`: the group in progress,
    /// if there is one. If memory is refused, it leaves the list as it was.
    #[tactic(auto, using(crate::proofs::Lemmas::span_pushed))]
    pub fn close(&mut self, state: State) -> Result<(), AllocError>
        requires lawful { IsLawful self.old.rules (length_of self.old.source) state }
        ensures ok { OnOk result (self.new ≡ listed self.old.source self.old.rules
            (self.old.list ++ items_of_end self.old.source self.old.rules state)) }
        ensures refused { OnErr result (self.new ≡ self.old) }
    {
        let end = Span::End { state };
        let Some(len) = self.len.checked_add(end.len()) else {
            return Err(AllocError);
        };
        self.spans.push(end)?;
        self.len = len;
        Ok(())
    }

    /// Appends the items of `other`, which is of the same recording by the same rules. Its spans are copied, or
    /// moved to a list that has none. Refused memory, it leaves the list as it was.
    #[tactic(auto, using(crate::proofs::Lemmas::span_pushed))]
    pub fn append(&mut self, other: Items) -> Result<(), AllocError>
        requires source { other.source ≡ self.old.source }
        requires rules { other.rules ≡ self.old.rules }
        ensures ok { OnOk result (self.new
            ≡ listed self.old.source self.old.rules (self.old.list ++ other.list)) }
        ensures refused { OnErr result (self.new ≡ self.old) }
    {
        let Some(len) = self.len.checked_add(other.len) else {
            return Err(AllocError);
        };
        append_spans(&mut self.spans, other.spans)?;
        self.len = len;
        Ok(())
    }

    /// Appends the items of `other` from number `first` on; it is of the same recording by the same rules. Its spans are
    /// copied. Refused memory, it leaves the list as it was.
    pub fn append_from(&mut self, other: &Items, first: usize) -> Result<(), AllocError>
        requires source { other.now.source ≡ self.old.source }
        requires rules { other.now.rules ≡ self.old.rules }
        ensures ok { OnOk result (self.new ≡ listed self.old.source self.old.rules
            (self.old.list ++ drop first other.now.list)) }
        ensures refused { OnErr result (self.new ≡ self.old) }
    {
        let Some(len) = self.len.checked_add(other.len.saturating_sub(first)) else {
            return Err(AllocError);
        };
        let (spans, left) = spans_from(&other.spans, first);
        push_past(&mut self.spans, spans, left)?;
        self.len = len;
        Ok(())
    }
}

/// Appends these spans, and moves them if there are none yet. Refused memory, it appends none.
fn append_spans(spans: &mut Vec<Span>, more: Vec<Span>) -> Result<(), AllocError>
    ensures ok { OnOk result (spans.new.items ≡ spans.old.items ++ more.items) }
    ensures refused { OnErr result (spans.new.items ≡ spans.old.items) }
{
    if spans.is_empty() {
        *spans = more;
        return Ok(());
    }
    spans.extend_from_slice(&more)
}

/// Appends copies of these spans, of the first of which `left` items are passed over. Refused memory, it appends none.
#[tactic(auto, using(crate::proofs::Lemmas::push_past))]
fn push_past(spans: &mut Vec<Span>, more: &[Span], left: usize) -> Result<(), AllocError>
    ensures ok { OnOk result ((b : Signal) (rules : RuleNumbers) → All (IsSpan b rules) more.now
        → IsInFirst b rules more.now left
        → AreBehind b rules spans.old.items spans.new.items (drop left (items_in b rules more.now))) }
    ensures refused { OnErr result (spans.new.items ≡ spans.old.items) }
{
    let Some((span, others)) = more.split_first() else {
        return Ok(());
    };
    let Some(first) = span.past(left) else {
        return Err(AllocError);
    };
    let before = spans.len();
    spans.push(first)?;
    match spans.extend_from_slice(others) {
        Ok(()) => Ok(()),
        Err(error) => {
            spans.truncate(before);
            Err(error)
        }
    }
}

/// The spans from that on which holds item number `from`, and its number in that span; no spans, if there is
/// no such item.
pub(crate) fn spans_from(spans: &[Span], from: usize) -> (&[Span], usize)
    ensures at { (b : Signal) (rules : RuleNumbers) → All (IsSpan b rules) spans.now
        → IsAt b rules spans.now from result.0.now result.1 }
    ensures first { (b : Signal) (rules : RuleNumbers) → All (IsSpan b rules) spans.now
        → IsInFirst b rules result.0.now result.1 }
{
    let mut rest = spans;
    let mut left = from;
    while let Some((span, others)) = rest.split_first() {
        let len = span.len();
        if left < len {
            return (rest, left);
        }
        left -= len;
        rest = others;
    }
    (rest, left)
}
