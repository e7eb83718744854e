//! The items of a list, any of which is found at once.

ghost use Rattle.std.specs.Prelude.{◌≡◌, ◌<◌, ◌≤◌, ◌^◌, All, IfOk, List, length, slice_range};
ghost use Rattle.rds_stream.specs.Recording.{Signal};
ghost use Rattle.rds_sync.specs.{Inside.Spans.IsFound, Inside.Spans.IsSpan, Inside.Spans.IsStart, Inside.Spans.items_in, Rules.RuleNumbers};

use crate::item_iter::ItemIter;
use crate::items::spans_from;
use crate::rules::{RuleNumbers, Rules};
use crate::span::{Span, Start};
use rds_stream::Recording;
use std::alloc::{AllocError, Global};
use std::marker::Model;
use std::snapshot::Snapshot;

/// One span in this many has an index entry: how many items come before it.
const STEP: usize = 16;

/// The first span of a list.
const FIRST: Start = Start { span: 0, before: 0 };

/// The items of a list of spans, with an index of these: it finds any item in a few steps, while
/// [`Items`](crate::Items) passes over all spans before it. Use it to read many parts of a long list.
/// Contracts see the same as of the list.
#[derive(Drop)]
pub struct IndexedItems<'a> {
    pub(crate) source: &'a Snapshot<Recording>,
    pub(crate) rules: RuleNumbers,
    pub(crate) spans: &'a [Span],
    pub(crate) len: usize,
    pub(crate) starts: Vec<Start>,
}

impl<'a> Model for IndexedItems<'a> {
    ghost use Rattle.std.specs.Prelude.{All};
    ghost use Rattle.rds_sync.specs.{Decoding.ItemsOf, Decoding.listed, Inside.Spans.AreSpans, Inside.Spans.IsStart, Inside.Spans.items_in};

    ghost Value = { ItemsOf };

    ghost view = { λ s. listed s.source.now.value s.rules (items_in s.source.now.value s.rules s.spans.now) };

    ghost invariant = { λ s. AreSpans s.source.now.value s.rules s.spans.now s.len
        × All (IsStart s.source.now.value s.rules s.spans.now) s.starts.items };
}

impl<'a> IndexedItems<'a> {
    /// How many items there are.
    pub fn len(&self) -> usize
        ensures { result ≡ length self.now.list }
    {
        self.len
    }

    /// The items number `from` to `to` - 1 in order, of the recording and by the rules that they are of. The
    /// items before them in their first span are decoded too.
    pub fn range(
        &self,
        rec: &'a Recording,
        rules: &'a Rules,
        from: usize,
        to: usize,
    ) -> ItemIter<'a>
        requires source { self.now.source ≡ rec.now }
        requires rules { self.now.rules ≡ rules.now }
        requires order { from ≤ to }
        requires within { to ≤ length self.now.list }
        ensures { result ≡ slice_range self.now.list from to }
    {
        let (spans, left) = self.spans_from(from);
        ItemIter::over(rec, rules, spans, left, to - from)
    }

    /// The spans from that on which holds item number `from`, and its number in that span.
    fn spans_from(&self, from: usize) -> (&'a [Span], usize)
        ensures { IsFound self.now from result.0.now result.1 }
    {
        let start = last_start(&self.starts, from);
        prove!(start.span <= self.spans.len());
        spans_from(&self.spans[start.span..], from - start.before)
    }
}

/// The last of these before which there are no more than `from` items.
fn last_start(starts: &[Start], from: usize) -> Start
    ensures start { (b : Signal) (rules : RuleNumbers) (spans : List Span)
        → All (IsStart b rules spans) starts.now → IsStart b rules spans result }
    ensures before { result.before ≤ from }
{
    let mut found = FIRST;
    let mut low = 0;
    let mut high = starts.len();
    while low < high {
        let middle = low + (high - low) / 2;
        let start = starts[middle];
        if start.before <= from {
            found = start;
            low = middle + 1;
        } else {
            high = middle;
        }
    }
    found
}

/// One span in every `STEP` of these, with how many items come before it.
pub(crate) fn starts_of(alloc: Global, spans: &[Span]) -> Result<Vec<Start>, AllocError>
    ensures { IfOk result (λ starts. (b : Signal) (rules : RuleNumbers) → All (IsSpan b rules) spans.now
        → length (items_in b rules spans.now) < 2 ^ 64 → All (IsStart b rules spans.now) starts.items) }
{
    let mut starts = Vec::with_capacity(alloc, spans.len() / STEP + 1)?;
    let mut before = 0usize;
    for span in 0..spans.len() {
        if span % STEP == 0 {
            starts.push(Start { span, before })?;
        }
        before = before.saturating_add(spans[span].len());
    }
    Ok(starts)
}
