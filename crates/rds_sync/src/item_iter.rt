//! A walk over items, in order.

ghost use Rattle.std.specs.Prelude.{◌≡◌, ◌≤◌, ◌<◌, ◌+◌, ◌-◌, ◌++◌, ◌⊎◌, [], ◌∷◌, All, MatchOption, length, drop, take, vec_capacity};
ghost use Rattle.std.specs.Iterator.{YieldsFirst, item_count};
ghost use Rattle.rds_stream.specs.Recording.{length_of};
ghost use Rattle.rds_sync.specs.{Inside.Spans.IsSpan, Inside.Spans.items_in, Inside.Spans.items_of, Lawful.IsLawful, Step.run};

use crate::decoder::Decoder;
use crate::item::Item;
use crate::rules::Rules;
use crate::span::Span;
use crate::state::State;
use crate::steps::finish;
use rds_stream::{Counted, Recording};
use std::iter::FusedIterator;
use std::marker::Model;

/// Items in order, seen by contracts as the list of those that are left. They are decoded as they are asked for, and
/// take no memory.
#[derive(Drop)]
pub struct ItemIter<'a> {
    recording: &'a Recording,
    rules: &'a Rules,
    decoder: Decoder<'a>,
    spans: &'a [Span],
    left: usize,
}

impl<'a> Model for ItemIter<'a> {
    ghost use Rattle.std.specs.Prelude.{List, ◌≤◌, ◌++◌, All, length, take};
    ghost use Rattle.rds_sync.specs.declared.item.Item.{Item};

    ghost Value = { List Item };

    ghost use Rattle.rds_sync.specs.Inside.Spans.{IsSpan, items_in, items_of};

    ghost view = { λ s. take s.left (s.decoder.items ++ items_in s.recording.now s.rules.now s.spans.now) };

    ghost invariant = { λ s. All (IsSpan s.recording.now s.rules.now) s.spans.now
        × (s.left ≤ length (s.decoder.items ++ items_in s.recording.now s.rules.now s.spans.now)) };
}

impl<'a> ItemIter<'a> {
    /// `count` items of these spans, starting at item `first`.
    pub(crate) fn over(
        recording: &'a Recording,
        rules: &'a Rules,
        spans: &'a [Span],
        first: usize,
        count: usize,
    ) -> ItemIter<'a>
        requires spans { All (IsSpan recording.now rules.now) spans.now }
        requires within { first + count ≤ length (items_in recording.now rules.now spans.now) }
        ensures { result ≡ take count (drop first (items_in recording.now rules.now spans.now)) }
    {
        let mut decoder = Decoder::new(recording, rules, State::Searching, 0, 0);
        let mut rest = spans;
        for _number in 0..first {
            let (_item, after) = next_in(recording, rules, &mut decoder, rest);
            rest = after;
        }
        ItemIter {
            recording,
            rules,
            decoder,
            spans: rest,
            left: count,
        }
    }

    /// Takes the items that come next in place of those of `part`: as many as there is room for in it, or all that are
    /// left. It takes no memory.
    #[tactic(auto, using(crate::proofs::Lemmas::part_filled))]
    pub fn fill(&mut self, part: &mut Vec<Item>)
        ensures items { self.old ≡ part.new.items ++ self.new }
        ensures full { (self.new ≡ []) ⊎ (length part.new.items ≡ vec_capacity part.new) }
        ensures room { vec_capacity part.new ≡ vec_capacity part.old }
    {
        part.clear();
        let most = self.left.min(part.capacity());
        self.spans = push_from(
            self.recording,
            self.rules,
            &mut self.decoder,
            self.spans,
            part,
            most,
        );
        self.left -= part.len();
    }
}

impl<'a> Iterator for ItemIter<'a> {
    type Item = Item;

    ghost next_gives = { YieldsFirst (λ rest. rest) };

    ghost remaining = { item_count (λ rest. rest) };

    fn next(&mut self) -> Option<Item> {
        if self.left == 0 {
            return None;
        }
        let (item, spans) = next_in(self.recording, self.rules, &mut self.decoder, self.spans);
        self.spans = spans;
        self.left -= 1;
        item
    }

    fn size_hint(&self) -> (usize, Option<usize>) {
        (self.left, Some(self.left))
    }
}

impl<'a> ExactSizeIterator for ItemIter<'a> {
    fn len(&self) -> usize {
        self.left
    }
}

impl<'a> FusedIterator for ItemIter<'a> {}

/// The next item of a decoder and of the spans after it, and the spans that are then left.
fn next_in<'a>(
    recording: &'a Recording,
    rules: &'a Rules,
    decoder: &mut Decoder<'a>,
    spans: &'a [Span],
) -> (Option<Item>, &'a [Span])
    requires { All (IsSpan recording.now rules.now) spans.now }
    ensures spans { All (IsSpan recording.now rules.now) result.1.now }
    ensures first { MatchOption result.0
        (decoder.old.items ++ items_in recording.now rules.now spans.now ≡ [])
        (λ item. decoder.old.items ++ items_in recording.now rules.now spans.now
        ≡ item ∷ (decoder.new.items ++ items_in recording.now rules.now result.1.now)) }
{
    if let Some(item) = decoder.next() {
        return (Some(item), spans);
    }
    let mut rest = spans;
    while let Some((span, others)) = rest.split_first() {
        rest = others;
        *decoder = of_span(recording, rules, *span);
        if let Some(item) = decoder.next() {
            return (Some(item), rest);
        }
    }
    (None, rest)
}

/// The items of the run from `state` over the places from `from` to before `to`, except the first `passed`.
fn decoder_past<'a>(
    recording: &'a Recording,
    rules: &'a Rules,
    state: State,
    from: u64,
    to: u64,
    passed: usize,
) -> Decoder<'a>
    requires lawful { IsLawful rules.now from state }
    requires order { from ≤ to }
    requires within { to ≤ length_of recording.now }
    ensures { result.items ≡ drop passed (run recording.now rules.now state from (to - from)).1 }
{
    let mut decoder = Decoder::new(recording, rules, state, from, to);
    for _number in 0..passed {
        let _item = decoder.next();
    }
    decoder
}

/// The items of a span.
fn of_span<'a>(recording: &'a Recording, rules: &'a Rules, span: Span) -> Decoder<'a>
    requires { IsSpan recording.now rules.now span }
    ensures { result.items ≡ items_of recording.now rules.now span }
{
    match span {
        Span::Run {
            place,
            state,
            to,
            passed,
            ..
        } => decoder_past(recording, rules, state, place, to, passed),
        Span::End { state } => match finish(&mut Counted::new(recording), rules, state) {
            Some(group) => Decoder::only(recording, rules, Item::Group(group)),
            None => Decoder::new(recording, rules, State::Searching, 0, 0),
        },
    }
}

/// Appends the items of a decoder and of the spans after it, until there are `most` or none is left, and the spans that
/// are then left.
fn push_from<'a>(
    recording: &'a Recording,
    rules: &'a Rules,
    decoder: &mut Decoder<'a>,
    spans: &'a [Span],
    part: &mut Vec<Item>,
    most: usize,
) -> &'a [Span]
    requires spans { All (IsSpan recording.now rules.now) spans.now }
    requires order { length part.old.items ≤ most }
    requires room { most ≤ vec_capacity part.old }
    ensures spans { All (IsSpan recording.now rules.now) result.now }
    ensures items { part.old.items ++ (decoder.old.items ++ items_in recording.now rules.now spans.now)
        ≡ part.new.items ++ (decoder.new.items ++ items_in recording.now rules.now result.now) }
    ensures full { (decoder.new.items ++ items_in recording.now rules.now result.now ≡ [])
        ⊎ (length part.new.items ≡ most) }
    ensures most { length part.new.items ≤ most }
    ensures room { vec_capacity part.new ≡ vec_capacity part.old }
{
    decoder.push_until(part, most);
    let mut rest = spans;
    while part.len() < most {
        let Some((span, others)) = rest.split_first() else {
            return rest;
        };
        rest = others;
        *decoder = of_span(recording, rules, *span);
        decoder.push_until(part, most);
    }
    rest
}
