//! The places of a run at which another run may meet it.
ghost use Rattle.std.specs.{Prelude.◌≡◌, Prelude.◌≤◌, Prelude.◌*◌, Prelude.◌-◌, Prelude.[], Prelude.◌∷◌, Prelude.IfSome, Prelude.MatchOption, Prelude.length, Iterator.YieldsFirst, Iterator.item_count};
ghost use Rattle.rds_stream.specs.Recording.{length_of};
ghost use Rattle.rds_sync.specs.{Advance.items_in, Lawful.IsLawful};
ghost use Rattle.rds_pieces.specs.{Inside.MarkInside.IsMarkIn, Inside.MarkInside.marks_on, Marks.marks_of};

use crate::mark::Mark;
use rds_stream::{Reader, Recording};
use rds_sync::{Item, Rules, State, stretch};
use std::iter::FusedIterator;
use std::marker::Model;

/// The marks of a run over a range of a recording, in order of place: the first place, and the place after each bit that
/// gave an item, with the state there. Contracts see the list of those that are left.
///
/// It goes no further than it is asked for, and takes no memory. Its cost is that of a [`Decoder`](rds_sync::Decoder).
#[derive(Drop)]
pub struct Marks<'a> {
    reader: Reader<'a>,
    rules: &'a Rules,
    to: u64,
    next: Option<Mark>,
}

impl<'a> Model for Marks<'a> {
    ghost use Rattle.std.specs.Prelude.{List, [], ◌∷◌, ◌-◌, ◌≤◌, None, Some, IfSome};
    ghost use Rattle.rds_stream.specs.Recording.{length_of};
    ghost use Rattle.rds_pieces.specs.{declared.mark.Mark.Mark, Inside.MarkInside.IsMarkIn, Inside.MarkInside.marks_on};

    ghost Value = { List Mark };

    ghost view = { λ m. elim m.next [
      | None ↦ []
      | Some mark ↦ mark ∷ marks_on m.reader m.rules.now mark.state mark.place mark.items (m.to - mark.place)
    ] };

    ghost invariant = { λ m. (m.to ≤ length_of m.reader) × IfSome m.next (IsMarkIn m.rules.now m.to) };
}

impl<'a> Marks<'a> {
    /// The marks of the run from Searching over the bits at `from` to `to` - 1.
    #[tactic(auto, using(std::proofs::lemmas::Grind::common_steps, crate::proofs::MarkLemmas::marks_of_by_bits))]
    pub(crate) fn over(rec: &'a Recording, rules: &'a Rules, from: u64, to: u64) -> Marks<'a>
        requires order { from ≤ to }
        requires within { to ≤ length_of rec.now }
        ensures { result ≡ marks_of rec.now rules.now State.Searching from (to - from) }
    {
        let first = Mark {
            place: from,
            state: State::Searching,
            items: 0,
        };
        Marks {
            reader: Reader::new(rec),
            rules,
            to,
            next: Some(first),
        }
    }
}

impl<'a> Iterator for Marks<'a> {
    type Item = Mark;

    ghost next_gives = { YieldsFirst (λ rest. rest) };

    ghost remaining = { item_count (λ rest. rest) };

    fn next(&mut self) -> Option<Mark> {
        let now = self.next?;
        self.next = mark_after(&mut self.reader, self.rules, now, self.to);
        Some(now)
    }
}

impl<'a> FusedIterator for Marks<'a> {}

/// The mark after this one, if the run gives an item before `to`.
#[tactic(auto, using(std::proofs::lemmas::Grind::common_steps, crate::proofs::MarkLemmas::marks_on_quiet, crate::proofs::MarkLemmas::marks_on_stretch))]
fn mark_after(reader: &mut Reader<'_>, rules: &Rules, now: Mark, to: u64) -> Option<Mark>
    requires here { IsMarkIn rules.now to now }
    requires within { to ≤ length_of reader.old }
    ensures next { MatchOption result (marks_on reader.old rules.now now.state now.place now.items
        (to - now.place) ≡ [])
        (λ next. marks_on reader.old rules.now now.state now.place now.items (to - now.place)
        ≡ next ∷ marks_on reader.old rules.now next.state next.place next.items (to - next.place)) }
    ensures inside { IfSome result (IsMarkIn rules.now to) }
    ensures same { reader.new ≡ reader.old }
{
    prove!(to <= reader.recording().len());
    if now.place == to {
        return None;
    }
    let step = stretch(reader, rules, now.state, now.place, to);
    let count = count_of(step.items);
    if count == 0 {
        return None;
    }
    Some(Mark {
        place: step.place,
        state: step.state,
        items: now.items + count,
    })
}

/// How many items there are.
fn count_of(items: [Option<Item>; 2]) -> u64
    ensures value { result ≡ length (items_in items) }
    ensures few { result ≤ 2 }
{
    let [first, second] = items;
    u64::from(first.is_some()) + u64::from(second.is_some())
}
