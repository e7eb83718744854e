//! A part of a list of items: those of a run over some places.

ghost use Rattle.std.specs.Prelude.{◌≡◌, ◌<◌, IfSome, length};
ghost use Rattle.rds_stream.specs.Recording.{Signal};
ghost use Rattle.rds_sync.specs.{Inside.Spans.items_of, Inside.Spans.IsPast, Inside.Spans.IsSpan, Rules.RuleNumbers};

use crate::state::State;

/// Consecutive items, named by the run or the end that gives them.
#[derive(Clone, Copy)]
pub(crate) enum Span {
    /// The items of the run from `state` over the places from `place` to before `to`, except the first `passed`: `items`
    /// items.
    Run {
        place: u64,
        state: State,
        to: u64,
        passed: usize,
        items: usize,
    },
    /// The item of the recording's end after a run that ended in `state`: one, or none.
    End {
        state: State,
    },
}

impl Span {
    /// How many items they are.
    pub fn len(&self) -> usize
        ensures { (b : Signal) (rules : RuleNumbers) → IsSpan b rules self.now
            → result ≡ length (items_of b rules self.now) }
    {
        match self {
            Span::Run { items, .. } => *items,
            Span::End {
                state: State::Locked(lock),
            } if lock.number != 1 => 1,
            Span::End { .. } => 0,
        }
    }

    /// The same items, except the first `n`, if there are more than these.
    pub fn past(self, n: usize) -> Option<Span>
        ensures { IfSome result (λ rest. (b : Signal) (rules : RuleNumbers) → IsSpan b rules self
            → n < length (items_of b rules self) → IsPast b rules self n rest) }
    {
        match self {
            Span::Run {
                place,
                state,
                to,
                passed,
                items,
            } => Some(Span::Run {
                place,
                state,
                to,
                passed: passed.checked_add(n)?,
                items: items.saturating_sub(n),
            }),
            Span::End { .. } => Some(self),
        }
    }
}

/// A span in a list, and how many items come before it.
#[derive(Clone, Copy)]
pub(crate) struct Start {
    pub span: usize,
    pub before: usize,
}
