//! A run and its guess over one range, side by side.
ghost use Rattle.std.specs.Prelude.{◌≡◌, ℕ, Option, Some, ◌+◌, ◌-◌, ◌*◌, ◌≤◌, ◌^◌, ◌↔◌, IfOk, IsTrue};
ghost use Rattle.rds_stream.specs.Recording.{length_of};
ghost use Rattle.rds_sync.specs.{Lawful.IsLawful, Tally.gone_on, Tally.tally_at};
ghost use Rattle.rds_pieces.specs.{Inside.Beside.IsFirst, Inside.Beside.IsStep, Inside.Beside.Meet, Inside.Beside.come_to, Meeting.IsMeeting, Seams.seam_reads};

use crate::laws::run_laws;
use rds_stream::Tape;
use rds_sync::{Rules, Spans, State, Tally};
use std::alloc::{AllocError, Global};

/// A run and its guess over one range, up to where they met, or to the range's end.
#[derive(Drop)]
pub(crate) struct Beside {
    /// The run.
    pub own: Tally,
    /// The guess.
    pub guess: Tally,
    /// The least place where they met, if they did.
    pub met_at: Option<u64>,
}

/// Goes on from `state` over a range side by side with its guess, which begins with a search. It ends when
/// they are at one place in one state with no group in progress, or both are at the end. Fails if memory is
/// refused for a span.
///
/// Its cost: it reads at most (reach + 2)(d + 1) windows of the tape, refused memory or not; d is the number
/// of bits up to the meeting, or to the range's end if they never meet.
pub(crate) fn go_beside<T: Tape>(
    alloc: Global,
    tape: &mut T,
    rules: &Rules,
    state: State,
    from: u64,
    to: u64,
    cut: Spans,
) -> Result<Beside, AllocError>
    requires lawful { IsLawful rules.now from state }
    requires order { from ≤ to }
    requires within { to ≤ length_of (T.signal tape.old) }
    requires room { T.reads_made tape.old ≤ 2 ^ 62 }

    ensures met { IfOk result (λ beside. IsMeeting
        (T.signal tape.old) rules.now state State.Searching from to beside.met_at) }
    ensures own { IfOk result (λ beside. beside.own
        ≡ gone_on (tally_at (T.signal tape.old) rules.now from state) (come_to to beside.met_at)) }
    ensures guess { IfOk result (λ beside. beside.guess
        ≡ gone_on (tally_at (T.signal tape.old) rules.now from State.Searching) (come_to to beside.met_at)) }

    ensures same { T.signal tape.new ≡ T.signal tape.old }
    ensures reads_way { (met : Option ℕ) → IsMeeting
        (T.signal tape.old) rules.now state State.Searching from to met
        → T.reads_made tape.new ≤ T.reads_made tape.old + seam_reads rules.now from to met }
    ensures reads_most { T.reads_made tape.new
        ≤ T.reads_made tape.old + (rules.now.reach + 2) * (to - from + 1) }
{
    // Hops in a row are one run.
    run_laws();
    prove!(1 <= rules.reach());
    prove!(to <= tape.len());
    let mut own = Tally::new(alloc, tape.source(), rules, state, from, cut);
    let mut guess = Tally::new(
        alloc,
        tape.source(),
        rules,
        State::Searching,
        from,
        Spans::Whole,
    );
    'along: loop {
        if meet(&own, &guess) {
            return Ok(met_here(own, guess));
        }
        if are_at_end(&own, &guess, to) {
            return Ok(Beside {
                own,
                guess,
                met_at: None,
            });
        }
        hop_first(tape, rules, &mut own, &mut guess, to)?;
    }
}

/// Both, once they met.
fn met_here(own: Tally, guess: Tally) -> Beside
    ensures own { result.own ≡ own }
    ensures guess { result.guess ≡ guess }
    ensures met { result.met_at ≡ Some own.place }
{
    let met_at = Some(own.place());
    Beside { own, guess, met_at }
}

/// Lets the run at the lesser place hop. At one place a locked one hops. A search goes no further than to the
/// other run. If memory is refused for a span, it has hopped all the same.
#[tactic(auto, using(std::proofs::lemmas::Grind::common_steps, crate::proofs::Walks::first_behind))]
fn hop_first<T: Tape>(
    tape: &mut T,
    rules: &Rules,
    own: &mut Tally,
    guess: &mut Tally,
    to: u64,
) -> Result<(), AllocError>
    requires sources { (own.old.source ≡ T.signal tape.old) × (guess.old.source ≡ T.signal tape.old) }
    requires rule_sets { (own.old.rules ≡ rules.now) × (guess.old.rules ≡ rules.now) }
    requires inside { (own.old.place ≤ to) × (guess.old.place ≤ to) }
    requires apart { ¬ Meet own.old guess.old }
    requires ahead { ¬ ((own.old.place ≡ to) × (guess.old.place ≡ to)) }
    requires within { to ≤ length_of (T.signal tape.old) }
    requires counted { T.reads_made tape.old ≤ 2 ^ 62 + 2 ^ 60 }
    ensures step { IsStep (T.signal tape.old) rules.now to own.old guess.old own.new guess.new
        (T.reads_made tape.new - T.reads_made tape.old) }
    ensures same { T.signal tape.new ≡ T.signal tape.old }
{
    if is_first(own, guess) {
        let near = guess.place();
        return own.hop(tape, rules, near, to);
    }
    let near = own.place();
    guess.hop(tape, rules, near, to)
}

/// Whether both are at one place in one state, with no group in progress.
fn meet(own: &Tally, guess: &Tally) -> bool
    ensures { IsTrue result ↔ Meet own.now guess.now }
{
    let state = own.state();
    let between = match state {
        State::Searching => true,
        State::Locked(lock) => lock.number == 1,
    };
    own.place() == guess.place() && between && state == guess.state()
}

/// Whether both are at the end.
fn are_at_end(own: &Tally, guess: &Tally, to: u64) -> bool
    ensures { IsTrue result ↔ ((own.now.place ≡ to) × (guess.now.place ≡ to)) }
{
    own.place() == to && guess.place() == to
}

/// Whether it is the run that hops, and not its guess.
fn is_first(own: &Tally, guess: &Tally) -> bool
    ensures { IsTrue result ↔ IsFirst own.now.place own.now.state guess.now.place }
{
    let (place, other) = (own.place(), guess.place());
    place < other || place == other && own.state() != State::Searching
}
