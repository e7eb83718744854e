//! Facts that a user of `rds_crew` relies on: the report of a crew is that of one decoder, and each number that is dealt is drawn once,
//! by whichever seat.
ghost use Rattle.std.specs.Prelude.{◌≡◌, ◌<◌, ◌↔◌, ◌⊎◌, IfErr, IfOk, IsErrOf, ◌+◌, ◌≤◌, ◌^◌, All, Err, IfSome, IsOkUnless, None, Some, length, replicate, true};
ghost use Rattle.rds_stream.specs.Recording.{length_of};
ghost use Rattle.rds_crew.specs.{declared.deal.Event.TheVariants.Draw, declared.deal.Event.TheVariants.Finish, declared.deal.Event.TheVariants.Progress, Seats.DidWholeRun, Seats.DrewAllOnce, Seats.HasRested, Seats.IsOf, Seats.fresh_seat, Seats.seat_after};
ghost use Rattle.rds_code.specs.declared.error.RdsError.TheVariants.{CrewRange, OutOfMemory};
ghost use Rattle.rds_pieces.specs.Cutting.{IsCutting};
ghost use Rattle.rds_sync.specs.{Decoding.listed, Report.report_items, Totals.totals_of};

use rds_code::RdsError;
use rds_crew::{Dealer, OpenGate, Seat, decode_crew};
use rds_pieces::{Cutting, RecordingWork};
use rds_stream::Recording;
use rds_sync::{Report, Rules};
use std::alloc::Global;
use std::thread::Threads;

/// The report of a recording by 1 to 256 workers, however it is cut: that of one decoder. Only memory is refused else.
pub fn decoded_by_any<R: Threads + Sync>(
    rt: &R,
    alloc: Global,
    recording: &Recording,
    rules: &Rules,
    cutting: &Cutting,
    workers: u32,
) -> Result<Report, RdsError>
    requires { IsCutting (length_of recording.now) cutting.now }
    ensures items { IfOk result (λ report. report.items ≡ listed recording.now rules.now (report_items recording.now rules.now)) }
    ensures totals { IfOk result (λ report. report.totals ≡ totals_of (report_items recording.now rules.now)) }
    ensures range { IsErrOf result CrewRange ↔ ((workers ≡ 0) ⊎ (256 < workers)) }
    ensures refused { IfErr result (λ error. (error ≡ CrewRange) ⊎ (error ≡ OutOfMemory)) }
{
    let work = RecordingWork::new(recording, rules, cutting);
    decode_crew(rt, alloc, &work, workers, &OpenGate)
}

/// A dealer with 1 to 256 seats, which have drawn nothing. Only memory is refused else.
pub fn with_seats(alloc: Global, pieces: u64, seats: u32) -> Result<(Dealer, Vec<Seat>), RdsError>
    requires { pieces < 2 ^ 63 }
    ensures pieces { IfOk result (λ made. made.0.name.pieces ≡ pieces) }
    ensures seats { IfOk result (λ made. made.0.seats ≡ seats) }
    ensures fresh { IfOk result (λ made. made.1.items ≡ replicate seats (fresh_seat made.0)) }
    ensures none { seats ≡ 0 → result ≡ Err CrewRange }
    ensures all { seats ≡ 256 → IsOkUnless result OutOfMemory }
{
    Dealer::new(alloc, pieces, seats)
}

/// A draw of a seat is one event, unless it has ended. The number is then held, and can be finished; a seat that got none has rested.
pub fn draw_and_finish(dealer: &Dealer, seat: Seat) -> (Option<u64>, Seat)
    requires own { IsOf dealer.now seat }
    requires empty { seat.view.held ≡ None }
    ensures own { IsOf dealer.now result.1 }
    ensures number { IfSome result.0
        (λ j. (j < dealer.now.name.pieces) × (result.1 ≡ seat_after (seat_after seat (Draw (Some j))) Finish)) }
    ensures none { result.0 ≡ None → HasRested result.1 }
    ensures going { seat.view.ended ≡ 0 → result.0 ≡ None → result.1 ≡ seat_after seat (Draw None) }
    ensures ended { seat.view.ended ≡ 1 → result ≡ (None, seat) }
{
    let (number, seat) = dealer.draw(seat);
    let is_told = seat.holding() == number && seat.ended() == number.is_none();
    prove!(is_told);
    match number {
        Some(j) => (number, dealer.finish(seat, j)),
        None => (None, seat),
    }
}

/// Progress never falls, and is below the number of pieces while the seat holds one. It is one event of the seat.
pub fn progress_rises(dealer: &Dealer, seat: Seat) -> (u64, Seat)
    requires { IsOf dealer.now seat }
    ensures own { IsOf dealer.now result.1 }
    ensures event { result.1 ≡ seat_after seat (Progress result.0) }
    ensures within { result.0 ≤ dealer.now.name.pieces }
    ensures held { IfSome seat.view.held (λ _. result.0 < dealer.now.name.pieces) }
{
    let (own, before) = (seat.finished(), seat.told());
    let (done, seat) = dealer.progress(seat);
    let is_told = own <= done && before <= done && seat.told() == done;
    prove!(is_told);
    (done, seat)
}

/// Once all seats are back, each number was drawn once and is finished. Their events are a run of the core.
pub fn closed(dealer: Dealer, seats: Vec<Seat>) -> bool
    requires all { length seats.items ≡ dealer.seats }
    requires own { All (IsOf dealer) seats.items }
    requires rested { All HasRested seats.items }
    ensures whole { result ≡ true }
    ensures once { DrewAllOnce dealer.name.pieces seats.items }
    ensures run { DidWholeRun dealer seats.items }
{
    let closed = dealer.close(seats);
    closed.drawn == closed.finished
}
