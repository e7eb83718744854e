//! The search of the nearest block.
ghost use Rattle.std.specs.Prelude.{◌≡◌, ◌^◌, ◌<◌, length, bit_xor, min};
ghost use Rattle.rds_code.specs.{declared.reading.Wanted.TheVariants.Either, Offsets.word, Remainder.rem};
ghost use Rattle.rds_soft.specs.{Inside.Lightest.effect as the_effect, Inside.Lightest.confidence, Inside.Rows.AreRows, ReadAgain.turn_of, ReadAgain.turn_third, ReadAgain.turn_to as the_turn_to, ReadAgain.within as the_within};

use crate::correction::Correction;
use crate::lightest::{Row, SYMBOLS, fill_rows};
use crate::look_back::{FAR, look_back};
use crate::margin::Margin;
use rds_code::laws::remainders_are_linear;
use rds_code::{BlockNumber, Offset, RdsError, Wanted, rem26};
use std::alloc::Global;
use std::marker::Model;

/// The weight past which flips correct nothing.
const TOP: u16 = 127;

/// Room for searches of the nearest block: 27,648 bytes, used again by each. Clauses see nothing of it.
#[derive(Drop)]
pub struct Search {
    rows: Vec<Row>,
}

impl Model for Search {
    ghost use Rattle.std.specs.Prelude.{◌≡◌, length};

    ghost Value = { Unit {0} };

    ghost view = { λ _. tt };

    ghost invariant = { λ s. length s.rows.items ≡ 27 };
}

impl Search {
    ghost use Rattle.std.specs.Prelude.{◌≡◌, ◌^◌, ◌<◌, IsOkUnless, length};
    ghost use Rattle.rds_soft.specs.{Nearest.IsCorrection, ReadAgain.correction};

    /// The room. Fails only with `OutOfMemory`.
    pub fn new(alloc: Global) -> Result<Search, RdsError>
        ensures only_memory { IsOkUnless result RdsError.OutOfMemory }
    {
        let rows = vec![in alloc; [0u8; 1024]; SYMBOLS]?;
        Ok(Search { rows })
    }

    /// The correction of the window `w`, a word of 26 bits that is not valid, as block `number`: the nearest block, or none.
    /// `confidences` are those of the 27 symbols from the one before the window on.
    #[tactic(auto, using(crate::proofs::ReadAgainLaws::correction_is))]
    pub fn nearest(
        &mut self,
        w: u32,
        confidences: &[u8; 27],
        number: BlockNumber,
        wanted: Wanted,
        margin: Margin,
    ) -> Option<Correction>
        requires { w < 2 ^ 26 }
        ensures { IsCorrection w number wanted confidences.now margin result }
    {
        remainders_are_linear();
        prove!(number.get() <= 4 && margin.weight() <= 127);
        self.correction(w, confidences, number, wanted, margin)
    }

    /// The same, as it is computed.
    #[tactic(auto, unfolding(crate::specs::ReadAgain::correction))]
    pub(crate) fn correction(
        &mut self,
        w: u32,
        confidences: &[u8; 27],
        number: BlockNumber,
        wanted: Wanted,
        margin: Margin,
    ) -> Option<Correction>
        requires { w < 2 ^ 26 }
        ensures { result ≡ correction w number wanted confidences.now margin }
    {
        fill_rows(&mut self.rows, confidences);
        within(
            nearest_turn(&self.rows, confidences, w, number, wanted),
            margin,
        )
    }
}

/// The lightest flips that turn a window into a block with an offset, and the least weight of any others, each known below 255.
#[derive(Clone, Copy)]
struct Turn {
    offset: Offset,
    flips: u32,
    weight: u16,
    others: u16,
}

/// The correction by this turn, if it is within the top and the margin.
fn within(turn: Turn, margin: Margin) -> Option<Correction>
    ensures { result ≡ the_within turn margin }
{
    let Turn {
        offset,
        flips,
        weight,
        others,
    } = turn;
    if weight > TOP {
        return None;
    }
    if others < weight + u16::from(margin.weight()) {
        return None;
    }
    Some(Correction { offset, flips })
}

/// The nearest turn of the window to a wanted offset of block `number`.
fn nearest_turn(
    rows: &[Row],
    confidences: &[u8],
    w: u32,
    number: BlockNumber,
    wanted: Wanted,
) -> Turn
    requires rows { length rows.now ≡ 27 }
    requires symbols { length confidences.now ≡ 27 }
    requires least { AreRows the_effect (confidence confidences.now) rows.now }
    requires block { w < 2 ^ 26 }
    ensures { result ≡ turn_of w number wanted confidences.now }
{
    match (number.get(), wanted) {
        (1, _) => turn_to(rows, confidences, w, Offset::A),
        (2, _) => turn_to(rows, confidences, w, Offset::B),
        (4, _) => turn_to(rows, confidences, w, Offset::D),
        (_, Wanted::OnlyC) => turn_to(rows, confidences, w, Offset::C),
        (_, Wanted::OnlyCx) => turn_to(rows, confidences, w, Offset::Cx),
        (_, Wanted::Either) => turn_to_either(rows, confidences, w),
    }
}

/// The nearest turn to block 3 of either version.
fn turn_to_either(rows: &[Row], confidences: &[u8], w: u32) -> Turn
    requires rows { length rows.now ≡ 27 }
    requires symbols { length confidences.now ≡ 27 }
    requires least { AreRows the_effect (confidence confidences.now) rows.now }
    requires block { w < 2 ^ 26 }
    ensures { result ≡ turn_third w Either confidences.now }
{
    let version_a = turn_to(rows, confidences, w, Offset::C);
    let version_b = turn_to(rows, confidences, w, Offset::Cx);
    if version_a.weight <= version_b.weight {
        beside(version_a, version_b.weight)
    } else {
        beside(version_b, version_a.weight)
    }
}

/// The turn, with a rival of this weight.
fn beside(turn: Turn, rival: u16) -> Turn
    ensures { result ≡ record turn { others = min turn.others rival } }
{
    Turn {
        others: turn.others.min(rival),
        ..turn
    }
}

/// The lightest turn to this offset.
fn turn_to(rows: &[Row], confidences: &[u8], w: u32, offset: Offset) -> Turn
    requires rows { length rows.now ≡ 27 }
    requires symbols { length confidences.now ≡ 27 }
    requires least { AreRows the_effect (confidence confidences.now) rows.now }
    requires block { w < 2 ^ 26 }
    ensures { result ≡ the_turn_to w confidences.now offset }
{
    let walk = look_back(rows, confidences, sum_of(w, offset));
    Turn {
        offset,
        flips: walk.flips,
        weight: if walk.left == 0 { walk.weight } else { FAR },
        others: walk.others,
    }
}

/// The sum of the window's remainder and the offset word: the effects that turn it.
#[inline(always)]
fn sum_of(w: u32, offset: Offset) -> u16
    requires { w < 2 ^ 26 }
    ensures value { result ≡ bit_xor (rem w) (word offset) }
    ensures small { result < 1024 }
{
    rem26(w) ^ offset.word()
}
