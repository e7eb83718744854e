//! The lightest flips, from the rows of least weights.
ghost use Rattle.std.specs.Prelude.{◌≡◌, ◌<◌, ◌≤◌, ◌+◌, length};
ghost use Rattle.rds_soft.specs.Inside.{Lightest.effect as the_effect, Lightest.confidence, Lightest.least, Rows.AreRows, Rows.IsWalk};

use crate::lightest::{Row, SYMBOLS, effect};

/// The weight of flips that weigh more, or that are not there.
pub(crate) const FAR: u16 = 255;

/// A look back from the first symbol, as far as it has come.
#[derive(Clone, Copy)]
pub(crate) struct Walk {
    /// The sum that the flips of the symbols from here on must have.
    pub(crate) left: u16,
    /// The flips of the symbols before, the first symbol highest.
    pub(crate) flips: u32,
    /// Their weight.
    pub(crate) weight: u16,
    /// The least weight of other flips, which differ at a symbol before, or [`FAR`].
    pub(crate) others: u16,
}

/// The look back over all 27 symbols, for the lightest flips whose effects have this sum.
pub(crate) fn look_back(rows: &[Row], confidences: &[u8], sum: u16) -> Walk
    requires rows { length rows.now ≡ 27 }
    requires symbols { length confidences.now ≡ 27 }
    requires sum { sum < 1024 }
    requires least { AreRows the_effect (confidence confidences.now) rows.now }
    ensures { IsWalk the_effect (confidence confidences.now) sum 0 result.left result.flips result.weight result.others }
{
    let mut walk = Walk {
        left: sum,
        flips: 0,
        weight: 0,
        others: FAR,
    };
    for back in 0..SYMBOLS {
        walk = one_back(rows, confidences, sum, walk, SYMBOLS - 1 - back);
    }
    walk
}

/// The walk past symbol `n` by its place from the last.
#[inline(always)]
fn one_back(rows: &[Row], confidences: &[u8], sum: u16, walk: Walk, n: usize) -> Walk
    requires rows { length rows.now ≡ 27 }
    requires symbols { length confidences.now ≡ 27 }
    requires least { AreRows the_effect (confidence confidences.now) rows.now }
    requires place { n < 27 }
    requires walk { IsWalk the_effect (confidence confidences.now) sum (n + 1) walk.left walk.flips walk.weight walk.others }
    ensures { IsWalk the_effect (confidence confidences.now) sum n result.left result.flips result.weight result.others }
{
    let turned = walk.left ^ effect(n);
    let confidence = u16::from(confidences[SYMBOLS - 1 - n]);
    let kept_weight = least_of(rows, confidences, n, walk.left);
    let turned_weight = least_of(rows, confidences, n, turned) + confidence;
    if turned_weight < kept_weight {
        Walk {
            left: turned,
            flips: walk.flips + (1 << n),
            weight: walk.weight + confidence,
            others: walk.others.min(walk.weight + kept_weight),
        }
    } else {
        Walk {
            others: walk.others.min(walk.weight + turned_weight),
            ..walk
        }
    }
}

/// The least weight of flips of the last `n` symbols whose effects have this sum, by the rows for these confidences.
#[inline(always)]
fn least_of(rows: &[Row], confidences: &[u8], n: usize, sum: u16) -> u16
    requires rows { length rows.now ≡ 27 }
    requires least { AreRows the_effect (confidence confidences.now) rows.now }
    requires place { n < 27 }
    requires sum { sum < 1024 }
    ensures value { result ≡ least the_effect (confidence confidences.now) n sum }
    ensures small { result ≤ 255 }
{
    let _ = confidences;
    u16::from(rows[n][sum as usize])
}
