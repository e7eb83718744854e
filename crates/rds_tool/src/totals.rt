//! The totals by name.
ghost use Rattle.std.specs.Prelude.{◌≡◌, All, map};
ghost use Rattle.rds_tool.specs.{Listing.named_totals, Soft.named_flips, Inside.RowWriter.IsPlain, Inside.RowWriter.IsShort};

use rds_soft::SoftTotals;
use rds_sync::Totals;

/// The twelve totals, each with its name.
pub fn totals_with_names(totals: &Totals) -> [(&'static str, u64); 12]
    ensures named { map (λ total. (total.0.now, total.1)) result ≡ named_totals totals.now }
    ensures plain { All (λ total. IsPlain total.0.now) result }
    ensures short { All (λ total. IsShort total.0.now) result }
{
    [
        ("valid", totals.valid),
        ("burst1", totals.bursts[0]),
        ("burst2", totals.bursts[1]),
        ("burst3", totals.bursts[2]),
        ("burst4", totals.bursts[3]),
        ("burst5", totals.bursts[4]),
        ("lost", totals.lost),
        ("bits", totals.bits),
        ("groups", totals.groups),
        ("complete", totals.complete),
        ("acquired", totals.acquired),
        ("losses", totals.losses),
    ]
}

/// The totals of corrections by flips, each with its name.
pub fn flips_with_names(totals: &SoftTotals) -> [(&'static str, u64); 6]
    ensures named { map (λ total. (total.0.now, total.1)) result ≡ named_flips totals.now }
    ensures plain { All (λ total. IsPlain total.0.now) result }
    ensures short { All (λ total. IsShort total.0.now) result }
{
    [
        ("soft1", totals.flipped[0]),
        ("soft2", totals.flipped[1]),
        ("soft3", totals.flipped[2]),
        ("soft4", totals.flipped[3]),
        ("soft5", totals.flipped[4]),
        ("soft6", totals.flipped[5]),
    ]
}
