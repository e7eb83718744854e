//! Gaps: ranges of places whose bits mean nothing, by rising place.
ghost use Rattle.std.specs.Prelude.{◌≡◌, ◌<◌, ◌≤◌, ◌↔◌, length, true, ◌++◌, drop};
ghost use Rattle.std.specs.List.{All, AllAdjacentBelow};
ghost use Rattle.std.specs.List.Sorted.{IsNonDecreasingBy};
ghost use Rattle.std.specs.Option.{MatchOption};
ghost use Rattle.rds_stream.specs.Recording.{AreGaps};
ghost use Rattle.rds_stream.specs.Inside.Gaps.{AllEndBy, IsFirstAfter};

/// Places in a row whose windows all touch a gap, or of which none does: those from `from` to before `to`.
#[derive(Clone, Copy, Drop)]
pub(crate) struct Section {
    pub from: u64,
    pub to: u64,
    pub touched: bool,
}

/// Whether a recording of `bits` bits may have these gaps: each has a place and is within the bits, and each
/// begins at or after the end of the one before it.
///
/// Its cost: the gaps are read twice. It takes no memory.
pub fn are_gaps(gaps: &[(u64, u64)], bits: u64) -> bool
    ensures { (result ≡ true) ↔ AreGaps bits gaps.now }
{
    are_within(gaps, bits) && are_apart(gaps)
}

/// Whether each has a place and is within the first `bits` bits.
fn are_within(gaps: &[(u64, u64)], bits: u64) -> bool
    ensures { (result ≡ true) ↔ All (λ gap. (gap.0 < gap.1) × (gap.1 ≤ bits)) gaps.now }
{
    gaps.iter().all(|&(from, to)| from < to && to <= bits)
}

/// Whether each begins at or after the end of the one before it.
fn are_apart(gaps: &[(u64, u64)]) -> bool
    ensures { (result ≡ true) ↔ AllAdjacentBelow (λ gap next. gap.1 ≤ next.0) gaps.now (length gaps.now) }
{
    gaps.is_sorted_by(|gap, next| gap.1 <= next.0)
}

/// The first gap that ends after `place`, if there is one.
pub(crate) fn first_after(gaps: &[(u64, u64)], place: u64) -> Option<(u64, u64)>
    requires { IsNonDecreasingBy (λ gap. gap.1) gaps.now }
    ensures { MatchOption result (AllEndBy gaps.now (length gaps.now) place) (IsFirstAfter gaps.now place) }
{
    let before = gaps.partition_point(|gap| gap.1 <= place);
    gaps.get(before).copied()
}

/// Puts these gaps in the place of the first ones.
pub(crate) fn put_first_gaps(stored: &mut [(u64, u64)], gaps: &[(u64, u64)])
    requires { length gaps.now ≤ length stored.old }
    ensures len { length stored.new ≡ length stored.old }
    ensures gaps { stored.new ≡ gaps.now ++ drop (length gaps.now) stored.old }
{
    stored[..gaps.len()].copy_from_slice(gaps);
}
