//! Cuttings of a recording into pieces.
ghost use Rattle.std.specs.Prelude.{◌≡◌, ℕ, List, ◌+◌, ◌<◌, ◌≤◌, IsTrue, ◌↔◌, IfOk, IfErr, IsOkUnless, length, slice_index};
ghost use Rattle.rds_pieces.specs.Cutting.{IsCutting, pieces_of, even_places};
ghost use Rattle.rds_code.specs.declared.error.RdsError.TheVariants.{BadCutting, OutOfMemory};

use rds_code::RdsError;
use std::alloc::Global;
use std::marker::Model;

/// The places at which a recording is cut: they rise strictly, the first is 0 and the last is the recording's length.
/// Contracts see the list of places. A recording of no bits has the one cutting 0, without a piece.
#[derive(Drop)]
pub struct Cutting {
    places: Vec<u64>,
}

impl Model for Cutting {
    ghost use Rattle.std.specs.Prelude.{ℕ, List, slice_index, length, ◌-◌};
    ghost use Rattle.rds_pieces.specs.Cutting.{IsCutting};

    ghost Value = { List ℕ };

    ghost view = { λ c. c.places.items };

    ghost invariant = { λ c. IsCutting (slice_index c.places.items
        (length c.places.items - 1)) c.places.items };
}

impl Cutting {
    /// The cutting at these places of a recording of `len` bits. If they are no cutting of that length, the
    /// answer is `BadCutting` with the list given back. Takes no memory.
    pub fn new(places: Vec<u64>, len: u64) -> Result<Cutting, (RdsError, Vec<u64>)>
        ensures ok { IfOk result (λ c. (c ≡ places.items) × IsCutting len places.items) }
        ensures err { IfErr result (λ e. (e.0 ≡ BadCutting) × (e.1 ≡ places) × ¬ IsCutting len places.items) }
    {
        if is_cutting(places.as_slice(), len) {
            Ok(Cutting { places })
        } else {
            Err((RdsError::BadCutting, places))
        }
    }

    /// The even cutting of `len` bits: places 0, s, 2s and so on below `len`, then `len`, where s is `len`
    /// divided by `pieces`, 1 or more, rounded up. It has at most `pieces` pieces, and each but the last is
    /// of s bits. Its only error is `OutOfMemory`.
    pub fn even(alloc: Global, len: u64, pieces: u64) -> Result<Cutting, RdsError>
        requires { 1 ≤ pieces }
        ensures ok { IfOk result (λ c. c ≡ even_places len pieces) }
        ensures cutting { IfOk result (λ c. IsCutting len c) }
        ensures err { IsOkUnless result OutOfMemory }
    {
        let bits = len.div_ceil(pieces);
        let inside = if len == 0 { 0 } else { len.div_ceil(bits) };
        let mut places = Vec::new(alloc);
        for piece in 0..inside {
            places.push(piece * bits)?;
        }
        places.push(len)?;
        Ok(Cutting { places })
    }

    /// How many pieces it has.
    pub fn pieces(&self) -> u64
        ensures { result ≡ pieces_of self.now }
    {
        self.places.len() as u64 - 1
    }

    /// The first place of piece `j`, from 0 on.
    pub fn from(&self, j: u64) -> u64
        requires { j < pieces_of self.now }
        ensures { result ≡ slice_index self.now j }
    {
        self.places[j as usize]
    }

    /// The place after the last of piece `j`, from 0 on.
    pub fn to(&self, j: u64) -> u64
        requires { j < pieces_of self.now }
        ensures { result ≡ slice_index self.now (j + 1) }
    {
        self.places[j as usize + 1]
    }
}

/// Whether the places begin with 0, end with `len` and rise strictly.
fn is_cutting(places: &[u64], len: u64) -> bool
    ensures { IsTrue result ↔ IsCutting len places.now }
{
    let count = places.len();
    if count == 0 || places[0] != 0 || places[count - 1] != len {
        return false;
    }
    for i in 1..count {
        if places[i] <= places[i - 1] {
            return false;
        }
    }
    true
}
