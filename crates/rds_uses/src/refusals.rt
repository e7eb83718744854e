//! Facts that a user who prints refusals relies on: each has one number and one name.
ghost use Rattle.std.specs.Prelude.{◌≡◌, ◌↔◌, IsTrue, codes};

use rds_code::RdsError;

/// Refused memory has number 8.
pub fn out_of_memory() -> (u8, &'static str)
    ensures number { result.0 ≡ 8 }
    ensures name { result.1.now ≡ codes "OutOfMemory" }
{
    (RdsError::OutOfMemory.number(), RdsError::OutOfMemory.name())
}

/// A number tells the refusal.
pub fn told_by_number(one: RdsError, other: RdsError) -> bool
    ensures { IsTrue result ↔ (one ≡ other) }
{
    one.number() == other.number()
}
