//! Tests of the libraries, from outside, of facts that neither a clause nor a built program shows: each uses only
//! public items.
//!
//! - `crew`: the calls that a crew makes of gates and works.
//! - `rows`: that writes are large, and that threads run beside them.
//! - `tool`: flushes, a reader without an end, and cuts at given places.
//! - `sizes`: how much memory a reading and an item take.
#![tactic(auto)]

#[cfg(test)]
mod crew;
#[cfg(test)]
mod rows;
#[cfg(test)]
mod sizes;
#[cfg(test)]
mod tool;
