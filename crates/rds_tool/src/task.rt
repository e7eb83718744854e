//! A job whose settings were looked at, and the text that it writes.
ghost use Rattle.std.specs.Prelude.{◌≡◌};

use crate::{Cuts, Input};
use rds_soft::{Margin, SoftList, SoftTotals};
use rds_stream::Recording;
use rds_sync::{Report, Rules};
use std::marker::Model;

/// A number of workers in its range.
#[derive(Drop)]
pub struct Workers(pub u32);

impl Model for Workers {
    ghost use Rattle.std.specs.Prelude.{ℕ};
    ghost use Rattle.rds_tool.specs.Plans.{AreWorkers};

    ghost Value = { ℕ };

    ghost view = { λ w. w.0 };

    ghost invariant = { λ w. AreWorkers w.0 };
}

/// Settings in their ranges, with the rules that they give.
#[derive(Drop)]
pub struct Plan<'a> {
    pub rules: Rules,
    pub workers: u32,
    pub cuts: &'a Cuts,
}

impl<'a> Model for Plan<'a> {
    ghost use Rattle.rds_tool.specs.Plans.{IsPlan, PlanOf};

    ghost Value = { PlanOf };

    ghost view = { λ p. record { rules = p.rules; workers = p.workers; cuts = p.cuts.now } };

    ghost invariant = { λ p. IsPlan (record { rules = p.rules; workers = p.workers; cuts = p.cuts.now }) };
}

/// A job with the plan that its settings give.
#[derive(Drop)]
pub enum Task<'a> {
    Scan(Input, Workers),
    List(Input, Plan<'a>),
    Totals(Input, Plan<'a>),
    Encode { hex: bool },
    Soft(Input, Plan<'a>, Margin, bool),
}

/// A text that is made, or the source that one is spelled from while it is written.
#[derive(Drop)]
pub enum Text<'a> {
    Whole(Vec<u8>),
    Listing(Listing<'a>),
    /// A recording whose report is written while it is decoded.
    OnePass(Recording, Plan<'a>),
    /// A recording that is scanned, and by how many workers.
    Windows(Recording, Workers),
    /// Groups that are encoded while they are written, with `hex` as lines of digits.
    Groups(Vec<[u16; 4]>, bool),
    /// A report that was read again, and its totals.
    Soft(SoftList, SoftTotals),
}

/// A report and the source of its items.
#[derive(Drop)]
pub struct Listing<'a> {
    pub recording: Recording,
    pub plan: Plan<'a>,
    pub report: Report,
    ghost source: { report.items.source ≡ recording },
    ghost rules: { report.items.rules ≡ plan.rules },
}
