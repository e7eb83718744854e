//! Rows of a stream, in parts that threads make.
ghost use Rattle.std.specs.{Prelude.◌<◌, Prelude.◌^◌, Prelude.◌≡◌, Prelude.◌↔◌, Prelude.[], Prelude.IfOk, Prelude.IsErrOf, Prelude.IsOkUnless, Prelude.Ok, Prelude.OnErr, Prelude.OnOk, Prelude.true, Io.KnownBytes.Appends, List.flat_map};
ghost use Rattle.rds_rows.specs.Writes.{AppendsPrefix};
ghost use Rattle.rds_tool.specs.{Outcome.WritesPrefix, Listing.item_row};

use crate::listing::push_items;
use crate::rows::RowWriter;
use crate::text::write_flushed;
use crate::{Failed, Sink, write_all};
use rds_code::RdsError;
use rds_live::ItemRows;
use rds_sync::Item;
use std::alloc::{AllocError, Global};
use std::marker::Model;
use std::mem;

/// Room for the rows of 64 KiB: a group of 13 bytes has a row of some 50.
const ROOM: usize = 262_144;

/// Rows in parts, so that those of a thread are not copied. Clauses see their bytes.
#[derive(Drop)]
pub struct StreamRows {
    /// Apart from the rest, since this is moved from call to call.
    pen: Box<RowWriter>,
    /// All parts but the last.
    parts: Vec<Vec<u8>>,
    last: Vec<u8>,
}

impl Model for StreamRows {
    ghost use Rattle.std.specs.{Prelude.◌++◌, Prelude.List, Prelude.ℕ, List.flat_map};

    ghost Value = { List ℕ };

    ghost view = { λ rows. flat_map (λ part. part.items) rows.parts.items ++ rows.last.items };
}

impl StreamRows {
    /// No row yet.
    pub fn new(alloc: Global) -> Result<StreamRows, AllocError>
        ensures { IfOk result (λ rows. rows ≡ []) }
    {
        Ok(StreamRows {
            pen: Box::new(alloc, RowWriter::new())?,
            parts: Vec::new(alloc),
            last: Vec::with_capacity(alloc, ROOM)?,
        })
    }

    /// Writes the rows and flushes.
    pub fn write_to<K: Sink>(&self, writer: &mut K) -> Result<(), RdsError>
        requires { K.failed writer.old < 2 ^ 63 }
        ensures ok { OnOk result (Appends (K.contents writer.old) (K.contents writer.new) self.now) }
        ensures flushed { OnOk result (K.is_flushed writer.new ≡ true) }
        ensures count { OnOk result (K.failed writer.new ≡ K.failed writer.old) }
        ensures write { IsErrOf result RdsError.Write ↔ (K.failed writer.old < K.failed writer.new) }
        ensures kinds { IsOkUnless result RdsError.Write }
        ensures prefix { OnErr result (WritesPrefix (K.contents writer.old) (K.contents writer.new)
            (Ok self.now)) }
    {
        match write_parts(writer, self.parts.as_slice()) {
            Ok(()) => write_flushed(writer, self.last.as_slice()),
            Err(Failed) => Err(RdsError::Write),
        }
    }
}

impl ItemRows for StreamRows {
    ghost row_of = { item_row };

    ghost rows = { λ rows. rows };

    fn push_items(&mut self, items: &[Item]) -> Result<(), AllocError> {
        push_items(self.pen.as_mut(), &mut self.last, items)
    }

    fn another(&self, alloc: Global) -> Result<StreamRows, AllocError> {
        StreamRows::new(alloc)
    }

    fn append(&mut self, other: StreamRows) -> Result<(), AllocError> {
        let StreamRows {
            pen: _,
            parts,
            last,
        } = other;
        let mut parts = parts;
        let before = mem::replace(&mut self.last, last);
        self.parts.push(before)?;
        self.parts.append(&mut parts)
    }

    fn clear(&mut self) {
        self.parts.clear();
        self.last.clear();
    }
}

/// Writes these parts, one after another.
fn write_parts<K: Sink>(writer: &mut K, parts: &[Vec<u8>]) -> Result<(), Failed>
    requires { K.failed writer.old < 2 ^ 63 }
    ensures ok { OnOk result (Appends (K.contents writer.old) (K.contents writer.new)
        (flat_map (λ part. part.items) parts.now)) }
    ensures count { OnOk result (K.failed writer.new ≡ K.failed writer.old) }
    ensures failed { OnErr result (K.failed writer.old < K.failed writer.new) }
    ensures prefix { OnErr result (AppendsPrefix (K.contents writer.old) (K.contents writer.new)
        (flat_map (λ part. part.items) parts.now)) }
{
    match parts.split_first() {
        Some((part, rest)) => {
            write_all(writer, part.as_slice())?;
            write_parts(writer, rest)
        }
        None => Ok(()),
    }
}
