//! A list that one worker decodes and writes at the same time.
ghost use Rattle.std.specs.{Prelude.◌+◌, Prelude.◌++◌, Prelude.◌<◌, Prelude.◌^◌, Prelude.◌≡◌, Prelude.◌≤◌, Prelude.[], Prelude.IfOk, Prelude.List, Prelude.OnErr, Prelude.OnOk, Prelude.length, Prelude.vec_capacity, Io.KnownBytes.Appends, List.flat_map};
ghost use Rattle.rds_rows.specs.{Sheets.left_of, Sheets.size_of, Sheets.text_of, Writes.AppendsPrefix, Written.IsWritten};
ghost use Rattle.rds_sync.specs.{Advance.group_item, Lawful.IsLawful, Step.items_of_end, declared.item.Item.Item as AnItem};
ghost use Rattle.rds_stream.specs.Recording.{length_of};
ghost use Rattle.rds_tool.specs.{Inside.OnePass.HasCounted, Inside.OnePass.HasRoom, Listing.item_row, Listing.totals_text, Outcome.list_text};

use crate::listing::{fill_items, fill_totals};
use crate::page::LONGEST_ROW;
use crate::rows::RowWriter;
use crate::totals::totals_with_names;
use rds_rows::{Failed, RowsError, Sheet, Sink, write_all};
use rds_stream::{Counted, Recording};
use rds_sync::{Decoder, Group, Item, Rules, State, Totals, finish, laws};
use std::alloc::{AllocError, Global};

/// How many items a part has at most, whose rows are made and written together: so that most writes have 64 KiB or more.
const PART: usize = 2048;

/// How many rows come last at most: that of the group in progress, and those of the totals.
const LAST: usize = 19;

/// Decodes a recording and writes its list, part by part. Memory that can be refused is taken before the
/// first byte: room for a part of the items and for the longest rows that these may have. Not in line: each text would begin
/// with that room.
#[inline(never)]
pub fn write_in_one_pass<K: Sink>(
    alloc: Global,
    recording: &Recording,
    rules: &Rules,
    writer: &mut K,
) -> Result<(), RowsError>
    requires { K.failed writer.old < 2 ^ 63 }
    ensures { IsWritten K.contents K.failed (list_text rules.now recording.now) writer.old writer.new result }
{
    let mut pass = OnePass::new(alloc, recording.len())?;
    match pass.write_list(recording, rules, writer) {
        Ok(()) => Ok(()),
        Err(Failed) => Err(RowsError::Write),
    }
}

/// Room for a part of the items and for their rows, and the totals of all items so far.
#[derive(Drop)]
struct OnePass {
    items: Vec<Item>,
    rows: RowWriter,
    sheet: Sheet,
    totals: Totals,
}

impl OnePass {
    /// Of a recording of this number of bits, nothing was decoded yet.
    fn new(alloc: Global, bits: u64) -> Result<OnePass, AllocError>
        ensures room { IfOk result (λ pass. HasRoom (vec_capacity pass.items) (size_of pass.sheet)) }
        ensures none { IfOk result (λ pass. HasCounted [] pass.totals) }
    {
        let room = (bits as usize).min(PART) + LAST;
        Ok(OnePass {
            items: Vec::with_capacity(alloc, room)?,
            rows: RowWriter::new(),
            sheet: Sheet::new(alloc, room, LONGEST_ROW)?,
            totals: Totals::NONE,
        })
    }

    /// Writes the list of the recording.
    fn write_list<K: Sink>(
        &mut self,
        recording: &Recording,
        rules: &Rules,
        writer: &mut K,
    ) -> Result<(), Failed>
        requires none { HasCounted [] self.old.totals }
        requires room { HasRoom (vec_capacity self.old.items) (size_of self.old.sheet) }
        requires count { K.failed writer.old < 2 ^ 63 }
        ensures ok { OnOk result (Appends (K.contents writer.old) (K.contents writer.new)
            (list_text rules.now recording.now)) }
        ensures count { OnOk result (K.failed writer.new ≡ K.failed writer.old) }
        ensures failed { OnErr result (K.failed writer.old < K.failed writer.new) }
        ensures prefix { OnErr result (AppendsPrefix (K.contents writer.old) (K.contents writer.new)
            (list_text rules.now recording.now)) }
    {
        prove!(1 <= rules.reach());
        laws::runs_are_reports();
        laws::runs_are_lawful();
        laws::runs_give_few_items();
        let len = recording.len();
        let mut decoder = Decoder::new(recording, rules, State::Searching, 0, len);
        self.write_items(&mut decoder, writer)?;
        let end = decoder.end_state();
        take_end(&mut self.items, group_at_end(recording, rules, end));
        self.write_end(writer)
    }

    /// Writes the rows of the items that are left.
    fn write_items<K: Sink>(
        &mut self,
        decoder: &mut Decoder<'_>,
        writer: &mut K,
    ) -> Result<(), Failed>
        requires none { HasCounted [] self.old.totals }
        requires few { length decoder.old.items ≤ 2 ^ 37 }
        requires room { HasRoom (vec_capacity self.old.items) (size_of self.old.sheet) }
        requires count { K.failed writer.old < 2 ^ 63 }
        ensures ok { OnOk result (Appends (K.contents writer.old) (K.contents writer.new)
            (flat_map item_row decoder.old.items)) }
        ensures counted { OnOk result (HasCounted decoder.old.items self.new.totals) }
        ensures end { OnOk result (decoder.new.end ≡ decoder.old.end) }
        ensures room { OnOk result (HasRoom (vec_capacity self.new.items) (size_of self.new.sheet)) }
        ensures count { OnOk result (K.failed writer.new ≡ K.failed writer.old) }
        ensures failed { OnErr result (K.failed writer.old < K.failed writer.new) }
        ensures prefix { OnErr result (AppendsPrefix (K.contents writer.old) (K.contents writer.new)
            (flat_map item_row decoder.old.items)) }
    {
        'parts: loop {
            decoder.fill(&mut self.items);
            if self.items.is_empty() {
                return Ok(());
            }
            self.add_rows();
            write_all(writer, self.sheet.as_slice())?;
        }
    }

    /// Writes the rows of the last items, and those of all totals.
    fn write_end<K: Sink>(&mut self, writer: &mut K) -> Result<(), Failed>
        requires few { (before : List AnItem) × HasCounted before self.old.totals × (length before + length self.old.items.items ≤ 2 ^ 38) }
        requires last { length self.old.items.items ≤ 1 }
        requires room { HasRoom (vec_capacity self.old.items) (size_of self.old.sheet) }
        requires count { K.failed writer.old < 2 ^ 63 }
        ensures ok { OnOk result (Appends (K.contents writer.old) (K.contents writer.new)
            (flat_map item_row self.old.items.items ++ totals_text self.new.totals)) }
        ensures counted { (before : List AnItem) → HasCounted before self.old.totals
            → HasCounted (before ++ self.old.items.items) self.new.totals }
        ensures count { OnOk result (K.failed writer.new ≡ K.failed writer.old) }
        ensures failed { OnErr result (K.failed writer.old < K.failed writer.new) }
        ensures prefix { OnErr result (AppendsPrefix (K.contents writer.old) (K.contents writer.new)
            (flat_map item_row self.old.items.items ++ totals_text self.new.totals)) }
    {
        self.add_rows();
        fill_all_totals(&mut self.rows, &self.totals, &mut self.sheet);
        write_all(writer, self.sheet.as_slice())
    }

    /// Puts the rows of the items on the sheet, in place of those before, and counts the items.
    fn add_rows(&mut self)
        requires few { (before : List AnItem) × HasCounted before self.old.totals × (length before + length self.old.items.items ≤ 2 ^ 38) }
        requires room { length self.old.items.items ≤ (size_of self.old.sheet).0 }
        requires longest { (size_of self.old.sheet).1 ≡ 168 }
        ensures rows { text_of self.new.sheet ≡ flat_map item_row self.old.items.items }
        ensures left { left_of self.new.sheet + length self.old.items.items ≡ (size_of self.old.sheet).0 }
        ensures size { size_of self.new.sheet ≡ size_of self.old.sheet }
        ensures items { self.new.items ≡ self.old.items }
        ensures counted { (before : List AnItem) → HasCounted before self.old.totals
            → HasCounted (before ++ self.old.items.items) self.new.totals }
    {
        self.sheet.clear();
        fill_items(&mut self.rows, self.items.as_slice(), &mut self.sheet);
        laws::totals_join();
        self.totals = self.totals.plus(Totals::of(self.items.as_slice()));
    }
}

/// Adds the rows of all totals to a sheet.
fn fill_all_totals(rows: &mut RowWriter, totals: &Totals, sheet: &mut Sheet)
    requires room { 18 ≤ left_of sheet.old }
    requires longest { (size_of sheet.old).1 ≡ 168 }
    ensures rows { text_of sheet.new ≡ text_of sheet.old ++ totals_text totals.now }
{
    let all = totals_with_names(totals);
    fill_totals(rows, all.as_slice(), sheet);
}

/// The group in progress, if the run ended so and there is one.
fn group_at_end(recording: &Recording, rules: &Rules, end: State) -> Option<Group>
    requires { IsLawful rules.now (length_of recording.now) end }
    ensures { group_item result ≡ items_of_end recording.now rules.now end }
{
    finish(&mut Counted::new(recording), rules, end)
}

/// Takes the group in progress, if there is one, in place of the items.
fn take_end(items: &mut Vec<Item>, group: Option<Group>)
    requires { 0 < vec_capacity items.old }
    ensures items { items.new.items ≡ group_item group }
    ensures few { length items.new.items ≤ 1 }
    ensures room { vec_capacity items.new ≡ vec_capacity items.old }
{
    items.clear();
    if let Some(group) = group {
        items.push_reserved(Item::Group(group));
    }
}
