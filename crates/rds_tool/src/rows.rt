//! Rows of a listing, some on a page at a time.
ghost use Rattle.std.specs.Prelude.{◌+◌, ◌++◌, ◌*◌, ◌<◌, ◌≡◌, ◌≤◌, [], All, OnErr, OnOk, drop, length, map, take};
ghost use Rattle.std.specs.List.{AllByRecursion, flat_map};
ghost use Rattle.rds_sync.specs.declared.item.Item.TheVariants as AnItem;
ghost use Rattle.rds_soft.specs.SoftLists.{item_of};
ghost use Rattle.rds_tool.specs.{Listing.item_row, Listing.row, Listing.total_row, Soft.soft_row, Inside.RowWriter.IsBetween, Inside.RowWriter.IsPlain, Inside.RowWriter.IsShort};
ghost use Rattle.csv.specs.Writing.{writer_under};

use crate::page::{LONGEST_ROW, Page};
use csv::{Error, Writer, WriterBuilder};
use itoa::Buffer;
use rds_soft::{Listed, SoftItem, SoftList};
use rds_sync::Item;
use std::marker::Model;

const DASH: &[u8] = b"-";

/// A page of rows. Those of groups are stored on it; those of acquisitions, losses and totals are written by `csv`.
/// It takes no memory, and no row is refused. Clauses see the bytes of the rows.
#[derive(Drop)]
pub struct RowWriter {
    page: Page,
    /// Writes the rare rows, to a page of its own.
    csv: Writer<Page>,
}

impl Model for RowWriter {
    ghost use Rattle.std.specs.Prelude.{List, ℕ};
    ghost use Rattle.rds_tool.specs.Inside.RowWriter.{IsBetween};

    ghost Value = { List ℕ };

    ghost view = { λ rows. rows.page };

    ghost invariant = { λ rows. IsBetween rows.csv };
}

impl RowWriter {
    /// No row yet.
    #[inline(never)]
    pub fn new() -> RowWriter
        ensures { result ≡ [] }
    {
        RowWriter {
            page: Page::blank(),
            csv: blank_csv(),
        }
    }

    /// The bytes of the rows.
    pub fn as_bytes(&self) -> &[u8]
        ensures { result.now ≡ self.now }
    {
        self.page.as_bytes()
    }

    /// Forgets the rows before, and writes those of the first of these items, for as many as there is room. Answers how
    /// many.
    pub fn write_items(&mut self, items: &[Item]) -> usize
        ensures rows { self.new ≡ flat_map item_row (take result items.now) }
        ensures short { length self.new ≤ result * 168 }
        ensures some { 0 < length items.now → 0 < result }
        ensures few { result ≤ length items.now }
    {
        self.page.clear();
        let mut count = 0;
        while count < items.len() && self.page.room() >= LONGEST_ROW {
            self.push_item(&items[count]);
            count += 1;
        }
        count
    }

    /// Forgets the rows before, and writes those of these totals.
    pub fn write_totals(&mut self, totals: &[(&'static str, u64)])
        requires few { length totals.now ≤ 12 }
        requires plain { All (λ total. IsPlain total.0.now) totals.now }
        requires short { All (λ total. IsShort total.0.now) totals.now }
        ensures rows { self.new ≡ flat_map total_row (map (λ total. (total.0.now, total.1)) totals.now) }
        ensures short { length self.new ≤ length totals.now * 168 }
    {
        self.page.clear();
        for (name, value) in totals {
            self.push_total(name, *value);
        }
    }

    /// Forgets the rows before, and writes those of the items of a list from number `from` to before `to`, for as many as there is room.
    /// Answers how many.
    pub fn write_listed(&mut self, items: &SoftList, from: usize, to: usize) -> usize
        requires order { from ≤ to }
        requires inside { to ≤ length items.now }
        ensures rows { self.new ≡ flat_map soft_row (take result (drop from items.now)) }
        ensures short { length self.new ≤ result * 168 }
        ensures some { from < to → 0 < result }
        ensures few { from + result ≤ to }
    {
        self.page.clear();
        let mut at = from;
        while at < to && self.page.room() >= LONGEST_ROW {
            self.push_listed(&items.get(at));
            at += 1;
        }
        at - from
    }

    /// Appends the row of an item of a list.
    #[inline(always)]
    fn push_listed(&mut self, item: &Listed)
        requires { length self.old + 168 ≤ 8192 }
        ensures text { self.new ≡ self.old ++ soft_row (item_of item.now) }
        ensures short { length self.new ≤ length self.old + 168 }
    {
        match item {
            Listed::Valid(group) => self.page.push_valid_group(group),
            Listed::Other(SoftItem::Acquired { place, number }) => {
                self.push_acquired(*place, *number);
            }
            Listed::Other(SoftItem::Group(group)) => self.page.push_soft_group(group),
            Listed::Other(SoftItem::LostLock { place }) => self.push_loss(*place),
        }
    }

    /// Appends the row of an item.
    #[inline(always)]
    fn push_item(&mut self, item: &Item)
        requires { length self.old + 168 ≤ 8192 }
        ensures text { self.new ≡ self.old ++ item_row item.now }
        ensures short { length self.new ≤ length self.old + 168 }
    {
        match item {
            Item::Acquired { place, number } => self.push_acquired(*place, *number),
            Item::Group(group) => self.page.push_group(group),
            Item::LostLock { place } => self.push_loss(*place),
        }
    }

    #[tactic(auto, using(crate::proofs::RowText::field_steps))]
    fn push_acquired(&mut self, place: u64, number: u8)
        requires { length self.old + 168 ≤ 8192 }
        ensures text { self.new ≡ self.old ++ item_row (AnItem.Acquired place number) }
        ensures short { length self.new ≤ length self.old + 168 }
    {
        let mut places = Buffer::new();
        let mut numbers = Buffer::new();
        let place = places.format(place).as_bytes();
        let number = numbers.format(number).as_bytes();
        let fields = [b"acquired", place, number, DASH, DASH, DASH, DASH, DASH];
        self.push_row(fields.as_slice());
    }

    #[tactic(auto, using(crate::proofs::RowText::field_steps))]
    fn push_loss(&mut self, place: u64)
        requires { length self.old + 168 ≤ 8192 }
        ensures text { self.new ≡ self.old ++ item_row (AnItem.LostLock place) }
        ensures short { length self.new ≤ length self.old + 168 }
    {
        let mut places = Buffer::new();
        let place = places.format(place).as_bytes();
        let fields = [b"lost", place, DASH, DASH, DASH, DASH, DASH, DASH];
        self.push_row(fields.as_slice());
    }

    #[tactic(auto, using(crate::proofs::RowText::field_steps))]
    fn push_total(&mut self, name: &str, value: u64)
        requires room { length self.old + 168 ≤ 8192 }
        requires plain { IsPlain name.now }
        requires short { IsShort name.now }
        ensures text { self.new ≡ self.old ++ total_row (name.now, value) }
        ensures short { length self.new ≤ length self.old + 168 }
    {
        let mut digits = Buffer::new();
        let value = digits.format(value).as_bytes();
        let fields = [
            b"total",
            name.as_bytes(),
            value,
            DASH,
            DASH,
            DASH,
            DASH,
            DASH,
        ];
        self.push_row(fields.as_slice());
    }

    /// Appends a row of two to eight short fields that need no quotes. If `csv` answers an error, it is joined without it.
    fn push_row(&mut self, fields: &[&[u8]])
        requires room { length self.old + 168 ≤ 8192 }
        requires several { 2 ≤ length fields.now }
        requires few { length fields.now ≤ 8 }
        requires plain { AllByRecursion IsPlain (map (λ field. field.now) fields.now) }
        requires short { AllByRecursion IsShort (map (λ field. field.now) fields.now) }
        ensures text { self.new ≡ self.old ++ row (map (λ field. field.now) fields.now) }
        ensures short { length self.new ≤ length self.old + 168 }
    {
        make_room(&mut self.csv);
        let Err(_) = put_record(&mut self.page, &mut self.csv, fields) else {
            return;
        };
        renew(&mut self.csv);
        self.page.put_row(fields);
    }
}

/// Lets a `csv` writer begin anew if it has no room for a row.
fn make_room(csv: &mut Writer<Page>)
    requires { IsBetween csv.old }
    ensures { IsBetween csv.new }
{
    if csv.get_ref().room() < LONGEST_ROW {
        renew(csv);
    }
}

/// Lets a `csv` writer begin anew.
#[cold]
#[inline(never)]
fn renew(csv: &mut Writer<Page>)
    ensures { IsBetween csv.new }
{
    *csv = blank_csv();
}

/// A `csv` writer that has written nothing.
fn blank_csv() -> Writer<Page>
    ensures { IsBetween result }
{
    WriterBuilder::new().from_writer(Page::blank())
}

/// Appends the record that `csv` writes of these fields.
fn put_record(page: &mut Page, csv: &mut Writer<Page>, fields: &[&[u8]]) -> Result<(), Error>
    requires between { IsBetween csv.old }
    requires room { length page.old + 168 ≤ 8192 }
    requires several { 2 ≤ length fields.now }
    requires few { length fields.now ≤ 8 }
    requires plain { AllByRecursion IsPlain (map (λ field. field.now) fields.now) }
    requires short { AllByRecursion IsShort (map (λ field. field.now) fields.now) }
    ensures between { OnOk result (IsBetween csv.new) }
    ensures text { OnOk result (page.new ≡ page.old ++ row (map (λ field. field.now) fields.now)) }
    ensures short { OnOk result (length page.new ≤ length page.old + 168) }
    ensures untouched { OnErr result (page.new ≡ page.old) }
{
    let before = csv.get_ref().as_bytes().len();
    write_record(csv, fields)?;
    page.put_all(&csv.get_ref().as_bytes()[before..]);
    Ok(())
}

/// Writes a record, and moves it to the writer's own page.
fn write_record(csv: &mut Writer<Page>, fields: &[&[u8]]) -> Result<(), Error>
    requires between { IsBetween csv.old }
    requires several { 2 ≤ length fields.now }
    requires plain { AllByRecursion IsPlain (map (λ field. field.now) fields.now) }
    ensures between { OnOk result (IsBetween csv.new) }
    ensures text { OnOk result (writer_under csv.new ≡ writer_under csv.old
        ++ row (map (λ field. field.now) fields.now)) }
{
    csv.write_fields(fields)?;
    csv.flush()
}
