//! The forms of each task, over a whole recording.
use rds_code::{offset_of, plain};
use rds_pieces::{Cutting, speculate};
use rds_stream::{Recording, ValidWindows, scan};
use rds_sync::{Decoder, Rules, State, Totals, decode_plain};
use std::alloc::Global;

/// A form of a task.
#[derive(Clone, Copy)]
pub enum Form {
    /// The valid windows, as a list.
    Scan,
    /// Those one after the other.
    Windows,
    /// Those place by place, each remainder by tables.
    Places,
    /// Those place by place, each remainder by long division.
    DividedPlaces,
    /// The valid blocks, by the report of one decoder.
    Report,
    /// Those by the guess of a piece, which is the whole recording.
    Guess,
    /// Those item by item.
    Items,
}

impl Form {
    /// The form of this name.
    pub fn named(name: &str) -> Option<Form> {
        match name {
            "scan" => Some(Form::Scan),
            "windows" => Some(Form::Windows),
            "places" => Some(Form::Places),
            "divided" => Some(Form::DividedPlaces),
            "report" => Some(Form::Report),
            "guess" => Some(Form::Guess),
            "items" => Some(Form::Items),
            _ => None,
        }
    }

    /// Does the task. Answers a number that depends on its whole result, or none if memory is refused.
    pub fn find(self, alloc: Global, recording: &Recording, rules: &Rules) -> Option<u64> {
        match self {
            Form::Scan => count_windows(alloc, recording),
            Form::Windows => Some(one_after_the_other(recording)),
            Form::Places => Some(place_by_place(recording)),
            Form::DividedPlaces => Some(by_divided_places(recording)),
            Form::Report => count_report(alloc, recording, rules),
            Form::Guess => count_guess(alloc, recording, rules),
            Form::Items => Some(item_by_item(recording, rules)),
        }
    }
}

fn count_windows(alloc: Global, recording: &Recording) -> Option<u64> {
    match scan(alloc, recording, 0, recording.len()) {
        Ok(windows) => Some(windows.len() as u64),
        Err(_) => None,
    }
}

fn one_after_the_other(recording: &Recording) -> u64 {
    ValidWindows::new(recording, 0, recording.len()).count() as u64
}

fn place_by_place(recording: &Recording) -> u64 {
    let mut found = 0u64;
    for place in 25..recording.len() {
        found = found.wrapping_add(u64::from(recording.offset(place).is_some()));
    }
    found
}

fn by_divided_places(recording: &Recording) -> u64 {
    let mut found = 0u64;
    for place in 25..recording.len() {
        let offset = offset_of(plain::rem26(recording.window(place)));
        found = found.wrapping_add(u64::from(offset.is_some()));
    }
    found
}

fn count_report(alloc: Global, recording: &Recording, rules: &Rules) -> Option<u64> {
    match decode_plain(alloc, recording, rules) {
        Ok(report) => Some(report.totals.valid),
        Err(_) => None,
    }
}

fn count_guess(alloc: Global, recording: &Recording, rules: &Rules) -> Option<u64> {
    let Ok(cutting) = Cutting::even(alloc, recording.len(), 1) else {
        return None;
    };
    if cutting.pieces() == 0 {
        return Some(0);
    }
    match speculate(alloc, recording, rules, &cutting, 0) {
        Ok(run) => Some(run.totals().valid),
        Err(_) => None,
    }
}

fn item_by_item(recording: &Recording, rules: &Rules) -> u64 {
    let mut valid = 0u64;
    for item in Decoder::new(recording, rules, State::Searching, 0, recording.len()) {
        valid = valid.saturating_add(Totals::of_item(&item).valid);
    }
    valid
}
