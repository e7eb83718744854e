//! The valid windows of a range, one after the other.
ghost use Rattle.std.specs.{Prelude.◌≡◌, Prelude.◌≤◌, Prelude.◌<◌, Prelude.◌-◌, Iterator.at_most};
ghost use Rattle.rds_stream.specs.{Recording.length_of, Inside.Sections.IsSection, ValidWindows.WindowsLeft, ValidWindows.GivesFirst, Inside.ValidPlaces.TellsValidPlaces};

use crate::gaps::Section;
use crate::recording::{FIRST_WINDOW, Recording};
use crate::valid_places::{ValidPlaces, above, lowest};
use rds_code::Offset;
use std::marker::Model;

/// The valid windows of a range, each with its place and its offset, by rising place. Windows that touch a gap are left
/// out: this project's rule.
///
/// It covers 64 places at once, no further than it is asked for, and takes no memory. Contracts see which
/// places are left.
#[derive(Drop)]
pub struct ValidWindows<'a> {
    recording: &'a Recording,
    section: Section,
    places: ValidPlaces,
    end: u64,
}

impl<'a> Model for ValidWindows<'a> {
    ghost Value = { WindowsLeft };

    ghost view = { λ w. record { signal = w.recording.now; next = w.places.next; end = w.end } };

    ghost invariant = { λ w. TellsValidPlaces w.recording.now w.places.next w.places.ahead w.places.word
        × (w.places.ahead < w.end → 25 ≤ w.places.ahead) × (w.places.ahead ≤ w.end)
        × (w.end ≤ length_of w.recording.now)
        × IsSection w.recording.now w.section.from w.section.to w.section.touched };
}

impl ValidWindows<'_> {
    /// The valid windows at the places from `from` to before `to`. `from` is at most `to`, and `to` at most the length.
    /// Windows may begin before `from`, and none before the recording.
    #[tactic(auto, using(std::proofs::lemmas::Grind::common_steps, crate::proofs::WindowLists::off_early, crate::proofs::ValidPlaceLemmas::none_valid))]
    pub fn new(recording: &Recording, from: u64, to: u64) -> ValidWindows<'_>
        requires order { from ≤ to }
        requires end { to ≤ length_of recording.now }
        ensures { result ≡ record { signal = recording.now; next = from; end = to } }
    {
        ValidWindows {
            recording,
            section: Section {
                from,
                to: from,
                touched: false,
            },
            places: ValidPlaces {
                next: from,
                ahead: from.max(FIRST_WINDOW.min(to)),
                word: 0,
            },
            end: to,
        }
    }

    /// Leaves out the windows that end before `place`, which is at most the end of the range.
    #[inline(always)]
    pub fn pass(&mut self, place: u64)
        requires forward { self.old.next ≤ place }
        requires end { place ≤ self.old.end }
        ensures { self.new ≡ record { signal = self.old.signal; next = place; end = self.old.end } }
    {
        self.places = self.places.from_on(place);
    }
}

impl<'a> Iterator for ValidWindows<'a> {
    type Item = (u64, Offset);

    ghost next_gives = { GivesFirst };

    ghost remaining = { λ w. at_most (w.end - w.next) };

    fn next(&mut self) -> Option<(u64, Offset)> {
        let places = self
            .places
            .next_valid(self.recording, &mut self.section, self.end);
        if places.word == 0 {
            self.places = ValidPlaces {
                next: self.end,
                ahead: self.end,
                word: 0,
            };
            return None;
        }
        let bit = lowest(places.word);
        let place = places.next + bit as u64;
        self.places = ValidPlaces {
            next: place + 1,
            ahead: places.ahead,
            word: above(places.word, bit),
        };
        // A place whose bit is a one has an offset.
        let offset = self.recording.stored_offset(place)?;
        Some((place, offset))
    }
}
