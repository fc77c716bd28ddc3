// The table in an image, tested and looked up where it stands: nothing is copied, and no slot past its length is read.
ghost use Rattle.std.specs.Prelude.{◌≡◌, cond, false, ◌&&◌, [], ◌+◌, ◌≤◌, ◌<◌, eqb, ltb, get_or, None, Some, MatchResult};
ghost use Rattle.refusals.specs.Number.{number_of};
ghost use Rattle.refusals.specs.Outcome.{answered, outcome_in};
ghost use Rattle.tables.specs.Entries.{lookup, on_days};
ghost use Rattle.tables.specs.Slots.{entries_of, valid_table};
ghost use Rattle.tables.specs.Search.{Rises, AtOrBelow, slot_told};
ghost use Rattle.images.specs.Image.{sized, table_in, by_image};

use crate::inner::image::{Image, ValidImage};
use counts::units::NANOS_PER_SECOND;
use refusals::Refusal;
use tables::inner::{NANOS_PER_DAY, OFFSET_OF_NO_ENTRY, a_day_on, place_in_force, told_of_none};
use tables::{Lookup, RUNTIME_CAPACITY};

// The offset of a regular table's first entry.
const FIRST_OFFSET: u64 = 19;

impl<'a> Image<'a> {
    // The threshold in the slot after another, if that is among the first n.
    fn threshold_after(self, n: usize, place: usize) -> Option<u64>
        requires n_bound { n ≤ 64 }
        requires place_bound { place < 64 }
        ensures { result ≡
            cond (ltb (place + 1) n) (Some (get_or (table_in self.entry.bytes.now).thresholds (place + 1) 0)) None }
    {
        if place + 1 < n {
            Some(self.threshold(place + 1))
        } else {
            None
        }
    }

    // What a lookup in n slots tells, where the entry in force is at `place`.
    fn told(self, n: usize, place: usize) -> Lookup
        requires n_bound { n ≤ 64 }
        requires place_bound { place < 64 }
        ensures { result ≡
            cond (eqb n 0) (lookup [] 0)
            (slot_told (table_in self.entry.bytes.now).thresholds (table_in self.entry.bytes.now).offsets n place) }
    {
        if n == 0 {
            return told_of_none();
        }
        Lookup {
            offset: self.offset(place),
            place: Some(place),
            next: self.threshold_after(n, place),
        }
    }

    // What is in force at a TAI reading, or 8: one pass tests the table and finds the place.
    pub fn checked_look_up(self, tai: u64) -> Result<Lookup, Refusal>
        ensures { outcome_in result ≡ by_image self.entry.bytes.now (λ es. answered (lookup es tai)) }
    {
        let n = self.len();
        if RUNTIME_CAPACITY < n {
            return Err(Refusal::BadTable);
        }
        if n == 0 {
            return Ok(self.told(n, 0));
        }
        let mut before = self.threshold(0);
        let mut one_more = self.offset(0) as i64 + 1;
        let mut place: usize = 0;
        for i in 1..n {
            let next = self.threshold(i);
            if next <= before {
                return Err(Refusal::BadTable);
            }
            let given = self.offset(i);
            if given as i64 != one_more {
                return Err(Refusal::BadTable);
            }
            before = next;
            one_more += 1;
            if next <= tai {
                place = i;
            }
        }
        Ok(self.told(n, place))
    }

    // How many of the first n thresholds are at or below a TAI reading, by halves: 7 probes for 64 of them. C hands them
    // over as bytes, and std's search is over items.
    fn count_at_or_below(self, n: usize, tai: u64) -> usize
        requires n_bound { n ≤ 64 }
        requires rises { Rises (table_in self.bytes.now).thresholds n }
        ensures { AtOrBelow (table_in self.entry.bytes.now).thresholds n tai result }
    {
        let mut low: usize = 0;
        let mut high: usize = n;
        while low < high {
            let middle = low + (high - low) / 2;
            if self.threshold(middle) <= tai {
                low = middle + 1;
            } else {
                high = middle;
            }
        }
        low
    }
}

impl<'a> ValidImage<'a> {
    // Bytes that are no image, or hold no valid table, are refused with 8.
    pub fn of(bytes: &'a [u8]) -> Result<Self, Refusal>
        ensures { MatchResult result (λ table. table.image.bytes.now ≡ bytes.entry.now)
            (λ why. (number_of why ≡ 8) × (sized bytes.entry.now && valid_table (table_in bytes.entry.now) ≡ false)) }
    {
        let image = Image::of(bytes)?;
        let _ = image.checked_look_up(0)?;
        Ok(ValidImage { image })
    }

    // What is in force at a TAI reading: a search, and no second pass.
    pub fn look_up(self, tai: u64) -> Lookup
        ensures { result ≡ lookup (entries_of (table_in self.entry.image.bytes.now)) tai }
    {
        let image = self.image;
        let n = image.len();
        let place = place_in_force(image.count_at_or_below(n, tai));
        image.told(n, place)
    }

    // Whether the table is on days: it begins (0, 19), and each later entry is a day or more after the one before and
    // begins a day. Its offset is 19 and its place.
    pub fn is_on_days(self) -> bool
        ensures { result ≡ on_days (entries_of (table_in self.entry.image.bytes.now)) }
    {
        let image = self.image;
        let n = image.len();
        if n == 0 {
            return false;
        }
        let mut before = image.threshold(0);
        if before != 0 {
            return false;
        }
        if image.offset(0) != OFFSET_OF_NO_ENTRY {
            return false;
        }
        for i in 1..n {
            let next = image.threshold(i);
            if !a_day_on(before, next) {
                return false;
            }
            let lead = (FIRST_OFFSET + i as u64) * NANOS_PER_SECOND;
            if (next - lead) % NANOS_PER_DAY != 0 {
                return false;
            }
            before = next;
        }
        true
    }
}

// What is in force at a TAI reading, or 8 where the bytes are no image or hold no valid table.
pub fn checked_look_up(image: &[u8], tai: u64) -> Result<Lookup, Refusal>
    ensures { outcome_in result ≡ by_image image.now (λ es. answered (lookup es tai)) }
{
    Image::of(image)?.checked_look_up(tai)
}
