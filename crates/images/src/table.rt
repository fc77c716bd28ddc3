// A leap-second table as bytes. An image has 784 bytes, low byte first: the length in 8, 64 thresholds in 8 each,
// 64 offsets in 4 each, the expiry in 8. Any 784 bytes are an image. What they hold may be no valid table, and every
// call with that table then refuses 8. The lookups and conversions test the table and look it up where it stands,
// without a copy.
ghost use Rattle.std.specs.Prelude.{◌≡◌, eqb, length, ◌+◌};
ghost use Rattle.std.proofs.Math.ListN.{get_elem?};
ghost use Rattle.refusals.specs.Outcome.{answered, value_in, then, outcome_in};
ghost use Rattle.tables.specs.Entries.{entry, offset_at, current_offset, last_update};
ghost use Rattle.tables.specs.Answers.{taken_in, table_answer_in, entry_in, update_in, dated_in};
ghost use Rattle.tables.specs.Expiry.{expiry_in};
ghost use Rattle.scales.specs.Scales.{tai_minus_gps};
ghost use Rattle.conversions.specs.Conversions.{gps_to_utc, last_reading, utc_to_gps};
ghost use Rattle.conversions.specs.Shifted.{shifted_to_utc, utc_to_shifted, shifted_reading};
ghost use Rattle.images.specs.Image.{by_image, dated_by_image, image_read, image_written, built_from};
ghost use Rattle.images.specs.Image.{table_in, image_extended, image_expiring};

use crate::inner;
use crate::inner::entries::ListedEntries;
use crate::inner::image::{Image, ValidImage};
use crate::inner::lookup::checked_look_up;
use conversions::inner::{
    first_reading_of, gps_from_lookup, last_reading_of, reading_of, steps, tai_of, utc_from_lookup,
};
use counts::sums;
use refusals::Refusal;
use scales::tai::Tai;
use tables::inner::{OFFSET_OF_NO_ENTRY, dated_offset_in, is_stale};
use tables::{Dated, LeapEntry, LeapTable, NO_EXPIRY, RUNTIME_CAPACITY, TableAnswer};

// The table in an image, or 8 and the empty table where there are not 784 bytes.
pub fn read(image: &[u8]) -> TableAnswer
    ensures { table_answer_in result ≡ image_read image.now }
{
    match Image::of(image) {
        Ok(image) => TableAnswer {
            answer: Ok(()),
            table: image.table(),
        },
        Err(why) => inner::no_table(why),
    }
}

// The image of a table, written over 784 bytes; 8 where there are not 784, and then nothing is written.
pub fn write(table: LeapTable, image: &mut [u8]) -> Result<(), Refusal>
    ensures { (taken_in result, image.new) ≡ image_written table image.old }
{
    let _ = Image::of(image)?;
    inner::put_table(image, table);
    Ok(())
}

// The table of a list of entries, 12 bytes each; 8 where the bytes are no whole number of entries.
pub fn build(entries: &[u8]) -> TableAnswer
    ensures { table_answer_in result ≡ built_from entries.now }
{
    let list = match ListedEntries::of(entries) {
        Ok(list) => list,
        Err(why) => return inner::no_table(why),
    };
    let n = list.len();
    if RUNTIME_CAPACITY < n {
        return inner::no_table(Refusal::BufferFull);
    }
    let mut thresholds = [0u64; RUNTIME_CAPACITY];
    let mut offsets = [0i32; RUNTIME_CAPACITY];
    for i in 0..n {
        let entry = list.entry(i);
        thresholds[i] = entry.tai_nanos;
        offsets[i] = entry.tai_minus_utc;
    }
    LeapTable::from_lists(&thresholds[..n], &offsets[..n])
}

// The image of the table with an entry joined at its end; on a refusal the image as it was.
pub fn extend(image: &mut [u8], tai_nanos: u64, tai_minus_utc: i32) -> Result<(), Refusal>
    ensures { (taken_in result, image.new) ≡
        image_extended image.old (entry tai_nanos tai_minus_utc) }
{
    let before = Image::of(image)?.table();
    inner::store(
        image,
        before.try_extend(LeapEntry::new(tai_nanos, tai_minus_utc)),
    )
}

// The number of entries.
pub fn len(image: &[u8]) -> Result<usize, Refusal>
    ensures { outcome_in result ≡ by_image image.now (λ es. answered (length es)) }
{
    Ok(ValidImage::of(image)?.image.len())
}

pub fn is_empty(image: &[u8]) -> Result<bool, Refusal>
    ensures { outcome_in result ≡ by_image image.now (λ es. answered (eqb (length es) 0)) }
{
    Ok(len(image)? == 0)
}

// The entry at a place, counted from 0.
pub fn entry_at(image: &[u8], place: usize) -> Result<Option<LeapEntry>, Refusal>
    ensures { entry_in result ≡ by_image image.now (λ es. answered (get_elem? es place)) }
{
    let table = ValidImage::of(image)?.image;
    if place < table.len() {
        Ok(Some(table.entry(place)))
    } else {
        Ok(None)
    }
}

// The threshold of the last event: nothing where there is at most the first entry.
pub fn last_update(image: &[u8]) -> Result<Option<Tai>, Refusal>
    ensures { update_in result ≡ by_image image.now (λ es. answered (last_update es)) }
{
    let table = ValidImage::of(image)?.image;
    let n = table.len();
    if 1 < n {
        Ok(Some(Tai(table.threshold(n - 1))))
    } else {
        Ok(None)
    }
}

// The offset of the last entry, or 19.
pub fn current_tai_minus_utc(image: &[u8]) -> Result<i32, Refusal>
    ensures { outcome_in result ≡ by_image image.now (λ es. answered (current_offset es)) }
{
    let table = ValidImage::of(image)?.image;
    let n = table.len();
    if n == 0 {
        Ok(OFFSET_OF_NO_ENTRY)
    } else {
        Ok(table.offset(n - 1))
    }
}

// The offset in force at a TAI reading, and whether the table is stale there. Only an image has an expiry to read: bytes
// of another size are refused by the lookup.
pub fn tai_minus_utc_at(image: &[u8], tai: Tai) -> Dated<i32>
    ensures { dated_in result ≡
        dated_by_image image.now (λ es. tai.0) (λ es. answered (offset_at es tai.0)) }
{
    let found = checked_look_up(image, tai.0);
    dated_offset_in(found, inner::image::expiry(image), tai.0)
}

// The TAI reading from which on the table is stale, or nothing.
pub fn expiry(image: &[u8]) -> Result<Option<Tai>, Refusal>
    ensures { update_in result ≡
        by_image image.now (λ es. answered (expiry_in (table_in image.now))) }
{
    let expiry = ValidImage::of(image)?.image.expiry();
    if expiry == NO_EXPIRY {
        Ok(None)
    } else {
        Ok(Some(Tai(expiry)))
    }
}

// The image of the table with this expiry in place of its own; the largest count takes it away. On a refusal the image
// as it was.
pub fn set_expiry(image: &mut [u8], expiry: Tai) -> Result<(), Refusal>
    ensures { (taken_in result, image.new) ≡ image_expiring image.old expiry.0 }
{
    let before = Image::of(image)?.table();
    inner::store(image, before.with_expiry(expiry))
}

// Refuses 8, then what the step before refused, then 1, 9, 1: the table, the TAI reading, the offset, the result. The
// expiry is read before the lookup: after it the compiler leaves the function out of line.
pub fn utc_from_gps(gps: Result<u64, Refusal>, image: &[u8]) -> Dated<u64>
    ensures { dated_in result ≡
        dated_by_image image.now (λ es. value_in 0 (outcome_in gps) + tai_minus_gps)
        (λ es. then (outcome_in gps) (gps_to_utc es)) }
{
    let Ok(image) = Image::of(image) else {
        return Dated::new(Err(Refusal::BadTable), false);
    };
    let tai = tai_of(gps);
    let reading = reading_of(tai);
    let stale = is_stale(image.expiry(), reading);
    let found = image.checked_look_up(reading);
    Dated::new(utc_from_lookup(found, tai), stale)
}

// Refuses 8, then what the step before refused, then 9, 1: the table, the offset, the result. Where a UTC count repeats
// it is the first of two.
pub fn gps_from_utc(utc: Result<u64, Refusal>, image: &[u8]) -> Dated<u64>
    ensures { dated_in result ≡
        dated_by_image image.now (λ es. last_reading es (value_in 0 (outcome_in utc)))
        (λ es. then (outcome_in utc) (utc_to_gps es)) }
{
    let Ok(image) = Image::of(image) else {
        return Dated::new(Err(Refusal::BadTable), false);
    };
    let a = first_reading_of(utc);
    match image.checked_look_up(a) {
        Ok(first) => {
            let table = ValidImage { image };
            let b = last_reading_of(utc, first, a);
            let found = table.look_up(b);
            let stale = is_stale(image.expiry(), b);
            Dated::new(gps_from_lookup(found, utc), stale)
        }
        Err(why) => Dated::new(Err(why), false),
    }
}

// A scale that is behind GPS, to UTC: the difference is added, then as `utc_from_gps`.
pub fn utc_from_shifted(count: Result<u64, Refusal>, image: &[u8], behind: u64) -> Dated<u64>
    ensures { dated_in result ≡
        dated_by_image image.now (λ es. value_in 0 (outcome_in count) + behind + tai_minus_gps)
        (λ es. then (outcome_in count) (shifted_to_utc behind es)) }
{
    utc_from_gps(steps::up(count, behind), image)
}

// UTC to a scale that is behind GPS: as `gps_from_utc`, then 1 before the scale's epoch.
pub fn shifted_from_utc(utc: Result<u64, Refusal>, image: &[u8], behind: u64) -> Dated<u64>
    ensures { dated_in result ≡
        dated_by_image image.now (λ es. shifted_reading behind es (value_in 0 (outcome_in utc)))
        (λ es. then (outcome_in utc) (utc_to_shifted behind es)) }
{
    let Ok(image) = Image::of(image) else {
        return Dated::new(Err(Refusal::BadTable), false);
    };
    let bytes = image.bytes;
    let found = gps_from_utc(utc, bytes);
    match found.answer {
        Ok(gps) if gps < behind => inner::shifted_by_later(ValidImage { image }, gps, behind),
        Ok(gps) => Dated::new(sums::minus(gps, behind), found.stale),
        Err(why) => Dated::new(Err(why), false),
    }
}
