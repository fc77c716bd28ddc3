// Civil readings by a table in bytes, which is tested and looked up where it stands. A table to read by is regular, and each
// of its entries after the first begins a day. Each call refuses an invalid table with 8 before anything else, then one
// that cannot be read by with 13, and tells whether the table is stale at the TAI reading of the GPS count.
ghost use Rattle.std.specs.Prelude.{◌≡◌, ◌+◌};
ghost use Rattle.tables.specs.Answers.{dated_in};
ghost use Rattle.refusals.specs.Outcome.{value_in};
ghost use Rattle.scales.specs.Scales.{tai_minus_gps};
ghost use Rattle.images.specs.Image.{dated_by_image};
ghost use Rattle.readings.specs.Readings.{gps_to_civil, civil_to_gps};

use crate::inner::{back, if_real, read};
use civil::CivilDateTime;
use conversions::inner::{first_reading_of, gps_from_lookup, last_reading_of, reading_of, tai_of};
use images::inner::image::{Image, ValidImage};
use refusals::Refusal;
use scales::gps::Gps;
use tables::Dated;
use tables::inner::is_stale;

// Refuses 8, 13, then as GPS to UTC does.
pub fn gps_to_civil(gps: Gps, image: &[u8]) -> Dated<CivilDateTime>
    ensures { dated_in result ≡
        dated_by_image image.now (λ es. gps.0 + tai_minus_gps) (λ es. gps_to_civil es gps.0) }
{
    let Ok(image) = Image::of(image) else {
        return Dated::new(Err(Refusal::BadTable), false);
    };
    let tai = tai_of(Ok(gps.0));
    let reading = reading_of(tai);
    match image.checked_look_up(reading) {
        Ok(found) => {
            let table = ValidImage { image };
            if !table.is_on_days() {
                return Dated::new(Err(Refusal::NotOnDays), false);
            }
            let stale = is_stale(image.expiry(), reading);
            Dated::new(read(found, tai), stale)
        }
        Err(why) => Dated::new(Err(why), false),
    }
}

// Refuses 8, 13, then 15 to 19 and 11 for the first field that is out of range, then 14 where the second is 60 and no GPS
// count is read so, then 1. Other fields go to the later of two GPS counts. The first of them is found as by
// `images::table::gps_from_utc`.
pub fn civil_to_gps(fields: CivilDateTime, image: &[u8]) -> Dated<u64>
    ensures { dated_in result ≡
        dated_by_image image.now (λ es. value_in 0 (civil_to_gps es fields) + tai_minus_gps)
        (λ es. civil_to_gps es fields) }
{
    let Ok(image) = Image::of(image) else {
        return Dated::new(Err(Refusal::BadTable), false);
    };
    let utc = fields.to_utc_nanos();
    let a = first_reading_of(utc);
    match image.checked_look_up(a) {
        Ok(told) => {
            let table = ValidImage { image };
            if !table.is_on_days() {
                return Dated::new(Err(Refusal::NotOnDays), false);
            }
            let b = last_reading_of(utc, told, a);
            let first = gps_from_lookup(table.look_up(b), utc);
            let found = table.look_up(reading_of(tai_of(first)));
            let gps = if_real(fields, back(fields, utc, first, found));
            let stale = is_stale(image.expiry(), reading_of(tai_of(gps)));
            Dated::new(gps, stale)
        }
        Err(why) => Dated::new(Err(why), false),
    }
}
