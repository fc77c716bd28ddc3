// UTC to GPS by the built-in table, with one lookup. The two lookups of the rule find the offset that holds from a
// second after an event on, so that a repeated count is the first of two: 19, and one more for each event that a UTC
// count is a second past.
ghost use Rattle.std.specs.Prelude.{◌≡◌, ◌≤◌, ◌<◌};
ghost use Rattle.refusals.specs.Outcome.{then, outcome_in};
ghost use Rattle.tables.specs.Entries.{lookup};
ghost use Rattle.conversions.specs.Conversions.{last_reading, utc_to_gps};
ghost use Rattle.builtin.specs.Builtin.{builtin};
ghost use Rattle.builtin.specs.Reached.{count_reached, past_events, past_at};

use crate::inner::lookup;
use conversions::inner;
use counts::units::NANOS_PER_SECOND;
use refusals::Refusal;
use scales::gps_tai::TAI_MINUS_GPS_NS;
use tables::Lookup;

// UTC − TAI before the first event.
const UTC_MINUS_TAI: u64 = inner::GPS_EPOCH_FROM_UTC_EPOCH_NS - TAI_MINUS_GPS_NS;

// The UTC count a second past an event, counted from 0: its threshold is the TAI reading then, by the offset before it.
fn past_event(event: u64) -> u64
    requires { event < 18 }
    ensures { result ≡ past_at event }
{
    lookup::event_threshold(event) + UTC_MINUS_TAI - event * NANOS_PER_SECOND
}

// How many events a UTC count is a second past. The buckets are those of readings, moved by UTC − TAI before the first
// event: the at most 17 s by which the difference then falls move no event into another bucket.
fn events_past(utc: u64) -> u64
    ensures is { result ≡ count_reached utc past_events }
    ensures few { result ≤ 18 }
{
    let before = lookup::events_before(lookup::bucket_of(utc, UTC_MINUS_TAI + lookup::BUCKET));
    before + lookup::reached(past_event(before), utc)
}

// What the last lookup for a UTC count tells.
fn look_up_last(utc: u64) -> Lookup
    ensures { result ≡ lookup builtin (last_reading builtin utc) }
{
    lookup::entry_told(events_past(utc))
}

pub fn gps_from_utc(utc: Result<u64, Refusal>) -> Result<u64, Refusal>
    ensures { outcome_in result ≡ then (outcome_in utc) (utc_to_gps builtin) }
{
    let count = utc?;
    inner::gps_from_lookup(look_up_last(count), Ok(count))
}
