// Civil readings by the built-in table. It is proved to be on days, so no table is tested.
ghost use Rattle.std.specs.Prelude.{◌≡◌};
ghost use Rattle.refusals.specs.Outcome.{outcome_in};
ghost use Rattle.scales.specs.Answers.{gps_in};
ghost use Rattle.builtin.specs.Builtin.{builtin};
ghost use Rattle.readings.specs.Readings.{gps_to_civil, count_of_fields, civil_to_gps};

use crate::inner::{INSERTED, back, read};
use builtin::inner::by_utc::gps_from_utc;
use builtin::inner::lookup::{entry_told, event_at};
use civil::CivilDateTime;
use conversions::inner::{reading_of, steps, tai_of};
use counts::units::NANOS_PER_SECOND;
use refusals::Refusal;
use scales::gps::Gps;

pub fn gps_to_civil(gps: Gps) -> Result<CivilDateTime, Refusal>
    ensures { outcome_in result ≡ gps_to_civil builtin gps.0 }
{
    let tai = tai_of(Ok(gps.0));
    read(entry_told(event_at(tai?)), tai)
}

// The count of fields that exist. The later of the GPS counts that have a UTC count is a second before the first of those
// that have the UTC count a second on, so one lookup finds it. Only second 60, and what has no such UTC count, take two.
fn count_of(fields: CivilDateTime) -> Result<u64, Refusal>
    ensures { outcome_in result ≡ count_of_fields builtin fields }
{
    let utc = fields.to_utc_nanos();
    if fields.second != INSERTED {
        let next = steps::up(utc, NANOS_PER_SECOND);
        if let Ok(_) = next {
            return steps::down(gps_from_utc(next), NANOS_PER_SECOND);
        }
    }
    let first = gps_from_utc(utc);
    let found = entry_told(event_at(reading_of(tai_of(first))));
    back(fields, utc, first, found)
}

// Refuses 15 to 19 and 11 for the first field that is out of range, then 14 where the second is 60 and no GPS count is
// read so, then 1.
pub fn civil_to_gps(fields: CivilDateTime) -> Result<Gps, Refusal>
    ensures { gps_in result ≡ civil_to_gps builtin fields }
{
    fields.check()?;
    Ok(Gps(count_of(fields)?))
}
