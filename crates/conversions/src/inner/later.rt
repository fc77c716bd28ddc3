// The later of two GPS counts that share a UTC count, for a scale that begins between them. It is looked for only where
// the first is before the scale's epoch, and whatever store that was found by, in a table by value.
ghost use Rattle.std.specs.Prelude.{◌≡◌, true};
ghost use Rattle.refusals.specs.Outcome.{outcome_in};
ghost use Rattle.tables.specs.Slots.{entries_of, valid_table};
ghost use Rattle.conversions.specs.Shifted.{later_of};

use crate::inner::by_table;
use counts::{sums, units};
use refusals::Refusal;
use tables::LeapTable;
use tables::inner::slots::Slots;

// The GPS count a second after another, if the table is regular and the two share a UTC count.
pub fn later_of(earlier: u64, table: LeapTable) -> Result<u64, Refusal>
    requires { valid_table table ≡ true }
    ensures { outcome_in result ≡ later_of (entries_of table) earlier }
{
    if !Slots::of_valid(&table).is_regular() {
        return Err(Refusal::Overflow);
    }
    let later = sums::plus(earlier, units::NANOS_PER_SECOND)?;
    let of_earlier = by_table::utc_from_gps(Ok(earlier), table);
    let of_later = by_table::utc_from_gps(Ok(later), table);
    match (of_earlier.answer, of_later.answer) {
        (Ok(utc), Ok(later_utc)) if utc == later_utc => Ok(later),
        _ => Err(Refusal::Overflow),
    }
}
