// The entry of a leap-second event, from its UTC date and its new offset.
ghost use Rattle.refusals.specs.Outcome.{Gives};
ghost use Rattle.calendar.specs.Calendar.{on};
ghost use Rattle.builtin.specs.Events.{event_threshold};

use crate::give;
use builtin::events;
use calendar::CivilDate;

// Writes the threshold; the entry's offset is the one given.
#[unsafe(no_mangle)]
pub extern "C" fn plaitgate_entry_of_event(
    year: i32,
    month: u8,
    day: u8,
    tai_minus_utc: i32,
    tai_nanos: &mut u64,
) -> u32
    ensures { Gives 0 (event_threshold (on year month day) tai_minus_utc) result tai_nanos.new }
{
    let date = CivilDate { year, month, day };
    give::threshold(events::entry_of_event(date, tai_minus_utc), tai_nanos)
}
