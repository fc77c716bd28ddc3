// The calls of plaitgate::leap_events, for hosts. Written by tools/write-exports.
ghost use Rattle.refusals.specs.Outcome.{Gives};
ghost use Rattle.calendar.specs.Calendar.{on};
ghost use Rattle.builtin.specs.Events.{event_threshold};

#[unsafe(no_mangle)]
pub extern "C" fn plaitgate_entry_of_event(
    year: i32,
    month: u8,
    day: u8,
    tai_minus_utc: i32,
    tai_nanos: &mut u64,
) -> u32
    ensures { Gives 0 (event_threshold (on year month day) tai_minus_utc) result tai_nanos.new }
{
    plaitgate::leap_events::plaitgate_entry_of_event(year, month, day, tai_minus_utc, tai_nanos)
}
