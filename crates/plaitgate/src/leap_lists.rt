// A list of entries that the host lends as bytes, 12 for each, of any length. Nothing is copied, and no call writes to
// it.
ghost use Rattle.std.specs.Prelude.{◌≡◌, false, eqb, pos, length};
ghost use Rattle.std.proofs.Math.Option.{none};
ghost use Rattle.refusals.specs.Outcome.{Gives, answered, changed};
ghost use Rattle.tables.specs.Entries.{offset_at, current_offset, last_update};
ghost use Rattle.images.specs.Listed.{list_checked, of_listed};
ghost use Rattle.plaitgate.specs.Tables.{bit, dated_as, with_stale, found_as, found_count};

use crate::give;
use scales::tai::Tai;

#[unsafe(no_mangle)]
pub extern "C" fn plaitgate_list_check(entries: &[u8]) -> u32
    ensures { result ≡ list_checked entries.now }
{
    give::taken(images::list::try_from_slice(entries))
}

#[unsafe(no_mangle)]
pub extern "C" fn plaitgate_list_len(entries: &[u8], len: &mut u64) -> u32
    ensures { Gives 0 (of_listed entries.now (λ es. answered (length es))) result len.new }
{
    give::length(images::list::len(entries), len)
}

#[unsafe(no_mangle)]
pub extern "C" fn plaitgate_list_is_empty(entries: &[u8], yes: &mut u8) -> u32
    ensures { Gives 0 (changed bit (of_listed entries.now (λ es. answered (eqb (length es) 0)))) result
        yes.new }
{
    give::emptiness(images::list::is_empty(entries), yes)
}

#[unsafe(no_mangle)]
pub extern "C" fn plaitgate_list_last_update(entries: &[u8], found: &mut u8, tai: &mut u64) -> u32
    ensures { Gives (found_count none)
        (changed found_count (of_listed entries.now (λ es. answered (last_update es)))) result
        (found_as found.new tai.new) }
{
    give::update(images::list::last_update(entries), found, tai)
}

#[unsafe(no_mangle)]
pub extern "C" fn plaitgate_list_current_tai_minus_utc(entries: &[u8], offset: &mut i32) -> u32
    ensures { Gives (pos 0) (of_listed entries.now (λ es. answered (current_offset es))) result
        offset.new }
{
    give::value(images::list::current_tai_minus_utc(entries), 0, offset)
}

// A list has no expiry, so it is never stale.
#[unsafe(no_mangle)]
pub extern "C" fn plaitgate_list_tai_minus_utc_at(
    entries: &[u8],
    tai: u64,
    offset: &mut i32,
    stale: &mut u8,
) -> u32
    ensures { Gives (dated_as (pos 0) 0)
        (with_stale (of_listed entries.now (λ es. answered (offset_at es tai)), false)) result
        (dated_as offset.new stale.new) }
{
    give::dated(
        images::list::tai_minus_utc_at(entries, Tai(tai)),
        0,
        offset,
        stale,
    )
}
