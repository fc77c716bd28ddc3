// Leap-second tables that a host holds as images of 784 bytes.
ghost use Rattle.std.specs.Prelude.{◌≡◌, [], eqb, pos, length};
ghost use Rattle.std.proofs.Math.Option.{none};
ghost use Rattle.std.proofs.Math.ListN.{get_elem?};
ghost use Rattle.refusals.specs.Outcome.{Gives, answered, changed};
ghost use Rattle.tables.specs.Entries.{entry, offset_at, current_offset, last_update};
ghost use Rattle.tables.specs.Slots.{table_of};
ghost use Rattle.tables.specs.Expiry.{expiry_in};
ghost use Rattle.images.specs.Image.{table_in, by_image, dated_by_image, image_written, image_extended, image_expiring};
ghost use Rattle.builtin.specs.Builtin.{builtin};
ghost use Rattle.alike.specs.Alike.{alike};
ghost use Rattle.plaitgate.specs.Tables.{leaves, image_built, bit, dated_as, with_stale, found_as, found_entry, found_count};
ghost use Rattle.plaitgate.specs.Tables.{alike_as, in_numbers};

use crate::give;
use crate::give::of_alike;
use scales::tai::Tai;
use tables::LeapTable;

#[unsafe(no_mangle)]
pub extern "C" fn plaitgate_table_new(image: &mut [u8]) -> u32
    ensures { leaves result image.new ≡ image_written (table_of []) image.old }
{
    give::taken(images::table::write(LeapTable::new(), image))
}

#[unsafe(no_mangle)]
pub extern "C" fn plaitgate_table_from_builtin(image: &mut [u8]) -> u32
    ensures { leaves result image.new ≡ image_written (table_of builtin) image.old }
{
    give::taken(images::table::write(builtin::from_builtin(), image))
}

// Entries of 12 bytes each; on a refusal of an entry the image is that of the empty table.
#[unsafe(no_mangle)]
pub extern "C" fn plaitgate_table_from_entries(entries: &[u8], image: &mut [u8]) -> u32
    ensures { leaves result image.new ≡ image_built entries.now image.old }
{
    let built = images::table::build(entries);
    let written = images::table::write(built.table, image);
    give::taken(written.and(built.answer))
}

#[unsafe(no_mangle)]
pub extern "C" fn plaitgate_table_try_extend(
    image: &mut [u8],
    tai_nanos: u64,
    tai_minus_utc: i32,
) -> u32
    ensures { leaves result image.new ≡
        image_extended image.old (entry tai_nanos tai_minus_utc) }
{
    give::taken(images::table::extend(image, tai_nanos, tai_minus_utc))
}

#[unsafe(no_mangle)]
pub extern "C" fn plaitgate_table_len(image: &[u8], len: &mut u64) -> u32
    ensures { Gives 0 (by_image image.now (λ es. answered (length es))) result len.new }
{
    give::length(images::table::len(image), len)
}

#[unsafe(no_mangle)]
pub extern "C" fn plaitgate_table_is_empty(image: &[u8], yes: &mut u8) -> u32
    ensures { Gives 0 (changed bit (by_image image.now (λ es. answered (eqb (length es) 0)))) result
        yes.new }
{
    give::emptiness(images::table::is_empty(image), yes)
}

#[unsafe(no_mangle)]
pub extern "C" fn plaitgate_table_entry_at(
    image: &[u8],
    place: u64,
    found: &mut u8,
    tai_nanos: &mut u64,
    tai_minus_utc: &mut i32,
) -> u32
    ensures { Gives (found_entry none)
        (changed found_entry (by_image image.now (λ es. answered (get_elem? es place)))) result
        (found_as found.new (entry tai_nanos.new tai_minus_utc.new)) }
{
    give::entry(
        images::table::entry_at(image, place as usize),
        found,
        tai_nanos,
        tai_minus_utc,
    )
}

#[unsafe(no_mangle)]
pub extern "C" fn plaitgate_table_last_update(image: &[u8], found: &mut u8, tai: &mut u64) -> u32
    ensures { Gives (found_count none)
        (changed found_count (by_image image.now (λ es. answered (last_update es)))) result
        (found_as found.new tai.new) }
{
    give::update(images::table::last_update(image), found, tai)
}

#[unsafe(no_mangle)]
pub extern "C" fn plaitgate_table_current_tai_minus_utc(image: &[u8], offset: &mut i32) -> u32
    ensures { Gives (pos 0) (by_image image.now (λ es. answered (current_offset es))) result
        offset.new }
{
    give::value(images::table::current_tai_minus_utc(image), 0, offset)
}

// And whether the table is stale at that reading.
#[unsafe(no_mangle)]
pub extern "C" fn plaitgate_table_tai_minus_utc_at(
    image: &[u8],
    tai: u64,
    offset: &mut i32,
    stale: &mut u8,
) -> u32
    ensures { Gives (dated_as (pos 0) 0)
        (with_stale (dated_by_image image.now (λ es. tai) (λ es. answered (offset_at es tai)))) result
        (dated_as offset.new stale.new) }
{
    give::dated(
        images::table::tai_minus_utc_at(image, Tai(tai)),
        0,
        offset,
        stale,
    )
}

#[unsafe(no_mangle)]
pub extern "C" fn plaitgate_table_expiry(image: &[u8], found: &mut u8, tai: &mut u64) -> u32
    ensures { Gives (found_count none)
        (changed found_count (by_image image.now (λ es. answered (expiry_in (table_in image.now))))) result
        (found_as found.new tai.new) }
{
    give::update(images::table::expiry(image), found, tai)
}

// The largest count takes the expiry away.
#[unsafe(no_mangle)]
pub extern "C" fn plaitgate_table_set_expiry(image: &mut [u8], tai: u64) -> u32
    ensures { leaves result image.new ≡ image_expiring image.old tai }
{
    give::taken(images::table::set_expiry(image, Tai(tai)))
}

// How far two tables convert alike: 1 everywhere, 2 before the counts where one extends the other, 3 before them where
// neither does, 0 where nothing is said.
#[unsafe(no_mangle)]
pub extern "C" fn plaitgate_table_alike<'a>(
    old_image: &'a [u8],
    new_image: &'a [u8],
    how: &mut u8,
    gps: &mut u64,
    utc: &mut u64,
) -> u32
    ensures { Gives (alike_as 0 0 0)
        (changed in_numbers (by_image old_image.now (λ es. by_image new_image.now (λ fs. alike es fs)))) result
        (alike_as how.new gps.new utc.new) }
{
    of_alike::alike(alike::by_image::alike(old_image, new_image), how, gps, utc)
}
