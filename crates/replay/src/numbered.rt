// The tables of the recorded list, as images and by value. The list numbers them; its first lines have their entries.
ghost use Rattle.std.specs.Prelude.{◌+◌, ◌≤◌, length};

use crate::reply::Question;
use plaitgate::leap_tables::{
    plaitgate_table_from_builtin, plaitgate_table_new, plaitgate_table_set_expiry,
    plaitgate_table_try_extend,
};
use scales::tai::Tai;
use tables::{LeapEntry, LeapTable};
use words::inner;

// The table of a number, with no expiry, written over an image.
pub fn put(number: u64, image: &mut [u8; 784]) {
    plaitgate_table_new(image);
    match number {
        0 => {}
        1 => {
            plaitgate_table_from_builtin(image);
        }
        2 => {
            plaitgate_table_try_extend(image, 100_000_000_000, 25);
        }
        3 => put_negative(image),
        4 => put_least(image),
        5 => put_greatest(image),
        6 => put_too_long(image),
        _ => *image = image_of(full()),
    }
}

// The same with an expiry. Gives the number of the refusal to set it.
pub fn put_expiring(number: u64, expiry: u64, image: &mut [u8; 784]) -> u32 {
    put(number, image);
    plaitgate_table_set_expiry(image, expiry)
}

// Offsets that rise through 0, a million seconds apart.
fn put_negative(image: &mut [u8; 784]) {
    plaitgate_table_try_extend(image, 0, -3);
    plaitgate_table_try_extend(image, 1_000_000_000_000_000, -2);
    plaitgate_table_try_extend(image, 2_000_000_000_000_000, -1);
    plaitgate_table_try_extend(image, 3_000_000_000_000_000, 0);
    plaitgate_table_try_extend(image, 4_000_000_000_000_000, 1);
    plaitgate_table_try_extend(image, 5_000_000_000_000_000, 2);
}

// Offsets from two below the least that a conversion can use, a thousand million seconds apart.
fn put_least(image: &mut [u8; 784]) {
    plaitgate_table_try_extend(image, 0, -2_147_483_631);
    plaitgate_table_try_extend(image, 1_000_000_000_000_000_000, -2_147_483_630);
    plaitgate_table_try_extend(image, 2_000_000_000_000_000_000, -2_147_483_629);
    plaitgate_table_try_extend(image, 3_000_000_000_000_000_000, -2_147_483_628);
    plaitgate_table_try_extend(image, 4_000_000_000_000_000_000, -2_147_483_627);
}

// The two greatest offsets.
fn put_greatest(image: &mut [u8; 784]) {
    plaitgate_table_try_extend(image, 0, 2_147_483_646);
    plaitgate_table_try_extend(image, 1_000_000_000_000_000_000, 2_147_483_647);
}

// A length of 65, which no table has.
fn put_too_long(image: &mut [u8; 784]) {
    image[0] = 65;
}

// 64 entries, a day apart.
fn full() -> LeapTable {
    let mut table = LeapTable::new();
    for day in 0..64u64 {
        let entry = LeapEntry::new(day * 86_400_000_000_000, (19 + day) as i32);
        table = table.try_extend(entry).table;
    }
    table
}

// The image of a table. What is 784 bytes long is never refused.
pub fn image_of(table: LeapTable) -> [u8; 784] {
    let mut image = [0u8; 784];
    let _ = images::table::write(table, &mut image);
    image
}

// The table of a number, by value.
pub fn table(number: u64) -> LeapTable {
    let mut image = [0u8; 784];
    put(number, &mut image);
    images::table::read(&image).table
}

// The same with an expiry; an invalid table as it is.
pub fn expiring(number: u64, expiry: u64) -> LeapTable {
    table(number).with_expiry(Tai(expiry)).table
}

// How many entries a question has: none to three, or 65.
pub fn entries(q: Question) -> usize
    ensures { result ≤ 65 }
{
    if q.x.size < 4 { q.x.size as usize } else { 65 }
}

// The entries of a question as bytes: three, followed by zeros up to 65.
pub fn list(q: Question) -> [u8; 780] {
    let mut list = [0u8; 780];
    put_entry(&mut list, 0, q.y.size, q.z.narrow());
    put_entry(&mut list, 12, q.fourth.size, q.fifth.narrow());
    put_entry(&mut list, 24, q.sixth.size, q.seventh.narrow());
    list
}

// Writes an entry to a list of entries, from a byte on.
fn put_entry(list: &mut [u8], at: usize, tai_nanos: u64, tai_minus_utc: i32)
    requires { at + 12 ≤ length list.old }
{
    inner::put_number(list, at, 8, tai_nanos);
    let bits = inner::complement(tai_minus_utc) as u64;
    inner::put_number(list, at + 8, 4, bits);
}
