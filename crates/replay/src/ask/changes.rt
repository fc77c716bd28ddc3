// What the exported calls that change an image leave there: its length and last entry, or its expiry.
use crate::numbered;
use crate::reply::{Question, Reply};
use plaitgate::leap_tables::{
    plaitgate_table_entry_at, plaitgate_table_expiry, plaitgate_table_from_builtin,
    plaitgate_table_from_entries, plaitgate_table_len, plaitgate_table_new,
    plaitgate_table_try_extend,
};

pub fn changes(call: u64, q: Question) -> Reply {
    let mut image = [0u8; 784];
    let number = change(call, q, &mut image);
    afterwards(number, &image)
}

// Puts a table into an image, and makes the call over it. Gives the number of the refusal.
pub fn change(call: u64, q: Question, image: &mut [u8; 784]) -> u32 {
    numbered::put(q.x.size, image);
    match call {
        1 => plaitgate_table_new(image),
        2 => plaitgate_table_from_builtin(image),
        3 => from_entries(q, image),
        _ => plaitgate_table_try_extend(image, q.y.size, q.z.narrow()),
    }
}

// The table of the question's entries: none to three, or 65.
fn from_entries(q: Question, image: &mut [u8; 784]) -> u32 {
    let list = numbered::list(q);
    plaitgate_table_from_entries(&list[..12 * numbered::entries(q)], image)
}

// The expiry of a table after it is set to the second input.
pub fn expiry(q: Question) -> Reply {
    let mut image = [0u8; 784];
    let set = numbered::put_expiring(q.x.size, q.y.size, &mut image);
    expiry_in(set, &image)
}

// The expiry in an image. Reading it is refused as setting it was, or no line agrees.
fn expiry_in(set: u32, image: &[u8; 784]) -> Reply {
    let mut found: u8 = 1;
    let mut tai: u64 = 1;
    let number = plaitgate_table_expiry(image, &mut found, &mut tai);
    if set != number {
        return Reply::unknown();
    }
    Reply::two(number, found as u64, tai)
}

fn afterwards(number: u32, image: &[u8; 784]) -> Reply {
    let mut len: u64 = 1;
    plaitgate_table_len(image, &mut len);
    if len == 0 {
        return Reply::one(number, 0);
    }
    let mut found: u8 = 1;
    let mut tai_nanos: u64 = 1;
    let mut tai_minus_utc: i32 = 1;
    plaitgate_table_entry_at(
        image,
        len - 1,
        &mut found,
        &mut tai_nanos,
        &mut tai_minus_utc,
    );
    Reply::entry(number, len, tai_nanos, tai_minus_utc)
}
