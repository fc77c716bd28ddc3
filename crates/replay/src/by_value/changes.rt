// Tables made, extended and given an expiry by value. Each is held, byte by byte, to the image that the exported call leaves.
use crate::by_value::said;
use crate::reply::{Question, Reply};
use crate::{ask, numbered};
use lent::inner::copied::extended_in_place;
use refusals::Refusal;
use scales::tai::Tai;
use tables::{LeapEntry, LeapTable, TableAnswer};

pub fn changes(call: u64, q: Question) -> Reply {
    let made = change(call, q);
    let mut lent = [0u8; 784];
    ask::changes::change(call, q, &mut lent);
    if lent != numbered::image_of(made.table) {
        return Reply::unknown();
    }
    afterwards(number_of(made.answer), made.table)
}

// The expiry of a table after it is set to the second input.
pub fn expiry(q: Question) -> Reply {
    let set = numbered::table(q.x.size).with_expiry(Tai(q.y.size));
    let mut lent = [0u8; 784];
    let number = numbered::put_expiring(q.x.size, q.y.size, &mut lent);
    if number_of(set.answer) != number || lent != numbered::image_of(set.table) {
        return Reply::unknown();
    }
    said::update(set.table.expiry())
}

fn number_of(answer: Result<(), Refusal>) -> u32 {
    answer.map_or_else(|why| why.number(), |_| 0)
}

fn change(call: u64, q: Question) -> TableAnswer {
    match call {
        1 => done(LeapTable::new()),
        2 => done(builtin::from_builtin()),
        3 => from_lists(q),
        _ => extended(
            numbered::table(q.x.size),
            LeapEntry::new(q.y.size, q.z.narrow()),
        ),
    }
}

// Extended by value. Where extending in place gives another answer or another table, no line agrees with what comes
// back.
fn extended(table: LeapTable, entry: LeapEntry) -> TableAnswer {
    let grown = table.try_extend(entry);
    let in_place = extended_in_place(table, entry);
    let same_images = numbered::image_of(grown.table) == numbered::image_of(in_place.table);
    if same_images && number_of(grown.answer) == number_of(in_place.answer) {
        grown
    } else {
        done(LeapTable::new())
    }
}

fn done(table: LeapTable) -> TableAnswer {
    TableAnswer {
        answer: Ok(()),
        table,
    }
}

// The table of the question's entries: none to three, or 65.
fn from_lists(q: Question) -> TableAnswer {
    let mut thresholds = [0u64; 65];
    let mut offsets = [0i32; 65];
    thresholds[0] = q.y.size;
    thresholds[1] = q.fourth.size;
    thresholds[2] = q.sixth.size;
    offsets[0] = q.z.narrow();
    offsets[1] = q.fifth.narrow();
    offsets[2] = q.seventh.narrow();
    let n = numbered::entries(q);
    LeapTable::from_lists(&thresholds[..n], &offsets[..n])
}

// A refusal's number with the table's length and last entry.
fn afterwards(number: u32, table: LeapTable) -> Reply {
    match table.len() {
        Ok(n) => last_of(number, n, table),
        Err(_) => Reply::one(number, 0),
    }
}

fn last_of(number: u32, n: usize, table: LeapTable) -> Reply {
    if n == 0 {
        return Reply::one(number, 0);
    }
    match table.entry_at(n - 1) {
        Ok(Some(e)) => Reply::entry(number, n as u64, e.tai_nanos, e.tai_minus_utc),
        _ => Reply::unknown(),
    }
}
