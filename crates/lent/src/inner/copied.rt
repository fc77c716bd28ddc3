// The lent forms for callers who hold their table or their entries by value: what is held is lent for the calls.
ghost use Rattle.std.specs.Prelude.{◌≡◌, ◌≤◌, take};
ghost use Rattle.tables.specs.Slots.{extended};
ghost use Rattle.tables.specs.Answers.{table_answer_in};
ghost use Rattle.lent.specs.Copied.{answers_in, answers_of};

use crate::{
    current_tai_minus_utc, is_empty, last_update, len, tai_minus_utc_at, try_extend, try_from_slice,
};
use refusals::Refusal;
use scales::tai::Tai;
use tables::{Dated, LeapEntry, LeapTable, TableAnswer};

// What each call answers for one list.
#[derive(Clone, Copy)]
pub struct Answers {
    pub check: Result<(), Refusal>,
    pub length: Result<usize, Refusal>,
    pub empty: Result<bool, Refusal>,
    pub update: Result<Option<Tai>, Refusal>,
    pub current: Result<i32, Refusal>,
    pub in_force: Dated<i32>,
}

// A table extended in place.
pub fn extended_in_place(table: LeapTable, entry: LeapEntry) -> TableAnswer
    ensures { table_answer_in result ≡ extended table entry }
{
    let mut grown = table;
    let answer = try_extend(&mut grown, entry);
    TableAnswer {
        answer,
        table: grown,
    }
}

// The first n entries, or all 70, lent as a list to every call.
pub fn answers_of_first(entries: [LeapEntry; 70], n: usize, tai: Tai) -> Answers
    ensures { answers_in result ≡ answers_of (take n entries) tai.0 }
{
    lent_to_all(entries, n.min(70), tai)
}

fn lent_to_all(entries: [LeapEntry; 70], n: usize, tai: Tai) -> Answers
    requires { n ≤ 70 }
    ensures { answers_in result ≡ answers_of (take n entries) tai.0 }
{
    let list = &entries[..n];
    Answers {
        check: try_from_slice(list),
        length: len(list),
        empty: is_empty(list),
        update: last_update(list),
        current: current_tai_minus_utc(list),
        in_force: tai_minus_utc_at(list, tai),
    }
}
