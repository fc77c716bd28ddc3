// Questions about a lent list: the entries are held by value and lent as they are.
use crate::by_value::said;
use crate::reply::{Question, Reply};
use lent::inner::copied::{Answers, answers_of_first};
use scales::tai::Tai;
use tables::LeapEntry;

pub fn lists(call: u64, q: Question) -> Reply {
    let none = LeapEntry::new(0, 0);
    let mut entries = [none; 70];
    entries[0] = LeapEntry::new(q.y.size, q.z.narrow());
    entries[1] = LeapEntry::new(q.fourth.size, q.fifth.narrow());
    entries[2] = LeapEntry::new(q.sixth.size, q.seventh.narrow());
    one_of(
        call,
        answers_of_first(entries, q.x.size as usize, Tai(q.sixth.size)),
    )
}

fn one_of(call: u64, answers: Answers) -> Reply {
    match call {
        1 => said::taken(answers.check),
        2 => said::length(answers.length),
        3 => said::emptiness(answers.empty),
        4 => said::update(answers.update),
        5 => said::offset(answers.current),
        _ => said::dated_offset(answers.in_force),
    }
}
