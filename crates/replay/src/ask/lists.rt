// What the exported calls answer to a list of entries that is lent to them: none to three entries, or 65.
use crate::numbered;
use crate::reply::{Question, Reply};
use plaitgate::leap_lists::{
    plaitgate_list_check, plaitgate_list_current_tai_minus_utc, plaitgate_list_is_empty,
    plaitgate_list_last_update, plaitgate_list_len, plaitgate_list_tai_minus_utc_at,
};

pub fn lists(call: u64, q: Question) -> Reply {
    let list = numbered::list(q);
    list_of(call, &list[..12 * numbered::entries(q)], q.sixth.size)
}

fn list_of(call: u64, list: &[u8], tai: u64) -> Reply {
    match call {
        1 => Reply::one(plaitgate_list_check(list), 0),
        2 => {
            let mut a: u64 = 1;
            let number = plaitgate_list_len(list, &mut a);
            Reply::one(number, a)
        }
        3 => {
            let mut a: u8 = 1;
            let number = plaitgate_list_is_empty(list, &mut a);
            Reply::one(number, a as u64)
        }
        4 => {
            let mut a: u8 = 1;
            let mut b: u64 = 1;
            let number = plaitgate_list_last_update(list, &mut a, &mut b);
            Reply::two(number, a as u64, b)
        }
        5 => {
            let mut a: i32 = 1;
            let number = plaitgate_list_current_tai_minus_utc(list, &mut a);
            Reply::signed(number, a as i64)
        }
        _ => {
            let mut a: i32 = 1;
            let mut stale: u8 = 1;
            let number = plaitgate_list_tai_minus_utc_at(list, tai, &mut a, &mut stale);
            Reply::signed(number, a as i64).dated(stale)
        }
    }
}
