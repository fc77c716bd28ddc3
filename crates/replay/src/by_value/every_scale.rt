// Questions about counts, by value: the calls that every scale has.
use crate::by_value::said;
use crate::reply::{Question, Reply};
use counts::Duration;
use scales::scale::Scale;

pub fn counts<S: Scale>(call: u64, q: Question) -> Reply {
    let x = q.x.size;
    let t = S::from_nanos(x);
    let d = Duration(q.y.signed());
    match call {
        1 => said::count_on(t),
        2 => Reply::one(0, t.as_nanos()),
        3 => said::on_scale(S::checked_from_seconds(x)),
        4 => Reply::one(0, t.as_seconds()),
        5 => said::parts(t.as_parts()),
        6 => said::on_scale(t.checked_add(d)),
        7 => said::on_scale(t.checked_sub_duration(d)),
        8 => said::count_on(t.saturating_add(d)),
        9 => said::count_on(t.saturating_sub_duration(d)),
        10 => said::duration(t.checked_elapsed(S::from_nanos(q.y.size))),
        _ => limits::<S>(),
    }
}

fn limits<S: Scale>() -> Reply {
    Reply::four(
        0,
        S::EPOCH.as_nanos(),
        S::MIN.as_nanos(),
        S::MAX.as_nanos(),
        S::NANOS_PER_YEAR,
    )
}
