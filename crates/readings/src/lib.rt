// Civil readings of GPS counts, in which an inserted second is 23:59:60, and back; gnss-time has none. A reading names one
// instant, which a UTC count and its civil form do not. They go by a table in bytes or by the built-in one.
#![tactic(auto)]

pub mod by_builtin;
pub mod by_image;
pub mod inner;
