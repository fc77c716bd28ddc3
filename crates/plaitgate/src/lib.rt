// The library for hosts in other languages: every public call on numbers and bytes, as C has them.
// Each returns the refusal's number, 0 for an answer, and writes its results through references, zeros on a refusal.
// include/plaitgate.h declares them.
#![tactic(auto)]

pub mod by_builtin;
pub mod by_table;
pub mod civil_dates;
pub mod civil_readings;
pub mod civil_times;
pub mod durations;
pub mod every_scale;
pub mod galileo_beidou;
mod give;
pub mod glonass_days;
pub mod gps_tai;
pub mod leap_events;
pub mod leap_files;
pub mod leap_lists;
pub mod leap_tables;
pub mod shifted;
pub mod utc_unix;
pub mod weeks;
