// The archive for hosts in other languages: each call of plaitgate, exported under its own name and with its own clauses.
// Written by tools/write-exports; include/plaitgate.h declares the functions.
#![tactic(auto)]

mod by_builtin;
mod by_table;
mod civil_dates;
mod civil_readings;
mod civil_times;
mod durations;
mod every_scale;
mod galileo_beidou;
mod glonass_days;
mod gps_tai;
mod leap_events;
mod leap_files;
mod leap_lists;
mod leap_tables;
mod shifted;
mod utc_unix;
mod weeks;
