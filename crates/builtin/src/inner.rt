// The conversions by the built-in table, on plain counts. Their table is proved valid, so they test none.
pub mod by_utc;
pub mod lookup;
pub mod shifted;
