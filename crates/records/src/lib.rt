// The records of a trace, 8 bytes each: setups, and events with their letters.
#![tactic(auto)]

pub mod letters;
pub mod little_endian;
pub mod record;
