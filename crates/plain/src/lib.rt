// The plain guest: it answers from its own table.
#![tactic(auto)]

pub mod plain_guest;
mod source;
mod table;
