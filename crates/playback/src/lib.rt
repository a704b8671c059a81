// What the program `run` writes for a file: the report of the trace on a new guest, or the line of its fault.
#![tactic(auto)]

mod failure;
pub mod output;
