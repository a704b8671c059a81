// The report of a trace that is played on a guest.
#![tactic(auto)]

mod line;
mod play;
pub mod report;
mod text;
