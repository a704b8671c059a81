// The text of command lines and of their answers.
#![tactic(auto)]

pub mod answer;
pub mod line;
pub mod number;
mod scan;
pub mod words;
