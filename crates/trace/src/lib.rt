// The trace file: its table of contents, the reader that borrows it, and the walks over its records.
#![tactic(auto)]

mod check;
pub mod contents;
pub mod placed;
pub mod reader;
pub mod section;
pub mod walk;
