// What a device is made of: registers and settings, however they are kept, and the steps of its calls.
#![tactic(auto)]

pub mod file;
pub mod registers;
pub mod search;
pub mod settings;
pub mod steps;
