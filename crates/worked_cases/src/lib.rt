// Worked cases, each proved and then run: files and what is written for them, parts of a trace, the turn in the waiting order,
// lines of answers, and how often a device is read.
#![tactic(auto)]

#[cfg(test)]
mod answers;
#[cfg(test)]
mod files;
#[cfg(test)]
mod order;
#[cfg(test)]
mod parts;
#[cfg(test)]
mod readings;
