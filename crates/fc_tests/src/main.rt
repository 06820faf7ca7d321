//! Tests that cross crates, and those of values from outside that no run of the program shows. No code stands beside them: a crate
//! with tests is proved once more with them.
#![tactic(auto)]

#[cfg(test)]
mod images;
#[cfg(test)]
mod mounts;
#[cfg(test)]
mod records;
#[cfg(test)]
mod runs;
#[cfg(test)]
mod stopped;

// Nothing but the tests is run. As a program the crate is no library, whose sum rt takes along every path of crates.txt.
fn main() {}
