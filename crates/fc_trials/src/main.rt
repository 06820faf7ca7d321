//! Trials of the commands that change a disc, over disks in memory of each kind of map: a run of the program (fc_shell), the commands
//! over kept holdings (fc_commands), and the commands over a new opening must give the same replies, the expected ones, and leave
//! the same image, with the expected tree. No code stands beside them.
#![tactic(auto)]

#[cfg(test)]
mod discs;
#[cfg(test)]
mod images;
#[cfg(test)]
mod lines;
#[cfg(test)]
mod runs;
#[cfg(test)]
mod trees;
#[cfg(test)]
mod trials;

// Nothing but the tests is run. As a program the crate is no library, whose sum rt takes along every path of crates.txt.
fn main() {}
