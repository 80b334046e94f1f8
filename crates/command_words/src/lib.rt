//! What the words of the program's command line ask for.
//!
//! A contract sees the words' meaning as a function of them (`specs/Words.antt`): what `clap` makes of the words is `clap`'s
//! own definition of a simple command, of which `program` is one, and the numbers among them are written as those of the
//! rows are.
//! Proved: `read_command` answers that, or want of memory. Only tested: that memory suffices.
#![tactic(auto)]

mod command;
mod words;

pub use command::{Command, Task};
pub use words::read_command;

#[cfg(test)]
mod tests;
