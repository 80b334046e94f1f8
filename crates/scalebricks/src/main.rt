//! The program `scalebricks`: rows on standard input, the paths of packets on standard output; or one line about rows that it
//! makes itself.
//!
//! `run` is all that the program does, over any source and sink: its contract says of each status when it comes and what
//! was written then, in the mode that the words ask for. A replay runs the rows by one thread and has one output; a storm
//! runs them by owners, lanes and appliers, and has one of those that the model allows on its lanes. `grind` is the
//! mode without input, as a call. `main` gives `run` standard input and output and the words that the program was called
//! with.
//!
//! Proved: the contracts of `run` and `grind`, for every schedule of a storm's threads. Trusted: what standard input and
//! output give and take. Only tested: the line on standard error, that memory suffices, that a storm ends, and that its
//! threads run beside one another.
#![tactic(auto)]

#[cfg(test)]
mod block_tests;
mod grinding;
mod input_run;
mod output;
mod refusal;
#[cfg(test)]
mod relay_tests;
#[cfg(test)]
mod replay_tests;
mod running;
mod status;
#[cfg(test)]
mod storm_tests;
#[cfg(test)]
mod tests;

pub use grind_rows::grind_input;
pub use grinding::grind;
pub use running::run;
use sb_io::{OpenGate, StdSink, StdSource};
use status::{OUT_OF_MEMORY, WORDS_REFUSED, complaint};
use std::alloc::Global;
use std::env::Env;
use std::process::ExitCode;
use std::{env, io};

fn main(rt: HostRuntime) -> ExitCode {
    let status = match words(&rt) {
        Ok(words) => {
            let mut input = StdSource::new(&rt);
            let mut output = StdSink::new(&rt);
            run(&rt, rt.alloc(), &words, &mut input, &mut output, &OpenGate)
        }
        Err(status) => status,
    };
    if let Some(line) = complaint(status) {
        let _ = rt.eprintln(line);
    }
    ExitCode::from(status)
}

/// The words after the program's name, or the status to end with. A word that isn't UTF-8 is no command's.
fn words<R: Env + Alloc<A = Global>>(rt: &R) -> Result<Vec<String>, u8> {
    let all = match env::args(rt) {
        Ok(all) => all,
        Err(error) if error.kind() == io::ErrorKind::OutOfMemory => return Err(OUT_OF_MEMORY),
        Err(_) => return Err(WORDS_REFUSED),
    };
    match all.skip(1).collect(rt.alloc()) {
        Ok(words) => Ok(words),
        Err(_) => Err(OUT_OF_MEMORY),
    }
}
