//! A FIB that readers in other threads read while one writer takes turns.

mod dealing;
mod history;
mod reader;
mod shown;
mod telling;
#[cfg(test)]
mod tests;
mod turn;
mod writer;

pub use dealing::share;
pub use reader::FibReader;
pub use telling::told;
pub use writer::FibWriter;
