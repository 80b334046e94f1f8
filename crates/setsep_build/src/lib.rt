//! The keyless table of a cluster's flows: an image for each block, or the first block that is past a limit.
//!
//! A contract sees what the build is by `group_search/specs/Build.antt`. The flows are hashed. The blocks are cut into
//! runs of neighbours, which are computed beside one another: a run's flows are put in order by their blocks, each block is
//! laid out, its entries are gathered by group in one pass, and each group gets its canonical record. Proved: the images and
//! the refusals, exactly; only `OutOfMemory` may come at any time. Only tested: that memory suffices.
#![tactic(auto)]

mod building;
mod cutting;
mod groups;
mod imaging;
mod laws;
mod placed;
mod placing;
mod records;
mod refused;
mod running;
#[cfg(test)]
mod tests;

pub use building::{MOST_WORKERS, build};
pub use laws::the_limits_are;
pub use placed::Placed;
pub use placing::place_all;
pub use refused::BuildRefused;
