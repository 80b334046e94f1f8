use std::io;
use std::rt::Clock;
use std::time::{Duration, Instant};

/// How long it is since the start, or nothing where the clock can't be read.
pub fn since(rt: &impl Clock, start: io::Result<Instant>) -> Duration {
    let Ok(start) = start else {
        return Duration::ZERO;
    };
    start.elapsed(rt).unwrap_or(Duration::ZERO)
}

/// How often it looks at the clock, at most.
const LOOKS: u32 = 1_000_000;

/// Waits until it is so long since the start. It doesn't look at the clock for no time at all, and doesn't wait where the
/// clock can't be read.
pub fn wait(rt: &impl Clock, start: &io::Result<Instant>, long: Duration) {
    let Ok(start) = start else {
        return;
    };
    if long.is_zero() {
        return;
    }
    'looks: for _ in 0..LOOKS {
        match start.elapsed(rt) {
            Ok(now) if now < long => (),
            _ => return,
        }
    }
}
