// A short wait: std has no way to wait for a descriptor to be ready, so a non-blocking one is tried again after this.
#![tactic(auto)]

use std::thread;
use std::time::{Clock, Duration};

fn span(seconds: u64, nanos: u64) -> Duration {
    Duration::from_secs(seconds).saturating_add(Duration::from_nanos(nanos))
}

// Waits for the time asked, also where a signal comes first.
fn wait_for(clock: &impl Clock, asked: Duration) {
    thread::sleep(clock, asked);
}

// Waits one millisecond.
pub fn pause(clock: &impl Clock) {
    wait_for(clock, span(0, 1000000));
}
