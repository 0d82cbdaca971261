#![tactic(auto)]

use std::thread;
use std::time::{Clock, Duration};

// Waits for a millisecond.
pub fn pause(clock: &impl Clock) {
    thread::sleep(clock, Duration::from_millis(1));
}
