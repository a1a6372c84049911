//! How long a session waits for monitors. Nothing is promised of it.

use std::time::{Clock, Duration, Instant};

/// When so many seconds will have passed, if that is asked for and the clock tells.
pub fn deadline<R: Clock>(rt: &R, seconds: Option<u64>) -> Option<Instant> {
    let seconds = seconds?;
    match Instant::now(rt) {
        Ok(now) => now.checked_add(Duration::from_secs(seconds)),
        Err(_) => None,
    }
}

/// Whether a time is there and has passed.
pub fn is_past<R: Clock>(rt: &R, until: Option<Instant>) -> bool {
    let Some(until) = until else {
        return false;
    };
    match Instant::now(rt) {
        Ok(now) => until <= now,
        Err(_) => false,
    }
}
