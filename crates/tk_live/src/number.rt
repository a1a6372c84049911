//! How a live run gets its number, by which its hub knows its own connections.

use std::random::RandomSource;

/// A number for a live run, another one for each: bytes that the system draws. Where it draws none the number is 0, which only
/// serves worse to tell the connections of this run from those of another.
pub fn run_number<R: RandomSource>(rt: &R) -> u64 {
    let mut bytes = [0; 8];
    let _ = rt.fill_bytes(&mut bytes);
    u64::from_ne_bytes(bytes)
}
