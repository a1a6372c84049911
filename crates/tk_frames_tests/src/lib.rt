//! Tests of tk_frames over its public calls: frames and their bytes in both versions, and what is refused.
#![tactic(auto)]

#[cfg(test)]
mod tests;
