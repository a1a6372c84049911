//! Tests of tk_monitor over its public calls: which frames it refuses, and what it sends.
#![tactic(auto)]

#[cfg(test)]
mod tests;
