//! Tests of tk_recent over its public calls: windows that move, in plain numbers, and a caller that tells what is taken back.
#![tactic(auto)]

#[cfg(test)]
mod tests;
