//! Tests of tk_coord over its public calls: which frames it refuses, and what rounds give.
#![tactic(auto)]

#[cfg(test)]
mod tests;
