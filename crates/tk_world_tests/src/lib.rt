//! Tests of tk_world over its public calls: what a run that is retuned gives.
#![tactic(auto)]

#[cfg(test)]
mod tests;
