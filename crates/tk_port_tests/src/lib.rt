//! Tests of tk_port over its public calls: what closes a port and is left of it, and what its turns answer.
#![tactic(auto)]

#[cfg(test)]
mod tests;
