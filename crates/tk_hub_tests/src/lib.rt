//! Tests of tk_hub over its public calls: who is a stranger, and what closes a hub and is left of it.
#![tactic(auto)]

#[cfg(test)]
mod tests;
