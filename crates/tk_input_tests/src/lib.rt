//! Tests of tk_input over its public calls: what files mean, where they are refused, and what devices do.
#![tactic(auto)]

#[cfg(test)]
mod tests;
