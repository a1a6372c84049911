//! Tests of tk_stream over its public calls: what streams give in pieces of any size, and what failures leave.
#![tactic(auto)]

#[cfg(test)]
mod tests;
