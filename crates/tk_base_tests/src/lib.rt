//! Tests of tk_base over its public calls: order, limits of settings, and pairs in both their forms.
#![tactic(auto)]

#[cfg(test)]
mod tests;
