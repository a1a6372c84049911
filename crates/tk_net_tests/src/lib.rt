//! The tests of tk_net, of what no clause says, and each of its calls once.
#![tactic(auto)]

#[cfg(test)]
mod cables;
#[cfg(test)]
mod hosts;
#[cfg(test)]
mod tests;
