//! The tests of tk_watch, of what no clause says: a monitor in memory against a host that does as it is told, worked rows of what
//! a watch is told and says, and windows over two streams.
#![tactic(auto)]

#[cfg(test)]
mod far;
#[cfg(test)]
mod rows;
#[cfg(test)]
mod tests;
#[cfg(test)]
mod watches;
#[cfg(test)]
mod windows;
