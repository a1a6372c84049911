//! The tests of tk_host, of what no clause says: a coordinator over a host in memory, and monitors whose bytes are written out.
#![tactic(auto)]

#[cfg(test)]
mod monitors;
#[cfg(test)]
mod tests;
