//! The tests of tk_live of what its runs leave and how they end, which no clause says: over links in memory they are done, and just
//! the bytes of their frames go over the links; over a net whose calls fail or that turns a byte, up or down, they end with
//! a failed link or a difference; a failing output ends them; and two feeders run at once. What is run is an input, but for one
//! run from words and files.
#![tactic(auto)]

#[cfg(test)]
mod case;
#[cfg(test)]
mod meeting;
#[cfg(test)]
mod tests;
#[cfg(test)]
mod words;
