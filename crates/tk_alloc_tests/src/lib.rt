//! Tests of tk_alloc, and of tk_share and tk_border below it, over their public calls: shares, borders and rounds, with
//! numbers worked out by hand.
#![tactic(auto)]

#[cfg(test)]
mod borders;
#[cfg(test)]
mod shares;
#[cfg(test)]
mod tests;
