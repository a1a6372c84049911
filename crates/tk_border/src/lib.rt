//! Broken outsiders and borders over the levels of one node.
//!
//! It promises the definitions word for word, by one pass over the levels: the plain form beside the
//! trees of tk_rank, which answer the same. It stands on tk_base.
//! Only `failed` and `resolution` take memory.
#![tactic(auto)]

mod borders;
mod broken;
mod extremes;
mod members;
mod union;

pub use borders::{border, own_border};
pub use broken::failed;
pub use extremes::{lower, raise};
pub use members::{are_members, holds};
pub use union::resolution;
