//! What a round decides, for the coordinator to put into its table and to send.

use crate::mon_change::MonChange;
use tk_base::{ObjSet, Pairs};

/// The members after a round, and the new factors at the coordinator and at the monitors that took part,
/// monitors ascending.
#[derive(Debug, Drop)]
pub struct Reallocation {
    pub members: ObjSet,
    pub own: Pairs,
    pub at: Vec<MonChange>,
}
