//! The borders, weight and values that the dealing of a round goes by.

ghost use Rattle.std.specs.Prelude.{◌≡◌};

use crate::reported::Reported;
use tk_base::Pairs;

/// Whether a round takes the monitors' borders as reported, or every border as 0.
#[derive(Clone, Copy, Debug, PartialEq, Eq)]
pub enum Borders {
    AsReported,
    Zero,
}

impl Borders {
    ghost use Rattle.tk_alloc.specs.Terms.{border_by};

    /// The border that a report has.
    pub fn at(&self, report: &Reported) -> i128
        ensures { result ≡ border_by self.now report.now }
    {
        match self {
            Borders::AsReported => report.border,
            Borders::Zero => 0,
        }
    }
}

/// What a round deals by, beside the table and the reports: the coordinator's part in it, and the borders.
#[derive(Debug, Drop)]
pub struct Terms {
    pub own_weight: u32,
    pub own_border: i128,
    pub own_values: Pairs,
    pub borders: Borders,
}
