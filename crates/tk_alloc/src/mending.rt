// What a round mends at the monitors. Each function is there for its clause alone.
ghost use Rattle.tk_alloc.specs.Laws.{OrderIsCalm, ShortRoundMends, WideRoundMends};

/// Where no outsider is above a member, nothing is broken.
pub fn order_is_calm()
    ensures { OrderIsCalm }
{}

/// After a short round whose Report speaks of the present levels nothing is broken at the reporter.
pub fn a_short_round_mends()
    ensures { ShortRoundMends }
{}

/// After a wide round whose reports speak of the present values nothing is broken at any of the monitors.
pub fn a_wide_round_mends()
    ensures { WideRoundMends }
{}
