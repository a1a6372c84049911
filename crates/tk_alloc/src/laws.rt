//! What holds of the numbers of every round. The function is there for its clause alone.

ghost use Rattle.tk_alloc.specs.Laws.{RoundsStaySmall, WideRoundsStaySmall};

/// No number of a round leaves 128 bits: of a short or a full one whether or not a factor is past its limit, and of a wide one.
pub fn rounds_stay_small()
    ensures asked { RoundsStaySmall }
    ensures wide { WideRoundsStaySmall }
{}
