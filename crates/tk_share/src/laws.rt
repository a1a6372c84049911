//! Laws of shares. Each function is there for its clause alone.

ghost use Rattle.std.specs.Prelude.{◌≡◌, ℕ, ◌<◌, ℤ, pos, ◌≤ℤ◌, List};
ghost use Rattle.std.specs.List.{sum};
ghost use Rattle.tk_base.specs.Sum.{int_sum};
ghost use Rattle.tk_share.specs.Shares.{share, shares};

/// Nothing of a leeway is lost or made.
pub fn shares_sum_to_the_leeway()
    ensures { (weights : List ℕ) (leeway : ℤ) → 0 < sum weights → int_sum (shares weights leeway) ≡ leeway }
{}

/// A greater leeway is no participant's loss.
pub fn shares_grow_with_the_leeway()
    ensures { (weights : List ℕ) (p : ℕ) (less more : ℤ) → less ≤ℤ more → share weights p less ≤ℤ share weights p more }
{}

/// A leeway that is not negative leaves no one below 0.
pub fn shares_of_no_debt_are_no_debts()
    ensures { (weights : List ℕ) (p : ℕ) (leeway : ℤ) → pos 0 ≤ℤ leeway → pos 0 ≤ℤ share weights p leeway }
{}
