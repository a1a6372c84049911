//! How a leeway is split: to each its weight in whole shares, and what is left over to the first in order.

ghost use Rattle.std.specs.Prelude.{◌≡◌, ◌+◌, ◌-◌, ◌*◌, ◌^◌, ◌<◌, ◌≤◌, length, min, pos, take, ◌+ℤ◌, ◌*ℤ◌, unsigned_abs};
ghost use Rattle.std.specs.List.{sum};
ghost use Rattle.tk_share.specs.Shares.{share};

/// The sum of some weights.
fn weight_of(weights: &[u32]) -> u32
    requires { sum weights.now ≤ 1064 }
    ensures { result ≡ sum weights.now }
{
    let mut total = 0;
    for weight in weights {
        total += *weight;
    }
    total
}

/// How many of the remainders below `rest` are among the `own` ones from `before` on.
fn owned_below(rest: u32, before: u32, own: u32) -> u32
    ensures { result ≡ min (rest - before) own }
{
    rest.saturating_sub(before).min(own)
}

/// A participant of a dealing, with the sums that each of its shares takes.
#[derive(Clone, Copy)]
pub struct Participant<'w> {
    /// The weights of all participants.
    pub weights: &'w [u32],
    /// Its place among them, from 0.
    pub place: usize,
    total: u32,
    before: u32,
    ghost within: { place < length weights.now },
    ghost some_weight: { 0 < sum weights.now },
    ghost weight: { sum weights.now ≤ 1064 },
    ghost total_is: { total ≡ sum weights.now },
    ghost before_is: { before ≡ sum (take place weights.now) },
}

impl<'w> Participant<'w> {
    /// The participant at a place. Costs a pass over the weights.
    pub fn new(weights: &'w [u32], place: usize) -> Participant<'w>
        requires participant { place < length weights.now }
        requires some_weight { 0 < sum weights.now }
        requires weight { sum weights.now ≤ 1064 }
        ensures weights { result.weights.now ≡ weights.now }
        ensures place { result.place ≡ place }
    {
        Participant {
            weights,
            place,
            total: weight_of(weights),
            before: weight_of(&weights[..place]),
        }
    }

    /// Its share of a leeway, in a constant.
    pub fn deal(&self, leeway: i128) -> i128
        requires { unsigned_abs leeway < 2 ^ 122 }
        ensures value { result ≡ share self.now.weights.now self.now.place leeway }
        ensures size { unsigned_abs result ≤ unsigned_abs leeway }
    {
        let total = i128::from(self.total);
        let own = self.weights[self.place];
        let whole = leeway.div_euclid(total);
        let rest = leeway.rem_euclid(total) as u32;
        whole * i128::from(own) + i128::from(owned_below(rest, self.before, own))
    }
}
