//! What workers leave: their links go back to the net, their ends are kept, and the gravest cause is found.

ghost use Rattle.std.specs.Prelude.{◌≡◌, ◌≤◌, true, None, All, [], length, map, sum_by, vec_capacity};
ghost use Rattle.tk_trail.specs.Readings.{is_stopped};
ghost use Rattle.tk_live.specs.Carried.{HasTaken};
ghost use Rattle.tk_live.specs.Complete.{took_in};
ghost use Rattle.tk_live.specs.Crew.{IsCalm, graver as graver_of, gravest};

use crate::worked::Worked;
use tk_serve::Why;
use tk_story::MonEnd;
use tk_wire::{Net, Wire};

/// The graver of two causes.
pub fn graver(cause: Why, next: Why) -> Why
    ensures { result ≡ graver_of cause next }
{
    match cause {
        Why::Odd => cause,
        Why::NoMemory => cause,
        Why::Stopped => next,
        Why::Failed => match next {
            Why::Stopped => cause,
            Why::Failed => cause,
            Why::Odd => next,
            Why::NoMemory => next,
        },
    }
}

/// Gives links back to the net.
pub fn give_back<N: Net>(net: &mut N, wires: Vec<N::Link>)
    ensures { HasTaken (N.state net.old) (N.state net.new) (sum_by (λ wire. (N.Link.counts wire).taken) wires.items) }
{
    for wire in wires {
        net.back(wire);
    }
}

/// Gives the link and the rest of each worker back, and keeps its end. Answers the ends and the gravest cause.
pub fn part<N: Net>(
    net: &mut N,
    workers: Vec<Worked<N::Link, N::Rest>>,
    room: Vec<MonEnd>,
) -> (Vec<MonEnd>, Why)
    requires room { length workers.items ≤ vec_capacity room }
    requires empty { room.items ≡ [] }
    ensures ends { result.0.items ≡ map (λ w. w.served.end) workers.items }
    ensures cause { result.1 ≡ gravest (map (λ w. w.served.why) workers.items) }
    ensures calm { IsCalm result.1 → All (λ w. w.served.end.odd ≡ None) workers.items }
    ensures stopped { result.1 ≡ Why.Stopped → All (λ w. is_stopped w.served.end.monitor.trail ≡ true) workers.items }
    ensures taken { HasTaken (N.state net.old) (N.state net.new)
        (sum_by (λ w. took_in w.version w.served.end.monitor.trail) workers.items) }
{
    let mut ends = room;
    let mut cause = Why::Stopped;
    for worked in workers {
        let Worked { served, .. } = worked;
        net.back(served.link);
        net.back_rest(served.rest);
        cause = graver(cause, served.why);
        ends.push_reserved(served.end);
    }
    (ends, cause)
}
