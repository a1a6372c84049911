//! How leeways are dealt to three participants.

ghost use Rattle.std.specs.Prelude.{◌<◌, ◌^◌, unsigned_abs};

use tk_share::Participant;

/// How a leeway is dealt to three of the weight 1.
fn dealt(leeway: i128) -> [i128; 3]
    requires { unsigned_abs leeway < 2 ^ 122 }
{
    let weights: [u32; 3] = [1, 1, 1];
    [
        Participant::new(&weights, 0).deal(leeway),
        Participant::new(&weights, 1).deal(leeway),
        Participant::new(&weights, 2).deal(leeway),
    ]
}

#[test]
fn dealing_table(rt: HostRuntime) {
    assert!(rt; dealt(3) == [1, 1, 1]);
    assert!(rt; dealt(2) == [1, 1, 0]);
    assert!(rt; dealt(0) == [0, 0, 0]);
    assert!(rt; dealt(-2) == [0, -1, -1]);
    assert!(rt; dealt(-4) == [-1, -1, -2]);
}

#[test]
fn no_weight_is_dealt_nothing(rt: HostRuntime) {
    let weights: [u32; 3] = [0, 1, 1];
    let shares = [
        Participant::new(&weights, 0).deal(1),
        Participant::new(&weights, 1).deal(1),
        Participant::new(&weights, 2).deal(1),
    ];
    assert!(rt; shares == [0, 1, 0]);
}
