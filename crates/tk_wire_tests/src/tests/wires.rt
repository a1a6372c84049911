//! What the calls of wires and pipes in memory answer, and which bytes they move.

ghost use Rattle.std.specs.Prelude.{◌≡◌, [], ◌∷◌, IfOk};

use std::alloc::Global;
use std::test::Fail;
use tk_base::NoMemory;
use tk_wire::{Gave, Pipe, PipeWire, Piped, Took, Wire};

/// What four gives and two takes answer. A test drops its wire before it compares, since each place that may drop one is
/// dear to prove.
fn called(wire: &mut PipeWire) -> ([Gave; 4], [Took; 2]) {
    let mut place = [0; 8];
    let gave = [
        wire.give(&[1, 2, 3, 4, 5]),
        wire.give(&[4, 5]),
        wire.give(&[4, 5]),
        wire.give(&[5]),
    ];
    (gave, [wire.take(&mut place), wire.take(&mut place)])
}

#[test]
fn listed_calls_fail(rt: HostRuntime) -> Result<(), Fail> {
    let alloc = rt.alloc();
    let mut wire = PipeWire::new(alloc, 4, 3, vec![in alloc; 2, 5]?)?;
    let (gave, took) = called(&mut wire);
    let told = (wire.faults(), wire.ends(), wire.taken());
    drop(wire);
    let wanted = [Gave::Bytes(3), Gave::Failed, Gave::Bytes(1), Gave::NotYet];
    assert_eq!(rt; gave, wanted);
    assert_eq!(rt; took, [Took::Failed, Took::NotYet]);
    assert_eq!(rt; told, (2, 0, 0));
    Ok(())
}

/// What two takes answer behind two bytes and the end, and what they put in place.
fn ended(wire: &mut PipeWire, pipe: &mut Pipe) -> ([Took; 2], [u8; 8]) {
    let mut place = [0; 8];
    pipe.put(&[7, 8]);
    wire.fill(pipe);
    wire.close();
    ([wire.take(&mut place), wire.take(&mut place)], place)
}

#[test]
fn the_end_comes_behind_the_last_byte(rt: HostRuntime) -> Result<(), Fail> {
    let mut pipe = Pipe::new(rt.alloc(), 4)?;
    let mut wire = PipeWire::new(rt.alloc(), 4, 3, Vec::new(rt.alloc()))?;
    let (took, place) = ended(&mut wire, &mut pipe);
    let told = (wire.faults(), wire.ends(), wire.taken());
    wire.shut();
    drop(wire);
    drop(pipe);
    assert_eq!(rt; took, [Took::Bytes(2), Took::End]);
    assert_eq!(rt; place, [7, 8, 0, 0, 0, 0, 0, 0]);
    assert_eq!(rt; told, (0, 1, 2));
    Ok(())
}

/// How many bytes go into a pipe with room for four, three out, as many in as it takes, and three out again, and which.
fn round(pipe: &mut Pipe) -> ([usize; 4], [u8; 3]) {
    let mut place = [0; 3];
    let counts = [
        pipe.put(&[1, 2, 3]),
        pipe.get(&mut place),
        pipe.put(&[4, 5, 6, 7, 8]),
        pipe.get(&mut place),
    ];
    (counts, place)
}

#[test]
fn a_pipe_goes_round_its_end(rt: HostRuntime) -> Result<(), Fail> {
    let mut pipe = Pipe::new(rt.alloc(), 4)?;
    let answers = round(&mut pipe);
    let left = (pipe.len(), pipe.free());
    drop(pipe);
    assert_eq!(rt; answers, ([3, 3, 4, 3], [4, 5, 6]));
    assert_eq!(rt; left, (1, 3));
    Ok(())
}

/// One call of each kind that moves bytes. What is told behind them was worked out by hand.
fn moved(alloc: Global) -> Result<PipeWire, NoMemory>
    ensures { IfOk result (λ wire. wire.traffic ≡ record {
      came = 1 ∷ [];
      waiting = 2 ∷ [];
      went = 7 ∷ 8 ∷ 5 ∷ [];
      held = 5 ∷ [];
      room = 4;
    }) }
{
    let mut pipe = Pipe::new(alloc, 4)?;
    let mut wire = PipeWire::new(alloc, 4, 2, Vec::new(alloc))?;
    pipe.put(&[1, 2, 3]);
    wire.give(&[7, 8, 9]);
    wire.fill(&mut pipe);
    wire.take(&mut [0]);
    wire.drain(&mut pipe);
    wire.give(&[5]);
    Ok(wire)
}

#[test]
fn each_kind_of_call_moves_bytes(rt: HostRuntime) -> Result<(), Fail> {
    let wire = moved(rt.alloc())?;
    assert_eq!(rt; wire.taken(), 1);
    Ok(())
}
