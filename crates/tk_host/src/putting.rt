ghost use Rattle.std.specs.Prelude.{◌≡◌, OnErr, OnOk};
ghost use Rattle.tk_input.specs.Sink.{Grows, GrowsByFront, put_faults};

use tk_input::{PutFailed, Sink};

/// Puts a line, and drops it by name: each place that drops one by itself is dear to prove.
pub fn put_line<O: Sink>(line: Vec<u8>, out: &mut O) -> Result<(), PutFailed>
    ensures ok { OnOk result (Grows (O.written out.old) (O.written out.new) line.items) }
    ensures err { OnErr result (GrowsByFront (O.written out.old) (O.written out.new) line.items) }
    ensures counted { O.fault_count out.new ≡ put_faults result (O.fault_count out.old) }
{
    let put = out.put(line.as_slice());
    drop(line);
    put
}
