ghost use Rattle.std.specs.Prelude.{◌≡◌};
ghost use Rattle.tk_net.specs.Counting.{with_fault};

use tk_wire::NetFault;

/// Counts a fault where it is one, and hands it on.
pub(crate) fn counted(faults: &mut u64, fault: NetFault) -> NetFault
    ensures value { result ≡ fault }
    ensures counted { faults.new ≡ with_fault fault faults.old }
{
    match fault {
        NetFault::Failed => *faults = faults.saturating_add(1),
        NetFault::NoMemory => {}
    }
    fault
}
