//! What is told of a failed link or net, and of ends that do not agree.

ghost use Rattle.std.specs.Prelude.{◌≡◌, true};
ghost use Rattle.tk_input.specs.Files.{HasRisen};
ghost use Rattle.tk_live.specs.Ending.{link_told, net_told};
ghost use Rattle.tk_live.specs.Joined.{joined_as};

use tk_load::Status;
use tk_story::JoinFault;
use tk_wire::NetFault;

/// Whether a count of faults rose. One that stands at the greatest u64 counts as risen.
pub fn has_risen(old: u64, new: u64) -> bool
    ensures { result ≡ true → HasRisen old new }
{
    old == u64::MAX || old < new
}

/// A link or the net failed, as its count of faults shows.
pub fn of_link(risen: bool) -> Status
    ensures { result ≡ link_told risen }
{
    if risen {
        Status::LinkFault
    } else {
        Status::NoMemory
    }
}

/// No worker was started: the net failed so, as its count of faults shows, or there was no memory.
pub fn of_net(fault: NetFault, risen: bool) -> Status
    ensures { result ≡ net_told fault risen }
{
    match fault {
        NetFault::Failed => of_link(risen),
        NetFault::NoMemory => Status::NoMemory,
    }
}

/// The ends do not agree, or there was no memory to see it.
pub fn of_join(fault: JoinFault) -> Status
    ensures { result ≡ joined_as fault }
{
    match fault {
        JoinFault::Differs(difference) => Status::LinkDiffers(difference),
        JoinFault::NoMemory => Status::NoMemory,
    }
}
