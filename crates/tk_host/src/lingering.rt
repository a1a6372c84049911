ghost use Rattle.std.specs.Prelude.{◌≡◌, true};

use tk_hub::Hub;
use tk_wire::{Host, Took, Wire};

/// How many pieces of a link are dropped between two waits at most.
const PIECES: u32 = 64;

/// Drops what comes over a link. Says whether it has ended.
fn drain<W: Wire>(link: &mut W) -> bool {
    let mut piece = [0; 512];
    for _ in 0..PIECES {
        match link.take(&mut piece) {
            Took::Bytes(_) => {}
            Took::NotYet => return false,
            Took::End => return true,
            Took::Failed => return true,
        }
    }
    false
}

/// Drops what comes over some links. Says whether all have ended.
fn drain_all<W: Wire>(links: &mut [W]) -> bool {
    let mut ended = true;
    for i in 0..links.len() {
        if !drain(&mut links[i]) {
            ended = false;
        }
    }
    ended
}

/// Keeps the links of a hub that has finished until each has ended, or so many waits have passed: a link that is closed
/// while something comes over it may lose what was given to it.
pub fn linger<H: Host, W: Wire + Drop>(host: &mut H, hub: Hub<W>, waits: u64)
    requires { (H.state host.old).listens ≡ true }
{
    let (end, mut links) = hub.into_end();
    drop(end);
    for _ in 0..waits {
        if drain_all(links.as_mut_slice()) || host.wait().is_err() {
            return;
        }
    }
}
