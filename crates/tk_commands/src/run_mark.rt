//! The number of a run on the wire.

ghost use Rattle.std.specs.Prelude.{◌≡◌};
ghost use Rattle.tk_commands.specs.RunMark.{mark_behind, run_mark};

use itoa::Buffer;
use tk_base::Obj;
use tk_input::Catalog;

/// From where a 64-bit FNV-1a begins.
const BEGINNING: u64 = 0xcbf2_9ce4_8422_2325;

const MULTIPLIER: u64 = 0x0100_0000_01b3;

/// The mark of some bytes behind others of this mark.
fn marked(mark: u64, bytes: &[u8]) -> u64
    ensures { result ≡ mark_behind mark bytes.now }
{
    bytes.iter().fold(mark, |mark, byte| {
        (mark ^ u64::from(*byte)).wrapping_mul(MULTIPLIER)
    })
}

/// The mark of a run's number and of the names that its processes count by.
pub fn mark_of_run(run: u64, names: &Catalog) -> u64
    ensures { result ≡ run_mark run names.now }
{
    let mut buffer = Buffer::new();
    let mut mark = marked(BEGINNING, buffer.format(run).as_bytes());
    mark = marked(mark, b"\n");
    for i in 0..names.len() as u32 {
        mark = marked(mark, names.name(Obj(i + 1)));
        mark = marked(mark, b"\n");
    }
    mark
}
