//! The check sum of bytes.

ghost use Rattle.std.specs.Prelude.{◌≡◌};
ghost use Rattle.tk_net.specs.Chunks.{sum_of as summed};

/// From where a 32-bit FNV-1a begins.
const BEGINNING: u32 = 0x811c_9dc5;

const MULTIPLIER: u32 = 0x0100_0193;

/// The 32-bit FNV-1a of some bytes.
pub(crate) fn sum_of(bytes: &[u8]) -> u32
    ensures { result ≡ summed bytes.now }
{
    bytes.iter().fold(BEGINNING, |sum, byte| {
        (sum ^ u32::from(*byte)).wrapping_mul(MULTIPLIER)
    })
}
