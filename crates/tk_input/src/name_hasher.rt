//! The hasher of a catalogue's names. They come from the user's own files, so it need not resist names that are chosen
//! to collide: those would cost time, and change no answer.

ghost use Rattle.std.specs.Prelude.{◌*◌, ◌%◌, ◌^◌, ◌==◌, if◌then◌else◌, length, slice_index, bit_xor};

use std::hash::Hasher;

const MULTIPLIER: u64 = 0x9e37_79b9_7f4a_7c15;

/// One multiplication for each byte that is written alone, as those of a list are; its length counts for nothing.
#[derive(Clone, Copy, Default)]
pub struct NameHasher {
    state: u64,
}

impl Hasher for NameHasher {
    ghost write = { λ h bytes. record {
      state = if length bytes == 1
          then (bit_xor h.state (slice_index bytes 0) * 0x9e37_79b9_7f4a_7c15) % 2 ^ 64
          else h.state;
    } };

    ghost finish = { λ h. h.state };

    fn finish(&self) -> u64 {
        self.state
    }

    fn write(&mut self, bytes: &[u8]) {
        if bytes.len() == 1 {
            self.state = (self.state ^ u64::from(bytes[0])).wrapping_mul(MULTIPLIER);
        }
    }
}
