//! Fixed-size arrays as targets of messages.
ghost use Rattle.dns_name.specs.Spelling.{plain};
ghost use Rattle.dns_name.specs.Remembered.{sound_none};

use super::Composer;
use super::in_full::append_in_full;
use arrayvec::ArrayVec;
use dns_flat::ToName;
use dns_octets::AppendError;

/// Writes names in full.
impl<const N: usize> Composer for ArrayVec<u8, N> {
    ghost spelling = { plain };

    fn append_compressed_name<Nm: ToName>(&mut self, name: &Nm) -> Result<(), AppendError> {
        append_in_full(self, name)
    }

    fn can_compress(&self) -> bool {
        false
    }

    fn patch(&mut self, place: usize, octets: &[u8]) {
        self.as_mut_slice()[place..place + octets.len()].copy_from_slice(octets);
    }

    ghost sound = { λ target. ∣ sound_none plain target.items ∣₁ };
}
