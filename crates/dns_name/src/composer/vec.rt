//! Vectors as targets of messages.
ghost use Rattle.std.specs.Prelude.{◌≡◌, ◌++◌, [], Err, length, OnOk, OnErr};
ghost use Rattle.dns_octets.specs.Builder.{GrowsTo, IsWithin, IsPast};
ghost use Rattle.dns_octets.specs.declared.error.AppendError.TheVariants.{ShortBuf, BadLength};
ghost use Rattle.dns_name.specs.Spelling.{plain};
ghost use Rattle.dns_name.specs.Remembered.{sound_none};

use super::Composer;
use super::in_full::append_in_full;
use dns_flat::ToName;
use dns_octets::AppendError;

/// Writes names in full.
impl Composer for Vec<u8> {
    ghost spelling = { plain };

    fn append_compressed_name<N: ToName>(&mut self, name: &N) -> Result<(), AppendError> {
        append_in_full(self, name)
    }

    fn can_compress(&self) -> bool {
        false
    }

    fn patch(&mut self, place: usize, octets: &[u8]) {
        self[place..place + octets.len()].copy_from_slice(octets);
    }

    ghost sound = { λ target. ∣ sound_none plain target.items ∣₁ };
}
