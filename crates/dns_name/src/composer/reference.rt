//! Borrowed targets of messages.
use super::Composer;
use dns_flat::ToName;
use dns_octets::AppendError;

/// Writes names as the borrowed target does.
impl<T: Composer> Composer for &mut T {
    ghost spelling = { T.spelling };

    fn append_compressed_name<N: ToName>(&mut self, name: &N) -> Result<(), AppendError> {
        (**self).append_compressed_name(name)
    }

    fn can_compress(&self) -> bool {
        (**self).can_compress()
    }

    fn patch(&mut self, place: usize, octets: &[u8]) {
        (**self).patch(place, octets);
    }

    ghost sound = { λ target. T.sound target.now };
}
