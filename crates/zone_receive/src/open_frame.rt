//! The open frame at the end of a stream.
ghost use Rattle.std.specs.Prelude.{◌≡◌, ◌+◌, ◌++◌, ◌≤◌, length, MatchOption, IfNone, slice_get};
ghost use Rattle.zone_core.specs.Frames.{IsPartial};
ghost use Rattle.zone_receive.specs.FrameBuffer.{Completes};

use zone_core::frames::LENGTH_OCTETS;

/// Returns the number of these octets that completes the open frame, or None if they do not complete it (RFC 1035
/// 4.2.2).
pub(crate) fn missing(open_frame: &[u8], octets: &[u8]) -> Option<usize>
    requires { IsPartial open_frame.now }
    ensures found { MatchOption result (IsPartial (open_frame.now ++ octets.now)) (Completes open_frame.now octets.now) }
    ensures short { IfNone result (length open_frame.now + length octets.now ≤ 65537) }
{
    let high = octet_at(open_frame, octets, 0)?;
    let low = octet_at(open_frame, octets, 1)?;
    let len = LENGTH_OCTETS + usize::from(u16::from_be_bytes([high, low]));
    let missing = len - open_frame.len();
    if missing <= octets.len() {
        Some(missing)
    } else {
        None
    }
}

/// Returns the octet at a place of two slices, the second after the first.
fn octet_at(front: &[u8], back: &[u8], place: usize) -> Option<u8>
    ensures { result ≡ slice_get (front.now ++ back.now) place }
{
    if place < front.len() {
        return Some(front[place]);
    }
    back.get(place - front.len()).copied()
}
