//! A reason and the place in the text that it is about.
ghost use Rattle.std.specs.Prelude.{◌≡◌, ◌+◌, min, length};
ghost use Rattle.zone_reasons.specs.Located.{IsPlaceIn};

use crate::reason::Reason;

/// A reason, and from where to where in the text the token is that it is about. If it is about a whole entry, that is the
/// first octet of the entry after white space, and the token that begins there, if one does.
#[derive(Clone, Copy, Debug, PartialEq, Eq)]
pub struct Located {
    /// Why the text is refused.
    pub reason: Reason,
    /// The offset of the token in the text.
    pub start: usize,
    /// The offset after the token.
    pub end: usize,
}

impl Located {
    /// Returns the reason with the place of `len` octets from `start` on, as far as they are in the text.
    pub(crate) fn within(text: &[u8], reason: Reason, start: usize, len: usize) -> Self
        ensures reason { result.reason ≡ reason }
        ensures start { result.start ≡ min start (length text.now) }
        ensures end { result.end ≡ min (result.start + len) (length text.now) }
        ensures place { IsPlaceIn text.now result }
    {
        let start = start.min(text.len());
        Located {
            reason,
            start,
            end: start.saturating_add(len).min(text.len()),
        }
    }
}
