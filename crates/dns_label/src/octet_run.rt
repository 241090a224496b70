//! Runs of octets of one kind in text, found sixteen octets at a time.
ghost use Rattle.std.specs.Prelude.{◌≡◌, ◌≤◌, ◌+◌, Bool, ℕ, not, drop, length, map};
ghost use Rattle.std.specs.List.{prefix_len};
ghost use Rattle.std.specs.Simd.Lanes.{mask_l};

use std::simd::prelude::*;

/// The number of octets that are looked at together.
const LANES: usize = 16;

/// A kind of octets, such as those that a text writes as themselves.
pub trait OctetKind {
    ghost has: { ℕ → Bool };

    /// Returns whether an octet is of the kind.
    fn has(octet: u8) -> bool
        ensures { result ≡ has octet };

    /// Returns a mask of the octets that are not of the kind: a bit for each of the sixteen, the lowest for the first.
    fn others(octets: u8x16) -> u64
        ensures { result ≡ mask_l (map (λ octet. not (has octet)) octets) };
}

/// Returns the end of the run of octets of the kind that starts at `place`: `place` itself if the octet there is of no
/// such kind, and the text's end if all that is left are.
pub fn run_end<K: OctetKind>(text: &[u8], place: usize) -> usize
    requires { place ≤ length text.now }
    ensures end { result ≡ place + prefix_len K.has (drop place text.now) }
    ensures within { result ≤ length text.now }
{
    let mut end = place;
    while LANES <= text.len() - end {
        let others = K::others(u8x16::from_slice(&text[end..]));
        if others != 0 {
            return end + others.trailing_zeros() as usize;
        }
        end += LANES;
    }
    if LANES <= text.len() {
        last_run_end::<K>(text, end)
    } else {
        short_run_end::<K>(text, end)
    }
}

/// The same from a place among the last sixteen octets. It looks at these together, and ignores those before the place.
fn last_run_end<K: OctetKind>(text: &[u8], place: usize) -> usize
    requires long { 16 ≤ length text.now }
    requires last { length text.now ≤ place + 16 }
    requires within { place ≤ length text.now }
    ensures { result ≡ place + prefix_len K.has (drop place text.now) }
{
    let first = text.len() - LANES;
    let others = K::others(u8x16::from_slice(&text[first..])) >> (place - first) as u32;
    if others == 0 {
        text.len()
    } else {
        place + others.trailing_zeros() as usize
    }
}

/// The same octet by octet.
fn short_run_end<K: OctetKind>(text: &[u8], place: usize) -> usize
    requires { place ≤ length text.now }
    ensures { result ≡ place + prefix_len K.has (drop place text.now) }
{
    let mut end = place;
    while end < text.len() && K::has(text[end]) {
        end += 1;
    }
    end
}
