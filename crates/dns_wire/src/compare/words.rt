//! Whether octets are the same, found by words of eight octets.
ghost use Rattle.std.specs.Prelude.{◌≡◌, ◌+◌, ◌≤◌, ◌↔◌, IsTrue, length, take, drop};
ghost use Rattle.std.specs.Int.{to_le_bytes, w64};

/// The number of octets that are compared together.
const WORD_OCTETS: usize = 8;

/// Returns whether octets are the same. They are compared by words, of which the last two may have octets in common.
#[inline(always)]
pub(super) fn are_same(octets: &[u8], other: &[u8]) -> bool
    ensures { IsTrue result ↔ (octets.now ≡ other.now) }
{
    if octets.len() != other.len() || octets.len() < WORD_OCTETS {
        return octets == other;
    }
    let last = octets.len() - WORD_OCTETS;
    let mut place = 0;
    while place < last {
        if word_at(octets, place) != word_at(other, place) {
            return false;
        }
        place += WORD_OCTETS;
    }
    word_at(octets, last) == word_at(other, last)
}

/// Returns the eight octets at the place as a number.
#[inline(always)]
fn word_at(octets: &[u8], place: usize) -> u64
    requires { place + 8 ≤ length octets.now }
    ensures { to_le_bytes w64 result ≡ take 8 (drop place octets.now) }
{
    match octets[place..].first_chunk::<WORD_OCTETS>() {
        Some(word) => u64::from_le_bytes(*word),
        None => unreachable!(),
    }
}
