//! Octets as the numbers of an encoding's characters.
ghost use Rattle.std.specs.Prelude.{◌≡◌, ◌+◌, ◌≤◌, ◌<◌, ◌^◌, List, ℕ, [], ◌∷◌, ◌++◌, length, IfSome, IfNone};
ghost use Rattle.dns_scan.specs.Bits.{all_bits, numbers_of};

use super::bits::Bits;
use std::marker::Model;

/// The numbers of the groups of bits that octets are cut into, the last group filled up with zeros.
#[derive(Debug, Drop)]
pub(crate) struct Values<'a> {
    octets: &'a [u8],
    waiting: Bits,
    /// The number of bits of a group.
    width: u32,
}

impl<'a> Model for Values<'a> {
    ghost Value = { List ℕ };

    ghost view = { λ it. numbers_of it.width (it.waiting ++ all_bits 8 it.octets.now) };

    ghost invariant = { λ it. (4 ≤ it.width) × (it.width ≤ 6) × (length it.waiting < 8) };
}

impl<'a> Values<'a> {
    /// Returns the numbers of the octets' groups.
    pub(crate) fn of(octets: &'a [u8], width: u32) -> Self
        requires some { 4 ≤ width }
        requires few { width ≤ 6 }
        ensures { result ≡ numbers_of width (all_bits 8 octets.now) }
    {
        Values {
            octets,
            waiting: Bits::none(),
            width,
        }
    }
}

impl Iterator for Values<'_> {
    ghost use Rattle.std.specs.Iterator.{YieldsFirst, item_count};

    type Item = u32;

    ghost next_gives = { YieldsFirst (λ numbers. numbers) };

    ghost remaining = { item_count (λ numbers. numbers) };

    fn next(&mut self) -> Option<u32> {
        let count = self.waiting.len();
        if count >= self.width {
            return Some(self.waiting.take(self.width));
        }
        match split_octet(self.octets) {
            Some((octet, behind)) => {
                self.octets = behind;
                self.waiting.push(8, octet);
                Some(self.waiting.take(self.width))
            }
            None if count == 0 => None,
            None => {
                self.waiting.push(self.width - count, 0);
                Some(self.waiting.take(self.width))
            }
        }
    }
}

/// Splits off the first octet.
fn split_octet(octets: &[u8]) -> Option<(u32, &[u8])>
    ensures found { IfSome result (λ found. (found.0 < 2 ^ 8) × (octets.now ≡ found.0 ∷ found.1.now)) }
    ensures none { IfNone result (octets.now ≡ []) }
{
    if octets.is_empty() {
        return None;
    }
    Some((u32::from(octets[0]), &octets[1..]))
}
