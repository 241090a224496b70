//! The characters of octets in base 64 (RFC 4648 4), four for each three octets.
ghost use Rattle.std.specs.Prelude.{◌≡◌, ◌≤◌, ◌*◌, length, take};
ghost use Rattle.dns_scan.specs.Base.{characters_of};
ghost use Rattle.dns_scan.specs.declared.encoding.base.Base.TheVariants.{SixtyFour};

use super::base::character_64;

/// How many characters at most are written before they are handed on.
pub(super) const FOURS_LEN: usize = 64;

/// Writes the four characters of each three of the octets, from the start of `characters` on. There are `count` times three octets.
pub(super) fn put_fours(octets: &[u8], count: usize, characters: &mut [u8; FOURS_LEN])
    requires few { count ≤ 16 }
    requires whole { length octets.now ≡ 3 * count }
    ensures { take (4 * count) characters.new ≡ characters_of SixtyFour octets.now }
{
    for index in 0..count {
        let first = octets[3 * index];
        let second = octets[3 * index + 1];
        let third = octets[3 * index + 2];
        characters[4 * index] = character_64(first / 4);
        characters[4 * index + 1] = character_64(first % 4 * 16 + second / 16);
        characters[4 * index + 2] = character_64(second % 16 * 4 + third / 64);
        characters[4 * index + 3] = character_64(third % 64);
    }
}
