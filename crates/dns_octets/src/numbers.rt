//! Numbers of two octets, the most significant octet first (RFC 1035 2.3.2).
ghost use Rattle.std.specs.Prelude.{◌≡◌, ◌+◌, ◌++◌, ◌≤◌, List, ℕ, length};
ghost use Rattle.std.specs.Int.{to_be_bytes, w16};
ghost use Rattle.dns_octets.specs.Numbers as spec;

/// Returns the number in the two octets at `place`.
pub fn number_at(octets: &[u8], place: usize) -> u16
    requires { place + 2 ≤ length octets.now }
    ensures { result ≡ spec.number_at octets.now place }
{
    let number = &octets[place..place + 2];
    u16::from_be_bytes([number[0], number[1]])
}

/// Writes a number over the two octets at `place`.
pub fn put_number(octets: &mut Vec<u8>, place: usize, number: u16)
    requires { place + 2 ≤ length octets.old.items }
    ensures { (front there behind : List ℕ) → octets.old.items ≡ front ++ (there ++ behind) → length front ≡ place →
        length there ≡ 2 → octets.new.items ≡ front ++ (to_be_bytes w16 number ++ behind) }
{
    let [high, low] = number.to_be_bytes();
    octets[place] = high;
    octets[place + 1] = low;
}
