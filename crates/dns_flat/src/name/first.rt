//! The name at the start of octets.
ghost use Rattle.std.specs.Prelude.{◌≡◌, ◌++◌, List, ℕ};
ghost use Rattle.dns_label.specs.Name.{IsName, wire};

use crate::Name;

/// Returns the name at the start of the octets, without compression pointers. The caller guarantees that there is one,
/// so only the lengths of its labels are read.
pub fn first_name(octets: &[u8]) -> Name<&[u8]>
    requires { (name : List (List ℕ)) × (rest : List ℕ) × IsName name × (octets.now ≡ wire name ++ rest) }
    ensures { (name : List (List ℕ)) (rest : List ℕ) → IsName name → octets.now ≡ wire name ++ rest → result ≡ name }
{
    let mut end = 0;
    while octets[end] != 0 {
        end += usize::from(octets[end]) + 1;
    }
    Name::from_octets_unchecked(&octets[..=end])
}
