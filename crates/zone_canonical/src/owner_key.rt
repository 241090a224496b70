//! Keys of owners: numbers in the order of most owners of a zone (RFC 4034 6.1).
//!
//! A key is the labels under the apex, from the right and in lower case, as fourteen digits in base 512. An octet's
//! digit is the octet plus one, and 0 ends a label:
//!
//! ```text
//! www.Example.    with the apex      example.    has the digits    120 120 120 0 0 ..
//! ```
ghost use Rattle.std.specs.Prelude.{◌≡◌, ◌≤◌, ◌+◌, ◌*◌, ◌^◌, ◌<◌, ◌++◌, ℕ, List, suc, length, map, reverse};
ghost use Rattle.std.specs.Char.{to_ascii_lowercase};
ghost use Rattle.dns_label.specs.Name.{low};
ghost use Rattle.zone_canonical.specs.OwnerKey.{TakesLast, code, front_key, key_of};

use dns_name::{Name, NameIter, RelativeName, ToName};

/// The number of digits in a half of a key.
const HALF: usize = 7;

/// The number of values of a half: 512 to the power of seven.
const HALF_VALUES: u128 = 0x8000_0000_0000_0000;

/// Returns the key of an owner relative to an apex. Owners that are not under it have keys too. Of two owners with
/// different keys, the one with the lesser key comes first.
pub(crate) fn owner_key(owner: &Name<&[u8]>, apex: &Name<&[u8]>) -> u128
    ensures { result ≡ key_of apex.now owner.now }
{
    if owner.ends_with(apex) {
        key_under(&owner.slice(0, owner.len() - apex.len()))
    } else if owner.name_cmp(apex).is_lt() {
        0
    } else {
        u128::MAX
    }
}

/// Returns the key of a name under the apex. `front` is its labels before those of the apex.
fn key_under(front: &RelativeName<&[u8]>) -> u128
    ensures { result ≡ front_key (reverse (low front.now)) }
{
    let mut digits = Digits::of_front(front);
    let high = digits.next_half();
    let low = digits.next_half();
    u128::from(high) * HALF_VALUES + u128::from(low)
}

/// Returns the digits of at most seven octets of a label, as one number.
fn number_of(octets: &[u8]) -> u64
    requires { length octets.now ≤ 7 }
    ensures digits { (left : ℕ) (label : List ℕ) (labels : List (List ℕ)) →
        code (length octets.now + left) (map to_ascii_lowercase (octets.now ++ label)) labels
        ≡ result * 512 ^ left + code left (map to_ascii_lowercase label) labels }
    ensures within { result < 512 ^ length octets.now }
{
    let mut number = 0;
    for octet in octets {
        number = number * 512 + digit_of(*octet);
    }
    number
}

/// Returns the digit of an octet of a label.
#[inline(always)]
fn digit_of(octet: u8) -> u64
    ensures digit { result ≡ to_ascii_lowercase octet + 1 }
    ensures within { result ≤ 256 }
{
    u64::from(DIGITS[octet as usize])
}

/// The digit of each octet: that of a letter in upper case is that of the same letter in lower case.
static DIGITS: [u16; 256] = [
    1, 2, 3, 4, 5, 6, 7, 8, 9, 10, 11, 12, 13, 14, 15, 16, 17, 18, 19, 20, 21, 22, 23, 24, 25, 26,
    27, 28, 29, 30, 31, 32, 33, 34, 35, 36, 37, 38, 39, 40, 41, 42, 43, 44, 45, 46, 47, 48, 49, 50,
    51, 52, 53, 54, 55, 56, 57, 58, 59, 60, 61, 62, 63, 64, 65, 98, 99, 100, 101, 102, 103, 104,
    105, 106, 107, 108, 109, 110, 111, 112, 113, 114, 115, 116, 117, 118, 119, 120, 121, 122, 123,
    92, 93, 94, 95, 96, 97, 98, 99, 100, 101, 102, 103, 104, 105, 106, 107, 108, 109, 110, 111,
    112, 113, 114, 115, 116, 117, 118, 119, 120, 121, 122, 123, 124, 125, 126, 127, 128, 129, 130,
    131, 132, 133, 134, 135, 136, 137, 138, 139, 140, 141, 142, 143, 144, 145, 146, 147, 148, 149,
    150, 151, 152, 153, 154, 155, 156, 157, 158, 159, 160, 161, 162, 163, 164, 165, 166, 167, 168,
    169, 170, 171, 172, 173, 174, 175, 176, 177, 178, 179, 180, 181, 182, 183, 184, 185, 186, 187,
    188, 189, 190, 191, 192, 193, 194, 195, 196, 197, 198, 199, 200, 201, 202, 203, 204, 205, 206,
    207, 208, 209, 210, 211, 212, 213, 214, 215, 216, 217, 218, 219, 220, 221, 222, 223, 224, 225,
    226, 227, 228, 229, 230, 231, 232, 233, 234, 235, 236, 237, 238, 239, 240, 241, 242, 243, 244,
    245, 246, 247, 248, 249, 250, 251, 252, 253, 254, 255, 256,
];

/// The digits of a key, from the left.
#[derive(Drop)]
struct Digits<'a> {
    /// The rest of a label.
    label: &'a [u8],
    /// The labels before it, which come after it in the key.
    labels: NameIter<'a>,
}

impl<'a> Digits<'a> {
    /// Returns the digits of the labels, from the right.
    fn of_front(front: &'a RelativeName<&[u8]>) -> Digits<'a>
        ensures { code 14 (map to_ascii_lowercase result.label.now) (reverse (low result.labels)) ≡ front_key (reverse (low front.now)) }
    {
        let mut labels = front.iter();
        let label = last_label(&mut labels);
        Digits { label, labels }
    }

    /// Takes the next seven digits, as one number. After the labels, every digit is 0.
    #[inline(always)]
    fn next_half(&mut self) -> u64
        ensures digits { (left : ℕ) → code (7 + left) (map to_ascii_lowercase self.old.label.now) (reverse (low self.old.labels))
            ≡ result * 512 ^ left + code left (map to_ascii_lowercase self.new.label.now) (reverse (low self.new.labels)) }
        ensures within { result < 512 ^ 7 }
    {
        if self.label.len() < HALF {
            return self.next_across();
        }
        let (octets, rest) = self.label.split_at(HALF);
        self.label = rest;
        number_of(octets)
    }

    /// Takes the next seven digits, as one number, if the label has fewer octets.
    fn next_across(&mut self) -> u64
        requires { length self.old.label.now < 7 }
        ensures digits { (left : ℕ) → code (7 + left) (map to_ascii_lowercase self.old.label.now) (reverse (low self.old.labels))
            ≡ result * 512 ^ left + code left (map to_ascii_lowercase self.new.label.now) (reverse (low self.new.labels)) }
        ensures within { result < 512 ^ 7 }
    {
        let count = self.label.len();
        let mut number = number_of(self.label);
        self.label = &[];
        for _ in count..HALF {
            number = number * 512 + self.next_digit();
        }
        number
    }

    /// Takes the next digit. After the labels, every digit is 0.
    fn next_digit(&mut self) -> u64
        ensures digit { (left : ℕ) → code (suc left) (map to_ascii_lowercase self.old.label.now) (reverse (low self.old.labels))
            ≡ result * 512 ^ left + code left (map to_ascii_lowercase self.new.label.now) (reverse (low self.new.labels)) }
        ensures within { result ≤ 256 }
    {
        match self.label.split_first() {
            Some((octet, rest)) => {
                self.label = rest;
                digit_of(*octet)
            }
            None => {
                self.label = last_label(&mut self.labels);
                0
            }
        }
    }
}

/// Takes the last of the labels. Returns no octets if there is none.
fn last_label<'a>(labels: &mut NameIter<'a>) -> &'a [u8]
    ensures { TakesLast labels.old result.now labels.new }
{
    match labels.next_back() {
        Some(label) => label.as_slice(),
        None => &[],
    }
}
