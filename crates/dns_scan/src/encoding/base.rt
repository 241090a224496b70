//! The alphabets of RFC 4648.
ghost use Rattle.std.specs.Prelude.{◌≡◌, ◌<◌, ◌↔◌, IsTrue, IfSome, IfNone};
ghost use Rattle.dns_scan.specs.declared.encoding.base.Base.TheVariants.{SixtyFour};
ghost use Rattle.dns_scan.specs.Base.{width, size, character, digit, character_64, digit_64, hex_character, padding, IsCharacter};

/// An encoding of RFC 4648.
#[derive(Clone, Copy, Debug, PartialEq, Eq)]
pub enum Base {
    /// Base 16 (section 8).
    Sixteen,
    /// Base 32 with the hex alphabet, without padding (section 7).
    ThirtyTwoHex,
    /// Base 64 (section 4).
    SixtyFour,
}

impl Base {
    /// Returns how many bits a character stands for.
    pub(crate) fn width(self) -> u32
        ensures { result ≡ width self }
    {
        match self {
            Base::Sixteen => 4,
            Base::ThirtyTwoHex => 5,
            Base::SixtyFour => 6,
        }
    }

    /// Returns the character of a number.
    pub(crate) fn character(self, number: u32) -> char
        requires { number < size self }
        ensures is { result ≡ character self number }
        ensures ascii { result < 128 }
    {
        let octet = number as u8;
        match self {
            Base::Sixteen | Base::ThirtyTwoHex => hex_character(octet),
            Base::SixtyFour => char::from(character_64(octet)),
        }
    }

    /// Returns the number of a character, in base 16 and 32 in upper or lower case, or `None` if it is not in the
    /// alphabet.
    pub(crate) fn digit(self, character: char) -> Option<u32>
        ensures found { IfSome result (λ number. (number ≡ digit self character) × (number < size self)) }
        ensures none { IfNone result (IsCharacter self character → ⊥) }
    {
        match self {
            Base::Sixteen => character.to_digit(16),
            Base::ThirtyTwoHex => character.to_digit(32),
            Base::SixtyFour => digit_64(character),
        }
    }

    /// Returns whether the character is a pad.
    pub(crate) fn is_pad(self, character: char) -> bool
        ensures { IsTrue result ↔ ((self ≡ SixtyFour) × (character ≡ 61)) }
    {
        matches!(self, Base::SixtyFour) && character == '='
    }

    /// Returns the padding of a text of `count` characters modulo four.
    pub(crate) fn padding(self, count: u32) -> &'static str
        requires { count < 4 }
        ensures { result.now ≡ padding self count }
    {
        match (self, count) {
            (Base::SixtyFour, 1) => "===",
            (Base::SixtyFour, 2) => "==",
            (Base::SixtyFour, 3) => "=",
            _ => "",
        }
    }
}

/// Returns the digit or capital of a number.
fn hex_character(number: u8) -> char
    requires { number < 32 }
    ensures is { result ≡ hex_character number }
    ensures ascii { result < 128 }
{
    match number {
        0..=9 => char::from(b'0' + number),
        _ => char::from(b'A' - 10 + number),
    }
}

/// Returns the capital, small letter, digit, plus or slash of a number.
pub(super) fn character_64(number: u8) -> u8
    requires { number < 64 }
    ensures is { result ≡ character_64 number }
    ensures ascii { result < 128 }
{
    match number {
        0..=25 => b'A' + number,
        26..=51 => b'a' - 26 + number,
        52..=61 => number - 4,
        62 => b'+',
        _ => b'/',
    }
}

/// Returns the number of a capital, small letter, digit, plus or slash.
fn digit_64(character: char) -> Option<u32>
    ensures found { IfSome result (λ number. (number ≡ digit_64 character) × (number < 64)) }
    ensures none { IfNone result (digit_64 character < 64 → ⊥) }
{
    let code = character as u32;
    match character {
        'A'..='Z' => Some(code - 65),
        'a'..='z' => Some(code - 71),
        '0'..='9' => Some(code + 4),
        '+' => Some(62),
        '/' => Some(63),
        _ => None,
    }
}
