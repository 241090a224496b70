//! Numbers of 32 bits as decimal digits.
ghost use Rattle.std.specs.Prelude.{◌≡◌, ◌^◌};
ghost use Rattle.dns_name.specs.Mnemonic.{number_spelled};

/// Returns the number of 32 bits that digits spell, if they spell one. There is no sign, and leading zeros are allowed. Each
/// octet is looked at once.
#[inline(always)]
#[tactic(auto, using(crate::proofs::DigitNumbers::number_other, crate::proofs::DigitNumbers::number_large, crate::proofs::DigitNumbers::number_more, crate::proofs::DigitNumbers::number_none, crate::proofs::DigitNumbers::number_whole))]
pub fn number_of(digits: &[u8]) -> Option<u32>
    ensures { result ≡ number_spelled (2 ^ 32) digits.now }
{
    let mut number: u64 = 0;
    let mut place = 0;
    while place < digits.len() {
        let digit = digits[place];
        if !digit.is_ascii_digit() {
            return None;
        }
        number = 10 * number + u64::from(digit - b'0');
        if number > 0xFFFF_FFFF {
            return None;
        }
        place += 1;
    }
    if digits.is_empty() {
        return None;
    }
    Some(number as u32)
}
