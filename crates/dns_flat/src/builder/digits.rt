//! Labels that are numbers.
ghost use Rattle.std.specs.Prelude.{◌≡◌, ◌<◌, ◌≤◌, ◌%◌, ◌↔◌, ◌∷◌, [], length, decimal, false, Err, OnOk, OnErr};
ghost use Rattle.std.specs.Fmt.{digit_glyph};
ghost use Rattle.dns_wire.specs.Built.{with_label, built_len};
ghost use Rattle.dns_wire.specs.declared.push_error.PushError.TheVariants.{LongLabel, LongName};

use super::NameBuilder;
use arrayvec::ArrayVec;
use dns_octets::OctetsBuilder;
use dns_wire::PushError;

impl<B: OctetsBuilder> NameBuilder<B> {
    /// Ends the open label, if there is one, and appends a label of the number's decimal digits.
    ///
    /// Fails with `LongName` exactly if the labels would take more than 254 octets, and with `ShortBuf` if there is no
    /// room or no memory.
    pub fn append_dec_u8_label(&mut self, value: u8) -> Result<(), PushError>
        ensures ok { OnOk result (self.new ≡ with_label self.old (decimal value)) }
        ensures err { OnErr result (self.new ≡ self.old) }
        ensures long_name { (result ≡ Err LongName) ↔ (254 < built_len (with_label self.old (decimal value))) }
        ensures long_label { result ≡ Err LongLabel → ⊥ }
    {
        self.append_label(decimal_label(value).as_slice())
    }

    /// Ends the open label, if there is one, and appends a label of one octet: the hexadecimal digit of the number's
    /// low four bits, in lower case.
    ///
    /// Fails with `LongName` exactly if the labels would take more than 254 octets, and with `ShortBuf` if there is no
    /// room or no memory.
    pub fn append_hex_digit_label(&mut self, nibble: u8) -> Result<(), PushError>
        ensures ok { OnOk result (self.new ≡ with_label self.old (digit_glyph false (nibble % 16) ∷ [])) }
        ensures err { OnErr result (self.new ≡ self.old) }
        ensures long_name { (result ≡ Err LongName) ↔ (254 < built_len (with_label self.old (digit_glyph false (nibble % 16) ∷ []))) }
        ensures long_label { result ≡ Err LongLabel → ⊥ }
    {
        self.append_label(&[hex_label(nibble)])
    }
}

/// Returns the decimal digits of a number.
pub(crate) fn decimal_label(value: u8) -> ArrayVec<u8, 3>
    ensures digits { result.items ≡ decimal value }
    ensures few { length result.items ≤ 3 }
{
    let mut digits = ArrayVec::new();
    if value >= 100 {
        digits.push(b'0' + value / 100);
    }
    if value >= 10 {
        digits.push(b'0' + value / 10 % 10);
    }
    digits.push(b'0' + value % 10);
    digits
}

/// Returns the hexadecimal digit of a number's low four bits, in lower case.
pub(crate) fn hex_label(value: u8) -> u8
    ensures { result ≡ digit_glyph false (value % 16) }
{
    match value % 16 {
        digit @ 0..=9 => b'0' + digit,
        digit => b'a' - 10 + digit,
    }
}
