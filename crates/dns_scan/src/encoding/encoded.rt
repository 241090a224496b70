//! Octets shown in an encoding of RFC 4648.
ghost use Rattle.std.specs.Prelude.{◌≡◌, List, ℕ, Some};
ghost use Rattle.std.specs.Fmt.{DisplaysOnOk};
ghost use Rattle.dns_name.specs.UnknownText.{hex_of};
ghost use Rattle.dns_scan.specs.Base.{encoded};
ghost use Rattle.dns_scan.specs.declared.encoding.base.Base.TheVariants.{SixtyFour};

use super::base::Base;
use super::fours::{FOURS_LEN, put_fours};
use super::hex_digits::{PIECE_LEN, write_digits};
use super::values::Values;
use std::fmt;
use std::marker::Model;

/// What shows octets in an encoding. A contract sees it as the text that it shows.
#[derive(Debug, Drop)]
pub struct DisplayEncoded<'a> {
    base: Base,
    octets: &'a [u8],
}

impl<'a> Model for DisplayEncoded<'a> {
    ghost Value = { List ℕ };

    ghost view = { λ shown. encoded shown.base shown.octets.now };
}

impl<'a> DisplayEncoded<'a> {
    /// Returns what shows the octets in this encoding.
    pub(crate) fn of(base: Base, octets: &'a [u8]) -> Self
        ensures { result ≡ encoded base octets.now }
    {
        DisplayEncoded { base, octets }
    }
}

impl fmt::Display for DisplayEncoded<'_> {
    ghost output = { λ text. Some text };

    fn fmt<W: fmt::Write>(&self, f: &mut fmt::Formatter<W>) -> fmt::Result {
        write_encoded(f, self.base, self.octets)
    }
}

/// Writes the text of the octets.
fn write_encoded<W: fmt::Write>(f: &mut fmt::Formatter<W>, base: Base, octets: &[u8]) -> fmt::Result
    ensures { DisplaysOnOk W.write_str_gives f.old result (Some (encoded base octets.now)) f.new }
{
    match base {
        Base::Sixteen => write_hex(f, octets),
        Base::ThirtyTwoHex => write_characters(f, base, octets),
        Base::SixtyFour => write_fours(f, octets),
    }
}

/// Writes the text of the octets in base 16.
fn write_hex<W: fmt::Write>(f: &mut fmt::Formatter<W>, octets: &[u8]) -> fmt::Result
    ensures { DisplaysOnOk W.write_str_gives f.old result (Some (hex_of octets.now)) f.new }
{
    let mut digits = [0; 2 * PIECE_LEN];
    let mut left = octets;
    while !left.is_empty() {
        let (piece, behind) = left.split_at(left.len().min(PIECE_LEN));
        write_digits(piece, &mut digits);
        // Digits are ASCII.
        f.write_str(unsafe { str::from_utf8_unchecked(&digits[..2 * piece.len()]) })?;
        left = behind;
    }
    Ok(())
}

/// Writes the text of the octets in base 64: four characters for each three octets, and then those of the last one or two.
fn write_fours<W: fmt::Write>(f: &mut fmt::Formatter<W>, octets: &[u8]) -> fmt::Result
    ensures { DisplaysOnOk W.write_str_gives f.old result (Some (encoded SixtyFour octets.now)) f.new }
{
    let mut characters = [0; FOURS_LEN];
    let mut left = octets;
    while left.len() >= 3 {
        let count = (left.len() / 3).min(FOURS_LEN / 4);
        let (piece, behind) = left.split_at(3 * count);
        put_fours(piece, count, &mut characters);
        // The alphabet is ASCII.
        f.write_str(unsafe { str::from_utf8_unchecked(&characters[..4 * count]) })?;
        left = behind;
    }
    write_characters(f, Base::SixtyFour, left)
}

/// Writes the text of the octets, character by character.
fn write_characters<W: fmt::Write>(
    f: &mut fmt::Formatter<W>,
    base: Base,
    octets: &[u8],
) -> fmt::Result
    ensures { DisplaysOnOk W.write_str_gives f.old result (Some (encoded base octets.now)) f.new }
{
    let mut count = 0;
    for number in Values::of(octets, base.width()) {
        f.write_char(base.character(number))?;
        count = (count + 1) % 4;
    }
    f.write_str(base.padding(count))
}
