//! Bitmaps as tokens.
ghost use Rattle.std.specs.Prelude.{◌≡◌, ◌+◌, ◌≤◌, ◌<◌, ◌*◌, [], ◌∷◌, length, OnOk};
ghost use Rattle.dns_scan.specs.Bits.{bits, all_bits};
ghost use Rattle.dns_text.specs.Writing.{Adds};
ghost use Rattle.dns_field_texts.specs.TypeBitmap.{IsTypeBitmap, ones_from, types_in, type_pieces};

use super::windows::split_window;
use crate::type_words::DisplayType;
use dns_name::Rtype;
use dns_text::Formatter;
use std::fmt;

/// Writes a token for each type of a bitmap, in ascending order.
pub fn show_types<F: Formatter>(octets: &[u8], formatter: &mut F) -> fmt::Result
    requires { IsTypeBitmap octets.now }
    ensures { OnOk result (Adds F.writes formatter.old (type_pieces (types_in octets.now)) formatter.new) }
{
    let mut left = octets;
    while let Some((number, window, behind)) = split_window(left) {
        show_window(number, window, formatter)?;
        left = behind;
    }
    Ok(())
}

/// Writes a token for each type of a window.
fn show_window<F: Formatter>(number: u8, window: &[u8], formatter: &mut F) -> fmt::Result
    requires { length window.now ≤ 32 }
    ensures { OnOk result (Adds F.writes formatter.old (type_pieces (ones_from (256 * number) (all_bits 8 window.now))) formatter.new) }
{
    let mut first = 256 * u32::from(number);
    for octet in window {
        show_octet(first, *octet, formatter)?;
        first += 8;
    }
    Ok(())
}

/// Writes a token for each of eight types whose bit is one, from the highest bit on.
fn show_octet<F: Formatter>(first: u32, octet: u8, formatter: &mut F) -> fmt::Result
    requires { first + 8 ≤ 65536 }
    ensures { OnOk result (Adds F.writes formatter.old (type_pieces (ones_from first (bits 8 octet))) formatter.new) }
{
    for place in 0..8u32 {
        show_bit(first + place, (octet >> (7 - place)) % 2, formatter)?;
    }
    Ok(())
}

/// Writes a token for the type whose bit this is, if it is one.
fn show_bit<F: Formatter>(rtype: u32, bit: u8, formatter: &mut F) -> fmt::Result
    requires { rtype < 65536 }
    ensures { OnOk result (Adds F.writes formatter.old (type_pieces (ones_from rtype (bit ∷ []))) formatter.new) }
{
    if bit == 1 {
        formatter.write_token(DisplayType(Rtype::from_int(rtype as u16)))
    } else {
        Ok(())
    }
}
