//! Locations as tokens (RFC 1876 3), every field of them.
ghost use Rattle.std.specs.Prelude.{◌≡◌, ◌+◌, ◌*◌, ◌%◌, ◌^◌, ◌<◌, ◌++◌, ◌∷◌, [], Some, OnOk, codes, map};
ghost use Rattle.std.specs.Fmt.{DisplaysOnOk};
ghost use Rattle.dns_label.specs.Symbol.{three_digits};
ghost use Rattle.dns_text.specs.Document.Piece.{Token};
ghost use Rattle.dns_text.specs.Writing.{Adds};
ghost use Rattle.dns_field_texts.specs.Location.{IsLocation, Location, location_octets};
ghost use Rattle.dns_field_texts.specs.LocationParts.{location_of};
ghost use Rattle.dns_field_texts.specs.LocationText as shown;

use super::place::{Place, Precision, read_place};
use dns_text::Formatter;
use std::fmt;

/// Writes a token for each part of a location. An error is one of the formatter, if the octets are a location.
pub fn show_location<F: Formatter>(octets: &[u8], formatter: &mut F) -> fmt::Result
    ensures { (location : Location) → IsLocation location → octets.now ≡ location_octets location
        → OnOk result (Adds F.writes formatter.old (map Token (shown.location_words location)) formatter.new) }
{
    match read_place(octets) {
        Some(place) => show_place(&place, formatter),
        None => Err(fmt::Error),
    }
}

/// Writes a token for each part of a place.
fn show_place<F: Formatter>(place: &Place, formatter: &mut F) -> fmt::Result
    requires { IsLocation (location_of place.now) }
    ensures { OnOk result (Adds F.writes formatter.old (map Token (shown.location_words (location_of place.now))) formatter.new) }
{
    show_arc(place.latitude, "N", "S", formatter)?;
    show_arc(place.longitude, "E", "W", formatter)?;
    show_altitude(place.altitude, formatter)?;
    show_size(place.size, formatter)?;
    show_size(place.horizontal, formatter)?;
    show_size(place.vertical, formatter)
}

/// Writes an angle and its direction.
fn show_arc<F: Formatter>(
    value: u32,
    up: &'static str,
    down: &'static str,
    formatter: &mut F,
) -> fmt::Result
    ensures { OnOk result (Adds F.writes formatter.old (map Token (shown.arc_words up.now down.now value)) formatter.new) }
{
    if value < 1 << 31 {
        show_angle((1 << 31) - value, down, formatter)
    } else {
        show_angle(value - (1 << 31), up, formatter)
    }
}

/// Writes an angle in thousandths of a second, and a direction.
fn show_angle<F: Formatter>(angle: u32, direction: &'static str, formatter: &mut F) -> fmt::Result
    ensures { OnOk result (Adds F.writes formatter.old (map Token (shown.angle_words angle ++ direction.now ∷ [])) formatter.new) }
{
    formatter.write_token(angle / 3_600_000)?;
    formatter.write_token(TwoDigits {
        number: angle / 60_000 % 60,
    })?;
    formatter.write_token(Seconds {
        seconds: angle / 1000 % 60,
        thousandths: angle % 1000,
    })?;
    formatter.write_token(direction)
}

/// Writes an altitude.
fn show_altitude<F: Formatter>(altitude: u32, formatter: &mut F) -> fmt::Result
    ensures { OnOk result (Adds F.writes formatter.old (Token (shown.altitude_text altitude) ∷ []) formatter.new) }
{
    if altitude < 10_000_000 {
        formatter.write_token(Depth {
            centimetres: 10_000_000 - altitude,
        })
    } else {
        formatter.write_token(Metres {
            centimetres: u64::from(altitude - 10_000_000),
        })
    }
}

/// Writes a size.
fn show_size<F: Formatter>(size: Precision, formatter: &mut F) -> fmt::Result
    requires mantissa { size.mantissa < 10 }
    requires power { size.power < 10 }
    ensures { OnOk result (Adds F.writes formatter.old (Token (shown.metres_text (size.mantissa * 10 ^ size.power)) ∷ []) formatter.new) }
{
    formatter.write_token(Metres {
        centimetres: size.centimetres(),
    })
}

/// A number below 100 with two digits.
#[derive(Drop)]
struct TwoDigits {
    number: u32,
}

impl fmt::Display for TwoDigits {
    ghost output = { λ digits. Some (shown.two_digits (digits.number % 100)) };

    fn fmt<W: fmt::Write>(&self, f: &mut fmt::Formatter<W>) -> fmt::Result {
        write_two(f, self.number % 100)
    }
}

/// Seconds below 100 with three decimals.
#[derive(Drop)]
struct Seconds {
    seconds: u32,
    thousandths: u32,
}

impl fmt::Display for Seconds {
    ghost output = { λ time. Some (shown.two_digits (time.seconds % 100) ++ codes "." ++ three_digits (time.thousandths % 1000)) };

    fn fmt<W: fmt::Write>(&self, f: &mut fmt::Formatter<W>) -> fmt::Result {
        let thousandths = self.thousandths % 1000;
        write_two(f, self.seconds % 100)?;
        f.write_str(".")?;
        write_digit(f, thousandths / 100)?;
        write_digit(f, thousandths / 10 % 10)?;
        write_digit(f, thousandths % 10)
    }
}

/// A length in metres with two decimals.
#[derive(Drop)]
struct Metres {
    centimetres: u64,
}

impl fmt::Display for Metres {
    ghost output = { λ length. Some (shown.metres_text length.centimetres) };

    fn fmt<W: fmt::Write>(&self, f: &mut fmt::Formatter<W>) -> fmt::Result {
        write_metres(f, self.centimetres)
    }
}

/// A length below zero.
#[derive(Drop)]
struct Depth {
    centimetres: u32,
}

impl fmt::Display for Depth {
    ghost output = { λ length. Some (codes "-" ++ shown.metres_text length.centimetres) };

    fn fmt<W: fmt::Write>(&self, f: &mut fmt::Formatter<W>) -> fmt::Result {
        f.write_str("-")?;
        write_metres(f, u64::from(self.centimetres))
    }
}

/// Writes a length in metres with two decimals, and its unit.
fn write_metres<W: fmt::Write>(f: &mut fmt::Formatter<W>, centimetres: u64) -> fmt::Result
    ensures { DisplaysOnOk W.write_str_gives f.old result (Some (shown.metres_text centimetres)) f.new }
{
    let metres = centimetres / 100;
    write!(f, "{metres}")?;
    f.write_str(".")?;
    write_two(f, (centimetres % 100) as u32)?;
    f.write_str("m")
}

/// Writes a number of two digits.
fn write_two<W: fmt::Write>(f: &mut fmt::Formatter<W>, number: u32) -> fmt::Result
    requires { number < 100 }
    ensures { DisplaysOnOk W.write_str_gives f.old result (Some (shown.two_digits number)) f.new }
{
    write_digit(f, number / 10)?;
    write_digit(f, number % 10)
}

/// Writes a digit.
fn write_digit<W: fmt::Write>(f: &mut fmt::Formatter<W>, digit: u32) -> fmt::Result
    requires { digit < 10 }
    ensures { DisplaysOnOk W.write_str_gives f.old result (Some ((48 + digit) ∷ [])) f.new }
{
    f.write_char(char::from(b'0' + digit as u8))
}
