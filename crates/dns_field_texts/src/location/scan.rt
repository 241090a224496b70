//! Scanning locations (RFC 1876 3).
ghost use Rattle.std.specs.Prelude.{◌≡◌, ◌≤◌, List, ℕ, [], false, IfErr, IfNone, IfOk, IfSome, OnOk};
ghost use Rattle.dns_scan.specs.Token.{SameNames, Token};
ghost use Rattle.dns_field_texts.specs.Appended.{GoesOn};
ghost use Rattle.dns_field_texts.specs.Location as spec;
ghost use Rattle.dns_field_texts.specs.Location.{IsLocation};
ghost use Rattle.dns_field_texts.specs.LocationParts.{EndsArc, HasArc, HasMinutes, HasSeconds, HasSize, IsAltitude, IsAxis, IsDirection, IsPart, NoEnd, NoPart, TakesText, location_of, precision_of};
ghost use Rattle.dns_field_texts.specs.LocationText.{AppendsLocation, ScansLocation, SpellsSize};

use super::numerals::{read_altitude, read_metres, read_numeral};
use super::place::{Place, Precision};
use crate::append::append_octets;
use dns_text::{Scanner, ScannerError};

const SIZE: Precision = Precision {
    mantissa: 1,
    power: 2,
};

const HORIZONTAL: Precision = Precision {
    mantissa: 1,
    power: 6,
};

const VERTICAL: Precision = Precision {
    mantissa: 1,
    power: 3,
};

/// The greatest angle in degrees, and the letters of the two directions.
#[derive(Clone, Copy, Debug, PartialEq, Eq)]
pub(crate) struct Axis {
    pub most: u32,
    pub up: u8,
    pub down: u8,
}

const LATITUDE: Axis = Axis {
    most: 90,
    up: b'N',
    down: b'S',
};

const LONGITUDE: Axis = Axis {
    most: 180,
    up: b'E',
    down: b'W',
};

/// Scans all tokens that are left as a location, and appends its octets.
///
/// Fails with an error other than `short_buf` only if the tokens are no location. It may then have appended some
/// octets.
pub fn scan_location_into<S: Scanner>(scanner: &mut S, octets: &mut Vec<u8>) -> Result<(), S::Error>
    ensures ok { OnOk result (AppendsLocation (S.tokens scanner.old) (S.tokens scanner.new) octets.old.items octets.new.items) }
    ensures err { IfErr result (λ error. S.Error.is_short error ≡ false → (location : spec.Location) → ScansLocation location (S.tokens scanner.old) → ⊥) }
    ensures names { SameNames (S.names scanner.old) (S.names scanner.new) }
    ensures more { GoesOn octets.old.items octets.new.items }
{
    let place = scan_place(scanner)?;
    append_octets(&place.octets(), octets)
}

/// Scans all tokens that are left as a location.
fn scan_place<S: Scanner>(scanner: &mut S) -> Result<Place, S::Error>
    ensures ok { IfOk result (λ place. ScansLocation (location_of place) (S.tokens scanner.old) × (S.tokens scanner.new ≡ [])) }
    ensures is { IfOk result (λ place. IsLocation (location_of place)) }
    ensures err { IfErr result (λ error. S.Error.is_short error ≡ false → (location : spec.Location) → ScansLocation location (S.tokens scanner.old) → ⊥) }
    ensures names { SameNames (S.names scanner.old) (S.names scanner.new) }
{
    let latitude = scan_arc(scanner, LATITUDE)?;
    let longitude = scan_arc(scanner, LONGITUDE)?;
    let altitude = scan_altitude(scanner)?;
    let size = scan_size(scanner, SIZE)?;
    let horizontal = scan_size(scanner, HORIZONTAL)?;
    let vertical = scan_size(scanner, VERTICAL)?;
    if scanner.continues() {
        return Err(S::Error::trailing_tokens());
    }
    Ok(Place {
        size,
        horizontal,
        vertical,
        latitude,
        longitude,
        altitude,
    })
}

/// Scans an angle and its direction, and returns it in thousandths of a second from 2^31 on.
fn scan_arc<S: Scanner>(scanner: &mut S, axis: Axis) -> Result<u32, S::Error>
    requires { IsAxis axis }
    ensures ok { IfOk result (HasArc axis (S.tokens scanner.old) (S.tokens scanner.new)) }
    ensures err { IfErr result (λ error. S.Error.is_short error ≡ false → (left : List Token) (value : ℕ) → HasArc axis (S.tokens scanner.old) left value → ⊥) }
    ensures names { SameNames (S.names scanner.old) (S.names scanner.new) }
{
    let angle = scan_numeral(scanner, 0, axis.most)? * 3_600_000;
    match scan_direction(scanner, axis, angle)? {
        Some(value) => Ok(value),
        None => scan_minutes(scanner, axis, angle),
    }
}

/// Scans what is behind the degrees of an angle if it is no direction: minutes, and perhaps seconds, and the direction.
fn scan_minutes<S: Scanner>(scanner: &mut S, axis: Axis, degrees: u32) -> Result<u32, S::Error>
    requires axis { IsAxis axis }
    requires small { degrees ≤ 648000000 }
    ensures ok { IfOk result (HasMinutes axis degrees (S.tokens scanner.old) (S.tokens scanner.new)) }
    ensures err { IfErr result (λ error. S.Error.is_short error ≡ false → (left : List Token) (value : ℕ) → HasMinutes axis degrees (S.tokens scanner.old) left value → ⊥) }
    ensures names { SameNames (S.names scanner.old) (S.names scanner.new) }
{
    let angle = degrees + scan_numeral(scanner, 0, 59)? * 60_000;
    match scan_direction(scanner, axis, angle)? {
        Some(value) => Ok(value),
        None => scan_seconds(scanner, axis, angle),
    }
}

/// Scans what is behind the minutes of an angle if it is no direction: seconds, and the direction.
fn scan_seconds<S: Scanner>(scanner: &mut S, axis: Axis, minutes: u32) -> Result<u32, S::Error>
    requires axis { IsAxis axis }
    requires small { minutes ≤ 652000000 }
    ensures ok { IfOk result (HasSeconds axis minutes (S.tokens scanner.old) (S.tokens scanner.new)) }
    ensures err { IfErr result (λ error. S.Error.is_short error ≡ false → (left : List Token) (value : ℕ) → HasSeconds axis minutes (S.tokens scanner.old) left value → ⊥) }
    ensures names { SameNames (S.names scanner.old) (S.names scanner.new) }
{
    let angle = minutes + scan_numeral(scanner, 3, 59_999)?;
    match scan_direction(scanner, axis, angle)? {
        Some(value) => Ok(value),
        None => Err(S::Error::custom("missing direction")),
    }
}

/// Takes the next token if it is a direction, and returns the angle in it, from 2^31 on. Fails with an error other than
/// `short_buf` only if there is no token, or if the angle is too large for the direction that is there.
fn scan_direction<S: Scanner>(
    scanner: &mut S,
    axis: Axis,
    angle: u32,
) -> Result<Option<u32>, S::Error>
    requires axis { IsAxis axis }
    requires small { angle ≤ 653000000 }
    ensures some { IfOk result (λ found. IfSome found (EndsArc axis angle (S.tokens scanner.old) (S.tokens scanner.new))) }
    ensures none { IfOk result (λ found. IfNone found ((S.tokens scanner.new ≡ S.tokens scanner.old) × NoEnd axis angle (S.tokens scanner.old))) }
    ensures err { IfErr result (λ error. S.Error.is_short error ≡ false → NoEnd axis angle (S.tokens scanner.old) × NoPart (S.tokens scanner.old)) }
    ensures names { SameNames (S.names scanner.old) (S.names scanner.new) }
{
    let Some(value) = directed(scanner.peek_text()?, axis, angle) else {
        return Ok(None);
    };
    scanner.skip_token();
    if angle <= axis.most * 3_600_000 {
        Ok(Some(value))
    } else {
        Err(S::Error::custom("angle out of range"))
    }
}

/// Returns the angle in the direction of the text, if it is one, from 2^31 on.
fn directed(text: &[u8], axis: Axis, angle: u32) -> Option<u32>
    requires { angle ≤ 653000000 }
    ensures some { IfSome result (λ value. IsDirection axis angle value text.now) }
    ensures none { IfNone result ((value : ℕ) → IsDirection axis angle value text.now → ⊥) }
{
    match text {
        [letter] if *letter == axis.up => Some((1 << 31) + angle),
        [letter] if *letter == axis.down => Some((1 << 31) - angle),
        _ => None,
    }
}

/// Scans a number with at most that many decimals, in units of the last of them.
fn scan_numeral<S: Scanner>(scanner: &mut S, places: usize, most: u32) -> Result<u32, S::Error>
    requires { places ≤ 3 }
    ensures ok { IfOk result (λ value. TakesText (IsPart places most value) (S.tokens scanner.old) (S.tokens scanner.new)) }
    ensures err { IfErr result (λ error. S.Error.is_short error ≡ false → (value : ℕ) (left : List Token) → TakesText (IsPart places most value) (S.tokens scanner.old) left → ⊥) }
    ensures names { SameNames (S.names scanner.old) (S.names scanner.new) }
{
    match read_numeral(scanner.peek_text()?, places, u64::from(most)) {
        Some(value) => {
            scanner.skip_token();
            Ok(value as u32)
        }
        None => Err(S::Error::custom("bad number")),
    }
}

/// Scans an altitude in metres, and returns it in centimetres above 100,000 m below the spheroid.
fn scan_altitude<S: Scanner>(scanner: &mut S) -> Result<u32, S::Error>
    ensures ok { IfOk result (λ altitude. TakesText (IsAltitude altitude) (S.tokens scanner.old) (S.tokens scanner.new)) }
    ensures err { IfErr result (λ error. S.Error.is_short error ≡ false → (altitude : ℕ) (left : List Token) → TakesText (IsAltitude altitude) (S.tokens scanner.old) left → ⊥) }
    ensures names { SameNames (S.names scanner.old) (S.names scanner.new) }
{
    match read_altitude(scanner.peek_text()?) {
        Some(altitude) => {
            scanner.skip_token();
            Ok(altitude)
        }
        None => Err(S::Error::custom("bad altitude")),
    }
}

/// Scans a size in metres. Without a token it is the usual one.
fn scan_size<S: Scanner>(scanner: &mut S, usual: Precision) -> Result<Precision, S::Error>
    ensures ok { IfOk result (λ size. (word : List ℕ) → SpellsSize word (precision_of usual) → HasSize word (S.tokens scanner.old) (S.tokens scanner.new) (precision_of size)) }
    ensures err { IfErr result (λ error. S.Error.is_short error ≡ false → (word : List ℕ) (left : List Token) (size : spec.Precision) → HasSize word (S.tokens scanner.old) left size → ⊥) }
    ensures names { SameNames (S.names scanner.old) (S.names scanner.new) }
{
    if !scanner.continues() {
        return Ok(usual);
    }
    match read_metres(scanner.peek_text()?, 9_000_000_000) {
        Some(size) => {
            scanner.skip_token();
            Ok(Precision::of_centimetres(size))
        }
        None => Err(S::Error::custom("bad size")),
    }
}
