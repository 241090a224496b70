//! Locations as octets (RFC 1876 2).
ghost use Rattle.std.specs.Prelude.{◌≡◌, ◌+◌, ◌*◌, ◌^◌, ◌<◌, ◌≤◌, ◌↔◌, IsTrue, IfSome, IfNone};
ghost use Rattle.dns_field_texts.specs.Location.{HoldsLocation, IsLocation, IsPrecision, IsWithin, location_octets, precision_octet};
ghost use Rattle.dns_field_texts.specs.LocationParts.{HoldsPrecision, IsCut, IsPlace, location_of, precision_of};

/// A length: a digit times a power of ten, in centimetres.
#[derive(Clone, Copy, Debug, PartialEq, Eq)]
pub(crate) struct Precision {
    pub mantissa: u8,
    pub power: u8,
}

/// A location: latitude and longitude in thousandths of a second of arc from 2^31 on, and the altitude in centimetres
/// above 100,000 m below the spheroid.
#[derive(Clone, Copy, Debug, PartialEq, Eq)]
pub(crate) struct Place {
    pub size: Precision,
    pub horizontal: Precision,
    pub vertical: Precision,
    pub latitude: u32,
    pub longitude: u32,
    pub altitude: u32,
}

/// Returns whether the octets are a location.
pub fn is_location(octets: &[u8]) -> bool
    ensures { IsTrue result ↔ HoldsLocation octets.now }
{
    read_place(octets).is_some()
}

/// Returns the location of these octets, if they are one.
pub(crate) fn read_place(octets: &[u8]) -> Option<Place>
    ensures some { IfSome result (IsPlace octets.now) }
    ensures none { IfNone result (HoldsLocation octets.now → ⊥) }
{
    if octets.len() != 16 || octets[0] != 0 {
        return None;
    }
    let place = Place {
        size: read_precision(octets[1])?,
        horizontal: read_precision(octets[2])?,
        vertical: read_precision(octets[3])?,
        latitude: u32::from_be_bytes([octets[4], octets[5], octets[6], octets[7]]),
        longitude: u32::from_be_bytes([octets[8], octets[9], octets[10], octets[11]]),
        altitude: u32::from_be_bytes([octets[12], octets[13], octets[14], octets[15]]),
    };
    if !is_within(90, place.latitude) {
        return None;
    }
    if !is_within(180, place.longitude) {
        return None;
    }
    Some(place)
}

/// Returns whether the number is at most that many degrees from 2^31.
fn is_within(most: u32, value: u32) -> bool
    requires { most ≤ 180 }
    ensures { IsTrue result ↔ IsWithin most value }
{
    value.abs_diff(1 << 31) <= most * 3_600_000
}

/// Returns the length that an octet stands for: two digits, the second 0 if the first is.
fn read_precision(octet: u8) -> Option<Precision>
    ensures some { IfSome result (λ digits. IsPrecision (precision_of digits) × (octet ≡ precision_octet (precision_of digits))) }
    ensures none { IfNone result (HoldsPrecision octet → ⊥) }
{
    let mantissa = octet / 16;
    let power = octet % 16;
    if mantissa > 9 || power > 9 || (mantissa == 0 && power != 0) {
        return None;
    }
    Some(Precision { mantissa, power })
}

impl Place {
    /// Returns the octets of this location.
    pub(crate) fn octets(&self) -> [u8; 16]
        requires { IsLocation (location_of self.now) }
        ensures { result ≡ location_octets (location_of self.now) }
    {
        let [l0, l1, l2, l3] = self.latitude.to_be_bytes();
        let [m0, m1, m2, m3] = self.longitude.to_be_bytes();
        let [a0, a1, a2, a3] = self.altitude.to_be_bytes();
        let size = self.size.octet();
        let horizontal = self.horizontal.octet();
        let vertical = self.vertical.octet();
        [
            0, size, horizontal, vertical, l0, l1, l2, l3, m0, m1, m2, m3, a0, a1, a2, a3,
        ]
    }
}

impl Precision {
    /// Returns the octet of this length.
    pub(crate) fn octet(self) -> u8
        requires mantissa { self.mantissa < 10 }
        requires power { self.power < 10 }
        ensures { result ≡ 16 * self.mantissa + self.power }
    {
        self.mantissa * 16 + self.power
    }

    /// Returns the length in centimetres.
    pub(crate) fn centimetres(self) -> u64
        requires mantissa { self.mantissa < 10 }
        requires power { self.power < 10 }
        ensures { result ≡ self.mantissa * 10 ^ self.power }
    {
        u64::from(self.mantissa) * 10_u64.pow(u32::from(self.power))
    }

    /// Returns the greatest length that is not above this one.
    pub(crate) fn of_centimetres(centimetres: u64) -> Precision
        requires { centimetres ≤ 9000000000 }
        ensures { IsCut centimetres (precision_of result) }
    {
        let mut unit = 1;
        let mut power = 0;
        while power < 9 && unit * 10 <= centimetres {
            unit *= 10;
            power += 1;
        }
        Precision {
            mantissa: (centimetres / unit) as u8,
            power,
        }
    }
}
