//! Bitmaps of types in octets.
ghost use Rattle.std.specs.Prelude.{◌≡◌, ◌↔◌, ◌≤◌, List, ℕ, IsTrue, IsOk, IfOk, length};
ghost use Rattle.std.specs.List.{Contains};
ghost use Rattle.std.specs.List.Sorted.{IsStrictlyIncreasing};
ghost use Rattle.dns_field_texts.specs.TypeBitmap.{IsTypeBitmap, types_in};

use super::iter::RtypeBitmapIter;
use super::windows::{is_one, is_type_bitmap, split_window};
use dns_name::Rtype;
use std::marker::Model;
use thiserror::Error;

/// The octets are no bitmap of types: the windows are not in ascending order, or one has no octets, more than 32, or a zero at its
/// end.
#[derive(Clone, Copy, Debug, PartialEq, Eq, Error)]
#[error("invalid type bitmap")]
pub struct RtypeBitmapError;

/// Octets that are a bitmap of types (RFC 4034 4.1.2).
///
/// A contract sees it as these octets.
#[derive(Debug, Drop)]
pub struct RtypeBitmap<'a> {
    octets: &'a [u8],
}

impl<'a> Model for RtypeBitmap<'a> {
    ghost Value = { List ℕ };

    ghost view = { λ bitmap. bitmap.octets.now };

    ghost invariant = { λ bitmap. IsTypeBitmap bitmap.octets.now };
}

impl<'a> RtypeBitmap<'a> {
    /// Returns the bitmap of these octets. Fails exactly if they are no bitmap.
    pub fn from_octets(octets: &'a [u8]) -> Result<Self, RtypeBitmapError>
        ensures ok { IfOk result (λ bitmap. bitmap ≡ octets.now) }
        ensures are { IsOk result ↔ IsTypeBitmap octets.now }
    {
        if !is_type_bitmap(octets) {
            return Err(RtypeBitmapError);
        }
        Ok(RtypeBitmap { octets })
    }

    /// Returns the bitmap of these octets, which are one.
    pub fn from_octets_unchecked(octets: &'a [u8]) -> Self
        requires { IsTypeBitmap octets.now }
        ensures { result ≡ octets.now }
    {
        RtypeBitmap { octets }
    }

    /// Returns the octets.
    pub fn as_slice(&self) -> &'a [u8]
        ensures octets { result.now ≡ self.now }
        ensures are { IsTypeBitmap self.now }
    {
        self.octets
    }

    /// Iterates over the types, in ascending order.
    pub fn iter(&self) -> RtypeBitmapIter<'a>
        ensures types { result ≡ types_in self.now }
        ensures ascending { IsStrictlyIncreasing result }
        ensures few { length result ≤ 65536 }
    {
        RtypeBitmapIter::over(self.octets)
    }

    /// Returns whether the bitmap has the type.
    pub fn contains(&self, rtype: Rtype) -> bool
        ensures { IsTrue result ↔ Contains (types_in self.now) rtype }
    {
        has_type(self.octets, rtype.to_int())
    }
}

/// Returns whether the octets, which are a bitmap, have the type whose number is `rtype`.
fn has_type(octets: &[u8], rtype: u16) -> bool
    requires { IsTypeBitmap octets.now }
    ensures { IsTrue result ↔ Contains (types_in octets.now) rtype }
{
    let mut left = octets;
    while let Some((number, window, behind)) = split_window(left) {
        let first = 256 * u32::from(number);
        if first + 256 > u32::from(rtype) {
            return first <= u32::from(rtype) && is_one(window, usize::from(rtype) % 256);
        }
        left = behind;
    }
    false
}
