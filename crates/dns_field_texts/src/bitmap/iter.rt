//! The types of a bitmap, one after another.
ghost use Rattle.std.specs.Prelude.{◌≡◌, ◌+◌, ◌*◌, ◌≤◌, ◌<◌, ◌∷◌, ◌++◌, List, ℕ, [], length, IfSome, IfNone};
ghost use Rattle.dns_field_texts.specs.TypeBitmap.{IsTypeBitmap, types_in};
ghost use Rattle.dns_field_texts.specs.Windows.{AreTypesLeft, types_behind};

use super::windows::{is_one, split_window};
use dns_name::Rtype;
use std::marker::Model;

/// An iterator over the types of a bitmap, in ascending order.
///
/// A contract sees the list of the types that are left.
#[derive(Debug, Drop)]
pub struct RtypeBitmapIter<'a> {
    /// The number of the first of the window's 256 types.
    first: u32,
    window: &'a [u8],
    /// The place of the window's next bit.
    place: usize,
    /// The windows behind it.
    left: &'a [u8],
}

impl<'a> Model for RtypeBitmapIter<'a> {
    ghost Value = { List ℕ };

    ghost view = { λ it. types_behind it.first it.window.now it.place ++ types_in it.left.now };

    ghost invariant = { λ it. AreTypesLeft it.first it.window.now it.left.now };
}

impl<'a> RtypeBitmapIter<'a> {
    /// Iterates over the types of the octets, which are a bitmap.
    pub(super) fn over(octets: &'a [u8]) -> Self
        requires { IsTypeBitmap octets.now }
        ensures { result ≡ types_in octets.now }
    {
        RtypeBitmapIter {
            first: 0,
            window: &[],
            place: 0,
            left: octets,
        }
    }
}

impl<'a> Iterator for RtypeBitmapIter<'a> {
    ghost use Rattle.std.specs.Iterator.{YieldsFirst, item_count};

    type Item = Rtype;

    ghost next_gives = { YieldsFirst (λ types. types) };

    ghost remaining = { item_count (λ types. types) };

    fn next(&mut self) -> Option<Rtype> {
        loop {
            if let Some(place) = next_one(self.window, self.place) {
                self.place = place + 1;
                return Some(Rtype::from_int((self.first + place as u32) as u16));
            }
            let (number, window, behind) = split_window(self.left)?;
            self.first = 256 * u32::from(number);
            self.window = window;
            self.place = 0;
            self.left = behind;
        }
    }
}

/// Returns the place of the first bit of a window that is one, from a place on.
fn next_one(window: &[u8], place: usize) -> Option<usize>
    requires { length window.now ≤ 32 }
    ensures within { IfSome result (λ found. found < 8 * length window.now) }
    ensures some { IfSome result (λ found. (first : ℕ)
        → types_behind first window.now place ≡ (first + found) ∷ types_behind first window.now (found + 1)) }
    ensures none { IfNone result ((first : ℕ) → types_behind first window.now place ≡ []) }
{
    for at in place..8 * window.len() {
        if is_one(window, at) {
            return Some(at);
        }
    }
    None
}
