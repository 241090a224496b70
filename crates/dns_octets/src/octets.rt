//! Types that hold octets.
ghost use Rattle.std.specs.Prelude.{◌≡◌, ◌≤◌, List, ℕ, length, slice_range};
ghost use Rattle.std.specs.Cow.{cow_slice_items};

use arrayvec::ArrayVec;
use std::borrow::CowSlice;

/// A type that holds a list of octets and lends it.
pub trait Octets {
    ghost list: { Self → List ℕ };

    /// Returns the octets.
    fn octets(&self) -> &[u8]
        ensures { result.now ≡ list self.now };

    /// Returns the octets from `start` up to `end`, without the one at `end`.
    fn range(&self, start: usize, end: usize) -> &[u8]
        requires in_order { start ≤ end }
        requires in_bounds { end ≤ length (list self.now) }
        ensures { result.now ≡ slice_range (list self.now) start end }
    {
        &self.octets()[start..end]
    }
}

impl Octets for &[u8] {
    ghost list = { λ octets. octets.now };

    fn octets(&self) -> &[u8] {
        self
    }
}

impl Octets for Vec<u8> {
    ghost list = { λ octets. octets.items };

    fn octets(&self) -> &[u8] {
        self.as_slice()
    }
}

impl<const N: usize> Octets for ArrayVec<u8, N> {
    ghost list = { λ octets. octets.items };

    fn octets(&self) -> &[u8] {
        self.as_slice()
    }
}

impl Octets for CowSlice<'_, u8> {
    ghost list = { cow_slice_items };

    fn octets(&self) -> &[u8] {
        self.as_slice()
    }
}

impl<T: Octets> Octets for &mut T {
    ghost list = { λ octets. T.list octets.now };

    fn octets(&self) -> &[u8] {
        (**self).octets()
    }
}
