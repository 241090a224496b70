//! The canonical order of values.
ghost use Rattle.std.specs.Prelude.{◌≡◌, false};
ghost use Rattle.std.specs.Ordering.{is_lt, is_le, is_gt, is_ge};
ghost use Rattle.std.specs.declared.cmp.Ordering.{Ordering};

use std::cmp::Ordering;

/// A type whose values have a canonical order (RFC 4034, section 6); `canonical` is this order.
pub trait CanonicalOrd {
    ghost canonical: { Self → Self → Ordering };

    /// Compares the value to the other in canonical order.
    fn canonical_cmp(&self, other: &Self) -> Ordering
        ensures { result ≡ canonical self.now other.now };

    /// Returns whether the value is before the other.
    fn canonical_lt(&self, other: &Self) -> bool
        ensures { result ≡ is_lt (canonical self.now other.now) }
    {
        self.canonical_cmp(other).is_lt()
    }

    /// Returns whether the value is before the other or equal to it.
    fn canonical_le(&self, other: &Self) -> bool
        ensures { result ≡ is_le (canonical self.now other.now) }
    {
        self.canonical_cmp(other).is_le()
    }

    /// Returns whether the value is after the other.
    fn canonical_gt(&self, other: &Self) -> bool
        ensures { result ≡ is_gt (canonical self.now other.now) }
    {
        self.canonical_cmp(other).is_gt()
    }

    /// Returns whether the value is after the other or equal to it.
    fn canonical_ge(&self, other: &Self) -> bool
        ensures { result ≡ is_ge (canonical self.now other.now) }
    {
        self.canonical_cmp(other).is_ge()
    }
}
