//! The time that a record may be kept.
ghost use Rattle.std.specs.Prelude.{◌≡◌, ◌<◌, ◌≤◌, ◌+◌, ◌-◌, ◌*◌, ◌/◌, ◌%◌, ◌^◌, ◌↔◌, min, sum, take, length, IsTrue, IsOk, IfOk, IfErr, OnOk, OnErr};
ghost use Rattle.std.specs.Int.{from_be_bytes, to_be_bytes, w32};
ghost use Rattle.std.specs.Option.{SomeIff};
ghost use Rattle.std.specs.Duration.{as_nanos};
ghost use Rattle.dns_octets.specs.Parser.{GoesOn, octets_of, place_of, rest_of};

use dns_octets::{AppendError, Compose, OctetsBuilder, ParseError, Parser};
use std::marker::Model;
use std::ops::{Add, AddAssign, Div, DivAssign, Mul, MulAssign, Sub, SubAssign};
use std::time::Duration;

/// How many seconds a record may be kept (RFC 1035, section 3.2.1).
///
/// An operator may be used only if its result exists: a sum, a difference or a product from 0 to 2^32 - 1, and a
/// quotient by a number other than 0.
#[derive(Clone, Copy, Debug, PartialEq, Eq, PartialOrd, Ord, Hash)]
pub struct Ttl(u32);

impl Model for Ttl {
    ghost use Rattle.std.specs.Prelude.{ℕ};

    ghost Value = { ℕ };

    ghost view = { λ ttl. ttl.0 };

    ghost inverse = { λ seconds. record { 0 = seconds } };
}

impl Ttl {
    /// A second.
    pub const SECOND: Ttl = Ttl(1);
    /// A minute.
    pub const MINUTE: Ttl = Ttl(60);
    /// An hour.
    pub const HOUR: Ttl = Ttl(3_600);
    /// A day.
    pub const DAY: Ttl = Ttl(86_400);
    /// No time at all.
    pub const ZERO: Ttl = Ttl(0);
    /// The longest time, 2^32 - 1 seconds.
    pub const MAX: Ttl = Ttl(u32::MAX);
    /// What `cap` cuts a longer time to: a week (RFC 8767, section 4).
    pub const CAP: Ttl = Ttl(604_800);
    /// The greatest number of whole minutes.
    pub const MAX_MINUTES: u32 = 71_582_788;
    /// The greatest number of whole hours.
    pub const MAX_HOURS: u32 = 1_193_046;
    /// The greatest number of whole days.
    pub const MAX_DAYS: u16 = 49_710;
    /// The number of octets of a time in a message.
    pub const COMPOSE_LEN: u16 = 4;

    /// Returns a time of `secs` seconds.
    pub const fn from_secs(secs: u32) -> Self
        ensures { result ≡ secs }
    {
        Ttl(secs)
    }

    /// Returns a time of `minutes` minutes, at most `MAX_MINUTES`.
    pub const fn from_mins(minutes: u32) -> Self
        requires { minutes ≤ Self.MAX_MINUTES }
        ensures { result ≡ minutes * 60 }
    {
        Ttl(minutes * 60)
    }

    /// Returns a time of `hours` hours, at most `MAX_HOURS`.
    pub const fn from_hours(hours: u32) -> Self
        requires { hours ≤ Self.MAX_HOURS }
        ensures { result ≡ hours * 3600 }
    {
        Ttl(hours * 3_600)
    }

    /// Returns a time of `days` days, at most `MAX_DAYS`.
    pub const fn from_days(days: u16) -> Self
        requires { days ≤ Self.MAX_DAYS }
        ensures { result ≡ days * 86400 }
    {
        Ttl(days as u32 * 86_400)
    }

    /// Returns the whole seconds of a duration, modulo 2^32.
    pub fn from_duration_lossy(duration: Duration) -> Self
        ensures { result ≡ as_nanos duration / 1_000_000_000 % 2 ^ 32 }
    {
        Ttl((duration.as_secs() % (1 << 32)) as u32)
    }

    /// Returns the number of seconds.
    pub const fn as_secs(&self) -> u32
        ensures { result ≡ self.now }
    {
        self.0
    }

    /// Returns the number of whole minutes.
    pub const fn as_minutes(&self) -> u32
        ensures { result ≡ self.now / 60 }
    {
        self.0 / 60
    }

    /// Returns the number of whole hours.
    pub const fn as_hours(&self) -> u32
        ensures { result ≡ self.now / 3600 }
    {
        self.0 / 3_600
    }

    /// Returns the number of whole days.
    pub const fn as_days(&self) -> u16
        ensures { result ≡ self.now / 86400 }
    {
        (self.0 / 86_400) as u16
    }

    /// Returns the time as a duration.
    pub fn into_duration(self) -> Duration
        ensures { as_nanos result ≡ self * 1_000_000_000 }
    {
        Duration::from_secs(self.0 as u64)
    }

    /// Returns whether the time is 0.
    pub const fn is_zero(&self) -> bool
        ensures { IsTrue result ↔ (self.now ≡ 0) }
    {
        self.0 == 0
    }

    /// Returns the sum, or None past 2^32 - 1 seconds.
    pub fn checked_add(self, rhs: Ttl) -> Option<Ttl>
        ensures { SomeIff result (self + rhs < 2 ^ 32) (self + rhs) }
    {
        Some(Ttl(self.0.checked_add(rhs.0)?))
    }

    /// Returns the difference, or None below 0.
    pub fn checked_sub(self, rhs: Ttl) -> Option<Ttl>
        ensures { SomeIff result (rhs ≤ self) (self - rhs) }
    {
        Some(Ttl(self.0.checked_sub(rhs.0)?))
    }

    /// Returns the product, or None past 2^32 - 1 seconds.
    pub fn checked_mul(self, rhs: u32) -> Option<Ttl>
        ensures { SomeIff result (self * rhs < 2 ^ 32) (self * rhs) }
    {
        Some(Ttl(self.0.checked_mul(rhs)?))
    }

    /// Returns the quotient in whole seconds, or None if `rhs` is 0.
    pub fn checked_div(self, rhs: u32) -> Option<Ttl>
        ensures { SomeIff result (0 < rhs) (self / rhs) }
    {
        Some(Ttl(self.0.checked_div(rhs)?))
    }

    /// Returns the sum, at most 2^32 - 1 seconds.
    pub fn saturating_add(self, rhs: Ttl) -> Ttl
        ensures { result ≡ min (self + rhs) (2 ^ 32 - 1) }
    {
        Ttl(self.0.saturating_add(rhs.0))
    }

    /// Returns the difference, at least 0.
    pub fn saturating_sub(self, rhs: Ttl) -> Ttl
        ensures { result ≡ self - rhs }
    {
        Ttl(self.0.saturating_sub(rhs.0))
    }

    /// Returns the product, at most 2^32 - 1 seconds.
    pub fn saturating_mul(self, rhs: u32) -> Ttl
        ensures { result ≡ min (self * rhs) (2 ^ 32 - 1) }
    {
        Ttl(self.0.saturating_mul(rhs))
    }

    /// Returns the sum of all, or None past 2^32 - 1 seconds.
    pub fn checked_sum(ttls: &[Ttl]) -> Option<Ttl>
        ensures { SomeIff result (sum ttls.now < 2 ^ 32) (sum ttls.now) }
    {
        let mut total = Ttl::ZERO;
        for ttl in ttls {
            total = total.checked_add(*ttl)?;
        }
        Some(total)
    }

    /// Returns the time, or `CAP` if the time is longer.
    pub fn cap(self) -> Ttl
        ensures { result ≡ min self 604_800 }
    {
        self.min(Ttl::CAP)
    }

    /// Parses a time, the high octet first. Fails with `ShortInput` exactly if fewer than four octets are left. The
    /// parser then stays where it was.
    pub fn parse(parser: &mut Parser<'_>) -> Result<Self, ParseError>
        ensures ok { IfOk result (λ ttl. ttl ≡ from_be_bytes w32 (take 4 (rest_of parser.old))) }
        ensures place { OnOk result (GoesOn parser.old parser.new 4) }
        ensures enough { IsOk result ↔ (place_of parser.old + 4 ≤ length (octets_of parser.old)) }
        ensures short { IfErr result (λ e. e ≡ ParseError.ShortInput) }
        ensures err { OnErr result (parser.new ≡ parser.old) }
    {
        Ok(Ttl(parser.parse_u32_be()?))
    }
}

/// Composes the four octets of the number, the high octet first.
impl Compose for Ttl {
    ghost composed = { λ ttl. to_be_bytes w32 ttl };

    fn compose<Target: OctetsBuilder>(&self, target: &mut Target) -> Result<(), AppendError> {
        self.0.compose(target)
    }
}

impl Default for Ttl {
    ghost is_default = { λ ttl. ttl ≡ 0 };

    fn default() -> Self {
        Ttl::ZERO
    }
}

impl From<Ttl> for Duration {
    ghost from_gives = { λ ttl duration. as_nanos duration ≡ ttl * 1_000_000_000 };

    fn from(ttl: Ttl) -> Duration {
        ttl.into_duration()
    }
}

impl Add for Ttl {
    type Output = Ttl;

    ghost can_add = { λ a b. a + b < 2 ^ 32 };

    ghost add_gives = { λ a b r. r ≡ a + b };

    fn add(self, rhs: Ttl) -> Ttl {
        Ttl(self.0 + rhs.0)
    }
}

impl AddAssign for Ttl {
    ghost can_add_assign = { λ a b. a + b < 2 ^ 32 };

    ghost add_assign_gives = { λ a b r. r ≡ a + b };

    fn add_assign(&mut self, rhs: Ttl) {
        *self = *self + rhs;
    }
}

impl Sub for Ttl {
    type Output = Ttl;

    ghost can_sub = { λ a b. b ≤ a };

    ghost sub_gives = { λ a b r. r ≡ a - b };

    fn sub(self, rhs: Ttl) -> Ttl {
        Ttl(self.0 - rhs.0)
    }
}

impl SubAssign for Ttl {
    ghost can_sub_assign = { λ a b. b ≤ a };

    ghost sub_assign_gives = { λ a b r. r ≡ a - b };

    fn sub_assign(&mut self, rhs: Ttl) {
        *self = *self - rhs;
    }
}

impl Mul<u32> for Ttl {
    type Output = Ttl;

    ghost can_mul = { λ a b. a * b < 2 ^ 32 };

    ghost mul_gives = { λ a b r. r ≡ a * b };

    fn mul(self, rhs: u32) -> Ttl {
        Ttl(self.0 * rhs)
    }
}

impl MulAssign<u32> for Ttl {
    ghost can_mul_assign = { λ a b. a * b < 2 ^ 32 };

    ghost mul_assign_gives = { λ a b r. r ≡ a * b };

    fn mul_assign(&mut self, rhs: u32) {
        *self = *self * rhs;
    }
}

impl Div<u32> for Ttl {
    type Output = Ttl;

    ghost can_div = { λ a b. 0 < b };

    ghost div_gives = { λ a b r. r ≡ a / b };

    fn div(self, rhs: u32) -> Ttl {
        Ttl(self.0 / rhs)
    }
}

impl DivAssign<u32> for Ttl {
    ghost can_div_assign = { λ a b. 0 < b };

    ghost div_assign_gives = { λ a b r. r ≡ a / b };

    fn div_assign(&mut self, rhs: u32) {
        *self = *self / rhs;
    }
}
