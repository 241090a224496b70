//! Composing values into octets.
ghost use Rattle.std.specs.Prelude.{◌≡◌, ◌++◌, ◌∷◌, [], List, ℕ, Err, length, OnOk, OnErr};
ghost use Rattle.std.specs.Int.{to_be_bytes, cast_unsigned, w8, w16, w32, w64};
ghost use Rattle.std.specs.Net.Addr.{ipv4_octets, ipv6_octets};
ghost use Rattle.dns_octets.specs.Builder.{GrowsTo, IsWithin, IsPast};
ghost use Rattle.dns_octets.specs.declared.error.AppendError.TheVariants.{ShortBuf, BadLength};

use crate::builder::OctetsBuilder;
use crate::error::AppendError;
use std::net::{Ipv4Addr, Ipv6Addr};

/// A value that can be written as octets; `composed` is these octets.
pub trait Compose {
    ghost composed: { Self → List ℕ };

    /// Appends the octets of the value, all or none, with the errors of
    /// `OctetsBuilder::append_slice`.
    fn compose<Target: OctetsBuilder>(&self, target: &mut Target) -> Result<(), AppendError>
        ensures ok { OnOk result (Target.list target.new ≡ Target.list target.old ++ composed self.now) }
        ensures err { OnErr result (Target.list target.new ≡ Target.list target.old) }
        ensures known { Target.known target.new ≡ Target.known target.old }
        ensures grows { GrowsTo (Target.list target.old) (Target.known target.old) (Target.list target.new) (Target.known target.new) }
        ensures short { result ≡ Err ShortBuf → IsPast (Target.bound target.old) (length (Target.list target.old ++ composed self.now)) }
        ensures fits { OnOk result (IsWithin (Target.bound target.old) (length (Target.list target.new))) }
        ensures not_bad { result ≡ Err BadLength → ⊥ }
        ensures same_bound { Target.bound target.new ≡ Target.bound target.old }
        ensures stays { Target.stays target.old target.new };
}

impl Compose for u8 {
    ghost composed = { λ number. number ∷ [] };

    fn compose<Target: OctetsBuilder>(&self, target: &mut Target) -> Result<(), AppendError> {
        target.append_slice(&u8::to_be_bytes(*self))
    }
}

impl Compose for u16 {
    ghost composed = { λ number. to_be_bytes w16 number };

    fn compose<Target: OctetsBuilder>(&self, target: &mut Target) -> Result<(), AppendError> {
        target.append_slice(&u16::to_be_bytes(*self))
    }
}

impl Compose for u32 {
    ghost composed = { λ number. to_be_bytes w32 number };

    fn compose<Target: OctetsBuilder>(&self, target: &mut Target) -> Result<(), AppendError> {
        target.append_slice(&u32::to_be_bytes(*self))
    }
}

impl Compose for u64 {
    ghost composed = { λ number. to_be_bytes w64 number };

    fn compose<Target: OctetsBuilder>(&self, target: &mut Target) -> Result<(), AppendError> {
        target.append_slice(&u64::to_be_bytes(*self))
    }
}

impl Compose for i8 {
    ghost composed = { λ number. cast_unsigned w8 number ∷ [] };

    fn compose<Target: OctetsBuilder>(&self, target: &mut Target) -> Result<(), AppendError> {
        target.append_slice(&i8::to_be_bytes(*self))
    }
}

impl Compose for i16 {
    ghost composed = { λ number. to_be_bytes w16 (cast_unsigned w16 number) };

    fn compose<Target: OctetsBuilder>(&self, target: &mut Target) -> Result<(), AppendError> {
        target.append_slice(&i16::to_be_bytes(*self))
    }
}

impl Compose for i32 {
    ghost composed = { λ number. to_be_bytes w32 (cast_unsigned w32 number) };

    fn compose<Target: OctetsBuilder>(&self, target: &mut Target) -> Result<(), AppendError> {
        target.append_slice(&i32::to_be_bytes(*self))
    }
}

impl Compose for i64 {
    ghost composed = { λ number. to_be_bytes w64 (cast_unsigned w64 number) };

    fn compose<Target: OctetsBuilder>(&self, target: &mut Target) -> Result<(), AppendError> {
        target.append_slice(&i64::to_be_bytes(*self))
    }
}

impl Compose for Ipv4Addr {
    ghost composed = { ipv4_octets };

    fn compose<Target: OctetsBuilder>(&self, target: &mut Target) -> Result<(), AppendError> {
        target.append_slice(&Ipv4Addr::octets(self))
    }
}

impl Compose for Ipv6Addr {
    ghost composed = { ipv6_octets };

    fn compose<Target: OctetsBuilder>(&self, target: &mut Target) -> Result<(), AppendError> {
        target.append_slice(&Ipv6Addr::octets(self))
    }
}
