//! Laws of composing and parsing. Each function does nothing; what it ensures is the law.
ghost use Rattle.std.specs.Prelude.{◌≡◌, length};

use crate::compose::Compose;
use crate::parse::Parse;
use std::net::{Ipv4Addr, Ipv6Addr};

/// The octets composed of a `u8` parse as it, and octets are those composed of the `u8` that they parse as.
#[tactic(auto, using(crate::proofs::BothWays::both_ways))]
pub fn u8_both_ways(number: u8, octets: &[u8], read: u8)
    requires { length octets.now ≡ 1 }
    ensures composed { ⟦<u8 as Parse<'static>>⟧.reads (⟦<u8 as Compose>⟧.composed number) number }
    ensures read { ⟦<u8 as Parse<'static>>⟧.reads octets.now read → ⟦<u8 as Compose>⟧.composed read ≡ octets.now }
{}

/// The octets composed of a `u16` parse as it, and octets are those composed of the `u16` that they parse as.
#[tactic(auto, using(crate::proofs::BothWays::both_ways))]
pub fn u16_both_ways(number: u16, octets: &[u8], read: u16)
    requires { length octets.now ≡ 2 }
    ensures composed { ⟦<u16 as Parse<'static>>⟧.reads (⟦<u16 as Compose>⟧.composed number) number }
    ensures read { ⟦<u16 as Parse<'static>>⟧.reads octets.now read → ⟦<u16 as Compose>⟧.composed read ≡ octets.now }
{}

/// The octets composed of a `u32` parse as it, and octets are those composed of the `u32` that they parse as.
#[tactic(auto, using(crate::proofs::BothWays::both_ways))]
pub fn u32_both_ways(number: u32, octets: &[u8], read: u32)
    requires { length octets.now ≡ 4 }
    ensures composed { ⟦<u32 as Parse<'static>>⟧.reads (⟦<u32 as Compose>⟧.composed number) number }
    ensures read { ⟦<u32 as Parse<'static>>⟧.reads octets.now read → ⟦<u32 as Compose>⟧.composed read ≡ octets.now }
{}

/// The octets composed of a `u64` parse as it, and octets are those composed of the `u64` that they parse as.
#[tactic(auto, using(crate::proofs::BothWays::both_ways))]
pub fn u64_both_ways(number: u64, octets: &[u8], read: u64)
    requires { length octets.now ≡ 8 }
    ensures composed { ⟦<u64 as Parse<'static>>⟧.reads (⟦<u64 as Compose>⟧.composed number) number }
    ensures read { ⟦<u64 as Parse<'static>>⟧.reads octets.now read → ⟦<u64 as Compose>⟧.composed read ≡ octets.now }
{}

/// The octets composed of an `i8` parse as it, and octets are those composed of the `i8` that they parse as.
#[tactic(auto, using(crate::proofs::BothWays::both_ways))]
pub fn i8_both_ways(number: i8, octets: &[u8], read: i8)
    requires { length octets.now ≡ 1 }
    ensures composed { ⟦<i8 as Parse<'static>>⟧.reads (⟦<i8 as Compose>⟧.composed number) number }
    ensures read { ⟦<i8 as Parse<'static>>⟧.reads octets.now read → ⟦<i8 as Compose>⟧.composed read ≡ octets.now }
{}

/// The octets composed of an `i16` parse as it, and octets are those composed of the `i16` that they parse as.
#[tactic(auto, using(crate::proofs::BothWays::both_ways))]
pub fn i16_both_ways(number: i16, octets: &[u8], read: i16)
    requires { length octets.now ≡ 2 }
    ensures composed { ⟦<i16 as Parse<'static>>⟧.reads (⟦<i16 as Compose>⟧.composed number) number }
    ensures read { ⟦<i16 as Parse<'static>>⟧.reads octets.now read → ⟦<i16 as Compose>⟧.composed read ≡ octets.now }
{}

/// The octets composed of an `i32` parse as it, and octets are those composed of the `i32` that they parse as.
#[tactic(auto, using(crate::proofs::BothWays::both_ways))]
pub fn i32_both_ways(number: i32, octets: &[u8], read: i32)
    requires { length octets.now ≡ 4 }
    ensures composed { ⟦<i32 as Parse<'static>>⟧.reads (⟦<i32 as Compose>⟧.composed number) number }
    ensures read { ⟦<i32 as Parse<'static>>⟧.reads octets.now read → ⟦<i32 as Compose>⟧.composed read ≡ octets.now }
{}

/// The octets composed of an `i64` parse as it, and octets are those composed of the `i64` that they parse as.
#[tactic(auto, using(crate::proofs::BothWays::both_ways))]
pub fn i64_both_ways(number: i64, octets: &[u8], read: i64)
    requires { length octets.now ≡ 8 }
    ensures composed { ⟦<i64 as Parse<'static>>⟧.reads (⟦<i64 as Compose>⟧.composed number) number }
    ensures read { ⟦<i64 as Parse<'static>>⟧.reads octets.now read → ⟦<i64 as Compose>⟧.composed read ≡ octets.now }
{}

/// The octets composed of an `Ipv4Addr` parse as it, and octets are those composed of the `Ipv4Addr` that they parse
/// as.
pub fn ipv4_addr_both_ways(address: Ipv4Addr, octets: &[u8], read: Ipv4Addr)
    requires { length octets.now ≡ 4 }
    ensures composed { ⟦<Ipv4Addr as Parse<'static>>⟧.reads (⟦<Ipv4Addr as Compose>⟧.composed address) address }
    ensures read { ⟦<Ipv4Addr as Parse<'static>>⟧.reads octets.now read → ⟦<Ipv4Addr as Compose>⟧.composed read ≡ octets.now }
{}

/// The octets composed of an `Ipv6Addr` parse as it, and octets are those composed of the `Ipv6Addr` that they parse
/// as.
pub fn ipv6_addr_both_ways(address: Ipv6Addr, octets: &[u8], read: Ipv6Addr)
    requires { length octets.now ≡ 16 }
    ensures composed { ⟦<Ipv6Addr as Parse<'static>>⟧.reads (⟦<Ipv6Addr as Compose>⟧.composed address) address }
    ensures read { ⟦<Ipv6Addr as Parse<'static>>⟧.reads octets.now read → ⟦<Ipv6Addr as Compose>⟧.composed read ≡ octets.now }
{}
