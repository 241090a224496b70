//! What octets a row holds: those of its first field that holds some.
use crate::{Compressible, HasFields, Last, Rest16, Rest64, RestText, Strings, Tag, Uncompressed};
use dns_name::{FromBuilder, Name};
use dns_text::CharStr;
use std::net::{Ipv4Addr, Ipv6Addr};

/// A row whose fields are held in octets of one kind.
pub trait OverOctets: HasFields {
    type Octets: FromBuilder;
}

/// Nothing is held, so any octets do.
impl OverOctets for () {
    type Octets = Vec<u8>;
}

impl<B: OverOctets> OverOctets for (u8, B) {
    type Octets = B::Octets;
}

impl<B: OverOctets> OverOctets for (u16, B) {
    type Octets = B::Octets;
}

impl<B: OverOctets> OverOctets for (u32, B) {
    type Octets = B::Octets;
}

impl<B: OverOctets> OverOctets for (Ipv4Addr, B) {
    type Octets = B::Octets;
}

impl<B: OverOctets> OverOctets for (Ipv6Addr, B) {
    type Octets = B::Octets;
}

impl<Octs: FromBuilder, B: HasFields> OverOctets for (Compressible<Name<Octs>>, B) {
    type Octets = Octs;
}

impl<Octs: FromBuilder, B: HasFields> OverOctets for (Uncompressed<Name<Octs>>, B) {
    type Octets = Octs;
}

impl<Octs: FromBuilder, B: HasFields> OverOctets for (CharStr<Octs>, B) {
    type Octets = Octs;
}

impl<Octs: FromBuilder, B: HasFields> OverOctets for (Tag<Octs>, B) {
    type Octets = Octs;
}

impl<Octs: FromBuilder> OverOctets for Last<RestText<Octs>> {
    type Octets = Octs;
}

impl<Octs: FromBuilder> OverOctets for Last<Rest16<Octs>> {
    type Octets = Octs;
}

impl<Octs: FromBuilder> OverOctets for Last<Rest64<Octs>> {
    type Octets = Octs;
}

impl<Octs: FromBuilder> OverOctets for Last<Strings<Octs>> {
    type Octets = Octs;
}
