//! Fields that are converted. Numbers and addresses hold no octets, and are copied.
use super::ConvertField;
use crate::{Compressible, Tag, Uncompressed};
use dns_name::{AppendError, EmptyBuilder, FromBuilder, Name, Octets, OctetsFrom, ToName};
use dns_text::CharStr;
use std::alloc::Global;
use std::net::{Ipv4Addr, Ipv6Addr};

impl<Octs: FromBuilder> ConvertField<u8, Octs> for u8
where
    Octs::Builder: EmptyBuilder + Drop,
{
    fn convert_field(&self, _alloc: Global) -> Result<u8, AppendError> {
        Ok(*self)
    }
}

impl<Octs: FromBuilder> ConvertField<u16, Octs> for u16
where
    Octs::Builder: EmptyBuilder + Drop,
{
    fn convert_field(&self, _alloc: Global) -> Result<u16, AppendError> {
        Ok(*self)
    }
}

impl<Octs: FromBuilder> ConvertField<u32, Octs> for u32
where
    Octs::Builder: EmptyBuilder + Drop,
{
    fn convert_field(&self, _alloc: Global) -> Result<u32, AppendError> {
        Ok(*self)
    }
}

impl<Octs: FromBuilder> ConvertField<Ipv4Addr, Octs> for Ipv4Addr
where
    Octs::Builder: EmptyBuilder + Drop,
{
    fn convert_field(&self, _alloc: Global) -> Result<Ipv4Addr, AppendError> {
        Ok(*self)
    }
}

impl<Octs: FromBuilder> ConvertField<Ipv6Addr, Octs> for Ipv6Addr
where
    Octs::Builder: EmptyBuilder + Drop,
{
    fn convert_field(&self, _alloc: Global) -> Result<Ipv6Addr, AppendError> {
        Ok(*self)
    }
}

/// Made flat, without pointers.
impl<N: ToName, Octs: FromBuilder> ConvertField<Compressible<Name<Octs>>, Octs> for Compressible<N>
where
    Octs::Builder: EmptyBuilder + Drop,
{
    fn convert_field(&self, alloc: Global) -> Result<Compressible<Name<Octs>>, AppendError> {
        Ok(Compressible(self.0.try_to_name(alloc)?))
    }
}

/// Made flat, without pointers.
impl<N: ToName, Octs: FromBuilder> ConvertField<Uncompressed<Name<Octs>>, Octs> for Uncompressed<N>
where
    Octs::Builder: EmptyBuilder + Drop,
{
    fn convert_field(&self, alloc: Global) -> Result<Uncompressed<Name<Octs>>, AppendError> {
        Ok(Uncompressed(self.0.try_to_name(alloc)?))
    }
}

impl<Source: Octets, Octs: FromBuilder> ConvertField<CharStr<Octs>, Octs> for CharStr<Source>
where
    Octs::Builder: EmptyBuilder + Drop,
{
    fn convert_field(&self, alloc: Global) -> Result<CharStr<Octs>, AppendError> {
        CharStr::try_octets_from(alloc, self.for_ref())
    }
}

impl<Source: Octets, Octs: FromBuilder> ConvertField<Tag<Octs>, Octs> for Tag<Source>
where
    Octs::Builder: EmptyBuilder + Drop,
{
    fn convert_field(&self, alloc: Global) -> Result<Tag<Octs>, AppendError> {
        Ok(Tag(CharStr::try_octets_from(alloc, self.0.for_ref())?))
    }
}
