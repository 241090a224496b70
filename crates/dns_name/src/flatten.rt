//! Makes names flat that are held otherwise.
ghost use Rattle.std.specs.Prelude.{◌≡◌, ◌++◌, Err, length, IfOk};
ghost use Rattle.dns_label.specs.Name.{wire};
ghost use Rattle.dns_octets.specs.Builder.{IsPast};
ghost use Rattle.dns_octets.specs.declared.error.AppendError.TheVariants.{ShortBuf, BadLength};

use crate::ParsedName;
use dns_flat::{Chain, Name, ToName, ToRelativeName};
use dns_octets::{AppendError, EmptyBuilder, FromBuilder, Octets};
use std::alloc::Global;

/// A value whose names can be made flat.
///
/// `flattens` relates the value to the flat one, and `is_long` says that the flat names are too long for the octets of
/// the other kind.
pub trait FlattenInto<T>: Sized {
    ghost flattens: { Self → T → Type 0 };

    ghost is_long: { Self → Type 0 };

    /// Returns the same value with flat names. Fails with `ShortBuf` only if these do not fit, and with `OutOfMemory`
    /// if out of memory.
    fn try_flatten_into(self, alloc: Global) -> Result<T, AppendError>
        ensures ok { IfOk result (flattens self) }
        ensures short { result ≡ Err ShortBuf → is_long self }
        ensures not_bad { result ≡ Err BadLength → ⊥ };

    /// Returns the same value with flat names, as `try_flatten_into` does.
    final fn flatten_into(self, alloc: Global) -> Result<T, AppendError>
        ensures ok { IfOk result (flattens self) }
        ensures short { result ≡ Err ShortBuf → is_long self }
        ensures not_bad { result ≡ Err BadLength → ⊥ }
    {
        self.try_flatten_into(alloc)
    }
}

impl<Source: Octets + Drop, Octs: FromBuilder> FlattenInto<Name<Octs>> for Name<Source>
where
    Octs::Builder: EmptyBuilder + Drop,
{
    ghost flattens = { λ name flat. flat ≡ name };

    ghost is_long = { λ name. IsPast Octs.Builder.limit (length (wire name)) };

    fn try_flatten_into(self, alloc: Global) -> Result<Name<Octs>, AppendError> {
        self.try_to_name(alloc)
    }
}

impl<Source: Octets + Drop, Octs: FromBuilder> FlattenInto<Name<Octs>> for ParsedName<Source>
where
    Octs::Builder: EmptyBuilder + Drop,
{
    ghost use Rattle.dns_name.specs.ParsedName.{labels_in};

    ghost flattens = { λ name flat. flat ≡ labels_in Source.list name };

    ghost is_long = { λ name. IsPast Octs.Builder.limit (length (wire (labels_in Source.list name))) };

    fn try_flatten_into(self, alloc: Global) -> Result<Name<Octs>, AppendError> {
        self.try_to_name(alloc)
    }
}

impl<L: ToRelativeName + Drop, R: ToName + Drop, Octs: FromBuilder> FlattenInto<Name<Octs>>
    for Chain<L, R>
where
    Octs::Builder: EmptyBuilder + Drop,
{
    ghost use Rattle.dns_flat.specs.ChainParts.{left_of, right_of};

    ghost flattens = { λ chain flat. flat ≡ L.labels (left_of chain) ++ R.name (right_of chain) };

    ghost is_long = { λ chain. IsPast Octs.Builder.limit (length (wire (L.labels (left_of chain) ++ R.name (right_of chain)))) };

    fn try_flatten_into(self, alloc: Global) -> Result<Name<Octs>, AppendError> {
        self.try_to_name(alloc)
    }
}
